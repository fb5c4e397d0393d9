// The text of the listing's lines, put at the end of a lent buffer. Each public function has one beside it, by its name with `_at`, that puts the same text into lent
// bytes of any length, from a place on, and answers the place after it.
// No Display and no `write!`: tried, and a line took 2.2 times the instructions into a String, and 4.7 times by a writer, with an adapter for each piece.
#![tactic(auto)]

ghost use Rattle.std.specs.Prelude.{◌≡◌, [], ◌∷◌, ◌++◌, ◌+◌, ◌*◌, ◌≤◌, length, take};
ghost use Rattle.answer.specs.Over.{over};
ghost use Rattle.listing.specs.Text.{decimal_of, spaced, fields_of, line_start, text_line, fitted, second_line, refusal_line, end_line, number_room, start_room, second_room, bin_room, pair_room};

use arrayvec::ArrayVec;
use itoa::Buffer;

// The rooms of specs/.
const NUMBER_ROOM: usize = 20;

const START_ROOM: usize = 64;

const SECOND_ROOM: usize = 1094;

const BIN_ROOM: usize = 506;

const PAIR_ROOM: usize = 44;

// Puts a text at the end. Where there is no room for all of it, it puts nothing.
// Three clauses, here and below, and no one definition: callers cite each by its name, and a reader sees what is put, when it is all, and how much.
#[tactic(auto, using(crate::proofs::Texts::fitted_is), unfolding(crate::specs::Text::fitted))]
pub fn put_text<const CAP: usize>(text: &[u8], out: &mut ArrayVec<u8, CAP>)
    ensures put { out.new.items ≡ out.old.items ++ fitted CAP (length out.old.items) (length text.now) text.now }
    ensures whole { length out.old.items + length text.now ≤ CAP → out.new.items ≡ out.old.items ++ text.now }
    ensures bound { length out.new.items ≤ length out.old.items + length text.now }
{
    let _ = out.try_extend_from_slice(text);
}

// Puts the digits of a number, as `put_text` does, where there is room for 20.
#[tactic(auto, using(crate::proofs::Texts::decimal_is, crate::proofs::Texts::fitted_is), unfolding(crate::specs::Text::fitted))]
pub fn put_number<const CAP: usize>(n: u64, out: &mut ArrayVec<u8, CAP>)
    ensures put { out.new.items ≡ out.old.items ++ fitted CAP (length out.old.items) number_room (decimal_of n) }
    ensures whole { length out.old.items + number_room ≤ CAP → out.new.items ≡ out.old.items ++ decimal_of n }
    ensures bound { length out.new.items ≤ length out.old.items + number_room }
{
    if NUMBER_ROOM <= out.remaining_capacity() {
        let mut digits = Buffer::new();
        out.try_extend_from_slice(digits.format(n).as_bytes())
            .unwrap();
    }
}

// A blank and a number.
#[tactic(auto, unfolding(crate::specs::Text::spaced))]
fn put_field<const CAP: usize>(n: u64, out: &mut ArrayVec<u8, CAP>)
    requires { length out.old.items + 21 ≤ CAP }
    ensures items { out.new.items ≡ out.old.items ++ spaced n }
    ensures bound { length out.new.items ≤ length out.old.items + 21 }
{
    out.push(b' ');
    put_number(n, out);
}

// The numbers, each after a blank.
#[tactic(auto, unfolding(crate::specs::Text::fields_of))]
fn put_fields<const CAP: usize>(ns: &[u64], out: &mut ArrayVec<u8, CAP>)
    requires { length out.old.items + 21 * length ns.now ≤ CAP }
    ensures items { out.new.items ≡ out.old.items ++ fields_of ns.now }
    ensures bound { length out.new.items ≤ length out.old.items + 21 * length ns.now }
{
    for n in ns {
        put_field(*n, out);
    }
}

// Puts a letter and three numbers, the start of a line, as `put_text` does, where there is room for `start_room`.
#[tactic(auto, using(crate::proofs::Texts::fitted_is), unfolding(crate::specs::Text::fitted))]
pub fn put_start<const CAP: usize>(letter: u8, ns: [u64; 3], out: &mut ArrayVec<u8, CAP>)
    ensures put { out.new.items ≡ out.old.items ++ fitted CAP (length out.old.items) start_room (line_start letter ns) }
    ensures whole { length out.old.items + start_room ≤ CAP → out.new.items ≡ out.old.items ++ line_start letter ns }
    ensures bound { length out.new.items ≤ length out.old.items + start_room }
{
    if START_ROOM <= out.remaining_capacity() {
        out.push(letter);
        put_fields(&ns, out);
    }
}

// The line of a closed second.
#[tactic(auto, unfolding(crate::specs::Text::fields_of))]
fn put_second<const CAP: usize>(figures: &[u32], out: &mut ArrayVec<u8, CAP>)
    requires { length out.old.items + second_room ≤ CAP }
    ensures items { out.new.items ≡ out.old.items ++ second_line (take 52 figures.now) }
    ensures bound { length out.new.items ≤ length out.old.items + second_room }
{
    out.push(b'S');
    for n in &figures[..figures.len().min(52)] {
        put_field(u64::from(*n), out);
    }
    out.push(b'\n');
}

// Puts the line of a closed second, of the first 52 of its figures (no second has more), as `put_text` does, where there is room for `second_room`.
#[tactic(auto, using(crate::proofs::Texts::fitted_is), unfolding(crate::specs::Text::fitted))]
pub fn second_line<const CAP: usize>(figures: &[u32], out: &mut ArrayVec<u8, CAP>)
    ensures put { out.new.items ≡ out.old.items ++ fitted CAP (length out.old.items) second_room (second_line (take 52 figures.now)) }
    ensures whole { length out.old.items + second_room ≤ CAP → out.new.items ≡ out.old.items ++ second_line (take 52 figures.now) }
    ensures bound { length out.new.items ≤ length out.old.items + second_room }
{
    if SECOND_ROOM <= out.remaining_capacity() {
        put_second(figures, out);
    }
}

// Puts the line of a quarter-hour or a day, of its letter, its number and its summary's, as `second_line` does, where there is room for `bin_room`.
#[tactic(auto, using(crate::proofs::Texts::fitted_is), unfolding(crate::specs::Text::fitted, crate::specs::Text::text_line, crate::specs::Text::fields_of))]
pub fn bin_line<const CAP: usize>(
    letter: u8,
    number: u64,
    figures: [u64; 23],
    out: &mut ArrayVec<u8, CAP>,
)
    ensures put { out.new.items ≡ out.old.items ++ fitted CAP (length out.old.items) bin_room (text_line letter (number ∷ figures)) }
    ensures whole { length out.old.items + bin_room ≤ CAP → out.new.items ≡ out.old.items ++ text_line letter (number ∷ figures) }
    ensures bound { length out.new.items ≤ length out.old.items + bin_room }
{
    if BIN_ROOM <= out.remaining_capacity() {
        out.push(letter);
        put_field(number, out);
        put_fields(&figures, out);
        out.push(b'\n');
    }
}

// A letter and two numbers.
#[tactic(auto, using(crate::proofs::Texts::fitted_is), unfolding(crate::specs::Text::fitted, crate::specs::Text::text_line, crate::specs::Text::fields_of))]
fn pair_line<const CAP: usize>(letter: u8, a: u64, b: u64, out: &mut ArrayVec<u8, CAP>)
    ensures put { out.new.items ≡ out.old.items ++ fitted CAP (length out.old.items) pair_room (text_line letter (a ∷ b ∷ [])) }
    ensures whole { length out.old.items + pair_room ≤ CAP → out.new.items ≡ out.old.items ++ text_line letter (a ∷ b ∷ []) }
    ensures bound { length out.new.items ≤ length out.old.items + pair_room }
{
    if PAIR_ROOM <= out.remaining_capacity() {
        out.push(letter);
        put_field(a, out);
        put_field(b, out);
        out.push(b'\n');
    }
}

// Puts the line of a refusal, as `second_line` does, where there is room for `pair_room`.
pub fn refusal_line<const CAP: usize>(number: u8, offset: u64, out: &mut ArrayVec<u8, CAP>)
    ensures put { out.new.items ≡ out.old.items ++ fitted CAP (length out.old.items) pair_room (refusal_line number offset) }
    ensures whole { length out.old.items + pair_room ≤ CAP → out.new.items ≡ out.old.items ++ refusal_line number offset }
    ensures bound { length out.new.items ≤ length out.old.items + pair_room }
{
    pair_line(b'R', u64::from(number), offset, out);
}

// Puts the last line, as `second_line` does, where there is room for `pair_room`.
pub fn end_line<const CAP: usize>(marks: u32, frames: u64, out: &mut ArrayVec<u8, CAP>)
    ensures put { out.new.items ≡ out.old.items ++ fitted CAP (length out.old.items) pair_room (end_line marks frames) }
    ensures whole { length out.old.items + pair_room ≤ CAP → out.new.items ≡ out.old.items ++ end_line marks frames }
    ensures bound { length out.new.items ≤ length out.old.items + pair_room }
{
    pair_line(b'E', u64::from(marks), frames, out);
}

// `put_text` for lent bytes of any length, from a place on: where there is no room for all of the text, it puts nothing. Answers the place after it.
pub fn put_text_at(src: &[u8], out: &mut [u8], at: usize) -> usize
    ensures { (result ≡ at + length (fitted (length out.old) at (length src.now) src.now)) × (out.new ≡ over out.old at (fitted (length out.old) at (length src.now) src.now)) }
{
    if src.len() <= out.len() && at <= out.len() - src.len() {
        out[at..at + src.len()].copy_from_slice(src);
        return at + src.len();
    }
    at
}

// Puts the line that a vector holds, as `put_text_at` does, where there is room for all that the vector could hold.
pub fn put_line_at<const CAP: usize>(line: &ArrayVec<u8, CAP>, out: &mut [u8], at: usize) -> usize
    ensures { (result ≡ at + length (fitted (length out.old) at CAP line.now.items)) × (result ≤ at + CAP) × (out.new ≡ over out.old at (fitted (length out.old) at CAP line.now.items)) }
{
    if CAP <= out.len().saturating_sub(at) {
        return put_text_at(line.as_slice(), out, at);
    }
    at
}

// `put_number` for lent bytes of any length, from a place on.
pub fn put_number_at(n: u64, out: &mut [u8], at: usize) -> usize
    ensures { (result ≡ at + length (fitted (length out.old) at number_room (decimal_of n))) × (out.new ≡ over out.old at (fitted (length out.old) at number_room (decimal_of n))) }
{
    let mut digits = ArrayVec::<u8, NUMBER_ROOM>::new();
    put_number(n, &mut digits);
    put_line_at(&digits, out, at)
}

// `put_start` for lent bytes of any length, from a place on.
pub fn put_start_at(letter: u8, ns: [u64; 3], out: &mut [u8], at: usize) -> usize
    ensures { (result ≡ at + length (fitted (length out.old) at start_room (line_start letter ns))) × (out.new ≡ over out.old at (fitted (length out.old) at start_room (line_start letter ns))) }
{
    let mut start = ArrayVec::<u8, START_ROOM>::new();
    put_start(letter, ns, &mut start);
    put_line_at(&start, out, at)
}

// `second_line` for lent bytes of any length, from a place on: of the first n of the figures (all of them where n is more).
#[tactic(auto, using(crate::proofs::Places::first_of))]
pub fn second_line_at(figures: [u32; 52], n: usize, out: &mut [u8], at: usize) -> usize
    ensures { (result ≡ at + length (fitted (length out.old) at second_room (second_line (take n figures)))) × (result ≤ at + second_room) × (out.new ≡ over out.old at (fitted (length out.old) at second_room (second_line (take n figures)))) }
{
    let mut line = ArrayVec::<u8, SECOND_ROOM>::new();
    second_line(&figures[..n.min(52)], &mut line);
    put_line_at(&line, out, at)
}

// `bin_line` for lent bytes of any length, from a place on.
pub fn bin_line_at(letter: u8, number: u64, ns: [u64; 23], out: &mut [u8], at: usize) -> usize
    ensures { (result ≡ at + length (fitted (length out.old) at bin_room (text_line letter (number ∷ ns)))) × (result ≤ at + bin_room) × (out.new ≡ over out.old at (fitted (length out.old) at bin_room (text_line letter (number ∷ ns)))) }
{
    let mut line = ArrayVec::<u8, BIN_ROOM>::new();
    bin_line(letter, number, ns, &mut line);
    put_line_at(&line, out, at)
}

// `refusal_line` for lent bytes of any length, from a place on.
pub fn refusal_line_at(number: u8, offset: u64, out: &mut [u8], at: usize) -> usize
    ensures { (result ≡ at + length (fitted (length out.old) at pair_room (refusal_line number offset))) × (out.new ≡ over out.old at (fitted (length out.old) at pair_room (refusal_line number offset))) }
{
    let mut line = ArrayVec::<u8, PAIR_ROOM>::new();
    refusal_line(number, offset, &mut line);
    put_line_at(&line, out, at)
}

// `end_line` for lent bytes of any length, from a place on.
pub fn end_line_at(marks: u32, frames: u64, out: &mut [u8], at: usize) -> usize
    ensures { (result ≡ at + length (fitted (length out.old) at pair_room (end_line marks frames))) × (out.new ≡ over out.old at (fitted (length out.old) at pair_room (end_line marks frames))) }
{
    let mut line = ArrayVec::<u8, PAIR_ROOM>::new();
    end_line(marks, frames, &mut line);
    put_line_at(&line, out, at)
}
