// The open quarter-hour and the open day of reported seconds: a second joined to both, their lines, and what is closed emptied. What puts lines has a function beside
// it, by its name with `_at`, that puts them into lent bytes of any length, from a place on, and answers the place after them.
#![tactic(auto)]

ghost use Rattle.std.specs.Prelude.{◌≡◌, ◌++◌, ◌+◌, ◌≤◌, length};
ghost use Rattle.answer.specs.Over.{over};
ghost use Rattle.listing.specs.Text.{fitted, second_room, bin_room};
ghost use Rattle.bins.specs.Bins.{without_levels, bins_with, no_bins, opened_of, bin_number, line_if, bin_lines, closed_lines, rest_lines};

use arrayvec::ArrayVec;
use summary::Summary;

// `second_room` of specs/.
const SECOND_ROOM: usize = 1094;

#[derive(Clone, Copy, Debug, PartialEq, Eq)]
pub struct Bins {
    pub quarter: Summary,
    pub day: Summary,
}

// None is open.
pub fn no_bins() -> Bins
    ensures { result ≡ no_bins }
{
    Bins {
        quarter: summary::empty(),
        day: summary::empty(),
    }
}

// The 22 figures of line, section and path, of a second's.
fn without_levels(f: &[u32; 52]) -> [u32; 22]
    ensures { result ≡ without_levels f.now }
{
    *f.first_chunk::<22>().unwrap()
}

// The number, from 0, of the quarter-hour or day of `size` seconds that a second lies in.
fn number_of(first: u64, size: u64) -> u64
    requires { 1 ≤ size }
    ensures { result ≡ bin_number first size }
{
    if first == 0 { 0 } else { (first - 1) / size }
}

// A line, where it is to be put.
fn put_if<const CAP: usize>(
    print: bool,
    letter: u8,
    size: u64,
    s: &Summary,
    out: &mut ArrayVec<u8, CAP>,
)
    requires size { 1 ≤ size }
    requires room { length out.old.items + bin_room ≤ CAP }
    ensures items { out.new.items ≡ out.old.items ++ line_if print letter size s.now }
    ensures bound { length out.new.items ≤ length out.old.items + bin_room }
{
    if print {
        listing::bin_line(
            letter,
            number_of(s.first, size),
            summary::numbers_of(s),
            out,
        );
    }
}

impl Bins {
    // A second joined to the open quarter-hour and to the open day. What does not follow on leaves none open.
    #[tactic(auto, using(summary::proofs::Joins::or_empty), unfolding(crate::specs::Bins::bins_with, summary::specs::Summary::second_of))]
    pub fn add(&mut self, figures: &[u32; 52])
        ensures { self.new ≡ bins_with self.old figures.now }
    {
        let second = summary::second_of(&without_levels(figures));
        self.quarter = summary::join(&self.quarter, &second).unwrap_or(summary::empty());
        self.day = summary::join(&self.day, &second).unwrap_or(summary::empty());
    }

    // What closes with second n is emptied.
    #[tactic(auto, unfolding(crate::specs::Bins::opened_of))]
    pub fn close(&mut self, n: u32)
        ensures { self.new ≡ opened_of self.old n }
    {
        if n % 900 == 0 {
            self.quarter = summary::empty();
        }
        if n % 86400 == 0 {
            self.day = summary::empty();
        }
    }

    // The line of the quarter-hour, and then the line of the day, where each is to be put, as `listing::put_text` does, where there is room for `second_room`.
    #[tactic(auto, using(listing::proofs::Texts::fitted_is), unfolding(listing::specs::Text::fitted, crate::specs::Bins::bin_lines))]
    fn put_bins<const CAP: usize>(&self, quarter: bool, day: bool, out: &mut ArrayVec<u8, CAP>)
        ensures put { out.new.items ≡ out.old.items ++ fitted CAP (length out.old.items) second_room (bin_lines quarter day self.now) }
        ensures whole { length out.old.items + second_room ≤ CAP → out.new.items ≡ out.old.items ++ bin_lines quarter day self.now }
        ensures bound { length out.new.items ≤ length out.old.items + second_room }
    {
        if SECOND_ROOM <= out.remaining_capacity() {
            put_if(quarter, b'Q', 900, &self.quarter, out);
            put_if(day, b'D', 86400, &self.day, out);
        }
    }

    // Puts the lines of what closes with second n.
    pub fn closed_lines<const CAP: usize>(&self, n: u32, out: &mut ArrayVec<u8, CAP>)
        ensures put { out.new.items ≡ out.old.items ++ fitted CAP (length out.old.items) second_room (closed_lines self.now n) }
        ensures whole { length out.old.items + second_room ≤ CAP → out.new.items ≡ out.old.items ++ closed_lines self.now n }
        ensures bound { length out.new.items ≤ length out.old.items + second_room }
    {
        self.put_bins(n % 900 == 0, n % 86400 == 0, out);
    }

    // Puts the lines of what is open at the end, and has a second.
    pub fn rest_lines<const CAP: usize>(&self, out: &mut ArrayVec<u8, CAP>)
        ensures put { out.new.items ≡ out.old.items ++ fitted CAP (length out.old.items) second_room (rest_lines self.now) }
        ensures whole { length out.old.items + second_room ≤ CAP → out.new.items ≡ out.old.items ++ rest_lines self.now }
        ensures bound { length out.new.items ≤ length out.old.items + second_room }
    {
        self.put_bins(0 < self.quarter.length, 0 < self.day.length, out);
    }
}

// `closed_lines` for lent bytes of any length, from a place on.
pub fn closed_lines_at(b: Bins, n: u32, out: &mut [u8], at: usize) -> usize
    ensures { (result ≡ at + length (fitted (length out.old) at second_room (closed_lines b n))) × (result ≤ at + second_room) × (out.new ≡ over out.old at (fitted (length out.old) at second_room (closed_lines b n))) }
{
    let mut lines = ArrayVec::<u8, SECOND_ROOM>::new();
    b.closed_lines(n, &mut lines);
    listing::put_line_at(&lines, out, at)
}

// `rest_lines` for lent bytes of any length, from a place on.
pub fn rest_lines_at(b: Bins, out: &mut [u8], at: usize) -> usize
    ensures { (result ≡ at + length (fitted (length out.old) at second_room (rest_lines b))) × (result ≤ at + second_room) × (out.new ≡ over out.old at (fitted (length out.old) at second_room (rest_lines b))) }
{
    let mut rest = ArrayVec::<u8, SECOND_ROOM>::new();
    b.rest_lines(&mut rest);
    listing::put_line_at(&rest, out, at)
}
