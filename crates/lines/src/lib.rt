// The line of a record that a scan told, from what was shown before it and the state after it; of a second that it reported; and the last lines. What puts lines has a
// function beside it, by its name with `_at`, that puts them into lent bytes of any length, from a place on, and answers the place after them.
#![tactic(auto)]

ghost use Rattle.std.specs.Prelude.{◌≡◌, ◌++◌, ◌+◌, ◌≤◌, length};
ghost use Rattle.answer.specs.Over.{over};
ghost use Rattle.listing.specs.Text.{fitted, second_room, second_line};
ghost use Rattle.change.specs.Change.{change_room};
ghost use Rattle.tandem.specs.Levels.{listed_of};
ghost use Rattle.stream.specs.Stream.{last_listed, second, change};
ghost use Rattle.lines.specs.Line.{shown_in, line_for, told_for, closed_text, reported_text, opened_by, pending_line, last_closed, office_end, end_text, end_lines, ending_of, last_room};

use arrayvec::ArrayVec;
use bins::Bins;
use change::Shown;
use tandem::Level;
use trace::State;

// The rooms of specs/.
const SECOND_ROOM: usize = 1094;

const CHANGE_ROOM: usize = 2560;

const LAST_ROOM: usize = 2276;

// What a state shows.
pub fn shown_in(st: &State) -> Shown
    ensures { result ≡ shown_in st.now }
{
    let levels = st.levels;
    let report = causes::report_of(st.standing, 0, 0);
    change::shown_of(&st.sup.tandem, report, levels)
}

// Puts the line of a record that was told, `before` being shown before it and the frames accepted with it being `total`, as `listing::put_text` does,
// where there is room for `change_room`.
pub fn told_line<const CAP: usize>(
    total: u64,
    before: &Shown,
    is: &State,
    out: &mut ArrayVec<u8, CAP>,
)
    ensures put { out.new.items ≡ out.old.items ++ fitted CAP (length out.old.items) change_room (told_for total before.now is.now) }
    ensures whole { length out.old.items + change_room ≤ CAP → out.new.items ≡ out.old.items ++ told_for total before.now is.now }
    ensures bound { length out.new.items ≤ length out.old.items + change_room }
{
    let after = shown_in(is);
    let base = &is.sup.tandem.base;
    let second = u64::from(base.seconds) + 1;
    change::change_line(second, base.second.frames.0, total, before, &after, out);
}

// Puts the line of a second, of its figures the twenty-two and the five of each provisioned level, where there is room for `second_room`.
fn listed_line<const CAP: usize>(
    levels: &[Level; 6],
    second: &[u32; 52],
    out: &mut ArrayVec<u8, CAP>,
)
    ensures put { out.new.items ≡ out.old.items ++ fitted CAP (length out.old.items) second_room (second_line (listed_of levels.now second.now)) }
    ensures whole { length out.old.items + second_room ≤ CAP → out.new.items ≡ out.old.items ++ second_line (listed_of levels.now second.now) }
    ensures bound { length out.new.items ≤ length out.old.items + second_room }
{
    let listed = tandem::listed_figures(levels, second);
    listing::second_line(listed.as_slice(), out);
}

// `office`, `b` and `st` stand apart, here and below: fields of what reads, which has more, and `open_after` changes b alone.
// Puts the line of the second that was reported last, or for the office the lines of what it closes, b being open before it, where there is room for
// `second_room`.
#[tactic(auto, unfolding(crate::specs::Line::line_for))]
pub fn reported_lines<const CAP: usize>(
    office: bool,
    b: &Bins,
    st: &State,
    out: &mut ArrayVec<u8, CAP>,
)
    ensures put { out.new.items ≡ out.old.items ++ fitted CAP (length out.old.items) second_room (reported_text office b.now st.now) }
    ensures whole { length out.old.items + second_room ≤ CAP → out.new.items ≡ out.old.items ++ reported_text office b.now st.now }
    ensures bound { length out.new.items ≤ length out.old.items + second_room }
{
    if office {
        let mut with = *b;
        with.add(&st.last);
        with.closed_lines(st.last[0], out);
    } else {
        listed_line(&st.sup.tandem.levels, &st.last, out);
    }
}

// Leaves open what is after the second that was reported last.
pub fn open_after(b: &mut Bins, st: &State)
    ensures { b.new ≡ opened_by b.old st.now }
{
    b.add(&st.last);
    b.close(st.last[0]);
}

// Puts the line of the pending second, if there is one.
fn pending_line<const CAP: usize>(st: &State, out: &mut ArrayVec<u8, CAP>)
    requires { length out.old.items + second_room ≤ CAP }
    ensures items { out.new.items ≡ out.old.items ++ pending_line st.now }
    ensures bound { length out.new.items ≤ length out.old.items + second_room }
{
    if let Some(figures) = st.sup.pending() {
        listed_line(&st.sup.tandem.levels, &figures, out);
    }
}

// Puts the lines of what a last second closes, and of what is open then.
fn last_closed<const CAP: usize>(b: &Bins, f: &[u32; 52], out: &mut ArrayVec<u8, CAP>)
    requires { length out.old.items + 2188 ≤ CAP }
    ensures items { out.new.items ≡ out.old.items ++ last_closed b.now f.now }
    ensures bound { length out.new.items ≤ length out.old.items + 2188 }
{
    let mut with = *b;
    with.add(f);
    with.closed_lines(f[0], out);
    with.close(f[0]);
    with.rest_lines(out);
}

// Puts for the office the lines of what the pending second, if there is one, closes, and of what is open then.
fn office_end<const CAP: usize>(b: &Bins, st: &State, out: &mut ArrayVec<u8, CAP>)
    requires { length out.old.items + 2188 ≤ CAP }
    ensures items { out.new.items ≡ out.old.items ++ office_end b.now st.now }
    ensures bound { length out.new.items ≤ length out.old.items + 2188 }
{
    match st.sup.pending() {
        Some(figures) => last_closed(b, &figures, out),
        None => b.rest_lines(out),
    }
}

// Puts what is told at the end: of the pending second, and for the office of what is open.
fn end_text<const CAP: usize>(office: bool, b: &Bins, st: &State, out: &mut ArrayVec<u8, CAP>)
    requires { length out.old.items + 2188 ≤ CAP }
    ensures items { out.new.items ≡ out.old.items ++ end_text office b.now st.now }
    ensures bound { length out.new.items ≤ length out.old.items + 2188 }
{
    if office {
        office_end(b, st, out);
    } else {
        pending_line(st, out);
    }
}

// What a scan came to: the number of its refusal (0: none), the offset of the next record or of the refused one, and the frames accepted.
// A number, and no Option<Refusal>: `last_lines` is promised for each number.
#[derive(Clone, Copy, Debug, PartialEq, Eq)]
pub struct Outcome {
    pub refusal: u8,
    pub offset: u64,
    pub frames: u64,
}

impl Outcome {
    // Puts the refusal, if there is one, and what was accepted.
    #[tactic(auto, unfolding(crate::specs::Line::end_lines))]
    fn put<const CAP: usize>(&self, marks: u32, out: &mut ArrayVec<u8, CAP>)
        requires { length out.old.items + 88 ≤ CAP }
        ensures items { out.new.items ≡ out.old.items ++ end_lines self.now.refusal self.now.offset marks self.now.frames }
        ensures bound { length out.new.items ≤ length out.old.items + 88 }
    {
        if self.refusal != 0 {
            listing::refusal_line(self.refusal, self.offset, out);
        }
        listing::end_line(marks, self.frames, out);
    }
}

// Puts the last lines, where the output is `done` with them, as `listing::put_text` does, where there is room for `last_room`: the pending second, the
// refusal, if there is one, and what was accepted.
#[tactic(auto, using(listing::proofs::Texts::fitted_is), unfolding(listing::specs::Text::fitted, crate::specs::Line::last_lines))]
pub fn last_lines<const CAP: usize>(
    done: bool,
    office: bool,
    b: &Bins,
    st: &State,
    outcome: &Outcome,
    out: &mut ArrayVec<u8, CAP>,
)
    ensures put { out.new.items ≡ out.old.items ++ fitted CAP (length out.old.items) last_room (ending_of done office b.now st.now outcome.now.refusal outcome.now.offset outcome.now.frames) }
    ensures whole { length out.old.items + last_room ≤ CAP → out.new.items ≡ out.old.items ++ ending_of done office b.now st.now outcome.now.refusal outcome.now.offset outcome.now.frames }
    ensures bound { length out.new.items ≤ length out.old.items + last_room }
{
    if done & (LAST_ROOM <= out.remaining_capacity()) {
        end_text(office, b, st, out);
        outcome.put(st.sup.tandem.base.seconds, out);
    }
}

// `told_line` for lent bytes of any length, from a place on, of the states before and after the record.
#[tactic(auto, unfolding(crate::specs::Line::line_for))]
pub fn told_line_at(was: State, is: State, total: u64, out: &mut [u8], at: usize) -> usize
    ensures { (result ≡ at + length (fitted (length out.old) at change_room (line_for (change total was is)))) × (result ≤ at + change_room) × (out.new ≡ over out.old at (fitted (length out.old) at change_room (line_for (change total was is)))) }
{
    let mut line = ArrayVec::<u8, CHANGE_ROOM>::new();
    told_line(total, &shown_in(&was), &is, &mut line);
    listing::put_line_at(&line, out, at)
}

// `reported_lines` for lent bytes of any length, from a place on.
pub fn reported_lines_at(office: bool, b: Bins, st: State, out: &mut [u8], at: usize) -> usize
    ensures { (result ≡ at + length (fitted (length out.old) at second_room (reported_text office b st))) × (result ≤ at + second_room) × (out.new ≡ over out.old at (fitted (length out.old) at second_room (reported_text office b st))) }
{
    let mut lines = ArrayVec::<u8, SECOND_ROOM>::new();
    reported_lines(office, &b, &st, &mut lines);
    listing::put_line_at(&lines, out, at)
}

// `last_lines` for lent bytes of any length, from a place on.
pub fn last_lines_at(
    done: bool,
    office: bool,
    b: Bins,
    st: State,
    refusal: u8,
    offset: u64,
    frames: u64,
    out: &mut [u8],
    at: usize,
) -> usize
    ensures { (result ≡ at + length (fitted (length out.old) at last_room (ending_of done office b st refusal offset frames))) × (out.new ≡ over out.old at (fitted (length out.old) at last_room (ending_of done office b st refusal offset frames))) }
{
    let outcome = Outcome {
        refusal,
        offset,
        frames,
    };
    let mut last = ArrayVec::<u8, LAST_ROOM>::new();
    last_lines(done, office, &b, &st, &outcome, &mut last);
    listing::put_line_at(&last, out, at)
}
