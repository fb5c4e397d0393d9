// The text of a frame at which anything changed, put at the end of a lent buffer, or into lent bytes of any length, from a place on.
#![tactic(auto)]

ghost use Rattle.std.specs.Prelude.{◌≡◌, true, false, ◌++◌, ◌+◌, ◌≤◌, length};
ghost use Rattle.answer.specs.Over.{over};
ghost use Rattle.listing.specs.Text.{fitted};
ghost use Rattle.conditions.specs.Conditions.{change_of};
ghost use Rattle.change.specs.Change.{shown_of, seen_of, level_seen, traces_of, head_change, printable_of, readable_of, told_of, trace_change, level_trace, levels_to, words_of, trace_of, standing_changes, trace_changes, all_changes, frame_line, change_line, change_room};

use arrayvec::ArrayVec;
use causes::Report;
use conditions::{put_conditions, put_level};
use layer::Layer;
use level::LevelStands;
use listing::{put_number, put_start, put_text};
use tandem::{Level, Tandem};

// `change_room` of specs/.
const CHANGE_ROOM: usize = 2560;

// A layer's accepted trace: its bytes where `known`.
// No Option: `shown_of` says the bytes also where no trace is known, and `shown_one` that no others meet its contract.
#[derive(Clone, Copy, Debug, PartialEq, Eq)]
pub struct Seen {
    pub known: bool,
    pub trace: [u8; 64],
}

// What stands after a frame, of the levels too, and the accepted traces.
#[derive(Clone, Copy)]
pub struct Shown {
    pub report: Report,
    pub levels: [LevelStands; 6],
    pub section: Seen,
    pub path: Seen,
    pub traces: [Seen; 6],
}

// A layer's accepted trace.
fn seen_of(l: &Layer) -> Seen
    ensures { result ≡ seen_of l.now }
{
    Seen {
        known: l.known,
        trace: l.accepted,
    }
}

// A level's accepted trace, where it is provisioned.
#[tactic(auto, unfolding(crate::specs::Change::level_seen))]
fn level_seen(l: &Level) -> Seen
    ensures { result ≡ level_seen l.now }
{
    Seen {
        known: l.given & l.state.layer.known,
        trace: l.state.layer.accepted,
    }
}

// The accepted traces of the six levels.
fn traces_of(ls: &[Level; 6]) -> [Seen; 6]
    ensures { result ≡ traces_of ls.now }
{
    let none = Seen {
        known: false,
        trace: [0; 64],
    };
    let mut seen = [none; 6];
    // A `for`, as `levels_erred` of late.
    for (i, l) in ls.iter().enumerate() {
        seen[i] = level_seen(l);
    }
    seen
}

// What stands after a frame: its report, what stands of the levels, and the accepted traces of the supervisor that is left.
#[tactic(auto, unfolding(crate::specs::Change::shown_of))]
pub fn shown_of(t: &Tandem, report: Report, levels: [LevelStands; 6]) -> Shown
    ensures { result ≡ shown_of t.now report levels }
{
    Shown {
        report,
        levels,
        section: seen_of(&t.base.layers.section.layer),
        path: seen_of(&t.base.layers.path.layer),
        traces: traces_of(&t.levels),
    }
}

// The head where it changed.
#[tactic(auto, unfolding(crate::specs::Change::head_change))]
fn put_head<const CAP: usize>(before: u8, after: u8, out: &mut ArrayVec<u8, CAP>)
    requires { length out.old.items + 26 ≤ CAP }
    ensures items { out.new.items ≡ out.old.items ++ head_change before after }
    ensures bound { length out.new.items ≤ length out.old.items + 26 }
{
    if before != after {
        put_text(b" head=", out);
        put_number(u64::from(after), out);
    }
}

// A byte as it is printed.
#[tactic(auto, unfolding(crate::specs::Change::printable_of))]
fn printable(b: u8) -> u8
    ensures { result ≡ printable_of b }
{
    if (32 <= b) & (b <= 126) { b } else { b'.' }
}

// The bytes of a trace as they are printed.
#[tactic(auto, unfolding(crate::specs::Change::readable_of))]
fn put_readable<const CAP: usize>(trace: &[u8; 64], out: &mut ArrayVec<u8, CAP>)
    requires { length out.old.items + 64 ≤ CAP }
    ensures items { out.new.items ≡ out.old.items ++ readable_of trace.now }
    ensures bound { length out.new.items ≡ length out.old.items + 64 }
{
    for b in trace {
        out.push(printable(*b));
    }
}

// A trace under its name.
// A slice for the name, here and below: those of section and path have 8 bytes, those of the levels 10, and its room is 10.
#[tactic(auto, unfolding(crate::specs::Change::told_of))]
fn put_told<const CAP: usize>(name: &[u8], trace: &[u8; 64], out: &mut ArrayVec<u8, CAP>)
    requires name { length name.now ≤ 10 }
    requires room { length out.old.items + 78 ≤ CAP }
    ensures items { out.new.items ≡ out.old.items ++ told_of name.now trace.now }
    ensures bound { length out.new.items ≤ length out.old.items + 78 }
{
    put_text(b" ", out);
    put_text(name, out);
    put_text(b"=\"", out);
    put_readable(trace, out);
    put_text(b"\"", out);
}

// `-` and the name of a trace that is known no longer.
#[tactic(auto, unfolding(conditions::specs::Conditions::change_of))]
fn put_gone<const CAP: usize>(name: &[u8], out: &mut ArrayVec<u8, CAP>)
    requires name { length name.now ≤ 10 }
    requires room { length out.old.items + 78 ≤ CAP }
    ensures items { out.new.items ≡ out.old.items ++ change_of name.now true false }
    ensures bound { length out.new.items ≤ length out.old.items + 78 }
{
    put_text(b" -", out);
    put_text(name, out);
}

// A layer's accepted trace where it changed.
#[tactic(auto, unfolding(crate::specs::Change::trace_change, conditions::specs::Conditions::change_of))]
fn put_trace<const CAP: usize>(
    name: &[u8],
    before: &Seen,
    after: &Seen,
    out: &mut ArrayVec<u8, CAP>,
)
    requires name { length name.now ≤ 10 }
    requires room { length out.old.items + 78 ≤ CAP }
    ensures items { out.new.items ≡ out.old.items ++ trace_change name.now before.now after.now }
    ensures bound { length out.new.items ≤ length out.old.items + 78 }
{
    if after.known {
        let same = names::same_trace(&before.trace, &after.trace);
        if !(before.known & same) {
            put_told(name, &after.trace, out);
        }
    } else if before.known {
        put_gone(name, out);
    }
}

// Each level's conditions that changed, lowest level first.
#[tactic(auto, unfolding(crate::specs::Change::levels_to))]
fn put_levels<const CAP: usize>(
    before: &[LevelStands; 6],
    after: &[LevelStands; 6],
    out: &mut ArrayVec<u8, CAP>,
)
    requires { length out.old.items + 1368 ≤ CAP }
    ensures items { out.new.items ≡ out.old.items ++ levels_to (words_of before.now after.now) 6 }
    ensures bound { length out.new.items ≤ length out.old.items + 1368 }
{
    for (i, (was, is)) in before.iter().zip(after).enumerate() {
        put_level(i as u8 + 1, was, is, out);
    }
}

// The name of the trace of level n. Byte by byte, as `prefix_of` of conditions: its digit is n % 10 for each n.
fn trace_name(n: u8) -> [u8; 10]
    ensures { result ≡ level_trace n }
{
    [
        b'T',
        b'C',
        b'M',
        b'0' + n % 10,
        b'.',
        b't',
        b'r',
        b'a',
        b'c',
        b'e',
    ]
}

// Each level's accepted trace where it changed, lowest level first.
#[tactic(auto, unfolding(crate::specs::Change::levels_to))]
fn put_level_traces<const CAP: usize>(
    before: &[Seen; 6],
    after: &[Seen; 6],
    out: &mut ArrayVec<u8, CAP>,
)
    requires { length out.old.items + 468 ≤ CAP }
    ensures items { out.new.items ≡ out.old.items ++ levels_to (trace_of before.now after.now) 6 }
    ensures bound { length out.new.items ≤ length out.old.items + 468 }
{
    for (i, (was, is)) in before.iter().zip(after).enumerate() {
        put_trace(&trace_name(i as u8 + 1), was, is, out);
    }
}

// What changed of what stands: the conditions, the levels', the head.
#[tactic(auto, unfolding(crate::specs::Change::standing_changes))]
fn put_standing<const CAP: usize>(before: &Shown, after: &Shown, out: &mut ArrayVec<u8, CAP>)
    requires { length out.old.items + 1774 ≤ CAP }
    ensures items { out.new.items ≡ out.old.items ++ standing_changes before.now after.now }
    ensures bound { length out.new.items ≤ length out.old.items + 1774 }
{
    put_conditions(&before.report, &after.report, out);
    put_levels(&before.levels, &after.levels, out);
    put_head(before.report.head, after.report.head, out);
}

// What changed of the accepted traces.
#[tactic(auto, unfolding(crate::specs::Change::trace_changes))]
fn put_traces<const CAP: usize>(before: &Shown, after: &Shown, out: &mut ArrayVec<u8, CAP>)
    requires { length out.old.items + 624 ≤ CAP }
    ensures items { out.new.items ≡ out.old.items ++ trace_changes before.now after.now }
    ensures bound { length out.new.items ≤ length out.old.items + 624 }
{
    put_trace(b"SM.trace", &before.section, &after.section, out);
    put_trace(b"PM.trace", &before.path, &after.path, out);
    put_level_traces(&before.traces, &after.traces, out);
}

// All that changed.
fn put_changes<const CAP: usize>(before: &Shown, after: &Shown, out: &mut ArrayVec<u8, CAP>)
    requires { length out.old.items + 2398 ≤ CAP }
    ensures items { out.new.items ≡ out.old.items ++ all_changes before.now after.now }
    ensures bound { length out.new.items ≤ length out.old.items + 2398 }
{
    put_standing(before, after, out);
    put_traces(before, after, out);
}

// A line with what changed.
// Its three numbers stand apart: `change_line` is promised of them, and a struct would be made for one call.
#[tactic(auto, unfolding(crate::specs::Change::frame_line, crate::specs::Change::beginning_of))]
fn put_line<const CAP: usize>(
    second: u64,
    frame: u32,
    total: u64,
    changes: &[u8],
    out: &mut ArrayVec<u8, CAP>,
)
    requires { length out.old.items + (65 + length changes.now) ≤ CAP }
    ensures items { out.new.items ≡ out.old.items ++ frame_line second frame total changes.now }
    ensures bound { length out.new.items ≤ length out.old.items + (65 + length changes.now) }
{
    put_start(b'F', [second, u64::from(frame), total], out);
    put_text(changes, out);
    put_text(b"\n", out);
}

// Puts the line of a frame at which anything changed, as `listing::put_text` does, where there is room for `change_room`. Where nothing changed, it puts nothing.
#[tactic(auto, using(listing::proofs::Texts::fitted_is), unfolding(listing::specs::Text::fitted, crate::specs::Change::change_line))]
pub fn change_line<const CAP: usize>(
    second: u64,
    frame: u32,
    total: u64,
    before: &Shown,
    after: &Shown,
    out: &mut ArrayVec<u8, CAP>,
)
    ensures put { out.new.items ≡ out.old.items ++ fitted CAP (length out.old.items) change_room (change_line second frame total before.now after.now) }
    ensures whole { length out.old.items + change_room ≤ CAP → out.new.items ≡ out.old.items ++ change_line second frame total before.now after.now }
    ensures bound { length out.new.items ≤ length out.old.items + change_room }
{
    let mut changes = ArrayVec::<u8, 2398>::new();
    put_changes(before, after, &mut changes);
    if !changes.is_empty() & (CHANGE_ROOM <= out.remaining_capacity()) {
        put_line(second, frame, total, changes.as_slice(), out);
    }
}

// `change_line` for lent bytes of any length, from a place on. Answers the place after the line.
pub fn change_line_at(
    second: u64,
    frame: u32,
    total: u64,
    before: Shown,
    after: Shown,
    out: &mut [u8],
    at: usize,
) -> usize
    ensures { (result ≡ at + length (fitted (length out.old) at change_room (change_line second frame total before after))) × (result ≤ at + change_room) × (out.new ≡ over out.old at (fitted (length out.old) at change_room (change_line second frame total before after))) }
{
    let mut line = ArrayVec::<u8, CHANGE_ROOM>::new();
    change_line(second, frame, total, &before, &after, &mut line);
    listing::put_line_at(&line, out, at)
}
