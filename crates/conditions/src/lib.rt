// The text of the conditions that changed between two reports, and of those of a tandem level, put at the end of a lent buffer. Each public function has one beside it,
// by its name with `_at`, that puts the same text into lent bytes of any length, from a place on, and answers the place after it.
#![tactic(auto)]

ghost use Rattle.std.specs.Prelude.{◌≡◌, cond, ◌++◌, ◌+◌, ◌≤◌, length};
ghost use Rattle.answer.specs.Over.{over};
ghost use Rattle.listing.specs.Text.{fitted};
ghost use Rattle.conditions.specs.Conditions.{conditions, change_of, changes_of, condition_changes, condition_room, level_prefix, level_words, under, level_changes, level_room};
ghost use Rattle.conditions.specs.Told.{told};

use arrayvec::ArrayVec;
use causes::Report;
use level::LevelStands;
use listing::put_text;

// The rooms of specs/.
const CONDITION_ROOM: usize = 380;

const LEVEL_ROOM: usize = 228;

// Each condition of a report, in the order in which they are printed: its name, and whether it stands.
#[tactic(auto, unfolding(crate::specs::Conditions::conditions))]
fn conditions_of(r: &Report) -> [(&'static str, bool); 38]
    ensures { told result ≡ conditions r.now }
{
    let line = r.standing.line;
    let section = r.standing.section;
    let path = r.standing.path;
    let raised = signal::raised_by(path.signal);
    [
        ("IF", line.inframe),
        ("IM", line.inmulti),
        ("TSF-P", line.tsf),
        ("OTUk-AIS", line.ais),
        ("dLOF", line.lof),
        ("dLOM", line.lom),
        ("SM.SSF", r.section.ssf),
        ("SM.dTIM", section.tim),
        ("SM.dBDI", section.bdi),
        ("SM.dIAE", section.iae),
        ("SM.dBIAE", section.biae),
        ("SM.dDEG", section.deg),
        ("PM.SSF", r.path.ssf),
        ("PM.dAIS", raised.ais),
        ("PM.dOCI", raised.oci),
        ("PM.dLCK", raised.lck),
        ("PM.dTIM", path.tim),
        ("PM.dBDI", path.bdi),
        ("PM.dDEG", path.deg),
        ("SM.aTSF", r.section.tsf),
        ("SM.aTSD", r.section.tsd),
        ("SM.aBDI", r.section.bdi),
        ("SM.aBIAE", r.section.biae),
        ("PM.aTSF", r.path.tsf),
        ("PM.aTSD", r.path.tsd),
        ("PM.aBDI", r.path.bdi),
        ("cLOF", r.causes.line.lof),
        ("cLOM", r.causes.line.lom),
        ("SM.cTIM", r.causes.section.tim),
        ("SM.cDEG", r.causes.section.deg),
        ("SM.cBDI", r.causes.section.bdi),
        ("SM.cSSF", r.causes.section.ssf),
        ("PM.cOCI", r.causes.path.oci),
        ("PM.cLCK", r.causes.path.lck),
        ("PM.cTIM", r.causes.path.tim),
        ("PM.cDEG", r.causes.path.deg),
        ("PM.cBDI", r.causes.path.bdi),
        ("PM.cSSF", r.causes.path.ssf),
    ]
}

// `+` for what was raised, `-` for what cleared.
fn sign_of(raised: bool) -> u8
    ensures { result ≡ cond raised 43 45 }
{
    if raised { b'+' } else { b'-' }
}

// One condition, its name in two parts: `+` or `-` and its name where it changed.
#[tactic(auto, unfolding(crate::specs::Conditions::change_of))]
fn put_change<const CAP: usize>(
    prefix: &[u8],
    name: &str,
    before: bool,
    after: bool,
    out: &mut ArrayVec<u8, CAP>,
)
    requires { length out.old.items + length (change_of (prefix.now ++ name.now) before after) ≤ CAP }
    ensures { out.new.items ≡ out.old.items ++ change_of (prefix.now ++ name.now) before after }
{
    if before != after {
        put_text(&[b' ', sign_of(after)], out);
        put_text(prefix, out);
        put_text(name.as_bytes(), out);
    }
}

// Each condition that changed, a prefix before its name.
#[tactic(auto, unfolding(crate::specs::Conditions::changes_of))]
fn put_changes<const CAP: usize>(
    prefix: &[u8],
    before: &[(&str, bool)],
    after: &[(&str, bool)],
    out: &mut ArrayVec<u8, CAP>,
)
    requires { length out.old.items + length (changes_of (under prefix.now (told before.now)) (under prefix.now (told after.now))) ≤ CAP }
    ensures items { out.new.items ≡ out.old.items ++ changes_of (under prefix.now (told before.now)) (under prefix.now (told after.now)) }
    ensures bound { length out.new.items ≡ length out.old.items + length (changes_of (under prefix.now (told before.now)) (under prefix.now (told after.now))) }
{
    for (was, is) in before.iter().zip(after) {
        put_change(prefix, is.0, was.1, is.1, out);
    }
}

// Puts what changed among the conditions, as `put_text` does, where there is room for `condition_room`.
#[tactic(auto, using(listing::proofs::Texts::fitted_is, crate::proofs::Changes::changes_short, crate::proofs::Changes::under_none), unfolding(listing::specs::Text::fitted, crate::specs::Conditions::condition_changes))]
pub fn put_conditions<const CAP: usize>(
    before: &Report,
    after: &Report,
    out: &mut ArrayVec<u8, CAP>,
)
    ensures put { out.new.items ≡ out.old.items ++ fitted CAP (length out.old.items) condition_room (condition_changes before.now after.now) }
    ensures whole { length out.old.items + condition_room ≤ CAP → out.new.items ≡ out.old.items ++ condition_changes before.now after.now }
    ensures bound { length out.new.items ≤ length out.old.items + condition_room }
{
    if CONDITION_ROOM <= out.remaining_capacity() {
        put_changes(b"", &conditions_of(before), &conditions_of(after), out);
    }
}

// Each condition of a level, without the level's number, in the order in which they are printed.
#[tactic(auto, unfolding(crate::specs::Conditions::level_words))]
fn words_of(d: &LevelStands) -> [(&'static str, bool); 19]
    ensures { told result ≡ level_words d.now }
{
    let raises = level::raises_of(d.status);
    let acts = level::level_actions(*d);
    let faults = level::level_causes(*d);
    [
        ("SSF", d.ssf),
        ("dLTC", raises.ltc),
        ("dAIS", raises.ais),
        ("dOCI", raises.oci),
        ("dLCK", raises.lck),
        ("dTIM", d.tim),
        ("dBDI", d.bdi),
        ("dIAE", d.iae),
        ("dBIAE", d.biae),
        ("dDEG", d.deg),
        ("aTSF", acts.tsf),
        ("aTSD", acts.tsd),
        ("cSSF", faults.ssf),
        ("cLTC", faults.ltc),
        ("cOCI", faults.oci),
        ("cLCK", faults.lck),
        ("cTIM", faults.tim),
        ("cDEG", faults.deg),
        ("cBDI", faults.bdi),
    ]
}

// What the names of level n begin with.
// Byte by byte: nineteen names get it, so it is made once, and its digit is n % 10 for each n, which `put_number` would not print.
fn prefix_of(n: u8) -> [u8; 5]
    ensures { result ≡ level_prefix n }
{
    [b'T', b'C', b'M', b'0' + n % 10, b'.']
}

// Puts what changed among the conditions of level n, as `put_conditions` does, where there is room for `level_room`.
#[tactic(auto, using(listing::proofs::Texts::fitted_is, crate::proofs::Changes::level_short), unfolding(listing::specs::Text::fitted, crate::specs::Conditions::level_changes))]
pub fn put_level<const CAP: usize>(
    n: u8,
    before: &LevelStands,
    after: &LevelStands,
    out: &mut ArrayVec<u8, CAP>,
)
    ensures put { out.new.items ≡ out.old.items ++ fitted CAP (length out.old.items) level_room (level_changes n before.now after.now) }
    ensures whole { length out.old.items + level_room ≤ CAP → out.new.items ≡ out.old.items ++ level_changes n before.now after.now }
    ensures bound { length out.new.items ≤ length out.old.items + level_room }
{
    if LEVEL_ROOM <= out.remaining_capacity() {
        put_changes(&prefix_of(n), &words_of(before), &words_of(after), out);
    }
}

// `put_conditions` for lent bytes of any length, from a place on.
pub fn put_conditions_at(before: Report, after: Report, out: &mut [u8], at: usize) -> usize
    ensures { (result ≡ at + length (fitted (length out.old) at condition_room (condition_changes before after))) × (out.new ≡ over out.old at (fitted (length out.old) at condition_room (condition_changes before after))) }
{
    let mut changes = ArrayVec::<u8, CONDITION_ROOM>::new();
    put_conditions(&before, &after, &mut changes);
    listing::put_line_at(&changes, out, at)
}

// `put_level` for lent bytes of any length, from a place on.
pub fn put_level_at(
    n: u8,
    before: LevelStands,
    after: LevelStands,
    out: &mut [u8],
    at: usize,
) -> usize
    ensures { (result ≡ at + length (fitted (length out.old) at level_room (level_changes n before after))) × (out.new ≡ over out.old at (fitted (length out.old) at level_room (level_changes n before after))) }
{
    let mut changes = ArrayVec::<u8, LEVEL_ROOM>::new();
    put_level(n, &before, &after, &mut changes);
    listing::put_line_at(&changes, out, at)
}
