// Frame and multiframe alignment, dLOF and dLOM. Every state is the state after the frame.
#![tactic(auto)]

ghost use Rattle.std.specs.Prelude.{◌≡◌};
ghost use Rattle.alignment.specs.Alignment.{frames_of, framing_of, lof_of, locked_at, unlocked_at, multi_of, lom_of, align_of};

use filter::up;

// IF or OOF, a flag beside its numbers as in `Multi`. `seen`: the last frame, met in OOF, had columns 2 to 5; `misses`: frames in a row in IF without columns 3 to 5.
#[derive(Clone, Copy, Default)]
pub struct Framing {
    pub inframe: bool,
    pub seen: bool,
    pub misses: u32,
}

// dLOF: frames in OOF in total, and frames in a row in IF, each N at most.
#[derive(Clone, Copy, Default)]
pub struct Lof {
    pub total: u32,
    pub good: u32,
}

// IM or OOM. `number`: the local number in IM; `misses`: mismatches in a row; `previous`: the previous MFAS where `known`.
// The flags stand beside their numbers and are no Option: by theorem `round_trip` each state that was read from bytes has the same bytes again.
#[derive(Clone, Copy, Default)]
pub struct Multi {
    pub inmulti: bool,
    pub number: u8,
    pub misses: u32,
    pub known: bool,
    pub previous: u8,
}

// `lom`: frames in a row in OOM, N at most.
#[derive(Clone, Copy, Default)]
pub struct Alignment {
    pub framing: Framing,
    pub lof: Lof,
    pub multi: Multi,
    pub lom: u32,
}

// N of k: 3 ms in frames. It answers every k, so that k is a number here.
#[tactic(auto, unfolding(crate::specs::Alignment::frames_of))]
pub fn frames_of(k: u8) -> u32
    ensures { result ≡ frames_of k }
{
    match k {
        1 => 62,
        2 => 247,
        _ => 989,
    }
}

#[tactic(auto, unfolding(crate::specs::Alignment::framing_of))]
fn framing_step(s: Framing, four: bool, three: bool) -> Framing
    ensures { result ≡ framing_of s four three }
{
    if s.inframe {
        if three {
            return Framing {
                inframe: true,
                seen: false,
                misses: 0,
            };
        }
        let misses = up(s.misses, 5);
        if misses == 5 {
            Framing::default()
        } else {
            Framing {
                inframe: true,
                seen: false,
                misses,
            }
        }
    } else if four & s.seen {
        Framing {
            inframe: true,
            seen: false,
            misses: 0,
        }
    } else {
        Framing {
            inframe: false,
            seen: four,
            misses: 0,
        }
    }
}

#[tactic(auto, unfolding(crate::specs::Alignment::lof_of))]
fn lof_step(s: Lof, n: u32, inframe: bool) -> Lof
    ensures { result ≡ lof_of s n inframe }
{
    if inframe {
        let good = up(s.good, n);
        Lof {
            total: if good == n { 0 } else { s.total },
            good,
        }
    } else {
        Lof {
            total: up(s.total, n),
            good: 0,
        }
    }
}

fn locked(number: u8, misses: u32) -> Multi
    ensures { result ≡ locked_at number misses }
{
    Multi {
        inmulti: true,
        number,
        misses,
        ..Multi::default()
    }
}

fn unlocked(known: bool, previous: u8) -> Multi
    ensures { result ≡ unlocked_at known previous }
{
    Multi {
        known,
        previous,
        ..Multi::default()
    }
}

#[tactic(auto, unfolding(crate::specs::Alignment::multi_of, crate::specs::Alignment::next_of))]
fn multi_step(s: Multi, inframe: bool, mfas: u8) -> Multi
    ensures { result ≡ multi_of s inframe mfas }
{
    if s.inmulti {
        let number = s.number.wrapping_add(1);
        if !inframe {
            return locked(number, s.misses);
        }
        if mfas == number {
            return locked(number, 0);
        }
        let misses = up(s.misses, 5);
        if misses == 5 {
            unlocked(true, mfas)
        } else {
            locked(number, misses)
        }
    } else if !inframe {
        unlocked(false, 0)
    } else if s.known & (mfas == s.previous.wrapping_add(1)) {
        locked(mfas, 0)
    } else {
        unlocked(true, mfas)
    }
}

#[tactic(auto, unfolding(crate::specs::Alignment::lom_of))]
fn lom_step(run: u32, n: u32, inmulti: bool) -> u32
    ensures { result ≡ lom_of run n inmulti }
{
    if inmulti { 0 } else { up(run, n) }
}

// Alignment after one more frame.
#[tactic(auto, unfolding(crate::specs::Alignment::align_of))]
pub fn align_step(s: Alignment, n: u32, four: bool, three: bool, mfas: u8) -> Alignment
    ensures { result ≡ align_of s n four three mfas }
{
    let framing = framing_step(s.framing, four, three);
    let multi = multi_step(s.multi, framing.inframe, mfas);
    Alignment {
        framing,
        lof: lof_step(s.lof, n, framing.inframe),
        multi,
        lom: lom_step(s.lom, n, multi.inmulti),
    }
}
