// What an accepted STAT stands for, and the defects that it raises.
#![tactic(auto)]

ghost use Rattle.std.specs.Prelude.{◌≡◌};
ghost use Rattle.signal.specs.Signal.{signal_of, stands_for, raised_of};

use filter::Stat;

// The path's maintenance defects.
#[derive(Clone, Copy)]
pub struct Raised {
    pub ais: bool,
    pub oci: bool,
    pub lck: bool,
}

// What an accepted STAT stands for.
#[derive(Clone, Copy, Debug, Default, PartialEq, Eq)]
pub enum Signal {
    #[default]
    Clear,
    Lck,
    Oci,
    Ais,
}

// The signal of a three-bit STAT number. No `From<u8>`: that would name a signal of any byte to every crate, for this one caller.
#[tactic(auto, unfolding(crate::specs::Signal::signal_of))]
fn signal_of(stat: u8) -> Signal
    ensures { result ≡ signal_of stat }
{
    match stat {
        0..=4 => Signal::Clear,
        5 => Signal::Lck,
        6 => Signal::Oci,
        7 => Signal::Ais,
        _ => Signal::Clear,
    }
}

// The signal that stands: none until a STAT is accepted.
#[tactic(auto, unfolding(crate::specs::Signal::stands_for))]
pub fn stands_for(s: Stat) -> Signal
    ensures { result ≡ stands_for s }
{
    if s.known {
        signal_of(s.accepted)
    } else {
        Signal::Clear
    }
}

// The defects that a signal raises: one at most.
pub fn raised_by(s: Signal) -> Raised
    ensures { result ≡ raised_of s }
{
    Raised {
        ais: s == Signal::Ais,
        oci: s == Signal::Oci,
        lck: s == Signal::Lck,
    }
}

// The defects that stand by a STAT, none until one is accepted: the same by its number, with no case of the signal, so that a lookup by the three has no branch.
#[tactic(auto, using(crate::proofs::Codes::by_number))]
pub fn raised_in(s: Stat) -> Raised
    ensures { result ≡ raised_of (stands_for s) }
{
    Raised {
        ais: s.known & (s.accepted == 7),
        oci: s.known & (s.accepted == 6),
        lck: s.known & (s.accepted == 5),
    }
}
