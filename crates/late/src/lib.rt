// The supervisor with its pending second: a mark reports the second closed before it, discarded also by what stood in the one that it closes.
#![tactic(auto)]

ghost use Rattle.std.specs.Prelude.{◌≡◌, cond, ltb, ◌∷◌, map, length, IfOk, OnOk, OnErr};
ghost use Rattle.answer.specs.Refusal.{said};
ghost use Rattle.late.specs.Late.{fresh_late, section_erred, level_erred, void_five, voided, pending_of, late_marked, next_report, if_told};

use answer::Refusal;
use tandem::{Level, Tandem};

// The supervisor with levels, and the figures of the second that was closed last, behind its number: frames, ten heads, the section's five, the path's five,
// five of each level. No Option: before the first mark too these are the 204 bytes that C lends, which come back as they were read (round trip of `slots`).
#[derive(Clone, Copy)]
pub struct Late {
    pub tandem: Tandem,
    pub pending: [u32; 51],
}

// pIAE and pBIAE of a layer's second: whether dIAE and dBIAE stood in some frame of it.
#[derive(Clone, Copy, Debug, Default, PartialEq, Eq)]
pub struct Erred {
    pub iae: bool,
    pub biae: bool,
}

// No second is pending.
pub fn fresh_late(t: Tandem) -> Late
    ensures { result ≡ fresh_late t }
{
    Late {
        tandem: t,
        pending: [0; 51],
    }
}

// A figure, 0 where it is discarded.
fn kept(x: u32, gone: bool) -> u32
    ensures { result ≡ cond gone 0 x }
{
    if gone { 0 } else { x }
}

// A layer's five figures, discarded.
#[tactic(auto, unfolding(crate::specs::Late::void_five))]
fn void_five(five: &mut [u32], e: Erred)
    requires { length five.old ≡ 5 }
    ensures { five.new ≡ void_five e five.old }
{
    // One by one: an array copied over them takes a mark more time, by its test of whether they overlap.
    if let [near, far, neards, fards, sum] = *five {
        five[0] = kept(near, e.iae);
        five[1] = kept(far, e.iae | e.biae);
        five[2] = kept(neards, e.iae);
        five[3] = kept(fards, e.iae | e.biae);
        five[4] = kept(sum, e.iae | e.biae);
    }
}

// The figures of a second, the section's and each level's discarded.
#[tactic(auto, unfolding(crate::specs::Late::void_levels))]
pub fn void(v: &mut [u32; 51], section: Erred, levels: &[Erred; 6])
    ensures { v.new ≡ voided section levels.now v.old }
{
    // By place: of what `chunks_exact_mut` and `as_chunks_mut` lend, the library says only the length afterwards.
    void_five(&mut v[11..16], section);
    for (i, &level) in levels.iter().enumerate() {
        void_five(&mut v[21 + 5 * i..26 + 5 * i], level);
    }
}

// A second's number, and its figures behind it.
fn numbered(number: u32, v: &[u32; 51]) -> [u32; 52]
    ensures { result ≡ number ∷ v.now }
{
    let mut out = [number; 52];
    out[1..].copy_from_slice(v);
    out
}

// The same where a second is closed, otherwise nothing.
fn told(number: u32, v: &[u32; 51]) -> Option<[u32; 52]>
    ensures { result ≡ if_told (ltb 0 number) (number ∷ v.now) }
{
    if number == 0 {
        return None;
    }
    Some(numbered(number, v))
}

// pIAE and pBIAE of the section's open second.
fn section_erred(t: &Tandem) -> Erred
    ensures { result ≡ section_erred t.now }
{
    Erred {
        iae: t.base.second.iae,
        biae: t.base.second.biae,
    }
}

// Those of a level's open second.
fn level_erred(l: &Level) -> Erred
    ensures { result ≡ level_erred l.now }
{
    Erred {
        iae: l.second.iae,
        biae: l.second.biae,
    }
}

// Those of the six levels.
fn levels_erred(levels: &[Level; 6]) -> [Erred; 6]
    ensures { result ≡ map level_erred levels.now }
{
    // A `for`: `levels.each_ref().map(level_erred)` was tried, and what its calls answer did not close.
    let mut erred = [Erred::default(); 6];
    for (i, level) in levels.iter().enumerate() {
        erred[i] = level_erred(level);
    }
    erred
}

impl Late {
    // The pending second, where there is one.
    #[tactic(auto, unfolding(crate::specs::Late::pending_of))]
    pub fn pending(&self) -> Option<[u32; 52]>
        ensures { result ≡ if_told (pending_of self.now).told (pending_of self.now).figures }
    {
        told(self.tandem.base.seconds, &self.pending)
    }

    // The pending second's number and figures, its own discard made; where none is pending, 0 and what stands in its place.
    #[tactic(auto, unfolding(crate::specs::Late::pending_of))]
    pub fn pending_report(&self) -> [u32; 52]
        ensures { result ≡ (pending_of self.now).figures }
    {
        numbered(self.tandem.base.seconds, &self.pending)
    }

    // What the next mark gives: the pending second, discarded by the open one too.
    pub fn next_report(&self) -> [u32; 52]
        ensures { result ≡ next_report self.now }
    {
        let mut pending = self.pending;
        void(
            &mut pending,
            section_erred(&self.tandem),
            &levels_erred(&self.tandem.levels),
        );
        numbered(self.tandem.base.seconds, &pending)
    }

    // A mark: the pending second is reported, and the one just closed is pending.
    #[tactic(auto, unfolding(crate::specs::Late::late_marked))]
    pub fn mark(&mut self) -> Result<Option<[u32; 52]>, Refusal>
        ensures refusal { said result ≡ (late_marked self.old).refusal }
        ensures figures { IfOk result (λ f. f ≡ if_told (late_marked self.old).told (late_marked self.old).figures) }
        ensures ok { OnOk result (self.new ≡ (late_marked self.old).late) }
        ensures err { OnErr result (self.new ≡ self.old) }
    {
        let number = self.tandem.base.seconds;
        let section = section_erred(&self.tandem);
        let levels = levels_erred(&self.tandem.levels);
        let closed = self.tandem.mark()?;
        void(&mut self.pending, section, &levels);
        let reported = told(number, &self.pending);
        self.pending.copy_from_slice(&closed[1..]);
        Ok(reported)
    }
}
