// A stretch of reported seconds in one record: counts, heads and sums added up, DS as seconds with DS; and two stretches joined.
#![tactic(auto)]

ghost use Rattle.std.specs.Prelude.{◌≡◌, true, cond, ◌+◌, ◌≤◌, eqb, length, take, drop, IfOk};
ghost use Rattle.answer.specs.Refusal.{said};
ghost use Rattle.summary.specs.Summary.{five_good, heads_good, valid_of, FiveLow, HeadsLow, five_sum, heads_sum, added_of, place_refusal, empty_summary, join_of, five_in, second_of, numbers_of, summary_by};

use answer::{Refusal, test};

// A layer's five of a stretch: near-end and far-end errored blocks, seconds with near DS and seconds with far DS, and the sum of the far end's violations.
#[derive(Clone, Copy, Debug, PartialEq, Eq, Default)]
pub struct Five {
    pub near: u64,
    pub far: u64,
    pub neards: u64,
    pub fards: u64,
    pub sum: u64,
}

// `first` is the number of its first second, 0 where it is empty; `length` is how many seconds it has.
#[derive(Clone, Copy, Debug, PartialEq, Eq, Default)]
pub struct Summary {
    pub first: u64,
    pub length: u64,
    pub frames: u64,
    pub heads: [u64; 10],
    pub section: Five,
    pub path: Five,
}

// A layer's five within their bounds.
#[tactic(auto, unfolding(crate::specs::Summary::five_good))]
fn five_good(f: &Five, most: u64, sums: u64, length: u64) -> bool
    ensures { result ≡ five_good f.now most sums length }
{
    (f.near <= most)
        & (f.far <= most)
        & (f.neards <= length)
        & (f.fards <= length)
        & (f.sum <= sums)
}

// Whether no head has more: one loop without an early end, as the tests beside it.
#[tactic(auto, using(crate::proofs::Heads::good_none, crate::proofs::Heads::good_more, crate::proofs::Heads::good_all))]
fn heads_good(h: &[u64; 10], most: u64) -> bool
    ensures { result ≡ heads_good h.now most }
{
    let mut good = true;
    for x in h {
        good = good & (*x <= most);
    }
    good
}

// Whether it is a summary: its length first, so that no sum and no product is beyond 64 bits.
#[tactic(auto, unfolding(crate::specs::Summary::valid_of))]
pub fn valid(s: &Summary) -> bool
    ensures { result ≡ valid_of s.now }
{
    if s.length <= 86400 {
        let most = 400000 * s.length;
        let sums = 3200000 * s.length;
        let h = heads_good(&s.heads, most);
        let f = five_good(&s.section, most, sums, s.length);
        let g = five_good(&s.path, most, sums, s.length);
        let begins = (s.first == 0) == (s.length == 0);
        return begins & (s.first <= 4294967296 - s.length) & (s.frames <= most) & h & f & g;
    }
    false
}

// The empty summary.
pub fn empty() -> Summary
    ensures { result ≡ empty_summary }
{
    Summary::default()
}

// Sums of two summaries' numbers: they stay far below 64 bits.
fn five_sum(f: &Five, g: &Five) -> Five
    requires five_low { FiveLow f.now }
    requires five_low_2 { FiveLow g.now }
    ensures { result ≡ five_sum f.now g.now }
{
    Five {
        near: f.near + g.near,
        far: f.far + g.far,
        neards: f.neards + g.neards,
        fards: f.fards + g.fards,
        sum: f.sum + g.sum,
    }
}

fn heads_sum(h: &[u64; 10], k: &[u64; 10]) -> [u64; 10]
    requires heads_low { HeadsLow h.now }
    requires heads_low_2 { HeadsLow k.now }
    ensures { result ≡ heads_sum h.now k.now }
{
    let mut sums = [0; 10];
    for (i, x) in sums.iter_mut().enumerate() {
        *x = h[i] + k[i];
    }
    sums
}

// Where the first is empty, the second's number of its first second.
fn first_of(length: u64, a: u64, b: u64) -> u64
    ensures { result ≡ cond (eqb length 0) b a }
{
    if length == 0 {
        return b;
    }
    a
}

// Two summaries added up.
#[tactic(auto, using(crate::proofs::Bounds::valid_low, crate::proofs::Bounds::low_of), unfolding(crate::specs::Summary::added_of))]
fn added(a: &Summary, b: &Summary) -> Summary
    requires a_value { valid_of a.now ≡ true }
    requires b_value { valid_of b.now ≡ true }
    ensures { result ≡ added_of a.now b.now }
{
    Summary {
        first: first_of(a.length, a.first, b.first),
        length: a.length + b.length,
        frames: a.frames + b.frames,
        heads: heads_sum(&a.heads, &b.heads),
        section: five_sum(&a.section, &b.section),
        path: five_sum(&a.path, &b.path),
    }
}

// The refusals but 26 of two summaries.
#[tactic(auto, using(crate::proofs::Bounds::valid_low), unfolding(crate::specs::Summary::place_refusal, crate::specs::Summary::follows_on))]
fn placed(a: &Summary, b: &Summary) -> Result<(), Refusal>
    requires a_value { valid_of a.now ≡ true }
    requires b_value { valid_of b.now ≡ true }
    ensures { said result ≡ place_refusal a.now b.now }
{
    let follows = (a.length == 0) | (b.length == 0) | (b.first == a.first + a.length);
    test(a.length + b.length <= 86400, Refusal::TooLong)?;
    test(follows, Refusal::NotNext)
}

// Two summaries joined, where the second follows on from the first.
#[tactic(auto, using(crate::proofs::Joins::joins, crate::proofs::Joins::misplaced, crate::proofs::Joins::not_both))]
pub fn join(a: &Summary, b: &Summary) -> Result<Summary, Refusal>
    ensures refusal { said result ≡ (join_of a.now b.now).refusal }
    ensures both { IfOk result (λ s. s ≡ (join_of a.now b.now).summary) }
{
    let both = valid(a) & valid(b);
    test(both, Refusal::NoSummary)?;
    placed(a, b)?;
    Ok(added(a, b))
}

// N numbers of v from `at`.
fn part<const N: usize>(v: &[u64], at: usize) -> [u64; N]
    requires { at + N ≤ length v.now }
    ensures { result ≡ take N (drop at v.now) }
{
    let mut t = [0; N];
    t.copy_from_slice(&v[at..at + N]);
    t
}

// A layer's five by its numbers in their order.
fn five_by(v: &[u64; 5]) -> Five
    ensures { result ≡ five_in v.now 0 }
{
    let [near, far, neards, fards, sum] = *v;
    Five {
        near,
        far,
        neards,
        fards,
        sum,
    }
}

// N figures of f from `at`.
fn wide<const N: usize>(f: &[u32], at: usize) -> [u64; N]
    requires { at + N ≤ length f.now }
    ensures { result ≡ take N (drop at f.now) }
{
    let mut v = [0; N];
    for (i, x) in v.iter_mut().enumerate() {
        *x = u64::from(f[at + i]);
    }
    v
}

// One second by its 22 figures, as a stretch of one.
#[tactic(auto, unfolding(crate::specs::Summary::second_of))]
pub fn second_of(f: &[u32; 22]) -> Summary
    ensures { result ≡ second_of f.now }
{
    Summary {
        first: u64::from(f[0]),
        length: 1,
        frames: u64::from(f[1]),
        heads: wide(f, 2),
        section: five_by(&wide(f, 12)),
        path: five_by(&wide(f, 17)),
    }
}

// The 23 numbers of a summary, in their order.
pub fn numbers_of(s: &Summary) -> [u64; 23]
    ensures { result ≡ numbers_of s.now }
{
    // Tried in parts, by `copy_from_slice`: the bounds of the third part stay open.
    [
        s.first,
        s.length,
        s.frames,
        s.heads[0],
        s.heads[1],
        s.heads[2],
        s.heads[3],
        s.heads[4],
        s.heads[5],
        s.heads[6],
        s.heads[7],
        s.heads[8],
        s.heads[9],
        s.section.near,
        s.section.far,
        s.section.neards,
        s.section.fards,
        s.section.sum,
        s.path.near,
        s.path.far,
        s.path.neards,
        s.path.fards,
        s.path.sum,
    ]
}

// The summary of 23 numbers.
pub fn summary_by(v: &[u64; 23]) -> Summary
    ensures { result ≡ summary_by v.now }
{
    Summary {
        first: v[0],
        length: v[1],
        frames: v[2],
        heads: part(v, 3),
        section: five_by(&part(v, 13)),
        path: five_by(&part(v, 18)),
    }
}
