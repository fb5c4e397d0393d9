// The open second: blocks, DS, frames and the ten heads.
#![tactic(auto)]

ghost use Rattle.std.specs.Prelude.{◌≡◌, cond};
ghost use Rattle.filter.specs.Filter.{up_of};
ghost use Rattle.second.specs.Second.{counted_of, blocks_of, one_under, count_of, discard_of, closed_of, figures_of, fresh_second};

use causes::Standing;
use filter::up;
use overhead::{Bei, Overhead};

// Near-end errored blocks, far-end errored blocks, far-end violations and frames: four counters that can't be added to one another.
// Four types and no `Count<K>`: a generic one would want a marker type for each kind, so it is no plainer. They share one step.
#[derive(Clone, Copy, Default)]
pub struct Near(pub u32);

#[derive(Clone, Copy, Default)]
pub struct Far(pub u32);

#[derive(Clone, Copy, Default)]
pub struct Sum(pub u32);

#[derive(Clone, Copy, Default)]
pub struct Frames(pub u32);

// A layer's five values of a second: near-end and far-end blocks, near and far DS, the sum of far-end violations.
#[derive(Clone, Copy, Default)]
pub struct Blocks {
    pub near: Near,
    pub far: Far,
    pub neards: bool,
    pub fards: bool,
    pub sum: Sum,
}

// `heads`: frames under each head; `iae`, `biae`: whether section dIAE and dBIAE stood in some frame.
#[derive(Clone, Copy, Default)]
pub struct Second {
    pub frames: Frames,
    pub heads: [u32; 10],
    pub section: Blocks,
    pub path: Blocks,
    pub iae: bool,
    pub biae: bool,
}

// What a frame adds to a layer's values; `far` is its BEI reading.
#[derive(Clone, Copy)]
pub struct Shows {
    pub stopped: bool,
    pub near: bool,
    pub far: Bei,
    pub neards: bool,
    pub fards: bool,
}

// One more, where there is one.
fn one_more(n: u32, more: bool) -> u32
    ensures { result ≡ cond more (up_of n 400000) n }
{
    if more { up(n, 400000) } else { n }
}

// The violations that a BEI reading adds: none where counting is stopped.
#[tactic(auto, unfolding(crate::specs::Second::counted_of))]
pub fn counted(b: Bei, stopped: bool) -> u32
    ensures { result ≡ counted_of b stopped }
{
    if stopped {
        return 0;
    }
    u32::from(overhead::violations(b))
}

impl Blocks {
    #[tactic(auto, unfolding(crate::specs::Second::blocks_of, crate::specs::Second::near_of, crate::specs::Second::far_of, crate::specs::Second::sum_of))]
    pub fn step(&mut self, s: &Shows)
        ensures { self.new ≡ blocks_of self.old s.now }
    {
        self.near = Near(one_more(self.near.0, s.near & !s.stopped));
        self.far = Far(one_more(self.far.0, overhead::is_far(s.far) & !s.stopped));
        self.neards |= s.neards;
        self.fards |= s.fards;
        self.sum = Sum(filter::add(self.sum.0, counted(s.far, s.stopped), 3200000));
    }
}

// One more under a head, 0 to 9.
#[tactic(auto, unfolding(crate::specs::Second::one_under))]
fn heads_step(heads: &mut [u32; 10], head: u8)
    ensures { heads.new ≡ one_under heads.old head }
{
    // By index: tried with `get_mut`, and the proof didn't close.
    if head < 10 {
        let h = usize::from(head);
        heads[h] = up(heads[h], 400000);
    }
}

impl Second {
    // The second after one more frame.
    #[tactic(auto, unfolding(crate::specs::Second::count_of, crate::specs::Second::one_frame))]
    pub fn count(&mut self, d: &Standing, o: &Overhead, sm: u8, pm: u8)
        ensures { self.new ≡ count_of self.old d.now o.now sm pm }
    {
        let ssf = causes::ssf_of(d.line);
        let acts = causes::tim_acts(d.section.tim, d.section.disabled);
        let down = causes::path_down(ssf | acts, d.path);
        self.frames = Frames(up(self.frames.0, 400000));
        heads_step(&mut self.heads, causes::head_of(*d));
        self.section.step(&Shows {
            stopped: ssf,
            near: 1 <= sm,
            far: overhead::bei_of(o.section.bei),
            neards: ssf | d.section.tim,
            fards: d.section.bdi,
        });
        self.path.step(&Shows {
            stopped: down,
            near: 1 <= pm,
            far: overhead::path_bei(o.path.bei),
            neards: down | d.path.tim,
            fards: d.path.bdi,
        });
        self.iae |= d.section.iae;
        self.biae |= d.section.biae;
    }
}

// The section's values where dIAE or dBIAE stood in the second.
#[tactic(auto, unfolding(crate::specs::Second::discard_of))]
pub fn discard(b: Blocks, iae: bool, biae: bool) -> Blocks
    ensures { result ≡ discard_of b iae biae }
{
    if iae {
        return Blocks::default();
    }
    if biae {
        return Blocks {
            near: b.near,
            neards: b.neards,
            ..Blocks::default()
        };
    }
    b
}

// The second as it is closed.
#[tactic(auto, unfolding(crate::specs::Second::closed_of))]
pub fn closed(c: Second) -> Second
    ensures { result ≡ closed_of c }
{
    let mut n = c;
    n.section = discard(c.section, c.iae, c.biae);
    n
}

// The twenty-two figures of a second.
pub fn figures(number: u32, c: Second) -> [u32; 22]
    ensures { result ≡ figures_of number c }
{
    // Figure by figure: tried with `copy_from_slice`, and the proof didn't close.
    let h = c.heads;
    let s = c.section;
    let p = c.path;
    [
        number,
        c.frames.0,
        h[0],
        h[1],
        h[2],
        h[3],
        h[4],
        h[5],
        h[6],
        h[7],
        h[8],
        h[9],
        s.near.0,
        s.far.0,
        u32::from(s.neards),
        u32::from(s.fards),
        s.sum.0,
        p.near.0,
        p.far.0,
        u32::from(p.neards),
        u32::from(p.fards),
        p.sum.0,
    ]
}

// A second with no frame yet.
pub fn fresh_second() -> Second
    ensures { result ≡ fresh_second }
{
    Second::default()
}
