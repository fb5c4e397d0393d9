// One layer's state: what section and path share.
#![tactic(auto)]

ghost use Rattle.std.specs.Prelude.{◌≡◌, cond};
ghost use Rattle.layer.specs.Layer.{layer_of, tim_of, tim_in};
ghost use Rattle.layer.specs.Steps.{put_in, equal_after, cycle_of, gone};

use filter::Filter;

// `accepted` is the accepted trace where `known`; `gathered` the cycle being gathered where `gathering`; `previous` the last whole
// cycle, `equal` how many equal ones in a row, 3 at most.
// Flags beside values, and no `Option`: any value that lent bytes hold is written back as it was read (theorem `round_trip`).
#[derive(Clone, Copy)]
pub struct Layer {
    pub accepted: [u8; 64],
    pub gathered: [u8; 64],
    pub previous: [u8; 64],
    pub known: bool,
    pub gathering: bool,
    pub equal: u32,
    pub bdi: Filter,
    pub deg: Filter,
}

// The numbers of a layer's trace, flags as in `Layer` (theorem `round_trip`): whether one is accepted, whether a cycle is being gathered, how many equal ones have ended in a row.
#[derive(Clone, Copy)]
pub struct Cycle {
    pub known: bool,
    pub gathering: bool,
    pub equal: u32,
}

// A byte into the cycle, where it is taken.
fn put(g: &mut [u8; 64], takes: bool, number: u8, tti: u8)
    ensures { g.new ≡ put_in g.old takes number tti }
{
    if takes {
        g[usize::from(number % 64)] = tti;
    }
}

// One cycle over another, where it is taken.
fn replace(a: &mut [u8; 64], takes: bool, b: &[u8; 64])
    ensures { a.new ≡ cond takes b.now a.old }
{
    if takes {
        *a = *b;
    }
}

// How many equal cycles in a row have ended.
fn equal_after(closes: bool, gathered: &[u8; 64], previous: &[u8; 64], equal: u32) -> u32
    ensures { result ≡ equal_after closes gathered.now previous.now equal }
{
    if closes {
        if names::same_trace(gathered, previous) {
            return filter::up(equal, 3);
        }
        return 1;
    }
    equal
}

// The run of equal cycles, where it goes on.
fn equal_kept(goes: bool, equal: u32) -> u32
    ensures { result ≡ cond goes equal 0 }
{
    if goes {
        return equal;
    }
    0
}

impl Cycle {
    // A trace after a frame: forgotten, dropped in OOM, or one byte further, and a cycle that was gathered whole closes at its last byte.
    // Nothing is moved but what a closed cycle replaces.
    pub fn step(
        &mut self,
        accepted: &mut [u8; 64],
        gathered: &mut [u8; 64],
        previous: &mut [u8; 64],
        forget: bool,
        inmulti: bool,
        number: u8,
        tti: u8,
    )
        ensures cycle { self.new ≡ cycle_of (gone accepted.old gathered.old previous.old self.old forget inmulti number tti) }
        ensures accepted { accepted.new ≡ (gone accepted.old gathered.old previous.old self.old forget inmulti number tti).accepted }
        ensures gathered { gathered.new ≡ (gone accepted.old gathered.old previous.old self.old forget inmulti number tti).gathered }
        ensures previous { previous.new ≡ (gone accepted.old gathered.old previous.old self.old forget inmulti number tti).previous }
    {
        let place = number % 64;
        let goes = !forget & inmulti;
        let takes = goes & ((place == 0) | self.gathering);
        let closes = takes & (place == 63);
        put(gathered, takes, number, tti);
        let equal = equal_after(closes, gathered, previous, self.equal);
        let accepts = closes & (equal == 3);
        replace(previous, closes, gathered);
        replace(accepted, accepts, gathered);
        self.known = !forget & (accepts | self.known);
        self.gathering = takes & !closes;
        self.equal = equal_kept(goes, equal);
    }
}

// dTIM: a trace is accepted and the compared field differs. Both names are compared in each frame, whether or not a trace is accepted and
// whatever the mode.
pub fn tim_in(known: bool, accepted: &[u8; 64], mode: u8, expected: &[u8; 32]) -> bool
    ensures { result ≡ tim_in known accepted.now mode expected.now }
{
    let same = names::compare(accepted, expected);
    let sapi = matches!(mode, 1 | 3) & !same.sapi;
    let dapi = matches!(mode, 2 | 3) & !same.dapi;
    known & (sapi | dapi)
}

impl Layer {
    // What every layer does in a frame: its trace and its BDI.
    #[tactic(auto, unfolding(crate::specs::Layer::layer_of))]
    pub fn step(&mut self, forget: bool, inmulti: bool, number: u8, tti: u8, bdi: bool)
        ensures { self.new ≡ layer_of self.old forget inmulti number tti bdi }
    {
        self.bdi = filter::filter_step(self.bdi, 5, forget, bdi);
        let mut cycle = Cycle {
            known: self.known,
            gathering: self.gathering,
            equal: self.equal,
        };
        cycle.step(
            &mut self.accepted,
            &mut self.gathered,
            &mut self.previous,
            forget,
            inmulti,
            number,
            tti,
        );
        self.known = cycle.known;
        self.gathering = cycle.gathering;
        self.equal = cycle.equal;
    }

    // dTIM of the layer.
    #[tactic(auto, unfolding(crate::specs::Layer::tim_of))]
    pub fn tim(&self, mode: u8, expected: &[u8; 32]) -> bool
        ensures { result ≡ tim_of self.now mode expected.now }
    {
        tim_in(self.known, &self.accepted, mode, expected)
    }
}
