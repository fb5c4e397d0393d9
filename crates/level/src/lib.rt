// One tandem level: what its accepted STAT stands for, a frame, actions and causes, its second and a mark. It has no number: a level is handed
// its own three bytes.
#![tactic(auto)]

ghost use Rattle.std.specs.Prelude.{◌≡◌};
ghost use Rattle.level.specs.Status.{status_of, status_for, raises_of};
ghost use Rattle.level.specs.Level.{stands_by, level_stands, level_of, level_down, level_actions, level_causes, level_shows, level_count, level_closed, level_marked, fresh_level, fresh_level_second};

use alignment::Multi;
use filter::{Filter, Stat};
use layer::Layer;
use overhead::Field;
use second::{Blocks, Shows};
use settings::Options;

// What an accepted STAT stands for.
#[derive(Clone, Copy, Debug, Default, PartialEq, Eq)]
pub enum Status {
    #[default]
    Clear,
    Ltc,
    Iae,
    Lck,
    Oci,
    Ais,
}

// What a status raises: dLTC, dLCK, dOCI and dAIS; and dIAE where dTIM does not stand.
#[derive(Clone, Copy)]
pub struct Raises {
    pub ltc: bool,
    pub iae: bool,
    pub lck: bool,
    pub oci: bool,
    pub ais: bool,
}

// What is kept from frame to frame: the layer, STAT and dBIAE.
#[derive(Clone, Copy)]
pub struct LevelState {
    pub layer: Layer,
    pub stat: Stat,
    pub biae: Filter,
}

// The defects of a level, with its SSF, and whether TIMActDis keeps dTIM from acting.
#[derive(Clone, Copy, Default)]
pub struct LevelStands {
    pub ssf: bool,
    pub status: Status,
    pub tim: bool,
    pub disabled: bool,
    pub bdi: bool,
    pub iae: bool,
    pub biae: bool,
    pub deg: bool,
}

// aTSF and aTSD.
#[derive(Clone, Copy)]
pub struct LevelActions {
    pub tsf: bool,
    pub tsd: bool,
}

// cSSF, cLTC, cOCI, cLCK, cTIM, cDEG and cBDI.
#[derive(Clone, Copy)]
pub struct LevelCauses {
    pub ssf: bool,
    pub ltc: bool,
    pub oci: bool,
    pub lck: bool,
    pub tim: bool,
    pub deg: bool,
    pub bdi: bool,
}

// The open second: its five values, and whether dIAE and dBIAE stood in some frame.
#[derive(Clone, Copy, Default)]
pub struct LevelSecond {
    pub blocks: Blocks,
    pub iae: bool,
    pub biae: bool,
}

// The status of a three-bit STAT number. No `From<u8>`: that would name a status of any byte to every crate, for this one caller.
#[tactic(auto, unfolding(crate::specs::Status::status_of))]
fn status_of(stat: u8) -> Status
    ensures { result ≡ status_of stat }
{
    match stat {
        0 => Status::Ltc,
        2 => Status::Iae,
        5 => Status::Lck,
        6 => Status::Oci,
        7 => Status::Ais,
        _ => Status::Clear,
    }
}

// The status that stands: none until a STAT is accepted, and so no dLTC.
#[tactic(auto, unfolding(crate::specs::Status::status_for))]
pub fn status_for(s: Stat) -> Status
    ensures { result ≡ status_for s }
{
    if s.known {
        return status_of(s.accepted);
    }
    Status::Clear
}

// What a status raises: one at most.
pub fn raises_of(s: Status) -> Raises
    ensures { result ≡ raises_of s }
{
    Raises {
        ltc: matches!(s, Status::Ltc),
        iae: matches!(s, Status::Iae),
        lck: matches!(s, Status::Lck),
        oci: matches!(s, Status::Oci),
        ais: matches!(s, Status::Ais),
    }
}

impl LevelState {
    // What stands, where dTIM is known.
    #[tactic(auto, unfolding(crate::specs::Level::stands_by))]
    fn stands_by(&self, ssf: bool, tim: bool, disabled: bool) -> LevelStands
        ensures { result ≡ stands_by self.now ssf tim disabled }
    {
        let status = status_for(self.stat);
        LevelStands {
            ssf,
            status,
            tim,
            disabled,
            bdi: self.layer.bdi.on,
            iae: raises_of(status).iae & !tim,
            biae: self.biae.on,
            deg: self.layer.deg.on,
        }
    }

    // What stands of a level under SSF or not.
    pub fn stands(&self, p: &Options, ssf: bool) -> LevelStands
        ensures { result ≡ level_stands self.now p.now ssf }
    {
        let tim = self.layer.tim(p.mode, &p.names);
        self.stands_by(ssf, tim, p.disabled)
    }

    // The level after a frame: STAT before its trace and BDI, and dTIM before dBIAE.
    #[tactic(auto, unfolding(crate::specs::Level::level_of))]
    pub fn step(&mut self, p: &Options, ssf: bool, m: &Multi, f: &Field) -> LevelStands
        ensures state { self.new ≡ level_of self.old p.now ssf m.now f.now }
        ensures stands { result ≡ level_stands self.new p.now ssf }
    {
        self.stat = filter::stat_step(self.stat, ssf, f.stat);
        let forget = ssf | raises_of(status_for(self.stat)).ais;
        self.layer.step(forget, m.inmulti, m.number, f.tti, f.bdi);
        let tim = self.layer.tim(p.mode, &p.names);
        let mark = overhead::is_mark(overhead::bei_of(f.bei));
        self.biae = filter::filter_step(self.biae, 3, forget | tim, mark);
        self.stands_by(ssf, tim, p.disabled)
    }

    // The level at a mark: dDEG is decided by the second that is closed.
    #[tactic(auto, unfolding(crate::specs::Level::level_marked))]
    pub fn mark(&mut self, p: &Options, c: &LevelSecond)
        ensures { self.new ≡ level_marked self.old p.now c.now }
    {
        frame::degrade(&mut self.layer, p, level_closed(*c).near.0);
    }
}

// SSF, dAIS, dLTC, dOCI or dLCK.
fn down(d: LevelStands) -> bool
    ensures { result ≡ level_down d }
{
    let raises = raises_of(d.status);
    d.ssf | raises.ais | raises.ltc | raises.oci | raises.lck
}

pub fn level_actions(d: LevelStands) -> LevelActions
    ensures { result ≡ level_actions d }
{
    LevelActions {
        tsf: down(d) | causes::tim_acts(d.tim, d.disabled),
        tsd: d.deg,
    }
}

pub fn level_causes(d: LevelStands) -> LevelCauses
    ensures { result ≡ level_causes d }
{
    let raises = raises_of(d.status);
    let fails = down(d);
    let acts = causes::tim_acts(d.tim, d.disabled);
    LevelCauses {
        ssf: d.ssf | raises.ais,
        ltc: raises.ltc & !d.ssf,
        oci: raises.oci & !d.ssf,
        lck: raises.lck & !d.ssf,
        tim: d.tim & !fails,
        deg: d.deg & !(fails | acts),
        bdi: d.bdi & !(fails | acts),
    }
}

// What a frame adds to the level's values, by what stands after it, its BEI and its violation count.
pub fn level_shows(d: LevelStands, bei: u8, violations: u8) -> Shows
    ensures { result ≡ level_shows d bei violations }
{
    let fails = down(d);
    Shows {
        stopped: fails,
        near: 1 <= violations,
        far: overhead::bei_of(bei),
        neards: fails | d.tim,
        fards: d.bdi,
    }
}

impl LevelSecond {
    // The open second after one more frame.
    #[tactic(auto, unfolding(crate::specs::Level::level_count))]
    pub fn count(&mut self, d: &LevelStands, bei: u8, violations: u8)
        ensures { self.new ≡ level_count self.old d.now bei violations }
    {
        self.blocks.step(&level_shows(*d, bei, violations));
        self.iae |= d.iae;
        self.biae |= d.biae;
    }
}

// The five values of the second as it is closed.
pub fn level_closed(c: LevelSecond) -> Blocks
    ensures { result ≡ level_closed c }
{
    second::discard(c.blocks, c.iae, c.biae)
}

// A level with no frame yet: nothing accepted, no defects.
pub fn fresh_level() -> LevelState
    ensures { result ≡ fresh_level }
{
    LevelState {
        layer: frame::fresh_layers().path.layer,
        stat: Stat::default(),
        biae: Filter::default(),
    }
}

// A second with no frame yet.
pub fn fresh_level_second() -> LevelSecond
    ensures { result ≡ fresh_level_second }
{
    LevelSecond::default()
}
