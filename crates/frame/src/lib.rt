// Alignment, section and path: what is kept from frame to frame, and a frame's step.
#![tactic(auto)]

ghost use Rattle.std.specs.Prelude.{◌≡◌};
ghost use Rattle.layer.specs.Layer.{fresh_layer};
ghost use Rattle.frame.specs.Layers.{line_of, section_of, section_stands, path_of, path_stands, layers_of, standing_of, degraded, fresh_layers};

use alignment::{Alignment, Multi};
use causes::{Line, PathStands, SectionStands, Standing};
use filter::{Filter, Stat};
use layer::Layer;
use overhead::{Field, Overhead};
use settings::{Options, Settings};

// The section: its layer, dIAE and dBIAE.
#[derive(Clone, Copy)]
pub struct SectionState {
    pub layer: Layer,
    pub iae: Filter,
    pub biae: Filter,
}

// The path: its layer and STAT.
#[derive(Clone, Copy)]
pub struct PathState {
    pub layer: Layer,
    pub stat: Stat,
}

// What is kept from frame to frame.
#[derive(Clone, Copy)]
pub struct Layers {
    pub align: Alignment,
    pub section: SectionState,
    pub path: PathState,
}

fn fresh_layer() -> Layer
    ensures { result ≡ fresh_layer }
{
    Layer {
        accepted: [0; 64],
        gathered: [0; 64],
        previous: [0; 64],
        known: false,
        gathering: false,
        equal: 0,
        bdi: Filter::default(),
        deg: Filter::default(),
    }
}

pub fn fresh_layers() -> Layers
    ensures { result ≡ fresh_layers }
{
    let layer = fresh_layer();
    Layers {
        align: Alignment::default(),
        section: SectionState {
            layer,
            iae: Filter::default(),
            biae: Filter::default(),
        },
        path: PathState {
            layer,
            stat: Stat::default(),
        },
    }
}

// dDEG decided: a layer at a mark, by its near-end blocks in the second.
pub fn degrade(l: &mut Layer, p: &Options, near: u32)
    ensures { l.new ≡ degraded l.old p.now near }
{
    l.deg = filter::filter_step(l.deg, p.degm, false, p.thr <= near);
}

// What stands at the line.
#[tactic(auto, unfolding(crate::specs::Layers::line_of))]
pub fn line_of(a: Alignment, n: u32, flags: u8) -> Line
    ensures { result ≡ line_of a n flags }
{
    Line {
        inframe: a.framing.inframe,
        inmulti: a.multi.inmulti,
        tsf: flags % 2 == 1,
        ais: flags / 2 % 2 == 1,
        lof: a.lof.total == n,
        lom: a.lom == n,
    }
}

impl SectionState {
    // The section after a frame: its trace and dTIM before dIAE and dBIAE.
    #[tactic(auto, unfolding(crate::specs::Layers::section_of, crate::specs::Layers::section_stands))]
    fn step(&mut self, p: &Options, ssf: bool, m: &Multi, f: &Field) -> SectionStands
        ensures state { self.new ≡ section_of self.old p.now ssf m.now f.now }
        ensures stands { result ≡ section_stands self.new p.now }
    {
        self.layer.step(ssf, m.inmulti, m.number, f.tti, f.bdi);
        let tim = self.layer.tim(p.mode, &p.names);
        self.iae = filter::filter_step(self.iae, 5, ssf | tim, f.iae);
        let mark = overhead::is_mark(overhead::bei_of(f.bei));
        self.biae = filter::filter_step(self.biae, 3, ssf | tim, mark);
        SectionStands {
            tim,
            disabled: p.disabled,
            bdi: self.layer.bdi.on,
            iae: self.iae.on,
            biae: self.biae.on,
            deg: self.layer.deg.on,
        }
    }
}

impl PathState {
    // The path after a frame: STAT before its trace and BDI.
    #[tactic(auto, unfolding(crate::specs::Layers::path_of, crate::specs::Layers::path_stands))]
    fn step(&mut self, p: &Options, ssf: bool, m: &Multi, f: &Field) -> PathStands
        ensures state { self.new ≡ path_of self.old ssf m.now f.now }
        ensures stands { result ≡ path_stands self.new p.now }
    {
        self.stat = filter::stat_step(self.stat, ssf, f.stat);
        let signal = signal::stands_for(self.stat);
        let raised = signal::raised_by(signal);
        self.layer
            .step(ssf | raised.ais, m.inmulti, m.number, f.tti, f.bdi);
        let tim = self.layer.tim(p.mode, &p.names);
        PathStands {
            signal,
            tim,
            disabled: p.disabled,
            bdi: self.layer.bdi.on,
            deg: self.layer.deg.on,
        }
    }
}

impl Layers {
    // Alignment, then the section, then the path.
    #[tactic(auto, unfolding(crate::specs::Layers::layers_of, crate::specs::Layers::standing_of))]
    pub fn advance(&mut self, s: &Settings, o: &Overhead, flags: u8) -> Standing
        ensures layers { self.new ≡ layers_of s.now self.old o.now flags }
        ensures standing { result ≡ standing_of s.now self.new flags }
    {
        let n = alignment::frames_of(s.k);
        self.align = alignment::align_step(self.align, n, o.four, o.three, o.mfas);
        let line = line_of(self.align, n, flags);
        let ssf = causes::ssf_of(line);
        let section = self
            .section
            .step(&s.section, ssf, &self.align.multi, &o.section);
        let acts = causes::tim_acts(section.tim, section.disabled);
        let path = self
            .path
            .step(&s.path, ssf | acts, &self.align.multi, &o.path);
        Standing {
            line,
            section,
            path,
        }
    }
}
