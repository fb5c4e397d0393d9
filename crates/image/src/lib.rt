// The supervisor's image in lent bytes: the line's record, then each layer's. docs/SUPERVISOR.md has the table.
#![tactic(auto)]

ghost use Rattle.std.specs.Prelude.{◌≡◌, ◌≤◌};
ghost use Rattle.codec.specs.Pieces.{lays};
ghost use Rattle.image.specs.Image.{counts_of, line_pieces, plain_state, section_held, path_held, held_with, TracesLaid, HeldLaid, Stored};

use filter::{Filter, Stat};
use layer::Layer;
use numbers::{Front, Head, State};
use second::{Blocks, Second};
use settings::Options;
use supervisor::Supervisor;

// Of the open second the frames and the heads, and a spare word: one list, as `counts_of` says it.
fn counts_of(c: &Second) -> [u32; 12]
    ensures { result ≡ counts_of c.now }
{
    let h = &c.heads;
    [
        c.frames.0, h[0], h[1], h[2], h[3], h[4], h[5], h[6], h[7], h[8], h[9], 0,
    ]
}

// The line's record.
fn store_line(b: &mut [u8], s: Supervisor)
    ensures { b.new ≡ lays b.old 0 (line_pieces s) }
{
    let head = numbers::head_bytes(Head {
        k: s.settings.k,
        seconds: s.seconds,
    });
    let align = numbers::align_bytes(s.layers.align);
    let counts = counts_of(&s.second);
    codec::lay_bytes(b, 0, &head);
    codec::lay_bytes(b, 32, &align);
    words::lay_words(b, 64, &counts);
}

// The state of a layer that has no STAT, no dIAE and no dBIAE.
fn plain_state(l: Layer, blocks: Blocks) -> State
    ensures { result ≡ plain_state l blocks }
{
    State {
        known: l.known,
        gathering: l.gathering,
        equal: l.equal,
        bdi: l.bdi,
        iae: Filter::default(),
        biae: Filter::default(),
        stat: Stat::default(),
        blocks,
        iaeseen: false,
        biaeseen: false,
    }
}

// The state of the section: it has no STAT.
fn section_state(s: Supervisor) -> State
    ensures { result ≡ (section_held s).state }
{
    let layer = s.layers.section.layer;
    State {
        iae: s.layers.section.iae,
        biae: s.layers.section.biae,
        iaeseen: s.second.iae,
        biaeseen: s.second.biae,
        ..plain_state(layer, s.second.section)
    }
}

// The state of the path: it has no dIAE and no dBIAE.
fn path_state(s: Supervisor) -> State
    ensures { result ≡ (path_held s).state }
{
    let layer = s.layers.path.layer;
    State {
        stat: s.layers.path.stat,
        ..plain_state(layer, s.second.path)
    }
}

// The traces of a layer, one behind the other.
fn store_traces(b: &mut [u8], at: usize, l: Layer)
    requires { at ≤ 600 }
    ensures { TracesLaid b.old at l b.new }
{
    let accepted = l.accepted;
    let gathered = l.gathered;
    let previous = l.previous;
    codec::lay_bytes(b, at, &accepted);
    codec::lay_bytes(b, at + 64, &gathered);
    codec::lay_bytes(b, at + 128, &previous);
}

// A layer's record, from a place on.
fn store_layer(b: &mut [u8], at: usize, p: Options, l: Layer, t: State)
    requires { at ≤ 500 }
    ensures { HeldLaid b.old at (held_with p l t) b.new }
{
    let names = p.names;
    let front = numbers::front_bytes(Front {
        thr: p.thr,
        degm: p.degm,
        mode: p.mode,
        disabled: p.disabled,
        deg: l.deg,
    });
    let state = numbers::state_bytes(t);
    codec::lay_bytes(b, at, &front);
    codec::lay_bytes(b, at + 32, &state);
    store_traces(b, at + 64, l);
    codec::lay_bytes(b, at + 256, &names);
}

// The supervisor's pieces laid over lent bytes: where they are 688, they become its image. By value: by reference (tried) a fresh supervisor lies on the stack that C
// sees, 848 bytes where a call may take 256.
pub fn lay(b: &mut [u8], s: Supervisor)
    ensures { Stored b.old s b.new }
{
    let section = section_state(s);
    let path = path_state(s);
    let so = s.settings.section;
    let sl = s.layers.section.layer;
    let po = s.settings.path;
    let pl = s.layers.path.layer;
    store_line(b, s);
    store_layer(b, 112, so, sl, section);
    store_layer(b, 400, po, pl, path);
}
