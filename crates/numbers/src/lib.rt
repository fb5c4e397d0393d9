// The numbers of a supervisor as strips of 32 bytes: the line's head, alignment, and of each layer its front and its state. Small numbers
// are bytes, counts are words. docs/SUPERVISOR.md has the table.
#![tactic(auto)]

ghost use Rattle.std.specs.Prelude.{◌≡◌};
ghost use Rattle.numbers.specs.Numbers.{head_bytes, head_in, align_bytes, align_in, front_bytes, front_in, state_bytes, blocks_in, state_in};

use alignment::{Alignment, Framing, Lof, Multi};
use filter::{Filter, Stat};
use second::{Blocks, Far, Near, Sum};
use words::word_of;

// What neither a frame nor alignment changes at the line.
#[derive(Clone, Copy)]
pub struct Head {
    pub k: u8,
    pub seconds: u32,
}

// What a frame leaves as it is in a layer: its provisioning but its names, and dDEG, which a mark decides.
#[derive(Clone, Copy)]
pub struct Front {
    pub thr: u32,
    pub degm: u32,
    pub mode: u8,
    pub disabled: bool,
    pub deg: Filter,
}

// What a frame changes in a layer but the bytes of its traces. `iaeseen`, `biaeseen`: whether dIAE and dBIAE stood in some frame of the
// open second. A section's STAT, a path's dIAE and dBIAE are quiet. Flags beside their numbers as in `Layer` (theorem `round_trip`).
#[derive(Clone, Copy)]
pub struct State {
    pub known: bool,
    pub gathering: bool,
    pub equal: u32,
    pub bdi: Filter,
    pub iae: Filter,
    pub biae: Filter,
    pub stat: Stat,
    pub blocks: Blocks,
    pub iaeseen: bool,
    pub biaeseen: bool,
}

// Bytes of numbers and back, four pairs of functions and no `From`: `Alignment` is of another crate, and `x % 256` of a word is a cast that no `From` makes.
pub fn head_bytes(h: Head) -> [u8; 32]
    ensures { result ≡ head_bytes h }
{
    let mut bytes = [0; 32];
    bytes[0] = h.k;
    bytes[28..].copy_from_slice(&h.seconds.to_le_bytes());
    bytes
}

pub fn head_in(w: [u8; 32]) -> Head
    ensures { result ≡ head_in w }
{
    Head {
        k: w[0],
        seconds: word_of(w[28], w[29], w[30], w[31]),
    }
}

pub fn align_bytes(a: Alignment) -> [u8; 32]
    ensures { result ≡ align_bytes a }
{
    let mut bytes = [0; 32];
    bytes[..8].copy_from_slice(&[
        u8::from(a.framing.inframe),
        u8::from(a.framing.seen),
        (a.framing.misses % 256) as u8,
        u8::from(a.multi.inmulti),
        a.multi.number,
        (a.multi.misses % 256) as u8,
        u8::from(a.multi.known),
        a.multi.previous,
    ]);
    bytes[20..24].copy_from_slice(&a.lof.total.to_le_bytes());
    bytes[24..28].copy_from_slice(&a.lof.good.to_le_bytes());
    bytes[28..].copy_from_slice(&a.lom.to_le_bytes());
    bytes
}

pub fn align_in(w: [u8; 32]) -> Alignment
    ensures { result ≡ align_in w }
{
    Alignment {
        framing: Framing {
            inframe: w[0] == 1,
            seen: w[1] == 1,
            misses: u32::from(w[2]),
        },
        lof: Lof {
            total: word_of(w[20], w[21], w[22], w[23]),
            good: word_of(w[24], w[25], w[26], w[27]),
        },
        multi: Multi {
            inmulti: w[3] == 1,
            number: w[4],
            misses: u32::from(w[5]),
            known: w[6] == 1,
            previous: w[7],
        },
        lom: word_of(w[28], w[29], w[30], w[31]),
    }
}

pub fn front_bytes(f: Front) -> [u8; 32]
    ensures { result ≡ front_bytes f }
{
    let mut bytes = [0; 32];
    bytes[..4].copy_from_slice(&f.thr.to_le_bytes());
    bytes[4..9].copy_from_slice(&[
        (f.degm % 256) as u8,
        f.mode,
        u8::from(f.disabled),
        u8::from(f.deg.on),
        (f.deg.run % 256) as u8,
    ]);
    bytes
}

pub fn front_in(w: [u8; 32]) -> Front
    ensures { result ≡ front_in w }
{
    Front {
        thr: word_of(w[0], w[1], w[2], w[3]),
        degm: u32::from(w[4]),
        mode: w[5],
        disabled: w[6] == 1,
        deg: Filter {
            on: w[7] == 1,
            run: u32::from(w[8]),
        },
    }
}

pub fn state_bytes(s: State) -> [u8; 32]
    ensures { result ≡ state_bytes s }
{
    let mut bytes = [0; 32];
    bytes[..17].copy_from_slice(&[
        u8::from(s.known),
        u8::from(s.gathering),
        (s.equal % 256) as u8,
        u8::from(s.bdi.on),
        (s.bdi.run % 256) as u8,
        u8::from(s.iae.on),
        (s.iae.run % 256) as u8,
        u8::from(s.biae.on),
        (s.biae.run % 256) as u8,
        s.stat.value,
        (s.stat.run % 256) as u8,
        u8::from(s.stat.known),
        s.stat.accepted,
        u8::from(s.blocks.neards),
        u8::from(s.blocks.fards),
        u8::from(s.iaeseen),
        u8::from(s.biaeseen),
    ]);
    bytes[20..24].copy_from_slice(&s.blocks.sum.0.to_le_bytes());
    bytes[24..28].copy_from_slice(&s.blocks.near.0.to_le_bytes());
    bytes[28..].copy_from_slice(&s.blocks.far.0.to_le_bytes());
    bytes
}

fn blocks_of(w: &[u8; 32]) -> Blocks
    ensures { result ≡ blocks_in w.now }
{
    Blocks {
        near: Near(word_of(w[24], w[25], w[26], w[27])),
        far: Far(word_of(w[28], w[29], w[30], w[31])),
        neards: w[13] == 1,
        fards: w[14] == 1,
        sum: Sum(word_of(w[20], w[21], w[22], w[23])),
    }
}

pub fn state_in(w: [u8; 32]) -> State
    ensures { result ≡ state_in w }
{
    State {
        known: w[0] == 1,
        gathering: w[1] == 1,
        equal: u32::from(w[2]),
        bdi: Filter {
            on: w[3] == 1,
            run: u32::from(w[4]),
        },
        iae: Filter {
            on: w[5] == 1,
            run: u32::from(w[6]),
        },
        biae: Filter {
            on: w[7] == 1,
            run: u32::from(w[8]),
        },
        stat: Stat {
            value: w[9],
            run: u32::from(w[10]),
            known: w[11] == 1,
            accepted: w[12],
        },
        blocks: blocks_of(&w),
        iaeseen: w[15] == 1,
        biaeseen: w[16] == 1,
    }
}
