// Traces and names compared, byte by byte.
#![tactic(auto)]

ghost use Rattle.std.specs.Prelude.{◌≡◌};
ghost use Rattle.names.specs.Names.{same_trace, Compares};

// Whether the two names of an accepted trace are the expected ones, and what was read to know it: how many of their 32 bytes were found
// alike, and how many unlike.
#[derive(Clone, Copy)]
pub struct Compared {
    pub sapi: bool,
    pub dapi: bool,
    pub alike: u32,
    pub unlike: u32,
}

// Whether two cycles, or two traces, are the same in all 64 bytes. No `==`: it may leave early, and here all bytes are read (speed/flat).
#[tactic(auto, unfolding(crate::specs::Names::same_in, crate::specs::Names::same_trace))]
pub fn same_trace(a: &[u8; 64], b: &[u8; 64]) -> bool
    ensures { result ≡ same_trace a.now b.now }
{
    let mut same = true;
    for (x, y) in a.iter().zip(b) {
        same &= x == y;
    }
    same
}

// Whether the SAPI and the DAPI of the accepted trace are the expected ones. All bytes are read, in one order, whatever was found; each
// pair that is read is counted by what it was found to be, so that none can be counted and left unread. By an index: SAPI and DAPI side by side in one order.
#[tactic(auto, unfolding(crate::specs::Names::same_in, crate::specs::Names::alike_in, crate::specs::Names::unlike_in))]
pub fn compare(accepted: &[u8; 64], names: &[u8; 32]) -> Compared
    ensures { Compares accepted.now names.now result }
{
    let mut sapi = true;
    let mut dapi = true;
    let mut alike = 0;
    let mut unlike = 0;
    for i in 0..16 {
        let e = accepted[i] == names[i];
        let f = accepted[16 + i] == names[16 + i];
        sapi &= e;
        dapi &= f;
        alike += u32::from(e) + u32::from(f);
        unlike += u32::from(!e) + u32::from(!f);
    }
    Compared {
        sapi,
        dapi,
        alike,
        unlike,
    }
}
