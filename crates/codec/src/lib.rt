// Arrays in lent bytes. Each function takes any place: what does not lie within the lent bytes is read as zeros, and is not written.
#![tactic(auto)]

ghost use Rattle.std.specs.Prelude.{◌≡◌};
ghost use Rattle.codec.specs.Over.{bytes_in, laid, poured};

// N bytes of b from `at`.
#[tactic(auto, using(crate::proofs::Overs::bytes_room, crate::proofs::Overs::bytes_beyond))]
pub fn array_in<const N: usize>(b: &[u8], at: u32) -> [u8; N]
    ensures { result ≡ bytes_in N at b.now }
{
    let from = at as usize;
    let mut t = [0u8; N];
    if N <= b.len() && from <= b.len() - N {
        t.copy_from_slice(&b[from..from + N]);
    }
    t
}

// The bytes of src laid over b from `at`.
#[tactic(auto, using(crate::proofs::Overs::put_laid, crate::proofs::Overs::laid_kept))]
pub fn lay_bytes(b: &mut [u8], at: usize, src: &[u8])
    ensures { b.new ≡ laid b.old at src.now }
{
    if src.len() <= b.len() && at <= b.len() - src.len() {
        b[at..at + src.len()].copy_from_slice(src);
    }
}

// Of src, the first bytes that `out` has room for, over its front.
#[tactic(auto, using(crate::proofs::Overs::put_poured))]
pub fn pour(out: &mut [u8], src: &[u8])
    ensures { out.new ≡ poured out.old src.now }
{
    let n = out.len().min(src.len());
    out[..n].copy_from_slice(&src[..n]);
}
