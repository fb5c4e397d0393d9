// The path's fault causes by lookup: eight yes-or-no inputs select a byte of a table. The equations are in `causes`.
#![tactic(auto)]

ghost use Rattle.std.specs.Prelude.{◌≡◌};
ghost use Rattle.causes.specs.Causes.{causes_by};
ghost use Rattle.lookup.specs.Lookup.{byte_of, entry, causes_in, report_raised};

use causes::{PathCauses, Report, Standing};
use signal::Raised;

// The cause bytes, cOCI in the lowest bit, then cLCK, cTIM, cDEG, cBDI, cSSF: a row for each choice of dTIM, TIMActDis, dDEG and dBDI, dTIM the lowest bit, and
// in a row one byte for each of SSF, dAIS, dOCI and dLCK.
const CAUSES: [u8; 256] = *b"\
    \x00\x20\x20\x20\x01\x20\x21\x20\x02\x20\x22\x20\x03\x20\x23\x20\
    \x04\x20\x20\x20\x01\x20\x21\x20\x02\x20\x22\x20\x03\x20\x23\x20\
    \x00\x20\x20\x20\x01\x20\x21\x20\x02\x20\x22\x20\x03\x20\x23\x20\
    \x04\x20\x20\x20\x01\x20\x21\x20\x02\x20\x22\x20\x03\x20\x23\x20\
    \x08\x20\x20\x20\x01\x20\x21\x20\x02\x20\x22\x20\x03\x20\x23\x20\
    \x04\x20\x20\x20\x01\x20\x21\x20\x02\x20\x22\x20\x03\x20\x23\x20\
    \x08\x20\x20\x20\x01\x20\x21\x20\x02\x20\x22\x20\x03\x20\x23\x20\
    \x0c\x20\x20\x20\x01\x20\x21\x20\x02\x20\x22\x20\x03\x20\x23\x20\
    \x10\x20\x20\x20\x01\x20\x21\x20\x02\x20\x22\x20\x03\x20\x23\x20\
    \x04\x20\x20\x20\x01\x20\x21\x20\x02\x20\x22\x20\x03\x20\x23\x20\
    \x10\x20\x20\x20\x01\x20\x21\x20\x02\x20\x22\x20\x03\x20\x23\x20\
    \x14\x20\x20\x20\x01\x20\x21\x20\x02\x20\x22\x20\x03\x20\x23\x20\
    \x18\x20\x20\x20\x01\x20\x21\x20\x02\x20\x22\x20\x03\x20\x23\x20\
    \x04\x20\x20\x20\x01\x20\x21\x20\x02\x20\x22\x20\x03\x20\x23\x20\
    \x18\x20\x20\x20\x01\x20\x21\x20\x02\x20\x22\x20\x03\x20\x23\x20\
    \x1c\x20\x20\x20\x01\x20\x21\x20\x02\x20\x22\x20\x03\x20\x23\x20";

// The cause byte that the eight inputs select. They stand one by one, as C hands them in: each a weight in the entry's number, and no branch.
#[unsafe(no_mangle)]
#[tactic(auto, unfolding(crate::specs::Lookup::entry, crate::specs::Lookup::cause_table))]
pub extern "C" fn causes_by_table(
    ssf: bool,
    ais: bool,
    oci: bool,
    lck: bool,
    tim: bool,
    disabled: bool,
    deg: bool,
    bdi: bool,
) -> u8
    ensures { result ≡ entry ssf ais oci lck tim disabled deg bdi }
{
    let at = u8::from(ssf)
        + 2 * u8::from(ais)
        + 4 * u8::from(oci)
        + 8 * u8::from(lck)
        + 16 * u8::from(tim)
        + 32 * u8::from(disabled)
        + 64 * u8::from(deg)
        + 128 * u8::from(bdi);
    CAUSES[usize::from(at)]
}

// The byte of causes, one bit for each. No `From`: neither type is of this crate.
fn byte_of(c: PathCauses) -> u8
    ensures { result ≡ byte_of c }
{
    u8::from(c.oci)
        + 2 * u8::from(c.lck)
        + 4 * u8::from(c.tim)
        + 8 * u8::from(c.deg)
        + 16 * u8::from(c.bdi)
        + 32 * u8::from(c.ssf)
}

// The same byte by the equations: what stands beside the lookup where instructions are counted.
#[unsafe(no_mangle)]
pub extern "C" fn causes_by_equations(
    ssf: bool,
    ais: bool,
    oci: bool,
    lck: bool,
    tim: bool,
    disabled: bool,
    deg: bool,
    bdi: bool,
) -> u8
    ensures { result ≡ byte_of (causes_by ssf ais oci lck tim disabled deg bdi) }
{
    byte_of(causes::causes_by(ssf, ais, oci, lck, tim, disabled, deg, bdi))
}

// The causes that a byte has.
fn causes_in(byte: u8) -> PathCauses
    ensures { result ≡ causes_in byte }
{
    PathCauses {
        oci: byte % 2 == 1,
        lck: byte / 2 % 2 == 1,
        tim: byte / 4 % 2 == 1,
        deg: byte / 8 % 2 == 1,
        bdi: byte / 16 % 2 == 1,
        ssf: byte / 32 % 2 == 1,
    }
}

// The report of what stands, the path's causes by the table. dAIS, dOCI and dLCK are handed in as yes or no, so that no case of the signal is looked at on the way to the entry.
#[tactic(auto, unfolding(crate::specs::Lookup::report_raised))]
pub fn report_by_table(raised: Raised, d: Standing, sm: u8, pm: u8) -> Report
    ensures { result ≡ report_raised raised d sm pm }
{
    let p = d.path;
    let ssf = causes::path_ssf(d);
    let byte = causes_by_table(
        ssf, raised.ais, raised.oci, raised.lck, p.tim, p.disabled, p.deg, p.bdi,
    );
    causes::report_with(causes_in(byte), d, sm, pm)
}
