// One frame's overhead: 64 bytes, four rows of columns 1 to 16, row after row.
#![tactic(auto)]

ghost use Rattle.std.specs.Prelude.{◌≡◌, get_or};
ghost use Rattle.overhead.specs.Overhead.{four_of, three_of, field_of, overhead_of, level_field};
ghost use Rattle.overhead.specs.Bei.{bei_of, path_bei, is_far, violations_of, is_biae};

// The three bytes of SM, PM or a tandem level as far as they are looked at. The section looks at `iae`, path and levels at `stat`.
#[derive(Clone, Copy, Default)]
pub struct Field {
    pub tti: u8,
    pub bei: u8,
    pub bdi: bool,
    pub iae: bool,
    pub stat: u8,
}

// All that is looked at in a frame. `four`: columns 2 to 5 are framing; `three`: columns 3 to 5 are.
#[derive(Clone, Copy)]
pub struct Overhead {
    pub four: bool,
    pub three: bool,
    pub mfas: u8,
    pub section: Field,
    pub path: Field,
}

// The byte at an index, 0 past the end.
fn byte_at(bytes: &[u8], at: usize) -> u8
    ensures { result ≡ get_or bytes.now at 0 }
{
    bytes.get(at).copied().unwrap_or(0)
}

// Columns 3 to 5 of row 1 are F6 28 28.
#[tactic(auto, unfolding(crate::specs::Overhead::three_of))]
fn three_of(bytes: &[u8]) -> bool
    ensures { result ≡ three_of bytes.now }
{
    (byte_at(bytes, 2) == 0xF6) & (byte_at(bytes, 3) == 0x28) & (byte_at(bytes, 4) == 0x28)
}

// Columns 2 to 5 of row 1 are F6 F6 28 28.
#[tactic(auto, unfolding(crate::specs::Overhead::four_of))]
fn four_of(bytes: &[u8]) -> bool
    ensures { result ≡ four_of bytes.now }
{
    (byte_at(bytes, 1) == 0xF6) & three_of(bytes)
}

// The field whose TTI byte stands at `at`; its status byte is two columns further.
#[tactic(auto, unfolding(crate::specs::Overhead::field_of))]
fn field_of(bytes: &[u8], tti: usize, status: usize) -> Field
    ensures { result ≡ field_of (get_or bytes.now tti 0) (get_or bytes.now status 0) }
{
    let s = byte_at(bytes, status);
    Field {
        tti: byte_at(bytes, tti),
        bei: s / 16,
        bdi: s / 8 % 2 == 1,
        iae: s / 4 % 2 == 1,
        stat: s % 8,
    }
}

// The overhead that any bytes show.
#[tactic(auto, unfolding(crate::specs::Overhead::overhead_of))]
pub fn overhead_of(bytes: &[u8]) -> Overhead
    ensures { result ≡ overhead_of bytes.now }
{
    Overhead {
        four: four_of(bytes),
        three: three_of(bytes),
        mfas: byte_at(bytes, 6),
        section: field_of(bytes, 7, 9),
        path: field_of(bytes, 41, 43),
    }
}

// The field of a tandem level, TCM1 to TCM6; zeros where there is no such level.
#[tactic(auto, unfolding(crate::specs::Overhead::level_field, crate::specs::Overhead::field_of))]
pub fn level_field(bytes: &[u8], level: u8) -> Field
    ensures { result ≡ level_field bytes.now level }
{
    match level {
        1 => field_of(bytes, 38, 40),
        2 => field_of(bytes, 35, 37),
        3 => field_of(bytes, 32, 34),
        4 => field_of(bytes, 26, 28),
        5 => field_of(bytes, 23, 25),
        6 => field_of(bytes, 20, 22),
        _ => Field::default(),
    }
}

// What a BEI code says: nothing, so many violations (1 to 8), or the mark of an alignment error that the far end has met.
#[derive(Clone, Copy, Debug, PartialEq, Eq)]
pub enum Bei {
    None,
    Number(u8),
    Biae,
}

// The BEI reading of the section and of a tandem level. No `From<u8>`: a byte has two readings, this one and the path's.
#[tactic(auto, unfolding(crate::specs::Bei::bei_of))]
pub fn bei_of(code: u8) -> Bei
    ensures { result ≡ bei_of code }
{
    if code == 11 {
        Bei::Biae
    } else {
        path_bei(code)
    }
}

// The BEI reading of the path, where 1011 is none.
#[tactic(auto, unfolding(crate::specs::Bei::path_bei, crate::specs::Overhead::far_block))]
pub fn path_bei(code: u8) -> Bei
    ensures { result ≡ path_bei code }
{
    match code {
        1..=8 => Bei::Number(code),
        _ => Bei::None,
    }
}

// Whether it tells of a far-end errored block.
pub fn is_far(b: Bei) -> bool
    ensures { result ≡ is_far b }
{
    matches!(b, Bei::Number(_))
}

// How many violations it tells of.
pub fn violations(b: Bei) -> u8
    ensures { result ≡ violations_of b }
{
    match b {
        Bei::Number(n) => n,
        Bei::None | Bei::Biae => 0,
    }
}

// Whether it is the BIAE mark.
pub fn is_mark(b: Bei) -> bool
    ensures { result ≡ is_biae b }
{
    matches!(b, Bei::Biae)
}
