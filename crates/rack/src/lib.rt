// One tandem level in its record of 288 bytes: a frame in place, and the test of its numbers' ranges. A mark is that of every record,
// place::close_at. What a frame does not change is not written.
#![tactic(auto)]

ghost use Rattle.std.specs.Prelude.{◌≡◌};
ghost use Rattle.rack.specs.Rack.{level_stood, level_record, LevelAt, level_sound};

use alignment::Multi;
use level::LevelStands;
use overhead::Field;

// A level's record after a frame: STAT before its trace and BDI, dTIM before dBIAE; its front, its names and the filter of a section's dIAE are
// not written.
fn level_within(b: &mut [u8; 288], ssf: bool, m: Multi, f: Field, violations: u8) -> LevelStands
    ensures { (result ≡ level_stood b.old ssf m f) × (b.new ≡ level_record b.old ssf m f violations) }
{
    let disabled = b[6] == 1;
    let deg = b[7] == 1;
    let before = fields::stat_in(codec::array_in(b, 41));
    let stat = filter::stat_step(before, ssf, f.stat);
    let status = level::status_for(stat);
    let raises = level::raises_of(status);
    let forget = ssf | raises.ais;
    let stops = ssf | raises.ais | raises.ltc | raises.oci | raises.lck;
    let tim = cycle::trace_at(b, forget, m.inmulti, m.number, f.tti);
    let iae = raises.iae & !tim;
    let (_, rest) = b.split_first_chunk_mut::<35>().unwrap();
    let w = rest.first_chunk_mut::<29>().unwrap();
    let read = overhead::bei_of(f.bei);
    let mark = overhead::is_mark(read);
    let bdi = fields::filter_at(&mut w[0..2], 5, forget, f.bdi);
    let biae = fields::filter_at(&mut w[4..6], 3, forget | tim, mark);
    fields::lay_stat(&mut w[6..10], stat);
    fields::flags_at(&mut w[10..14], stops | tim, bdi.on, iae, biae.on);
    fields::frame_at(&mut w[17..29], violations, read, stops);
    LevelStands {
        ssf,
        status,
        tim,
        disabled,
        bdi: bdi.on,
        iae,
        biae: biae.on,
        deg,
    }
}

// One level in its record: what stands after a frame. Bytes that are no record are left as they are.
pub fn level_at(b: &mut [u8], ssf: bool, m: Multi, f: Field, violations: u8) -> LevelStands
    ensures { LevelAt b.old ssf m f violations result b.new }
{
    match b.as_mut_array::<288>() {
        Some(record) => level_within(record, ssf, m, f, violations),
        None => LevelStands::default(),
    }
}

// The greatest of each byte of a level's numbers.
const LEVEL_GREATEST: [u8; 64] = [
    255, 255, 255, 255, 10, 3, 1, 1, 9, 0, 0, 0, 0, 0, 0, 0, 0, 0, 0, 0, 0, 0, 0, 0, 0, 0, 0, 0, 0,
    0, 0, 0, 1, 1, 3, 1, 4, 0, 0, 1, 2, 7, 3, 1, 7, 1, 1, 1, 1, 0, 0, 0, 255, 255, 255, 255, 255,
    255, 255, 255, 255, 255, 255, 255,
];

// Whether lent bytes are a level's record: their length, and each number within its range.
#[tactic(auto, unfolding(crate::specs::Rack::level_sound))]
pub fn level_sound(b: &[u8]) -> bool
    ensures { result ≡ level_sound b.now }
{
    b.len() == 288 && ranges::is_layer_in(b, &LEVEL_GREATEST)
}
