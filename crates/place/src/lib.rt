// A frame and a mark in a supervisor's bytes, part by part: numbers go through the functions by value. What a frame does not change is not written.
#![tactic(auto)]

ghost use Rattle.std.specs.Prelude.{◌≡◌, ◌+◌, ◌≤◌, length};
ghost use Rattle.answer.specs.Over.{over};
ghost use Rattle.codec.specs.Over.{bytes_in, laid};
ghost use Rattle.place.specs.Place.{section_filters, filtered_bytes, section_numbers, section_stood, section_record, SectionAt, path_bdi_at, path_numbers, path_frame, path_stood, path_record, PathAt, LineAt, tallied_in, CloseAt, opened_in};

use alignment::Multi;
use causes::{Line, PathStands, SectionStands};
use filter::{Filter, Stat};
use numbers::Head;
use overhead::Field;
use second::Blocks;
use signal::Raised;

// What stands at the line after a frame, and its multiframe.
#[derive(Clone, Copy)]
pub struct LineFrame {
    pub line: Line,
    pub multi: Multi,
}

// What stands in the path after a frame, and its maintenance defects by the number of the accepted STAT.
#[derive(Clone, Copy)]
pub struct PathFrame {
    pub stands: PathStands,
    pub raised: Raised,
}

// The filters of a section after a frame.
#[derive(Clone, Copy)]
pub struct Filtered {
    pub bdi: Filter,
    pub iae: Filter,
    pub biae: Filter,
}

// The filters of a section.
#[tactic(auto, using(crate::proofs::Numbers::filters_is))]
fn filters_at(w: &mut [u8; 6], ssf: bool, tim: bool, f: Field) -> Filtered
    ensures { (result ≡ section_filters w.old ssf tim f) × (w.new ≡ filtered_bytes (section_filters w.old ssf tim f)) }
{
    let read = overhead::bei_of(f.bei);
    let mark = overhead::is_mark(read);
    let bdi = fields::filter_at(&mut w[0..2], 5, ssf, f.bdi);
    let iae = fields::filter_at(&mut w[2..4], 5, ssf | tim, f.iae);
    let biae = fields::filter_at(&mut w[4..6], 3, ssf | tim, mark);
    Filtered { bdi, iae, biae }
}

// A section's other numbers after a frame: dBDI, dIAE and dBIAE, and the second's flags, counts and sum.
fn section_numbers(w: &mut [u8; 29], ssf: bool, tim: bool, f: Field, sm: u8) -> Filtered
    ensures { (result ≡ section_filters (bytes_in 6 0 w.old) ssf tim f) × (w.new ≡ section_numbers w.old ssf tim f sm) }
{
    let read = overhead::bei_of(f.bei);
    let filters = w.first_chunk_mut::<6>().unwrap();
    let d = filters_at(filters, ssf, tim, f);
    fields::flags_at(&mut w[10..14], ssf | tim, d.bdi.on, d.iae.on, d.biae.on);
    fields::frame_at(&mut w[17..29], sm, read, ssf);
    d
}

// The section's record after a frame: its front and its names are not written.
fn section_within(b: &mut [u8; 288], ssf: bool, m: Multi, f: Field, sm: u8) -> SectionStands
    ensures { (result ≡ section_stood b.old ssf m f) × (b.new ≡ section_record b.old ssf m f sm) }
{
    let disabled = b[6] == 1;
    let deg = b[7] == 1;
    let tim = cycle::trace_at(b, ssf, m.inmulti, m.number, f.tti);
    let (_, rest) = b.split_first_chunk_mut::<35>().unwrap();
    let numbers = rest.first_chunk_mut::<29>().unwrap();
    let d = section_numbers(numbers, ssf, tim, f, sm);
    SectionStands {
        tim,
        disabled,
        bdi: d.bdi.on,
        iae: d.iae.on,
        biae: d.biae.on,
        deg,
    }
}

// The section in its record: what stands after a frame. Bytes that are no record are left as they are.
pub fn section_at(b: &mut [u8], ssf: bool, m: Multi, f: Field, sm: u8) -> SectionStands
    ensures { SectionAt b.old ssf m f sm result b.new }
{
    match b.as_mut_array::<288>() {
        Some(record) => section_within(record, ssf, m, f, sm),
        None => causes::nothing().section,
    }
}

// A path's other numbers after a frame: dBDI, STAT, and the second's flags, counts and sum.
fn path_numbers(
    w: &mut [u8; 29],
    t: Stat,
    forget: bool,
    stops: bool,
    tim: bool,
    f: Field,
    pm: u8,
) -> Filter
    ensures { (result ≡ path_bdi_at (bytes_in 2 0 w.old) forget f) × (w.new ≡ path_numbers w.old t forget stops tim f pm) }
{
    let read = overhead::path_bei(f.bei);
    let bdi = fields::filter_at(&mut w[0..2], 5, forget, f.bdi);
    fields::lay_stat(&mut w[6..10], t);
    fields::flags_at(&mut w[10..14], stops | tim, bdi.on, false, false);
    fields::frame_at(&mut w[17..29], pm, read, stops);
    bdi
}

// The path's record after a frame: STAT before its trace and BDI; its front and its names are not written.
fn path_within(b: &mut [u8; 288], ssf: bool, m: Multi, f: Field, pm: u8) -> PathFrame
    ensures { (result ≡ path_frame (path_stood b.old ssf m f)) × (b.new ≡ path_record b.old ssf m f pm) }
{
    let disabled = b[6] == 1;
    let deg = b[7] == 1;
    let before = fields::stat_in(codec::array_in(b, 41));
    let stat = filter::stat_step(before, ssf, f.stat);
    let signal = signal::stands_for(stat);
    let raised = signal::raised_in(stat);
    let forget = ssf | raised.ais;
    let stops = ssf | raised.ais | raised.oci | raised.lck;
    let tim = cycle::trace_at(b, forget, m.inmulti, m.number, f.tti);
    let (_, rest) = b.split_first_chunk_mut::<35>().unwrap();
    let numbers = rest.first_chunk_mut::<29>().unwrap();
    let bdi = path_numbers(numbers, stat, forget, stops, tim, f, pm);
    PathFrame {
        stands: PathStands {
            signal,
            tim,
            disabled,
            bdi: bdi.on,
            deg,
        },
        raised,
    }
}

// The path in its record: what stands after a frame. Bytes that are no record are left as they are.
pub fn path_at(b: &mut [u8], ssf: bool, m: Multi, f: Field, pm: u8) -> PathFrame
    ensures { PathAt b.old ssf m f pm result b.new }
{
    match b.as_mut_array::<288>() {
        Some(record) => path_within(record, ssf, m, f, pm),
        None => {
            let stands = causes::nothing().path;
            let raised = signal::raised_by(stands.signal);
            PathFrame { stands, raised }
        }
    }
}

// Alignment in the line's record: what stands at the line after a frame. Its head is not written.
pub fn line_at(b: &mut [u8], four: bool, three: bool, mfas: u8, flags: u8) -> LineFrame
    ensures { LineAt b.old four three mfas flags result b.new }
{
    let head = numbers::head_in(codec::array_in(b, 0));
    let before = numbers::align_in(codec::array_in(b, 32));
    let n = alignment::frames_of(head.k);
    let after = alignment::align_step(before, n, four, three, mfas);
    let x = numbers::align_bytes(after);
    codec::lay_bytes(b, 32, &x);
    LineFrame {
        line: frame::line_of(after, n, flags),
        multi: after.multi,
    }
}

// A frame filed under its head, in the words of the open second.
#[tactic(auto, unfolding(crate::specs::Place::tallied_in))]
pub fn tally_at(b: &mut [u8], head: u8)
    ensures { b.new ≡ tallied_in b.old head }
{
    words::count_at(b, 0, 400000);
    if head < 10 {
        words::count_at(b, u32::from(head) + 1, 400000);
    }
}

// The bytes of a strip from `at`, byte by byte.
#[tactic(auto, using(answer::proofs::Overs::over_nil, answer::proofs::Overs::over_suc))]
fn put_strip(b: &mut [u8], at: usize, strip: &[u8; 32])
    requires { at + 32 ≤ length b.old }
    ensures { b.new ≡ over b.old at strip.now }
{
    for i in 0..32 {
        b[at + i] = strip[i];
    }
}

// A strip laid over b from `at`, as `codec::lay_bytes` lays it: copied as a whole, its zeros are read back from where they were just written, and a mark waits for that.
#[tactic(auto, using(codec::proofs::Overs::laid_done, codec::proofs::Overs::laid_kept))]
fn lay_strip(b: &mut [u8], at: usize, strip: &[u8; 32])
    ensures { b.new ≡ laid b.old at strip.now }
{
    if 32 <= b.len() && at <= b.len() - 32 {
        put_strip(b, at, strip);
    }
}

// A layer's record at a mark: its values of the second, which is closed; dDEG is decided by them, and the next second has none.
pub fn close_at(b: &mut [u8]) -> Blocks
    ensures { CloseAt b.old result b.new }
{
    let mut front = numbers::front_in(codec::array_in(b, 0));
    let mut state = numbers::state_in(codec::array_in(b, 32));
    let done = second::discard(state.blocks, state.iaeseen, state.biaeseen);
    front.deg = filter::filter_step(front.deg, front.degm, false, front.thr <= done.near.0);
    state.blocks = Blocks::default();
    state.iaeseen = false;
    state.biaeseen = false;
    lay_strip(b, 0, &numbers::front_bytes(front));
    lay_strip(b, 32, &numbers::state_bytes(state));
    done
}

// The line's record at a mark: a head, and no frame under any head.
#[tactic(auto, unfolding(crate::specs::Place::opened_in))]
pub fn open_at(b: &mut [u8], h: Head)
    ensures { b.new ≡ opened_in b.old h }
{
    codec::lay_bytes(b, 0, &numbers::head_bytes(h));
    words::lay_words(b, 64, &[0; 12]);
}
