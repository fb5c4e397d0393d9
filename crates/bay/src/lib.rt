// Six tandem levels in 1760 lent bytes: a strip with the flags and what is provisioned, then a record for each level. Bytes of another length are no bay,
// and are left as they are; a level that is not provisioned is tested, and otherwise neither read nor written.
#![tactic(auto)]

ghost use Rattle.std.specs.Prelude.{◌≡◌, false, cond, ◌+◌, ◌≤◌, length, IfOk};
ghost use Rattle.answer.specs.Refusal.{said};
ghost use Rattle.codec.specs.Over.{bytes_in};
ghost use Rattle.names.specs.Names.{same_trace};
ghost use Rattle.overhead.specs.Overhead.{level_field};
ghost use Rattle.rack.specs.Rack.{level_record, level_sound};
ghost use Rattle.bay.specs.Bay.{records_of, given_in, all_sound, bay_sound, each_record, fresh_record, blank_numbers, blank_rule, blank_bay, with_record, gave_in, each_given, frame_record, framed_in, mark_record, fives_of, OneMark, MarkAt, stood_in, stands_in, trace_of, traced_in};

use alignment::Multi;
use answer::Refusal;
use filter::Filter;
use layer::Layer;
use level::{LevelStands, LevelState};
use numbers::Front;
use settings::Options;

// The greatest of each byte of the strip: the flags, whether levels 1 to 6 are provisioned, and spare bytes.
const STRIP_GREATEST: [u8; 32] = [
    3, 1, 1, 1, 1, 1, 1, 0, 0, 0, 0, 0, 0, 0, 0, 0, 0, 0, 0, 0, 0, 0, 0, 0, 0, 0, 0, 0, 0, 0, 0, 0,
];

// Whether a level that is not provisioned still holds a blank level's numbers, DEGThr 1 and DEGM 2: one comparison.
#[tactic(auto, unfolding(numbers::specs::Held::held_bytes))]
fn is_blank(r: &[u8], given: bool) -> bool
    ensures { result ≡ cond given false (same_trace (bytes_in 64 0 r.now) blank_numbers) }
{
    if given {
        return false;
    }
    let mut blank = [0u8; 64];
    blank[0] = 1;
    blank[4] = 2;
    names::same_trace(&codec::array_in(r, 0), &blank)
}

// Whether a record is in its ranges: the numbers of a blank level are, and need no other test.
fn record_sound(r: &[u8; 288], given: bool) -> bool
    ensures { result ≡ level_sound r.now }
{
    is_blank(r, given) || rack::level_sound(r)
}

// Whether the record of each level is in its ranges.
#[tactic(auto, unfolding(crate::specs::Bay::all_sound))]
fn are_sound(b: &[u8; 1760]) -> bool
    ensures { result ≡ all_sound (records_of b.now) }
{
    let (records, _) = b[32..].as_chunks();
    let mut good = true;
    // No early end: the test of 17 is the same work for all bytes.
    for (record, given) in records.iter().zip(&b[1..7]) {
        good &= record_sound(record, *given == 1);
    }
    good
}

// Whether lent bytes are a bay: their length, the strip and each record within its ranges.
#[tactic(auto, unfolding(crate::specs::Bay::bay_sound))]
pub fn is_bay(b: &[u8]) -> bool
    ensures { result ≡ bay_sound b.now }
{
    match b.as_array::<1760>() {
        Some(bay) => {
            let strip = ranges::is_below(&STRIP_GREATEST, &codec::array_in(bay, 0));
            strip & are_sound(bay)
        }
        None => false,
    }
}

// The record of a level as it is provisioned.
// Tried with `&mut [u8; 288]`: a proof isn't told how long what comes back is, and the loops need it.
// The options by value: lent, they might overlap r, and the copying of the names tests for that; otn_fresh took half as much time again.
fn lay_fresh(r: &mut [u8], p: Options)
    requires { length r.old ≡ 288 }
    ensures { r.new ≡ fresh_record p }
{
    let front = numbers::front_bytes(Front {
        thr: p.thr,
        degm: p.degm,
        mode: p.mode,
        disabled: p.disabled,
        deg: Filter { on: false, run: 0 },
    });
    codec::lay_bytes(r, 0, &front);
    codec::lay_bytes(r, 32, &[0; 32]);
    codec::lay_bytes(r, 64, &[0; 64]);
    codec::lay_bytes(r, 128, &[0; 64]);
    codec::lay_bytes(r, 192, &[0; 64]);
    codec::lay_bytes(r, 256, &p.names);
}

// Six blank records. The options by hand: from `supervisor::blank()` (tried) otn_fresh takes 272 bytes of stack, and C is promised 256.
fn lay_blanks(b: &mut [u8; 1760])
    ensures { b.new ≡ each_record blank_rule b.old }
{
    // By place: of what chunks_exact_mut and as_chunks_mut lend a proof knows the length alone afterwards.
    for i in 0..6 {
        let at = 32 + 288 * i;
        lay_fresh(
            &mut b[at..at + 288],
            Options {
                thr: 1,
                degm: 2,
                mode: 0,
                disabled: false,
                names: [0; 32],
            },
        );
    }
}

// No level provisioned, and no flags met.
#[tactic(auto, unfolding(crate::specs::Bay::blank_bay))]
pub fn lay_bay(b: &mut [u8])
    ensures { b.new ≡ blank_bay b.old }
{
    match b.as_mut_array::<1760>() {
        Some(bay) => {
            codec::lay_bytes(bay, 0, &[0; 32]);
            lay_blanks(bay);
        }
        None => {}
    }
}

// Level n provisioned in a bay.
fn give_in(b: &mut [u8; 1760], n: usize, p: &Options)
    requires le_n { 1 ≤ n }
    requires n_bound { n ≤ 6 }
    ensures { b.new ≡ with_record b.old n p.now }
{
    b[n] = 1;
    let at = 32 + 288 * (n - 1);
    lay_fresh(&mut b[at..at + 288], *p);
}

// Level n provisioned; nothing is done where there is no such level.
#[tactic(auto, unfolding(crate::specs::Bay::gave_in))]
pub fn give_at(b: &mut [u8], n: u8, p: &Options)
    ensures { b.new ≡ gave_in b.old n p.now }
{
    match b.as_mut_array::<1760>() {
        Some(bay) if 1 <= n && n <= 6 => give_in(bay, usize::from(n), p),
        _ => {}
    }
}

// One level after a frame, in its record, where it is provisioned.
// SSF, multiframe, overhead and counts go one by one, as `rack::level_at` and `frame_at`'s clause have them: a struct would be taken apart at once.
// Tried with `&mut [u8; 288]`: a proof isn't told how long what comes back is, and the loops need it.
fn one_frame(r: &mut [u8], given: bool, ssf: bool, m: Multi, overhead: &[u8], n: u8, violations: u8)
    requires { length r.old ≡ 288 }
    ensures { r.new ≡ cond given (level_record r.old ssf m (level_field overhead.now n) violations) r.old }
{
    if given {
        let f = overhead::level_field(overhead, n);
        rack::level_at(r, ssf, m, f, violations);
    }
}

// Each provisioned level after a frame.
fn frame_in(b: &mut [u8; 1760], ssf: bool, m: Multi, overhead: &[u8], counts: [u8; 6])
    ensures { b.new ≡ each_given (frame_record ssf m overhead.now counts) b.old }
{
    // By place: of what chunks_exact_mut and as_chunks_mut lend a proof knows the length alone afterwards.
    for i in 0..6 {
        let given = b[i + 1] == 1;
        let at = 32 + 288 * i;
        // By `as`: there is no From of usize to u8.
        one_frame(
            &mut b[at..at + 288],
            given,
            ssf,
            m,
            overhead,
            i as u8 + 1,
            counts[i],
        );
    }
}

// A frame: the flags are kept, and each provisioned level is stepped in its record.
#[tactic(auto, unfolding(crate::specs::Bay::framed_in))]
pub fn frame_at(b: &mut [u8], flags: u8, ssf: bool, m: Multi, overhead: &[u8], counts: [u8; 6])
    ensures { b.new ≡ framed_in b.old flags ssf m overhead.now counts }
{
    match b.as_mut_array::<1760>() {
        Some(bay) => {
            bay[0] = flags;
            frame_in(bay, ssf, m, overhead, counts);
        }
        None => {}
    }
}

// One level at a mark, in its record, where it is provisioned: its five figures.
fn one_mark(r: &mut [u8], given: bool) -> [u32; 5]
    ensures { OneMark given r.old result r.new }
{
    if given {
        let d = place::close_at(r);
        return [
            d.near.0,
            d.far.0,
            u32::from(d.neards),
            u32::from(d.fards),
            d.sum.0,
        ];
    }
    [0; 5]
}

// The five figures in their place, one by one: a copy of so few costs a mark more.
fn put_five(out: &mut [u32], five: [u32; 5])
    requires { length out.old ≡ 5 }
    ensures { out.new ≡ five }
{
    let [near, far, neards, fards, sum] = five;
    out[0] = near;
    out[1] = far;
    out[2] = neards;
    out[3] = fards;
    out[4] = sum;
}

// Each provisioned level at a mark: the figures of all six.
fn mark_in(b: &mut [u8; 1760]) -> [u32; 30]
    ensures { (result ≡ fives_of b.old) × (b.new ≡ each_given mark_record b.old) }
{
    let mut out = [0u32; 30];
    // By place: of what chunks_exact_mut and as_chunks_mut lend a proof knows the length alone afterwards.
    for i in 0..6 {
        let given = b[i + 1] == 1;
        let at = 32 + 288 * i;
        let five = one_mark(&mut b[at..at + 288], given);
        put_five(&mut out[5 * i..5 * i + 5], five);
    }
    out
}

// A mark: each provisioned level is closed in its record, and the figures of all six.
#[tactic(auto, unfolding(crate::specs::Bay::marked_in, crate::specs::Bay::figures_in))]
pub fn mark_at(b: &mut [u8]) -> [u32; 30]
    ensures { MarkAt b.old result b.new }
{
    match b.as_mut_array::<1760>() {
        Some(bay) => mark_in(bay),
        None => [0; 30],
    }
}

// Whether level n is provisioned.
#[tactic(auto, unfolding(crate::specs::Bay::given_in))]
pub fn given_at(b: &[u8], n: u8) -> bool
    ensures { result ≡ given_in b.now n }
{
    b.len() == 1760 && 1 <= n && n <= 6 && b[usize::from(n)] == 1
}

// What stands by a record, under SSF or not. The cycle being gathered and the one before it have no part in it.
#[tactic(auto, unfolding(numbers::specs::Held::held_in, level::specs::Level::stands_by, layer::specs::Layer::tim_of))]
fn stood_in(r: &[u8], ssf: bool) -> LevelStands
    ensures { result ≡ stood_in r.now ssf }
{
    let f = numbers::front_in(codec::array_in(r, 0));
    let s = numbers::state_in(codec::array_in(r, 32));
    let accepted = codec::array_in(r, 64);
    let names = codec::array_in(r, 256);
    let state = LevelState {
        layer: Layer {
            accepted,
            gathered: [0; 64],
            previous: [0; 64],
            known: s.known,
            gathering: s.gathering,
            equal: s.equal,
            bdi: s.bdi,
            deg: f.deg,
        },
        stat: s.stat,
        biae: s.biae,
    };
    let options = Options {
        thr: f.thr,
        degm: f.degm,
        mode: f.mode,
        disabled: f.disabled,
        names,
    };
    state.stands(&options, ssf)
}

// What stands of level n by the path's SSF; nothing where it is not provisioned.
#[tactic(auto, unfolding(crate::specs::Bay::stands_in))]
pub fn stands_at(b: &[u8], n: u8, ssf: bool) -> LevelStands
    ensures { result ≡ stands_in b.now n ssf }
{
    if given_at(b, n) {
        let at = 32 + 288 * (usize::from(n) - 1);
        return stood_in(&b[at..at + 288], ssf);
    }
    LevelStands::default()
}

// The accepted trace by a record.
#[tactic(auto, unfolding(numbers::specs::Held::held_in))]
fn trace_in(r: &[u8]) -> Result<[u8; 64], Refusal>
    ensures refusal { said result ≡ (trace_of r.now).refusal }
    ensures ok { IfOk result (λ t. t ≡ (trace_of r.now).trace) }
{
    let s = numbers::state_in(codec::array_in(r, 32));
    answer::test(s.known, Refusal::NoTrace)?;
    Ok(codec::array_in(r, 64))
}

// The accepted trace of level n; 13 where there is none.
#[tactic(auto, unfolding(crate::specs::Bay::traced_in))]
pub fn trace_at(b: &[u8], n: u8) -> Result<[u8; 64], Refusal>
    ensures refusal { said result ≡ (traced_in b.now n).refusal }
    ensures ok { IfOk result (λ t. t ≡ (traced_in b.now n).trace) }
{
    answer::test(given_at(b, n), Refusal::NoTrace)?;
    let at = 32 + 288 * (usize::from(n) - 1);
    trace_in(&b[at..at + 288])
}
