// A layer's trace in its record: of the traces one byte is written, and a cycle is compared and copied only where it closes.
#![tactic(auto)]

ghost use Rattle.std.specs.Prelude.{◌≡◌};
ghost use Rattle.codec.specs.Over.{bytes_in};
ghost use Rattle.codec.specs.Pieces.{joined};
ghost use Rattle.cycle.specs.Cycle.{cycle_of, traces_of, multi_by, record_parts, layer_step, tim_after, TraceAt};

use layer::Cycle;

// A layer's record after its trace: its cycle's numbers and its traces are written. The record's parts are its front, its state, its three
// traces and its expected names.
fn trace_within(b: &mut [u8; 288], forget: bool, inmulti: bool, number: u8, tti: u8) -> bool
    ensures { (result ≡ tim_after b.old forget (multi_by inmulti number) tti) × (b.new ≡ joined (record_parts b.old (cycle_of (layer_step b.old forget (multi_by inmulti number) tti)) (bytes_in 29 35 b.old) (traces_of (layer_step b.old forget (multi_by inmulti number) tti)))) }
{
    let (front, rest) = b.split_first_chunk_mut::<32>().unwrap();
    let (state, rest) = rest.split_first_chunk_mut::<32>().unwrap();
    let (accepted, rest) = rest.split_first_chunk_mut::<64>().unwrap();
    let (gathered, rest) = rest.split_first_chunk_mut::<64>().unwrap();
    let (previous, rest) = rest.split_first_chunk_mut::<64>().unwrap();
    let names = rest.first_chunk::<32>().unwrap();
    let mut cycle = Cycle {
        known: state[0] == 1,
        gathering: state[1] == 1,
        equal: u32::from(state[2]),
    };
    cycle.step(accepted, gathered, previous, forget, inmulti, number, tti);
    state[0] = u8::from(cycle.known);
    state[1] = u8::from(cycle.gathering);
    state[2] = (cycle.equal % 256) as u8;
    layer::tim_in(cycle.known, accepted, front[5], names)
}

// A layer's trace in its record, and dTIM. Bytes that are no record are left as they are.
pub fn trace_at(b: &mut [u8], forget: bool, inmulti: bool, number: u8, tti: u8) -> bool
    ensures { TraceAt b.old forget inmulti number tti result b.new }
{
    match b.as_mut_array::<288>() {
        Some(record) => trace_within(record, forget, inmulti, number, tti),
        None => false,
    }
}
