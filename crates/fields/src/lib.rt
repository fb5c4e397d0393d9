// The numbers of a layer's state in lent bytes: a filter, a STAT, the flags, counts and sum of the second. Each function takes any bytes: those
// of another length than the number's are not written (a parameter `&mut [u8; 2]` would ask more of callers), and `x % 256` of a count is a cast that no `From` makes.
#![tactic(auto)]

ghost use Rattle.std.specs.Prelude.{◌≡◌, ◌&&◌, not, leb};
ghost use Rattle.overhead.specs.Bei.{is_far};
ghost use Rattle.second.specs.Second.{counted_of};
ghost use Rattle.fields.specs.Fields.{counted_by, counts_in, FilterStep, stat_at, stat_laid, flags_laid};

use filter::{Filter, Stat};
use overhead::Bei;

// A filter in its two bytes: stepped, and written back.
pub fn filter_at(w: &mut [u8], n: u32, forget: bool, bit: bool) -> Filter
    ensures { FilterStep w.old n forget bit result w.new }
{
    match w.as_mut_array::<2>() {
        Some(bytes) => {
            let before = Filter {
                on: bytes[0] == 1,
                run: u32::from(bytes[1]),
            };
            let after = filter::filter_step(before, n, forget, bit);
            *bytes = [u8::from(after.on), (after.run % 256) as u8];
            after
        }
        None => Filter::default(),
    }
}

// A STAT from its four bytes.
pub fn stat_in(w: [u8; 4]) -> Stat
    ensures { result ≡ stat_at w 0 }
{
    let [value, run, known, accepted] = w;
    Stat {
        value,
        run: u32::from(run),
        known: known == 1,
        accepted,
    }
}

// A STAT in its four bytes.
pub fn lay_stat(w: &mut [u8], s: Stat)
    ensures { w.new ≡ stat_laid w.old s }
{
    if let Some(bytes) = w.as_mut_array::<4>() {
        *bytes = [s.value, (s.run % 256) as u8, u8::from(s.known), s.accepted];
    }
}

// The four flags of the second: once raised they stay. All are written either way, so that the work is the same.
pub fn flags_at(w: &mut [u8], near: bool, far: bool, iae: bool, biae: bool)
    ensures { w.new ≡ flags_laid near far iae biae w.old }
{
    if let Some(flags) = w.as_mut_array::<4>() {
        *flags = [
            flags[0] | u8::from(near),
            flags[1] | u8::from(far),
            flags[2] | u8::from(iae),
            flags[3] | u8::from(biae),
        ];
    }
}

// A count of the second, one more.
fn bump(w: &mut [u8], i: u32, more: bool)
    ensures { w.new ≡ counted_by more i w.old }
{
    if more {
        words::count_at(w, i, 400000);
    }
}

// The two counts and the sum of the second: `more` violations at the far end.
pub fn counts_at(w: &mut [u8], near: bool, far: bool, more: u32)
    ensures { w.new ≡ counts_in near far more w.old }
{
    words::add_at(w, 0, more, 3200000);
    bump(w, 1, near);
    bump(w, 2, far);
}

// What a frame adds to them: its violation count, and what its BEI says of the far end. Nothing where counting is stopped.
pub fn frame_at(w: &mut [u8], violations: u8, read: Bei, stops: bool)
    ensures { w.new ≡ counts_in (leb 1 violations && not stops) (is_far read && not stops) (counted_of read stops) w.old }
{
    let far = overhead::is_far(read);
    let more = second::counted(read, stops);
    counts_at(w, (1 <= violations) & !stops, far & !stops, more);
}
