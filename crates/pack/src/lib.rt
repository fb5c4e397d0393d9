// A summary in 184 lent bytes: a second's record becomes one, and two are joined there.
#![tactic(auto)]

ghost use Rattle.std.specs.Prelude.{◌≡◌};
ghost use Rattle.codec.specs.Over.{poured};
ghost use Rattle.pack.specs.Pack.{summary_bytes, SummaryCall, JoinCall};

use answer::Refusal;
use summary::Summary;

// The bytes of a summary, as far as out has room.
#[tactic(auto, unfolding(crate::specs::Pack::summary_bytes))]
fn put(s: &Summary, out: &mut [u8])
    ensures { out.new ≡ poured out.old (summary_bytes s.now) }
{
    let bytes = words::bytes_of(summary::numbers_of(s));
    codec::pour(out, &bytes);
}

// The summary of a reported second, from the bytes of its record. A function of its own in the archive, for the stack that C sees.
// The answer is a number, as otn_summary hands it to C.
#[inline(never)]
pub fn summarize(second: &[u8], out: &mut [u8]) -> u64
    ensures { SummaryCall second.now out.old result out.new }
{
    if 88 <= second.len() {
        let f = words::words_in(second, 0);
        let s = summary::second_of(&f);
        let good = summary::valid(&s);
        if good {
            put(&s, out);
            return 0;
        }
        return u64::from(Refusal::NoSummary.number());
    }
    u64::from(Refusal::NoSummary.number())
}

// Two summaries in their bytes joined. The answer is a number, as otn_join hands it to C.
pub fn join_bytes(earlier: &[u8], later: &[u8], out: &mut [u8]) -> u64
    ensures { JoinCall earlier.now later.now out.old result out.new }
{
    if (earlier.len() == 184) & (later.len() == 184) {
        let x = words::numbers_in(earlier);
        let y = words::numbers_in(later);
        let a = summary::summary_by(&x);
        let b = summary::summary_by(&y);
        return match summary::join(&a, &b) {
            Ok(both) => {
                put(&both, out);
                0
            }
            Err(refusal) => u64::from(refusal.number()),
        };
    }
    u64::from(Refusal::NoSummary.number())
}
