// Counters that stop at their bound, the filter of n and n, and three in a row.
#![tactic(auto)]

ghost use Rattle.std.specs.Prelude.{◌≡◌, false};
ghost use Rattle.filter.specs.Filter.{up_of, add_of, filter_of};
ghost use Rattle.filter.specs.Stat.{stat_of};

// A filter of n and n: `run` counts the bits in a row, the last among them, that are not `on`.
#[derive(Clone, Copy, Default)]
pub struct Filter {
    pub on: bool,
    pub run: u32,
}

// Three in a row: the last value and how often in a row it was met; whether a value is accepted, and which.
// `known` stands beside `accepted` and is no Option: by theorem `round_trip` each state that was read from bytes has the same bytes again.
#[derive(Clone, Copy, Default)]
pub struct Stat {
    pub value: u8,
    pub run: u32,
    pub known: bool,
    pub accepted: u8,
}

// One more, and n at most.
#[tactic(auto, unfolding(crate::specs::Filter::up_of))]
pub fn up(run: u32, n: u32) -> u32
    ensures { result ≡ up_of run n }
{
    if run < n { run + 1 } else { n }
}

// So many more, and most at most.
#[tactic(auto, unfolding(crate::specs::Filter::add_of))]
pub fn add(run: u32, more: u32, most: u32) -> u32
    ensures { result ≡ add_of run more most }
{
    run.saturating_add(more).min(most)
}

// The filter after one more bit, where nothing is forgotten.
#[tactic(auto, unfolding(crate::specs::Filter::filter_of))]
fn filter_met(f: Filter, n: u32, bit: bool) -> Filter
    ensures { result ≡ filter_of f n false bit }
{
    if bit == f.on {
        return Filter { run: 0, ..f };
    }
    let run = up(f.run, n);
    if run == n {
        Filter { on: bit, run: 0 }
    } else {
        Filter { run, ..f }
    }
}

// The filter after one more bit; forgotten where `forget`, and its work done all the same.
#[tactic(auto, unfolding(crate::specs::Filter::filter_of))]
pub fn filter_step(f: Filter, n: u32, forget: bool, bit: bool) -> Filter
    ensures { result ≡ filter_of f n forget bit }
{
    let met = filter_met(f, n, bit);
    if forget { Filter::default() } else { met }
}

// The value after one more frame; forgotten where `forget`.
#[tactic(auto, unfolding(crate::specs::Stat::stat_of, crate::specs::Stat::in_row))]
pub fn stat_step(s: Stat, forget: bool, value: u8) -> Stat
    ensures { result ≡ stat_of s forget value }
{
    if forget {
        return Stat::default();
    }
    let run = if value == s.value { up(s.run, 3) } else { 1 };
    let third = run == 3;
    Stat {
        value,
        run,
        known: third | s.known,
        accepted: if third { value } else { s.accepted },
    }
}
