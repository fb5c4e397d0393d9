// The functions of `card` that C calls, under their C names: each calls the one proved there, and has its clauses.
#![tactic(auto)]

ghost use Rattle.std.specs.Prelude.{[], ◌∷◌, replicate};
ghost use Rattle.pack.specs.Pack.{SummaryCall, JoinCall};
ghost use Rattle.card.specs.Calls.{provision_by, FreshCall, request_by, LevelCall, StepCall, MarkCall, PendingCall, TraceCall, LevelReportCall, LevelTraceCall};

// A fresh supervisor under a provisioning.
#[unsafe(no_mangle)]
pub extern "C" fn otn_fresh(
    sup: &mut [u8],
    k: u8,
    smthr: u32,
    smdegm: u8,
    pmthr: u32,
    pmdegm: u8,
    smmode: u8,
    pmmode: u8,
    smdis: u8,
    pmdis: u8,
    smnames: &[u8],
    pmnames: &[u8],
) -> u64
    ensures { FreshCall sup.old (provision_by k smthr smdegm pmthr pmdegm smmode pmmode smdis pmdis smnames.now pmnames.now) result sup.new }
{
    card::otn_fresh(
        sup, k, smthr, smdegm, pmthr, pmdegm, smmode, pmmode, smdis, pmdis, smnames, pmnames,
    )
}

// A tandem level under a provisioning.
#[unsafe(no_mangle)]
pub extern "C" fn otn_level(
    sup: &mut [u8],
    level: u8,
    thr: u32,
    degm: u8,
    mode: u8,
    dis: u8,
    names: &[u8],
) -> u64
    ensures { LevelCall sup.old level (request_by thr degm mode dis) names.now result sup.new }
{
    card::otn_level(sup, level, thr, degm, mode, dis, names)
}

// One frame in which no level has a violation.
#[unsafe(no_mangle)]
pub extern "C" fn otn_step(sup: &mut [u8], overhead: &[u8], flags: u8, sm: u8, pm: u8) -> u64
    ensures { StepCall sup.old overhead.now flags sm pm (replicate 6 0) result sup.new }
{
    card::otn_step(sup, overhead, flags, sm, pm)
}

// One frame; `t1` to `t6` are the violation counts of levels 1 to 6.
#[unsafe(no_mangle)]
pub extern "C" fn otn_step_levels(
    sup: &mut [u8],
    overhead: &[u8],
    flags: u8,
    sm: u8,
    pm: u8,
    t1: u8,
    t2: u8,
    t3: u8,
    t4: u8,
    t5: u8,
    t6: u8,
) -> u64
    ensures { StepCall sup.old overhead.now flags sm pm (t1 ∷ t2 ∷ t3 ∷ t4 ∷ t5 ∷ t6 ∷ []) result sup.new }
{
    card::otn_step_levels(sup, overhead, flags, sm, pm, t1, t2, t3, t4, t5, t6)
}

// A mark: the pending second, if there is one, goes into the record, and the one just closed is pending.
#[unsafe(no_mangle)]
pub extern "C" fn otn_mark(sup: &mut [u8], out: &mut [u8]) -> u64
    ensures { MarkCall sup.old out.old result sup.new out.new }
{
    card::otn_mark(sup, out)
}

// The pending second, if there is one, goes into the record as if it were reported now.
#[unsafe(no_mangle)]
pub extern "C" fn otn_pending(sup: &[u8], out: &mut [u8]) -> u64
    ensures { PendingCall sup.now out.old result out.new }
{
    card::otn_pending(sup, out)
}

// The accepted trace of a layer.
#[unsafe(no_mangle)]
pub extern "C" fn otn_trace(sup: &[u8], layer: u8, out: &mut [u8]) -> u64
    ensures { TraceCall sup.now layer out.old result out.new }
{
    card::otn_trace(sup, layer, out)
}

// What stands of a tandem level after the last frame and mark.
#[unsafe(no_mangle)]
pub extern "C" fn otn_level_report(sup: &[u8], level: u8) -> u64
    ensures { LevelReportCall sup.now level result }
{
    card::otn_level_report(sup, level)
}

// The accepted trace of a tandem level.
#[unsafe(no_mangle)]
pub extern "C" fn otn_level_trace(sup: &[u8], level: u8, out: &mut [u8]) -> u64
    ensures { LevelTraceCall sup.now level out.old result out.new }
{
    card::otn_level_trace(sup, level, out)
}

// The summary of a reported second, from its record.
#[unsafe(no_mangle)]
pub extern "C" fn otn_summary(second: &[u8], out: &mut [u8]) -> u64
    ensures { SummaryCall second.now out.old result out.new }
{
    card::otn_summary(second, out)
}

// Two summaries joined.
#[unsafe(no_mangle)]
pub extern "C" fn otn_join(earlier: &[u8], later: &[u8], out: &mut [u8]) -> u64
    ensures { JoinCall earlier.now later.now out.old result out.new }
{
    card::otn_join(earlier, later, out)
}
