// The calls of the line card's C firmware, on numbers and lent bytes: each tests, refuses, and then works part by part in the supervisor's
// bytes, 688 of line, section and path, 1760 of six tandem levels and 204 of the pending second. include/otn.h documents them for C.
#![tactic(auto)]

ghost use Rattle.std.specs.Prelude.{◌≡◌, true, cond, [], ◌∷◌, ◌+◌, ◌≤◌, ◌<◌, eqb, length, take, replicate, Ok, Err, IfOk, OnOk};
ghost use Rattle.answer.specs.Refusal.{number_of, said};
ghost use Rattle.answer.specs.declared.Refusal.TheVariants.{UnsoundSupervisor};
ghost use Rattle.codec.specs.Over.{bytes_in, poured};
ghost use Rattle.words.specs.Words.{flat};
ghost use Rattle.ranges.specs.Sound.{sound};
ghost use Rattle.settings.specs.Settings.{settings_refusal};
ghost use Rattle.supervisor.specs.Supervisor.{frame_of, next_second, layer_at};
ghost use Rattle.image.specs.Image.{load_of, bytes_of};
ghost use Rattle.numbers.specs.Numbers.{head_in};
ghost use Rattle.numbers.specs.Held.{held_in};
ghost use Rattle.word.specs.Report.{report_word};
ghost use Rattle.tandem.specs.Tandem.{fresh_tandem, give_refusal, with_level, frame_refusal, marked_of, ssf_now, level_report, level_traced};
ghost use Rattle.engines.specs.Engines.{framed_by_table};
ghost use Rattle.late.specs.Late.{fresh_late, section_erred, levels_erred, next_report, late_marked};
ghost use Rattle.bays.specs.Image.{tandem_bytes, tandem_from, tandem_sound};
ghost use Rattle.slots.specs.Image.{late_bytes, late_from, late_sound};
ghost use Rattle.pack.specs.Pack.{SummaryCall, JoinCall};
ghost use Rattle.card.specs.Calls.{tandem_of, Provision, provision_by, fresh_by, fresh_refusal, FreshCall, request_by, level_refusal, LevelCall, refusal_by, call_refusal, unfiled, layered_of, reported_of, StepCall, figures_at, erred_in, mark_refusal, MarkCall, pending_refusal, PendingCall, trace_refused, TraceCall, acts_in, told_refusal, told_word, LevelReportCall, level_trace_refused, LevelTraceCall};

use alignment::Multi;
use answer::{Refusal, test};
use causes::{Report, Standing};
use filter::Filter;
use late::Erred;
use layer::Layer;
use numbers::Head;
use second::{Frames, Second};
use settings::{Request, Settings};
use signal::Raised;
use supervisor::Supervisor;

// A frame in line, section and path: what stands after it, the path's maintenance defects by themselves, and the multiframe, which the levels take.
#[derive(Clone, Copy)]
struct Layered {
    standing: Standing,
    raised: Raised,
    multi: Multi,
}

// Its report, and the multiframe.
#[derive(Clone, Copy)]
struct Reported {
    report: Report,
    multi: Multi,
}

// What C reads of a refused call.
fn coded(refusal: Refusal) -> u64
    ensures { result ≡ number_of refusal }
{
    u64::from(refusal.number())
}

// Whether lent bytes are a supervisor's without its pending second: their length, and each number within its range.
fn is_tandem(sup: &[u8]) -> bool
    ensures { result ≡ tandem_sound sup.now }
{
    if sup.len() == 2448 {
        let base = ranges::is_sound(&sup[0..688]);
        let levels = bay::is_bay(&sup[688..2448]);
        return base & levels;
    }
    false
}

// Whether lent bytes are a supervisor's: their length, and each number within its range, the pending second's too.
fn is_late(sup: &[u8]) -> bool
    ensures { result ≡ late_sound sup.now }
{
    if sup.len() == 2652 {
        let tandem = is_tandem(&sup[0..2448]);
        let slot = slot::is_slot(&sup[2448..2652]);
        return tandem & slot;
    }
    false
}

// 17 where lent bytes are no supervisor's.
#[tactic(auto, using(slots::proofs::Trip::late_bytes_lem, slots::proofs::Trip::tandem_sound_lem))]
fn tested(sup: &[u8]) -> Result<(), Refusal>
    ensures refusal { result ≡ cond (late_sound sup.now) (Ok tt) (Err UnsoundSupervisor) }
    ensures sound { OnOk result (late_sound sup.now ≡ true) }
    ensures long { OnOk result (length sup.now ≡ 2652) }
    ensures tandem { OnOk result (tandem_sound (take 2448 sup.now) ≡ true) }
{
    test(is_late(sup), Refusal::UnsoundSupervisor)
}

// The length stands in a clause, as in the calls below but a frame's: both parts go to functions over slices, so an array is taken apart again at once.
// 2448 lent bytes become the image of a supervisor with no level provisioned.
fn store(sup: &mut [u8], s: Supervisor)
    requires { length sup.old ≡ 2448 }
    ensures { sup.new ≡ tandem_bytes (fresh_tandem s) }
{
    image::lay(&mut sup[0..688], s);
    bay::lay_bay(&mut sup[688..2448]);
}

// 2652 lent bytes become the image of a supervisor with no level provisioned and no second pending.
fn store_late(sup: &mut [u8], s: Supervisor)
    requires { length sup.old ≡ 2652 }
    ensures { sup.new ≡ late_bytes (fresh_late (fresh_tandem s)) }
{
    store(&mut sup[0..2448], s);
    codec::pour(&mut sup[2448..2652], &[0u8; 204]);
}

// Whether a provisioning is accepted: 17, then 5 to 10.
#[tactic(auto, unfolding(crate::specs::Calls::fresh_refusal, settings::specs::Settings::settings_refusal))]
fn fresh_accepted(
    sup: &[u8],
    k: u8,
    section: &Request,
    path: &Request,
    snames: &[u8],
    pnames: &[u8],
) -> Result<(), Refusal>
    ensures refusal { said result ≡ fresh_refusal sup.now (record { k = k; section = section.now; path = path.now; snames = snames.now; pnames = pnames.now }) }
    ensures settled { OnOk result (settings_refusal k section.now path.now snames.now pnames.now ≡ 0) }
    ensures long { OnOk result (length sup.now ≡ 2652) }
{
    test(sup.len() == 2652, Refusal::UnsoundSupervisor)?;
    settings::accepted(k, section, path, snames, pnames)?;
    Ok(())
}

// The supervisor of an accepted provisioning. Made of its settings here and not by `Supervisor::provision`: a Result that holds a supervisor would lie on the stack
// that C sees.
fn fresh(k: u8, section: &Request, path: &Request, snames: &[u8], pnames: &[u8]) -> Supervisor
    requires { settings_refusal k section.now path.now snames.now pnames.now ≡ 0 }
    ensures { result ≡ fresh_by (record { k = k; section = section.now; path = path.now; snames = snames.now; pnames = pnames.now }) }
{
    Supervisor {
        settings: Settings {
            k,
            section: settings::options_of(section, codec::array_in(snames, 0)),
            path: settings::options_of(path, codec::array_in(pnames, 0)),
        },
        ..supervisor::blank()
    }
}

// A fresh supervisor under a provisioning.
#[unsafe(no_mangle)]
pub extern "C" fn otn_fresh(
    sup: &mut [u8],
    k: u8,
    smthr: u32,
    smdegm: u8,
    pmthr: u32,
    pmdegm: u8,
    smmode: u8,
    pmmode: u8,
    smdis: u8,
    pmdis: u8,
    smnames: &[u8],
    pmnames: &[u8],
) -> u64
    ensures { FreshCall sup.old (provision_by k smthr smdegm pmthr pmdegm smmode pmmode smdis pmdis smnames.now pmnames.now) result sup.new }
{
    let section = Request {
        thr: smthr,
        degm: smdegm,
        mode: smmode,
        dis: smdis,
    };
    let path = Request {
        thr: pmthr,
        degm: pmdegm,
        mode: pmmode,
        dis: pmdis,
    };
    match fresh_accepted(sup, k, &section, &path, smnames, pmnames) {
        Ok(()) => {
            let s = fresh(k, &section, &path, smnames, pmnames);
            store_late(sup, s);
            0
        }
        Err(refusal) => coded(refusal),
    }
}

// Whether a level is provisioned so in sound bytes: 6 to 10, then 16 and 18.
#[tactic(auto, using(crate::proofs::Halves::give_by, tandem::proofs::Refusals::names_held))]
fn level_accepted(sup: &[u8], n: u8, r: &Request, names: &[u8]) -> Result<(), Refusal>
    requires sup_len { length sup.now ≡ 2448 }
    requires sup_value { tandem_sound sup.now ≡ true }
    ensures refusal { said result ≡ give_refusal (tandem_from sup.now) n r.now names.now }
    ensures names { OnOk result (length names.now ≡ 32) }
{
    let head = numbers::head_in(codec::array_in(&sup[0..688], 0));
    let c: [u32; 12] = words::words_in(&sup[0..688], 64);
    let given = bay::given_at(&sup[688..2448], n);
    settings::accepted(head.k, r, r, names, names)?;
    let begun = (0 < head.seconds) | (0 < c[0]);
    test(!begun, Refusal::OutOfTurn)?;
    test((1 <= n) & (n <= 6) & !given, Refusal::UnknownLevel)
}

// Whether a level is provisioned so: 17 before the rest.
#[tactic(auto, unfolding(crate::specs::Calls::level_refusal, tandem::specs::Tandem::give_refusal, slots::specs::Image::late_from))]
fn level_taken(sup: &[u8], n: u8, r: &Request, names: &[u8]) -> Result<(), Refusal>
    ensures refusal { said result ≡ level_refusal sup.now n r.now names.now }
    ensures sound { OnOk result (late_sound sup.now ≡ true) }
    ensures long { OnOk result (length sup.now ≡ 2652) }
    ensures tandem { OnOk result (tandem_sound (take 2448 sup.now) ≡ true) }
    ensures names { OnOk result (length names.now ≡ 32) }
{
    tested(sup)?;
    level_accepted(&sup[0..2448], n, r, names)
}

// Level n provisioned in sound bytes.
fn level_in(sup: &mut [u8], n: u8, r: &Request, names: &[u8])
    requires sup_len { length sup.old ≡ 2448 }
    requires sup_value { tandem_sound sup.old ≡ true }
    requires names_len { length names.now ≡ 32 }
    ensures { sup.new ≡ tandem_bytes (with_level (tandem_from sup.old) n r.now names.now) }
{
    let options = settings::options_of(r, codec::array_in(names, 0));
    bay::give_at(&mut sup[688..2448], n, &options);
}

// A tandem level under a provisioning.
#[unsafe(no_mangle)]
pub extern "C" fn otn_level(
    sup: &mut [u8],
    level: u8,
    thr: u32,
    degm: u8,
    mode: u8,
    dis: u8,
    names: &[u8],
) -> u64
    ensures { LevelCall sup.old level (request_by thr degm mode dis) names.now result sup.new }
{
    let request = Request {
        thr,
        degm,
        mode,
        dis,
    };
    match level_taken(sup, level, &request, names) {
        Ok(()) => {
            level_in(&mut sup[0..2448], level, &request, names);
            0
        }
        Err(refusal) => coded(refusal),
    }
}

// Whether a frame is accepted: 17 before the rest.
#[tactic(auto, using(crate::proofs::Calls::frames_are), unfolding(crate::specs::Calls::call_refusal, tandem::specs::Tandem::refusal_by))]
fn step_taken(
    sup: &[u8],
    overhead: &[u8],
    flags: u8,
    sm: u8,
    pm: u8,
    counts: &[u8; 6],
) -> Result<(), Refusal>
    ensures refusal { said result ≡ call_refusal sup.now overhead.now flags sm pm counts.now }
    ensures sound { OnOk result (late_sound sup.now ≡ true) }
    ensures long { OnOk result (length sup.now ≡ 2652) }
    ensures tandem { OnOk result (tandem_sound (take 2448 sup.now) ≡ true) }
    ensures overhead { OnOk result (length overhead.now ≡ 64) }
{
    tested(sup)?;
    let c: [u32; 12] = words::words_in(&sup[0..688], 64);
    tandem::frame_accepted(c[0], overhead, flags, sm, pm, counts)
}

// Overhead, flags and counts travel together and are no struct: each clause would read them two steps deep, `f.now.overhead.now`.
// The layers of sound bytes after an accepted frame, in order: alignment, then the section, then the path. What stands then.
fn layers_in(sup: &mut [u8; 688], overhead: &[u8; 64], flags: u8, sm: u8, pm: u8) -> Layered
    requires { sound sup.old ≡ true }
    ensures { (result ≡ layered_of (load_of sup.old) overhead.now flags sm pm) × (sup.new ≡ unfiled (load_of sup.old) (frame_of (load_of sup.old) overhead.now flags sm pm)) }
{
    let o = overhead::overhead_of(overhead);
    let sf = o.section;
    let pf = o.path;
    let a = place::line_at(&mut sup[0..64], o.four, o.three, o.mfas, flags);
    let line = a.line;
    let multi = a.multi;
    let ssf = causes::ssf_of(line);
    let section = place::section_at(&mut sup[112..400], ssf, multi, sf, sm);
    let acts = causes::tim_acts(section.tim, section.disabled);
    let p = place::path_at(&mut sup[400..688], ssf | acts, multi, pf, pm);
    let path = p.stands;
    let raised = p.raised;
    Layered {
        standing: Standing {
            line,
            section,
            path,
        },
        raised,
        multi,
    }
}

// An accepted frame in sound bytes of line, section and path: their layers, its report by the table, and the frame is filed under its head.
fn step_in(sup: &mut [u8; 688], overhead: &[u8; 64], flags: u8, sm: u8, pm: u8) -> Reported
    requires { sound sup.old ≡ true }
    ensures { (result ≡ reported_of (load_of sup.old) overhead.now flags sm pm) × (sup.new ≡ bytes_of (frame_of (load_of sup.old) overhead.now flags sm pm)) }
{
    let a = layers_in(sup, overhead, flags, sm, pm);
    let standing = a.standing;
    let raised = a.raised;
    let multi = a.multi;
    let report = lookup::report_by_table(raised, standing, sm, pm);
    place::tally_at(&mut sup[64..112], report.head);
    Reported { report, multi }
}

// An accepted frame in sound bytes: line, section and path, then the levels by the path's SSF.
fn frame_in(
    sup: &mut [u8; 2448],
    overhead: &[u8; 64],
    flags: u8,
    sm: u8,
    pm: u8,
    counts: &[u8; 6],
) -> u64
    requires sup_value { tandem_sound sup.old ≡ true }
    requires counts_value { frame_refusal (tandem_from sup.old) overhead.now flags sm pm counts.now ≡ 0 }
    ensures { (result ≡ report_word (framed_by_table (tandem_from sup.old) overhead.now flags sm pm counts.now).report) × (sup.new ≡ tandem_bytes (framed_by_table (tandem_from sup.old) overhead.now flags sm pm counts.now).tandem) }
{
    let (base, levels) = sup.split_first_chunk_mut::<688>().unwrap();
    let a = step_in(base, overhead, flags, sm, pm);
    let report = a.report;
    let multi = a.multi;
    bay::frame_at(levels, flags, report.path.ssf, multi, overhead, *counts);
    word::report_word(report)
}

// One frame, with the violation counts of levels 1 to 6.
fn step_with(sup: &mut [u8], overhead: &[u8], flags: u8, sm: u8, pm: u8, counts: &[u8; 6]) -> u64
    ensures { StepCall sup.old overhead.now flags sm pm counts.now result sup.new }
{
    match step_taken(sup, overhead, flags, sm, pm, counts) {
        Ok(()) => {
            let tandem = sup.first_chunk_mut::<2448>().unwrap();
            let overhead = overhead.first_chunk::<64>().unwrap();
            frame_in(tandem, overhead, flags, sm, pm, counts)
        }
        Err(refusal) => coded(refusal),
    }
}

// One frame in which no level has a violation.
#[unsafe(no_mangle)]
pub extern "C" fn otn_step(sup: &mut [u8], overhead: &[u8], flags: u8, sm: u8, pm: u8) -> u64
    ensures { StepCall sup.old overhead.now flags sm pm (replicate 6 0) result sup.new }
{
    step_with(sup, overhead, flags, sm, pm, &[0; 6])
}

// One frame; `t1` to `t6` are the violation counts of levels 1 to 6.
#[unsafe(no_mangle)]
pub extern "C" fn otn_step_levels(
    sup: &mut [u8],
    overhead: &[u8],
    flags: u8,
    sm: u8,
    pm: u8,
    t1: u8,
    t2: u8,
    t3: u8,
    t4: u8,
    t5: u8,
    t6: u8,
) -> u64
    ensures { StepCall sup.old overhead.now flags sm pm (t1 ∷ t2 ∷ t3 ∷ t4 ∷ t5 ∷ t6 ∷ []) result sup.new }
{
    step_with(sup, overhead, flags, sm, pm, &[t1, t2, t3, t4, t5, t6])
}

// An accepted mark in sound bytes of line, section and path: each layer closed, and the next second opened under its number; the figures of the closed one.
fn mark_in(sup: &mut [u8], k: u8, number: u32) -> [u32; 22]
    requires sup_len { length sup.old ≡ 688 }
    requires sup_value { sound sup.old ≡ true }
    requires k_value { k ≡ (load_of sup.old).settings.k }
    requires number_value { number ≡ (load_of sup.old).seconds + 1 }
    ensures { (result ≡ figures_at (load_of sup.old)) × (sup.new ≡ bytes_of (next_second (load_of sup.old))) }
{
    let c: [u32; 12] = words::words_in(sup, 64);
    let section = place::close_at(&mut sup[112..400]);
    let path = place::close_at(&mut sup[400..688]);
    let head = Head { k, seconds: number };
    place::open_at(&mut sup[0..112], head);
    let done = Second {
        frames: Frames(c[0]),
        heads: [c[1], c[2], c[3], c[4], c[5], c[6], c[7], c[8], c[9], c[10]],
        section,
        path,
        iae: false,
        biae: false,
    };
    second::figures(number, done)
}

// An accepted mark in sound bytes: line, section and path, then each level; the record of the closed second.
fn close_in(sup: &mut [u8], k: u8, number: u32) -> [u8; 208]
    requires sup_len { length sup.old ≡ 2448 }
    requires sup_value { tandem_sound sup.old ≡ true }
    requires k_value { k ≡ (tandem_from sup.old).base.settings.k }
    requires number_value { number ≡ (tandem_from sup.old).base.seconds + 1 }
    requires number_bound { number ≤ 4294967295 }
    ensures { (result ≡ flat (marked_of (tandem_from sup.old)).figures) × (sup.new ≡ tandem_bytes (marked_of (tandem_from sup.old)).tandem) }
{
    let base = mark_in(&mut sup[0..688], k, number);
    let levels = bay::mark_at(&mut sup[688..2448]);
    words::record_of(&base, &levels)
}

// pIAE and pBIAE of the open second by a layer's record.
fn erred_in(r: &[u8]) -> Erred
    requires { length r.now ≡ 288 }
    ensures { result ≡ erred_in (held_in r.now) }
{
    let state = numbers::state_in(codec::array_in(r, 32));
    Erred {
        iae: state.iaeseen,
        biae: state.biaeseen,
    }
}

// pIAE and pBIAE of the section's open second.
fn section_erred(sup: &[u8]) -> Erred
    requires { length sup.now ≡ 2448 }
    ensures { result ≡ section_erred (tandem_from sup.now) }
{
    erred_in(&sup[112..400])
}

// Those of levels 1 to 6.
fn levels_erred(sup: &[u8]) -> [Erred; 6]
    requires { length sup.now ≡ 2448 }
    ensures { result ≡ levels_erred (tandem_from sup.now) }
{
    let mut erred = [Erred::default(); 6];
    for (i, level) in erred.iter_mut().enumerate() {
        *level = erred_in(&sup[720 + 288 * i..1008 + 288 * i]);
    }
    erred
}

// The record that the next mark reports, under its number: the pending second, discarded by the open one too.
fn report_in(sup: &[u8], number: u32) -> [u8; 208]
    requires sup_len { length sup.now ≡ 2652 }
    requires number_value { number ≡ (late_from sup.now).tandem.base.seconds }
    ensures { result ≡ flat (next_report (late_from sup.now)) }
{
    let mut told: [u32; 51] = words::words_in(sup, 2448);
    let section = section_erred(&sup[0..2448]);
    let levels = levels_erred(&sup[0..2448]);
    late::void(&mut told, section, &levels);
    words::numbered_record(number, &told)
}

// That record, into what is lent for it. A function of its own in the archive, for the stack that C sees.
#[inline(never)]
fn report_out(sup: &[u8], number: u32, out: &mut [u8])
    requires sup_len { length sup.now ≡ 2652 }
    requires number_value { number ≡ (late_from sup.now).tandem.base.seconds }
    ensures { out.new ≡ poured out.old (flat (next_report (late_from sup.now))) }
{
    let bytes = report_in(sup, number);
    codec::pour(out, &bytes);
}

// An accepted mark in sound bytes: the second is closed, and is the pending one from then on. A function of its own in the archive, for the stack that C sees.
#[inline(never)]
fn mark_late(sup: &mut [u8], k: u8, number: u32)
    requires sup_len { length sup.old ≡ 2652 }
    requires sup_value { late_sound sup.old ≡ true }
    requires k_value { k ≡ (late_from sup.old).tandem.base.settings.k }
    requires number_value { number ≡ (late_from sup.old).tandem.base.seconds + 1 }
    requires number_bound { number ≤ 4294967295 }
    ensures { sup.new ≡ late_bytes (late_marked (late_from sup.old)).late }
{
    let bytes = close_in(&mut sup[0..2448], k, number);
    codec::pour(&mut sup[2448..2652], &bytes[4..208]);
}

// Whether a mark is accepted: 17, then 4; the head of the bytes.
#[tactic(auto, using(crate::proofs::Calls::seconds_by), unfolding(crate::specs::Calls::mark_refusal))]
fn mark_taken(sup: &[u8]) -> Result<Head, Refusal>
    ensures refusal { said result ≡ mark_refusal sup.now }
    ensures head { IfOk result (λ h. h ≡ head_in (bytes_in 32 0 (take 688 sup.now))) }
    ensures room { IfOk result (λ h. h.seconds < 4294967295) }
    ensures sound { OnOk result (late_sound sup.now ≡ true) }
    ensures long { OnOk result (length sup.now ≡ 2652) }
{
    tested(sup)?;
    let head = numbers::head_in(codec::array_in(&sup[0..688], 0));
    test(head.seconds < 4294967295, Refusal::Full)?;
    Ok(head)
}

// A mark: the pending second, if there is one, goes into the record, and the one just closed is pending.
#[unsafe(no_mangle)]
pub extern "C" fn otn_mark(sup: &mut [u8], out: &mut [u8]) -> u64
    ensures { MarkCall sup.old out.old result sup.new out.new }
{
    match mark_taken(sup) {
        Ok(head) => {
            if head.seconds == 0 {
                mark_late(sup, head.k, head.seconds + 1);
                return 0;
            }
            report_out(sup, head.seconds, out);
            mark_late(sup, head.k, head.seconds + 1);
            256
        }
        Err(refusal) => coded(refusal),
    }
}

// The head of a supervisor's bytes: 17.
#[tactic(auto, unfolding(crate::specs::Calls::pending_refusal))]
fn pending_taken(sup: &[u8]) -> Result<Head, Refusal>
    ensures refusal { said result ≡ pending_refusal sup.now }
    ensures head { IfOk result (λ h. h ≡ head_in (bytes_in 32 0 (take 688 sup.now))) }
    ensures sound { OnOk result (late_sound sup.now ≡ true) }
{
    tested(sup)?;
    Ok(numbers::head_in(codec::array_in(&sup[0..688], 0)))
}

// The pending second, if there is one, goes into the record as if it were reported now.
#[unsafe(no_mangle)]
pub extern "C" fn otn_pending(sup: &[u8], out: &mut [u8]) -> u64
    ensures { PendingCall sup.now out.old result out.new }
{
    match pending_taken(sup) {
        Ok(head) => {
            if head.seconds == 0 {
                return 0;
            }
            let pending: [u32; 51] = words::words_in(sup, 2448);
            let bytes = words::numbered_record(head.seconds, &pending);
            codec::pour(out, &bytes);
            256
        }
        Err(refusal) => coded(refusal),
    }
}

// Where a layer's record begins: 0 section, otherwise path.
fn record_at(layer: u8) -> u32
    ensures { (result ≡ cond (eqb layer 0) 112 400) × (result ≤ 400) }
{
    if layer == 0 { 112 } else { 400 }
}

// The accepted trace of a layer, where there is room for it: 17, then 11 to 13.
#[tactic(auto, using(crate::proofs::Calls::trace_known, crate::proofs::Calls::trace_here), unfolding(crate::specs::Calls::trace_refused))]
fn traced(sup: &[u8], layer: u8, out: &[u8]) -> Result<[u8; 64], Refusal>
    ensures refusal { said result ≡ trace_refused sup.now layer out.now }
    ensures trace { IfOk result (λ t. t ≡ (layer_at (tandem_of sup.now).base layer).accepted) }
    ensures room { OnOk result (length out.now ≡ 64) }
{
    tested(sup)?;
    test(layer <= 1, Refusal::UnknownLayer)?;
    test(out.len() == 64, Refusal::TraceBuffer)?;
    let at = record_at(layer);
    let state = numbers::state_in(codec::array_in(sup, at + 32));
    if state.known {
        return Ok(codec::array_in(sup, at + 64));
    }
    Err(Refusal::NoTrace)
}

// The accepted trace of a layer.
#[unsafe(no_mangle)]
pub extern "C" fn otn_trace(sup: &[u8], layer: u8, out: &mut [u8]) -> u64
    ensures { TraceCall sup.now layer out.old result out.new }
{
    match traced(sup, layer, out) {
        Ok(trace) => {
            codec::pour(out, &trace);
            0
        }
        Err(refusal) => coded(refusal),
    }
}

// Whether TIM acts by a layer's record. The cycle being gathered, the one before it and the filters have no part in it.
fn acts_in(r: &[u8]) -> bool
    ensures { result ≡ acts_in (held_in r.now) }
{
    let front = numbers::front_in(codec::array_in(r, 0));
    let state = numbers::state_in(codec::array_in(r, 32));
    let accepted = codec::array_in(r, 64);
    let names = codec::array_in(r, 256);
    let layer = Layer {
        accepted,
        gathered: [0; 64],
        previous: [0; 64],
        known: state.known,
        gathering: false,
        equal: 0,
        bdi: Filter { on: false, run: 0 },
        deg: Filter { on: false, run: 0 },
    };
    let tim = layer.tim(front.mode, &names);
    causes::tim_acts(tim, front.disabled)
}

// The path's SSF as it stands in the bytes of line, section and path, by the flags of the last frame.
fn ssf_in(sup: &[u8], flags: u8) -> bool
    requires { length sup.now ≡ 688 }
    ensures { result ≡ ssf_now (load_of sup.now) flags }
{
    let head = numbers::head_in(codec::array_in(sup, 0));
    let align = numbers::align_in(codec::array_in(sup, 32));
    let n = alignment::frames_of(head.k);
    let line = frame::line_of(align, n, flags);
    let ssf = causes::ssf_of(line);
    let acts = acts_in(&sup[112..400]);
    ssf | acts
}

// What is told of level n in sound bytes.
fn told_in(sup: &[u8], n: u8) -> u64
    requires sup_len { length sup.now ≡ 2448 }
    requires sup_value { tandem_sound sup.now ≡ true }
    ensures { result ≡ told_word (level_report (tandem_from sup.now) n) }
{
    let ssf = ssf_in(&sup[0..688], sup[688]);
    let given = bay::given_at(&sup[688..2448], n);
    let stands = bay::stands_at(&sup[688..2448], n, ssf);
    let actions = level::level_actions(stands);
    let causes = level::level_causes(stands);
    word::level_word(given, stands, actions, causes)
}

// Whether a level is told: 17, then 18.
#[tactic(auto, unfolding(crate::specs::Calls::told_refusal))]
fn told_taken(sup: &[u8], level: u8) -> Result<(), Refusal>
    ensures refusal { said result ≡ told_refusal sup.now level }
    ensures long { OnOk result (length sup.now ≡ 2652) }
    ensures tandem { OnOk result (tandem_sound (take 2448 sup.now) ≡ true) }
{
    tested(sup)?;
    test((1 <= level) & (level <= 6), Refusal::UnknownLevel)
}

// What stands of a tandem level after the last frame and mark.
#[unsafe(no_mangle)]
pub extern "C" fn otn_level_report(sup: &[u8], level: u8) -> u64
    ensures { LevelReportCall sup.now level result }
{
    match told_taken(sup, level) {
        Ok(()) => told_in(&sup[0..2448], level),
        Err(refusal) => coded(refusal),
    }
}

// The accepted trace of a tandem level, where there is room for it: 17, then 12 and 13.
#[tactic(auto, using(crate::proofs::Calls::level_trace_is, crate::proofs::Calls::level_trace_known), unfolding(crate::specs::Calls::level_trace_refused))]
fn level_traced(sup: &[u8], level: u8, out: &[u8]) -> Result<[u8; 64], Refusal>
    ensures refusal { said result ≡ level_trace_refused sup.now level out.now }
    ensures trace { IfOk result (λ t. t ≡ (level_traced (tandem_of sup.now) level).trace) }
    ensures room { OnOk result (length out.now ≡ 64) }
{
    tested(sup)?;
    test(out.len() == 64, Refusal::TraceBuffer)?;
    bay::trace_at(&sup[688..2448], level)
}

// The accepted trace of a tandem level.
#[unsafe(no_mangle)]
pub extern "C" fn otn_level_trace(sup: &[u8], level: u8, out: &mut [u8]) -> u64
    ensures { LevelTraceCall sup.now level out.old result out.new }
{
    match level_traced(sup, level, out) {
        Ok(trace) => {
            codec::pour(out, &trace);
            0
        }
        Err(refusal) => coded(refusal),
    }
}

// The summary of a reported second, from its record.
#[unsafe(no_mangle)]
pub extern "C" fn otn_summary(second: &[u8], out: &mut [u8]) -> u64
    ensures { SummaryCall second.now out.old result out.new }
{
    pack::summarize(second, out)
}

// Two summaries joined.
#[unsafe(no_mangle)]
pub extern "C" fn otn_join(earlier: &[u8], later: &[u8], out: &mut [u8]) -> u64
    ensures { JoinCall earlier.now later.now out.old result out.new }
{
    pack::join_bytes(earlier, later, out)
}
