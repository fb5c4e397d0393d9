// Provisioning: what is asked for, the refusals 5 to 10, and what is kept.
#![tactic(auto)]

ghost use Rattle.std.specs.Prelude.{◌≡◌};
ghost use Rattle.answer.specs.Refusal.{said};
ghost use Rattle.settings.specs.Settings.{ceiling_of, thr_good, degm_good, settings_refusal, disabled_of, options_of};

use answer::{Refusal, test};

// What is asked for one layer: DEGThr, DEGM, trace mode, TIMActDis byte.
// Numbers and no enums: `accepted` refuses each number beyond its range, and so takes them all.
#[derive(Clone, Copy)]
pub struct Request {
    pub thr: u32,
    pub degm: u8,
    pub mode: u8,
    pub dis: u8,
}

// What is kept of it, with the expected names.
// `mode` here and `k` below stay numbers: `options_of` keeps any request and cannot fail, theorem `TimIs` speaks of every mode, and N and the ceiling of every k.
#[derive(Clone, Copy)]
pub struct Options {
    pub thr: u32,
    pub degm: u32,
    pub mode: u8,
    pub disabled: bool,
    pub names: [u8; 32],
}

#[derive(Clone, Copy)]
pub struct Settings {
    pub k: u8,
    pub section: Options,
    pub path: Options,
}

// The greatest DEGThr of k.
#[tactic(auto, unfolding(crate::specs::Settings::ceiling_of))]
fn ceiling(k: u8) -> u32
    ensures { result ≡ ceiling_of k }
{
    match k {
        1 => 20420,
        2 => 82025,
        _ => 329492,
    }
}

#[tactic(auto, unfolding(crate::specs::Settings::thr_good))]
fn thr_good(k: u8, thr: u32) -> bool
    ensures { result ≡ thr_good k thr }
{
    (1 <= thr) & (thr <= ceiling(k))
}

#[tactic(auto, unfolding(crate::specs::Settings::degm_good))]
fn degm_good(degm: u8) -> bool
    ensures { result ≡ degm_good degm }
{
    (2 <= degm) & (degm <= 10)
}

// Whether a provisioning is accepted: the tests in the order of their numbers.
#[tactic(auto, unfolding(crate::specs::Settings::settings_refusal))]
pub fn accepted(
    k: u8,
    section: &Request,
    path: &Request,
    snames: &[u8],
    pnames: &[u8],
) -> Result<(), Refusal>
    ensures { said result ≡ settings_refusal k section.now path.now snames.now pnames.now }
{
    test((1 <= k) & (k <= 3), Refusal::UnknownOrder)?;
    test(
        thr_good(k, section.thr) & thr_good(k, path.thr),
        Refusal::DegThreshold,
    )?;
    test(
        degm_good(section.degm) & degm_good(path.degm),
        Refusal::DegMonitoring,
    )?;
    test(
        (section.mode <= 3) & (path.mode <= 3),
        Refusal::UnknownTraceMode,
    )?;
    test(
        (section.dis <= 2) & (path.dis <= 2),
        Refusal::UnknownTimAction,
    )?;
    test(
        (snames.len() == 32) & (pnames.len() == 32),
        Refusal::NameLength,
    )
}

// Whether a TIMActDis byte disables: 0 acts, 1 disabled, 2 default, which is disabled.
fn disabled_of(dis: u8) -> bool
    ensures { result ≡ disabled_of dis }
{
    1 <= dis
}

// What is kept of an accepted request.
pub fn options_of(r: &Request, names: [u8; 32]) -> Options
    ensures { result ≡ options_of r.now names }
{
    Options {
        thr: r.thr,
        degm: u32::from(r.degm),
        mode: r.mode,
        disabled: disabled_of(r.dis),
        names,
    }
}
