// What stands after a frame, and the actions, causes and head that follow from it.
#![tactic(auto)]

ghost use Rattle.std.specs.Prelude.{◌≡◌, cond};
ghost use Rattle.causes.specs.Causes.{ssf_of, tim_acts, line_causes, section_actions, section_causes, path_ssf, path_down, path_actions, causes_by, path_causes, head_of, report_with, report_of, nothing_stands, no_report};

use signal::Signal;

// The line: alignment states, the flags TSF-P and OTUk-AIS, dLOF and dLOM.
#[derive(Clone, Copy, Default)]
pub struct Line {
    pub inframe: bool,
    pub inmulti: bool,
    pub tsf: bool,
    pub ais: bool,
    pub lof: bool,
    pub lom: bool,
}

// The section's defects, and whether TIMActDis keeps dTIM from acting.
#[derive(Clone, Copy, Default)]
pub struct SectionStands {
    pub tim: bool,
    pub disabled: bool,
    pub bdi: bool,
    pub iae: bool,
    pub biae: bool,
    pub deg: bool,
}

// The path's defects: the signal is dAIS, dOCI, dLCK or none.
#[derive(Clone, Copy, Default)]
pub struct PathStands {
    pub signal: Signal,
    pub tim: bool,
    pub disabled: bool,
    pub bdi: bool,
    pub deg: bool,
}

#[derive(Clone, Copy, Default)]
pub struct Standing {
    pub line: Line,
    pub section: SectionStands,
    pub path: PathStands,
}

// aTSF, aTSD, aBDI, aBIAE and aBEI of the section, with its SSF.
#[derive(Clone, Copy)]
pub struct SectionActions {
    pub ssf: bool,
    pub tsf: bool,
    pub tsd: bool,
    pub bdi: bool,
    pub biae: bool,
    pub bei: u8,
}

// aTSF, aTSD, aBDI and aBEI of the path, with its SSF.
#[derive(Clone, Copy)]
pub struct PathActions {
    pub ssf: bool,
    pub tsf: bool,
    pub tsd: bool,
    pub bdi: bool,
    pub bei: u8,
}

// cLOF and cLOM.
#[derive(Clone, Copy)]
pub struct LineCauses {
    pub lof: bool,
    pub lom: bool,
}

// cTIM, cDEG, cBDI and cSSF of the section.
#[derive(Clone, Copy)]
pub struct SectionCauses {
    pub tim: bool,
    pub deg: bool,
    pub bdi: bool,
    pub ssf: bool,
}

// cOCI, cLCK, cTIM, cDEG, cBDI and cSSF of the path.
#[derive(Clone, Copy)]
pub struct PathCauses {
    pub oci: bool,
    pub lck: bool,
    pub tim: bool,
    pub deg: bool,
    pub bdi: bool,
    pub ssf: bool,
}

// The causes of line, section and path.
#[derive(Clone, Copy)]
pub struct Causes {
    pub line: LineCauses,
    pub section: SectionCauses,
    pub path: PathCauses,
}

// All that stands after a frame, its actions, its causes and its head.
#[derive(Clone, Copy)]
pub struct Report {
    pub standing: Standing,
    pub section: SectionActions,
    pub path: PathActions,
    pub causes: Causes,
    // A number, 0 to 9: history's `Says` counts the frames by it, and C shows it.
    pub head: u8,
}

// Section SSF.
#[tactic(auto, unfolding(crate::specs::Causes::ssf_of))]
pub fn ssf_of(l: Line) -> bool
    ensures { result ≡ ssf_of l }
{
    l.tsf | l.ais | l.lof | l.lom
}

// TIM acts.
#[tactic(auto, unfolding(crate::specs::Causes::tim_acts))]
pub fn tim_acts(tim: bool, disabled: bool) -> bool
    ensures { result ≡ tim_acts tim disabled }
{
    tim & !disabled
}

fn line_causes(l: Line) -> LineCauses
    ensures { result ≡ line_causes l }
{
    LineCauses {
        lof: l.lof & !(l.tsf | l.ais),
        lom: l.lom & !(l.tsf | l.ais | l.lof),
    }
}

fn section_actions(ssf: bool, d: SectionStands, violations: u8) -> SectionActions
    ensures { result ≡ section_actions ssf d violations }
{
    let acts = tim_acts(d.tim, d.disabled);
    SectionActions {
        ssf,
        tsf: ssf | acts,
        tsd: d.deg,
        bdi: ssf | d.tim,
        biae: d.iae,
        bei: violations,
    }
}

fn section_causes(ssf: bool, d: SectionStands) -> SectionCauses
    ensures { result ≡ section_causes ssf d }
{
    let acts = tim_acts(d.tim, d.disabled);
    SectionCauses {
        tim: d.tim & !ssf,
        deg: d.deg & !(ssf | acts),
        bdi: d.bdi & !(ssf | acts),
        ssf,
    }
}

// SSF, dAIS, dOCI or dLCK.
pub fn path_down(ssf: bool, d: PathStands) -> bool
    ensures { result ≡ path_down ssf d }
{
    let raised = signal::raised_by(d.signal);
    ssf | raised.ais | raised.oci | raised.lck
}

fn path_actions(ssf: bool, d: PathStands, violations: u8) -> PathActions
    ensures { result ≡ path_actions ssf d violations }
{
    let down = path_down(ssf, d);
    let acts = tim_acts(d.tim, d.disabled);
    PathActions {
        ssf,
        tsf: down | acts,
        tsd: d.deg,
        bdi: down | d.tim,
        bei: violations,
    }
}

// The path's causes by the equations, of the eight inputs that they go by.
// They stand one by one, as C hands them in and as lookup's `TableRule` has them.
pub fn causes_by(
    ssf: bool,
    ais: bool,
    oci: bool,
    lck: bool,
    tim: bool,
    disabled: bool,
    deg: bool,
    bdi: bool,
) -> PathCauses
    ensures { result ≡ causes_by ssf ais oci lck tim disabled deg bdi }
{
    let down = ssf | ais | oci | lck;
    let acts = tim_acts(tim, disabled);
    PathCauses {
        oci: oci & !ssf,
        lck: lck & !ssf,
        tim: tim & !down,
        deg: deg & !(down | acts),
        bdi: bdi & !(down | acts),
        ssf: ssf | ais,
    }
}

fn path_causes(ssf: bool, d: PathStands) -> PathCauses
    ensures { result ≡ path_causes ssf d }
{
    let raised = signal::raised_by(d.signal);
    causes_by(
        ssf, raised.ais, raised.oci, raised.lck, d.tim, d.disabled, d.deg, d.bdi,
    )
}

// A head where it fits, otherwise the rest.
fn first(stands: bool, head: u8, rest: u8) -> u8
    ensures { result ≡ cond stands head rest }
{
    if stands {
        return head;
    }
    rest
}

// The head: the first that fits. Each is tried, by a function of its own and no chain of else if, so that a frame's work is the same whichever fits (speed/flat).
#[tactic(auto, unfolding(crate::specs::Causes::head_of))]
pub fn head_of(d: Standing) -> u8
    ensures { result ≡ head_of d }
{
    let l = d.line;
    let raised = signal::raised_by(d.path.signal);
    let section = tim_acts(d.section.tim, d.section.disabled);
    let path = tim_acts(d.path.tim, d.path.disabled);
    let nine = first(path, 9, 0);
    let eight = first(raised.lck, 8, nine);
    let seven = first(raised.oci, 7, eight);
    let six = first(raised.ais, 6, seven);
    let five = first(section, 5, six);
    let four = first(l.lom, 4, five);
    let three = first(l.lof, 3, four);
    let two = first(l.ais, 2, three);
    first(l.tsf, 1, two)
}

// The path's SSF: the section's aTSF.
pub fn path_ssf(d: Standing) -> bool
    ensures { result ≡ path_ssf d }
{
    ssf_of(d.line) | tim_acts(d.section.tim, d.section.disabled)
}

// The report of what stands, with the frame's violation counts and the path's causes as they were found.
pub fn report_with(causes: PathCauses, d: Standing, sm: u8, pm: u8) -> Report
    ensures { result ≡ report_with causes d sm pm }
{
    let ssf = ssf_of(d.line);
    let section = section_actions(ssf, d.section, sm);
    Report {
        standing: d,
        section,
        path: path_actions(section.tsf, d.path, pm),
        causes: Causes {
            line: line_causes(d.line),
            section: section_causes(ssf, d.section),
            path: causes,
        },
        head: head_of(d),
    }
}

// The same, the path's causes by the equations.
#[tactic(auto, unfolding(crate::specs::Causes::report_of))]
pub fn report_of(d: Standing, sm: u8, pm: u8) -> Report
    ensures { result ≡ report_of d sm pm }
{
    report_with(path_causes(path_ssf(d), d.path), d, sm, pm)
}

// Nothing stands: before the first frame, and of bytes that are no record.
pub fn nothing() -> Standing
    ensures { result ≡ nothing_stands }
{
    Standing::default()
}

// The report of nothing.
#[tactic(auto, unfolding(crate::specs::Causes::no_report))]
pub fn no_report() -> Report
    ensures { result ≡ no_report }
{
    report_of(nothing(), 0, 0)
}
