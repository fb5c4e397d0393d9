// The supervisor with six tandem levels: provisioning, step, mark, a level's report and its accepted trace, in place.
#![tactic(auto)]

ghost use Rattle.std.specs.Prelude.{◌≡◌, cond, leb, ◌&&◌, [], ◌∷◌, ◌++◌, ◌≤◌, length, false, true, IfOk, OnOk, OnErr, MatchOption};
ghost use Rattle.std.specs.List.{list_all};
ghost use Rattle.answer.specs.Checks.{first_of};
ghost use Rattle.overhead.specs.Overhead.{level_field};
ghost use Rattle.answer.specs.Refusal.{said};
ghost use Rattle.settings.specs.Settings.{options_of};
ghost use Rattle.tandem.specs.Levels.{given_level, blank_level, stepped_level, marked_level, five_of, framed_levels, marked_levels, level_figures, listed_of, listed_in, is_level, level_at, free_at, low_to};
ghost use Rattle.tandem.specs.Tandem.{fresh_tandem, begun, request_refusal, place_checks, give_of, recorded_of, refusal_by, frame_refusal, framed_of, marked_of, ssf_now, nothing, level_shown, shown_levels, level_report, level_traced, reported, told};

use alignment::Multi;
use answer::{Refusal, test};
use arrayvec::ArrayVec;
use causes::Report;
use level::{LevelActions, LevelCauses, LevelSecond, LevelStands, LevelState};
use settings::{Options, Request};
use supervisor::Supervisor;

// A level: whether it is provisioned, and what is kept of it.
// A flag and no Option: the bytes of a level that is not provisioned are read back and written as they were (`tandem_trip` of bays).
#[derive(Clone, Copy)]
pub struct Level {
    pub given: bool,
    pub options: Options,
    pub state: LevelState,
    pub second: LevelSecond,
}

// The supervisor of line, section and path, the flags of the last accepted frame (a number, as in `supervisor`), and levels 1 to 6.
#[derive(Clone, Copy)]
pub struct Tandem {
    pub base: Supervisor,
    pub flags: u8,
    pub levels: [Level; 6],
}

// What an accepted frame reports; `stands` is what stands of levels 1 to 6 after it.
#[derive(Clone, Copy)]
pub struct TandemReport {
    pub report: Report,
    pub stands: [LevelStands; 6],
}

// What is told of a level.
#[derive(Clone, Copy)]
pub struct LevelReport {
    pub given: bool,
    pub stands: LevelStands,
    pub actions: LevelActions,
    pub causes: LevelCauses,
}

// A level as it is provisioned.
fn given_level(options: Options) -> Level
    ensures { result ≡ given_level options }
{
    Level {
        given: true,
        options,
        state: level::fresh_level(),
        second: level::fresh_level_second(),
    }
}

// A level that is not provisioned.
fn blank_level() -> Level
    ensures { result ≡ blank_level }
{
    Level {
        given: false,
        ..given_level(supervisor::blank().settings.section)
    }
}

// A supervisor with no level provisioned.
pub fn fresh_tandem(s: Supervisor) -> Tandem
    ensures { result ≡ fresh_tandem s }
{
    Tandem {
        base: s,
        flags: 0,
        levels: [blank_level(); 6],
    }
}

// Of a level that is not provisioned nothing stands.
pub fn nothing_stands() -> LevelStands
    ensures { result ≡ nothing }
{
    LevelStands::default()
}

// Whether a frame or a mark was accepted.
fn is_begun(s: &Supervisor) -> bool
    ensures { result ≡ begun s.now }
{
    (0 < s.seconds) | (0 < s.second.frames.0)
}

// The k by which DEGThr is held: one that is none of the three is taken for 3.
fn held(k: u8) -> u8
    ensures { result ≡ cond (leb 1 k && leb k 3) k 3 }
{
    if (1 <= k) & (k <= 3) { k } else { 3 }
}

// What is kept of a level's request, or the refusals 6 to 10.
#[tactic(auto, using(crate::proofs::Refusals::request_held, crate::proofs::Refusals::names_held))]
fn asked(k: u8, r: &Request, names: &[u8]) -> Result<Options, Refusal>
    ensures refusal { said result ≡ request_refusal k r.now names.now }
    ensures options { IfOk result (λ p. p ≡ options_of r.now names.now) }
{
    settings::accepted(held(k), r, r, names, names)?;
    let names = <[u8; 32]>::try_from(names).map_err(|_| Refusal::NameLength)?;
    Ok(settings::options_of(r, names))
}

impl Level {
    // A frame, where the level is provisioned, and what stands after it; n is the level's number.
    #[tactic(auto, unfolding(crate::specs::Levels::stepped_level, crate::specs::Tandem::level_shown))]
    fn step(&mut self, ssf: bool, m: &Multi, overhead: &[u8], n: u8, violations: u8) -> LevelStands
        ensures level { self.new ≡ stepped_level self.old ssf m.now (level_field overhead.now n) violations }
        ensures stands { result ≡ level_shown self.new ssf }
    {
        if !self.given {
            return nothing_stands();
        }
        let f = overhead::level_field(overhead, n);
        let stands = self.state.step(&self.options, ssf, m, &f);
        self.second.count(&stands, f.bei, violations);
        stands
    }

    // What stands of the level; nothing where it is not provisioned.
    #[tactic(auto, unfolding(crate::specs::Tandem::level_shown))]
    fn stands(&self, ssf: bool) -> LevelStands
        ensures { result ≡ level_shown self.now ssf }
    {
        if self.given {
            self.state.stands(&self.options, ssf)
        } else {
            nothing_stands()
        }
    }

    // A mark, where the level is provisioned.
    #[tactic(auto, unfolding(crate::specs::Levels::marked_level))]
    fn mark(&mut self)
        ensures { self.new ≡ marked_level self.old }
    {
        if self.given {
            self.state.mark(&self.options, &self.second);
            self.second = level::fresh_level_second();
        }
    }

    // The five figures of the level, zeros where it is not provisioned.
    #[tactic(auto, unfolding(crate::specs::Levels::five_of))]
    fn five(&self) -> [u32; 5]
        ensures { result ≡ five_of self.now }
    {
        if !self.given {
            return [0; 5];
        }
        let b = level::level_closed(self.second);
        [
            b.near.0,
            b.far.0,
            u32::from(b.neards),
            u32::from(b.fards),
            b.sum.0,
        ]
    }
}

// The six levels after a frame, and what stands of them: the level at index i has number i + 1. One that is not provisioned costs a test, and is not moved.
fn levels_step(
    levels: &mut [Level; 6],
    ssf: bool,
    m: &Multi,
    overhead: &[u8],
    counts: &[u8; 6],
) -> [LevelStands; 6]
    ensures levels { levels.new ≡ framed_levels levels.old ssf m.now overhead.now counts.now }
    ensures stands { result ≡ shown_levels levels.new ssf }
{
    let mut stands = [nothing_stands(); 6];
    for (i, level) in levels.iter_mut().enumerate() {
        stands[i] = level.step(ssf, m, overhead, i as u8 + 1, counts[i]);
    }
    stands
}

// The six levels after a mark.
fn levels_mark(levels: &mut [Level; 6])
    ensures { levels.new ≡ marked_levels levels.old }
{
    for level in levels.iter_mut() {
        level.mark();
    }
}

// Each of the six counts is at most 8.
fn all_low(counts: &[u8; 6]) -> bool
    ensures { result ≡ list_all (λ count. leb count 8) counts.now }
{
    counts.iter().all(|&count| count <= 8)
}

// Whether a frame is accepted where the open second holds so many: the tests in the order of their numbers.
#[tactic(auto, using(crate::proofs::Turns::six_low), unfolding(crate::specs::Tandem::refusal_by))]
pub fn frame_accepted(
    frames: u32,
    overhead: &[u8],
    flags: u8,
    sm: u8,
    pm: u8,
    counts: &[u8; 6],
) -> Result<(), Refusal>
    ensures refusal { said result ≡ refusal_by frames overhead.now flags sm pm counts.now }
    ensures overhead { OnOk result (length overhead.now ≡ 64) }
{
    test(overhead.len() == 64, Refusal::OverheadLength)?;
    test(flags <= 3, Refusal::UnknownFlags)?;
    test(
        (sm <= 8) & (pm <= 8) & all_low(counts),
        Refusal::TooManyViolations,
    )?;
    test(frames < 400000, Refusal::Full)
}

// The figures of a mark: the supervisor's, then the levels'.
#[tactic(auto, unfolding(crate::specs::Levels::level_figures))]
fn figures_of(base: &[u32; 22], levels: &[Level; 6]) -> [u32; 52]
    ensures { result ≡ base.now ++ level_figures levels.now }
{
    // By place: of what `chunks_exact_mut` and `as_chunks_mut` lend, the library says only the length afterwards.
    let mut out = [0; 52];
    out[..22].copy_from_slice(base);
    for (i, level) in levels.iter().enumerate() {
        out[22 + 5 * i..27 + 5 * i].copy_from_slice(&level.five());
    }
    out
}

// The figures of an S line, of those of a mark: the twenty-two, then the five of each provisioned level.
#[tactic(auto, unfolding(crate::specs::Levels::given_groups))]
pub fn listed_figures(levels: &[Level; 6], figures: &[u32; 52]) -> ArrayVec<u32, 52>
    ensures { result.items ≡ listed_of levels.now figures.now }
{
    let mut listed = ArrayVec::new();
    listed.try_extend_from_slice(&figures[..22]).unwrap();
    for (i, level) in levels.iter().enumerate() {
        if level.given {
            let five = &figures[22 + 5 * i..27 + 5 * i];
            listed.try_extend_from_slice(five).unwrap();
        }
    }
    listed
}

// The same in an array, with zeros behind them, and how many they are: a value that can be copied, as the vector cannot.
#[derive(Clone, Copy)]
pub struct Listed {
    pub figures: [u32; 52],
    pub n: usize,
}

pub fn listed_array(levels: &[Level; 6], figures: &[u32; 52]) -> Listed
    ensures { result ≡ listed_in (listed_of levels.now figures.now) }
{
    let listed = listed_figures(levels, figures);
    let n = listed.len();
    let mut array = [0; 52];
    array[..n].copy_from_slice(listed.as_slice());
    Listed { figures: array, n }
}

impl Tandem {
    // Level n, 1 to 6.
    fn level(&self, n: u8) -> Option<&Level>
        ensures { MatchOption result (is_level n ≡ false) (λ l. (is_level n ≡ true) × (l.now ≡ level_at self.now.levels n)) }
    {
        self.levels.get(usize::from(n.checked_sub(1)?))
    }

    // Whether level n is one of the six, and not provisioned yet.
    fn is_free(&self, n: u8) -> bool
        ensures { result ≡ free_at self.now.levels n }
    {
        match self.level(n) {
            Some(level) => !level.given,
            None => false,
        }
    }

    // Whether level n can be provisioned: 16 and 18.
    #[tactic(auto, using(crate::proofs::Refusals::free_range))]
    fn has_place(&self, n: u8) -> Result<(), Refusal>
        ensures refusal { said result ≡ first_of (place_checks self.now n) }
        ensures range { OnOk result ((1 ≤ n) × (n ≤ 6)) }
    {
        test(!is_begun(&self.base), Refusal::OutOfTurn)?;
        test(self.is_free(n), Refusal::UnknownLevel)
    }

    // A level provisioned from C: in number order.
    #[tactic(auto, using(crate::proofs::Refusals::give_by, crate::proofs::Refusals::placed), unfolding(crate::specs::Tandem::given_by))]
    pub fn give(&mut self, n: u8, r: &Request, names: &[u8]) -> Result<(), Refusal>
        ensures refusal { said result ≡ (give_of self.old n r.now names.now).refusal }
        ensures ok { OnOk result (self.new ≡ (give_of self.old n r.now names.now).tandem) }
        ensures err { OnErr result (self.new ≡ self.old) }
    {
        let options = asked(self.base.settings.k, r, names)?;
        self.has_place(n)?;
        self.levels[usize::from(n) - 1] = given_level(options);
        Ok(())
    }

    // A level provisioned by a record of a trace: 16 and 18 ahead of the rest.
    #[tactic(auto, using(crate::proofs::Refusals::record_by, crate::proofs::Refusals::placed), unfolding(crate::specs::Tandem::given_by))]
    pub fn give_record(&mut self, n: u8, r: &Request, names: &[u8]) -> Result<(), Refusal>
        ensures refusal { said result ≡ (recorded_of self.old n r.now names.now).refusal }
        ensures ok { OnOk result (self.new ≡ (recorded_of self.old n r.now names.now).tandem) }
        ensures err { OnErr result (self.new ≡ self.old) }
    {
        self.has_place(n)?;
        let kept = asked(self.base.settings.k, r, names)?;
        self.levels[usize::from(n) - 1] = given_level(kept);
        Ok(())
    }

    // Whether a frame is accepted.
    #[tactic(auto, unfolding(crate::specs::Tandem::frame_refusal, crate::specs::Tandem::refusal_by))]
    fn takes(
        &self,
        overhead: &[u8],
        flags: u8,
        sm: u8,
        pm: u8,
        counts: &[u8; 6],
    ) -> Result<(), Refusal>
        ensures { said result ≡ frame_refusal self.now overhead.now flags sm pm counts.now }
    {
        frame_accepted(self.base.second.frames.0, overhead, flags, sm, pm, counts)
    }

    // One frame; `counts` are the violation counts of levels 1 to 6.
    #[tactic(auto, using(crate::proofs::Refusals::framed_ok, crate::proofs::Refusals::framed_taken, answer::proofs::Numbers::number_above), unfolding(crate::specs::Tandem::framed_of))]
    pub fn step(
        &mut self,
        overhead: &[u8],
        flags: u8,
        sm: u8,
        pm: u8,
        counts: &[u8; 6],
    ) -> Result<TandemReport, Refusal>
        ensures refusal { said result ≡ (framed_of self.old overhead.now flags sm pm counts.now).refusal }
        ensures report { IfOk result (λ r. r ≡ reported (framed_of self.old overhead.now flags sm pm counts.now)) }
        ensures ok { OnOk result (self.new ≡ (framed_of self.old overhead.now flags sm pm counts.now).tandem) }
        ensures err { OnErr result (self.new ≡ self.old) }
    {
        self.takes(overhead, flags, sm, pm, counts)?;
        let report = self.base.step(overhead, flags, sm, pm)?;
        self.flags = flags;
        let ssf = report.path.ssf;
        let m = &self.base.layers.align.multi;
        let stands = levels_step(&mut self.levels, ssf, m, overhead, counts);
        Ok(TandemReport { report, stands })
    }

    // A mark: the twenty-two figures of line, section and path, then five for each level.
    #[tactic(auto, unfolding(crate::specs::Tandem::marked_of, supervisor::specs::Supervisor::mark_of, supervisor::specs::Supervisor::mark_refusal))]
    pub fn mark(&mut self) -> Result<[u32; 52], Refusal>
        ensures refusal { said result ≡ (marked_of self.old).refusal }
        ensures figures { IfOk result (λ f. f ≡ (marked_of self.old).figures) }
        ensures ok { OnOk result (self.new ≡ (marked_of self.old).tandem) }
        ensures err { OnErr result (self.new ≡ self.old) }
    {
        let own = self.base.mark()?;
        let figures = figures_of(&own, &self.levels);
        levels_mark(&mut self.levels);
        Ok(figures)
    }

    // The path's SSF as it stands.
    #[tactic(auto, unfolding(crate::specs::Tandem::ssf_now, frame::specs::Layers::standing_of, frame::specs::Layers::section_stands))]
    fn ssf_now(&self) -> bool
        ensures { result ≡ ssf_now self.now.base self.now.flags }
    {
        let settings = &self.base.settings;
        let layers = &self.base.layers;
        let line = frame::line_of(layers.align, alignment::frames_of(settings.k), self.flags);
        let tim = layers
            .section
            .layer
            .tim(settings.section.mode, &settings.section.names);
        causes::ssf_of(line) | causes::tim_acts(tim, settings.section.disabled)
    }

    // What is told of level n.
    #[tactic(auto, unfolding(crate::specs::Tandem::level_report))]
    pub fn level_report(&self, n: u8) -> Result<LevelReport, Refusal>
        ensures refusal { said result ≡ (level_report self.now n).refusal }
        ensures report { IfOk result (λ r. r ≡ told (level_report self.now n)) }
    {
        let level = self.level(n).ok_or(Refusal::UnknownLevel)?;
        let stands = level.stands(self.ssf_now());
        Ok(LevelReport {
            given: level.given,
            stands,
            actions: level::level_actions(stands),
            causes: level::level_causes(stands),
        })
    }

    // The accepted trace of level n.
    #[tactic(auto, unfolding(crate::specs::Tandem::level_traced))]
    pub fn level_trace(&self, n: u8) -> Result<&[u8; 64], Refusal>
        ensures refusal { said result ≡ (level_traced self.now n).refusal }
        ensures trace { IfOk result (λ t. t.now ≡ (level_traced self.now n).trace) }
    {
        let level = self.level(n).ok_or(Refusal::NoTrace)?;
        test(level.given & level.state.layer.known, Refusal::NoTrace)?;
        Ok(&level.state.layer.accepted)
    }
}
