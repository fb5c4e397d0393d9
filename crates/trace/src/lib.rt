// The records of a trace taken in a state, and the scan of a buffer's records.
#![tactic(auto)]

ghost use Rattle.std.specs.Prelude.{◌≡◌, ◌≤◌, ◌<◌, length, drop, OnErr};
ghost use Rattle.record.specs.Record.{Within, length_of, body_of};
ghost use Rattle.trace.specs.Scan.{start_of, taken_as, alike, framed_of, counts_in, marked_of, provisioned_of, given_of, applied_of, ran, run_of};

use answer::{Refusal, test};
use causes::Standing;
use late::Late;
use level::LevelStands;
use record::Record;
use supervisor::Supervisor;
use tandem::TandemReport;

// What a scan carries: whether a provisioning was met, the kind of the frames accepted (0: none was), the supervisor since with its pending second, the
// figures that the last mark gave, and what stands of line, section and path and of levels 1 to 6 after the last frame.
#[derive(Clone, Copy)]
pub struct State {
    // A flag beside `sup`: theorems speak of the supervisor before a provisioning too (stream's Counted, ReaderCounts).
    pub begun: bool,
    // A number, and no enum: `scan` and theorems (explicit_same, mark_untold) answer for a state of every number.
    pub kind: u8,
    pub sup: Late,
    pub last: [u32; 52],
    pub standing: Standing,
    pub levels: [LevelStands; 6],
}

// Why a run over a buffer's records stops: none is left, a second was reported, a record was taken and each is told, a record at an offset was refused.
#[derive(Clone, Copy, Debug, PartialEq, Eq)]
pub enum Stop {
    More,
    Reported,
    Told,
    // A number, as a refused record has it.
    Refused { number: u8, offset: usize },
}

// Where and why a run stopped, and the frames accepted in it.
#[derive(Clone, Copy, Debug, PartialEq, Eq)]
pub struct Run {
    pub at: usize,
    pub frames: usize,
    pub stop: Stop,
}

// What a scan starts with.
pub fn start() -> State
    ensures { result ≡ start_of }
{
    State {
        begun: false,
        kind: 0,
        sup: late::fresh_late(tandem::fresh_tandem(supervisor::blank())),
        last: [0; 52],
        standing: causes::nothing(),
        levels: [tandem::nothing_stands(); 6],
    }
}

// The six counts at the end of a frame of kind 5.
fn counts_in(body: &[u8]) -> [u8; 6]
    requires { length body.now ≡ 73 }
    ensures { result ≡ counts_in body.now }
{
    [body[67], body[68], body[69], body[70], body[71], body[72]]
}

// Each takes a record, and says whether a second is reported with it; where it is refused, nothing is changed.
impl State {
    // Whether a frame of a kind may follow: none was accepted, or those were of its kind.
    fn is_alike(&self, kind: u8) -> bool
        ensures { result ≡ alike self.now kind }
    {
        (self.kind == 0) | (self.kind == kind)
    }

    // A frame: 16 and 19 come before the supervisor's refusals.
    #[tactic(auto, unfolding(crate::specs::Scan::framed_of, crate::specs::Scan::stepped_of, crate::specs::Scan::answered_of))]
    fn take_frame(&mut self, kind: u8, body: &[u8], counts: &[u8; 6]) -> Result<bool, Refusal>
        requires { 67 ≤ length body.now }
        ensures taken { taken_as result self.new ≡ framed_of self.old kind body.now counts.now }
        ensures err { OnErr result (self.new ≡ self.old) }
    {
        test(self.begun, Refusal::OutOfTurn)?;
        test(self.is_alike(kind), Refusal::MixedFrames)?;
        let TandemReport { report, stands } = self
            .sup
            .tandem
            .step(&body[0..64], body[64], body[65], body[66], counts)?;
        self.kind = kind;
        self.standing = report.standing;
        self.levels = stands;
        Ok(false)
    }

    // A mark.
    #[tactic(auto, using(crate::proofs::Takes::late_report), unfolding(crate::specs::Scan::marked_of, crate::specs::Scan::answered_of))]
    fn take_mark(&mut self) -> Result<bool, Refusal>
        ensures taken { taken_as result self.new ≡ marked_of self.old }
        ensures err { OnErr result (self.new ≡ self.old) }
    {
        test(self.begun, Refusal::OutOfTurn)?;
        let figures = self.sup.next_report();
        let told = self.sup.mark()?;
        self.last = figures;
        Ok(told.is_some())
    }

    // A provisioning: before anything else.
    #[tactic(auto, unfolding(crate::specs::Scan::provisioned_of, crate::specs::Scan::answered_of, supervisor::specs::Supervisor::provision_of))]
    fn take_provisioning(&mut self, body: &[u8]) -> Result<bool, Refusal>
        requires { length body.now ≡ 79 }
        ensures taken { taken_as result self.new ≡ provisioned_of self.old body.now }
        ensures err { OnErr result (self.new ≡ self.old) }
    {
        test(!self.begun, Refusal::OutOfTurn)?;
        let section = record::section_in(body);
        let path = record::path_in(body);
        let base = Supervisor::provision(body[0], &section, &path, &body[15..47], &body[47..79])?;
        self.begun = true;
        self.sup = late::fresh_late(tandem::fresh_tandem(base));
        Ok(false)
    }

    // A level's provisioning: before the first frame or mark.
    #[tactic(auto, unfolding(crate::specs::Scan::given_of, crate::specs::Scan::answered_of))]
    fn take_level(&mut self, body: &[u8]) -> Result<bool, Refusal>
        requires { length body.now ≡ 40 }
        ensures taken { taken_as result self.new ≡ given_of self.old body.now }
        ensures err { OnErr result (self.new ≡ self.old) }
    {
        test(self.begun, Refusal::OutOfTurn)?;
        let asked = record::level_in(body);
        self.sup.tandem.give_record(body[0], &asked, &body[8..40])?;
        Ok(false)
    }

    // The record at a position of s, which is none that is refused.
    #[tactic(auto, using(record::proofs::Records::part_is))]
    fn take(&mut self, r: Record, s: &[u8], at: usize) -> Result<bool, Refusal>
        requires within { Within s.now at r }
        requires some { 0 < length_of r }
        ensures taken { taken_as result self.new ≡ applied_of self.old r (body_of r (drop at s.now)) }
        ensures err { OnErr result (self.new ≡ self.old) }
    {
        match r {
            Record::Frame => self.take_frame(1, &s[at + 4..at + 71], &[0; 6]),
            Record::Mark => self.take_mark(),
            Record::Provisioning => self.take_provisioning(&s[at + 4..at + 83]),
            Record::Level => self.take_level(&s[at + 4..at + 44]),
            Record::LevelFrame => {
                let body = &s[at + 4..at + 77];
                self.take_frame(5, body, &counts_in(body))
            }
            Record::Refused(_) => unreachable!(),
        }
    }
}

// Takes the records of s from a position on, until one is refused, a second is reported with one, or none is left; with `tell` one at most.
pub fn scan(tell: bool, st: &mut State, s: &[u8], from: usize) -> Run
    ensures { ran result st.new ≡ run_of tell s.now from 0 st.old }
{
    let mut at = from;
    let mut frames = 0;
    let stop = loop {
        if s.len() <= at {
            break Stop::More;
        }
        let rec = record::record_at(s, at);
        let (Record::Frame
        | Record::Mark
        | Record::Provisioning
        | Record::Level
        | Record::LevelFrame) = rec
        else {
            let number = record::refusal_in(rec);
            break Stop::Refused { number, offset: at };
        };
        match st.take(rec, s, at) {
            Ok(told) => {
                frames += record::frames_in(rec);
                at += record::length_of(rec) + 2;
                if told {
                    break Stop::Reported;
                }
                if tell {
                    break Stop::Told;
                }
            }
            Err(refusal) => break Stop::Refused {
                number: refusal.number(),
                offset: at,
            },
        }
    };
    Run { at, frames, stop }
}
