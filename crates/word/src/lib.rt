// The report of a frame, and what is told of a tandem level, each as one number: its fields side by side above the low byte.
#![tactic(auto)]

ghost use Rattle.std.specs.Prelude.{◌≡◌, ◌<◌, ◌≤◌, ◌^◌};
ghost use Rattle.word.specs.Report.{packed, ones, report_word};
ghost use Rattle.word.specs.Level.{level_word};

use causes::Report;
use level::{LevelActions, LevelCauses, LevelStands};

// Flags side by side, the first lowest.
fn bits<const N: usize>(flags: [bool; N]) -> u64
    requires { N ≤ 16 }
    ensures fields { result ≡ packed (ones flags.entry) }
    ensures below { result < 2 ^ N }
{
    let mut word = 0;
    for i in (0..N).rev() {
        word = 2 * word + u64::from(flags[i]);
    }
    word
}

// The report's number.
#[tactic(auto, unfolding(crate::specs::Report::report_word))]
pub fn report_word(r: Report) -> u64
    ensures { result ≡ report_word r }
{
    let l = r.standing.line;
    let s = r.standing.section;
    let p = r.standing.path;
    let sa = r.section;
    let pa = r.path;
    let lc = r.causes.line;
    let sc = r.causes.section;
    let pc = r.causes.path;
    let raised = signal::raised_by(p.signal);
    let line = bits([l.inframe, l.inmulti, l.lof, l.lom]);
    let section = bits([sa.ssf, s.tim, s.bdi, s.iae, s.biae, s.deg]);
    let path = bits([
        pa.ssf, raised.ais, raised.oci, raised.lck, p.tim, p.bdi, p.deg,
    ]);
    let section_acts = bits([sa.tsf, sa.tsd, sa.bdi, sa.biae]) + (u64::from(sa.bei) << 4);
    let path_acts = bits([pa.tsf, pa.tsd, pa.bdi]) + (u64::from(pa.bei) << 3);
    let line_caused = bits([lc.lof, lc.lom]);
    let section_caused = bits([sc.tim, sc.deg, sc.bdi, sc.ssf]);
    let path_caused = bits([pc.oci, pc.lck, pc.tim, pc.deg, pc.bdi, pc.ssf]);
    (u64::from(r.head) << 8)
        + (line << 12)
        + (section << 16)
        + (path << 22)
        + (section_acts << 29)
        + (path_acts << 37)
        + (line_caused << 44)
        + (section_caused << 46)
        + (path_caused << 50)
}

// What is told of a level as a number.
#[tactic(auto, unfolding(crate::specs::Level::level_word))]
pub fn level_word(given: bool, d: LevelStands, a: LevelActions, c: LevelCauses) -> u64
    ensures { result ≡ level_word given d a c }
{
    let raises = level::raises_of(d.status);
    let stands = bits([
        d.ssf, raises.ltc, raises.ais, raises.oci, raises.lck, d.tim, d.bdi, d.iae, d.biae, d.deg,
    ]);
    let acts = bits([a.tsf, a.tsd]);
    let caused = bits([c.ssf, c.ltc, c.oci, c.lck, c.tim, c.deg, c.bdi]);
    (u64::from(given) << 8) + (stands << 9) + (acts << 19) + (caused << 21)
}
