// One record of a trace: what stands at a position of a buffer, and what a provisioning's body asks for.
#![tactic(auto)]

ghost use Rattle.std.specs.Prelude.{◌≡◌, ◌<◌, get_or};
ghost use Rattle.record.specs.Record.{record_at, length_of, refusal_in, of_kind, frames_in, two_at, four_at, request_at, section_in, path_in, level_in};

use answer::Refusal;
use settings::Request;

// One record. A body stands after the length and the kind, four bytes from the record's start.
#[derive(Clone, Copy, Debug, PartialEq, Eq)]
pub enum Record {
    Frame,
    Mark,
    Provisioning,
    Level,
    LevelFrame,
    // A number, and no Refusal: length_of, refusal_in and frames_in answer for every number.
    Refused(u8),
}

// The byte at a place of s; past the end of s 0.
fn byte_at(s: &[u8], at: usize) -> u8
    ensures { result ≡ get_or s.now at 0 }
{
    s.get(at).copied().unwrap_or(0)
}

// Two bytes and four, the low one first.
fn two_at(s: &[u8], at: usize) -> u16
    requires { at < 16 }
    ensures { result ≡ two_at s.now at }
{
    u16::from_le_bytes([byte_at(s, at), byte_at(s, at + 1)])
}

fn four_at(s: &[u8], at: usize) -> u32
    requires { at < 14 }
    ensures { result ≡ four_at s.now at }
{
    u32::from(two_at(s, at)) + 65536 * u32::from(two_at(s, at + 2))
}

// The record of a kind.
#[tactic(auto, unfolding(crate::specs::Record::of_kind))]
fn of_kind(kind: u16) -> Record
    ensures { result ≡ of_kind kind }
{
    match kind {
        1 => Record::Frame,
        2 => Record::Mark,
        3 => Record::Provisioning,
        4 => Record::Level,
        5 => Record::LevelFrame,
        _ => Record::Refused(Refusal::UnknownRecord.number()),
    }
}

// The length that a record says, 0 where it is refused.
pub fn length_of(r: Record) -> usize
    ensures { result ≡ length_of r }
{
    match r {
        Record::Frame => 69,
        Record::Mark => 2,
        Record::Provisioning => 81,
        Record::Level => 42,
        Record::LevelFrame => 75,
        Record::Refused(_) => 0,
    }
}

// The number of the refusal that a record is, 0 where it is none.
pub fn refusal_in(r: Record) -> u8
    ensures { result ≡ refusal_in r }
{
    match r {
        Record::Refused(number) => number,
        Record::Frame | Record::Mark | Record::Provisioning | Record::Level | Record::LevelFrame =>
            0,
    }
}

// How many frames a record is.
pub fn frames_in(r: Record) -> usize
    ensures { result ≡ frames_in r }
{
    match r {
        Record::Frame | Record::LevelFrame => 1,
        Record::Mark | Record::Provisioning | Record::Level | Record::Refused(_) => 0,
    }
}

// The record at a position of s; past the end of s there is none, as in a cut one.
#[tactic(auto, unfolding(crate::specs::Record::record_of))]
pub fn record_at(s: &[u8], at: usize) -> Record
    ensures { result ≡ record_at s.now at }
{
    let rest = s.get(at..).unwrap_or(&[]);
    if rest.len() < 4 {
        return Record::Refused(Refusal::CutRecord.number());
    }
    let r = of_kind(two_at(rest, 2));
    let want = length_of(r);
    if (want == 0) | (usize::from(two_at(rest, 0)) != want) {
        return Record::Refused(Refusal::UnknownRecord.number());
    }
    if rest.len() < want + 2 {
        return Record::Refused(Refusal::CutRecord.number());
    }
    r
}

// What a provisioning's body asks for one layer, by where its DEGThr stands, where its trace mode and where its TIMActDis.
fn request_at(body: &[u8], thr: usize, mode: usize, dis: usize) -> Request
    requires { thr < 7 }
    ensures { result ≡ request_at body.now thr mode dis }
{
    Request {
        thr: four_at(body, thr),
        degm: byte_at(body, thr + 4),
        mode: byte_at(body, mode),
        dis: byte_at(body, dis),
    }
}

// What a provisioning's body asks for the section and for the path; a byte that is missing is read as 0.
pub fn section_in(body: &[u8]) -> Request
    ensures { result ≡ section_in body.now }
{
    request_at(body, 1, 11, 13)
}

pub fn path_in(body: &[u8]) -> Request
    ensures { result ≡ path_in body.now }
{
    request_at(body, 6, 12, 14)
}

// What the body of a level's provisioning asks for the level.
pub fn level_in(body: &[u8]) -> Request
    ensures { result ≡ level_in body.now }
{
    request_at(body, 1, 6, 7)
}
