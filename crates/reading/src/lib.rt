// Reads a trace from standard input through a buffer of 4,096 bytes and writes what it tells to standard output: the lines of its seconds, or for the network
// office those of its quarter-hours and days; and where every record is told a line for each frame at which anything changed.
#![tactic(auto)]

ghost use Rattle.std.specs.Prelude.{◌≡◌, ◌+◌, ◌≤◌, ◌<◌, [], length, take};
ghost use Rattle.stream.specs.Stream.{goes_on};
ghost use Rattle.reading.specs.Turn.{Sound, start_reading, start_refilled, turned_as, turn_of, written_of, refilled_as, Refill};

use answer::Refusal;
use arrayvec::ArrayVec;
use bins::Bins;
use lines::Outcome;
use std::io::{Read, Write, writer};
use trace::{State, Stop};

// What a program tells of a trace: its seconds, every record too, or for the office its quarter-hours and days. The fourth, records and the office's lines, is what a
// reading can say too; no program here takes it.
#[derive(Clone, Copy, Debug, PartialEq, Eq)]
pub enum Tells {
    Seconds,
    Records,
    Bins,
    RecordsAndBins,
}

// Where the reading stands between two pieces: whether every record is told, and whether it is for the office; the scan's state, the offset of the next record, the
// frames accepted, and the open quarter-hour and day.
#[derive(Drop)]
struct Reading {
    // Two flags, and no Tells: the law of reading in pieces, InPieces, is of both together too.
    tell: bool,
    office: bool,
    state: State,
    at: u64,
    frames: u64,
    bins: Bins,
}

// A turn: the bytes used, and whether the output is whole with it.
#[derive(Clone, Copy)]
struct Turn {
    used: usize,
    done: bool,
}

// A refill: how many bytes at the buffer's start are kept, and whether the program ends.
#[derive(Clone, Copy)]
struct Refilled {
    held: usize,
    ended: bool,
}

// Whether more bytes could change a refusal: none stands, or a record is cut.
fn goes_on(refusal: u8) -> bool
    ensures { result ≡ goes_on refusal }
{
    (refusal == 0) | (refusal == Refusal::CutRecord.number())
}

// Reads once into what is free of the buffer, and answers how many bytes came: 0 at the end of the input, and where a read fails.
fn fill<R: Read>(input: &mut R, buf: &mut [u8; 4096], held: usize) -> usize
    requires { held ≤ 4096 }
    ensures { (held + result ≤ 4096) × (take held buf.new ≡ take held buf.old) }
{
    let free = &mut buf[held..];
    input.read(free).unwrap_or(0)
}

impl Reading {
    // Where a program starts.
    fn start(tell: bool, office: bool) -> Reading
        ensures { result ≡ start_reading tell office }
    {
        Reading {
            tell,
            office,
            state: trace::start(),
            at: 0,
            frames: 0,
            bins: bins::no_bins(),
        }
    }

    // A turn over the kept bytes and the piece after them, which s holds: takes the records, gathers the lines of what they tell, and puts the last lines after
    // them where the output is whole. 4,096 bytes have 1,024 marks at most.
    fn turn(&mut self, s: &[u8], ended: bool, out: &mut ArrayVec<u8, 1126400>) -> Turn
        requires sound { Sound self.old }
        requires s_len_bound { length s.now ≤ 4096 }
        requires clear { out.old.items ≡ [] }
        ensures turned { turned_as result self.new (length out.new.items) ≡ turn_of self.old s.now ended }
        ensures written { out.new.items ≡ written_of self.old s.now ended }
    {
        let mut at = 0;
        let refusal = loop {
            let before = lines::shown_in(&self.state);
            let run = trace::scan(self.tell, &mut self.state, s, at);
            at = run.at;
            self.frames += run.frames as u64;
            match run.stop {
                Stop::Told => lines::told_line(self.frames, &before, &self.state, out),
                Stop::Reported => {
                    lines::reported_lines(self.office, &self.bins, &self.state, out);
                    lines::open_after(&mut self.bins, &self.state);
                }
                Stop::More => break 0,
                Stop::Refused { number, offset: _ } => break number,
            }
        };
        self.at += at as u64;
        let done = ended | !goes_on(refusal);
        let outcome = Outcome {
            refusal,
            offset: self.at,
            frames: self.frames,
        };
        lines::last_lines(done, self.office, &self.bins, &self.state, &outcome, out);
        Turn { used: at, done }
    }

    // Refills the buffer, takes its records, writes what they give, and keeps the bytes not used. All that can be written is written before the next read, so
    // that a reader sees each second without waiting for the end; a write that fails ends the program.
    fn refill<R: Read, W: Write>(
        &mut self,
        held: usize,
        input: &mut R,
        output: &mut W,
        buf: &mut [u8; 4096],
        out: &mut ArrayVec<u8, 1126400>,
    ) -> Refilled
        requires sound { Sound self.old }
        requires held_bound { held < 83 }
        ensures { Refill self.old held buf.old buf.new out.new.items (refilled_as result self.new) }
    {
        let got = fill(input, buf, held);
        let full = held + got;
        out.clear();
        let turn = self.turn(&buf[..full], got == 0, out);
        let sent = output.write_all(out.as_slice()).is_ok();
        buf.copy_within(turn.used..full, 0);
        Refilled {
            held: full - turn.used,
            ended: turn.done | !sent,
        }
    }

    // Refills until the output is whole. It ends for every input, however long: a trace has no more than 4,294,967,295 seconds of 400,000 frames.
    fn pump<R: Read, W: Write>(
        &mut self,
        first: Refilled,
        input: &mut R,
        output: &mut W,
        buf: &mut [u8; 4096],
        out: &mut ArrayVec<u8, 1126400>,
    )
        requires sound { Sound self.old }
        requires held_bound { first.held < 83 }
    {
        let mut r = first;
        while !r.ended {
            r = self.refill(r.held, input, output, buf, out);
        }
    }
}

// What a program starts with: the reading, and before the first refill nothing kept and no end.
fn started(tell: bool, office: bool) -> (Reading, Refilled)
    ensures { refilled_as result.1 result.0 ≡ start_refilled tell office }
{
    let first = Refilled {
        held: 0,
        ended: false,
    };
    (Reading::start(tell, office), first)
}

// A program from its start to its end. The text has room for the lines that 4,096 bytes of input can give: 1,024 seconds, the pending one, and the last two.
pub fn run<R: Input + Print>(rt: &R, tells: Tells) {
    let mut buf = [0u8; 4096];
    let mut out = ArrayVec::<u8, 1126400>::new();
    let mut input = rt.reader();
    let mut output = writer(rt);
    let tell = matches!(tells, Tells::Records | Tells::RecordsAndBins);
    let office = matches!(tells, Tells::Bins | Tells::RecordsAndBins);
    let (mut reading, first) = started(tell, office);
    reading.pump(first, &mut input, &mut output, &mut buf, &mut out);
}
