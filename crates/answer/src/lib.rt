// What every crate's definitions and proofs share: the refusals, and the one step of a list of tests.
#![tactic(auto)]

ghost use Rattle.std.specs.Prelude.{◌≡◌, cond};
ghost use Rattle.answer.specs.Refusal.{number_of};

// Why a call is refused. Each has its number at the C edge.
#[derive(Clone, Copy, Debug, PartialEq, Eq)]
pub enum Refusal {
    // 1: the overhead is not 64 bytes.
    OverheadLength,
    // 2: flags above 3.
    UnknownFlags,
    // 3: a violation count above 8.
    TooManyViolations,
    // 4: a frame when the open second holds 400,000; a mark when 4,294,967,295 seconds are closed.
    Full,
    // 5: k is not 1 to 3.
    UnknownOrder,
    // 6: DEGThr is not 1 to the greatest of k.
    DegThreshold,
    // 7: DEGM is not 2 to 10.
    DegMonitoring,
    // 8: a trace mode above 3.
    UnknownTraceMode,
    // 9: a TIMActDis byte above 2.
    UnknownTimAction,
    // 10: expected names that are not 32 bytes.
    NameLength,
    // 11: the layer is not 0 or 1.
    UnknownLayer,
    // 12: the lent trace buffer is not 64 bytes.
    TraceBuffer,
    // 13: no trace is accepted.
    NoTrace,
    // 14: a record is cut.
    CutRecord,
    // 15: a record's kind is unknown, or its length is wrong for it.
    UnknownRecord,
    // 16: the first record is no provisioning, or a later one is; a level after a frame or a mark.
    OutOfTurn,
    // 17: a supervisor's bytes have a wrong length, or a number beyond its range.
    UnsoundSupervisor,
    // 18: the level is not 1 to 6, or is provisioned twice.
    UnknownLevel,
    // 19: a frame of another kind than those before it.
    MixedFrames,
    // 20: two summaries of more than 86,400 seconds together.
    TooLong,
    // 21: a summary that does not follow on from the earlier one.
    NotNext,
    // 26: bytes or numbers that no summary has.
    NoSummary,
}

impl Refusal {
    // Its number.
    pub fn number(self) -> u8
        ensures { result ≡ number_of self }
    {
        match self {
            Refusal::OverheadLength => 1,
            Refusal::UnknownFlags => 2,
            Refusal::TooManyViolations => 3,
            Refusal::Full => 4,
            Refusal::UnknownOrder => 5,
            Refusal::DegThreshold => 6,
            Refusal::DegMonitoring => 7,
            Refusal::UnknownTraceMode => 8,
            Refusal::UnknownTimAction => 9,
            Refusal::NameLength => 10,
            Refusal::UnknownLayer => 11,
            Refusal::TraceBuffer => 12,
            Refusal::NoTrace => 13,
            Refusal::CutRecord => 14,
            Refusal::UnknownRecord => 15,
            Refusal::OutOfTurn => 16,
            Refusal::UnsoundSupervisor => 17,
            Refusal::UnknownLevel => 18,
            Refusal::MixedFrames => 19,
            Refusal::TooLong => 20,
            Refusal::NotNext => 21,
            Refusal::NoSummary => 26,
        }
    }
}

// The one step of a list of tests: an error where it fails.
pub fn test(passes: bool, refusal: Refusal) -> Result<(), Refusal>
    ensures { result ≡ cond passes (Ok tt) (Err refusal) }
{
    if passes { Ok(()) } else { Err(refusal) }
}
