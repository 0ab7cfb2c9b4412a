//! What a call says of its input.
ghost use Rattle.std.specs.Prelude.{◌≡◌};
ghost use Rattle.regcheck_c.specs.Called.{answer_of_refusal, bad_number, is_failure as is_failure_number};

/// The history is atomic, or keeps the level that was asked for, and `out` has its report.
pub const YES: u32 = 0;

/// It isn't, or doesn't, and `out` has its report.
pub const NO: u32 = 1;

/// The input is refused.
pub const REFUSED: u32 = 2;

/// A number that the caller gave stands for nothing.
pub const BAD_NUMBER: u32 = 3;

/// Memory ran out.
pub const NO_MEMORY: u32 = 4;

/// The report is longer than `out`.
pub const TOO_SMALL: u32 = 5;

/// It was left undecided within the bounds, and `out` has the report.
pub const UNKNOWN: u32 = 6;

/// What a call says of its input; in C it is `regcheck_answer`.
#[repr(C)]
#[derive(Clone, Copy, Debug, PartialEq, Eq)]
pub struct Answer {
    /// One of the statuses above.
    pub status: u32,
    /// The number of the refusal, 1 to 15 or 19 to 22, or 17 if memory ran out; 0 if there is a report.
    pub number: u32,
    /// The refused line, from 1; 0 if no line is refused.
    pub line: u32,
    /// The line of the open call (refusal 9), of the earlier write (refusal 13) or of the crash (refusal
    /// 19); else 0.
    pub other: u32,
    /// The bytes of the report, whether there is room for them or not; 0 if there is none.
    pub length: u64,
}

/// Whether a refusal of this number says that the source, memory or the sink failed.
fn is_failure(number: u8) -> bool
    ensures { result ≡ is_failure_number number }
{
    16 <= number && number <= 18
}

/// What is said of a refusal of this number, with the lines that it names.
pub(crate) fn refused(number: u8, line: Option<u32>, other: Option<u32>) -> Answer
    ensures { result ≡ answer_of_refusal number line other }
{
    Answer {
        status: if is_failure(number) {
            NO_MEMORY
        } else {
            REFUSED
        },
        number: u32::from(number),
        line: line.unwrap_or(0),
        other: other.unwrap_or(0),
        length: 0,
    }
}

/// What is said where a number of the caller's stands for nothing.
pub(crate) fn not_understood() -> Answer
    ensures { result ≡ bad_number }
{
    Answer {
        status: BAD_NUMBER,
        number: 0,
        line: 0,
        other: 0,
        length: 0,
    }
}
