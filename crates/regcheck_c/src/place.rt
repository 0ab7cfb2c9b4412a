//! Where a report goes, or the line that says why there is none.
ghost use Rattle.std.specs.Prelude.{◌≡◌, IfOk};
ghost use Rattle.regcheck_c.specs.Called.{IsPut, IsWorded, with_text};

use crate::answer::{Answer, TOO_SMALL};
use std::alloc::AllocError;

/// Puts a text at the beginning of a place that has room for all of it.
fn put(text: &[u8], out: &mut [u8])
    ensures { out.new ≡ with_text text.now out.old }
{
    if text.len() <= out.len() {
        out[..text.len()].copy_from_slice(text);
    }
}

/// Puts a report, and says so with this status if there was room for it.
pub(crate) fn put_report(report: &[u8], status: u32, out: &mut [u8]) -> Answer
    ensures { IsPut report.now status out.old out.new result }
{
    put(report, out);
    Answer {
        status: if report.len() > out.len() {
            TOO_SMALL
        } else {
            status
        },
        number: 0,
        line: 0,
        other: 0,
        length: report.len() as u64,
    }
}

/// Puts what a program says of a refusal, and gives its length; or 0, if memory ran out.
pub(crate) fn put_message(message: Result<String, AllocError>, out: &mut [u8]) -> usize
    ensures { IsWorded out.old out.new result }
{
    match message {
        Ok(line) => {
            let line = line.as_bytes();
            put(line, out);
            line.len()
        }
        Err(AllocError) => 0,
    }
}
