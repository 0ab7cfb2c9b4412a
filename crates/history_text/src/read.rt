//! All lines of an input, each read by itself, by several threads or by one.
ghost use Rattle.std.specs.Prelude.{All, ◌≡◌, ◌≤◌, flat_map, length, map, IfOk};
ghost use Rattle.history_text.specs.Lines.{IsWithin};
ghost use Rattle.history_text.specs.Reading.{reading_of, history_lines, IsAscending};

use crate::event::Line;
use crate::limits::MAX_INPUT;
use crate::line::{LineError, read_line};
use crate::lines::{Span, lines_of};
use parallel::{FEWEST_LINES, LINES_PER_LIST, map_parts, share_size};
use std::alloc::{AllocError, Global};
use std::sync::atomic::{AtomicBool, Ordering};
use std::thread::Threads;

/// What each line that is not blank says, in order. Their line numbers ascend.
///
/// Several threads read many lines.
///
/// # Errors
/// Out of memory; nothing is kept.
pub fn read_lines(
    rt: &(impl Threads + Sync),
    alloc: Global,
    bytes: &[u8],
) -> Result<Vec<Line>, AllocError>
    requires { length bytes.now ≤ MAX_INPUT }
    ensures lines { IfOk result (λ v. v.items ≡ history_lines bytes.now) }
    ensures ascending { IfOk result (λ v. IsAscending v.items) }
{
    let spans = lines_of(alloc, bytes)?;
    let mut lines = Vec::with_capacity(alloc, spans.len())?;
    for part in read_spans(rt, alloc, bytes, &spans)? {
        let mut part = part;
        lines.append(&mut part)?;
    }
    Ok(lines)
}

/// How many of `count` lines go into one list. The lists are of about the same length, and the threads get
/// about equally many of them.
fn list_size(rt: &impl Threads, count: usize) -> usize {
    let share = share_size(rt, count, FEWEST_LINES);
    share / (share / LINES_PER_LIST + 1) + 1
}

/// What the lines at these spans of the bytes say, in order. They come in parts, as the threads read them,
/// since joining them would copy each line.
///
/// Several threads read many lines.
///
/// # Errors
/// Out of memory; nothing is kept.
pub fn read_spans(
    rt: &(impl Threads + Sync),
    alloc: Global,
    bytes: &[u8],
    spans: &[Span],
) -> Result<Vec<Vec<Line>>, AllocError>
    requires { All (IsWithin bytes.now) spans.now }
    ensures { IfOk result
        (λ v. flat_map (λ part. part.items) v.items ≡ map (reading_of bytes.now) spans.now) }
{
    let refused = AtomicBool::new(false);
    map_parts(
        rt,
        alloc,
        spans,
        list_size(rt, spans.len()),
        |part: &[Span]| -> Result<Vec<Line>, AllocError>
            requires { All (IsWithin bytes.now) part.now }
            ensures { IfOk result (λ v. v.items ≡ map (reading_of bytes.entry.now) part.now) }
        { read_part(alloc, bytes, part, &refused) },
    )
}

/// The lines that [`read_lines`] gives, read by the calling thread alone: it takes no right to start threads.
///
/// # Errors
/// Out of memory; nothing is kept.
pub fn read_lines_alone(alloc: Global, bytes: &[u8]) -> Result<Vec<Line>, AllocError>
    requires { length bytes.now ≤ MAX_INPUT }
    ensures lines { IfOk result (λ v. v.items ≡ history_lines bytes.now) }
    ensures ascending { IfOk result (λ v. IsAscending v.items) }
{
    let spans = lines_of(alloc, bytes)?;
    read_in_order(alloc, bytes, &spans)
}

// Once memory ran out for one part, no thread begins another: each would fail in its turn, slowly.
fn read_part(
    alloc: Global,
    bytes: &[u8],
    part: &[Span],
    refused: &AtomicBool,
) -> Result<Vec<Line>, AllocError>
    requires { All (IsWithin bytes.now) part.now }
    ensures { IfOk result (λ v. v.items ≡ map (reading_of bytes.now) part.now) }
{
    if refused.load(Ordering::SeqCst) {
        return Err(AllocError);
    }
    let lines = read_in_order(alloc, bytes, part);
    if lines.is_err() {
        refused.store(true, Ordering::SeqCst);
    }
    lines
}

// What the lines at some spans say, in order.
fn read_in_order(alloc: Global, bytes: &[u8], spans: &[Span]) -> Result<Vec<Line>, AllocError>
    requires { All (IsWithin bytes.now) spans.now }
    ensures { IfOk result (λ v. v.items ≡ map (reading_of bytes.now) spans.now) }
{
    let mut lines = Vec::with_capacity(alloc, spans.len())?;
    for span in spans {
        lines.push(read_span(alloc, bytes, *span)?)?;
    }
    Ok(lines)
}

fn read_span(alloc: Global, bytes: &[u8], span: Span) -> Result<Line, AllocError>
    requires { IsWithin bytes.now span }
    ensures { IfOk result (λ r. r ≡ reading_of bytes.now span) }
{
    match read_line(alloc, &bytes[span.from..span.to], span.line) {
        Ok(event) => Ok(Ok(event)),
        Err(LineError::Fault(fault)) => Ok(Err(fault)),
        Err(LineError::Memory) => Err(AllocError),
    }
}
