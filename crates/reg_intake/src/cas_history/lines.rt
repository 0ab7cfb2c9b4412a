//! From bytes to the history of their lines. Several threads read the lines of a block, while the events of
//! the block before are taken in, up to the first line that is refused.
ghost use Rattle.std.specs.Prelude.{All, ◌≡◌, ◌≤◌, ◌∷◌, [], length, map, IfErr, IfOk, OnOk};
ghost use Rattle.history_text.specs.declared.limits.TheConstants.{MAX_INPUT};
ghost use Rattle.history_text.specs.Lines.{IsWithin};
ghost use Rattle.reg_intake.specs.CasHistory.Blocks.{IsReadAhead, IsStart};
ghost use Rattle.reg_intake.specs.CasHistory.Input.{IsHistoryOfInput, history_lines, meant_at};
ghost use Rattle.reg_intake.specs.CasHistory.Taken.{AreTaken, IsNoHistory, Refuses, Takes, read_in};

use crate::cas_history::blocks::{Block, Start, next_block};
use crate::cas_history::events::Events;
use crate::cas_history::history::History;
use history_model::{BuildError, LineRefusal, Reason};
use history_text::{AnyEvent, LineError, LineFault, Operations, Span, read_event};
use parallel::{FEWEST_LINES, both_mut, has_one_processor, map_parts, share_size};
use reg_arena::HashKey;
use std::alloc::{AllocError, Global};
use std::mem::replace;
use std::random::RandomSource;
use std::thread::Threads;

/// What a line says, or its fault.
type AnyLine = Result<AnyEvent, LineFault>;

/// Lines that were read ahead.
#[derive(Drop)]
struct Ahead {
    /// What they say, in parts.
    parts: Vec<Vec<AnyLine>>,
    /// Where the line after them begins, if there is one.
    next: Option<Start>,
}

/// Where the first line begins.
const FIRST: Start = Start { line: 1, from: 0 };

/// The history of the bytes of an input. Several threads read many lines.
///
/// # Errors
/// `Refused` if the history isn't well formed, and `Memory`.
pub(crate) fn history_in<T: Threads + RandomSource + Sync>(
    rt: &T,
    alloc: Global,
    bytes: &[u8],
) -> Result<History, BuildError>
    requires { length bytes.now ≤ MAX_INPUT }
    ensures ok { IfOk result (IsHistoryOfInput bytes.now) }
    ensures err { IfErr result (IsNoHistory (history_lines bytes.now)) }
{
    let events = events_in(rt, alloc, bytes)?;
    Ok(events.history(rt, alloc, HashKey::drawn(rt, bytes))?)
}

/// The history of the bytes of an input, read by the calling thread alone. The key of its hashes is a digest
/// of the bytes.
///
/// # Errors
/// `Refused` if the history isn't well formed, and `Memory`.
pub fn history_alone(alloc: Global, bytes: &[u8]) -> Result<History, BuildError>
    requires { length bytes.now ≤ MAX_INPUT }
    ensures ok { IfOk result (IsHistoryOfInput bytes.now) }
    ensures err { IfErr result (IsNoHistory (history_lines bytes.now)) }
{
    let events = events_alone(alloc, bytes)?;
    Ok(events.history_alone(alloc, HashKey::of_bytes(bytes))?)
}

/// The events of the bytes of an input. Several threads read the lines of a block.
///
/// # Errors
/// `Refused` if the history isn't well formed, and `Memory`.
fn events_in<T: Threads + Sync>(rt: &T, alloc: Global, bytes: &[u8]) -> Result<Events, BuildError>
    requires { length bytes.now ≤ MAX_INPUT }
    ensures ok { IfOk result (AreTaken (history_lines bytes.now)) }
    ensures err { IfErr result (IsNoHistory (history_lines bytes.now)) }
{
    let mut events = Events::none(alloc);
    let mut ahead = read_next(rt, alloc, bytes, FIRST)?;
    while let Some(start) = ahead.next {
        ahead = read_and_take(rt, bytes, start, &mut events, ahead.parts)?;
    }
    take_parts(&mut events, ahead.parts)?;
    Ok(events)
}

/// The events of the bytes of an input, read by the calling thread alone.
///
/// # Errors
/// `Refused` if the history isn't well formed, and `Memory`.
fn events_alone(alloc: Global, bytes: &[u8]) -> Result<Events, BuildError>
    requires { length bytes.now ≤ MAX_INPUT }
    ensures ok { IfOk result (AreTaken (history_lines bytes.now)) }
    ensures err { IfErr result (IsNoHistory (history_lines bytes.now)) }
{
    let mut events = Events::none(alloc);
    let mut start = Some(FIRST);
    while let Some(at) = start {
        let Block { spans, next } = next_block(alloc, bytes, at)?;
        take_lines(&mut events, read_part(alloc, bytes, &spans)?)?;
        start = next;
    }
    Ok(events)
}

/// Has another thread read the block of lines that begins at this place, and meanwhile takes in those that
/// were read before. On one processor it does one after the other.
///
/// # Errors
/// `Refused` if a line is faulty of those that were read before, and `Memory`.
fn read_and_take<'a>(
    rt: &'a (impl Threads + Sync),
    bytes: &'a [u8],
    start: Start,
    events: &mut Events,
    mut parts: Vec<Vec<AnyLine>>,
) -> Result<Ahead, BuildError>
    requires short { length bytes.now ≤ MAX_INPUT }
    requires start { IsStart bytes.now start }
    ensures read { IfOk result (IsReadAhead bytes.now start) }
    ensures taken { OnOk result (Takes (read_in parts.items) events.old events.new) }
    ensures refused { IfErr result (Refuses (read_in parts.items) events.old) }
{
    let alloc = *parts.allocator();
    if has_one_processor(rt) {
        take_parts(events, parts)?;
        return Ok(read_next(rt, alloc, bytes, start)?);
    }
    let (read, taken) = both_mut(
        rt,
        &mut ||
            requires { (length bytes.now ≤ MAX_INPUT) × IsStart bytes.now start }
        { read_next(rt, alloc, bytes, start) },
        &mut || take_parts(events, replace(&mut parts, Vec::new(alloc))),
    );
    taken?;
    Ok(read?)
}

/// The block of lines that begins at this place, read. Several threads read many lines.
fn read_next(
    rt: &(impl Threads + Sync),
    alloc: Global,
    bytes: &[u8],
    start: Start,
) -> Result<Ahead, AllocError>
    requires short { length bytes.now ≤ MAX_INPUT }
    requires start { IsStart bytes.now start }
    ensures { IfOk result (IsReadAhead bytes.now start) }
{
    let Block { spans, next } = next_block(alloc, bytes, start)?;
    let parts = read_block(rt, alloc, bytes, &spans)?;
    Ok(Ahead { parts, next })
}

/// What the lines at some spans say, in parts. Several threads read many lines.
fn read_block(
    rt: &(impl Threads + Sync),
    alloc: Global,
    bytes: &[u8],
    spans: &[Span],
) -> Result<Vec<Vec<AnyLine>>, AllocError>
    requires { All (IsWithin bytes.now) spans.now }
    ensures { IfOk result (λ parts. read_in parts.items ≡ map (meant_at bytes.now) spans.now) }
{
    map_parts(
        rt,
        alloc,
        spans,
        // One more, so that no thread gets the few that a division leaves over.
        share_size(rt, spans.len(), FEWEST_LINES).saturating_add(1),
        |part: &[Span]| -> Result<Vec<AnyLine>, AllocError>
            requires { All (IsWithin bytes.now) part.now }
            ensures { IfOk result (λ lines. lines.items ≡ map (meant_at bytes.entry.now) part.now) }
        { read_part(alloc, bytes, part) },
    )
}

/// What the lines at some spans say, in order.
fn read_part(alloc: Global, bytes: &[u8], spans: &[Span]) -> Result<Vec<AnyLine>, AllocError>
    requires { All (IsWithin bytes.now) spans.now }
    ensures { IfOk result (λ lines. lines.items ≡ map (meant_at bytes.now) spans.now) }
{
    let mut lines = Vec::with_capacity(alloc, spans.len())?;
    for span in spans {
        lines.push(read_span(alloc, bytes, *span)?)?;
    }
    Ok(lines)
}

/// What the line at a span says, or its fault.
fn read_span(alloc: Global, bytes: &[u8], span: Span) -> Result<AnyLine, AllocError>
    requires { IsWithin bytes.now span }
    ensures { IfOk result (λ line. line ≡ meant_at bytes.now span) }
{
    match read_event(
        alloc,
        &bytes[span.from..span.to],
        span.line,
        Operations::WithCas,
    ) {
        Ok(event) => Ok(Ok(event)),
        Err(LineError::Fault(fault)) => Ok(Err(fault)),
        Err(LineError::Memory) => Err(AllocError),
    }
}

/// Takes in the events of lines that were read in parts.
///
/// # Errors
/// `Refused` if a line is faulty, and `Memory`.
fn take_parts(events: &mut Events, parts: Vec<Vec<AnyLine>>) -> Result<(), BuildError>
    ensures ok { OnOk result (Takes (read_in parts.items) events.old events.new) }
    ensures err { IfErr result (Refuses (read_in parts.items) events.old) }
{
    for part in parts {
        take_lines(events, part)?;
    }
    Ok(())
}

/// Takes in the events of some lines.
///
/// # Errors
/// `Refused` if a line is faulty, and `Memory`.
fn take_lines(events: &mut Events, lines: Vec<AnyLine>) -> Result<(), BuildError>
    ensures ok { OnOk result (Takes lines.items events.old events.new) }
    ensures err { IfErr result (Refuses lines.items events.old) }
{
    for line in lines {
        take_line(events, line)?;
    }
    Ok(())
}

/// Takes in the event of a line.
///
/// # Errors
/// `Refused` if the line is faulty, and `Memory`.
fn take_line(events: &mut Events, line: AnyLine) -> Result<(), BuildError>
    ensures ok { OnOk result (Takes (line ∷ []) events.old events.new) }
    ensures err { IfErr result (Refuses (line ∷ []) events.old) }
{
    match line {
        Ok(event) => events.take(event),
        Err(fault) => Err(BuildError::Refused(LineRefusal {
            line: fault.line,
            reason: Reason::Faulty(fault.kind),
        })),
    }
}
