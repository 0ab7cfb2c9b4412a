//! Where the lines of an input stand.
ghost use Rattle.std.specs.Prelude.{All, ◌≡◌, ◌≤◌, ◌+◌, ◌++◌, ◌∷◌, [], length, map};
ghost use Rattle.std.specs.Prelude.{IfOk, OnOk, if◌then◌else◌, slice_range};
ghost use Rattle.history_text.specs.Lines.{AreWhole, IsWithin, line_spans, is_blank as is_blank_line};
ghost use Rattle.history_text.specs.Reading.{AreReadWhole, history_lines, reading_of};

use crate::limits::MAX_INPUT;
use crate::scan::is_space;
use memchr::memchr;
use std::alloc::{AllocError, Global};

/// Where a line that is not blank stands, its line feed left out.
#[derive(Clone, Copy, Debug, PartialEq, Eq)]
pub struct Span {
    /// The line's number, from 1.
    pub line: u32,
    /// The place of its first byte, from 0.
    pub from: usize,
    /// The place after its last byte.
    pub to: usize,
}

/// The whole lines at the front of some bytes, and where they end.
#[derive(Drop)]
pub struct WholeLines {
    /// Where those that are not blank stand, in order.
    pub spans: Vec<Span>,
    /// The number of the line that begins after the last line feed.
    pub next_line: u32,
    /// How many bytes they take up, line feeds included.
    pub byte_count: usize,
}

/// The lines that are not blank, in order. Blank lines have no span and still count; a line is blank
/// if it holds nothing but spaces, tabs and carriage returns.
///
/// The error says that memory ran out; nothing is kept then.
pub fn lines_of(alloc: Global, bytes: &[u8]) -> Result<Vec<Span>, AllocError>
    requires { length bytes.now ≤ MAX_INPUT }
    ensures lines { IfOk result (λ v. v.items ≡ line_spans bytes.now) }
    ensures within { IfOk result (λ v. All (IsWithin bytes.now) v.items) }
    ensures readings { IfOk result (λ v. map (reading_of bytes.now) v.items ≡ history_lines bytes.now) }
{
    Ok(whole_lines(alloc, bytes, 1, true)?.spans)
}

/// The whole lines at the front of some bytes, of which the first has number `first`. A
/// line is whole if its line feed is there. If `is_ended`, the input ends with these
/// bytes, and the last line is whole without one.
///
/// The error says that memory ran out; nothing is kept then.
pub fn whole_lines(
    alloc: Global,
    bytes: &[u8],
    first: u32,
    is_ended: bool,
) -> Result<WholeLines, AllocError>
    requires { first + length bytes.now ≤ MAX_INPUT + 1 }
    ensures whole { IfOk result (AreWhole bytes.now first is_ended) }
    ensures within { IfOk result (λ lines. All (IsWithin bytes.now) lines.spans.items) }
    ensures readings { IfOk result (AreReadWhole bytes.now first is_ended) }
{
    let mut spans = Vec::new(alloc);
    let mut line = first;
    let mut from = 0;
    while let Some(count) = memchr(b'\n', &bytes[from..]) {
        let to = from + count;
        add(&mut spans, bytes, Span { line, from, to })?;
        line += 1;
        from = to + 1;
    }
    if is_ended {
        let to = bytes.len();
        add(&mut spans, bytes, Span { line, from, to })?;
        from = to;
    }
    Ok(WholeLines {
        spans,
        next_line: line,
        byte_count: from,
    })
}

// Adds a line that is not blank.
fn add(spans: &mut Vec<Span>, bytes: &[u8], span: Span) -> Result<(), AllocError>
    requires order { span.from ≤ span.to }
    requires within { span.to ≤ length bytes.now }
    ensures spans { OnOk result (spans.new.items ≡ spans.old.items
        ++ (if is_blank_line (slice_range bytes.now span.from span.to) then [] else span ∷ [])) }
{
    if !is_blank(&bytes[span.from..span.to]) {
        spans.push(span)?;
    }
    Ok(())
}

fn is_blank(bytes: &[u8]) -> bool
    ensures { result ≡ is_blank_line bytes.now }
{
    bytes.iter().all(|byte| is_space(*byte))
}
