//! The lines of an input by blocks: where those of one stand, and where the next one begins.
ghost use Rattle.std.specs.Prelude.{◌≡◌, ◌≤◌, ◌+◌, ◌++◌, ◌∷◌, [], length, IfOk, OnOk};
ghost use Rattle.std.specs.Prelude.{if◌then◌else◌, slice_range};
ghost use Rattle.history_text.specs.declared.limits.TheConstants.{MAX_INPUT};
ghost use Rattle.history_text.specs.Lines.{is_blank as is_blank_line};
ghost use Rattle.reg_intake.specs.CasHistory.Blocks.{IsBlock};

use crate::block::BLOCK;
use history_text::Span;
use memchr::memchr;
use std::alloc::{AllocError, Global};

/// How many lines a block has at most that aren't blank: enough for several threads to share them, and few
/// enough that those read ahead take little memory.
const LINES_PER_BLOCK: usize = 16_384;

/// Where a line begins.
#[derive(Clone, Copy, Debug, PartialEq, Eq)]
pub(crate) struct Start {
    /// The line's number, from 1.
    pub(crate) line: u32,
    /// The place of its first byte, from 0.
    pub(crate) from: usize,
}

/// Some lines in order.
#[derive(Debug, Drop)]
pub(crate) struct Block {
    /// Where those that aren't blank stand.
    pub(crate) spans: Vec<Span>,
    /// Where the line after them begins, if there is one.
    pub(crate) next: Option<Start>,
}

/// The block of lines that begins at this place. It ends with the line that comes to as many bytes as are
/// pulled at once, if not before.
///
/// The error says that memory ran out.
pub(crate) fn next_block(alloc: Global, bytes: &[u8], start: Start) -> Result<Block, AllocError>
    requires short { length bytes.now ≤ MAX_INPUT }
    requires within { start.from ≤ length bytes.now }
    requires few { start.line ≤ start.from + 1 }
    ensures { IfOk result (IsBlock bytes.now start) }
{
    let mut spans = Vec::new(alloc);
    let Start { mut line, mut from } = start;
    let limit = from + BLOCK;
    while spans.len() < LINES_PER_BLOCK && from < limit {
        let Some(count) = memchr(b'\n', &bytes[from..]) else {
            let to = bytes.len();
            add(&mut spans, bytes, Span { line, from, to })?;
            return Ok(Block { spans, next: None });
        };
        let to = from + count;
        add(&mut spans, bytes, Span { line, from, to })?;
        line += 1;
        from = to + 1;
    }
    let next = Some(Start { line, from });
    Ok(Block { spans, next })
}

/// Adds a line, unless it is blank.
fn add(spans: &mut Vec<Span>, bytes: &[u8], span: Span) -> Result<(), AllocError>
    requires order { span.from ≤ span.to }
    requires within { span.to ≤ length bytes.now }
    ensures { OnOk result (spans.new.items ≡ spans.old.items
        ++ (if is_blank_line (slice_range bytes.now span.from span.to) then [] else span ∷ [])) }
{
    if !is_blank(&bytes[span.from..span.to]) {
        spans.push(span)?;
    }
    Ok(())
}

fn is_blank(bytes: &[u8]) -> bool
    ensures { result ≡ is_blank_line bytes.now }
{
    bytes
        .iter()
        .all(|byte| *byte == b' ' || *byte == b'\t' || *byte == b'\r')
}
