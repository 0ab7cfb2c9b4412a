//! The last line of a report in parts. It is long if every register is atomic, so
//! several threads write the numbers of its order.
ghost use Rattle.std.specs.Prelude.{◌≡◌, ◌∷◌, Some, flat_map, IfOk};
ghost use Rattle.report_text.specs.Check.SummaryText.{yes_or_no_text, beginning_text, end_text, numbers_text};
ghost use Rattle.report_text.specs.JsonFields.Fields.{line_text};
ghost use Rattle.report_text.specs.Check.Text.{summary_json};

use crate::check::bytes::summary_line;
use crate::check::report::Report;
use itoa::Buffer;
use parallel::{NUMBERS_PER_PART, map_parts};
use std::alloc::{AllocError, Global};
use std::thread::Threads;

/// The numbers, each after a comma.
fn text_of(alloc: Global, numbers: &[u32]) -> Result<Vec<u8>, AllocError>
    ensures { IfOk result (λ text. text.items ≡ numbers_text numbers.now) }
{
    let mut text = Vec::new(alloc);
    let mut buffer = Buffer::new();
    for number in numbers {
        text.push(b',')?;
        text.extend_from_slice(buffer.format(*number).as_bytes())?;
    }
    Ok(text)
}

/// The same text in parts, in order, each written by one thread.
fn text_in_parts(
    rt: &(impl Threads + Sync),
    alloc: Global,
    numbers: &[u32],
) -> Result<Vec<Vec<u8>>, AllocError>
    ensures { IfOk result (λ parts. flat_map (λ part. part.items) parts.items ≡ numbers_text numbers.now) }
{
    map_parts(
        rt,
        alloc,
        numbers,
        NUMBERS_PER_PART,
        |part: &[u32]| -> Result<Vec<u8>, AllocError>
            ensures { IfOk result (λ text. text.items ≡ numbers_text part.now) }
        { text_of(alloc, part) },
    )
}

fn yes_or_no(yes: bool) -> &'static str
    ensures { result.now ≡ yes_or_no_text yes }
{
    if yes { "yes" } else { "no" }
}

/// The last line up to the first number of its order.
fn beginning(alloc: Global, report: &Report, first: u32) -> Result<Vec<u8>, AllocError>
    ensures { IfOk result (λ text.
        text.items ≡ beginning_text report.now.atomic report.now.operations first) }
{
    let atomic = yes_or_no(report.atomic);
    let operations = report.operations;
    let text = format!(in alloc;
        r#"{{"atomic":"{atomic}","operations":{operations},"order":[{first}"#
    )?;
    Ok(text.into_bytes())
}

/// The rest of the last line, after the numbers of its order, and its line feed.
fn end(alloc: Global, registers: u32) -> Result<Vec<u8>, AllocError>
    ensures { IfOk result (λ text. text.items ≡ end_text registers) }
{
    let text = format!(in alloc; "],\"registers\":{registers}}}\n")?;
    Ok(text.into_bytes())
}

/// The last line and its line feed in parts, if the report has an
/// order that begins with the operation `first`.
fn ordered(
    rt: &(impl Threads + Sync),
    alloc: Global,
    report: &Report,
    first: u32,
    others: &[u32],
) -> Result<Vec<Vec<u8>>, AllocError>
    requires { report.now.order ≡ Some (first ∷ others.now) }
    ensures { IfOk result (λ parts. flat_map (λ part. part.items) parts.items
        ≡ line_text (summary_json report.now)) }
{
    let mut parts = Vec::new(alloc);
    parts.push(beginning(alloc, report, first)?)?;
    parts.append(&mut text_in_parts(rt, alloc, others)?)?;
    parts.push(end(alloc, report.registers)?)?;
    Ok(parts)
}

/// The last line and its line feed as one part.
fn unordered(alloc: Global, report: &Report) -> Result<Vec<Vec<u8>>, AllocError>
    ensures { IfOk result (λ parts. flat_map (λ part. part.items) parts.items
        ≡ line_text (summary_json report.now)) }
{
    let mut line = summary_line(alloc, report)?;
    line.push(b'\n')?;
    let mut parts = Vec::new(alloc);
    parts.push(line)?;
    Ok(parts)
}

/// The last line of a report and its line feed in parts, in order.
///
/// # Errors
/// If memory runs out.
pub fn summary_in_parts(
    rt: &(impl Threads + Sync),
    alloc: Global,
    report: &Report,
) -> Result<Vec<Vec<u8>>, AllocError>
    ensures { IfOk result (λ parts. flat_map (λ part. part.items) parts.items
        ≡ line_text (summary_json report.now)) }
{
    match &report.order {
        Some(order) => match order.as_slice() {
            [first, others @ ..] => ordered(rt, alloc, report, *first, others),
            [] => unordered(alloc, report),
        },
        None => unordered(alloc, report),
    }
}
