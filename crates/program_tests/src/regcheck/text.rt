//! Lines of inputs: where they stand, and that many of them stay in order.
use crate::regcheck::expect::expect_eq;
use history_text::{
    LineEvent, LineFault, MAX_INPUT, Name, Span, lines_of, read_lines, whole_lines,
};
use std::alloc::{AllocError, Global};
use std::process::Abort;
use std::test::Fail;
use std::thread::Threads;

// Names of one length that differ are different, whether they are kept within the name or in memory.
#[test]
fn names_give_their_text(rt: HostRuntime) -> Result<(), Fail> {
    let alloc = rt.alloc();
    for (text, same_length) in [
        ("x", "X"),
        ("fifteen_letters", "fifteen_letterS"),
        ("sixteen__letters", "sixteen__letterS"),
    ] {
        let name = Name::new(alloc, text)?;
        assert_eq!(rt; name.as_str(), text);
        assert!(rt; name == Name::new(alloc, text)?, "{text}");
        assert!(rt; name != Name::new(alloc, same_length)?, "{text}");
    }
    Ok(())
}

// Each span as `line:from-to`.
fn show_spans(shown: &mut String, spans: &[Span]) -> Result<(), Fail> {
    for span in spans {
        let Span { line, from, to } = *span;
        write!(shown, "{line}:{from}-{to} ")?;
    }
    Ok(())
}

// The spans of the lines of an input.
fn spans_of(rt: &impl Abort, alloc: Global, text: &str) -> Result<String, Fail> {
    assert!(rt; text.len() <= MAX_INPUT);
    let mut shown = String::new(alloc);
    show_spans(&mut shown, &lines_of(alloc, text.as_bytes())?)?;
    Ok(shown)
}

// Inputs, and where their lines stand.
fn inputs() -> &'static [(&'static str, &'static str)] {
    &[
        ("", ""),
        ("\n", ""),
        (" \n\t\r\n\n\r", ""),
        ("one\n", "1:0-3 "),
        ("one", "1:0-3 "),
        ("one\ntwo\n", "1:0-3 2:4-7 "),
        ("one\r\n\ntwo\r\n\nthree", "1:0-4 3:6-10 5:12-17 "),
    ]
}

fn expect_spans(rt: &(impl AllocGlobal + Abort)) -> Result<(), Fail> {
    for (text, want) in inputs() {
        let got = spans_of(rt, rt.alloc(), text)?;
        expect_eq(rt, &got.as_str(), want, text);
    }
    Ok(())
}

#[test]
fn lines_of_inputs(rt: HostRuntime) -> Result<(), Fail> {
    expect_spans(&rt)
}

// The whole lines, if the first has number 7, and where the next one begins.
fn shown_whole(
    rt: &impl Abort,
    alloc: Global,
    bytes: &[u8],
    is_ended: bool,
) -> Result<String, Fail> {
    assert!(rt; bytes.len() <= 1_000);
    let mut shown = String::new(alloc);
    let whole = whole_lines(alloc, bytes, 7, is_ended)?;
    show_spans(&mut shown, &whole.spans)?;
    write!(shown, "{}:{}", whole.next_line, whole.byte_count)?;
    Ok(shown)
}

// Bytes, whether they are the last, and what is shown of them.
fn byte_rows() -> &'static [(&'static str, bool, &'static str)] {
    &[
        ("", false, "7:0"),
        ("", true, "7:0"),
        ("a", false, "7:0"),
        ("a", true, "7:0-1 7:1"),
        ("a\n", false, "7:0-1 8:2"),
        ("a\n", true, "7:0-1 8:2"),
        ("a\n\nb\nc", false, "7:0-1 9:3-4 10:5"),
        ("a\n\nb\nc", true, "7:0-1 9:3-4 10:5-6 10:6"),
    ]
}

fn expect_whole(rt: &(impl AllocGlobal + Abort)) -> Result<(), Fail> {
    for (text, is_ended, want) in byte_rows() {
        let got = shown_whole(rt, rt.alloc(), text.as_bytes(), *is_ended)?;
        expect_eq(rt, &got.as_str(), want, &(*text, *is_ended));
    }
    Ok(())
}

#[test]
fn whole_lines_of_bytes(rt: HostRuntime) -> Result<(), Fail> {
    expect_whole(&rt)
}

// Adds a reply, every seventh torn, and what is read of it: its line with its process or its fault.
fn add_reply(text: &mut String, want: &mut String, line: u32) -> Result<(), Fail> {
    if line % 7 == 0 {
        text.push_str("{\"process\":\n")?;
        write!(want, "{line}: 2, ")?;
        return Ok(());
    }
    let process = u32::MAX.saturating_sub(line);
    write!(text, "{{\"process\":{process},\"event\":\"reply\"}}\n")?;
    write!(want, "{line}={process}, ")?;
    Ok(())
}

// So many replies, and what is read of them.
fn replies(alloc: Global, count: u32) -> Result<(String, String), Fail> {
    let mut text = String::new(alloc);
    let mut want = String::new(alloc);
    for line in 1..=count {
        add_reply(&mut text, &mut want, line)?;
    }
    Ok((text, want))
}

// What was read of the lines, in order: each with its process or its fault.
fn told(alloc: Global, lines: &[Result<LineEvent, LineFault>]) -> Result<String, Fail> {
    let mut told = String::new(alloc);
    for read in lines {
        match read {
            Ok(LineEvent { line, process, .. }) => write!(told, "{line}={process}, ")?,
            Err(fault) => write!(told, "{}: {}, ", fault.line, fault.number())?,
        }
    }
    Ok(told)
}

// What was read of the bytes.
fn told_of(rt: &(impl Threads + Sync), alloc: Global, bytes: &[u8]) -> Result<String, Fail> {
    if bytes.len() > MAX_INPUT {
        return Err(Fail::from("too long"));
    }
    told(alloc, &read_lines(rt, alloc, bytes)?)
}

// So many lines stay in order, whatever threads read them.
fn expect_in_order(
    rt: &(impl Threads + AllocGlobal + Abort + Sync),
    count: u32,
) -> Result<(), Fail> {
    let (text, want) = replies(rt.alloc(), count)?;
    let got = told_of(rt, rt.alloc(), text.as_bytes())?;
    expect_eq(rt, &(got == want), &true, &count);
    Ok(())
}

// Lines of one part, of two, and for as many threads as there are.
fn expect_all_in_order(rt: &(impl Threads + AllocGlobal + Abort + Sync)) -> Result<(), Fail> {
    expect_in_order(rt, 100)?;
    expect_in_order(rt, 10_000)?;
    expect_in_order(rt, 140_000)
}

#[test]
fn many_lines_stay_in_order(rt: HostRuntime) -> Result<(), Fail> {
    expect_all_in_order(&rt)
}
