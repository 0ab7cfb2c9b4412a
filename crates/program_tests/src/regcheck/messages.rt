//! What is said of a line that is refused, whatever its number.
ghost use Rattle.std.specs.Prelude.{◌<◌};

use history_model::{LineRefusal, Reason};
use history_text::{LineKind, Operations};
use reg_report::{Refusal, message};
use std::alloc::{AllocError, Global};
use std::process::Abort;
use std::test::Fail;

// Line numbers of each length, and those on both sides of a change of length.
const LINES: [u32; 21] = [
    1,
    2,
    4,
    5,
    9,
    10,
    11,
    25,
    99,
    100,
    999,
    1000,
    9999,
    10_000,
    99_999,
    100_000,
    999_999,
    1_000_000,
    1_048_577,
    67_108_864,
    4_294_967_295,
];

// The reasons that name no other line.
const ALONE: [Reason; 12] = [
    Reason::Faulty(LineKind::TooLong),
    Reason::Faulty(LineKind::NotJson),
    Reason::Faulty(LineKind::NotObject),
    Reason::Faulty(LineKind::BadProcess),
    Reason::Faulty(LineKind::BadEvent),
    Reason::Faulty(LineKind::BadOp(Operations::ReadsAndWrites)),
    Reason::Faulty(LineKind::BadRegister),
    Reason::Faulty(LineKind::BadValue),
    Reason::NoOpenCall,
    Reason::Disagreement,
    Reason::NoValue,
    Reason::TooMany,
];

// What is said of a line that is refused for this reason.
fn said(alloc: Global, line: u32, reason: Reason) -> Result<String, AllocError> {
    message(alloc, &Refusal::At(LineRefusal { line, reason }))
}

// The reasons that name another line, with this one.
fn naming(other: u32) -> [Reason; 3] {
    [
        Reason::OpenCall(other),
        Reason::WrittenBefore(other),
        Reason::AfterCrash(other),
    ]
}

// What is said of the first line for this reason, without the line's number.
fn words_of(alloc: Global, reason: Reason) -> Result<String, Fail> {
    let first = said(alloc, 1, reason)?;
    let (begin, words) = first.as_str().split_once(": ").ok_or("no reason")?;
    if begin != "line 1" {
        return Err(Fail::from("another line"));
    }
    Ok(String::from_str(alloc, words)?)
}

// What is said of a line for this reason.
fn expect_said(
    rt: &(impl AllocGlobal + Abort),
    line: u32,
    reason: Reason,
    words: &str,
) -> Result<(), Fail> {
    let alloc = rt.alloc();
    let want = format!(in alloc; "line {line}: {words}")?;
    assert_eq!(rt; said(alloc, line, reason)?.as_str(), want.as_str());
    Ok(())
}

// The same is said of each line for this reason.
fn expect_same(rt: &(impl AllocGlobal + Abort), reason: Reason) -> Result<(), Fail> {
    let words = words_of(rt.alloc(), reason)?;
    for line in LINES {
        expect_said(rt, line, reason, words.as_str())?;
    }
    Ok(())
}

// A refusal says the same of each line but for the number of the line.
#[test]
fn each_line_by_its_number(rt: HostRuntime) -> Result<(), Fail> {
    for reason in ALONE {
        expect_same(&rt, reason)?;
    }
    Ok(())
}

// What is said of each line for a reason that names this other line.
fn expect_other(
    rt: &(impl AllocGlobal + Abort),
    number: usize,
    begin: &str,
    other: u32,
) -> Result<(), Fail>
    requires { number < 3 }
{
    let words = format!(in rt.alloc(); "{begin} {other}")?;
    for line in LINES {
        expect_said(rt, line, naming(other)[number], words.as_str())?;
    }
    Ok(())
}

// And the same of each other line for one of the reasons that name another.
fn expect_others(rt: &(impl AllocGlobal + Abort), number: usize) -> Result<(), Fail>
    requires { number < 3 }
{
    let words = words_of(rt.alloc(), naming(1)[number])?;
    let (begin, end) = words.as_str().rsplit_once(' ').ok_or("no other line")?;
    assert_eq!(rt; end, "1");
    for other in LINES {
        expect_other(rt, number, begin, other)?;
    }
    Ok(())
}

// And the same of each other line but for that line's number, which comes last.
#[test]
fn each_other_line_by_its_number(rt: HostRuntime) -> Result<(), Fail> {
    for number in 0..3 {
        expect_others(&rt, number)?;
    }
    Ok(())
}
