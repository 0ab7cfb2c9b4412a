//! What a caller in code gets: the values of a report, of which its bytes are the text.
use crate::regcheck::rows::{FIRST_BY_APPEARANCE, Report, SECOND_OF_THREE, TWO_FAULTY, TWO_WRITES};
use crate::regcheck::settings::{first_settings, settings};
use reg_report::{OpenGate, Refusal, Settings, check, check_alone, text};
use std::alloc::{AllocError, Global};
use std::process::Abort;
use std::random::RandomSource;
use std::test::Fail;
use std::thread::Threads;

// The text of the values that `check` gives, or the number of its refusal.
fn checked(
    rt: &(impl Threads + RandomSource + AllocGlobal + Sync),
    input: &str,
    by: Settings,
) -> Result<Result<Vec<u8>, u8>, AllocError> {
    match check(rt, rt.alloc(), input.as_bytes(), by, &OpenGate) {
        Ok(report) => Ok(Ok(text(rt.alloc(), &report)?)),
        Err(refusal) => Ok(Err(refusal.number())),
    }
}

// The same of `check_alone`.
fn checked_alone(alloc: Global, input: &str) -> Result<Result<Vec<u8>, u8>, AllocError> {
    match check_alone(alloc, input.as_bytes()) {
        Ok(report) => Ok(Ok(text(alloc, &report)?)),
        Err(Refusal::NoRoom) => Err(AllocError),
        Err(refusal) => Ok(Err(refusal.number())),
    }
}

fn expect_values(
    rt: &(impl Threads + RandomSource + AllocGlobal + Abort + Sync),
    row: &Report,
    by: Settings,
) -> Result<(), Fail> {
    let (name, input, want, _) = *row;
    let Ok(bytes) = checked(rt, input, by)? else {
        return Err(Fail::from(name));
    };
    assert_eq!(rt; bytes.as_slice(), want.as_bytes(), "{name}");
    Ok(())
}

#[test]
fn values_of_whole_reports(rt: HostRuntime) -> Result<(), Fail> {
    for row in [&TWO_WRITES, &TWO_FAULTY] {
        for workers in 1..=3u32 {
            expect_values(&rt, row, settings(workers, 1)?)?;
        }
    }
    Ok(())
}

#[test]
fn values_of_first_reports(rt: HostRuntime) -> Result<(), Fail> {
    expect_values(&rt, &SECOND_OF_THREE, first_settings(2, 1)?)?;
    expect_values(&rt, &FIRST_BY_APPEARANCE, first_settings(2, 1)?)
}

#[test]
fn values_by_one_thread(rt: HostRuntime) -> Result<(), Fail> {
    for row in [&TWO_WRITES, &TWO_FAULTY] {
        let (name, input, want, _) = *row;
        let Ok(bytes) = checked_alone(rt.alloc(), input)? else {
            return Err(Fail::from(name));
        };
        assert_eq!(rt; bytes.as_slice(), want.as_bytes(), "{name}");
    }
    Ok(())
}

#[test]
fn no_values_of_a_refused_input(rt: HostRuntime) -> Result<(), Fail> {
    let input = "{\"process\":1,\"event\":\"reply\"}\n";
    let alone = checked_alone(rt.alloc(), input)?;
    let together = checked(&rt, input, settings(2, 1)?)?;
    assert!(rt; matches!(alone, Err(10)));
    assert!(rt; matches!(together, Err(10)));
    Ok(())
}
