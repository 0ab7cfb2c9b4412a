//! Ends that give and take little at a time, and ends that fail.
ghost use Rattle.std.specs.Prelude.{◌≡◌, ◌<◌};

use crate::regcheck::expect::expect_eq;
use crate::regcheck::rows::READ_ONCE;
use crate::regcheck::settings::settings;
use history_model::{LineRefusal, Reason};
use history_text::LineKind;
use reg_report::{MemSink, MemSource, OpenGate, Outcome, Refusal, Sink, Source, run};
use std::fmt::Debug;
use std::process::Abort;
use std::random::RandomSource;
use std::test::Fail;
use std::thread::Threads;

// A new value, then the old one, while its write goes on.
const HISTORY: &str = r#"{"process":1,"event":"call","op":"write","register":"x","value":1}
{"process":1,"event":"reply"}
{"process":1,"event":"call","op":"write","register":"x","value":2}
{"process":2,"event":"call","op":"read","register":"x"}
{"process":2,"event":"reply","value":2}
{"process":2,"event":"call","op":"read","register":"x"}
{"process":2,"event":"reply","value":1}
{"process":1,"event":"reply"}
"#;

const REPORT: &str =
    r#"{"atomic":"no","fault":{"first":[1,4],"kind":"zones","second":[4,6],"writes":[1,3]},"inversion":[4,6],"pending":0,"reads":2,"register":"x","regular":"yes","safe":"yes","writes":2}
{"atomic":"no","operations":4,"registers":1}
"#;

// What a run answered, the bytes that the sink took, and the failures of the source and of the sink.
#[derive(Drop)]
struct Ran {
    answer: Result<Outcome, Refusal>,
    taken: Vec<u8>,
    failures: (u64, u64),
}

// A run over the history between these ends.
fn run_between(
    rt: &(impl Threads + RandomSource + AllocGlobal + Sync),
    mut source: MemSource<'_>,
    mut sink: MemSink,
) -> Result<Ran, Fail>
    requires source { source.failures ≡ 0 }
    requires sink { sink.failures ≡ 0 }
{
    let two = settings(2, 1)?;
    let answer = run(rt, rt.alloc(), &mut source, &mut sink, two, &OpenGate);
    Ok(Ran {
        answer,
        taken: sink.taken().to_vec(rt.alloc())?,
        failures: (source.failures(), sink.failures()),
    })
}

/// An answer, the bytes that the sink took, and the failures of the source and of the sink.
type Want<'a> = (Result<Outcome, Refusal>, &'a [u8], (u64, u64));

// A run came to this.
fn expect_ran(rt: &impl Abort, ran: &Ran, want: Want, of: &impl Debug) {
    let (answer, taken, failures) = want;
    expect_eq(rt, &ran.answer, &answer, of);
    expect_eq(rt, &ran.taken.as_slice(), &taken, of);
    expect_eq(rt, &ran.failures, &failures, of);
}

// So few bytes at a time are the bytes of the whole.
fn expect_whole(
    rt: &(impl Threads + RandomSource + AllocGlobal + Abort + Sync),
    pulled: usize,
    pushed: usize,
) -> Result<(), Fail>
    requires pulled { 0 < pulled }
    requires pushed { 0 < pushed }
{
    let source = MemSource::new(HISTORY.as_bytes(), pulled, None);
    let sink = MemSink::new(rt.alloc(), REPORT.len(), pushed, false)?;
    let ran = run_between(rt, source, sink)?;
    let want = (Ok(Outcome::NotAtomic), REPORT.as_bytes(), (0, 0));
    expect_ran(rt, &ran, want, &(pulled, pushed));
    Ok(())
}

// However few bytes come at a time, they are the bytes of the whole.
#[test]
fn bytes_a_few_at_a_time(rt: HostRuntime) -> Result<(), Fail> {
    for pulled in 1..=HISTORY.len() {
        expect_whole(&rt, pulled, 10)?;
    }
    for pushed in [1, 7, 4096] {
        expect_whole(&rt, 4096, pushed)?;
    }
    Ok(())
}

// A run over the history, a byte at a time, from a source that fails at this pull.
fn run_failing(
    rt: &(impl Threads + RandomSource + AllocGlobal + Sync),
    pull: u64,
) -> Result<Ran, Fail> {
    let source = MemSource::new(HISTORY.as_bytes(), 1, Some(pull));
    let sink = MemSink::new(rt.alloc(), 4096, 4096, false)?;
    run_between(rt, source, sink)
}

// A run whose source fails gives nothing to its sink.
fn expect_input_failed(
    rt: &(impl Threads + RandomSource + AllocGlobal + Abort + Sync),
    pull: u64,
) -> Result<(), Fail> {
    let ran = run_failing(rt, pull)?;
    let want = (Err(Refusal::InputFailed), "".as_bytes(), (1, 0));
    expect_ran(rt, &ran, want, &pull);
    Ok(())
}

// A source that would fail only after its end doesn't fail.
fn expect_answered(
    rt: &(impl Threads + RandomSource + AllocGlobal + Abort + Sync),
    pull: u64,
) -> Result<(), Fail> {
    let ran = run_failing(rt, pull)?;
    expect_eq(rt, &ran.answer, &Ok(Outcome::NotAtomic), &pull);
    Ok(())
}

// A source that fails at any of its pulls, the one that would tell the end too.
#[test]
fn failing_source(rt: HostRuntime) -> Result<(), Fail> {
    let last = HISTORY.len() as u64 + 1;
    for pull in 1..=last {
        expect_input_failed(&rt, pull)?;
    }
    expect_answered(&rt, last + 1)
}

// A sink with room for this many bytes of the report has exactly those.
fn expect_full(
    rt: &(impl Threads + RandomSource + AllocGlobal + Abort + Sync),
    taken: &[u8],
) -> Result<(), Fail> {
    let room = taken.len();
    let source = MemSource::new(HISTORY.as_bytes(), 4096, None);
    let sink = MemSink::new(rt.alloc(), room, 10, false)?;
    let ran = run_between(rt, source, sink)?;
    let want = (Err(Refusal::OutputFailed), taken, (0, 1));
    expect_ran(rt, &ran, want, &room);
    Ok(())
}

// A sink that is full before the whole report is out has exactly what it had room for.
#[test]
fn full_sink(rt: HostRuntime) -> Result<(), Fail> {
    for room in 0..REPORT.len() {
        expect_full(&rt, &REPORT.as_bytes()[..room])?;
    }
    Ok(())
}

// A sink that fails at its flush has the whole report.
fn expect_flush_failed(
    rt: &(impl Threads + RandomSource + AllocGlobal + Abort + Sync),
) -> Result<(), Fail> {
    let source = MemSource::new(HISTORY.as_bytes(), 4096, None);
    let sink = MemSink::new(rt.alloc(), REPORT.len(), 4096, true)?;
    let ran = run_between(rt, source, sink)?;
    let want = (Err(Refusal::OutputFailed), REPORT.as_bytes(), (0, 1));
    expect_ran(rt, &ran, want, &"a flush that fails");
    Ok(())
}

// A sink that fails at its flush has the whole report, and the run says that it failed.
#[test]
fn failing_flush(rt: HostRuntime) -> Result<(), Fail> {
    expect_flush_failed(&rt)
}

// A run over a write and a read of it is refused, and its sink took these bytes.
fn expect_ten_bytes(
    rt: &(impl Threads + RandomSource + AllocGlobal + Abort + Sync),
    fail_at: Option<u64>,
    refusal: Refusal,
    taken: &str,
) -> Result<(), Fail> {
    let source = MemSource::new(READ_ONCE.as_bytes(), 4096, fail_at);
    let sink = MemSink::new(rt.alloc(), 10, 4096, false)?;
    let ran = run_between(rt, source, sink)?;
    expect_eq(rt, &ran.answer, &Err(refusal), &fail_at);
    expect_eq(rt, &ran.taken.as_slice(), &taken.as_bytes(), &fail_at);
    Ok(())
}

// A write and a read of it into a sink that takes ten bytes, and from a source that fails at once.
#[test]
fn ten_bytes(rt: HostRuntime) -> Result<(), Fail> {
    expect_ten_bytes(&rt, None, Refusal::OutputFailed, r#"{"atomic":"#)?;
    expect_ten_bytes(&rt, Some(1), Refusal::InputFailed, "")
}

// An input that is refused for this line leaves the sink empty.
fn expect_refused(
    rt: &(impl Threads + RandomSource + AllocGlobal + Abort + Sync),
    input: &str,
    line: u32,
    kind: LineKind,
) -> Result<(), Fail> {
    let source = MemSource::new(input.as_bytes(), 1, None);
    let sink = MemSink::new(rt.alloc(), 4096, 1, false)?;
    let ran = run_between(rt, source, sink)?;
    let reason = Reason::Faulty(kind);
    let refusal = Refusal::At(LineRefusal { line, reason });
    let want = (Err(refusal), "".as_bytes(), (0, 0));
    expect_ran(rt, &ran, want, &line);
    Ok(())
}

// An input that is refused leaves the sink empty.
#[test]
fn refused_input(rt: HostRuntime) -> Result<(), Fail> {
    expect_refused(&rt, "{\n", 1, LineKind::NotJson)?;
    expect_refused(&rt, "\n[]\n", 2, LineKind::NotObject)
}
