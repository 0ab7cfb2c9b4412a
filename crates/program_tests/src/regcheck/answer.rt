//! What a run from memory to memory answers.
use reg_report::{Gate, MemSink, MemSource, Outcome, Refusal, Settings, message, run};
use std::alloc::AllocError;
use std::random::RandomSource;
use std::thread::Threads;

// The bytes of an answer: the report with its outcome, or what the refusal says with its number.
pub(crate) type Answer = (Vec<u8>, Result<Outcome, u8>);

// More bytes than any report here has.
const ROOM: usize = 4096;

// A run from memory to memory: the bytes that the sink took, and the outcome.
fn run_on(
    rt: &(impl Threads + RandomSource + AllocGlobal + Sync),
    input: &[u8],
    settings: Settings,
    gate: &(impl Gate + Sync),
) -> Result<(Vec<u8>, Outcome), Refusal> {
    let alloc = rt.alloc();
    let mut source = MemSource::new(input, 65_536, None);
    let mut sink = MemSink::new(alloc, ROOM, 65_536, false)?;
    let outcome = run(rt, alloc, &mut source, &mut sink, settings, gate)?;
    Ok((sink.taken().to_vec(alloc)?, outcome))
}

// What a run answers by these workers at this gate.
pub(crate) fn answered_by(
    rt: &(impl Threads + RandomSource + AllocGlobal + Sync),
    input: &[u8],
    settings: Settings,
    gate: &(impl Gate + Sync),
) -> Result<Answer, AllocError> {
    match run_on(rt, input, settings, gate) {
        Ok((report, outcome)) => Ok((report, Ok(outcome))),
        Err(refusal) => {
            let said = message(rt.alloc(), &refusal)?;
            Ok((said.into_bytes(), Err(refusal.number())))
        }
    }
}
