//! The write of the value of each completed read.
ghost use Rattle.std.specs.Prelude.{◌≡◌, ◌<◌, ◌^◌, length, IfOk, MatchResult};
ghost use Rattle.history_model.specs.declared.operation.Operation.{Operation as AnOperation};
ghost use Rattle.level_laws.specs.Causal.{IsWhole};
ghost use Rattle.level_laws.specs.CausalFault.{IsUnwrittenRead};
ghost use Rattle.causal_order.specs.SessionClocks.Sessions.{IsAt, IsFirstUnwritten, IsSourceAt};
ghost use Rattle.causal_order.specs.SessionClocks.Steps.{AreSources, AreValueWrites, found_in, read_by};

use crate::session_clocks::values::{ValueWrites, value_writes, write_of};
use history_model::{Act, Operation};
use history_text::Val;
use std::alloc::{AllocError, Global};

/// For each completed read the place of the write of its value, and none for every other operation; or the
/// place of the first completed read whose value nobody wrote.
pub(crate) fn sources(
    alloc: Global,
    ops: &[Operation],
) -> Result<Result<Vec<Option<u32>>, u32>, AllocError>
    requires whole { IsWhole ops.now }
    requires few { length ops.now < 2 ^ 22 }
    ensures { IfOk result (λ judged. MatchResult judged
        (λ sources. AreSources ops.now (length ops.now) sources.items)
        (λ read. IsFirstUnwritten ops.now read)) }
{
    let writes = value_writes(alloc, ops)?;
    let mut sources = Vec::with_capacity(alloc, ops.len())?;
    for place in 0..ops.len() {
        match source(ops, place as u32, &writes) {
            Ok(source) => sources.push(source)?,
            Err(read) => return Ok(Err(read)),
        }
    }
    Ok(Ok(sources))
}

/// The place of the write of the value of the operation at a place, if that is a completed read. The error is
/// that place, if nobody wrote it.
fn source(ops: &[Operation], place: u32, writes: &ValueWrites) -> Result<Option<u32>, u32>
    requires whole { IsWhole ops.now }
    requires place { place < length ops.now }
    requires writes { AreValueWrites ops.now (length ops.now) (found_in writes.now) }
    ensures { (a : AnOperation) → IsAt ops.now place a → MatchResult result (IsSourceAt ops.now a)
        (λ read. (read ≡ place) × IsUnwrittenRead ops.now a) }
{
    let op = &ops[place as usize];
    let Some(value) = value_read(op.act) else {
        return Ok(None);
    };
    match write_of(writes, op.register, value) {
        Some(write) => Ok(Some(write)),
        None => Err(place),
    }
}

/// The value that a read gives, if that is known.
fn value_read(act: Act) -> Option<Val>
    ensures { result ≡ read_by act }
{
    match act {
        Act::Read(value) => value,
        _ => None,
    }
}
