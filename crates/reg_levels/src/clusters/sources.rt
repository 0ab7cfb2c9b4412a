//! The write of each operation: its own, or the one whose value a read has.
ghost use Rattle.std.specs.Prelude.{◌≡◌, ◌<◌, length, IfOk, MatchResult, true};
ghost use Rattle.history_text.specs.declared.event.Val.TheVariants.{Null};
ghost use Rattle.history_model.specs.Acts.{is_plain};
ghost use Rattle.history_model.specs.Operations.{IsHistory, value_of};
ghost use Rattle.history_model.specs.declared.operation.Operation.{Operation as AnOperation};
ghost use Rattle.reg_zones.specs.Faults.{IsFirstUnwritten, IsUnwritten};
ghost use Rattle.reg_levels.specs.Clusters.Places.{AreFew, IsAt, IsByCall};
ghost use Rattle.reg_levels.specs.Clusters.Steps.{AreIntegerWrites, AreSources, IsSource, IsWriteFound};

use crate::clusters::writes::{integer_writes, null_write, write_of};
use history_model::{Act, Operation};
use history_text::Val;
use std::alloc::{AllocError, Global};
use std::collections::BTreeMap;

/// For each operation the place of the write of its value, if it isn't a pending read; or the place of the
/// first completed read whose value nobody wrote.
pub(crate) fn sources(
    alloc: Global,
    ops: &[Operation],
) -> Result<Result<Vec<Option<u32>>, u32>, AllocError>
    requires history { IsHistory ops.now }
    requires by_call { IsByCall ops.now }
    requires few { AreFew ops.now }
    ensures { IfOk result (λ judged. MatchResult judged
        (λ sources. AreSources ops.now (length ops.now) sources.items)
        (λ read. (r : AnOperation) × IsAt ops.now read r × IsFirstUnwritten ops.now r)) }
{
    let null = null_write(ops);
    let integers = integer_writes(alloc, ops)?;
    let mut sources = Vec::with_capacity(alloc, ops.len())?;
    for place in 0..ops.len() {
        match source(ops, place as u32, null, &integers) {
            Ok(source) => sources.push(source)?,
            Err(read) => return Ok(Err(read)),
        }
    }
    Ok(Ok(sources))
}

/// The place of the write of the value of the operation at a place, if it isn't a pending read. The error is
/// that place, if nobody wrote the value of a completed read.
fn source(
    ops: &[Operation],
    place: u32,
    null: Option<u32>,
    integers: &BTreeMap<i64, u32>,
) -> Result<Option<u32>, u32>
    requires history { IsHistory ops.now }
    requires place { place < length ops.now }
    requires null { IsWriteFound ops.now (length ops.now) Null null }
    requires integers { AreIntegerWrites ops.now (length ops.now) integers.now }
    ensures { (a : AnOperation) → IsAt ops.now place a → MatchResult result (IsSource ops.now a)
        (λ read. (read ≡ place) × IsUnwritten ops.now a) }
{
    let op = &ops[place as usize];
    if op.act.changes() {
        return Ok(Some(place));
    }
    match value(op) {
        None => Ok(None),
        Some(value) => match write_of(null, integers, value) {
            Some(write) => Ok(Some(write)),
            None => Err(place),
        },
    }
}

/// The value that an operation writes or reads, if it has one.
fn value(op: &Operation) -> Option<Val>
    requires { is_plain op.now.act ≡ true }
    ensures { result ≡ value_of op.now }
{
    match op.act {
        Act::Read(value) => value,
        Act::Write(value) => Some(value),
        _ => None,
    }
}
