//! The writes of a register, by value.
ghost use Rattle.std.specs.Prelude.{◌≡◌, ◌↔◌, ℤ, length, IfOk, IsTrue, MatchOption, Some, true};
ghost use Rattle.history_text.specs.declared.event.Val.TheVariants.{Null, Int};
ghost use Rattle.history_model.specs.Acts.{given_by, is_plain};
ghost use Rattle.history_model.specs.Operations.{IsHistory};
ghost use Rattle.reg_levels.specs.Clusters.Places.{AreFew};
ghost use Rattle.reg_levels.specs.Clusters.Steps.{AreIntegerWrites, IsWriteFound, write_in};

use history_model::{Act, Operation};
use history_text::Val;
use std::alloc::{AllocError, Global};
use std::collections::BTreeMap;

/// Whether an operation writes null.
fn writes_null(op: &Operation) -> bool
    requires { is_plain op.now.act ≡ true }
    ensures { IsTrue result ↔ (given_by op.now.act ≡ Some Null) }
{
    match op.act {
        Act::Write(Val::Null) => true,
        _ => false,
    }
}

/// The integer that an operation writes, if it writes one.
fn integer_written(op: &Operation) -> Option<i64>
    requires { is_plain op.now.act ≡ true }
    ensures { MatchOption result ((n : ℤ) → given_by op.now.act ≡ Some (Int n) → ⊥)
        (λ n. given_by op.now.act ≡ Some (Int n)) }
{
    match op.act {
        Act::Write(Val::Int(value)) => Some(value),
        _ => None,
    }
}

/// The place of the write of null, if there is one: that of the initial write.
pub(crate) fn null_write(ops: &[Operation]) -> Option<u32>
    requires history { IsHistory ops.now }
    requires few { AreFew ops.now }
    ensures { IsWriteFound ops.now (length ops.now) Null result }
{
    for place in 0..ops.len() {
        if writes_null(&ops[place]) {
            return Some(place as u32);
        }
    }
    None
}

/// The places of the writes of integers.
pub(crate) fn integer_writes(
    alloc: Global,
    ops: &[Operation],
) -> Result<BTreeMap<i64, u32>, AllocError>
    requires history { IsHistory ops.now }
    requires few { AreFew ops.now }
    ensures { IfOk result (AreIntegerWrites ops.now (length ops.now)) }
{
    let mut writes = BTreeMap::new(alloc);
    for place in 0..ops.len() {
        if let Some(value) = integer_written(&ops[place]) {
            writes.insert(value, place as u32)?;
        }
    }
    Ok(writes)
}

/// The place of the write of a value, if there is one.
pub(crate) fn write_of(null: Option<u32>, integers: &BTreeMap<i64, u32>, value: Val) -> Option<u32>
    ensures { result ≡ write_in null integers.now value }
{
    match value {
        Val::Null => null,
        Val::Int(value) => integers.get(&value).copied(),
    }
}
