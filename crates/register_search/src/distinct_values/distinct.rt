//! Which registers zones can decide.
ghost use Rattle.std.specs.Prelude.{◌≡◌, ◌∷◌, ◌++◌, [], ℕ, List, slice_get, IfOk, IsTrue, Some, true};
ghost use Rattle.history_model.specs.declared.act.Act.TheVariants.{Write};
ghost use Rattle.history_model.specs.declared.operation.Operation.{Operation as AnOperation};
ghost use Rattle.history_model.specs.Acts.{is_plain};
ghost use Rattle.register_search.specs.DistinctValues.SomeOperations.{ArePlain};
ghost use Rattle.register_search.specs.DistinctValues.WrittenOnce.{AreWrittenOnce, HasWritten};

use crate::value_numbers::ValueNumbers;
use history_model::{Act, Operation};
use history_text::Val;
use std::alloc::{AllocError, Global};

/// Whether the operations are reads and writes, and no value is written twice, nor null.
pub(crate) fn has_distinct_values(alloc: Global, ops: &[Operation]) -> Result<bool, AllocError>
    ensures plain { IfOk result (λ is. IsTrue is → ArePlain ops.now) }
    ensures once { IfOk result (λ is. IsTrue is → AreWrittenOnce ops.now) }
{
    if are_plain(ops) {
        are_written_once(alloc, ops)
    } else {
        Ok(false)
    }
}

/// Whether the operations are reads and writes.
fn are_plain(ops: &[Operation]) -> bool
    ensures { IsTrue result → (k : ℕ) (a : AnOperation) → slice_get ops.now k ≡ Some a
        → is_plain a.act ≡ true }
{
    for op in ops {
        if !is_read_or_write(op.act) {
            return false;
        }
    }
    true
}

/// Whether an act is a read or a write.
fn is_read_or_write(act: Act) -> bool
    ensures { result ≡ is_plain act }
{
    match act {
        Act::Read(_) => true,
        Act::Write(_) => true,
        Act::Cas { .. } => false,
        Act::CasUnless { .. } => false,
        Act::Miss { .. } => false,
    }
}

/// Whether no value is written twice, nor null, which the register has at first.
fn are_written_once(alloc: Global, ops: &[Operation]) -> Result<bool, AllocError>
    ensures { IfOk result (λ is. IsTrue is → AreWrittenOnce ops.now) }
{
    let mut written = ValueNumbers::new(alloc, 0);
    for op in ops {
        let is_new = add_written(&mut written, op)?;
        if !is_new {
            return Ok(false);
        }
    }
    Ok(true)
}

/// Adds what one more operation writes; false if that is there, or null.
fn add_written(written: &mut ValueNumbers, op: &Operation) -> Result<bool, AllocError>
    ensures { IfOk result (λ is. IsTrue is → (ops : List AnOperation) → HasWritten ops written.old
        → HasWritten (ops ++ (op.now ∷ [])) written.new) }
{
    match op.act {
        Act::Write(value) => add_value(written, value),
        Act::Read(_) => Ok(true),
        Act::Cas { .. } => Ok(true),
        Act::CasUnless { .. } => Ok(true),
        Act::Miss { .. } => Ok(true),
    }
}

/// Adds a written value; false if it is there, or null.
fn add_value(written: &mut ValueNumbers, value: Val) -> Result<bool, AllocError>
    ensures { IfOk result (λ is. IsTrue is → (ops : List AnOperation) (a : AnOperation) → a.act ≡ Write value
        → HasWritten ops written.old → HasWritten (ops ++ (a ∷ [])) written.new) }
{
    match value {
        Val::Int(number) => written.insert(number),
        Val::Null => Ok(false),
    }
}
