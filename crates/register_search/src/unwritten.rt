//! Values that nobody gives the register.
ghost use Rattle.std.specs.Prelude.{◌≡◌, ◌↔◌, ◌∷◌, ◌++◌, [], IfOk, IfSome, IsTrue, List, ℕ};
ghost use Rattle.history_model.specs.declared.operation.Operation.{Operation as AnOperation};
ghost use Rattle.history_model.specs.Legal.{IsAtomic};
ghost use Rattle.history_model.specs.Operations.{initial_write};
ghost use Rattle.register_search.specs.Timeline.{AreCalls};
ghost use Rattle.register_search.specs.Unwritten.{HasGiven, IsFirstUnwritten, IsUnwritten};
ghost use Rattle.register_search.specs.Unwritten.{number_asked, number_given, number_needed};

use crate::value_numbers::ValueNumbers;
use history_model::{Act, Operation};
use history_text::Val;
use std::alloc::{AllocError, Global};

/// The place of the first operation, by call, that needs a value which nobody gives the register: a completed
/// read that gives it, or a cas that took place and found it. The initial write gives null.
pub fn first_unwritten(alloc: Global, ops: &[Operation]) -> Result<Option<usize>, AllocError>
    ensures first { IfOk result (λ o. IsFirstUnwritten ops.now o) }
    ensures no { IfOk result (λ o. IfSome o (λ _. (r : ℕ) → AreCalls r ops.now
        → IsAtomic (initial_write r ∷ ops.now) → ⊥)) }
{
    let given = given_numbers(alloc, ops)?;
    for (place, op) in ops.iter().enumerate() {
        if is_unwritten(op, &given) {
            return Ok(Some(place));
        }
    }
    Ok(None)
}

/// The numbers that the operations give the register.
fn given_numbers(alloc: Global, ops: &[Operation]) -> Result<ValueNumbers, AllocError>
    ensures { IfOk result (λ given. HasGiven ops.now given) }
{
    let mut given = ValueNumbers::new(alloc, 0);
    for op in ops {
        add_given(&mut given, op)?;
    }
    Ok(given)
}

/// Adds the number that one more operation gives the register.
fn add_given(given: &mut ValueNumbers, op: &Operation) -> Result<(), AllocError>
    ensures { IfOk result (λ _. (ops : List AnOperation) → HasGiven ops given.old
        → HasGiven (ops ++ (op.now ∷ [])) given.new) }
{
    match number_of(op.act) {
        Some(number) => {
            given.insert(number)?;
            Ok(())
        }
        None => Ok(()),
    }
}

/// The number that an act gives the register, if it gives one.
fn number_of(act: Act) -> Option<i64>
    ensures { result ≡ number_given act }
{
    match act {
        Act::Write(Val::Int(number)) => Some(number),
        Act::Cas {
            to: Val::Int(number),
            ..
        } => Some(number),
        Act::CasUnless {
            to: Val::Int(number),
            ..
        } => Some(number),
        Act::Write(Val::Null) => None,
        Act::Cas { to: Val::Null, .. } => None,
        Act::CasUnless { to: Val::Null, .. } => None,
        Act::Read(_) => None,
        Act::Miss { .. } => None,
    }
}

/// Whether the operation needs a number that isn't among the given ones.
fn is_unwritten(op: &Operation, given: &ValueNumbers) -> bool
    ensures { (ops : List AnOperation) → HasGiven ops given.now → (IsTrue result ↔ IsUnwritten ops op.now) }
{
    match needed(op) {
        Some(number) => !given.contains(number),
        None => false,
    }
}

/// The number that an operation needs, if it needs one.
fn needed(op: &Operation) -> Option<i64>
    ensures { result ≡ number_needed op.now }
{
    if op.completed { asked(op.act) } else { None }
}

/// The number that a read gives, or that a cas finds.
fn asked(act: Act) -> Option<i64>
    ensures { result ≡ number_asked act }
{
    match act {
        Act::Read(Some(Val::Int(number))) => Some(number),
        Act::Cas {
            from: Val::Int(number),
            ..
        } => Some(number),
        Act::Read(None) => None,
        Act::Read(Some(Val::Null)) => None,
        Act::Write(_) => None,
        Act::Cas {
            from: Val::Null,
            ..
        } => None,
        Act::CasUnless { .. } => None,
        Act::Miss { .. } => None,
    }
}
