//! The canonical order of a register without fault, and the fault of any other.
ghost use Rattle.std.specs.Prelude.{◌≡◌, ◌<◌, false, length, AllPairs, IfOk, IsPermutation, MatchResult};
ghost use Rattle.history_model.specs.Legal.{IsAtomic};
ghost use Rattle.history_model.specs.Operations.{of_register, operations};
ghost use Rattle.reg_zones.specs.Entries.{ComesFirst, IsRanking, entries_placed, same_place};
ghost use Rattle.reg_zones.specs.Faults.{HasNoFault, IsFault};
ghost use Rattle.reg_zones.specs.Order.{IsOrder};

use crate::atomic::verdict;
use crate::entry::Entry;
use crate::fault::Fault;
use crate::placed::Placed;
use crate::register::Register;
use crate::walk::found_and_listed;
use history_model::RegId;
use reg_arena::Arena;
use std::alloc::{AllocError, Global};

/// The canonical order of a register that is atomic, with the point of each operation; of any other register
/// the fault that [`sweep`](crate::sweep) names.
///
/// The order is a legal one of the completion that it lists. Each point lies at or after its operation's call
/// and before its reply, and no point falls.
///
/// # Errors
/// If memory ran out; the arena is as before.
pub fn order_or_fault(
    alloc: Global,
    arena: &Arena,
    register: RegId,
) -> Result<Result<Vec<Placed>, Fault>, AllocError>
    requires { register.0 < length arena.now.names }
    ensures { IfOk result (λ judged. MatchResult judged
        (λ v. IsAtomic (of_register register.0 (operations arena.now))
        × IsOrder (of_register register.0 (operations arena.now)) v.items)
        (λ fault. (IsAtomic (of_register register.0 (operations arena.now)) → ⊥)
        × IsFault (of_register register.0 (operations arena.now)) fault)) }
{
    let register = Register::new(arena, register);
    match found_and_listed(alloc, register)? {
        Err(fault) => Ok(Err(fault)),
        Ok((found, entries)) => match verdict(register, found) {
            Err(fault) => Ok(Err(fault)),
            Ok(()) => Ok(Ok(ranked(alloc, entries)?)),
        },
    }
}

/// The order of [`order_or_fault`] alone, for a register that has no fault.
///
/// # Errors
/// If memory ran out; the arena is as before.
pub fn order(alloc: Global, arena: &Arena, register: RegId) -> Result<Vec<Placed>, AllocError>
    requires register { register.0 < length arena.now.names }
    requires faultless { HasNoFault (of_register register.0 (operations arena.now)) }
    ensures { IfOk result (λ v. IsOrder (of_register register.0 (operations arena.now)) v.items) }
{
    match order_or_fault(alloc, arena, register)? {
        Ok(order) => Ok(order),
        Err(_) => unreachable!(),
    }
}

/// The operations of entries whose places differ, by their places, each with its point.
fn ranked(alloc: Global, mut entries: Vec<Entry>) -> Result<Vec<Placed>, AllocError>
    requires { AllPairs (λ x y. same_place x y ≡ false) entries.items }
    ensures { IfOk result (λ v. IsRanking entries.items v.items) }
{
    rank(&mut entries);
    placed(alloc, &entries)
}

/// Sorts entries whose places differ by their places.
fn rank(entries: &mut Vec<Entry>)
    requires { AllPairs (λ x y. same_place x y ≡ false) entries.old.items }
    ensures permutation { IsPermutation entries.old.items entries.new.items }
    ensures ascending { AllPairs ComesFirst entries.new.items }
{
    entries.sort_unstable_by_key(|entry| (entry.low, entry.turn));
}

/// The operations in their order, each with its point: the last call up to it.
fn placed(alloc: Global, entries: &[Entry]) -> Result<Vec<Placed>, AllocError>
    ensures { IfOk result (λ v. v.items ≡ entries_placed 0 entries.now) }
{
    let mut answer = Vec::with_capacity(alloc, entries.len())?;
    let mut point = 0;
    for entry in entries {
        point = point.max(entry.call);
        answer.push(Placed {
            oper: entry.oper,
            point,
        })?;
    }
    Ok(answer)
}
