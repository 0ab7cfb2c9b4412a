//! The laws, each the contract of a function that does nothing.
ghost use Rattle.std.specs.Prelude.{◌≡◌, ◌<◌, ◌≤◌, ◌↔◌, ℕ, List, map};
ghost use Rattle.history_model.specs.Legal.{HasOrderFor, IsLegalFor};
ghost use Rattle.history_model.specs.Cut.{cut_at};
ghost use Rattle.history_model.specs.Lists.{In, Before};
ghost use Rattle.history_model.specs.Operations.{IsHistory};
ghost use Rattle.history_model.specs.declared.guarantee.Guarantee.{Guarantee};
ghost use Rattle.history_model.specs.declared.guarantee.Guarantee.TheVariants.{Atomic, Session, OwnWrites};
ghost use Rattle.history_model.specs.declared.guarantee.Guarantee.TheVariants.{Monotonic, Sequential, Within};
ghost use Rattle.history_model.specs.declared.operation.Operation.{Operation};
ghost use Rattle.level_laws.specs.Evidence.{Evidence, IsLevelFault};
ghost use Rattle.reg_zones.specs.Faults.{IsEarly, IsUnwritten};
ghost use Rattle.level_laws.specs.Lasting.{IsLongRecordOf};
ghost use Rattle.level_laws.specs.Leads.{IsCleanFor};
ghost use Rattle.level_laws.specs.WriteOrders.{IsExpansion, IsWriteOrder, expanded};

/// If there is evidence of a fault, no order gives the guarantee, whichever pending operations are completed.
pub fn level_fault_means_no_order()
    ensures { (guarantee : Guarantee) (ops : List Operation) (evidence : Evidence) → IsHistory ops
        → IsLevelFault guarantee ops evidence → HasOrderFor guarantee ops → ⊥ }
{}

/// An order of the kept writes in which each stands before those that it leads to expands to a legal
/// order, if no single read rules that out.
pub fn expanded_is_legal()
    ensures any { (guarantee : Guarantee) (ops writes order : List Operation) → IsHistory ops
        → IsCleanFor guarantee ops → IsWriteOrder guarantee ops writes → IsExpansion ops writes order
        → IsLegalFor guarantee ops order }
    ensures by_call { (guarantee : Guarantee) (ops writes : List Operation) → IsHistory ops
        → ((a b : Operation) → Before a b ops → a.call < b.call)
        → IsCleanFor guarantee ops → IsWriteOrder guarantee ops writes
        → IsLegalFor guarantee ops (expanded ops writes) }
{}

/// A register gives a guarantee exactly if no single read rules that out and its kept writes have an order
/// in which each stands before those that it leads to.
pub fn write_orders_decide()
    ensures { (guarantee : Guarantee) (ops : List Operation) → IsHistory ops
        → (HasOrderFor guarantee ops
        ↔ (IsCleanFor guarantee ops × ((writes : List Operation) × IsWriteOrder guarantee ops writes))) }
{}

/// What asks less follows: from atomic all other guarantees, from a session's its two halves and sequential,
/// and from reads that may be less than some age old those that may be older. With an age of one event or
/// none a register is atomic.
pub fn weaker_follow()
    ensures session { (ops : List Operation) → HasOrderFor Atomic ops → HasOrderFor Session ops }
    ensures own_writes { (ops : List Operation) → HasOrderFor Session ops → HasOrderFor OwnWrites ops }
    ensures monotonic { (ops : List Operation) → HasOrderFor Session ops → HasOrderFor Monotonic ops }
    ensures sequential { (ops : List Operation) → HasOrderFor Session ops → HasOrderFor Sequential ops }
    ensures within { (ops : List Operation) (age : ℕ) → HasOrderFor Atomic ops
        → HasOrderFor (Within age) ops }
    ensures older { (ops : List Operation) (age more : ℕ) → age ≤ more → HasOrderFor (Within age) ops
        → HasOrderFor (Within more) ops }
    ensures atomic { (ops : List Operation) (age : ℕ) → age ≤ 1
        → (HasOrderFor (Within age) ops ↔ HasOrderFor Atomic ops) }
{}

/// A register that gives a guarantee has no single read that rules it out. One without unwritten and early
/// reads is clean for each guarantee, and one that is clean for any but sequential has none.
pub fn guarantees_are_clean()
    ensures gives { (guarantee : Guarantee) (ops : List Operation) → IsHistory ops
        → HasOrderFor guarantee ops → IsCleanFor guarantee ops }
    ensures each { (guarantee : Guarantee) (ops : List Operation)
        → ((r : Operation) → IsUnwritten ops r → ⊥) → ((r w : Operation) → IsEarly ops r w → ⊥)
        → IsCleanFor guarantee ops }
    ensures in_time { (guarantee : Guarantee) (ops : List Operation) → (guarantee ≡ Sequential → ⊥)
        → IsCleanFor guarantee ops → (r w : Operation) → IsEarly ops r w → ⊥ }
{}

/// Operations that are recorded as lasting longer than they did keep what they kept: a careless recorder
/// hides faults, and makes none.
pub fn longer_operations_keep()
    ensures { (guarantee : Guarantee) (ops : List Operation) (recorded : Operation → Operation)
        → IsHistory ops → ((a : Operation) → In a ops → IsLongRecordOf a (recorded a))
        → ((a b : Operation) → In a ops → In b ops → recorded a ≡ recorded b → a ≡ b)
        → HasOrderFor guarantee ops → HasOrderFor guarantee (map recorded ops) }
{}

/// What is known at some time of operations that keep a guarantee keeps it too, if no read is early: a no of
/// a beginning is a no of the whole.
pub fn a_beginning_keeps()
    ensures { (guarantee : Guarantee) (ops : List Operation) (t : ℕ) → IsHistory ops
        → ((r w : Operation) → IsEarly ops r w → ⊥) → HasOrderFor guarantee ops
        → HasOrderFor guarantee (cut_at t ops) }
{}
