//! Why pairs of clusters decide the gap: laws over the definitions alone. Each is the contract of a function
//! that does nothing.
ghost use Rattle.std.specs.Prelude.{◌↔◌, ℕ, List};
ghost use Rattle.history_model.specs.Legal.{HasOrderFor};
ghost use Rattle.history_model.specs.Operations.{IsHistory};
ghost use Rattle.history_model.specs.declared.guarantee.Guarantee.TheVariants.{Within};
ghost use Rattle.history_model.specs.declared.operation.Operation.{Operation};
ghost use Rattle.reg_levels.specs.Clusters.Clean.{IsClean};
ghost use Rattle.reg_levels.specs.Gap.Conflicts.{IsConflictWithin};

/// A register is atomic with reads that may be less than some events old exactly if it is clean and no two
/// clusters conflict.
pub fn conflicts_decide()
    ensures { (ops : List Operation) (age : ℕ) → IsHistory ops → (HasOrderFor (Within age) ops
        ↔ (IsClean ops × ((v w : Operation) → IsConflictWithin age ops v w → ⊥))) }
{}

/// A register is atomic with reads of some age exactly if it is clean.
pub fn clean_have_a_gap()
    ensures { (ops : List Operation) → IsHistory ops
        → (IsClean ops ↔ ((age : ℕ) × HasOrderFor (Within age) ops)) }
{}
