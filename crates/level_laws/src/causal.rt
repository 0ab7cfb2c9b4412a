//! The laws of causal histories, each the contract of a function that does nothing.
//!
//! What the floors above may rely on: the operations of an accepted history satisfy what the laws ask for; a
//! fault means that no order of the writes is causal; a history that is sequentially consistent is causal;
//! and each register of a causal history is sequentially consistent, so of a single register the two are one.
ghost use Rattle.std.specs.Prelude.{◌≡◌, ◌↔◌, ℕ, List};
ghost use Rattle.history_model.specs.History.{History, IsRecorded};
ghost use Rattle.history_model.specs.Legal.{HasOrderFor, IsAtomic};
ghost use Rattle.history_model.specs.Lists.{In};
ghost use Rattle.history_model.specs.Operations.{of_register, operations};
ghost use Rattle.history_model.specs.declared.guarantee.Guarantee.TheVariants.{Sequential};
ghost use Rattle.history_model.specs.declared.operation.Operation.{Operation};
ghost use Rattle.level_laws.specs.Causal.{IsCausal, IsWhole};
ghost use Rattle.level_laws.specs.CausalFault.{CausalFault, IsCausalFault};

/// All operations of an accepted history satisfy the facts on which the other laws stand.
pub fn recorded_is_whole()
    ensures { (h : History) → IsRecorded h → IsWhole (operations h) }
{}

/// If there is a fault, no order of the writes is causal.
pub fn causal_fault_means_no_order()
    ensures { (ops : List Operation) (fault : CausalFault) → IsWhole ops → IsCausalFault ops fault
        → IsCausal ops → ⊥ }
{}

/// A history that is sequentially consistent is causal.
pub fn sequential_is_causal()
    ensures { (ops : List Operation) → IsWhole ops → HasOrderFor Sequential ops → IsCausal ops }
{}

/// A history that is atomic is causal.
pub fn atomic_is_causal()
    ensures { (ops : List Operation) → IsWhole ops → IsAtomic ops → IsCausal ops }
{}

/// Each register of a causal history is sequentially consistent by itself.
pub fn causal_is_sequential()
    ensures { (ops : List Operation) → IsWhole ops → IsCausal ops → (r : ℕ)
        → HasOrderFor Sequential (of_register r ops) }
{}

/// Of a single register causal says what sequentially consistent says.
pub fn one_register_is_sequential()
    ensures { (ops : List Operation) (r : ℕ) → IsWhole ops → ((a : Operation) → In a ops → a.register ≡ r)
        → (IsCausal ops ↔ HasOrderFor Sequential ops) }
{}
