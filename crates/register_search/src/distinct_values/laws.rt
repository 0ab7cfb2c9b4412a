//! Laws of some of a register's operations, each proved as the contract of a function that does nothing.
ghost use Rattle.std.specs.Prelude.{◌≡◌, Bool, ℕ, List};
ghost use Rattle.history_text.specs.declared.event.Val.{Val as AVal};
ghost use Rattle.history_model.specs.declared.operation.Operation.{Operation as AnOperation};
ghost use Rattle.history_model.specs.Cut.{cut_at};
ghost use Rattle.history_model.specs.Legal.{IsAtomic};
ghost use Rattle.register_search.specs.DistinctValues.SomeOperations.{ArePlain, kept_of};

/// If reads and writes are atomic, so are the writes of some values with some of the reads of these: in an
/// order without all others, the write that a read meets still stands before it, and no other came between.
/// So a no of some is a no of all.
pub fn some_are_atomic()
    ensures { (values : AVal → Bool) (times : ℕ → Bool) (ops : List AnOperation)
        → ArePlain ops → IsAtomic ops → IsAtomic (kept_of values times ops) }
{}

/// To keep some operations of what is known at a time is to take what is known of those that are kept.
pub fn known_of_some()
    ensures { (values : AVal → Bool) (times : ℕ → Bool) (ops : List AnOperation) (t : ℕ)
        → cut_at t (kept_of values times ops) ≡ kept_of values times (cut_at t ops) }
{}
