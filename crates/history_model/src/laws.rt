//! Laws of the definitions, each proved as the contract of a function that does nothing.
ghost use Rattle.std.specs.Prelude.{◌≡◌, ◌<◌, ◌-◌, ◌⊎◌, ◌↔◌, ◌∷◌, ℕ, List, length, slice_get, true, false};
ghost use Rattle.std.specs.Prelude.{Some};
ghost use Rattle.history_text.specs.declared.event.Val.{Val as AVal};
ghost use Rattle.history_text.specs.declared.event.Val.TheVariants.{Null};
ghost use Rattle.history_model.specs.Lists.{In, Before};
ghost use Rattle.history_model.specs.declared.event.Event.{Event};
ghost use Rattle.history_model.specs.declared.event.What.TheVariants.{Call, Reply};
ghost use Rattle.history_model.specs.declared.ids.Oper.{Oper as AnOper};
ghost use Rattle.history_model.specs.History.{History, IsRecorded};
ghost use Rattle.history_model.specs.Lamport.{HasSingleWriter};
ghost use Rattle.history_model.specs.Cut.{cut_at};
ghost use Rattle.history_model.specs.InTurn.{Meets};
ghost use Rattle.history_model.specs.Legal.{HasLatest, IsAtomic, IsCompletion, IsLegal, IsMet};
ghost use Rattle.history_model.specs.Operations.{AreTimed, IsAsking, IsCompleted, IsCompletedRead, IsHistory};
ghost use Rattle.history_model.specs.Operations.{IsWrite, op_kind, value_of};
ghost use Rattle.history_model.specs.declared.operation.Operation.{Operation as AnOperation};
ghost use Rattle.history_model.specs.Operations.{Precedes, initial_write, of_register, operations};
ghost use Rattle.history_model.specs.Naming.{IsEventIn, IsEventOf, IsNamed, IsOper, belongs_at, name_of};

/// The operations of each register of an accepted history satisfy the facts on which all other
/// laws stand, here and in the crates above.
pub fn accepted_is_history()
    ensures { (h : History) → IsRecorded h → (r : ℕ) → IsHistory (of_register r (operations h)) }
{}

/// The operations of one process come one after another, whatever their registers.
pub fn operations_take_turns()
    ensures { (h : History) → IsRecorded h → (a b : AnOperation) (p : ℕ) → In a (operations h)
        → In b (operations h) → a.process ≡ Some p → b.process ≡ Some p
        → (a ≡ b) ⊎ (Precedes a b ⊎ Precedes b a) }
{}

/// Each register has its initial write.
pub fn initial_is_there()
    ensures { (h : History) (r : ℕ) → r < length h.names
        → In (initial_write r) (of_register r (operations h)) }
{}

/// Each operation has a name, and a name has one operation.
pub fn names_are_unique()
    ensures named { (h : History) → IsRecorded h → (o : AnOperation) → In o (operations h)
        → IsOper h (name_of o) }
    ensures one { (h : History) → IsRecorded h → (name : AnOper) (o p : AnOperation) → IsNamed h name o
        → IsNamed h name p → o ≡ p }
{}

/// Each reply, and each call that didn't fail, belongs to one operation, and no other event belongs to any.
pub fn events_have_operations()
    ensures some { (h : History) → IsRecorded h → (i : ℕ) (e : Event) → slice_get h.events i ≡ Some e
        → belongs_at h.events i e ≡ true → (o : AnOperation) × IsEventIn h i e o }
    ensures none { (h : History) → IsRecorded h → (i : ℕ) (e : Event) → slice_get h.events i ≡ Some e
        → belongs_at h.events i e ≡ false → (o : AnOperation) → In o (operations h) → IsEventOf i o → ⊥ }
    ensures one { (h : History) → IsRecorded h → (i : ℕ) (o p : AnOperation) → In o (operations h)
        → In p (operations h) → IsEventOf i o → IsEventOf i p → o ≡ p }
{}

/// Each operation that a process called has its call among the events, and its reply if it is completed.
pub fn operations_have_events()
    ensures call { (h : History) → IsRecorded h → (o : AnOperation) (p : ℕ) → In o (operations h)
        → o.process ≡ Some p → (e : Event) × IsEventIn h (o.call - 2) e o × (e.what ≡ Call (op_kind o)) }
    ensures reply { (h : History) → IsRecorded h → (o : AnOperation) (p : ℕ) → In o (operations h)
        → o.process ≡ Some p → IsCompleted o → (e : Event) × IsEventIn h (o.reply - 2) e o
        × (e.what ≡ Reply (op_kind o)) }
{}

/// A write and a completed operation have a value.
pub fn values_are_there()
    ensures { (h : History) → IsRecorded h → (o : AnOperation) → In o (operations h) → IsWrite o
        ⊎ IsCompleted o
        → (v : AVal) × (value_of o ≡ Some v) }
{}

/// Each operation is of a register that has a name.
pub fn registers_are_numbered()
    ensures { (h : History) → IsRecorded h → (o : AnOperation) → In o (operations h)
        → o.register < length h.names }
{}

/// If a single process writes, the writes come one after another.
pub fn single_writer_takes_turns()
    ensures { (ops : List AnOperation) → IsHistory ops → HasSingleWriter ops → (v w : AnOperation) → In v ops
        → In w ops → IsWrite v → IsWrite w → (v ≡ w) ⊎ (Precedes v w ⊎ Precedes w v) }
{}

/// A legal order of the whole history, kept to one register's operations, is a legal order of the register
/// (Herlihy and Wing, 1990, section 3.1: locality).
pub fn restricted_is_legal()
    ensures { (ops order : List AnOperation) (r : ℕ) → IsLegal ops order
        → IsLegal (of_register r ops) (of_register r order) }
{}

/// A history is atomic exactly if each of its registers is.
pub fn registers_decide()
    ensures { (ops : List AnOperation) → ((r : ℕ) → AreTimed (of_register r ops))
        → (IsAtomic ops ↔ ((r : ℕ) → IsAtomic (of_register r ops))) }
{}

/// In an order of one register that begins with the initial write, each operation meets a value that suits it
/// exactly if they do so one after another, from null on.
pub fn met_in_turn()
    ensures { (r : ℕ) (order : List AnOperation)
        → ((a : AnOperation) → Before a a (initial_write r ∷ order) → ⊥)
        → ((a : AnOperation) → In a order → a.register ≡ r)
        → (((a : AnOperation) → In a (initial_write r ∷ order) → IsAsking a
        → IsMet (initial_write r ∷ order) a)
        ↔ Meets Null order) }
{}

/// Of reads and writes, each completed read has the value of the nearest write before it exactly if each
/// operation meets a value that suits it.
pub fn reads_have_latest()
    ensures { (ops order : List AnOperation) → IsHistory ops → IsCompletion ops order
        → (((r : AnOperation) → In r order → IsAsking r → IsMet order r)
        ↔ ((r : AnOperation) → In r order → IsCompletedRead r → HasLatest order r)) }
{}

/// What is known at some time of operations that are atomic is atomic too: a no of a beginning is a no of
/// the whole. No two of them have one call.
pub fn a_beginning_is_atomic()
    ensures { (ops : List AnOperation) (t : ℕ) → AreTimed ops
        → ((a b : AnOperation) → In a ops → In b ops → a.call ≡ b.call → a ≡ b) → IsAtomic ops
        → IsAtomic (cut_at t ops) }
{}
