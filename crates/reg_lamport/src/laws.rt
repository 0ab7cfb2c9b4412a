//! Laws of the definitions, each proved as the contract of a function that does nothing.
ghost use Rattle.std.specs.Prelude.{◌≡◌, ◌≤◌, ℕ, List, length, Option};
ghost use Rattle.std.specs.Option.{option_or};
ghost use Rattle.history_model.specs.History.{History};
ghost use Rattle.history_model.specs.Operations.{of_register, operations};
ghost use Rattle.history_model.specs.declared.operation.Operation.{Operation};
ghost use Rattle.history_model.specs.Naming.{IsNamed};
ghost use Rattle.history_model.specs.declared.ids.EvId.{EvId};
ghost use Rattle.history_model.specs.declared.ids.Oper.TheVariants.{Called};
ghost use Rattle.reg_lamport.specs.Levels.{IsAtLevel, IsFirstBadFound, IsFirstBadNamed, IsFirstBadRead};
ghost use Rattle.reg_lamport.specs.Reads.{IsReadList, ListedReads};
ghost use Rattle.reg_lamport.specs.declared.level.Level.{Level};

/// The first bad read of a part is that of its first cut if there is one, else that of its second.
pub fn cuts_give_the_first_bad()
    ensures cuts { (level : Level) (ops : List Operation) (from mid to : ℕ) (a b : Option Operation)
        → from ≤ mid → mid ≤ to → IsFirstBadFound level ops from mid a → IsFirstBadFound level ops mid to b
        → IsFirstBadFound level ops from to (option_or a b) }
    ensures named { (h : History) (register : ℕ) (level : Level) (from mid to : ℕ) (a b : Option EvId)
        → from ≤ mid → mid ≤ to → IsFirstBadNamed h register level from mid a
        → IsFirstBadNamed h register level mid to b
        → IsFirstBadNamed h register level from to (option_or a b) }
    ensures one { (level : Level) (ops : List Operation) (from to : ℕ) (a b : Option Operation)
        → IsFirstBadFound level ops from to a → IsFirstBadFound level ops from to b → a ≡ b }
{}

/// Of a whole list, the first bad read is the breaking read that was called first, and the
/// register is at the level if there is none.
pub fn whole_list_decides()
    ensures none { (h : History) (list : ListedReads) (level : Level) → IsReadList h list
        → IsFirstBadNamed h list.register level 0 (length list.entries) None
        → IsAtLevel level (of_register list.register (operations h)) }
    ensures some { (h : History) (list : ListedReads) (level : Level) (id : EvId) → IsReadList h list
        → IsFirstBadNamed h list.register level 0 (length list.entries) (Some id)
        → (r : Operation) × IsNamed h (Called id) r
        × IsFirstBadRead level (of_register list.register (operations h)) r }
{}
