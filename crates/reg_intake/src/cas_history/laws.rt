//! Laws of the definitions, each proved as the contract of a function that does nothing.
ghost use Rattle.std.specs.Prelude.{◌≡◌, ◌<◌, ◌∷◌, [], ℕ, List, length};
ghost use Rattle.history_text.specs.declared.event.AnyEvent.{AnyEvent as AnEvent};
ghost use Rattle.history_model.specs.Operations.{initial_write, of_register};
ghost use Rattle.reg_intake.specs.CasHistory.History.{calls_of, operations, register_names};
ghost use Rattle.history_model.specs.Timed.{AreTimedCalls};

/// The calls of each register stand in time as those of a history: whatever events they are of.
pub fn calls_are_timed()
    ensures { (events : List AnEvent) (r : ℕ) → AreTimedCalls r (calls_of events r) }
{}

/// The operations of a register are its initial write and its calls; there are none of any other register.
pub fn each_register_has_its_initial_write()
    ensures named { (events : List AnEvent) (r : ℕ) → r < length (register_names events)
        → of_register r (operations events) ≡ initial_write r ∷ calls_of events r }
    ensures none { (events : List AnEvent) (r : ℕ) → (r < length (register_names events) → ⊥)
        → of_register r (operations events) ≡ [] }
{}
