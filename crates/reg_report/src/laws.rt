//! Why a history is as its registers are, and has one report: laws over the definitions alone. Each is the
//! contract of a function that does nothing.
ghost use Rattle.std.specs.Prelude.{◌≡◌, ◌↔◌, ℕ, List};
ghost use Rattle.history_model.specs.History.{History, IsRecorded};
ghost use Rattle.history_model.specs.Legal.{IsLegal, IsAtomic};
ghost use Rattle.history_model.specs.Operations.{IsHistory, of_register, operations};
ghost use Rattle.history_model.specs.declared.operation.Operation.{Operation};
ghost use Rattle.history_model.specs.Placed.{PlacedOperation, operations_of};
ghost use Rattle.reg_report.specs.First.{IsFirstReport};
ghost use Rattle.reg_report.specs.Meaning.{IsEachAtomic, IsReport};
ghost use Rattle.reg_report.specs.Merged.{IsMerged};
ghost use Rattle.report_text.specs.declared.check.report.Report.{Report as AReport};

use history_model::{accepted_is_history, names_are_unique, registers_are_numbered};

/// Legal orders of all registers, merged by their points, are a legal order of the whole history.
pub fn merged_is_legal()
    ensures { (ops : List Operation) (orders : ℕ → List Operation) (merged : List PlacedOperation)
        → ((r : ℕ) → IsHistory (of_register r ops)) → ((r : ℕ) → IsLegal (of_register r ops) (orders r))
        → IsMerged orders merged → IsLegal ops (operations_of merged) }
{}

/// A history is atomic exactly if each of its registers is.
pub fn registers_decide()
    ensures { (h : History) → IsRecorded h → (IsAtomic (operations h) ↔ IsEachAtomic h) }
{
    accepted_is_history();
    registers_are_numbered();
}

/// A history has one report.
pub fn one_report()
    ensures { (h : History) (a b : AReport) → IsRecorded h → IsReport h a → IsReport h b → a ≡ b }
{
    accepted_is_history();
    names_are_unique();
}

/// A history has one report of its first register that isn't atomic.
pub fn one_first_report()
    ensures { (h : History) (a b : AReport) → IsRecorded h → IsFirstReport h a → IsFirstReport h b → a ≡ b }
{
    accepted_is_history();
    names_are_unique();
}
