//! What the guarantees ask of two operations.
ghost use Rattle.std.specs.Prelude.{◌≡◌, ◌<◌, ℕ, true, false};
ghost use Rattle.history_model.specs.Legal.{MustKeep};
ghost use Rattle.history_model.specs.Operations.{IsWrite, is_write};
ghost use Rattle.reg_levels.specs.Levels.{IsOfSessions, is_lasting as lasts, keeps_time as times};

use history_model::{Guarantee, Operation};

/// Whether writes keep real time.
pub(crate) fn keeps_time(guarantee: Guarantee) -> bool
    ensures { result ≡ times guarantee }
{
    match guarantee {
        Guarantee::Sequential => false,
        _ => true,
    }
}

/// Whether all later operations of its session must come after the operation.
pub(crate) fn is_lasting(guarantee: Guarantee, op: &Operation) -> bool
    ensures { result ≡ lasts guarantee op.now }
{
    match guarantee {
        Guarantee::OwnWrites => op.act.changes(),
        Guarantee::Monotonic => !op.act.changes(),
        _ => true,
    }
}

/// Whether a read must come before a write.
pub(crate) fn is_too_early(guarantee: Guarantee, read: &Operation, write: &Operation) -> bool
    requires sessions { IsOfSessions guarantee }
    requires read { is_write read.now ≡ false }
    requires write { IsWrite write.now }
    requires called { read.now.process ≡ None → ⊥ }
    requires life { read.now.call < read.now.reply }
    ensures yes { result ≡ true → MustKeep guarantee read.now write.now }
    ensures no { result ≡ false → MustKeep guarantee read.now write.now → ⊥ }
{
    if read.reply >= write.call {
        return false;
    }
    keeps_time(guarantee) || is_of_one_session(read, write)
}

/// Whether one session called both operations.
fn is_of_one_session(first: &Operation, second: &Operation) -> bool
    ensures yes { result ≡ true
        → (q : ℕ) × (first.now.process ≡ Some q) × (second.now.process ≡ Some q) }
    ensures no { result ≡ false → (q : ℕ) → first.now.process ≡ Some q → second.now.process ≡ Some q → ⊥ }
{
    match (first.process, second.process) {
        (Some(one), Some(other)) => one == other,
        _ => false,
    }
}
