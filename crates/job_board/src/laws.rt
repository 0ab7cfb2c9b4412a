//! What holds of the board's events, whoever steps when.
ghost use Rattle.std.specs.Prelude.{ℕ, ◌≤◌, List};
ghost use Rattle.job_board.specs.Facts.{IsConsistent};
ghost use Rattle.job_board.specs.Events.{Event, LeadTo, State, opening_state};

use crate::limits::MAX_JOBS;

/// Every list of events, from the opening state on, keeps the facts of the board.
pub fn events_keep_the_facts()
    ensures { (jobs : ℕ) → jobs ≤ MAX_JOBS → (events : List Event) (state : State)
        → LeadTo jobs events (opening_state jobs) state
        → IsConsistent jobs state.next state.least state.seats }
{}
