//! The right to step on a board.
ghost use Rattle.std.specs.Prelude.{◌≡◌, ◌<◌, ◌≤◌, []};
ghost use Rattle.job_board.specs.Seats.{SeatValue};
ghost use Rattle.job_board.specs.declared.limits.TheConstants.{FULL_WEIGHT};

use crate::limits::FULL_WEIGHT;
use crate::view::View;
use std::marker::Model;

/// The right to step on one board, held by one thread at a time.
///
/// To a contract it is its board's name and its [`View`]. A seat that is dropped is never made good: its
/// weight is lost, and its board can't be closed.
#[derive(Drop)]
pub struct Seat {
    pub(crate) token: atomic_table::Seat<u8, View>,
    pub(crate) jobs: u64,
    pub(crate) weight: u64,
    pub(crate) exhausted: bool,
}

impl Model for Seat {
    ghost Value = { SeatValue };

    ghost view = { λ s. record { board = s.token.table_id; view = s.token.me.0 } };

    ghost invariant = { λ s. (s.jobs ≡ s.token.me.0.jobs) × (s.weight ≡ s.token.me.0.weight)
        × (s.exhausted ≡ s.token.me.0.exhausted) × (0 < s.weight) × (s.weight ≤ FULL_WEIGHT)
        × (s.token.me.1 ≡ []) };
}

impl Seat {
    /// The seat's share of [`FULL_WEIGHT`](crate::FULL_WEIGHT), 1 at least.
    pub fn weight(&self) -> u64
        ensures value { result ≡ self.now.view.weight }
        ensures range { (0 < result) × (result ≤ FULL_WEIGHT) }
    {
        self.weight
    }
}
