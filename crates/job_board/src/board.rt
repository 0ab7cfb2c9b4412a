//! The board, and each step that a seat takes on it.
ghost use Rattle.std.specs.Prelude.{◌≡◌, ◌≢◌, ◌<◌, ◌≤◌, true, false, None, [], IfOk, IfErr, IfSome, IfNone};
ghost use Rattle.job_board.specs.Numbers.{IsDistinct, times};
ghost use Rattle.job_board.specs.Seats.{BoardValue, first_part, joint_view, opening_view, second_part};
ghost use Rattle.job_board.specs.Seats.{with_drawn, with_flag, with_seen, with_exhausted};
ghost use Rattle.job_board.specs.Steps.{ClosesWith, IsNoGreater};

use crate::limits::{FULL_WEIGHT, MAX_JOBS};
use crate::parts::{Cut, Glue, Part};
use crate::plays::{Counts, Draws, Flags, Looks};
use crate::rule::Rule;
use crate::seat::Seat;
use crate::view::View;
use atomic_table::Table;
use std::alloc::{AllocError, Allocator};
use std::marker::{Brand, Model};

type Token = atomic_table::Seat<u8, View>;

// The words of the table.
const NEXT: usize = 0;

const LEAST: usize = 1;

/// Jobs numbered from 0, to be drawn by the holders of its seats, and
/// the lowest number that any of them flagged.
///
/// Contracts see the board as its name and the number of its jobs. Each call takes seats of this board.
#[derive(Drop)]
pub struct Board<A: Allocator> {
    table: Table<u8, View, u64, Rule, A>,
}

impl<A: Allocator> Model for Board<A> {
    ghost Value = { BoardValue };

    ghost view = { λ b. record { id = b.table.shared.table_id; jobs = b.table.shared.key } };

    ghost invariant = { λ b. (b.table.shared.table_id.words ≡ 2) × (b.table.shared.table_id.slots ≡ 0) };
}

/// Some seats of the board are not in the one that [`close`](Board::close) was
/// given. Board and seat come back as they were.
#[derive(Drop)]
pub struct SeatsOut<A: Allocator> {
    pub board: Board<A>,
    pub seat: Seat,
}

impl<A: Allocator> Board<A> {
    /// A board of the numbers from 0 to below `jobs`, none of them drawn or flagged, and its one seat, which
    /// has the [`FULL_WEIGHT`](crate::FULL_WEIGHT).
    ///
    /// # Errors
    /// Out of memory. No later call on the board takes any.
    pub fn open(alloc: A, jobs: u64) -> Result<(Board<A>, Seat), AllocError>
        requires { jobs ≤ MAX_JOBS }
        ensures { IfOk result (λ r. (r.0.jobs ≡ jobs) × (r.1.board ≡ r.0.id)
            × (r.1.view ≡ opening_view jobs)) }
    {
        let (table, token) = Table::of_words(alloc, &[0, jobs], &jobs)?;
        let board = Board { table };
        let seat = Seat {
            token,
            jobs,
            weight: FULL_WEIGHT,
            exhausted: false,
        };
        Ok((board, seat))
    }

    /// Draws the next number; `None` if no number is left.
    ///
    /// The clauses say that this seat didn't draw the number before. That no other seat did follows from the
    /// board's rule, and [`join`](Board::join) and [`close`](Board::close) tell it of the seats that come
    /// together. A draw is one atomic addition. A seat that is exhausted gets `None` again without a step.
    pub fn draw(&self, seat: &mut Seat) -> Option<u64>
        requires { seat.old.board ≡ self.now.id }
        ensures board { seat.new.board ≡ seat.old.board }
        ensures some { IfSome result (λ j. (seat.old.view.exhausted ≡ false) × (j < seat.old.view.jobs)
            × (times j seat.old.view.drawn ≡ 0) × (seat.new.view ≡ with_drawn seat.old.view j)) }
        ensures none { IfNone result (seat.new.view ≡ with_exhausted seat.old.view) }
        ensures exhausted { seat.old.view.exhausted ≡ true → (result ≡ None) × (seat.new ≡ seat.old) }
    {
        if seat.exhausted {
            return None;
        }
        let shared = &self.table.shared;
        let found = shared.fetch_add::<Draws>(&mut seat.token, NEXT, 1);
        if found < seat.jobs {
            Some(found)
        } else {
            seat.exhausted = true;
            None
        }
    }

    /// Flags a number that this seat drew, by one atomic minimum.
    pub fn flag(&self, seat: &mut Seat, job: u64)
        requires board { seat.old.board ≡ self.now.id }
        requires drawn { 0 < times job seat.old.view.drawn }
        ensures board { seat.new.board ≡ seat.old.board }
        ensures flagged { seat.new.view ≡ with_flag seat.old.view job }
    {
        let shared = &self.table.shared;
        shared.fetch_min::<Flags>(&mut seat.token, LEAST, job);
    }

    /// A number that some seat flagged, or the number of jobs; no greater than any that this
    /// seat flagged or saw. It is one atomic load.
    ///
    /// No clause says that it finds what a seat that this one hasn't met flagged: a test does.
    pub fn look(&self, seat: &mut Seat) -> u64
        requires { seat.old.board ≡ self.now.id }
        ensures board { seat.new.board ≡ seat.old.board }
        ensures seen { seat.new.view ≡ with_seen seat.old.view result }
        ensures no_greater { IsNoGreater seat.old.view result }
    {
        self.table.shared.load::<Looks>(&mut seat.token, LEAST)
    }

    /// Two seats of one: the first weighs `part` and keeps what was drawn and flagged, the second has the
    /// rest of the weight. Both have seen what the one had, and both are exhausted if it was.
    pub fn split(&self, seat: Seat, part: u64) -> (Seat, Seat)
        requires board { seat.board ≡ self.now.id }
        requires part { (0 < part) × (part < seat.view.weight) }
        ensures boards { (result.0.board ≡ seat.board) × (result.1.board ≡ seat.board) }
        ensures first { result.0.view ≡ first_part part seat.view }
        ensures second { result.1.view ≡ second_part part seat.view }
    {
        let Seat {
            mut token,
            jobs,
            weight,
            exhausted,
        } = seat;
        let other = self.split_token::<Brand>(&mut token, part);
        let first = Seat {
            token,
            jobs,
            weight: part,
            exhausted,
        };
        let second = Seat {
            token: other,
            jobs,
            weight: weight - part,
            exhausted,
        };
        (first, second)
    }

    fn split_token<P: Part>(&self, token: &mut Token, part: u64) -> Token
        requires board { token.old.table_id ≡ self.now.id }
        requires part { (part ≡ P.part) × (0 < part) × (part < token.old.me.0.weight) }
        ensures boards { (token.new.table_id ≡ token.old.table_id) × (result.table_id ≡ token.old.table_id) }
        ensures first { token.new.me ≡ (first_part part token.old.me.0, token.old.me.1) }
        ensures second { result.me ≡ (second_part part token.old.me.0, []) }
    {
        self.table.shared.split_seat::<Cut<P>>(token)
    }

    /// One seat of two, with what either drew, flagged, saw and whether either
    /// is exhausted. They drew different numbers.
    pub fn join(&self, seat: Seat, other: Seat) -> Seat
        requires boards { (seat.board ≡ self.now.id) × (other.board ≡ self.now.id) }
        ensures board { result.board ≡ seat.board }
        ensures joined { result.view ≡ joint_view seat.view other.view }
        ensures distinct { IsDistinct result.view.drawn }
    {
        let Seat {
            mut token,
            jobs,
            weight,
            exhausted,
        } = seat;
        let shared = &self.table.shared;
        shared.join_seat::<Glue>(&mut token, other.token);
        // The first step could not see both seats' numbers at once. This one changes
        // nothing, and tells that none stands twice.
        shared.load::<Counts>(&mut token, NEXT);
        Seat {
            token,
            jobs,
            weight: weight + other.weight,
            exhausted: exhausted || other.exhausted,
        }
    }

    /// The lowest number that was flagged, or the number of jobs. The seat must have the
    /// [`FULL_WEIGHT`](crate::FULL_WEIGHT); otherwise the board and the seat come back as they were.
    pub fn close(self, seat: Seat) -> Result<u64, SeatsOut<A>>
        requires { seat.board ≡ self.id }
        ensures ok { IfOk result (λ n. (seat.view.weight ≡ FULL_WEIGHT) × ClosesWith self.jobs seat.view n) }
        ensures err { IfErr result (λ out. (seat.view.weight ≢ FULL_WEIGHT) × (out.board ≡ self)
            × (out.seat ≡ seat)) }
    {
        let is_whole = seat.weight == FULL_WEIGHT;
        if !is_whole {
            return Err(SeatsOut { board: self, seat });
        }
        let closed = self.table.close_with(seat.token);
        let least = closed.word(LEAST);
        closed.free();
        Ok(least)
    }
}
