//! What operations know, as they are taken in.
ghost use Rattle.std.specs.Prelude.{◌≡◌, ◌<◌, ◌≤◌, ◌+◌, ◌^◌, ℕ, List, Option, length, slice_get, IfOk, OnOk};
ghost use Rattle.std.specs.Prelude.{None, Some, []};
ghost use Rattle.history_model.specs.declared.operation.Operation.{Operation as AnOperation};
ghost use Rattle.causal_order.specs.SessionClocks.Clocks.{AreClocks, AreLastTurns, AreSized, IsHeld};
ghost use Rattle.causal_order.specs.SessionClocks.Clocks.{IsLearning};
ghost use Rattle.causal_order.specs.SessionClocks.Clocks.{held_rows, row_at};
ghost use Rattle.causal_order.specs.SessionClocks.Rows.{AreEmpty, IsHolding, IsMade, IsMarked, IsPassed};
ghost use Rattle.causal_order.specs.SessionClocks.Rows.{IsRaised};
ghost use Rattle.causal_order.specs.SessionClocks.Rows.{row_of};
ghost use Rattle.causal_order.specs.SessionClocks.Sessions.{HasSession};
ghost use Rattle.causal_order.specs.declared.session_clocks.table.SessionTable.{SessionTable as ATable};

use crate::session_clocks::table::SessionTable;
use std::alloc::{AllocError, Global};

/// What operations know of the sessions, as they are taken in one after another, each after all that it
/// learns of at once. The row of an operation has an entry for each session: all of the session's operations
/// at places below it, and no others, are known, where an operation counts as one that knows itself. A row
/// is given up when no later operation needs it. An initial write knows nothing, and has no row.
#[derive(Drop)]
pub struct Clocks {
    /// For each operation its row while that is held, and else an empty one.
    pub(crate) rows: Vec<Vec<u32>>,
    /// For each operation 1 + the last turn in which one is taken that needs its row; 0 if there is none.
    pub(crate) until: Vec<u32>,
    /// How many rows are held.
    pub(crate) held: u32,
}

impl Clocks {
    /// Clocks for operations that will be taken in this order; none is taken yet.
    ///
    /// # Errors
    /// If memory ran out.
    pub fn new(alloc: Global, table: &SessionTable, order: &[u32]) -> Result<Clocks, AllocError>
        requires learning { (ops : List AnOperation) × IsLearning ops table.now order.now }
        ensures { (ops : List AnOperation) → IsLearning ops table.now order.now
            → IfOk result (λ clocks. AreClocks ops table.now order.now 0 None clocks) }
    {
        Ok(Clocks {
            rows: no_rows(alloc, table.numbers.len())?,
            until: last_turns(alloc, table, order)?,
            held: 0,
        })
    }

    /// Takes in the operation at a place, the next one of the order, and makes its row from those of the
    /// operations that it learns of at once.
    ///
    /// # Errors
    /// If memory ran out.
    pub fn take(
        &mut self,
        alloc: Global,
        table: &SessionTable,
        place: u32,
    ) -> Result<(), AllocError>
        requires sized { AreSized table.now self.old }
        requires within { place < length table.now.numbers.items }
        ensures { OnOk result ((ops : List AnOperation) (order : List ℕ) (turn : ℕ)
            → AreClocks ops table.now order turn None self.old → slice_get order turn ≡ Some place
            → AreClocks ops table.now order turn (Some place) self.new) }
    {
        if let Some(session) = table.numbers[place as usize] {
            let row = self.known(alloc, table, place, session)?;
            self.hold(place, row);
        }
        Ok(())
    }

    /// The row of the operation at a place. It is held from the turn in which the operation is taken to the
    /// last one in which another is taken that learns of it at once, both included.
    pub fn row(&self, place: u32) -> &[u32]
        requires held { IsHeld self.now place }
        ensures { result.now ≡ row_at self.now place }
    {
        &self.rows[place as usize]
    }

    /// Ends the turn in which the operation at a place was taken: gives up the rows that no later operation
    /// needs.
    pub fn give_up(&mut self, alloc: Global, table: &SessionTable, turn: u32, place: u32)
        requires sized { AreSized table.now self.old }
        requires within { place < length table.now.numbers.items }
        requires turn { turn < 2 ^ 22 }
        ensures { (ops : List AnOperation) (order : List ℕ)
            → AreClocks ops table.now order turn (Some place) self.old → slice_get order turn ≡ Some place
            → AreClocks ops table.now order (turn + 1) None self.new }
    {
        self.pass(alloc, Some(place), turn);
        self.pass(alloc, table.previous[place as usize], turn);
        self.pass(alloc, table.sources[place as usize], turn);
    }

    /// How many rows are held.
    pub fn held(&self) -> u32
        ensures rows { (table : ATable) → AreSized table self.now → result ≡ held_rows self.now }
        ensures few { (table : ATable) → AreSized table self.now → result ≤ length table.numbers.items }
    {
        self.held
    }

    /// The row of the operation at a place, which is of a session.
    fn known(
        &self,
        alloc: Global,
        table: &SessionTable,
        place: u32,
        session: u32,
    ) -> Result<Vec<u32>, AllocError>
        requires sized { AreSized table.now self.now }
        requires within { place < length table.now.numbers.items }
        requires session { HasSession table.now place session }
        ensures { IfOk result (λ row. IsMade table.now self.now place session row.items) }
    {
        let mut row = vec![in alloc; 0; table.count as usize]?;
        self.raise(&mut row, table.previous[place as usize]);
        self.raise(&mut row, table.sources[place as usize]);
        row[session as usize] = row[session as usize].max(place + 1);
        Ok(row)
    }

    /// Raises the entries of a row to those of the operation at a place.
    fn raise(&self, row: &mut Vec<u32>, place: Option<u32>)
        requires within { (d : ℕ) → place ≡ Some d → d < length self.now.rows.items }
        ensures { IsRaised row.old.items (row_of self.now place) row.new.items }
    {
        if let Some(place) = place {
            raise(row, &self.rows[place as usize]);
        }
    }

    /// Holds a row.
    fn hold(&mut self, place: u32, row: Vec<u32>)
        requires within { place < length self.old.rows.items }
        requires few { length self.old.rows.items < 2 ^ 22 }
        requires count { self.old.held ≡ held_rows self.old }
        requires some { 0 < length row.items }
        ensures { IsHolding self.old self.new place row.items }
    {
        if self.rows[place as usize].is_empty() {
            self.held += 1;
        }
        self.rows[place as usize] = row;
    }

    /// Gives up the row of the operation at a place, if there is one and no turn after this one needs it.
    fn pass(&mut self, alloc: Global, place: Option<u32>, turn: u32)
        requires within { (d : ℕ) → place ≡ Some d → d < length self.old.rows.items }
        requires until { length self.old.until.items ≡ length self.old.rows.items }
        requires turn { turn < 2 ^ 22 }
        requires count { self.old.held ≡ held_rows self.old }
        ensures { IsPassed self.old self.new turn place }
    {
        if let Some(place) = place {
            if self.until[place as usize] <= turn + 1 {
                self.let_go(alloc, place);
            }
        }
    }

    /// Gives up a row, if it is held.
    fn let_go(&mut self, alloc: Global, place: u32)
        requires within { place < length self.old.rows.items }
        requires count { self.old.held ≡ held_rows self.old }
        ensures { IsHolding self.old self.new place [] }
    {
        if !self.rows[place as usize].is_empty() {
            self.held -= 1;
            self.rows[place as usize] = Vec::new(alloc);
        }
    }
}

/// Raises the entries of a row to those of another, as far as it goes.
fn raise(row: &mut Vec<u32>, other: &[u32])
    ensures { IsRaised row.old.items other.now row.new.items }
{
    for session in 0..row.len().min(other.len()) {
        row[session] = row[session].max(other[session]);
    }
}

/// No rows, for so many operations.
fn no_rows(alloc: Global, operations: usize) -> Result<Vec<Vec<u32>>, AllocError>
    ensures size { IfOk result (λ rows. length rows.items ≡ operations) }
    ensures none { IfOk result (λ rows. AreEmpty rows.items) }
{
    let mut rows = Vec::with_capacity(alloc, operations)?;
    for _ in 0..operations {
        rows.push(Vec::new(alloc))?;
    }
    Ok(rows)
}

/// For each operation 1 + the last turn in which one is taken that learns of it at once; 0 if there is none.
fn last_turns(alloc: Global, table: &SessionTable, order: &[u32]) -> Result<Vec<u32>, AllocError>
    requires learning { (ops : List AnOperation) × IsLearning ops table.now order.now }
    ensures { IfOk result (λ until. AreLastTurns table.now order.now (length order.now) until.items) }
{
    let mut until = vec![in alloc; 0; table.numbers.len()]?;
    for turn in 0..order.len() {
        let place = order[turn] as usize;
        mark(&mut until, table.previous[place], turn as u32);
        mark(&mut until, table.sources[place], turn as u32);
    }
    Ok(until)
}

/// Notes that the operation at a place is needed in a turn.
fn mark(until: &mut Vec<u32>, place: Option<u32>, turn: u32)
    requires within { (d : ℕ) → place ≡ Some d → d < length until.old.items }
    requires turn { turn < 2 ^ 22 }
    ensures { IsMarked until.old.items until.new.items place turn }
{
    if let Some(place) = place {
        until[place as usize] = turn + 1;
    }
}
