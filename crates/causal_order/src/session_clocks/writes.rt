//! The writes of a history by register, session and place.
ghost use Rattle.std.specs.Prelude.{◌≡◌, ◌<◌, ◌≤◌, ◌^◌, ℕ, List, [], length, IfOk, IsPermutation};
ghost use Rattle.history_model.specs.declared.operation.Operation.{Operation as AnOperation};
ghost use Rattle.causal_order.specs.SessionClocks.Sessions.{IsAt, IsSessionTable};
ghost use Rattle.causal_order.specs.SessionClocks.WriteIndex.{AreAscending, AreSortedBelow, IsLastBelow};
ghost use Rattle.causal_order.specs.SessionClocks.WriteIndex.{IsLastIn, IsListed, IsOrdered, IsWriteIndex};
ghost use Rattle.causal_order.specs.SessionClocks.WriteIndex.{IsWritingSession, is_before as comes_before};
ghost use Rattle.causal_order.specs.SessionClocks.WriteIndex.{writes_to};
ghost use Rattle.causal_order.specs.declared.session_clocks.table.SessionTable.{SessionTable as ATable};

use crate::session_clocks::table::SessionTable;
use history_model::Operation;
use std::alloc::{AllocError, Global};

/// A write of a session.
#[derive(Clone, Copy)]
pub(crate) struct SessionWrite {
    pub(crate) session: u32,
    pub(crate) place: u32,
}

/// The writes of a history by register, session and place; the initial writes, which are of no session, are
/// not among them.
#[derive(Drop)]
pub struct WriteIndex {
    /// For each register the writes to it.
    pub(crate) registers: Vec<Vec<SessionWrite>>,
}

impl WriteIndex {
    /// The index of the writes of a history's operations. It takes n log n steps for n operations, and
    /// memory in proportion to them and to the greatest number of a register.
    ///
    /// # Errors
    /// If memory ran out.
    pub fn of(
        alloc: Global,
        ops: &[Operation],
        table: &SessionTable,
    ) -> Result<WriteIndex, AllocError>
        requires few { length ops.now < 2 ^ 22 }
        requires table { IsSessionTable ops.now table.now }
        ensures { IfOk result (λ index. IsWriteIndex ops.now table.now index) }
    {
        let mut index = listed(alloc, ops, table)?;
        index.sort();
        Ok(index)
    }

    /// The last write that a session made to a register below a place, if there is one. It takes log n steps
    /// if there are n writes to the register.
    pub fn last_below(&self, register: u32, session: u32, place: u32) -> Option<u32>
        requires ordered { IsOrdered self.now }
        ensures { (ops : List AnOperation) (table : ATable) → IsWriteIndex ops table self.now
            → IsLastBelow ops table register session place result }
    {
        if register as usize >= self.registers.len() {
            return None;
        }
        last_in(&self.registers[register as usize], session, place)
    }

    /// Sorts the list of each register.
    fn sort(&mut self)
        ensures { AreSortedBelow self.old self.new (length self.old.registers.items) }
    {
        for register in 0..self.registers.len() {
            sort_list(&mut self.registers[register]);
        }
    }
}

/// The writes of sessions to each register, in no order.
fn listed(alloc: Global, ops: &[Operation], table: &SessionTable) -> Result<WriteIndex, AllocError>
    requires few { length ops.now < 2 ^ 22 }
    requires table { IsSessionTable ops.now table.now }
    ensures { IfOk result (λ index. IsListed ops.now table.now (length ops.now) index) }
{
    let mut registers = no_lists(alloc, register_count(ops))?;
    for place in 0..ops.len() {
        if let Some(session) = writing_session(ops, table, place as u32) {
            let register = ops[place].register as usize;
            registers[register].push(SessionWrite {
                session,
                place: place as u32,
            })?;
        }
    }
    Ok(WriteIndex { registers })
}

/// 1 + the greatest number of a register; 0 if there is none.
fn register_count(ops: &[Operation]) -> usize
    ensures { (p : ℕ) (a : AnOperation) → IsAt ops.now p a → a.register < result }
{
    let mut count: usize = 0;
    for op in ops {
        count = count.max(op.register as usize + 1);
    }
    count
}

/// Empty lists, so many.
fn no_lists(alloc: Global, count: usize) -> Result<Vec<Vec<SessionWrite>>, AllocError>
    ensures size { IfOk result (λ lists. length lists.items ≡ count) }
    ensures none { IfOk result (λ lists. (r : ℕ) → writes_to (record { registers = lists }) r ≡ []) }
{
    let mut lists = Vec::with_capacity(alloc, count)?;
    for _ in 0..count {
        lists.push(Vec::new(alloc))?;
    }
    Ok(lists)
}

/// The session of the operation at a place, if it is a write of one.
fn writing_session(ops: &[Operation], table: &SessionTable, place: u32) -> Option<u32>
    requires within { place < length ops.now }
    requires numbers { length table.now.numbers.items ≡ length ops.now }
    ensures { IsWritingSession ops.now table.now place result }
{
    if ops[place as usize].act.changes() {
        table.numbers[place as usize]
    } else {
        None
    }
}

/// Sorts writes by session and place.
fn sort_list(writes: &mut Vec<SessionWrite>)
    ensures permutation { IsPermutation writes.old.items writes.new.items }
    ensures ascending { AreAscending writes.new.items }
{
    writes.sort_unstable_by_key(|write| (write.session, write.place));
}

/// Of writes in order the last one of a session below a place.
fn last_in(writes: &[SessionWrite], session: u32, place: u32) -> Option<u32>
    requires { AreAscending writes.now }
    ensures { IsLastIn writes.now session place result }
{
    let passed = writes.partition_point(|write| is_before(*write, session, place));
    if passed == 0 {
        return None;
    }
    let last = writes[passed - 1];
    if last.session == session {
        Some(last.place)
    } else {
        None
    }
}

/// Whether a write comes before what a session does at a place, by sessions first. It takes no jump, since a
/// search would mispredict half of them.
fn is_before(write: SessionWrite, session: u32, place: u32) -> bool
    ensures { result ≡ comes_before write session place }
{
    (write.session < session) | ((write.session == session) & (write.place < place))
}
