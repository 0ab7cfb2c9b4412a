//! How an event joins one list of each family, before it has a row: the last event of the list gets its link.
ghost use Rattle.std.specs.Prelude.{◌≡◌, ◌<◌, ◌≤◌, ◌^◌, ◌+◌, ◌++◌, ◌∷◌, [], ℕ, length};
ghost use Rattle.std.specs.Prelude.{slice_get, max, Some, None, option_map, OnOk, IfOk};
ghost use Rattle.history_text.specs.declared.event.Val.{Val as AVal};
ghost use Rattle.reg_arena.specs.Lists.EventLists.{IsJoined, IsJoinedBy, IsEnteredBy, end_of, event_number};
ghost use Rattle.reg_arena.specs.Lists.EventLists.{process_ends, value_ends, value_entry, value_number};
ghost use Rattle.reg_arena.specs.Lists.EventLists.{whole};
ghost use Rattle.reg_arena.specs.Lists.Tables.{item_at};
ghost use Rattle.history_model.specs.Operations.{number_in};
ghost use Rattle.history_model.specs.Walking.{by_value};
ghost use Rattle.reg_arena.specs.Lists.Rows.{with_in_process, with_in_register, with_in_value};
ghost use Rattle.reg_arena.specs.declared.event_lists.options.TheConstants.{NO_NUMBER};
ghost use Rattle.reg_arena.specs.declared.event_lists.list_ends.Ends.{Ends};

use crate::event_lists::list_ends::{Ends, Entry};
use crate::event_lists::pairs::Pairs;
use crate::event_lists::processes::Processes;
use crate::event_lists::rows::Rows;
use history_model::{EvId, Event, RegId};
use history_text::Val;
use std::alloc::AllocError;

/// Joins event `id` to the list of its process.
pub(crate) fn join_process(
    rows: &mut Rows,
    processes: &mut Processes,
    process: u32,
    id: EvId,
) -> Result<(), AllocError>
    requires within { (e : Ends) → process_ends processes.old process ≡ Some e
        → e.last.0 < length rows.old.events }
    requires column { length rows.old.in_process ≡ length rows.old.events }
    requires bound { id.0 < NO_NUMBER }
    ensures joined { OnOk result
        (IsJoined process id (item_at rows.old.in_process) (item_at (rows.new.in_process ++ None ∷ []))
        (process_ends processes.old) (process_ends processes.new)) }
    ensures others { OnOk result (rows.new ≡ with_in_process rows.old rows.new.in_process) }
    ensures count { OnOk result (length rows.new.in_process ≡ length rows.old.in_process) }
{
    let first = match processes.get(process) {
        Some(ends) => {
            rows.link_in_process(ends.last, id);
            ends.first
        }
        None => id,
    };
    processes.set(process, Ends { first, last: id })?;
    Ok(())
}

/// Joins event `id` to the list of its register, which is known or the next, if it has a register.
pub(crate) fn join_register(
    rows: &mut Rows,
    registers: &mut Vec<Ends>,
    register: Option<RegId>,
    id: EvId,
) -> Result<(), AllocError>
    requires within { (e : Ends) → slice_get registers.old.items (number_in register) ≡ Some e
        → e.last.0 < length rows.old.events }
    requires column { length rows.old.in_register ≡ length rows.old.events }
    requires next { number_in register ≤ length registers.old.items }
    requires bound { id.0 < NO_NUMBER }
    ensures joined { OnOk result
        (IsJoinedBy (option_map (λ r. r.0) register) id (item_at rows.old.in_register)
        (item_at (rows.new.in_register ++ None ∷ [])) (slice_get registers.old.items)
        (slice_get registers.new.items)) }
    ensures others { OnOk result (rows.new ≡ with_in_register rows.old rows.new.in_register) }
    ensures count { OnOk result (length rows.new.in_register ≡ length rows.old.in_register) }
    ensures registers { OnOk result
        (length registers.new.items ≡ max (length registers.old.items) (end_of register)) }
{
    match register {
        Some(register) => link_register(rows, registers, register, id),
        None => Ok(()),
    }
}

/// Links event `id` after the last event of its register, which is known or the next.
fn link_register(
    rows: &mut Rows,
    registers: &mut Vec<Ends>,
    register: RegId,
    id: EvId,
) -> Result<(), AllocError>
    requires within { (e : Ends) → slice_get registers.old.items register.0 ≡ Some e
        → e.last.0 < length rows.old.events }
    requires column { length rows.old.in_register ≡ length rows.old.events }
    requires next { register.0 ≤ length registers.old.items }
    requires bound { id.0 < NO_NUMBER }
    ensures joined { OnOk result
        (IsJoined register.0 id (item_at rows.old.in_register) (item_at (rows.new.in_register ++ None ∷ []))
        (slice_get registers.old.items) (slice_get registers.new.items)) }
    ensures others { OnOk result (rows.new ≡ with_in_register rows.old rows.new.in_register) }
    ensures count { OnOk result (length rows.new.in_register ≡ length rows.old.in_register) }
    ensures registers { OnOk result
        (length registers.new.items ≡ max (length registers.old.items) (register.0 + 1)) }
{
    let number = register.0 as usize;
    if number < registers.len() {
        let ends = registers[number];
        rows.link_in_register(ends.last, id);
        registers[number] = Ends {
            first: ends.first,
            last: id,
        };
    } else {
        registers.push(Ends {
            first: id,
            last: id,
        })?;
    }
    Ok(())
}

/// The number of a value, if it is one.
pub(crate) fn whole(value: Val) -> Option<i64>
    ensures { result ≡ whole value }
{
    match value {
        Val::Null => None,
        Val::Int(n) => Some(n),
    }
}

/// Where an event that joins the list of its register and value stands, the event of its call, and the number
/// of that list's entry, if there is one already.
#[derive(Clone, Copy)]
pub(crate) struct Joined {
    pub(crate) number: Option<u32>,
    pub(crate) id: EvId,
    pub(crate) call: EvId,
}

/// Joins an event to the list of its register and value, if it has a value.
///
/// Gives back the number of its entry.
pub(crate) fn join_value(
    rows: &mut Rows,
    pairs: &mut Pairs,
    entries: &mut Vec<Entry>,
    event: &Event,
    joined: Joined,
) -> Result<Option<u32>, AllocError>
    requires number { joined.number ≡ event_number pairs.old event.now }
    requires within { (k : ℕ × AVal) (e : Ends) → value_ends pairs.old entries.old.items k ≡ Some e
        → e.last.0 < length rows.old.events }
    requires column { length rows.old.in_value ≡ length rows.old.events }
    requires numbered { length pairs.old ≡ length entries.old.items }
    requires room { length entries.old.items < 2 ^ 32 }
    requires bound { joined.id.0 < NO_NUMBER }
    ensures joined { OnOk result
        (IsJoinedBy (by_value event.now) joined.id (item_at rows.old.in_value)
        (item_at (rows.new.in_value ++ None ∷ [])) (value_ends pairs.old entries.old.items)
        (value_ends pairs.new entries.new.items)) }
    ensures entered { OnOk result
        (IsEnteredBy (by_value event.now) event.now joined.id joined.call
        (value_entry pairs.old entries.old.items) (value_entry pairs.new entries.new.items)) }
    ensures numbered { OnOk result (length pairs.new ≡ length entries.new.items) }
    ensures few { length entries.new.items ≤ length entries.old.items + 1 }
    ensures number { IfOk result (λ n. n ≡ event_number pairs.new event.now) }
    ensures kept { OnOk result ((q : ℕ × AVal) (n : ℕ) → value_number pairs.old q ≡ Some n
        → value_number pairs.new q ≡ Some n) }
    ensures others { OnOk result (rows.new ≡ with_in_value rows.old rows.new.in_value) }
    ensures count { OnOk result (length rows.new.in_value ≡ length rows.old.in_value) }
{
    let Joined { number, id, call } = joined;
    match (number, event.value, event.register) {
        (Some(number), _, _) => {
            let entry = entries[number as usize];
            rows.link_in_value(entry.ends.last, id);
            entries[number as usize] = entry.with(event, id, call);
            Ok(Some(number))
        }
        (None, Some(value), Some(register)) => {
            let number = entries.len() as u32;
            pairs.add(register.0, whole(value))?;
            entries.push(Entry::new(event, id, call))?;
            Ok(Some(number))
        }
        (None, Some(_), None) | (None, None, _) => Ok(None),
    }
}
