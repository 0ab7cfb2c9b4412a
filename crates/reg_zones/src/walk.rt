//! One walk over a register's events that looks for a fault, as `pass`
//! does, and lists the operations as it goes.
//!
//! Each event is met once for both. Callers that want the fault alone use `pass`, which takes no memory.
ghost use Rattle.std.specs.Prelude.{◌≡◌, ◌≤◌, IfOk, OnOk, MatchResult};
ghost use Rattle.history_model.specs.Walking.{IsOnWalk};
ghost use Rattle.reg_zones.specs.Entries.{IsListing};
ghost use Rattle.reg_zones.specs.Faults.{IsFault};
ghost use Rattle.reg_zones.specs.Register.{operations_of};
ghost use Rattle.reg_zones.specs.Sweep.{AreLaterFaults};

use crate::ahead::Ahead;
use crate::entry::{Entry, initial_entry, listed_at};
use crate::fault::Fault;
use crate::pass::{Compared, LaterFaults, compare_at, initial_cluster, initial_forward};
use crate::reads::early_at;
use crate::register::Register;
use history_model::EvId;
use std::alloc::{AllocError, Global};

/// How many events a walk looks at beforehand, to ask for the room of their operations at once.
const STRETCH: usize = 64;

/// How many operations begin with the register's next `STRETCH` events.
///
/// The rows of a register's events lie far apart. A step here does so little that the processor fetches
/// several rows at a time, and the walk, which does more at each event, then finds them at hand.
fn room_for(register: Register<'_>, from: Option<EvId>) -> usize
    requires { IsOnWalk register.arena.now.events register.id.0 from }
    ensures { result ≤ STRETCH }
{
    let mut room = 0;
    let mut left = STRETCH;
    let mut next = from;
    while let Some(id) = next {
        if left == 0 {
            return room;
        }
        left -= 1;
        if register.arena.begins(id) {
            room += 1;
        }
        next = register.arena.next_in_register(id);
    }
    room
}

/// Asks for the room of the next stretch's operations if no event is left of this one. Gives back how many
/// events are left after the event at hand.
fn next_left(
    register: Register<'_>,
    next: Option<EvId>,
    left: usize,
    entries: &mut Vec<Entry>,
) -> Result<usize, AllocError>
    requires { IsOnWalk register.arena.now.events register.id.0 next }
    ensures { OnOk result (entries.new.items ≡ entries.old.items) }
{
    if left > 0 {
        return Ok(left - 1);
    }
    entries.reserve(room_for(register, next))?;
    Ok(STRETCH - 1)
}

/// What a walk found of early reads and of zones, with the kept writes and the completed reads, each once, by
/// call; or the first completed read without a write.
pub(crate) fn found_and_listed(
    alloc: Global,
    register: Register<'_>,
) -> Result<Result<(LaterFaults, Vec<Entry>), Fault>, AllocError>
    ensures { IfOk result (λ walked. MatchResult walked
        (λ both. AreLaterFaults (operations_of register.entry) both.0
        × IsListing (operations_of register.entry) both.1.items)
        (λ fault. IsFault (operations_of register.entry) fault)) }
{
    let initial = initial_cluster(register);
    let first = register.arena.first_of_register(register.id);
    let mut entries = Vec::with_capacity(alloc, room_for(register, first) + 1)?;
    entries.push(initial_entry(register, initial))?;
    let mut early = None;
    let mut clusters = Compared::Clear(initial_forward(register, initial));
    let mut ahead = Ahead::of(register);
    let mut left = STRETCH;
    while let Some(id) = ahead.next {
        left = next_left(register, ahead.next, left, &mut entries)?;
        let further = ahead.further(register);
        let met = register.meet(id, ahead.oper);
        match early_at(register, met, id) {
            Err(fault) => return Ok(Err(fault)),
            Ok(here) => early = early.or(here),
        }
        if let Some(entry) = listed_at(register, met, id) {
            entries.push(entry)?;
        }
        compare_at(register, &mut clusters, met, id);
        ahead = further;
    }
    let conflict = clusters.conflict();
    Ok(Ok((LaterFaults { early, conflict }, entries)))
}
