//! One leg of a relay: from a baton over some events to the next baton, with sets as wide as the calls need
//! that are open in it.
ghost use Rattle.std.specs.Prelude.{◌≡◌, ◌<◌, ◌*◌, ◌^◌, [], IfOk};
ghost use Rattle.configurations.specs.Configs.{AreHeld, IsHeld};
ghost use Rattle.configurations.specs.Tables.{IsTable};
ghost use Rattle.slot_sets.specs.Sets.{has};

use crate::baton::{Baton, handed_over};
use crate::bounds::Bound;
use crate::config::{Config, Configs, admit};
use crate::forward::{takes_slot, words_for};
use crate::moment::Moment;
use crate::needs::Needs;
use crate::op::Op;
use crate::outlook::Outlook;
use crate::reply::Lists;
use crate::run::{forget_moves, step_over};
use crate::runner::{Runner, Stand};
use crate::table::{NO_SLOT, Table};
use crate::work::{Stop, Work};
use slot_sets::Slots;
use std::alloc::{AllocError, Global};

/// How many steps it takes to go over an event of a leg, which may be gone over again, and to hand its call
/// over, beside those that a run takes.
const STEPS_PER_LEG_EVENT: u64 = 24;

/// What is handed from leg to leg, whatever the configurations.
#[derive(Drop)]
pub(crate) struct Track {
    pub ops: Vec<Op>,
    pub slot_of: Vec<u32>,
    pub elders: Vec<usize>,
    pub needs: Needs,
    pub spent: Work,
    pub values: usize,
    /// How many events a leg has.
    pub length: usize,
}

/// Runs the leg after a baton, with sets as wide as it needs.
pub(crate) fn next_leg(
    alloc: Global,
    track: Track,
    baton: &Baton,
    events: &[Moment],
) -> Result<(Track, Result<Baton, Stop>), AllocError> {
    let end = end_of(&track, baton, events);
    match words_of_leg(&track.ops, baton, events, end) {
        1 => leg::<1>(alloc, track, baton, events),
        2 => leg::<2>(alloc, track, baton, events),
        4 => leg::<4>(alloc, track, baton, events),
        8 => leg::<8>(alloc, track, baton, events),
        16 => leg::<16>(alloc, track, baton, events),
        32 => leg::<32>(alloc, track, baton, events),
        64 => leg::<64>(alloc, track, baton, events),
        128 => leg::<128>(alloc, track, baton, events),
        256 => leg::<256>(alloc, track, baton, events),
        _ => Ok((track, Err(Stop::Bound(Bound::Steps)))),
    }
}

/// The place after the leg that follows a baton.
fn end_of(track: &Track, baton: &Baton, events: &[Moment]) -> usize {
    baton.place.saturating_add(track.length).min(events.len())
}

/// How many words a set of the calls has that are open at a time in a leg. Replies count only of calls in it.
fn words_of_leg(ops: &[Op], baton: &Baton, events: &[Moment], end: usize) -> usize {
    let mut open = baton.calls.len();
    let mut most = open;
    let mut first = u32::MAX;
    for place in baton.place..end {
        match events.get(place) {
            Some(Moment::Call(number)) => {
                first = first.min(*number);
                if takes_slot(ops, *number) {
                    open = open.saturating_add(1);
                    most = most.max(open);
                }
            }
            Some(Moment::Reply(number)) => {
                if *number >= first {
                    open = open.saturating_sub(1);
                }
            }
            None => {}
        }
    }
    words_for(most)
}

/// Runs a leg; gives the baton at its end.
fn leg<const W: usize>(
    alloc: Global,
    track: Track,
    baton: &Baton,
    events: &[Moment],
) -> Result<(Track, Result<Baton, Stop>), AllocError>
    requires room { 64 * W < 2 ^ 32 }
{
    let end = end_of(&track, baton, events);
    let Track {
        ops,
        slot_of,
        elders,
        needs,
        spent,
        values,
        length,
    } = track;
    let mut slot_of = slot_of;
    forget_slots(&mut slot_of, baton, events, end);
    let mut table = Table::<W>::over(alloc, ops, slot_of, elders, values)?;
    let mut lists = Lists {
        work: Configs::new(alloc, values)?,
        next: Configs::new(alloc, values)?,
        spent,
        outlook: Outlook::over(alloc, needs, baton.sight.copied(alloc)?)?,
    };
    let ended = run_leg(&mut table, &mut lists, baton, events, end);
    let track = Track {
        ops: table.ops,
        slot_of: table.slot_of,
        elders: table.elders,
        needs: lists.outlook.into_needs(),
        spent: lists.spent,
        values,
        length,
    };
    Ok((track, ended))
}

/// The calls that are open at first, and those of the leg, have no slots yet.
fn forget_slots(slot_of: &mut [u32], baton: &Baton, events: &[Moment], end: usize) {
    for number in &baton.calls {
        forget_slot(slot_of, *number);
    }
    for number in &baton.reserve {
        forget_slot(slot_of, *number);
    }
    for place in baton.place..end {
        if let Some(Moment::Call(number)) = events.get(place) {
            forget_slot(slot_of, *number);
        }
    }
}

/// A call has no slot.
fn forget_slot(slot_of: &mut [u32], number: u32) {
    if let Some(slot) = slot_of.get_mut(number as usize) {
        *slot = NO_SLOT;
    }
}

/// Runs a leg over an empty table.
fn run_leg<const W: usize>(
    table: &mut Table<W>,
    lists: &mut Lists<W>,
    baton: &Baton,
    events: &[Moment],
    end: usize,
) -> Result<Baton, Stop>
    requires table { IsTable table.old }
{
    let alloc = lists.spent.alloc();
    lists.spent.spend(baton.cost(W))?;
    let slots = give_all(alloc, table, &mut lists.outlook, &baton.calls)?;
    let mut now = Configs::new(alloc, baton.sight.values())?;
    seat_all(table, &mut now, &mut lists.spent, baton, &slots)?;
    for place in baton.place..end {
        let Some(event) = events.get(place) else {
            return Err(Stop::Bound(Bound::Steps));
        };
        forget_moves(&now, &mut lists.spent)?;
        lists.spent.spend(STEPS_PER_LEG_EVENT)?;
        lists.spent.go_to(place)?;
        step_over(table, &mut now, lists, *event)?;
        if now.list.is_empty() {
            return Err(Stop::Bound(Bound::Configurations));
        }
    }
    Ok(Baton {
        place: end,
        ..handed_over(alloc, table, lists, &now, baton)?
    })
}

/// Gives slots to calls.
fn give_all<const W: usize>(
    alloc: Global,
    table: &mut Table<W>,
    outlook: &mut Outlook<W>,
    calls: &[u32],
) -> Result<Vec<u32>, Stop>
    requires table { IsTable table.old }
    ensures { IfOk result (λ _. IsTable table.new) }
{
    let mut slots = Vec::new(alloc);
    for number in calls {
        let Some(slot) = table.give(*number) else {
            return Err(Stop::Bound(Bound::Steps));
        };
        if let Some(op) = table.op_of(*number) {
            outlook.open(&op, slot);
        }
        slots.push(slot)?;
    }
    Ok(slots)
}

/// Puts the configurations of a baton in, whose calls have got these slots.
fn seat_all<const W: usize>(
    table: &Table<W>,
    now: &mut Configs<W>,
    spent: &mut Work,
    baton: &Baton,
    slots: &[u32],
) -> Result<(), Stop>
    requires table { IsTable table.now }
    requires empty { now.old.list.items ≡ [] }
    ensures { IfOk result (λ _. AreHeld (has table.now.used) now.new) }
{
    for runner in &baton.runners {
        let config = seated(table, runner, slots);
        admit(table, now, &config, None, spent)?;
    }
    Ok(())
}

/// The configuration of a runner.
fn seated<const W: usize>(table: &Table<W>, runner: &Runner, slots: &[u32]) -> Config<W>
    requires table { IsTable table.now }
    ensures { IsHeld (has table.now.used) result }
{
    let mut owed = Slots::none();
    let mut free = Slots::none();
    for (place, stand) in runner.stands.iter().enumerate() {
        if let Some(slot) = slots.get(place) {
            match *stand {
                Stand::Owed => owed.insert(*slot),
                Stand::Free => free.insert(*slot),
                Stand::Gone => {}
            }
        }
    }
    Config {
        value: runner.value,
        owed: owed.common(&table.used),
        free: free.common(&table.used),
        last: runner.last,
        cost: runner.cost,
    }
}
