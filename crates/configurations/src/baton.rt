//! What is handed from one leg of a relay to the next.
ghost use Rattle.std.specs.Prelude.{◌<◌, ◌*◌, ◌^◌};
ghost use Rattle.configurations.specs.Tables.{IsTable};

use crate::config::{Config, Configs};
use crate::needs::Sight;
use crate::op::{NEVER, Op, misses, writes};
use crate::reply::Lists;
use crate::runner::{Runner, Stand};
use crate::table::{NO_SLOT, Table};
use crate::work::NO_MOVE;
use slot_sets::Slots;
use std::alloc::{AllocError, Global};
use std::collections::BTreeMap;

/// How many calls that change alike and never reply are open at a time, of those that each configuration has.
const MOST_ALIKE: usize = 8;

/// How many stands a baton has at most.
const MOST_STANDS: usize = 1 << 22;

/// For each so many calls that are held back, there is a leg more in which none of them may go on.
const HELD_FOR_A_LEG: usize = 1_024;

/// How many steps it takes to hand a call over, which is counted by what it changes, beside one for each
/// [`WORDS_PER_STEP`] words, among which a slot is looked for.
const STEPS_PER_CALL: usize = 24;

const WORDS_PER_STEP: usize = 16;

/// How many it takes to hand one over that is held back, in most legs.
const STEPS_PER_HELD: usize = 1;

/// How many it takes to copy what is known of a value, beside one for each eight words.
const STEPS_PER_VALUE: usize = 4;

/// How many steps it takes to hand a configuration over, beside one for each call.
const STEPS_PER_RUNNER: usize = 4;

/// What a leg begins with.
#[derive(Drop)]
pub(crate) struct Baton {
    /// The place of the next event.
    pub place: usize,
    pub sight: Sight,
    /// The calls that are open, in order.
    pub calls: Vec<u32>,
    /// Those that are held back. In some legs, those of them go on that are too few by then.
    pub reserve: Vec<u32>,
    /// How many legs there are until that.
    pub legs_on: usize,
    pub runners: Vec<Runner>,
}

/// The calls that go on, with the slots that they had, or none.
#[derive(Drop)]
struct Open {
    calls: Vec<u32>,
    slots: Vec<u32>,
    reserve: Vec<u32>,
}

impl Baton {
    /// Before the first event.
    pub(crate) fn first(alloc: Global, sight: Sight) -> Result<Self, AllocError> {
        let mut runners = Vec::new(alloc);
        runners.push(Runner {
            value: 0,
            last: NO_MOVE,
            cost: 0,
            stands: Vec::new(alloc),
        })?;
        Ok(Baton {
            place: 0,
            sight,
            calls: Vec::new(alloc),
            reserve: Vec::new(alloc),
            legs_on: 0,
            runners,
        })
    }

    /// The last move of the first configuration.
    pub(crate) fn last_move(&self) -> u32 {
        match self.runners.first() {
            Some(runner) => runner.last,
            None => NO_MOVE,
        }
    }

    /// How many steps it takes to begin with it and to hand its calls over again, with sets of so many words.
    pub(crate) fn cost(&self, words: usize) -> u64 {
        let each = self.calls.len().saturating_add(STEPS_PER_RUNNER);
        let calls = self
            .calls
            .len()
            .saturating_mul(STEPS_PER_CALL + words / WORDS_PER_STEP);
        let each_held = if self.legs_on == 0 {
            STEPS_PER_CALL
        } else {
            STEPS_PER_HELD
        };
        let held = self.reserve.len().saturating_mul(each_held);
        let values = self
            .sight
            .values()
            .saturating_mul(STEPS_PER_VALUE + words / 8);
        let all = self.runners.len().saturating_mul(each);
        all.saturating_add(calls)
            .saturating_add(held)
            .saturating_add(values) as u64
    }
}

/// The baton after a leg, but for its place.
pub(crate) fn handed_over<const W: usize>(
    alloc: Global,
    table: &Table<W>,
    lists: &Lists<W>,
    now: &Configs<W>,
    before: &Baton,
) -> Result<Baton, AllocError>
    requires { IsTable table.now }
{
    let open = left_open(alloc, table, now, before)?;
    let most = MOST_STANDS / open.calls.len().max(1);
    let mut runners = Vec::new(alloc);
    for config in &now.list {
        if runners.len() >= most {
            break;
        }
        runners.push(runner_of(alloc, config, &open.slots)?)?;
    }
    let legs_on = match before.legs_on.checked_sub(1) {
        Some(left) => left,
        None => open.reserve.len() / HELD_FOR_A_LEG,
    };
    Ok(Baton {
        place: 0,
        sight: lists.outlook.sight().copied(alloc)?,
        calls: open.calls,
        reserve: open.reserve,
        legs_on,
        runners,
    })
}

/// A configuration, with the stands of the calls of these slots.
fn runner_of<const W: usize>(
    alloc: Global,
    config: &Config<W>,
    slots: &[u32],
) -> Result<Runner, AllocError> {
    let mut stands = Vec::new(alloc);
    for slot in slots {
        stands.push(stand(&config.owed, &config.free, *slot))?;
    }
    Ok(Runner {
        value: config.value,
        last: config.last,
        cost: config.cost,
        stands,
    })
}

/// How the call of a slot stands; one that was held back may take effect.
fn stand<const W: usize>(owed: &Slots<W>, free: &Slots<W>, slot: u32) -> Stand {
    if owed.has(slot) {
        Stand::Owed
    } else if slot == NO_SLOT || free.has(slot) {
        Stand::Free
    } else {
        Stand::Gone
    }
}

/// The calls that some configuration has, in order, and at times those that were held back.
fn left_open<const W: usize>(
    alloc: Global,
    table: &Table<W>,
    now: &Configs<W>,
    before: &Baton,
) -> Result<Open, AllocError>
    requires { IsTable table.now }
{
    let mut some = Slots::none();
    let mut spare = table.unanswered;
    for config in &now.list {
        some = some.union(&config.owed).union(&config.free);
        spare = spare.common(&config.free).minus(&config.owed);
    }
    let mut all = Vec::new(alloc);
    let mut reserve = Vec::new(alloc);
    for number in &before.reserve {
        if before.legs_on == 0 {
            all.push((*number, NO_SLOT, true))?;
        } else {
            reserve.push(*number)?;
        }
    }
    let mut at = 0;
    for _ in 0..some.count() {
        let Some(slot) = some.first_from(at) else {
            break
        };
        all.push((table.call(slot), slot, spare.has(slot)))?;
        at = slot + 1;
    }
    all.sort_unstable();
    chosen(alloc, &table.ops, &all, reserve)
}

/// Holds calls back that each configuration may use, if many change alike, beside those of `reserve`.
fn chosen(
    alloc: Global,
    ops: &[Op],
    all: &[(u32, u32, bool)],
    reserve: Vec<u32>,
) -> Result<Open, AllocError> {
    let mut open = Open {
        calls: Vec::new(alloc),
        slots: Vec::new(alloc),
        reserve,
    };
    let mut counts = BTreeMap::new(alloc);
    for (number, slot, is_spare) in all {
        let before = match ops.get(*number as usize) {
            Some(op) => count_alike(&mut counts, op)?,
            None => 0,
        };
        if *is_spare && before >= MOST_ALIKE {
            open.reserve.push(*number)?;
        } else {
            open.calls.push(*number)?;
            open.slots.push(*slot)?;
        }
    }
    Ok(open)
}

/// How many such calls there were that never reply. It is counted from now on.
fn count_alike(
    counts: &mut BTreeMap<(bool, bool, u32, u32), usize>,
    op: &Op,
) -> Result<usize, AllocError> {
    if op.rank < NEVER {
        return Ok(0);
    }
    let key = (writes(op), misses(op), op.from, op.to);
    let before = match counts.get(&key) {
        Some(count) => *count,
        None => 0,
    };
    counts.insert(key, before.saturating_add(1))?;
    Ok(before)
}
