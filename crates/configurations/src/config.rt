//! Configurations: a value, and the calls that are open and have not taken effect.
ghost use Rattle.std.specs.Prelude.{◌≡◌, ◌++◌, ◌∷◌, [], true, IsTrue, IfOk, Bool, ℕ};
ghost use Rattle.configurations.specs.Configs.{AreHeld, AreOwing, AreStill, CanAll, IsHeld, IsStoodFor};
ghost use Rattle.configurations.specs.Tables.{IsTable};
ghost use Rattle.slot_sets.specs.Sets.{has};

use crate::bounds::Bound;
use crate::table::Table;
use crate::work::{Stop, Work};
use slot_sets::Slots;
use std::alloc::{AllocError, Global};

/// No place.
const NONE: u32 = 0xffff_ffff;

/// The value of the register, the slots of the calls that must take effect before their reply, those of the
/// calls that may, the place of the last move, and what it cost that calls took effect which never reply.
#[derive(Clone, Copy)]
pub(crate) struct Config<const W: usize> {
    pub value: u32,
    pub owed: Slots<W>,
    pub free: Slots<W>,
    pub last: u32,
    pub cost: u32,
}

/// Configurations, found by their value: `head` has the place of the last one of each
/// value, `next` that of the one before it.
#[derive(Drop)]
pub(crate) struct Configs<const W: usize> {
    pub list: Vec<Config<W>>,
    next: Vec<u32>,
    head: Vec<u32>,
}

impl<const W: usize> Configs<W> {
    /// None.
    pub(crate) fn new(alloc: Global, values: usize) -> Result<Self, AllocError>
        ensures { IfOk result (λ s. s.list.items ≡ []) }
    {
        Ok(Configs {
            list: Vec::new(alloc),
            next: Vec::new(alloc),
            head: vec![in alloc; NONE; values]?,
        })
    }

    /// Takes all out.
    pub(crate) fn clear(&mut self)
        ensures { self.new.list.items ≡ [] }
    {
        for config in &self.list {
            if let Some(head) = self.head.get_mut(config.value as usize) {
                *head = NONE;
            }
        }
        self.next.clear();
        self.list.clear();
    }

    /// Puts a configuration behind the others.
    #[inline(always)]
    pub(crate) fn push(&mut self, config: &Config<W>) -> Result<(), AllocError>
        ensures { IfOk result (λ _. self.new.list.items ≡ self.old.list.items ++ (config.now ∷ [])) }
    {
        let place = self.list.len();
        let mut before = NONE;
        if let Some(head) = self.head.get_mut(config.value as usize) {
            before = *head;
            *head = if place < NONE as usize {
                place as u32
            } else {
                NONE
            };
        }
        self.next.push(before)?;
        self.list.push(*config)?;
        Ok(())
    }
}

/// Whether the first can explain whatever the second can: they have the same value, and the first owes no
/// more, and has each call that isn't a look.
#[inline(always)]
fn stands_for<const W: usize>(table: &Table<W>, first: &Config<W>, second: &Config<W>) -> bool
    requires table { IsTable table.now }
    requires held { IsHeld (has table.now.used) second.now }
    ensures { IsTrue result → CanAll table.now first.now second.now }
{
    if first.value == second.value {
        if second.free.is_within(&first.free) && first.owed.is_within(&second.owed) {
            return second
                .owed
                .is_within(&first.owed.union(&first.free).union(&table.looks));
        }
    }
    false
}

/// Whether one of them can explain whatever this one can.
fn is_stood_for<const W: usize>(
    table: &Table<W>,
    set: &Configs<W>,
    config: &Config<W>,
    work: &mut Work,
) -> Result<bool, Stop>
    requires table { IsTable table.now }
    requires held { IsHeld (has table.now.used) config.now }
    ensures { IfOk result (λ found. IsTrue found → IsStoodFor table.now set.now config.now) }
{
    let Some(head) = set.head.get(config.value as usize) else {
        return Ok(false);
    };
    let mut place = *head as usize;
    while place < set.list.len() && place < set.next.len() {
        work.spend(W as u64)?;
        if stands_for(table, &set.list[place], config) {
            return Ok(true);
        }
        let before = set.next[place] as usize;
        if before >= place {
            return Ok(false);
        }
        place = before;
    }
    Ok(false)
}

/// Puts a configuration in, unless one of them can explain whatever it can. If the call of a number
/// took effect to make it, that is remembered.
#[inline(always)]
pub(crate) fn admit<const W: usize>(
    table: &Table<W>,
    set: &mut Configs<W>,
    config: &Config<W>,
    taken: Option<u32>,
    work: &mut Work,
) -> Result<(), Stop>
    requires table { IsTable table.now }
    requires held { IsHeld (has table.now.used) config.now }
    ensures all { IfOk result
        (λ _. (w : ℕ → Bool) → IsHeld w config.now → AreHeld w set.old → AreHeld w set.new) }
    ensures owing { IfOk result
        (λ _. (q : ℕ) → has config.now.owed q ≡ true → AreOwing q set.old → AreOwing q set.new) }
    ensures kept { IfOk result (λ _. AreStill set.old set.new) }
    ensures there { IfOk result (λ _. IsStoodFor table.now set.new config.now) }
{
    if is_stood_for(table, set, config, work)? {
        return Ok(());
    }
    if work.is_full(set.list.len()) {
        return Err(Stop::Bound(Bound::Configurations));
    }
    let last = match taken {
        Some(number) => work.moved(number, config.last)?,
        None => config.last,
    };
    set.push(&Config { last, ..*config })?;
    Ok(())
}

/// The places of configurations, those with the least burden first; of equal ones, the first.
pub(crate) fn ranked<const W: usize>(
    alloc: Global,
    configs: &[Config<W>],
) -> Result<Vec<usize>, AllocError> {
    let mut ranked = Vec::new(alloc);
    for (at, config) in configs.iter().enumerate() {
        ranked.push((burden(config), at))?;
    }
    ranked.sort_unstable();
    ranked.iter().map(|one| one.1).collect(alloc)
}

/// What speaks against a configuration: what it cost that calls took effect which never reply, and how many
/// calls must still take effect.
fn burden<const W: usize>(config: &Config<W>) -> u32 {
    config.cost.saturating_add(config.owed.count())
}
