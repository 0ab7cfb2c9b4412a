//! The step over a reply: where the call has not taken effect, others do before it.
ghost use Rattle.std.specs.Prelude.{◌≡◌, ◌≢◌, ◌∷◌, ◌&&◌, ◌||◌, not, true, false, IsTrue, IfOk, List, ℕ};
ghost use Rattle.configurations.specs.Configs.{AreApart, AreKept, AreStill, IsHeld, free_of, owed_by};
ghost use Rattle.configurations.specs.Configs.{GoesBy, IsAbleBy, IsAnyAble, IsAnyAbleBy, IsGoneOver};
ghost use Rattle.configurations.specs.Configs.{IsLed, IsTried};
ghost use Rattle.slot_sets.specs.Sets.{has};
ghost use Rattle.configurations.specs.Ops.{fits_at, left_at};
ghost use Rattle.configurations.specs.Runs.{AliveBy};
ghost use Rattle.configurations.specs.Tables.{IsTable, IsToCome, IsWithin, call_at};
ghost use Rattle.configurations.specs.Use.{IsAsked, IsOfUse, free_after, open_after};
ghost use Rattle.configurations.specs.declared.moment.Moment.{Moment as AMoment};
ghost use Rattle.configurations.specs.declared.moment.Moment.TheVariants.{Reply as AReply};

use crate::bounds::Bound;
use crate::config::{Config, Configs, admit};
use crate::outlook::Outlook;
use crate::table::Table;
use crate::work::{Stop, Work};
use slot_sets::Slots;

/// The configurations that are gone over at a reply, and those after it.
#[derive(Drop)]
pub(crate) struct Lists<const W: usize> {
    pub work: Configs<W>,
    pub next: Configs<W>,
    pub spent: Work,
    pub outlook: Outlook<W>,
}

impl<const W: usize> Lists<W> {
    /// How many configurations it has.
    pub(crate) fn held(&self) -> usize {
        self.work.list.len().saturating_add(self.next.list.len())
    }
}

/// Whether an open call that is no write may take effect at this value.
#[inline(always)]
fn is_asked<const W: usize>(table: &Table<W>, config: &Config<W>, value: u32) -> bool
    requires table { IsTable table.now }
    requires held { IsHeld (has table.now.used) config.now }
    ensures { result ≡ false
        → IsAsked table.now.ops.items (owed_by table.now config.now) (free_of table.now config.now) value
        → ⊥ }
{
    config
        .owed
        .union(&config.free)
        .meets(&table.fitting(value).minus(&table.writes))
}

/// Whether the call of a slot must take effect, and isn't a write.
#[inline(always)]
fn must_change<const W: usize>(table: &Table<W>, config: &Config<W>, slot: u32) -> bool
    ensures { result ≡ (has config.now.owed slot && not (has table.now.writes slot)) }
{
    config.owed.has(slot) && !table.writes.has(slot)
}

/// Whether it is of use before the reply that the call of a slot takes effect.
#[inline(always)]
pub(crate) fn is_of_use<const W: usize>(
    table: &Table<W>,
    config: &Config<W>,
    slot: u32,
    reply: u32,
) -> bool
    requires table { IsTable table.now }
    requires held { IsHeld (has table.now.used) config.now }
    requires slot { has table.now.used slot ≡ true }
    requires reply { has table.now.used reply ≡ true }
    ensures { result ≡ false
        → IsOfUse table.now.ops.items (owed_by table.now config.now) (free_of table.now config.now)
        (call_at table.now reply) (call_at table.now slot) config.now.value → ⊥ }
{
    if slot == reply {
        return true;
    }
    if must_change(table, config, slot) {
        return true;
    }
    is_asked(table, config, table.left(slot, config.value))
}

/// Whether the call before it goes first that changes alike, where neither ever replies. Thousands of crashed
/// calls may change alike, and this leaves out all of them but one.
#[inline(always)]
pub(crate) fn has_elder<const W: usize>(table: &Table<W>, config: &Config<W>, slot: u32) -> bool
    ensures { IsTrue result → IsLed table.now config.now slot }
{
    let Some(elder) = table.elder(slot) else {
        return false;
    };
    if config.free.has(elder) && !config.owed.has(elder) && !config.owed.has(slot) {
        table.goes_before(elder, slot)
    } else {
        false
    }
}

/// How many calls that change alike are looked at for one that goes first.
const MOST_RIVALS: usize = 1_024;

/// How many steps it spends to look at one of them, or to find the one that goes first if neither replies.
pub(crate) const STEPS_PER_RIVAL: u64 = 4;

/// How many steps it spends to try a call, beside one for each word.
pub(crate) const STEPS_PER_TRIAL: u64 = 2;

/// Whether the call of another slot goes first: it changes alike and replies sooner, and
/// must take effect or needn't as this one. Some of those that reply are looked at.
#[inline(always)]
pub(crate) fn is_led<const W: usize>(
    table: &Table<W>,
    config: &Config<W>,
    slot: u32,
    spent: &mut Work,
) -> Result<bool, Stop>
    requires table { IsTable table.now }
    requires held { IsHeld (has table.now.used) config.now }
    requires slot { has table.now.used slot ≡ true }
    ensures { IfOk result (λ led. IsTrue led → IsLed table.now config.now slot) }
{
    let open = if config.owed.has(slot) {
        config.owed.minus(&config.free)
    } else {
        config.owed.either(&config.free)
    };
    let mut rivals = table.alike(slot).common(&open).minus(&table.unanswered);
    rivals.remove(slot);
    let mut at = 0;
    for _ in 0..MOST_RIVALS {
        let Some(rival) = rivals.first_from(at) else {
            break
        };
        spent.spend(STEPS_PER_RIVAL)?;
        if table.goes_before(rival, slot) {
            return Ok(true);
        }
        at = rival + 1;
    }
    Ok(false)
}

/// The slots of the writes that are free once the call of a slot has taken effect before the reply: of all
/// others after a write, and else of those that write the value that it leaves.
#[inline(always)]
fn freeing<const W: usize>(table: &Table<W>, value: u32, slot: u32, reply: u32) -> Slots<W>
    requires table { IsTable table.now }
    ensures { has table.now.writes slot ≡ true → (q : ℕ) → q ≢ reply → has table.now.writes q ≡ true
        → has result q ≡ true }
{
    let mut freed = table.writes;
    if !table.writes.has(slot) {
        freed = freed.common(&table.asked(value));
    }
    freed.remove(reply);
    freed
}

/// What comes of a configuration when the call of a slot takes effect; the
/// looks that the value then suits do, too.
#[inline(always)]
pub(crate) fn offspring<const W: usize>(
    table: &Table<W>,
    config: &Config<W>,
    slot: u32,
    reply: u32,
) -> Config<W>
    requires table { IsTable table.now }
    requires held { IsHeld (has table.now.used) config.now }
    requires slot { has table.now.used slot ≡ true }
    requires reply { has table.now.used reply ≡ true }
    ensures held { IsHeld (has table.now.used) result }
    ensures able { (es : List AMoment) (n : ℕ)
        → AliveBy table.now.ops.items (call_at table.now reply) es n
        (left_at table.now.ops.items (call_at table.now slot) config.now.value)
        (open_after table.now.ops.items (call_at table.now reply) (call_at table.now slot)
        (owed_by table.now config.now))
        (free_after table.now.ops.items (call_at table.now reply) (call_at table.now slot)
        (owed_by table.now config.now) (free_of table.now config.now))
        → IsAbleBy table.now (call_at table.now reply) es n result }
{
    let value = table.left(slot, config.value);
    let content = table.fitting(value).common(&table.looks);
    let freed = freeing(table, value, slot, reply);
    let mut owed = config.owed;
    owed.remove(slot);
    let mut free = config.free;
    free.remove(slot);
    Config {
        value,
        owed: owed.minus(&freed.union(&content)),
        free: free.union(&owed.common(&freed)),
        last: config.last,
        cost: table.cost_with(slot, config.cost),
    }
}

/// A configuration goes on: if the call that replies must still take effect to `work`, else to `next`. If
/// that call is free, it is dropped, or must take effect now.
#[inline(always)]
pub(crate) fn put_down<const W: usize>(
    table: &Table<W>,
    lists: &mut Lists<W>,
    config: &Config<W>,
    taken: Option<u32>,
    reply: u32,
) -> Result<(), Stop>
    requires table { IsTable table.now }
    requires held { IsHeld (has table.now.used) config.now }
    requires reply { has table.now.used reply ≡ true }
    requires apart { AreApart table.now reply lists.old.work lists.old.next }
    ensures apart { IfOk result (λ _. AreApart table.now reply lists.new.work lists.new.next) }
    ensures kept { IfOk result (λ _. AreKept lists.old.work lists.old.next lists.new.work lists.new.next) }
    ensures goes { IfOk result (λ _.
        GoesBy table.now (call_at table.now reply) lists.new.work lists.new.next config.now.value
        (owed_by table.now config.now) (free_of table.now config.now)) }
{
    if config.owed.has(reply) {
        admit(table, &mut lists.work, config, taken, &mut lists.spent)?;
        Ok(())
    } else {
        let mut dropped = *config;
        dropped.free.remove(reply);
        admit(table, &mut lists.next, &dropped, taken, &mut lists.spent)?;
        if config.free.has(reply) {
            dropped.owed.insert(reply);
            admit(table, &mut lists.work, &dropped, taken, &mut lists.spent)?;
        }
        Ok(())
    }
}

/// Lets one call take effect, if that is of use and no other goes first.
#[inline(always)]
fn try_slot<const W: usize>(
    table: &Table<W>,
    lists: &mut Lists<W>,
    config: &Config<W>,
    slot: u32,
    reply: u32,
) -> Result<(), Stop>
    requires table { IsTable table.now }
    requires held { IsHeld (has table.now.used) config.now }
    requires slot { has table.now.used slot ≡ true }
    requires reply { (has table.now.used reply ≡ true) × (has config.now.owed reply ≡ true) }
    requires apart { AreApart table.now reply lists.old.work lists.old.next }
    ensures apart { IfOk result (λ _. AreApart table.now reply lists.new.work lists.new.next) }
    ensures kept { IfOk result (λ _. AreKept lists.old.work lists.old.next lists.new.work lists.new.next) }
    ensures goes { IfOk result (λ _. IsTried table.now config.now slot reply lists.new.work lists.new.next) }
{
    if has_elder(table, config, slot) {
        return lists.spent.spend(STEPS_PER_RIVAL);
    }
    lists.spent.spend(STEPS_PER_TRIAL.saturating_add(W as u64))?;
    if is_of_use(table, config, slot, reply) {
        lists.spent.spend(W as u64 / 2)?;
        if is_led(table, config, slot, &mut lists.spent)? {
            return Ok(());
        }
        let child = offspring(table, config, slot, reply);
        put_down(table, lists, &child, Some(table.call(slot)), reply)
    } else {
        Ok(())
    }
}

/// Lets each useful call of these slots take effect.
#[inline(always)]
fn try_each<const W: usize>(
    table: &Table<W>,
    lists: &mut Lists<W>,
    config: &Config<W>,
    slots: &Slots<W>,
    reply: u32,
) -> Result<(), Stop>
    requires table { IsTable table.now }
    requires held { IsHeld (has table.now.used) config.now }
    requires slots { IsWithin (has slots.now) (has table.now.used) }
    requires reply { (has table.now.used reply ≡ true) × (has config.now.owed reply ≡ true) }
    requires apart { AreApart table.now reply lists.old.work lists.old.next }
    ensures apart { IfOk result (λ _. AreApart table.now reply lists.new.work lists.new.next) }
    ensures kept { IfOk result (λ _. AreKept lists.old.work lists.old.next lists.new.work lists.new.next) }
    ensures goes { IfOk result (λ _.
        (q : ℕ) → has slots.now q ≡ true
        → IsTried table.now config.now q reply lists.new.work lists.new.next) }
{
    let mut at = 0;
    while let Some(slot) = slots.first_from(at) {
        try_slot(table, lists, config, slot, reply)?;
        at = slot + 1;
    }
    Ok(())
}

/// Lets each useful call take effect.
#[inline(always)]
fn try_all<const W: usize>(
    table: &Table<W>,
    lists: &mut Lists<W>,
    config: &Config<W>,
    reply: u32,
) -> Result<(), Stop>
    requires table { IsTable table.now }
    requires held { IsHeld (has table.now.used) config.now }
    requires reply { (has table.now.used reply ≡ true) × (has config.now.owed reply ≡ true) }
    requires apart { AreApart table.now reply lists.old.work lists.old.next }
    ensures apart { IfOk result (λ _. AreApart table.now reply lists.new.work lists.new.next) }
    ensures kept { IfOk result (λ _. AreKept lists.old.work lists.old.next lists.new.work lists.new.next) }
    ensures goes { IfOk result (λ _.
        IsGoneOver table.now (call_at table.now reply) lists.new.work lists.new.next config.now) }
{
    let fitting = fitting(table, config, &Slots::none());
    try_each(table, lists, config, &fitting, reply)?;
    Ok(())
}

/// The slots of the calls of a configuration that may meet its value, but for those that are left out.
#[inline(always)]
pub(crate) fn fitting<const W: usize>(
    table: &Table<W>,
    config: &Config<W>,
    left_out: &Slots<W>,
) -> Slots<W>
    requires table { IsTable table.now }
    requires held { IsHeld (has table.now.used) config.now }
    ensures used { IsWithin (has result) (has table.now.used) }
    ensures all { (q : ℕ) → (has config.now.owed q || has config.now.free q) ≡ true
        → fits_at table.now.ops.items (call_at table.now q) config.now.value ≡ true
        → has left_out.now q ≡ false → has result q ≡ true }
{
    config
        .owed
        .union(&config.free)
        .common(&table.fitting(config.value))
        .minus(left_out)
}

/// The step over the reply of the call at a slot. What comes of one stands behind the others, so those in
/// which fewer calls take effect come first. A list holds no more than its bound, so one round more finds
/// none left.
pub(crate) fn pass<const W: usize>(
    table: &Table<W>,
    lists: &mut Lists<W>,
    reply: u32,
) -> Result<(), Stop>
    requires table { IsTable table.now }
    requires reply { has table.now.used reply ≡ true }
    requires apart { AreApart table.now reply lists.old.work lists.old.next }
    ensures apart { IfOk result (λ _. AreApart table.now reply lists.new.work lists.new.next) }
    ensures kept { IfOk result (λ _. AreStill lists.old.next lists.new.next) }
    ensures goes { IfOk result (λ _. (es : List AMoment) (n : ℕ)
        → IsToCome table.now (AReply (call_at table.now reply) ∷ es)
        → IsAnyAbleBy table.now (call_at table.now reply) es n lists.old.work
        → IsAnyAble table.now lists.new.next es) }
{
    for at in 0..lists.spent.most().saturating_add(1) {
        if at >= lists.work.list.len() {
            return Ok(());
        }
        let config = lists.work.list[at];
        try_all(table, lists, &config, reply)?;
    }
    Err(Stop::Bound(Bound::Configurations))
}
