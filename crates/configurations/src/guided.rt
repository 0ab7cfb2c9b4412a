//! The step over a reply in a stage whose yes alone counts: it lets go of configurations that are unlikely to
//! explain what comes, so nothing is said of what it lets go.
ghost use Rattle.std.specs.Prelude.{◌≡◌, [], true, IfOk};
ghost use Rattle.configurations.specs.Configs.{AreApart, AreHeld, IsHeld, IsOver};
ghost use Rattle.configurations.specs.Tables.{IsTable, IsWithin, call_at};
ghost use Rattle.configurations.specs.declared.moment.Moment.TheVariants.{Reply as AReply};
ghost use Rattle.slot_sets.specs.Sets.{has};

use crate::config::{Config, Configs, ranked};
use crate::outlook::{Outlook, Supply};
use crate::reply::{
    Lists, STEPS_PER_RIVAL, STEPS_PER_TRIAL, fitting, has_elder, is_led, is_of_use, offspring,
    put_down,
};
use crate::table::{Table, WRITE_COST};
use crate::work::{Stop, Work};
use slot_sets::Slots;
use std::mem;

/// What it costs if a value that is needed rests on a call that never replies.
const DOUBT: u32 = WRITE_COST;

/// The step over the reply of the call of a slot.
pub(crate) fn go_over<const W: usize>(
    table: &mut Table<W>,
    now: &mut Configs<W>,
    lists: &mut Lists<W>,
    reply: u32,
) -> Result<bool, Stop>
    requires table { IsTable table.old }
    requires held { AreHeld (has table.old.used) now.old }
    requires reply { has table.old.used reply ≡ true }
    ensures { IfOk result (λ whole.
        IsOver whole table.old now.old (AReply (call_at table.old reply)) table.new now.new) }
{
    lists.outlook.is_sparing = true;
    try_over(table, now, lists, reply)?;
    if lists.next.list.is_empty() {
        lists.outlook.is_sparing = false;
        try_over(table, now, lists, reply)?;
    }
    mem::swap(now, &mut lists.next);
    table.release(reply);
    Ok(false)
}

/// Puts into `next` what comes of configurations at the reply of the call of a slot.
fn try_over<const W: usize>(
    table: &Table<W>,
    now: &Configs<W>,
    lists: &mut Lists<W>,
    reply: u32,
) -> Result<(), Stop>
    requires table { IsTable table.now }
    requires held { AreHeld (has table.now.used) now.now }
    requires reply { has table.now.used reply ≡ true }
    ensures { IfOk result (λ _. AreApart table.now reply lists.new.work lists.new.next) }
{
    lists.next.clear();
    lists.work.clear();
    put_down_best(table, now, lists, reply)?;
    pass(table, lists, reply)
}

/// Puts all down, the last one first, or the best if the beam holds fewer: those that others stand for don't
/// count.
fn put_down_best<const W: usize>(
    table: &Table<W>,
    now: &Configs<W>,
    lists: &mut Lists<W>,
    reply: u32,
) -> Result<(), Stop>
    requires table { IsTable table.now }
    requires held { AreHeld (has table.now.used) now.now }
    requires reply { has table.now.used reply ≡ true }
    requires empty { (lists.old.work.list.items ≡ []) × (lists.old.next.list.items ≡ []) }
    ensures { IfOk result (λ _. AreApart table.now reply lists.new.work lists.new.next) }
{
    let len = now.list.len();
    if len <= lists.spent.beam() {
        for i in 0..len {
            put_down_at(table, now, lists, len - 1 - i, reply)?;
        }
        return Ok(());
    }
    lists.spent.spend_on_order(len, W)?;
    let ranked = ranked(lists.spent.alloc(), &now.list)?;
    for at in &ranked {
        if lists.held() >= lists.spent.beam() {
            break;
        }
        put_down_at(table, now, lists, *at, reply)?;
    }
    Ok(())
}

/// Puts down the one at a place.
fn put_down_at<const W: usize>(
    table: &Table<W>,
    now: &Configs<W>,
    lists: &mut Lists<W>,
    at: usize,
    reply: u32,
) -> Result<(), Stop>
    requires table { IsTable table.now }
    requires held { AreHeld (has table.now.used) now.now }
    requires reply { has table.now.used reply ≡ true }
    requires apart { AreApart table.now reply lists.old.work lists.old.next }
    ensures { IfOk result (λ _. AreApart table.now reply lists.new.work lists.new.next) }
{
    if at < now.list.len() {
        let config = now.list[at];
        set_down(table, lists, &config, None, reply)
    } else {
        Ok(())
    }
}

/// A configuration goes on, unless no order is left for it.
#[inline(always)]
fn set_down<const W: usize>(
    table: &Table<W>,
    lists: &mut Lists<W>,
    config: &Config<W>,
    taken: Option<u32>,
    reply: u32,
) -> Result<(), Stop>
    requires table { IsTable table.now }
    requires held { IsHeld (has table.now.used) config.now }
    requires reply { has table.now.used reply ≡ true }
    requires apart { AreApart table.now reply lists.old.work lists.old.next }
    ensures { IfOk result (λ _. AreApart table.now reply lists.new.work lists.new.next) }
{
    if lists.outlook.is_doomed(table, config, &mut lists.spent)? {
        Ok(())
    } else {
        go_on(table, lists, config, taken, reply)
    }
}

/// A configuration goes on as by `put_down`. One in which the call that replies needn't take effect
/// isn't left without a value that is needed.
#[inline(always)]
fn go_on<const W: usize>(
    table: &Table<W>,
    lists: &mut Lists<W>,
    config: &Config<W>,
    taken: Option<u32>,
    reply: u32,
) -> Result<(), Stop>
    requires table { IsTable table.now }
    requires held { IsHeld (has table.now.used) config.now }
    requires reply { has table.now.used reply ≡ true }
    requires apart { AreApart table.now reply lists.old.work lists.old.next }
    ensures { IfOk result (λ _. AreApart table.now reply lists.new.work lists.new.next) }
{
    if config.owed.has(reply) || !config.free.has(reply) {
        return put_down(table, lists, config, taken, reply);
    }
    go_on_without(table, lists, config, taken, reply)?;
    put_down(table, lists, &owing(table, config, reply), taken, reply)
}

/// A configuration goes on without the call that replies, unless a value that is needed can't be had then.
#[inline(always)]
fn go_on_without<const W: usize>(
    table: &Table<W>,
    lists: &mut Lists<W>,
    config: &Config<W>,
    taken: Option<u32>,
    reply: u32,
) -> Result<(), Stop>
    requires table { IsTable table.now }
    requires held { IsHeld (has table.now.used) config.now }
    requires reply { has table.now.used reply ≡ true }
    requires apart { AreApart table.now reply lists.old.work lists.old.next }
    ensures { IfOk result (λ _. AreApart table.now reply lists.new.work lists.new.next) }
{
    let dropped = dropping(table, config, reply);
    let value = table.left(reply, config.value);
    let cost = cost_without(table, &lists.outlook, &mut lists.spent, &dropped, value)?;
    match cost {
        Some(cost) => put_down(table, lists, &at_cost(table, &dropped, cost), taken, reply),
        None => Ok(()),
    }
}

/// The configuration without the call of a slot, if that needn't take effect.
#[inline(always)]
fn dropping<const W: usize>(table: &Table<W>, config: &Config<W>, slot: u32) -> Config<W>
    requires slot { has table.now.used slot ≡ true }
    requires held { IsHeld (has table.now.used) config.now }
    ensures { IsHeld (has table.now.used) result }
{
    let mut config = *config;
    config.free.remove(slot);
    config
}

/// The configuration in which the call of a slot must take effect.
#[inline(always)]
fn owing<const W: usize>(table: &Table<W>, config: &Config<W>, slot: u32) -> Config<W>
    requires slot { has table.now.used slot ≡ true }
    requires held { IsHeld (has table.now.used) config.now }
    ensures { IsHeld (has table.now.used) result }
{
    let mut config = *config;
    config.free.remove(slot);
    config.owed.insert(slot);
    config
}

/// The configuration at another cost.
#[inline(always)]
fn at_cost<const W: usize>(table: &Table<W>, config: &Config<W>, cost: u32) -> Config<W>
    requires held { IsHeld (has table.now.used) config.now }
    ensures { IsHeld (has table.now.used) result }
{
    Config { cost, ..*config }
}

/// What a configuration costs that has left a value, or dropped a call that gives it; none if the value is
/// needed and can't be had.
#[inline(always)]
fn cost_without<const W: usize>(
    table: &Table<W>,
    outlook: &Outlook<W>,
    spent: &mut Work,
    config: &Config<W>,
    value: u32,
) -> Result<Option<u32>, Stop>
    requires table { IsTable table.now }
{
    spent.spend(W as u64)?;
    Ok(match outlook.supply(table, config, value, spent)? {
        Supply::Enough => Some(config.cost),
        Supply::Doubtful => Some(config.cost.saturating_add(DOUBT)),
        Supply::Missing => None,
    })
}

/// Lets one call take effect, if that is of use, no other goes first, and no value that is needed is lost.
#[inline(always)]
fn try_slot<const W: usize>(
    table: &Table<W>,
    lists: &mut Lists<W>,
    config: &Config<W>,
    slot: u32,
    reply: u32,
) -> Result<(), Stop>
    requires table { IsTable table.now }
    requires held { IsHeld (has table.now.used) config.now }
    requires slot { has table.now.used slot ≡ true }
    requires reply { has table.now.used reply ≡ true }
    requires apart { AreApart table.now reply lists.old.work lists.old.next }
    ensures { IfOk result (λ _. AreApart table.now reply lists.new.work lists.new.next) }
{
    if has_elder(table, config, slot) {
        return lists.spent.spend(STEPS_PER_RIVAL);
    }
    lists.spent.spend(STEPS_PER_TRIAL.saturating_add(W as u64))?;
    if !is_of_use(table, config, slot, reply) || is_led(table, config, slot, &mut lists.spent)? {
        return Ok(());
    }
    let child = offspring(table, config, slot, reply);
    let cost = cost_without(
        table,
        &lists.outlook,
        &mut lists.spent,
        &child,
        config.value,
    )?;
    if let Some(cost) = cost {
        let child = at_cost(table, &child, cost);
        return set_down(table, lists, &child, Some(table.call(slot)), reply);
    }
    Ok(())
}

/// Lets each of these calls take effect.
fn try_each<const W: usize>(
    table: &Table<W>,
    lists: &mut Lists<W>,
    config: &Config<W>,
    slots: &Slots<W>,
    reply: u32,
) -> Result<(), Stop>
    requires table { IsTable table.now }
    requires held { IsHeld (has table.now.used) config.now }
    requires slots { IsWithin (has slots.now) (has table.now.used) }
    requires reply { has table.now.used reply ≡ true }
    requires apart { AreApart table.now reply lists.old.work lists.old.next }
    ensures { IfOk result (λ _. AreApart table.now reply lists.new.work lists.new.next) }
{
    let mut at = 0;
    while let Some(slot) = slots.first_from(at) {
        try_slot(table, lists, config, slot, reply)?;
        at = slot + 1;
    }
    Ok(())
}

/// Lets each useful call of a configuration take effect, but for those that are spared.
fn try_all<const W: usize>(
    table: &Table<W>,
    lists: &mut Lists<W>,
    config: &Config<W>,
    reply: u32,
) -> Result<(), Stop>
    requires table { IsTable table.now }
    requires held { IsHeld (has table.now.used) config.now }
    requires reply { has table.now.used reply ≡ true }
    requires apart { AreApart table.now reply lists.old.work lists.old.next }
    ensures { IfOk result (λ _. AreApart table.now reply lists.new.work lists.new.next) }
{
    let spared = lists
        .outlook
        .spared(table, config, reply, &mut lists.spent)?;
    let slots = fitting(table, config, &spared);
    try_each(table, lists, config, &slots, reply)
}

/// Goes over `work` until enough are left.
fn pass<const W: usize>(table: &Table<W>, lists: &mut Lists<W>, reply: u32) -> Result<(), Stop>
    requires table { IsTable table.now }
    requires reply { has table.now.used reply ≡ true }
    requires apart { AreApart table.now reply lists.old.work lists.old.next }
    ensures { IfOk result (λ _. AreApart table.now reply lists.new.work lists.new.next) }
{
    for at in 0..lists.spent.most().saturating_add(1) {
        if at >= lists.work.list.len() || lists.spent.is_enough(at, lists.next.list.len()) {
            break;
        }
        let config = lists.work.list[at];
        try_all(table, lists, &config, reply)?;
    }
    Ok(())
}
