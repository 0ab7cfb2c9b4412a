//! One run over all events.
ghost use Rattle.std.specs.Prelude.{◌≡◌, ◌<◌, ◌*◌, ◌^◌, [], true, false, IsTrue, IfOk, ℕ};
ghost use Rattle.configurations.specs.Configs.{AreApart, AreHeld, IsBegun, IsFirst, IsOver};
ghost use Rattle.configurations.specs.Reached.{IsReached};
ghost use Rattle.configurations.specs.Runs.{AreInOrder};
ghost use Rattle.configurations.specs.Tables.{IsTable};
ghost use Rattle.configurations.specs.declared.moment.Moment.TheVariants.{Reply as AReply};
ghost use Rattle.slot_sets.specs.Sets.{has};

use crate::bounds::Bound;
use crate::call::over_call;
use crate::config::{Config, Configs};
use crate::guided::go_over;
use crate::moment::Moment;
use crate::op::Op;
use crate::outlook::Outlook;
use crate::reached::Reached;
use crate::reply::{Lists, pass, put_down};
use crate::table::Table;
use crate::work::{Limits, NO_MOVE, Stop, Work};
use slot_sets::Slots;
use std::alloc::{AllocError, Global};
use std::mem;

/// Goes forward over the events with sets of `W` words, within limits
/// of which the steps that are left remain.
pub(crate) fn run<const W: usize>(
    alloc: Global,
    ops: &[Op],
    events: &[Moment],
    limits: &mut Limits,
) -> Result<Reached, AllocError>
    requires room { 64 * W < 2 ^ 32 }
    ensures { IfOk result (λ found. AreInOrder ops.now [] events.now → IsReached ops.now events.now found) }
{
    let mut table = Table::<W>::new(alloc, ops, limits.values)?;
    let mut now = first(alloc, limits.values)?;
    let mut lists = Lists {
        work: Configs::new(alloc, limits.values)?,
        next: Configs::new(alloc, limits.values)?,
        spent: Work::new(alloc, *limits),
        outlook: if limits.is_guided {
            Outlook::new(alloc, ops, events, limits.values)?
        } else {
            Outlook::none(alloc)
        },
    };
    let found = search(&mut table, &mut now, events, &mut lists);
    limits.steps = lists.spent.steps_left();
    match found {
        Ok(found) => Ok(found),
        Err(Stop::Bound(bound)) => Ok(Reached::Stopped(bound)),
        Err(Stop::Memory) => Err(AllocError),
    }
}

/// Goes forward from the first configuration, with a table of no open calls. If some configurations were let
/// go, it can't be known that none is left.
fn search<const W: usize>(
    table: &mut Table<W>,
    now: &mut Configs<W>,
    events: &[Moment],
    lists: &mut Lists<W>,
) -> Result<Reached, Stop>
    requires table { IsTable table.old }
    requires none { (q : ℕ) → has table.old.used q ≡ false }
    requires first { IsFirst now.old }
    ensures { IfOk result (λ found.
        AreInOrder table.old.ops.items [] events.now → IsReached table.old.ops.items events.now found) }
{
    let mut whole = true;
    for (place, event) in events.iter().enumerate() {
        forget_moves(now, &mut lists.spent)?;
        let last = last_move(now);
        lists.spent.go_to(place)?;
        whole = are_both(whole, step_over(table, now, lists, *event)?);
        if is_hopeless(now) {
            if !whole {
                return Err(Stop::Bound(Bound::Configurations));
            }
            let before = lists.spent.changes_to(last)?;
            return Ok(Reached::Hopeless { place, before });
        }
    }
    let last = last_move(now);
    Ok(Reached::Left(lists.spent.changes_to(last)?))
}

/// Makes room for moves if there is none: those that led to none of the configurations are forgotten.
pub(crate) fn forget_moves<const W: usize>(
    now: &Configs<W>,
    spent: &mut Work,
) -> Result<(), AllocError> {
    if spent.has_room() {
        return Ok(());
    }
    let mut marks = spent.marks()?;
    for config in &now.list {
        spent.mark(&mut marks, config.last);
    }
    spent.mark_kept(&mut marks);
    spent.forget(&marks);
    Ok(())
}

/// Whether both are true.
fn are_both(first: bool, second: bool) -> bool
    ensures { IsTrue result → IsTrue first × IsTrue second }
{
    first && second
}

/// The value 0, and no open calls.
fn first<const W: usize>(alloc: Global, values: usize) -> Result<Configs<W>, AllocError>
    requires room { 64 * W < 2 ^ 32 }
    ensures { IfOk result (λ now. IsFirst now) }
{
    let mut now = Configs::new(alloc, values)?;
    now.push(&Config {
        value: 0,
        owed: Slots::none(),
        free: Slots::none(),
        last: NO_MOVE,
        cost: 0,
    })?;
    Ok(now)
}

/// Whether no configuration is left.
fn is_hopeless<const W: usize>(now: &Configs<W>) -> bool
    ensures { IsTrue result → now.now.list.items ≡ [] }
{
    now.list.is_empty()
}

/// The place of the last move of the first configuration.
fn last_move<const W: usize>(now: &Configs<W>) -> u32 {
    match now.list.first() {
        Some(config) => config.last,
        None => NO_MOVE,
    }
}

/// The step over an event; true if no configuration was let go.
pub(crate) fn step_over<const W: usize>(
    table: &mut Table<W>,
    now: &mut Configs<W>,
    lists: &mut Lists<W>,
    event: Moment,
) -> Result<bool, Stop>
    requires table { IsTable table.old }
    requires held { AreHeld (has table.old.used) now.old }
    ensures { IfOk result (λ whole. IsOver whole table.old now.old event table.new now.new) }
{
    lists.spent.spend_on(now.list.len(), W)?;
    match event {
        Moment::Call(number) => {
            over_call(table, now, number)?;
            note_call(table, lists, number);
            Ok(true)
        }
        Moment::Reply(number) => {
            let slot = table.slot_of(number);
            let whole = over_reply(table, now, lists, number)?;
            note_reply(table, lists, number, slot);
            Ok(whole)
        }
    }
}

/// Notes a call for what comes.
fn note_call<const W: usize>(table: &Table<W>, lists: &mut Lists<W>, number: u32)
    requires table { IsTable table.now }
{
    if let Some(op) = table.op_of(number) {
        let slot = table.slot_of(number);
        lists.outlook.call(&op, number, slot);
    }
}

/// Notes a reply for what comes, if its call had a slot.
fn note_reply<const W: usize>(
    table: &Table<W>,
    lists: &mut Lists<W>,
    number: u32,
    slot: Option<u32>,
)
    requires table { IsTable table.now }
{
    if let (Some(op), Some(slot)) = (table.op_of(number), slot) {
        lists.outlook.reply(&op, slot);
    }
}

/// The step over a reply; true if no configuration was let go. A call without a slot
/// took effect at once in each configuration.
fn over_reply<const W: usize>(
    table: &mut Table<W>,
    now: &mut Configs<W>,
    lists: &mut Lists<W>,
    number: u32,
) -> Result<bool, Stop>
    requires table { IsTable table.old }
    requires held { AreHeld (has table.old.used) now.old }
    ensures { IfOk result (λ whole. IsOver whole table.old now.old (AReply number) table.new now.new) }
{
    let Some(slot) = table.slot_of(number) else {
        return Ok(true);
    };
    if lists.spent.is_guided() {
        return go_over(table, now, lists, slot);
    }
    lists.next.clear();
    lists.work.clear();
    put_down_all(table, now, lists, slot)?;
    pass(table, lists, slot)?;
    mem::swap(now, &mut lists.next);
    table.release(slot);
    Ok(true)
}

/// Puts all down, the last one first.
fn put_down_all<const W: usize>(
    table: &Table<W>,
    now: &Configs<W>,
    lists: &mut Lists<W>,
    reply: u32,
) -> Result<(), Stop>
    requires table { IsTable table.now }
    requires held { AreHeld (has table.now.used) now.now }
    requires reply { has table.now.used reply ≡ true }
    requires empty { (lists.old.work.list.items ≡ []) × (lists.old.next.list.items ≡ []) }
    ensures apart { IfOk result (λ _. AreApart table.now reply lists.new.work lists.new.next) }
    ensures goes { IfOk result (λ _. IsBegun table.now now.now reply lists.new.work lists.new.next) }
{
    let len = now.list.len();
    for i in 0..len {
        let config = now.list[len - 1 - i];
        put_down(table, lists, &config, None, reply)?;
    }
    Ok(())
}
