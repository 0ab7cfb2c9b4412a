//! The step over a call: it is open in each configuration.
ghost use Rattle.std.specs.Prelude.{◌≡◌, ◌∷◌, true, false, IsTrue, IfOk, List, Some, slice_get};
ghost use Rattle.configurations.specs.Configs.{AreHeld, AreOff, IsAble, IsAnyAble, IsHeld, IsOver};
ghost use Rattle.configurations.specs.Ops.{is_content as is_content_at, kind_looks};
ghost use Rattle.configurations.specs.Tables.{IsTable, call_at};
ghost use Rattle.configurations.specs.declared.moment.Moment.{Moment as AMoment};
ghost use Rattle.configurations.specs.declared.moment.Moment.TheVariants.{Call as ACall};
ghost use Rattle.slot_sets.specs.Sets.{has};

use crate::bounds::Bound;
use crate::config::{Config, Configs};
use crate::op::{NEVER, Op, looks, suits, writes};
use crate::table::Table;
use crate::work::Stop;

/// Whether it changes nothing, and this value suits it.
#[inline(always)]
fn is_content(op: &Op, value: u32) -> bool
    ensures { result ≡ is_content_at op.now value }
{
    looks(op) && suits(op, value)
}

/// Whether it is content in each configuration, so that it takes effect at once and needs no slot.
fn is_content_in_all<const W: usize>(op: &Op, configs: &Configs<W>) -> bool
    ensures { IsTrue result → kind_looks op.now.kind ≡ true }
{
    if !looks(op) {
        return false;
    }
    for config in &configs.list {
        if !suits(op, config.value) {
            return false;
        }
    }
    true
}

/// Whether it may stay out of sight from its call on: it never replies, or writes the value that is there.
#[inline(always)]
fn is_free(op: &Op, value: u32) -> bool {
    op.rank >= NEVER || (writes(op) && op.to == value)
}

/// One more call is open in a configuration, at a slot that it lacks. A look
/// that the value suits takes effect at once.
#[inline(always)]
fn add_call<const W: usize>(table: &Table<W>, config: &mut Config<W>, slot: u32, op: &Op)
    requires table { IsTable table.now }
    requires slot { has table.now.used slot ≡ true }
    requires op { slice_get table.now.ops.items (call_at table.now slot) ≡ Some op.now }
    ensures held { IsHeld (has table.now.used) config.old → IsHeld (has table.now.used) config.new }
    ensures able { (es : List AMoment) → has config.old.owed slot ≡ false → has config.old.free slot ≡ false
        → IsAble table.now config.old (ACall (call_at table.now slot) ∷ es) → IsAble table.now config.new es }
{
    if is_content(op, config.value) {
        return;
    }
    if is_free(op, config.value) {
        config.free.insert(slot);
    } else {
        config.owed.insert(slot);
    }
}

/// The step over a call, which has got a slot.
fn with_calls<const W: usize>(table: &Table<W>, configs: &mut Configs<W>, slot: u32, op: &Op)
    requires table { IsTable table.now }
    requires slot { has table.now.used slot ≡ true }
    requires op { slice_get table.now.ops.items (call_at table.now slot) ≡ Some op.now }
    requires held { AreHeld (has table.now.used) configs.old }
    requires off { AreOff slot configs.old }
    ensures held { AreHeld (has table.now.used) configs.new }
    ensures able { (es : List AMoment) → IsAnyAble table.now configs.old (ACall (call_at table.now slot) ∷ es)
        → IsAnyAble table.now configs.new es }
{
    for at in 0..configs.list.len() {
        add_call(table, &mut configs.list[at], slot, op);
    }
}

/// The step over a call.
pub(crate) fn over_call<const W: usize>(
    table: &mut Table<W>,
    configs: &mut Configs<W>,
    number: u32,
) -> Result<(), Stop>
    requires table { IsTable table.old }
    requires held { AreHeld (has table.old.used) configs.old }
    ensures { IfOk result (λ _. IsOver true table.old configs.old (ACall number) table.new configs.new) }
{
    let Some(op) = table.op_of(number) else {
        return Ok(());
    };
    if is_content_in_all(&op, configs) {
        return Ok(());
    }
    let Some(slot) = table.give(number) else {
        return Err(Stop::Bound(Bound::Configurations));
    };
    with_calls(table, configs, slot, &op);
    Ok(())
}
