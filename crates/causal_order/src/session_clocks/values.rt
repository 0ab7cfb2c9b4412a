//! The writes by register and value.
ghost use Rattle.std.specs.Prelude.{◌≡◌, ◌<◌, ◌^◌, length, IfOk};
ghost use Rattle.history_model.specs.Acts.{given_by};
ghost use Rattle.causal_order.specs.SessionClocks.Steps.{AreValueWrites, found_in, number_in};

use history_model::{Act, Operation};
use history_text::Val;
use std::alloc::{AllocError, Global};
use std::collections::BTreeMap;

/// The places of the writes, by register and value; null has no number.
pub(crate) type ValueWrites = BTreeMap<(u32, Option<i64>), u32>;

/// The writes of a history.
pub(crate) fn value_writes(alloc: Global, ops: &[Operation]) -> Result<ValueWrites, AllocError>
    requires few { length ops.now < 2 ^ 22 }
    ensures { IfOk result (λ writes. AreValueWrites ops.now (length ops.now) (found_in writes)) }
{
    let mut writes = BTreeMap::new(alloc);
    for place in 0..ops.len() {
        let op = &ops[place];
        if let Some(value) = written(op.act) {
            writes.insert((op.register, number(value)), place as u32)?;
        }
    }
    Ok(writes)
}

/// The place of the write of a value to a register, if there is one.
pub(crate) fn write_of(writes: &ValueWrites, register: u32, value: Val) -> Option<u32>
    ensures { result ≡ found_in writes.now (register, number_in value) }
{
    writes.get(&(register, number(value))).copied()
}

/// The value that an act gives the register, if it gives one.
fn written(act: Act) -> Option<Val>
    ensures { result ≡ given_by act }
{
    match act {
        Act::Write(value) => Some(value),
        Act::Cas { to, .. } => Some(to),
        Act::CasUnless { to, .. } => Some(to),
        Act::Read(_) => None,
        Act::Miss { .. } => None,
    }
}

/// The number of a value; null has none.
fn number(value: Val) -> Option<i64>
    ensures { result ≡ number_in value }
{
    match value {
        Val::Null => None,
        Val::Int(number) => Some(number),
    }
}
