//! The operations of an arena, of one register or all.
ghost use Rattle.std.specs.Prelude.{◌≡◌, ◌<◌, ◌++◌, length, IfOk, OnOk};
ghost use Rattle.history_model.specs.Acts.{plain_act};
ghost use Rattle.history_model.specs.Operations.{calls, initial_writes, operations, register_of};
ghost use Rattle.level_report.specs.Shown.{AreAllReady, AreReady, operation_shown};

use history_model::{Act, EvId, Op, Oper, Operation, RegId};
use history_text::{OpKind, Val};
use reg_arena::Arena;
use std::alloc::{AllocError, Global};

/// An operation as the arena shows it; `end` is the time of a missing reply.
fn operation_of(op: Op, end: u32) -> Operation
    ensures { result ≡ operation_shown end op }
{
    Operation {
        line: op.line,
        call: op.call,
        reply: op.reply.unwrap_or(end),
        completed: op.reply.is_some(),
        process: op.process,
        register: op.register.0,
        act: act_of(op.kind, op.value),
    }
}

/// A read with the value that it gives, if any, or a write of a value, which is there.
fn act_of(kind: OpKind, value: Option<Val>) -> Act
    ensures { result ≡ plain_act kind value }
{
    match kind {
        OpKind::ReadOp => Act::Read(value),
        OpKind::WriteOp => Act::Write(value.unwrap_or(Val::Null)),
    }
}

/// The operations of a register, the initial write first and then the calls in their order.
///
/// # Errors
/// If memory runs out.
pub(crate) fn operations_of(
    alloc: Global,
    arena: &Arena,
    register: RegId,
) -> Result<Vec<Operation>, AllocError>
    requires { register.0 < length arena.now.names }
    ensures all { IfOk result (λ ops. ops.items ≡ register_of arena.now register.0) }
    ensures ready { IfOk result (λ ops. AreReady ops.items) }
{
    // Event `i` has time `i + 2`, and a missing reply has the time after the last event.
    let end = arena.event_count() + 2;
    let mut ops = Vec::new(alloc);
    ops.push(operation_of(arena.op(Oper::Initial(register)), end))?;
    let mut next = arena.first_of_register(register);
    while let Some(id) = next {
        if arena.begins(id) {
            ops.push(operation_of(arena.op(Oper::Called(id)), end))?;
        }
        next = arena.next_in_register(id);
    }
    Ok(ops)
}

/// All operations of a history: the initial writes, that of the last register first, and then the calls in
/// their order.
///
/// # Errors
/// If memory runs out.
pub(crate) fn all_operations(alloc: Global, arena: &Arena) -> Result<Vec<Operation>, AllocError>
    ensures all { IfOk result (λ ops. ops.items ≡ operations arena.now) }
    ensures ready { IfOk result (λ ops. AreAllReady ops.items) }
{
    let registers = arena.register_count() as usize;
    let mut ops = Vec::with_capacity(alloc, registers + arena.event_count() as usize / 2)?;
    push_initial_writes(&mut ops, arena)?;
    push_calls(&mut ops, arena)?;
    Ok(ops)
}

/// Appends the initial writes of all registers, that of the last one first.
fn push_initial_writes(ops: &mut Vec<Operation>, arena: &Arena) -> Result<(), AllocError>
    ensures { OnOk result (ops.new.items ≡ ops.old.items ++ initial_writes (length arena.now.names)) }
{
    for number in (0..arena.register_count()).rev() {
        ops.push(operation_of(arena.op(Oper::Initial(RegId(number))), 0))?;
    }
    Ok(())
}

/// Appends the calls that didn't fail.
fn push_calls(ops: &mut Vec<Operation>, arena: &Arena) -> Result<(), AllocError>
    ensures { OnOk result (ops.new.items ≡ ops.old.items ++ calls arena.now.events) }
{
    let count = arena.event_count();
    for number in 0..count {
        let id = EvId(number);
        if arena.begins(id) {
            ops.push(operation_of(arena.op(Oper::Called(id)), count + 2))?;
        }
    }
    Ok(())
}
