//! The lines of all registers, by workers that share them or by the calling thread alone.
ghost use Rattle.std.specs.Prelude.{◌<◌, ◌^◌, length, IfOk};
ghost use Rattle.level_report.specs.Meaning.{IsRegisterLine};
ghost use Rattle.level_report.specs.Registers.{AreLines, AreNumbers};

use crate::register::register_line;
use crate::settings::{Asked, Settings};
use history_model::RegId;
use parallel::{map_each, share_of};
use reg_arena::Arena;
use report_text::level::RegisterLevels;
use std::alloc::{AllocError, Global};
use std::thread::Threads;

/// The numbers of the registers.
fn numbers(alloc: Global, count: u32) -> Result<Vec<RegId>, AllocError>
    ensures { IfOk result (λ ids. AreNumbers count ids.items) }
{
    let mut ids = Vec::with_capacity(alloc, count as usize)?;
    for number in 0..count {
        ids.push(RegId(number))?;
    }
    Ok(ids)
}

/// The line of each register, in the order of the first calls.
pub(crate) fn register_lines(
    rt: &(impl Threads + Sync),
    alloc: Global,
    arena: &Arena,
    settings: Settings,
) -> Result<Vec<RegisterLevels>, AllocError>
    ensures lines { IfOk result (λ lines. AreLines arena.now settings.asked lines.items) }
    ensures few { IfOk result (λ lines. length lines.items < 2 ^ 21) }
{
    let count = arena.register_count();
    let ids = numbers(alloc, count)?;
    let asked = settings.asked();
    map_each(
        rt,
        alloc,
        ids.as_slice(),
        share_of(ids.len(), settings.workers()),
        |id: &RegId| -> Result<RegisterLevels, AllocError>
            requires { id.now.0 < length arena.now.names }
            ensures { IfOk result (IsRegisterLine arena.entry.now asked id.now.0) }
        { register_line(alloc, arena, *id, asked) },
    )
}

/// The same by the calling thread alone, which takes one register after another.
pub(crate) fn register_lines_alone(
    alloc: Global,
    arena: &Arena,
    asked: Asked,
) -> Result<Vec<RegisterLevels>, AllocError>
    ensures lines { IfOk result (λ lines. AreLines arena.now asked lines.items) }
    ensures few { IfOk result (λ lines. length lines.items < 2 ^ 21) }
{
    let count = arena.register_count();
    let mut lines = Vec::with_capacity(alloc, count as usize)?;
    for number in 0..count {
        lines.push(register_line(alloc, arena, RegId(number), asked)?)?;
    }
    Ok(lines)
}
