//! The laws that the history of an arena obeys.
ghost use Rattle.reg_report.specs.ArenaLaws.{ObeysLaws};

use history_model::{
    accepted_is_history, names_are_unique, operations_have_events, registers_are_numbered,
};
use reg_arena::Arena;

/// Its events and registers are few, and its operations have names, lines
/// and numbered registers. It does nothing.
pub(crate) fn arena_laws(arena: &Arena)
    ensures { ObeysLaws arena.now }
{
    let _events = arena.event_count();
    let _registers = arena.register_count();
    accepted_is_history();
    registers_are_numbered();
    names_are_unique();
    operations_have_events();
}
