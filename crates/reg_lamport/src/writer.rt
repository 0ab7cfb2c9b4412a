//! Whether a register has a single writer.
ghost use Rattle.std.specs.Prelude.{◌≡◌, ◌↔◌, IsTrue, Some, slice_get};
ghost use Rattle.history_model.specs.Lamport.{HasSingleWriter};
ghost use Rattle.history_model.specs.Operations.{of_register, operations};
ghost use Rattle.reg_lamport.specs.Writers.{begins_write as begins, is_another as another};

use history_model::{EvId, Event, RegId, What};
use history_text::OpKind;
use reg_arena::Arena;

/// Whether the event begins a write: it is the call of one that didn't fail.
pub(crate) fn begins_write(arena: &Arena, id: EvId, event: &Event) -> bool
    requires { slice_get arena.now.events id.0 ≡ Some event.now }
    ensures { result ≡ begins arena.now.events id.0 event.now }
{
    event.what == What::Call(OpKind::WriteOp) && arena.begins(id)
}

/// Whether the process isn't the writer, if one is known.
fn is_another(writer: Option<u32>, process: u32) -> bool
    ensures { result ≡ another writer process }
{
    writer.is_some_and(|known| known != process)
}

/// Whether at most one process calls writes of the register (Lamport, On
/// Interprocess Communication, Part II, 1986).
pub fn single_writer(arena: &Arena, register: RegId) -> bool
    ensures { IsTrue result ↔ HasSingleWriter (of_register register.0 (operations arena.now)) }
{
    // The contract of `event_count` says that the history is an accepted one, so each of its calls has a
    // register.
    let _count = arena.event_count();
    let mut writer = None;
    let mut next = arena.first_of_register(register);
    while let Some(id) = next {
        let event = arena.event(id);
        if begins_write(arena, id, &event) {
            if is_another(writer, event.process) {
                return false;
            }
            writer = Some(event.process);
        }
        next = arena.next_in_register(id);
    }
    true
}
