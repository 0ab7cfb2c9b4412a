//! The first read that breaks a level.
ghost use Rattle.std.specs.Prelude.{◌≡◌, ◌≤◌, ◌↔◌, length, IsTrue};
ghost use Rattle.history_model.specs.Lamport.{HasOverlappedValue, HasSingleWriter};
ghost use Rattle.history_model.specs.Operations.{Overlaps, of_register, operations};
ghost use Rattle.history_model.specs.declared.operation.Operation.{Operation};
ghost use Rattle.history_model.specs.Naming.{IsNamed, IsOper};
ghost use Rattle.reg_lamport.specs.Levels.{IsFirstBadNamed, Keeps};
ghost use Rattle.reg_lamport.specs.Reads.{IsListed, IsReadList, IsReadShown};

use crate::gathering::ReadEntry;
use crate::level::Level;
use crate::read_list::ReadList;
use history_model::{EvId, Op, Oper, RegId};
use history_text::Val;
use reg_arena::Arena;

/// Of the reads numbered from `from` up to but not including `to`, the first that breaks the level.
///
/// The list is one that [`reads`](crate::reads) gave of this arena, of a register with a single writer.
pub fn first_bad(
    arena: &Arena,
    list: &ReadList,
    from: usize,
    to: usize,
    level: Level,
) -> Option<EvId>
    requires list { IsReadList arena.now list.now }
    requires writer { HasSingleWriter (of_register list.now.register (operations arena.now)) }
    requires order { from ≤ to }
    requires end { to ≤ length list.now.entries }
    ensures { IsFirstBadNamed arena.now list.now.register level from to result }
{
    for entry in &list.entries[from..to] {
        if !keeps(arena, list.register, entry, level) {
            return Some(entry.read);
        }
    }
    None
}

/// Whether a read keeps the level.
fn keeps(arena: &Arena, register: RegId, entry: &ReadEntry, level: Level) -> bool
    requires { IsListed arena.now register.0 entry.now }
    ensures { (r : Operation) → IsNamed arena.now (Oper.Called entry.now.read) r
        → IsTrue result ↔ Keeps level (of_register register.0 (operations arena.now)) r }
{
    let name = Oper::Called(entry.read);
    let read = arena.op(name);
    if is_same(arena.op(entry.old_write).value, read.value) {
        return true;
    }
    match level {
        Level::Safe => entry.is_overlapped,
        Level::Regular => has_overlapped_value(arena, register, name, &read),
    }
}

/// Whether a write that overlaps the read, pending or not, has its value.
fn has_overlapped_value(arena: &Arena, register: RegId, name: Oper, read: &Op) -> bool
    requires { IsReadShown arena.now register.0 name read.now }
    ensures { (r : Operation) → IsNamed arena.now name r
        → IsTrue result ↔ HasOverlappedValue (of_register register.0 (operations arena.now)) r }
{
    let Some(reply) = read.reply else {
        return false;
    };
    match arena.write_of_event(EvId::at(reply)) {
        Some(write) => overlap(arena, write, name),
        None => false,
    }
}

/// Whether neither operation precedes the other.
fn overlap(arena: &Arena, one: Oper, other: Oper) -> bool
    requires one { IsOper arena.now one }
    requires other { IsOper arena.now other }
    ensures { (a b : Operation) → IsNamed arena.now one a → IsNamed arena.now other b
        → IsTrue result ↔ Overlaps a b }
{
    !arena.precedes(one, other) && !arena.precedes(other, one)
}

fn is_same(one: Option<Val>, other: Option<Val>) -> bool
    ensures { IsTrue result ↔ (one ≡ other) }
{
    one == other
}
