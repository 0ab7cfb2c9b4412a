//! The lines of a fault.
ghost use Rattle.history_model.specs.Naming.{IsOper};
ghost use Rattle.reg_report.specs.Meaning.{HasLine, HaveLines, ShowsFault};
ghost use Rattle.reg_report.specs.Named.{AreOpers, HasOpers};

use history_model::Oper;
use reg_arena::Arena;
use reg_zones::Fault;
use report_text::check::FaultLines;

/// The line of an operation's call; 0 of an initial write.
pub(crate) fn line(arena: &Arena, oper: Oper) -> u32
    requires { IsOper arena.now oper }
    ensures { HasLine arena.now oper result }
{
    arena.op(oper).line
}

/// The lines of two operations' calls.
pub(crate) fn lines(arena: &Arena, opers: (Oper, Oper)) -> (u32, u32)
    requires { AreOpers arena.now opers }
    ensures { HaveLines arena.now opers result }
{
    (line(arena, opers.0), line(arena, opers.1))
}

/// The operations of a fault by the lines of their calls.
pub(crate) fn fault_lines(arena: &Arena, fault: Fault) -> FaultLines
    requires { HasOpers arena.now fault }
    ensures { ShowsFault arena.now fault result }
{
    match fault {
        Fault::Unwritten { read } => FaultLines::Unwritten {
            read: line(arena, read),
        },
        Fault::Early { read, write } => FaultLines::Early {
            read: line(arena, read),
            write: line(arena, write),
        },
        Fault::Zones {
            writes,
            first,
            second,
        } => FaultLines::Zones {
            writes: lines(arena, writes),
            first: lines(arena, first),
            second: lines(arena, second),
        },
    }
}
