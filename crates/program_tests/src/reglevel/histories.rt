//! Operations of one register, by their calls, behind the initial write.
ghost use Rattle.history_model.specs.Operations.{IsHistory};
ghost use Rattle.reg_levels.specs.Clusters.Places.{AreFew, IsByCall};

use history_model::{Act, Operation};
use history_text::Val;

// A completed operation, by its line, its call, its reply, its session and its act.
macro_rules! operation {
    ($line:expr, $call:expr, $reply:expr, $process:expr, $act:expr) => {
        Operation {
            line: $line,
            call: $call,
            reply: $reply,
            completed: true,
            process: $process,
            register: 0,
            act: $act,
        }
    };
}

/// A write of 1 without a reply; a read of 1; a write of 2, and a read of 1 by its session.
pub(crate) fn came_back() -> [Operation; 5]
    ensures history { IsHistory result }
    ensures by_call { IsByCall result }
    ensures few { AreFew result }
{
    [
        operation!(0, 0, 1, None, Act::Write(Val::Null)),
        Operation {
            line: 1,
            call: 2,
            reply: 10,
            completed: false,
            process: Some(1),
            register: 0,
            act: Act::Write(Val::Int(1)),
        },
        operation!(3, 4, 5, Some(2), Act::Read(Some(Val::Int(1)))),
        operation!(5, 6, 7, Some(3), Act::Write(Val::Int(2))),
        operation!(7, 8, 9, Some(3), Act::Read(Some(Val::Int(1)))),
    ]
}

/// A write of 1, then one of 2 by another session; a third reads 2, and then 1.
pub(crate) fn went_back() -> [Operation; 5]
    ensures history { IsHistory result }
    ensures by_call { IsByCall result }
    ensures few { AreFew result }
{
    [
        operation!(0, 0, 1, None, Act::Write(Val::Null)),
        operation!(1, 2, 3, Some(1), Act::Write(Val::Int(1))),
        operation!(3, 4, 5, Some(2), Act::Write(Val::Int(2))),
        operation!(5, 6, 7, Some(3), Act::Read(Some(Val::Int(2)))),
        operation!(7, 8, 9, Some(3), Act::Read(Some(Val::Int(1)))),
    ]
}

/// Two writes at once by 1 and 2; then 1 reads the write of 2, and 3 reads that and then the write of 1.
pub(crate) fn one_guarantee_each() -> [Operation; 6]
    ensures history { IsHistory result }
    ensures by_call { IsByCall result }
    ensures few { AreFew result }
{
    [
        operation!(0, 0, 1, None, Act::Write(Val::Null)),
        operation!(1, 2, 4, Some(1), Act::Write(Val::Int(1))),
        operation!(2, 3, 5, Some(2), Act::Write(Val::Int(2))),
        operation!(5, 6, 7, Some(1), Act::Read(Some(Val::Int(2)))),
        operation!(7, 8, 9, Some(3), Act::Read(Some(Val::Int(2)))),
        operation!(9, 10, 11, Some(3), Act::Read(Some(Val::Int(1)))),
    ]
}

/// A read of 1 that ends before the write of 1 begins.
pub(crate) fn read_too_soon() -> [Operation; 3]
    ensures history { IsHistory result }
    ensures by_call { IsByCall result }
    ensures few { AreFew result }
{
    [
        operation!(0, 0, 1, None, Act::Write(Val::Null)),
        operation!(1, 2, 3, Some(1), Act::Read(Some(Val::Int(1)))),
        operation!(3, 4, 5, Some(2), Act::Write(Val::Int(1))),
    ]
}

/// A write of 1, and then a read of null by another session.
pub(crate) fn stale_read() -> [Operation; 3]
    ensures history { IsHistory result }
    ensures by_call { IsByCall result }
    ensures few { AreFew result }
{
    [
        operation!(0, 0, 1, None, Act::Write(Val::Null)),
        operation!(1, 2, 3, Some(1), Act::Write(Val::Int(1))),
        operation!(3, 4, 5, Some(2), Act::Read(Some(Val::Null))),
    ]
}

/// A read of null, and then one of 9, which nobody wrote.
pub(crate) fn unwritten() -> [Operation; 3]
    ensures history { IsHistory result }
    ensures by_call { IsByCall result }
    ensures few { AreFew result }
{
    [
        operation!(0, 0, 1, None, Act::Write(Val::Null)),
        operation!(1, 2, 3, Some(1), Act::Read(Some(Val::Null))),
        operation!(3, 4, 5, Some(1), Act::Read(Some(Val::Int(9)))),
    ]
}
