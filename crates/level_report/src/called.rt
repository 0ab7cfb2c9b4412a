//! How many operations a register has.
ghost use Rattle.std.specs.Prelude.{◌≡◌, ◌<◌, ◌≤◌, ◌^◌, length, count_by, not};
ghost use Rattle.history_model.specs.Operations.{is_write};
ghost use Rattle.level_report.specs.Called.{AreCalled};

use history_model::Operation;
use report_text::level::CalledOperations;

/// How many operations of each kind a register has, without its initial write.
pub(crate) fn called(ops: &[Operation]) -> CalledOperations
    requires few { length ops.now < 2 ^ 32 }
    requires initial { 0 < count_by is_write ops.now }
    ensures { AreCalled ops.now result }
{
    CalledOperations {
        reads: reads(ops) as u32,
        writes: (writes(ops) - 1) as u32,
        pending: pending(ops) as u32,
    }
}

fn reads(ops: &[Operation]) -> usize
    ensures is { result ≡ count_by (λ a. not (is_write a)) ops.now }
    ensures few { result ≤ length ops.now }
{
    ops.iter().filter(|op| !op.act.changes()).count()
}

fn writes(ops: &[Operation]) -> usize
    ensures is { result ≡ count_by is_write ops.now }
    ensures few { result ≤ length ops.now }
{
    ops.iter().filter(|op| op.act.changes()).count()
}

fn pending(ops: &[Operation]) -> usize
    ensures is { result ≡ count_by (λ a. not a.completed) ops.now }
    ensures few { result ≤ length ops.now }
{
    ops.iter().filter(|op| !op.completed).count()
}
