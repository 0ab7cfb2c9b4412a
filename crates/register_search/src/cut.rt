//! What is known of operations at a time.
ghost use Rattle.std.specs.Prelude.{◌≡◌, ◌<◌, ◌+◌, ◌^◌, IfOk};
ghost use Rattle.history_model.specs.Cut.{cut_at, is_called_by, is_over as is_over_by, known_at};

use history_model::Operation;
use std::alloc::{AllocError, Global};

/// The operations that were called up to a time, without later replies.
pub(crate) fn cut(alloc: Global, ops: &[Operation], time: u32) -> Result<Vec<Operation>, AllocError>
    requires { time + 1 < 2 ^ 32 }
    ensures { IfOk result (λ v. v.items ≡ cut_at time ops.now) }
{
    ops.iter()
        .filter(|op| op.call <= time)
        .map(|op| known(op, time))
        .collect(alloc)
}

/// The operation without a later reply.
fn known(op: &Operation, time: u32) -> Operation
    requires { time + 1 < 2 ^ 32 }
    ensures { result ≡ known_at time op.now }
{
    let completed = is_over(op, time);
    Operation {
        reply: if completed { op.reply } else { time + 1 },
        completed,
        ..*op
    }
}

/// Whether the reply came by then.
fn is_over(op: &Operation, time: u32) -> bool
    ensures { result ≡ is_over_by time op.now }
{
    op.completed && op.reply <= time
}
