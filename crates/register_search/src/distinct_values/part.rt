//! The operations that show a fault.
ghost use Rattle.std.specs.Prelude.{◌≡◌, IfOk};
ghost use Rattle.register_search.specs.DistinctValues.SomeOperations.{is_among, is_kept, kept_of, null_or};

use history_model::{Act, Operation};
use history_text::Val;
use std::alloc::{AllocError, Global};

/// What shows a fault: writes of two values, and operations that don't fit. These are named by the times of
/// their calls.
#[derive(Debug, Drop)]
pub(crate) struct Shown {
    pub(crate) one: Val,
    pub(crate) other: Val,
    pub(crate) calls: Vec<u32>,
}

/// The writes of two values, and the reads of these or of null that are called at some times. No other read
/// is needed.
pub(crate) fn part_of(
    alloc: Global,
    ops: &[Operation],
    shown: &Shown,
) -> Result<Vec<Operation>, AllocError>
    ensures { IfOk result (λ v. v.items
        ≡ kept_of (null_or shown.now.one shown.now.other) (is_among shown.now.calls.items) ops.now) }
{
    ops.iter()
        .filter(|op| is_part(op, shown))
        .copied()
        .collect(alloc)
}

/// Whether an operation is one of those.
fn is_part(op: &Operation, shown: &Shown) -> bool
    ensures { result ≡ is_kept (null_or shown.now.one shown.now.other) (is_among shown.now.calls.items)
        op.now.act op.now.call }
{
    match op.act {
        Act::Read(None) => false,
        Act::Read(Some(given)) => {
            is_one(given, shown.one, shown.other) && shown.calls.contains(&op.call)
        }
        Act::Write(written) => is_one(written, shown.one, shown.other),
        Act::Cas { .. } => false,
        Act::CasUnless { .. } => false,
        Act::Miss { .. } => false,
    }
}

/// Whether a value is null or one of two.
fn is_one(value: Val, one: Val, other: Val) -> bool
    ensures { result ≡ null_or one other value }
{
    value == Val::Null || value == one || value == other
}
