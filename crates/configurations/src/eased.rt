//! Operations that can do more: a cas without a reply may take effect at any value, as a write.
ghost use Rattle.std.specs.Prelude.{◌≡◌, ◌<◌, ◌*◌, ◌^◌, [], map, IfOk};
ghost use Rattle.configurations.specs.Eased.{ease};
ghost use Rattle.configurations.specs.Reached.{IsReached};
ghost use Rattle.configurations.specs.Runs.{AreInOrder};

use crate::bounds::Bound;
use crate::moment::Moment;
use crate::op::{Kind, NEVER, Op};
use crate::reached::Reached;
use crate::run::run;
use crate::work::Limits;
use std::alloc::{AllocError, Global};

/// Goes forward over the eased operations. Only a no counts: what those can't explain, the operations can't.
pub(crate) fn eased_run<const W: usize>(
    alloc: Global,
    ops: &[Op],
    events: &[Moment],
    limits: &mut Limits,
) -> Result<Reached, AllocError>
    requires room { 64 * W < 2 ^ 32 }
    ensures { IfOk result (λ found. AreInOrder ops.now [] events.now → IsReached ops.now events.now found) }
{
    let eased = all_eased(alloc, ops)?;
    match run::<W>(alloc, &eased, events, limits)? {
        Reached::Hopeless { place, before } => Ok(Reached::Hopeless { place, before }),
        Reached::Left(_) => Ok(Reached::Stopped(Bound::Configurations)),
        Reached::Stopped(bound) => Ok(Reached::Stopped(bound)),
    }
}

/// All operations, eased.
fn all_eased(alloc: Global, ops: &[Op]) -> Result<Vec<Op>, AllocError>
    ensures { IfOk result (λ v. v.items ≡ map ease ops.now) }
{
    ops.iter().map(|op| eased(op)).collect(alloc)
}

/// A cas without a reply as a write, and any other operation as it is.
fn eased(op: &Op) -> Op
    ensures { result ≡ ease op.now }
{
    match op.kind {
        Kind::Cas | Kind::CasUnless => {
            if op.rank < NEVER {
                *op
            } else {
                Op {
                    kind: Kind::Write,
                    from: op.to,
                    ..*op
                }
            }
        }
        Kind::Read => *op,
        Kind::Write => *op,
        Kind::Miss => *op,
    }
}
