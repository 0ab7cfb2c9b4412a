//! The guarantees of sessions, and the orders behind them.
ghost use Rattle.history_model.specs.Operations.{IsHistory};
ghost use Rattle.reg_levels.specs.Levels.{IsOfSessions};
ghost use Rattle.reg_levels.specs.Clusters.Places.{AreFew, IsByCall};

use crate::reglevel::histories::{one_guarantee_each, read_too_soon, went_back};
use history_model::{Guarantee, Operation};
use reg_levels::clusters::cluster_table;
use reg_levels::{Decision, LevelFault, Step, decide, order_of};
use std::alloc::Global;
use std::test::Fail;

/// What is decided of the operations, none of whose reads is unwritten.
fn decided(alloc: Global, ops: &[Operation], guarantee: Guarantee) -> Result<Decision, Fail>
    requires history { IsHistory ops.now }
    requires by_call { IsByCall ops.now }
    requires few { AreFew ops.now }
    requires sessions { IsOfSessions guarantee }
{
    let table = cluster_table(alloc, ops)?.map_err(|_| "a read is unwritten")?;
    Ok(decide(alloc, ops, &table, guarantee)?)
}

/// The places of the operations in the order behind a yes.
fn listed(alloc: Global, ops: &[Operation], guarantee: Guarantee) -> Result<Vec<u32>, Fail>
    requires history { IsHistory ops.now }
    requires by_call { IsByCall ops.now }
    requires few { AreFew ops.now }
    requires sessions { IsOfSessions guarantee }
{
    let table = cluster_table(alloc, ops)?.map_err(|_| "a read is unwritten")?;
    let places = match decide(alloc, ops, &table, guarantee)? {
        Decision::Kept(order) => order_of(alloc, ops, &table, &order)?,
        Decision::Broken(_) => Vec::new(alloc),
    };
    Ok(places)
}

// Own writes and monotonic hold, each by an order that the other rules out. So no order gives both.
#[test]
fn halves_without_the_whole(rt: HostRuntime) -> Result<(), Fail> {
    let ops = one_guarantee_each();
    let own = decided(rt.alloc(), &ops, Guarantee::OwnWrites)?;
    assert_eq!(rt; own, Decision::Kept(vec![in rt.alloc(); 0, 1, 2]?));
    let monotonic = decided(rt.alloc(), &ops, Guarantee::Monotonic)?;
    assert_eq!(rt; monotonic, Decision::Kept(vec![in rt.alloc(); 0, 2, 1]?));
    let there = Step {
        write: 1,
        before: 1,
        after: 3,
    };
    let back = Step {
        write: 2,
        before: 4,
        after: 5,
    };
    let session = decided(rt.alloc(), &ops, Guarantee::Session)?;
    let steps = vec![in rt.alloc(); back, there]?;
    assert_eq!(rt; session, Decision::Broken(LevelFault::Cycle(steps)));
    Ok(())
}

// What goes against the real time of writes is sequential all the same.
#[test]
fn sequential_against_time(rt: HostRuntime) -> Result<(), Fail> {
    let ops = went_back();
    let there = Step {
        write: 1,
        before: 1,
        after: 2,
    };
    let back = Step {
        write: 2,
        before: 3,
        after: 4,
    };
    let monotonic = decided(rt.alloc(), &ops, Guarantee::Monotonic)?;
    let steps = vec![in rt.alloc(); back, there]?;
    assert_eq!(rt; monotonic, Decision::Broken(LevelFault::Cycle(steps)));
    let order = listed(rt.alloc(), &ops, Guarantee::Sequential)?;
    assert_eq!(rt; order.as_slice(), [0, 2, 3, 1, 4].as_slice());
    Ok(())
}

// A read before its write breaks what keeps time, and no order by sessions alone.
#[test]
fn early_reads(rt: HostRuntime) -> Result<(), Fail> {
    let ops = read_too_soon();
    let own = decided(rt.alloc(), &ops, Guarantee::OwnWrites)?;
    assert_eq!(rt;
        own,
        Decision::Broken(LevelFault::Early { read: 1, write: 2 })
    );
    let sequential = decided(rt.alloc(), &ops, Guarantee::Sequential)?;
    assert_eq!(rt; sequential, Decision::Kept(vec![in rt.alloc(); 0, 1]?));
    Ok(())
}
