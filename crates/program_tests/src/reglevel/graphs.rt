//! Orders and cycles of small graphs.
ghost use Rattle.std.specs.Prelude.{◌≡◌};

use reg_levels::order_graph::{Edge, Sorted, sort};
use std::test::Fail;

const fn edge(from: u32, to: u32) -> Edge
    ensures { result ≡ record { from = from; to = to } }
{
    Edge { from, to }
}

// The numbers stand in their order where the edges allow it.
#[test]
fn an_order(rt: HostRuntime) -> Result<(), Fail> {
    let sorted = sort(
        rt.alloc(),
        5,
        &[edge(4, 1), edge(1, 0), edge(4, 0), edge(1, 0)],
    )?;
    assert_eq!(rt; sorted, Sorted::Order(vec![in rt.alloc(); 4, 1, 0, 2, 3]?));
    Ok(())
}

// A node that leads to itself is a cycle.
#[test]
fn a_loop(rt: HostRuntime) -> Result<(), Fail> {
    let sorted = sort(rt.alloc(), 3, &[edge(0, 1), edge(1, 1)])?;
    assert_eq!(rt; sorted, Sorted::Cycle(vec![in rt.alloc(); 1]?));
    Ok(())
}

// The walk comes upon the cycle 0, 1, 2, 3 first, and the search from 0 upon a shorter one.
#[test]
fn a_short_cycle(rt: HostRuntime) -> Result<(), Fail> {
    let sorted = sort(
        rt.alloc(),
        4,
        &[edge(3, 0), edge(2, 3), edge(1, 2), edge(0, 1), edge(0, 3)],
    )?;
    assert_eq!(rt; sorted, Sorted::Cycle(vec![in rt.alloc(); 0, 4]?));
    Ok(())
}
