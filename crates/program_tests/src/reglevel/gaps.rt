//! The gap of a register with one stale read.
use crate::reglevel::histories::stale_read;
use reg_levels::clusters::{cluster_table, first_early};
use reg_levels::gap::{Gap, gap_of};
use std::test::Fail;

/// The read was called one event after the reply to the write. Null was there before the write, and is read
/// after it.
#[test]
fn stale_read_has_a_gap_of_one_event(rt: HostRuntime) -> Result<(), Fail> {
    let ops = stale_read();
    let table = cluster_table(rt.alloc(), &ops)?.map_err(|_| "a read is unwritten")?;
    assert_eq!(rt; first_early(&ops, &table), None);
    let expected = Gap {
        events: 1,
        writes: (0, 1),
        first: (0, 1),
        second: (1, 2),
    };
    assert_eq!(rt; gap_of(rt.alloc(), &ops, &table)?, Some(expected));
    Ok(())
}
