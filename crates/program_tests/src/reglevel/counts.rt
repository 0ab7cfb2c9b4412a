//! Counts of old reads and of lost writes.
use crate::reglevel::histories::{came_back, went_back};
use reg_levels::clusters::cluster_table;
use reg_levels::counts::{KindCounts, OldRead, Staleness, lost_writes, measured, stale_reads};
use std::test::Fail;

/// The read of 1 is stale, goes back and is inverted: 1 was there before the write of 2, which the session
/// had read. No write of the session is missed, and none is lost, as 2 was read.
#[test]
fn session_that_goes_back_to_an_older_value(rt: HostRuntime) -> Result<(), Fail> {
    let ops = went_back();
    let table = cluster_table(rt.alloc(), &ops)?.map_err(|_| "a read is unwritten")?;
    let stale = OldRead {
        read: 4,
        earlier: 2,
        newer: 2,
        seen: 1,
    };
    let after_a_read = OldRead {
        read: 4,
        earlier: 3,
        newer: 2,
        seen: 1,
    };
    let expected = Staleness {
        counts: KindCounts {
            stale: 1,
            own: 0,
            back: 1,
            inverted: 1,
            lost: 0,
        },
        stale: Some(stale),
        own: None,
        back: Some(after_a_read),
        inverted: Some(after_a_read),
        lost: None,
    };
    let found = measured(rt.alloc(), &ops, &table)?;
    assert_eq!(rt; found, expected);
    assert_eq!(rt; found.is_fresh(), false);
    Ok(())
}

/// A value without a reply is read, overwritten, and read again by the session that overwrote it. The first
/// read saw it; the write of 2 is lost, since the only read after it gave 1.
#[test]
fn value_that_comes_back_after_an_overwrite(rt: HostRuntime) -> Result<(), Fail> {
    let ops = came_back();
    let table = cluster_table(rt.alloc(), &ops)?.map_err(|_| "a read is unwritten")?;
    let found = measured(rt.alloc(), &ops, &table)?;
    let stale = stale_reads(rt.alloc(), &ops, &table)?;
    let lost = lost_writes(rt.alloc(), &ops, &table)?;
    let old = OldRead {
        read: 4,
        earlier: 3,
        newer: 3,
        seen: 2,
    };
    let expected = Staleness {
        counts: KindCounts {
            stale: 1,
            own: 1,
            back: 0,
            inverted: 0,
            lost: 1,
        },
        stale: Some(old),
        own: Some(old),
        back: None,
        inverted: None,
        lost: Some(3),
    };
    assert_eq!(rt; found, expected);
    assert_eq!(rt; stale.as_slice(), [old].as_slice());
    assert_eq!(rt; lost.as_slice(), [3].as_slice());
    Ok(())
}
