//! The ends of clusters, and reads without a write before them.
use crate::reglevel::histories::{came_back, read_too_soon, unwritten};
use reg_levels::clusters::{ClusterEnds, cluster_table, first_early};
use std::test::Fail;

/// The ends of a cluster.
fn ends(write: u32, first: u32, first_reply: u32, last: u32, last_call: u32) -> ClusterEnds {
    ClusterEnds {
        write,
        first,
        last,
        first_reply,
        last_call,
    }
}

/// The write of 1 has no reply, so its cluster has its first reply and its last call from the two reads.
#[test]
fn pending_write_is_kept_by_its_reads(rt: HostRuntime) -> Result<(), Fail> {
    let ops = came_back();
    let table = cluster_table(rt.alloc(), &ops)?.map_err(|_| "a read is unwritten")?;
    assert_eq!(rt; table.clusters.len(), 3);
    assert_eq!(rt; table.clusters[0], ends(0, 0, 1, 0, 0));
    assert_eq!(rt; table.clusters[1], ends(1, 2, 5, 4, 8));
    assert_eq!(rt; table.clusters[2], ends(3, 3, 7, 3, 6));
    assert_eq!(rt;
        table.numbers.as_slice(),
        [Some(0), Some(1), Some(1), Some(2), Some(1)].as_slice()
    );
    assert_eq!(rt; table.ends_at(4), Some(ends(1, 2, 5, 4, 8)));
    Ok(())
}

#[test]
fn read_before_its_write_is_early(rt: HostRuntime) -> Result<(), Fail> {
    let ops = read_too_soon();
    let table = cluster_table(rt.alloc(), &ops)?.map_err(|_| "a read is unwritten")?;
    assert_eq!(rt; first_early(&ops, &table), Some((1, 2)));
    Ok(())
}

#[test]
fn read_of_what_nobody_wrote_is_unwritten(rt: HostRuntime) -> Result<(), Fail> {
    let ops = unwritten();
    match cluster_table(rt.alloc(), &ops)? {
        Ok(_) => Err("no read is unwritten".into()),
        Err(read) => {
            assert_eq!(rt; read, 2);
            Ok(())
        }
    }
}
