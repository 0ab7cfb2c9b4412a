//! How the table is made.
ghost use Rattle.std.specs.Prelude.{IfOk, MatchResult};
ghost use Rattle.history_model.specs.Operations.{IsHistory};
ghost use Rattle.history_model.specs.declared.operation.Operation.{Operation as AnOperation};
ghost use Rattle.reg_zones.specs.Faults.{IsFirstUnwritten};
ghost use Rattle.reg_levels.specs.Clusters.Places.{AreFew, IsAt, IsByCall};
ghost use Rattle.reg_levels.specs.Clusters.Steps.{AreSources};
ghost use Rattle.reg_levels.specs.Clusters.Table.{IsClusterTable};
ghost use Rattle.std.specs.Prelude.{length};

use crate::clusters::ends::ends;
use crate::clusters::numbering::{numbered, numbers};
use crate::clusters::sources::sources;
use crate::clusters::table::ClusterTable;
use history_model::Operation;
use std::alloc::{AllocError, Global};

/// The clusters of a register's operations, which stand by their calls; or the place of the completed read,
/// of those whose value nobody wrote, that is called first.
///
/// It takes n log n steps for n operations.
///
/// # Errors
/// If memory ran out.
pub fn cluster_table(
    alloc: Global,
    ops: &[Operation],
) -> Result<Result<ClusterTable, u32>, AllocError>
    requires history { IsHistory ops.now }
    requires by_call { IsByCall ops.now }
    requires few { AreFew ops.now }
    ensures { IfOk result (λ judged. MatchResult judged
        (λ table. IsClusterTable ops.now table.clusters.items table.numbers.items)
        (λ read. (r : AnOperation) × IsAt ops.now read r × IsFirstUnwritten ops.now r)) }
{
    match sources(alloc, ops)? {
        Err(read) => Ok(Err(read)),
        Ok(sources) => Ok(Ok(table_from(alloc, ops, &sources)?)),
    }
}

/// The table, if the write of each operation is known.
fn table_from(
    alloc: Global,
    ops: &[Operation],
    sources: &[Option<u32>],
) -> Result<ClusterTable, AllocError>
    requires history { IsHistory ops.now }
    requires by_call { IsByCall ops.now }
    requires few { AreFew ops.now }
    requires sources { AreSources ops.now (length ops.now) sources.now }
    ensures { IfOk result (λ table. IsClusterTable ops.now table.clusters.items table.numbers.items) }
{
    let by_write = numbered(alloc, &ends(alloc, ops, sources)?)?;
    let numbers = numbers(alloc, &by_write.numbers, sources)?;
    Ok(ClusterTable {
        clusters: by_write.clusters,
        numbers,
    })
}
