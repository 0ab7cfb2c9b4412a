//! How the table is made.
ghost use Rattle.std.specs.Prelude.{◌<◌, ◌^◌, length, IfOk, MatchResult};
ghost use Rattle.level_laws.specs.Causal.{IsWhole};
ghost use Rattle.causal_order.specs.SessionClocks.Sessions.{IsFirstUnwritten, IsSessionTable};
ghost use Rattle.causal_order.specs.SessionClocks.Steps.{AreSources};

use crate::session_clocks::numbers::session_numbers;
use crate::session_clocks::previous::previous_calls;
use crate::session_clocks::sources::sources;
use crate::session_clocks::table::SessionTable;
use history_model::Operation;
use std::alloc::{AllocError, Global};

/// The table of the sessions of a history's operations; or the place of the first completed read whose value
/// nobody wrote to its register. It takes n log n steps for n operations.
///
/// # Errors
/// If memory ran out.
pub fn session_table(
    alloc: Global,
    ops: &[Operation],
) -> Result<Result<SessionTable, u32>, AllocError>
    requires whole { IsWhole ops.now }
    requires few { length ops.now < 2 ^ 22 }
    ensures { IfOk result (λ judged. MatchResult judged (λ table. IsSessionTable ops.now table)
        (λ read. IsFirstUnwritten ops.now read)) }
{
    match sources(alloc, ops)? {
        Err(read) => Ok(Err(read)),
        Ok(sources) => Ok(Ok(table_from(alloc, ops, sources)?)),
    }
}

/// The table, if the write of each completed read is known.
fn table_from(
    alloc: Global,
    ops: &[Operation],
    sources: Vec<Option<u32>>,
) -> Result<SessionTable, AllocError>
    requires few { length ops.now < 2 ^ 22 }
    requires sources { AreSources ops.now (length ops.now) sources.items }
    ensures { IfOk result (λ table. IsSessionTable ops.now table) }
{
    let sessions = session_numbers(alloc, ops)?;
    let previous = previous_calls(alloc, sessions.count, &sessions.numbers)?;
    Ok(SessionTable {
        count: sessions.count,
        numbers: sessions.numbers,
        previous,
        sources,
    })
}
