//! The numbers of the sessions.
ghost use Rattle.std.specs.Prelude.{◌<◌, ◌^◌, ℕ, List, Option, length, IfOk, OnOk};
ghost use Rattle.std.specs.BTreeMap.{get};
ghost use Rattle.std.specs.Ordering.{nat_cmp};
ghost use Rattle.causal_order.specs.SessionClocks.Steps.{AreNumbers, IsNumbered};

use history_model::Operation;
use std::alloc::{AllocError, Global};
use std::collections::BTreeMap;

/// The number of each operation's session.
#[derive(Drop)]
pub(crate) struct SessionNumbers {
    /// How many sessions there are.
    pub(crate) count: u32,
    pub(crate) numbers: Vec<Option<u32>>,
}

/// Numbers the sessions by their first operations.
pub(crate) fn session_numbers(
    alloc: Global,
    ops: &[Operation],
) -> Result<SessionNumbers, AllocError>
    requires few { length ops.now < 2 ^ 22 }
    ensures { IfOk result (λ made. (known : (ℕ → Option ℕ))
        × AreNumbers ops.now (length ops.now) made.count known made.numbers.items) }
{
    let mut sessions = BTreeMap::new(alloc);
    let mut count = 0;
    let mut numbers = Vec::with_capacity(alloc, ops.len())?;
    for place in 0..ops.len() {
        let number = number_of(&mut sessions, count, ops[place].process)?;
        numbers.push(number)?;
        if number == Some(count) {
            count += 1;
        }
    }
    Ok(SessionNumbers { count, numbers })
}

/// The number of the session of a process, if there is one: a new session has the next number.
fn number_of(
    sessions: &mut BTreeMap<u32, u32>,
    count: u32,
    process: Option<u32>,
) -> Result<Option<u32>, AllocError>
    ensures { IfOk result (λ number. IsNumbered (get nat_cmp sessions.old) (get nat_cmp sessions.new) count
        process number) }
{
    let Some(process) = process else {
        return Ok(None);
    };
    if let Some(number) = sessions.get(&process).copied() {
        return Ok(Some(number));
    }
    sessions.insert(process, count)?;
    Ok(Some(count))
}
