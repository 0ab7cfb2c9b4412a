//! The marks of a session, the one of greatest key at each of its operations.
ghost use Rattle.std.specs.Prelude.{◌≡◌, ◌<◌, ◌+◌, ℕ, length, IfOk, Some};
ghost use Rattle.std.specs.Ordering.{nat_cmp};
ghost use Rattle.std.specs.BTreeMap.{get};
ghost use Rattle.reg_levels.specs.Counts.Marks.{AreLastBelow, IsLastBelow, IsNewer, KeepsLast, last_of};

use crate::counts::mark::Mark;
use history_model::Operation;
use std::alloc::{AllocError, Global};
use std::collections::BTreeMap;

/// For each operation, of the marks of the operations that its session called before, the one of greatest
/// key.
pub(crate) fn last_in_session(
    alloc: Global,
    ops: &[Operation],
    marks: &[Option<Mark>],
) -> Result<Vec<Option<Mark>>, AllocError>
    requires { length marks.now ≡ length ops.now }
    ensures { IfOk result (λ found. AreLastBelow ops.now marks.now (length ops.now) found.items) }
{
    let mut found = Vec::with_capacity(alloc, ops.len())?;
    let mut last = BTreeMap::new(alloc);
    for place in 0..ops.len() {
        let process = ops[place].process;
        found.push(known(&last, process))?;
        add(&mut last, process, marks[place])?;
    }
    Ok(found)
}

/// The mark that is known of a process.
fn known(last: &BTreeMap<u32, Mark>, process: Option<u32>) -> Option<Mark>
    ensures { result ≡ last_of (get nat_cmp last.now) process }
{
    last.get(&process?).copied()
}

/// Adds a mark of a process, which stays if its key is greater than that of the mark that was known.
fn add(
    last: &mut BTreeMap<u32, Mark>,
    process: Option<u32>,
    mark: Option<Mark>,
) -> Result<(), AllocError>
    ensures { IfOk result (λ _. KeepsLast (get nat_cmp last.old) (get nat_cmp last.new) process mark) }
{
    if let (Some(process), Some(mark)) = (process, mark) {
        put(last, process, mark)?;
    }
    Ok(())
}

fn put(last: &mut BTreeMap<u32, Mark>, process: u32, mark: Mark) -> Result<(), AllocError>
    ensures { IfOk result (λ _. IsNewer (get nat_cmp last.old) (get nat_cmp last.new) process mark) }
{
    let newer = match known(last, Some(process)) {
        Some(old) => old.key < mark.key,
        None => true,
    };
    if newer {
        last.insert(process, mark)?;
    }
    Ok(())
}
