//! The operation that each session called last.
ghost use Rattle.std.specs.Prelude.{◌≡◌, ◌<◌, ◌≤◌, ◌+◌, ◌^◌, ℕ, List, Option, length, slice_get, IfOk, Some};
ghost use Rattle.causal_order.specs.SessionClocks.Steps.{AreLatest, ArePrevious, IsLatestOf};

use std::alloc::{AllocError, Global};

/// For each operation the one that its session called last before it, by the numbers of the sessions.
pub(crate) fn previous_calls(
    alloc: Global,
    count: u32,
    numbers: &[Option<u32>],
) -> Result<Vec<Option<u32>>, AllocError>
    requires few { length numbers.now < 2 ^ 22 }
    requires below { (p s : ℕ) → slice_get numbers.now p ≡ Some (Some s) → s < count }
    ensures { IfOk result (λ previous. ArePrevious numbers.now (length numbers.now) previous.items) }
{
    let mut latest = vec![in alloc; None; count as usize]?;
    let mut previous = Vec::with_capacity(alloc, numbers.len())?;
    for place in 0..numbers.len() {
        previous.push(latest_of(&latest, numbers[place]))?;
        note(&mut latest, numbers[place], place as u32);
    }
    Ok(previous)
}

/// What a session called last, if there is one.
fn latest_of(latest: &[Option<u32>], number: Option<u32>) -> Option<u32>
    requires below { (s : ℕ) → number ≡ Some s → s < length latest.now }
    ensures { (numbers : List (Option ℕ)) (i : ℕ) → AreLatest numbers i latest.now
        → IsLatestOf numbers i number result }
{
    latest[number? as usize]
}

/// Notes what a session called last.
fn note(latest: &mut Vec<Option<u32>>, number: Option<u32>, place: u32)
    requires below { (s : ℕ) → number ≡ Some s → s < length latest.old.items }
    ensures size { length latest.new.items ≡ length latest.old.items }
    ensures latest { (numbers : List (Option ℕ)) → slice_get numbers place ≡ Some number
        → AreLatest numbers place latest.old.items → AreLatest numbers (place + 1) latest.new.items }
{
    if let Some(session) = number {
        latest[session as usize] = Some(place);
    }
}
