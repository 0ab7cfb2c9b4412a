//! What a closure makes of each item of a slice, or of each part of it, done by several threads.
ghost use Rattle.std.specs.Prelude.{IfOk};
ghost use Rattle.parallel.specs.Parts.{GivesEach, GivesParts, TakesEach, TakesParts};

use rayon::prelude::*;
use std::alloc::{AllocError, Global};
use std::marker::{Copy, Send, Sync};
use std::thread::Threads;

/// What the closure makes of each item, in order. Each thread takes
/// at least `fewest` items at a time, or one.
///
/// # Errors
/// The closure's, or out of memory; what was made is dropped.
pub fn map_each<
    R: Threads + Sync,
    T: Sync,
    X: Send + Drop,
    F: Fn(&T) -> Result<X, AllocError> + Copy + Send + Sync,
>(rt: &R, alloc: Global, items: &[T], fewest: usize, f: F) -> Result<Vec<X>, AllocError>
    requires { TakesEach F.Fn f items.now }
    ensures { IfOk result (λ made. GivesEach F.Fn f items.now made.items) }
{
    items
        .par_iter()
        .with_min_len(fewest)
        .map(f)
        .collect::<Result<Vec<X>, AllocError>>(rt, alloc)?
}

/// What the closure makes of each of some parts, which are the items in order. A part has at most `size`
/// items, or one, and each is worth a thread.
///
/// # Errors
/// The closure's, or out of memory; what was made is dropped.
pub fn map_parts<
    R: Threads + Sync,
    T: Sync,
    X: Send + Drop,
    F: Fn(&[T]) -> Result<X, AllocError> + Copy + Send + Sync,
>(rt: &R, alloc: Global, items: &[T], size: usize, f: F) -> Result<Vec<X>, AllocError>
    requires { TakesParts F.Fn f items.now }
    ensures { IfOk result (λ made. GivesParts F.Fn f items.now made.items) }
{
    items
        .par_chunks(size.max(1))
        .with_min_len(1)
        .map(f)
        .collect::<Result<Vec<X>, AllocError>>(rt, alloc)?
}
