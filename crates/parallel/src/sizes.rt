//! How many items one thread takes at a time, in each step, and how many threads there are.
ghost use Rattle.std.specs.Prelude.{◌<◌};

use rayon::current_num_threads;
use std::thread::Threads;

/// The most lines that one thread reads into one list: enough that a block has few lists, and
/// few enough that several threads share a block.
pub const LINES_PER_LIST: usize = 8_192;

/// The fewest lines to read that are worth a thread of their own.
pub const FEWEST_LINES: usize = 4_096;

/// How many operations of an order one thread turns into lines at a time: they take
/// much longer than a thread takes to start.
pub const OPERATIONS_PER_PART: usize = 16_384;

/// How many points' chains of operations one thread follows at a time: most points have one operation or
/// none, so there are more of them than of operations.
pub const POINTS_PER_PART: usize = 32_768;

/// How many line numbers one thread writes at a time: they take much longer than a thread takes to start.
pub const NUMBERS_PER_PART: usize = 16_384;

/// About how many parts the lines of many registers are made in: enough for each thread to have some, and few
/// enough to cost little beside the lines.
pub const REGISTER_PARTS: usize = 64;

/// Whether there is one processor for this process, or it isn't known how many there are.
pub fn has_one_processor(rt: &impl Threads) -> bool {
    current_num_threads(rt) == 1
}

/// How many of `count` items one thread takes, if as many threads as leave one processor
/// free share them: at least `fewest`, or one.
pub fn share_size(rt: &impl Threads, count: usize, fewest: usize) -> usize
    ensures { 0 < result }
{
    let others = current_num_threads(rt).saturating_sub(1).max(1);
    (count / others).max(fewest).max(1)
}

/// How many of some items a worker takes at least. [`map_each`](crate::map_each) halves a list for as long as
/// each half has that many, so there are as many shares as the greatest power of two up to the workers, or
/// fewer if there aren't twice as many items.
pub fn share_of(items: usize, workers: u32) -> usize {
    let shares = (1_usize << workers.max(1).ilog2()).max(1);
    let even = items / shares;
    if even < 2 {
        items.div_ceil(shares)
    } else {
        even
    }
}
