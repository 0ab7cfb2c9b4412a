//! How many bytes are read at once.
ghost use Rattle.std.specs.Prelude.{◌<◌, ◌≤◌};
ghost use Rattle.reg_intake.specs.declared.block.TheConstants.{LONG_BLOCK};

use history_text::MAX_INPUT;
use std::random::RandomSource;

/// How many bytes a block has if several processors share the work: enough that its lines are read by the
/// time those before them are taken in, even if the thread that reads them starts late, and few enough that
/// they take little memory.
pub(crate) const BLOCK: usize = 1_572_864;

/// How many bytes a block has after a block's worth without a line feed: more, since all of it is looked
/// through each time, but few enough that as many short lines after a long one take little memory.
const LONG_BLOCK: usize = 2_621_440;

/// How many bytes a block has on one processor: few enough that its lines are still in the processor's cache
/// when they are taken in.
const SMALL_BLOCK: usize = 262_144;

/// How many bytes a block has, by whether there is one processor alone and how many bytes are held. If a line
/// is longer than a block, the rest of it comes in larger ones, since all of it is looked through each time.
pub(crate) fn block_size(has_one_processor: bool, held: usize) -> usize
    ensures { (0 < result) × (result ≤ LONG_BLOCK) }
{
    if has_one_processor && held < SMALL_BLOCK {
        SMALL_BLOCK
    } else if held < BLOCK {
        BLOCK
    } else {
        LONG_BLOCK
    }
}

/// How many bytes are held before the first lines are read. If the system gives no random bytes, that is all
/// of them: the key of the hashes is a digest of them then.
pub(crate) fn first_block_size<T: RandomSource>(rt: &T, has_one_processor: bool) -> usize {
    match rt.fill_bytes(&mut [0]) {
        Ok(()) => block_size(has_one_processor, 0),
        Err(_) => MAX_INPUT,
    }
}
