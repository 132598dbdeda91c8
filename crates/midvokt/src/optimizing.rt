//! Pending operations: a list optimized into a lent list, with a lent map of its boundaries.
ghost use Rattle.std.specs.Prelude.{◌≡◌};
ghost use Rattle.optimizer.specs.Answer.{told_of};
ghost use Rattle.midvokt.specs.Optimized.{optimize_words, OptimizeReplies};

use crate::{lay_out, reply_number};
use optimizer::{Counts, optimize_pending_operations};
use refusals::Refusal;

// The refusal's index and the five counts.
fn optimize_words(optimized: Result<Counts, Refusal>) -> [u64; 6]
    ensures { result ≡ optimize_words (told_of optimized) }
{
    match optimized {
        Ok(counts) => [
            0,
            counts.input as u64,
            counts.output as u64,
            counts.fused as u64,
            counts.cancelled as u64,
            counts.swaps as u64,
        ],
        Err(refusal) => [refusal.index, 0, 0, 0, 0, 0],
    }
}

/// Optimizes a list of pending operations into the lent list, map and result; 0, or the refusal's number.
// Kept: C's words and slices, one by one, so that `midvokt_c` only hands them on.
pub fn midvokt_optimize(
    width: u64,
    operations: &[u64],
    prefixes: &[u64],
    optimized: &mut [u64],
    map: &mut [u64],
    res: &mut [u64],
) -> u64
    ensures { OptimizeReplies width operations.now prefixes.now
        optimized.old optimized.new map.old map.new res.old res.new result }
{
    let counts = optimize_pending_operations(width, operations, prefixes, optimized, map);
    lay_out(&optimize_words(counts), res);
    reply_number(counts)
}
