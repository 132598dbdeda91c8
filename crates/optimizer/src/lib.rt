//! Optimizing a list of pending operations: rotations are fused and measurements moved earlier, segment by segment, in the lent list.
#![tactic(auto)]

pub mod checks;
pub mod fusing;
pub mod moving;
pub mod segments;

ghost use Rattle.std.specs.Prelude.{◌≡◌, ◌/◌, ◌%◌, ◌≤◌, ◌<◌, ◌-◌, ◌++◌, false, true, nat_lt, length, take, replicate};
ghost use Rattle.std.specs.List.{list_any, range_with_len};
ghost use Rattle.pending.specs.Operation.{operations_of};
ghost use Rattle.optimizer_spec.specs.Optimizing.{as_it_is, in_segments};
ghost use Rattle.optimizer.specs.Working.{IsUnmarked};
ghost use Rattle.optimizer.specs.Answer.{held, Gives, Answers};

use crate::checks::{Verdict, check_call};
use crate::segments::{mark_ends, optimize_segments};
use refusals::Refusal;

/// How many operations came and are left, how many pairs were fused, how many of these cancelled, and how many places measurements moved in all.
#[derive(Clone, Copy, Debug, PartialEq, Eq)]
pub struct Counts {
    pub input: usize,
    pub output: usize,
    pub fused: usize,
    pub cancelled: usize,
    pub swaps: usize,
}

// Zeroes all words from number n on.
fn clear_from(words: &mut [u64], n: usize)
    requires { n ≤ length words.old }
    ensures { words.new ≡ take n words.old ++ replicate (length words.old - n) 0 }
{
    words[n..].fill(0);
}

// Writes words to the front, and zeros behind them.
fn put_front(words: &[u64], output: &mut [u64])
    requires { length words.now ≤ length output.old }
    ensures { output.new ≡ held (length output.old) words.now }
{
    let n = words.len();
    output[..n].copy_from_slice(words);
    clear_from(output, n);
}

// Numbers words from 0 on.
fn number(words: &mut [u64])
    ensures { words.new ≡ range_with_len 0 (length words.old) }
{
    for i in 0..words.len() {
        words[i] = i as u64;
    }
}

// Leaves a list as it is, with all its boundaries.
fn keep_as_it_is(operations: &[u64], optimized: &mut [u64], map: &mut [u64]) -> Counts
    requires whole { length operations.now % 32 ≡ 0 }
    requires room { length operations.now ≤ length optimized.old }
    requires map_room { length operations.now / 32 < length map.old }
    ensures { let kept = as_it_is (operations_of operations.now) in
        Gives kept optimized.old optimized.new map.old map.new result }
{
    let n = operations.len() / 32;
    put_front(operations, optimized);
    clear_from(map, n + 1);
    number(&mut map[..n + 1]);
    Counts {
        input: n,
        output: n,
        fused: 0,
        cancelled: 0,
        swaps: 0,
    }
}

// Optimizes a list between its ends, the preserved prefixes.
fn optimize_in_segments(
    operations: &[u64],
    prefixes: &[u64],
    optimized: &mut [u64],
    map: &mut [u64],
) -> Counts
    requires whole { length operations.now % 32 ≡ 0 }
    requires few { length operations.now ≤ 32768 }
    requires room { length operations.now ≤ length optimized.old }
    requires map_room { length operations.now / 32 < length map.old }
    requires unmarked { IsUnmarked (operations_of operations.now) }
    requires inside { list_any (nat_lt (length operations.now / 32)) prefixes.now ≡ false }
    ensures { let left = in_segments (operations_of operations.now) prefixes.now in
        Gives left optimized.old optimized.new map.old map.new result }
{
    let n = operations.len() / 32;
    put_front(operations, optimized);
    clear_from(map, n + 1);
    mark_ends(&mut map[..n + 1], prefixes);
    let progress = optimize_segments(&mut optimized[..operations.len()], &mut map[..n + 1]);
    clear_from(optimized, 32 * progress.output);
    Counts {
        input: n,
        output: progress.output,
        fused: progress.fused,
        cancelled: progress.cancelled,
        swaps: progress.swaps,
    }
}

/// Optimizes a list of pending operations into the lent list, with the lent map of its boundaries, or gives its first refusal, after which both are zero.
pub fn optimize_pending_operations(
    width: u64,
    operations: &[u64],
    prefixes: &[u64],
    optimized: &mut [u64],
    map: &mut [u64],
) -> Result<Counts, Refusal>
    ensures { Answers width operations.now prefixes.now
        optimized.old optimized.new map.old map.new result }
{
    match check_call(width, operations, prefixes, optimized.len(), map.len()) {
        Ok(Verdict::AsItIs) => Ok(keep_as_it_is(operations, optimized, map)),
        Ok(Verdict::InSegments) => {
            Ok(optimize_in_segments(operations, prefixes, optimized, map))
        }
        Err(refusal) => {
            clear_from(optimized, 0);
            clear_from(map, 0);
            Err(refusal)
        }
    }
}
