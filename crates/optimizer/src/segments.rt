//! Segments: both passes over one, and all of them in turn, each by itself, compacted behind those in front.
ghost use Rattle.std.specs.Prelude.{◌≡◌, ℕ, ◌+◌, ◌-◌, ◌/◌, ◌<◌, ◌≤◌, ◌++◌, false, nat_lt, List, length, take, drop};
ghost use Rattle.std.specs.List.{list_any};
ghost use Rattle.pending.specs.Operation.{Operation, operations_of};
ghost use Rattle.optimizer_spec.specs.Passes.{segment_of};
ghost use Rattle.optimizer.specs.Working.{between, IsUnmarked, OptimizesSegment, Few, Going, Come, EndsMarked, Finished};

use crate::fusing::fuse_commuting_rotations;
use crate::moving::move_measurements_earlier;

/// What optimizing a segment leaves: how many operations stand in front, and how many pairs, cancelled pairs and swaps there were.
#[derive(Clone, Copy, Debug, PartialEq, Eq)]
pub struct Segment {
    pub left: usize,
    pub fused: usize,
    pub cancelled: usize,
    pub swaps: usize,
}

// Fuses the rotations of a segment of no more than 1,024 operations, none of them marked, and moves its measurements earlier. What is left stands in front.
fn optimize_segment(segment: &mut [u64]) -> Segment
    requires short { length segment.old ≤ 32768 }
    requires unmarked { IsUnmarked (operations_of segment.old) }
    ensures length { length segment.new ≡ length segment.old }
    ensures few { Few (length segment.old / 32) result }
    ensures leaves { let before = operations_of segment.old in
        OptimizesSegment before (operations_of segment.new) result }
{
    let fused = fuse_commuting_rotations(segment);
    let swaps = move_measurements_earlier(&mut segment[..32 * fused.left], fused.fused != 0);
    Segment {
        left: fused.left,
        fused: fused.fused,
        cancelled: fused.cancelled,
        swaps,
    }
}

// Optimizes the segment from operation `start` to `end`. What is left stands at its start; nothing else changes.
fn segment_at(list: &mut [u64], start: usize, end: usize) -> Segment
    requires short { length list.old ≤ 32768 }
    requires inside { end ≤ length list.old / 32 }
    requires ascending { start ≤ end }
    requires unmarked { IsUnmarked (between start end (operations_of list.old)) }
    ensures length { length list.new ≡ length list.old }
    ensures few { Few (end - start) result }
    ensures front { take start (operations_of list.new) ≡ take start (operations_of list.old) }
    ensures back { drop end (operations_of list.new) ≡ drop end (operations_of list.old) }
    ensures leaves { let before = between start end (operations_of list.old) in
        OptimizesSegment before (drop start (operations_of list.new)) result }
{
    optimize_segment(&mut list[32 * start..32 * end])
}

// Copies so many operations from one place to an earlier one.
fn compact(list: &mut [u64], from: usize, count: usize, to: usize)
    requires inside { from + count ≤ length list.old / 32 }
    requires earlier { to ≤ from }
    ensures length { length list.new ≡ length list.old }
    ensures front { let before = operations_of list.old in
        take (to + count) (operations_of list.new)
        ≡ take to before ++ take count (drop from before) }
    ensures back { drop (from + count) (operations_of list.new)
        ≡ drop (from + count) (operations_of list.old) }
{
    if from != to {
        list.copy_within(32 * from..32 * (from + count), 32 * to);
    }
}

/// A map's word where there is no boundary; before that, a word that is not this one marks the end of a segment.
pub const NO_BOUNDARY: u64 = 0xffff_ffff_ffff_ffff;

/// How far all segments have come: where the next one begins, how many operations are left in front, and the counts so far.
#[derive(Clone, Copy, Debug, PartialEq, Eq)]
pub struct Progress {
    pub start: usize,
    pub output: usize,
    pub fused: usize,
    pub cancelled: usize,
    pub swaps: usize,
}

// Optimizes the segment that ends there, if one does, compacts what is left, and writes its boundary.
fn segment_turn(list: &mut [u64], map: &mut [u64], end: usize, so_far: Progress) -> Progress
    requires short { length list.old ≤ 32768 }
    requires inside { end ≤ length list.old / 32 }
    requires room { end < length map.old }
    requires going { Going end so_far }
    requires unmarked { IsUnmarked (between so_far.start end (operations_of list.old)) }
    ensures list_length { length list.new ≡ length list.old }
    ensures map_length { length map.new ≡ length map.old }
    ensures going { Going (end + 1) result }
    ensures further { so_far.start ≤ result.start }
    ensures rest { drop result.start (operations_of list.new)
        ≡ drop result.start (operations_of list.old) }
    ensures come { (os : List Operation) (prefixes : List ℕ)
        → Come os prefixes end (operations_of list.old) map.old so_far
        → Come os prefixes (end + 1) (operations_of list.new) map.new result }
{
    if map[end] == NO_BOUNDARY {
        return so_far;
    }
    let segment = segment_at(list, so_far.start, end);
    compact(list, so_far.start, segment.left, so_far.output);
    let output = so_far.output + segment.left;
    map[end] = output as u64;
    Progress {
        start: end,
        output,
        fused: so_far.fused + segment.fused,
        cancelled: so_far.cancelled + segment.cancelled,
        swaps: so_far.swaps + segment.swaps,
    }
}

// Marks the ends of the segments of n operations in a map of n + 1 words: the preserved prefixes and the end.
pub(crate) fn mark_ends(map: &mut [u64], prefixes: &[u64])
    requires some { 0 < length map.old }
    requires inside { list_any (nat_lt (length map.old - 1)) prefixes.now ≡ false }
    ensures length { length map.new ≡ length map.old }
    ensures marks { EndsMarked (length map.old - 1) prefixes.now map.new }
{
    let n = map.len() - 1;
    map.fill(NO_BOUNDARY);
    for i in 0..prefixes.len() {
        map[prefixes[i] as usize] = 0;
    }
    map[n] = 0;
}

// Optimizes all segments of a list of no more than 1,024 operations, none of them marked, whose ends are marked in the map. What is left stands in front, in order,
// and the map has the boundaries.
pub(crate) fn optimize_segments(list: &mut [u64], map: &mut [u64]) -> Progress
    requires short { length list.old ≤ 32768 }
    requires room { length list.old / 32 < length map.old }
    requires unmarked { IsUnmarked (operations_of list.old) }
    ensures list_length { length list.new ≡ length list.old }
    ensures map_length { length map.new ≡ length map.old }
    ensures going { Going (length list.old / 32 + 1) result }
    ensures finished { (prefixes : List ℕ)
        → EndsMarked (length list.old / 32) prefixes map.old
        → Finished (operations_of list.old) prefixes (operations_of list.new) map.new result }
{
    let mut progress = Progress {
        start: 0,
        output: 0,
        fused: 0,
        cancelled: 0,
        swaps: 0,
    };
    for end in 1..list.len() / 32 + 1 {
        progress = segment_turn(list, map, end, progress);
    }
    map[0] = 0;
    progress
}
