//! Fusing rotations within a segment, in place: a rotation goes into the first one to the right that it can reach and fuse with.
ghost use Rattle.std.specs.Prelude.{◌≡◌, ◌+◌, ◌*◌, ◌<◌, ◌≤◌, ◌/◌, ◌%◌, suc, length, set, drop, IfSome};
ghost use Rattle.std.specs.Float.{binary64};
ghost use Rattle.std.specs.Float.Ieee.{to_bits};
ghost use Rattle.pending.specs.Operation.{operations_of, operation_at, conditions_of};
ghost use Rattle.optimizer_spec.specs.Passes.{can_cross, same_words, can_fuse, direction, fused_angle, cancels, fused};
ghost use Rattle.optimizer.specs.Working.{partner_from, partner_of, is_zero, rewritten, met, fusing_of, fusing_in, fuse_turn, turns, Within};

use pending::operation::{
    angle_of, commute, has_string, is_rotation, operation_at, pauli_of, whole_sign, word, y_count,
};
use words::floats::float_bits;

// The kind of an operation that cancelled, until the segment is compacted.
const MARKED: u64 = 3;

// Whether a rotation may be moved past an operation.
fn can_cross(rotation: &[u64], other: &[u64]) -> bool
    ensures { result ≡ can_cross rotation.now other.now }
{
    !has_string(other) || commute(pauli_of(rotation), pauli_of(other))
}

// Whether two runs of words are equal.
#[tactic(auto, using(crate::proofs::Laws::same_step, crate::proofs::Laws::same_ends))]
fn same_words(a: &[u64], b: &[u64]) -> bool
    requires { length a.now ≡ length b.now }
    ensures { result ≡ same_words a.now b.now }
{
    for i in 0..a.len() {
        if a[i] != b[i] {
            return false;
        }
    }
    true
}

// Whether a rotation fuses with an operation.
#[tactic(auto, unfolding(optimizer_spec::specs::Passes::can_fuse))]
fn can_fuse(rotation: &[u64], other: &[u64]) -> bool
    requires a { length rotation.now ≡ 32 }
    requires b { length other.now ≡ 32 }
    ensures { result ≡ can_fuse rotation.now other.now }
{
    is_rotation(other)
        && pauli_of(rotation) == pauli_of(other)
        && same_words(&rotation[6..15], &other[6..15])
}

// The operation that rotation i fuses with, if it has one.
#[tactic(auto, using(pending::proofs::Chunks::count, crate::proofs::Laws::partner_ends))]
fn partner_of(segment: &[u64], i: usize) -> Option<usize>
    requires { i < length segment.now / 32 }
    ensures partner { result ≡ partner_of (operations_of segment.now) i }
    ensures inside { IfSome result (λ j. j < length segment.now / 32) }
{
    let rotation = operation_at(segment, i);
    if !is_rotation(rotation) {
        return None;
    }
    for j in i + 1..segment.len() / 32 {
        let other = operation_at(segment, j);
        if !can_cross(rotation, other) {
            return None;
        }
        if can_fuse(rotation, other) {
            return Some(j);
        }
    }
    None
}

// The direction in which the earlier of two fused rotations turns the later.
fn direction(earlier: &[u64], later: &[u64]) -> f64
    ensures { result ≡ direction earlier.now later.now }
{
    if whole_sign(earlier) == whole_sign(later) {
        1.0
    } else {
        -1.0
    }
}

// The angle of two fused rotations.
#[tactic(auto, unfolding(optimizer_spec::specs::Passes::fused_angle))]
fn fused_angle(earlier: &[u64], later: &[u64]) -> f64
    ensures { result ≡ fused_angle earlier.now later.now }
{
    angle_of(later) + direction(earlier, later) * angle_of(earlier)
}

// Writes what the later of two fused rotations becomes: their angle, phase and sign, or a mark where they cancel, which it says.
fn write_met(later: &mut [u64], angle: f64, phase: u64, constant: u64) -> bool
    requires { length later.old ≡ 32 }
    ensures cancelled { result ≡ is_zero angle }
    ensures met { later.new ≡ rewritten angle phase constant later.old }
{
    if angle == 0.0 {
        later[0] = MARKED;
        return true;
    }
    later[1] = float_bits(angle);
    later[4] = phase;
    later[5] = constant;
    false
}

// Fuses a rotation into a later one, and says whether they cancel.
fn meet(segment: &mut [u64], i: usize, j: usize) -> bool
    requires i { i < length segment.old / 32 }
    requires j { j < length segment.old / 32 }
    ensures cancelled { result ≡ cancels (operation_at segment.old i) (operation_at segment.old j) }
    ensures length { length segment.new ≡ length segment.old }
    ensures met { let becomes = met (operation_at segment.old i) (operation_at segment.old j) in
        operations_of segment.new ≡ set (operations_of segment.old) j becomes }
{
    let earlier = operation_at(segment, i);
    let later = operation_at(segment, j);
    let angle = fused_angle(earlier, later);
    let phase = y_count(later) % 4;
    let constant = whole_sign(later);
    write_met(&mut segment[32 * j..32 * j + 32], angle, phase, constant)
}

// Copies an operation over another.
fn copy_operation(segment: &mut [u64], from: usize, to: usize)
    requires from { from < length segment.old / 32 }
    requires to { to < length segment.old / 32 }
    ensures length { length segment.new ≡ length segment.old }
    ensures copied { let copy = operation_at segment.old from in
        operations_of segment.new ≡ set (operations_of segment.old) to copy }
{
    if from != to {
        segment.copy_within(32 * from..32 * from + 32, 32 * to);
    }
}

/// What fusing leaves: how many operations stand in front, and how many pairs were fused and cancelled.
#[derive(Clone, Copy, Debug, PartialEq, Eq)]
pub struct Fused {
    pub left: usize,
    pub fused: usize,
    pub cancelled: usize,
}

// Operation i is kept behind those that are left, goes into its partner, or is passed over where it is marked.
fn fuse_turn(segment: &mut [u64], i: usize, so_far: Fused) -> Fused
    requires inside { i < length segment.old / 32 }
    requires counts { Within i so_far }
    ensures length { length segment.new ≡ length segment.old }
    ensures counts { Within (i + 1) result }
    ensures turned { let before = fusing_in (operations_of segment.old) so_far in
        fusing_in (operations_of segment.new) result ≡ fuse_turn i before }
{
    let mut counts = so_far;
    if word(operation_at(segment, i), 0) == MARKED {
        return counts;
    }
    match partner_of(segment, i) {
        None => {
            copy_operation(segment, i, counts.left);
            counts.left += 1;
        }
        Some(j) => {
            counts.fused += 1;
            if meet(segment, i, j) {
                counts.cancelled += 1;
            }
        }
    }
    counts
}

// Fuses the rotations of a segment. What is left stands in front, in order.
pub(crate) fn fuse_commuting_rotations(segment: &mut [u64]) -> Fused
    ensures length { length segment.new ≡ length segment.old }
    ensures counts { Within (length segment.old / 32) result }
    ensures fused { let count = length segment.old / 32 in
        let before = fusing_of (operations_of segment.old) in
        fusing_in (operations_of segment.new) result ≡ turns fuse_turn count 0 before }
{
    let mut counts = Fused {
        left: 0,
        fused: 0,
        cancelled: 0,
    };
    for i in 0..segment.len() / 32 {
        counts = fuse_turn(segment, i, counts);
    }
    counts
}
