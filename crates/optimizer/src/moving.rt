//! Moving measurements earlier within a segment, in place: each in front of the rotations that it passes.
ghost use Rattle.std.specs.Prelude.{◌≡◌, ◌+◌, ◌*◌, ◌<◌, ◌≤◌, ◌/◌, ◌&&◌, not, if◌then◌else◌, length};
ghost use Rattle.pending.specs.Operation.{operations_of, operation_at, is_rotation, strings_commute, same_string};
ghost use Rattle.optimizer_spec.specs.Passes.{reach};
ghost use Rattle.optimizer.specs.Working.{turns, before, passed_in, moved_to, moving, move_turn};

use pending::operation::{commute, is_measurement, is_rotation, operation_at, pauli_of};

// Whether a measurement passes an operation: a rotation that commutes with it.
fn can_pass(measurement: &[u64], other: &[u64]) -> bool
    ensures { result ≡ (is_rotation other.now && strings_commute measurement.now other.now) }
{
    is_rotation(other) && commute(pauli_of(measurement), pauli_of(other))
}

// Whether a measurement without slack moves in front of an operation because both are about one string.
fn is_goal(slack: bool, measurement: &[u64], other: &[u64]) -> bool
    ensures { result ≡ (not slack && same_string measurement.now other.now) }
{
    !slack && pauli_of(measurement) == pauli_of(other)
}

// What is passed where no operation about the measurement's own string is found.
fn with_slack(slack: bool, n: usize) -> usize
    ensures { result ≡ (if slack then n else 0) }
{
    if slack { n } else { 0 }
}

// How many rotations measurement i passes: all that commute with it if there is slack, else those up to the first about its own string.
fn reach(segment: &[u64], i: usize, slack: bool) -> usize
    requires { i < length segment.now / 32 }
    ensures reached { let measurement = operation_at segment.now i in
        result ≡ reach slack measurement (before i (operations_of segment.now)) }
    ensures inside { result ≤ i }
{
    let measurement = operation_at(segment, i);
    for n in 0..i {
        let other = operation_at(segment, i - 1 - n);
        if !can_pass(measurement, other) {
            return with_slack(slack, n);
        }
        if is_goal(slack, measurement, other) {
            return n + 1;
        }
    }
    with_slack(slack, i)
}

// How many operations operation i passes; only a measurement passes any.
#[tactic(auto, unfolding(optimizer_spec::specs::Passes::passed))]
fn passed_in(segment: &[u64], i: usize, slack: bool) -> usize
    requires { i < length segment.now / 32 }
    ensures passed { result ≡ passed_in slack (operations_of segment.now) i }
    ensures inside { result ≤ i }
{
    if is_measurement(operation_at(segment, i)) {
        reach(segment, i, slack)
    } else {
        0
    }
}

// Moves operation i to an earlier place, and those from there on one place further.
fn move_to(segment: &mut [u64], i: usize, to: usize)
    requires inside { i < length segment.old / 32 }
    requires earlier { to ≤ i }
    ensures length { length segment.new ≡ length segment.old }
    ensures moved { operations_of segment.new ≡ moved_to to i (operations_of segment.old) }
{
    segment[32 * to..32 * i + 32].rotate_right(32);
}

// Moves each measurement of a segment of no more than 1,024 operations in front of what it passes, and says how many places that is in all.
pub(crate) fn move_measurements_earlier(segment: &mut [u64], slack: bool) -> usize
    requires { length segment.old ≤ 32768 }
    ensures length { length segment.new ≡ length segment.old }
    ensures few { result ≤ 1024 * (length segment.old / 32) }
    ensures moved { let count = length segment.old / 32 in
        let before = moving (operations_of segment.old) 0 in
        moving (operations_of segment.new) result ≡ turns (move_turn slack) count 0 before }
{
    let mut swaps = 0usize;
    for i in 0..segment.len() / 32 {
        let n = passed_in(segment, i, slack);
        move_to(segment, i, i - n);
        swaps += n;
    }
    swaps
}
