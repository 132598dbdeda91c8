//! What is judged before a list is optimized: refusal 26, the shortcut for expectation values, refusals 27 and 28.
ghost use Rattle.std.specs.Prelude.{◌≡◌, ◌/◌, false, true, nat_lt, length, Ok, IfOk};
ghost use Rattle.std.specs.List.{list_any, position_from};
ghost use Rattle.pending.specs.Operation.{operations_of, is_expectation, is_hermitian};
ghost use Rattle.pending.specs.Form.{form_fits};
ghost use Rattle.optimizer_spec.specs.Optimizing.{is_odd_rotation, outcome_of};
ghost use Rattle.optimizer.specs.Answer.{Sound, verdict_of};

use pending::form::form_fits;
use pending::operation::{is_expectation, is_hermitian, is_rotation, operation_at};
use refusals::{Reason, Refusal};

/// What is to be done with a list that is not refused.
#[derive(Clone, Copy, Debug, PartialEq, Eq)]
pub enum Verdict {
    // It stays as it is: it has an expectation value.
    AsItIs,
    // It is optimized in segments.
    InSegments,
}

// Whether some measurement writes an expectation value.
fn has_expectation(words: &[u64]) -> bool
    ensures { result ≡ list_any is_expectation (operations_of words.now) }
{
    for i in 0..words.len() / 32 {
        if is_expectation(operation_at(words, i)) {
            return true;
        }
    }
    false
}

// Whether some prefix is beyond n operations.
fn has_prefix_beyond(n: u64, prefixes: &[u64]) -> bool
    ensures { result ≡ list_any (nat_lt n) prefixes.now }
{
    for i in 0..prefixes.len() {
        if n < prefixes[i] {
            return true;
        }
    }
    false
}

// Whether an operation is a rotation about a string that is not Hermitian.
fn is_odd_rotation(operation: &[u64]) -> bool
    ensures { result ≡ is_odd_rotation operation.now }
{
    is_rotation(operation) && !is_hermitian(operation)
}

// The first such operation.
fn odd_rotation(words: &[u64]) -> Option<usize>
    ensures { result ≡ position_from is_odd_rotation 0 (operations_of words.now) }
{
    for i in 0..words.len() / 32 {
        if is_odd_rotation(operation_at(words, i)) {
            return Some(i);
        }
    }
    None
}

// The first refusal of a call, or what is to be done.
pub(crate) fn check_call(
    width: u64,
    operations: &[u64],
    prefixes: &[u64],
    optimized_len: usize,
    map_len: usize,
) -> Result<Verdict, Refusal>
    ensures answer { verdict_of result operations.now prefixes.now
        ≡ outcome_of width operations.now prefixes.now optimized_len map_len }
    ensures sound { IfOk result (Sound width operations.now prefixes.now optimized_len map_len) }
{
    if !form_fits(width, operations, prefixes, optimized_len, map_len) {
        return Err(Reason::Form.at(0));
    }
    if has_expectation(operations) {
        return Ok(Verdict::AsItIs);
    }
    if has_prefix_beyond((operations.len() / 32) as u64, prefixes) {
        return Err(Reason::Prefix.at(0));
    }
    if let Some(i) = odd_rotation(operations) {
        return Err(Reason::Generator.at(i));
    }
    Ok(Verdict::InSegments)
}
