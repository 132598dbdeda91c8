//! An operation's kind, string, angle and sign, read from its words.
ghost use Rattle.std.specs.Prelude.{◌≡◌, ◌+◌, ◌<◌, ◌/◌, length};
ghost use Rattle.std.specs.Float.{binary64};
ghost use Rattle.std.specs.Float.Ieee.{of_bits};
ghost use Rattle.pending.specs.Operation.{operation_at, word, is_rotation, is_measurement, has_string, is_expectation, x_of, z_of, commute, same_string, angle_of, y_count, coefficient, is_hermitian, whole_sign};

use words::floats::float_of;

/// The Pauli string of an operation, by its masks.
#[derive(Clone, Copy, Debug, PartialEq, Eq)]
pub struct Pauli {
    pub x: u64,
    pub z: u64,
}

/// Operation i of a list's words.
#[tactic(auto, using(crate::proofs::Chunks::operation_in, crate::proofs::Chunks::operation_length))]
pub fn operation_at(words: &[u64], i: usize) -> &[u64]
    requires { i < length words.now / 32 }
    ensures operation { result.now ≡ operation_at words.now i }
    ensures whole { length result.now ≡ 32 }
{
    &words[32 * i..32 * i + 32]
}

/// Word j of an operation, and 0 where there is none.
pub fn word(operation: &[u64], j: usize) -> u64
    ensures { result ≡ word operation.now j }
{
    operation.get(j).copied().unwrap_or(0)
}

/// Whether it is a rotation.
pub fn is_rotation(operation: &[u64]) -> bool
    ensures { result ≡ is_rotation operation.now }
{
    word(operation, 0) == 0
}

/// Whether it is a measurement.
pub fn is_measurement(operation: &[u64]) -> bool
    ensures { result ≡ is_measurement operation.now }
{
    word(operation, 0) == 1
}

/// Whether it is a measurement that writes an expectation value.
pub fn is_expectation(operation: &[u64]) -> bool
    ensures { result ≡ is_expectation operation.now }
{
    is_measurement(operation) && word(operation, 18) == 1
}

/// Whether it has a string.
pub fn has_string(operation: &[u64]) -> bool
    ensures { result ≡ has_string operation.now }
{
    word(operation, 0) < 2
}

/// The string of a rotation or a measurement.
pub fn pauli_of(operation: &[u64]) -> Pauli
    ensures x { result.x ≡ x_of operation.now }
    ensures z { result.z ≡ z_of operation.now }
{
    let at = if is_rotation(operation) { 2 } else { 1 };
    Pauli {
        x: word(operation, at),
        z: word(operation, at + 1),
    }
}

/// Whether two strings commute.
pub fn commute(a: Pauli, b: Pauli) -> bool
    ensures { result ≡ commute a.x a.z b.x b.z }
{
    ((a.x & b.z).count_ones() + (a.z & b.x).count_ones()) % 2 == 0
}

/// The angle of a rotation.
pub fn angle_of(operation: &[u64]) -> f64
    ensures { result ≡ angle_of operation.now }
{
    float_of(word(operation, 1))
}

/// The number of Y in an operation's string.
pub fn y_count(operation: &[u64]) -> u64
    ensures { result ≡ y_count operation.now }
{
    let pauli = pauli_of(operation);
    u64::from((pauli.x & pauli.z).count_ones())
}

/// A rotation's phase less its number of Y, modulo 4.
pub fn coefficient(operation: &[u64]) -> u64
    ensures { result ≡ coefficient operation.now }
{
    (word(operation, 4) % 4 + 3 * (y_count(operation) % 4)) % 4
}

/// Whether a rotation's string is Hermitian.
pub fn is_hermitian(operation: &[u64]) -> bool
    ensures { result ≡ is_hermitian operation.now }
{
    coefficient(operation) % 2 == 0
}

/// A rotation's sign with the string's own sign in it.
pub fn whole_sign(operation: &[u64]) -> u64
    ensures { result ≡ whole_sign operation.now }
{
    (word(operation, 5) % 2 + coefficient(operation) / 2) % 2
}
