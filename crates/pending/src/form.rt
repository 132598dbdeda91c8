//! The form of a list: refusal 26 asks that the call and each operation have it.
ghost use Rattle.std.specs.Prelude.{◌≡◌, length};
ghost use Rattle.std.specs.List.{list_all};
ghost use Rattle.pending.specs.Operation.{operations_of};
ghost use Rattle.pending.specs.Form.{angle_fits, mask_fits, string_fits, condition_fits, conditions_fit, sign_fits, option_fits, all_zero, rotation_fits, measurement_fits, record_fits, operation_fits, form_fits};

use crate::operation::operation_at;
use records::within;
use words::floats::float_of;

// The largest number that the Rust's fields of 32 bits hold.
const MOST_NUMBER: u64 = 0x7fff_ffff;

// 2^20, and the angle farthest below.
const MOST_ANGLE: f64 = 1048576.0;

const LEAST_ANGLE: f64 = -1048576.0;

// Whether an angle is from -2^20 to 2^20, both included.
fn angle_fits(bits: u64) -> bool
    ensures { result ≡ angle_fits bits }
{
    within(LEAST_ANGLE, MOST_ANGLE, float_of(bits))
}

// Whether a mask has no bit at or above the width.
#[tactic(auto, using(crate::proofs::Laws::word_fits))]
fn mask_fits(width: u64, mask: u64) -> bool
    ensures { result ≡ mask_fits width mask }
{
    64 <= width || mask < 1 << width
}

// Whether a string's masks and phase fit.
#[tactic(auto, unfolding(crate::specs::Form::string_fits))]
fn string_fits(width: u64, x: u64, z: u64, phase: u64) -> bool
    ensures { result ≡ string_fits width x z phase }
{
    mask_fits(width, x) && mask_fits(width, z) && phase <= 3
}

// Whether a condition is above the last one, or 0 where none are left.
fn condition_fits(left: u64, last: u64, condition: u64) -> bool
    ensures { result ≡ condition_fits left last condition }
{
    if left == 0 {
        condition == 0
    } else {
        last < condition && condition <= MOST_NUMBER
    }
}

// Whether so many conditions ascend from above 0, with zeros behind them.
#[tactic(auto, using(crate::proofs::Laws::conditions_step))]
fn conditions_fit(used: u64, conditions: &[u64]) -> bool
    ensures { result ≡ conditions_fit used 0 conditions.now }
{
    let mut left = used;
    let mut last = 0;
    for i in 0..conditions.len() {
        let condition = conditions[i];
        if !condition_fits(left, last, condition) {
            return false;
        }
        left = left.saturating_sub(1);
        last = condition;
    }
    true
}

// Whether ten words are a sign: constant, count and eight conditions.
#[tactic(auto, unfolding(crate::specs::Form::sign_fits))]
fn sign_fits(sign: &[u64]) -> bool
    requires { length sign.now ≡ 10 }
    ensures { result ≡ sign_fits sign.now }
{
    sign[0] <= 1 && sign[1] <= 8 && conditions_fit(sign[1], &sign[2..])
}

// Whether a flag and a value are an Option.
#[tactic(auto, unfolding(crate::specs::Form::option_fits))]
fn option_fits(flag: u64, value: u64) -> bool
    ensures { result ≡ option_fits flag value }
{
    flag <= 1 && value <= MOST_NUMBER && (flag == 1 || value == 0)
}

// Whether all words are 0. Kept: none ends the loop, so that it reads several words at once; most words of a list are these.
#[tactic(auto, using(crate::proofs::Laws::zeros_step))]
fn all_zero(words: &[u64]) -> bool
    ensures { result ≡ all_zero words.now }
{
    let mut seen = 0;
    for i in 0..words.len() {
        seen |= words[i];
    }
    seen == 0
}

// Whether a rotation's words fit.
#[tactic(auto, unfolding(crate::specs::Form::rotation_fits))]
fn rotation_fits(width: u64, operation: &[u64]) -> bool
    requires { length operation.now ≡ 32 }
    ensures { result ≡ rotation_fits width operation.now }
{
    angle_fits(operation[1])
        && string_fits(width, operation[2], operation[3], operation[4])
        && sign_fits(&operation[5..15])
        && all_zero(&operation[15..])
}

// Whether a measurement's words fit.
#[tactic(auto, unfolding(crate::specs::Form::measurement_fits))]
fn measurement_fits(width: u64, operation: &[u64]) -> bool
    requires { length operation.now ≡ 32 }
    ensures { result ≡ measurement_fits width operation.now }
{
    string_fits(width, operation[1], operation[2], operation[3])
        && sign_fits(&operation[4..14])
        && option_fits(operation[14], operation[15])
        && option_fits(operation[16], operation[17])
        && option_fits(operation[18], operation[19])
        && all_zero(&operation[20..])
}

// Whether a classical record's words fit.
#[tactic(auto, unfolding(crate::specs::Form::record_fits))]
fn record_fits(operation: &[u64]) -> bool
    requires { length operation.now ≡ 32 }
    ensures { result ≡ record_fits operation.now }
{
    sign_fits(&operation[1..11])
        && option_fits(operation[11], operation[12])
        && option_fits(operation[13], operation[14])
        && all_zero(&operation[15..])
}

// Whether an operation's words fit its kind.
#[tactic(auto, unfolding(crate::specs::Form::operation_fits))]
fn operation_fits(width: u64, operation: &[u64]) -> bool
    requires { length operation.now ≡ 32 }
    ensures { result ≡ operation_fits width operation.now }
{
    match operation[0] {
        0 => rotation_fits(width, operation),
        1 => measurement_fits(width, operation),
        2 => record_fits(operation),
        _ => false,
    }
}

// Whether all operations of a list fit.
#[tactic(auto, using(crate::proofs::Chunks::count))]
fn list_fits(width: u64, words: &[u64]) -> bool
    ensures { result ≡ list_all (operation_fits width) (operations_of words.now) }
{
    for i in 0..words.len() / 32 {
        if !operation_fits(width, operation_at(words, i)) {
            return false;
        }
    }
    true
}

/// Whether a call has the form: the width, the list, the number of prefixes, and room for list and map.
#[tactic(auto, unfolding(crate::specs::Form::form_fits))]
pub fn form_fits(
    width: u64,
    words: &[u64],
    prefixes: &[u64],
    optimized_len: usize,
    map_len: usize,
) -> bool
    ensures { result ≡ form_fits width words.now prefixes.now optimized_len map_len }
{
    1 <= width
        && width <= 64
        && words.len() % 32 == 0
        && words.len() <= 32768
        && prefixes.len() <= 1024
        && words.len() <= optimized_len
        && words.len() / 32 < map_len
        && list_fits(width, words)
}
