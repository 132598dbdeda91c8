//! The action of one Pauli on a register, and the two kernels that are made of it: a rotation's, and a measurement's
//! around a pivot.
ghost use Rattle.std.specs.Prelude.{◌≡◌};
ghost use Rattle.refusals.specs.Answer.{given, answer_of};
ghost use Rattle.kernels.specs.Bits.{dimension};
ghost use Rattle.kernels.specs.Active.{phase_factor, odd_phase, action, rotation_coefficient, pair_flip, of_dimension, rotation_kernel, rotation, measurement_coefficient, nondiagonal, diagonal, measurement};

use crate::bits::{active_length, bit_at, highest_set_bit, is_odd_popcount, without_bit};
use refusals::Reason;
use std::ops::Neg;

/// A complex number.
#[derive(Clone, Copy, Debug, PartialEq)]
pub struct Complex64 {
    pub re: f64,
    pub im: f64,
}

/// The angle of a rotation, with its sine and cosine.
#[derive(Clone, Copy, Debug, PartialEq)]
pub struct Angle {
    pub value: f64,
    pub sine: f64,
    pub cosine: f64,
}

/// A Pauli as one word of X bits and one of Z bits. A basis index that overlaps the Z bits in an odd number of places
/// takes the odd phase, and any other the even one.
#[derive(Clone, Copy, Debug, PartialEq)]
pub struct ActivePauliAction {
    pub nqubits: u64,
    pub xmask: u64,
    pub zmask: u64,
    pub even_phase: Complex64,
    pub odd_phase: Complex64,
    pub xz_overlap_odd: bool,
}

/// What applies a rotation to the amplitudes of one component: its action, how it pairs amplitudes,
/// and its coefficients.
#[derive(Clone, Copy, Debug, PartialEq)]
pub struct PrecomputedActivePauliRotationKernel {
    pub action: ActivePauliAction,
    pub is_diagonal: bool,
    pub uniform_imag_pairs: bool,
    pub real_pair_flip: bool,
    pub pair_bit: u64,
    pub pair_count: u64,
    pub kernel_angle: f64,
    pub cos_kernel_angle: f64,
    pub sin_kernel_angle: f64,
    pub minus_even_coefficient: Complex64,
}

/// What applies a measurement to the amplitudes of one component: its action, its pivot, and how
/// many amplitudes it leaves.
#[derive(Clone, Copy, Debug, PartialEq)]
pub struct PrecomputedActivePauliMeasurementKernel {
    pub action: ActivePauliAction,
    pub pivot: u64,
    pub is_diagonal: bool,
    pub diagonal_phase_bit: u64,
    pub z_without_pivot: u64,
    pub out_dim: u64,
    pub nondiagonal_coefficient1_even: Complex64,
}

// 1 over the square root of 2.
const INV_SQRT2: f64 = 0.7071067811865476;

/// The imaginary unit to the power of the phase exponent, which counts modulo 4.
pub fn phase_factor(phase: u64) -> Complex64
    ensures { result ≡ phase_factor phase }
{
    match phase % 4 {
        0 => Complex64 { re: 1.0, im: 0.0 },
        1 => Complex64 { re: 0.0, im: 1.0 },
        2 => Complex64 { re: -1.0, im: 0.0 },
        _ => Complex64 { re: 0.0, im: -1.0 },
    }
}

// Both parts are negated.
impl Neg for Complex64 {
    type Output = Complex64;

    ghost use Rattle.std.specs.Prelude.{◌≡◌};
    ghost use Rattle.kernels.specs.Active.{odd_phase};

    ghost neg_gives = { λ c r. r ≡ odd_phase c };

    fn neg(self) -> Complex64 {
        Complex64 {
            re: -self.re,
            im: -self.im,
        }
    }
}

impl ActivePauliAction {
    /// The action of a Pauli of a width with these masks and this phase exponent.
    pub fn new(nqubits: u64, xmask: u64, zmask: u64, phase: u64) -> Self
        ensures { result ≡ action nqubits xmask zmask phase }
    {
        let even_phase = phase_factor(phase);
        let odd_phase = -even_phase;
        ActivePauliAction {
            nqubits,
            xmask,
            zmask,
            even_phase,
            odd_phase,
            xz_overlap_odd: is_odd_popcount(xmask & zmask),
        }
    }

    // The number of amplitudes of the register, or refusal 14.
    fn dimension(self, limit: u64) -> Result<u64, Reason>
        ensures { answer_of result ≡ of_dimension (dimension limit self.nqubits) given }
    {
        active_length(self.nqubits, limit).ok_or(Reason::ComponentSize)
    }
}

// The coefficient of a rotation: minus the imaginary unit times the sine, times the even phase.
fn rotation_coefficient(even_phase: Complex64, sine: f64) -> Complex64
    ensures { result ≡ rotation_coefficient even_phase sine }
{
    let minus_sine = -sine;
    Complex64 {
        re: 0.0 * even_phase.re - minus_sine * even_phase.im,
        im: 0.0 * even_phase.im + minus_sine * even_phase.re,
    }
}

// Whether every pair rotates by a real coefficient whose sign flips within the pair.
// Kept: here and below the phase exponent goes beside the action, which has the two phases as floats and, as in the Rust, no exponent.
fn can_rotate_real_pair_flip(action: ActivePauliAction, phase: u64) -> bool
    ensures { result ≡ pair_flip action phase }
{
    action.zmask != 0 && action.xz_overlap_odd && phase % 2 == 1
}

// The rotation kernel of an action whose dimension is dim.
fn rotation_kernel(
    action: ActivePauliAction,
    phase: u64,
    angle: Angle,
    dim: u64,
) -> PrecomputedActivePauliRotationKernel
    ensures { result ≡ rotation_kernel dim action phase angle.value angle.sine angle.cosine }
{
    let mut kernel = PrecomputedActivePauliRotationKernel {
        action,
        is_diagonal: true,
        uniform_imag_pairs: false,
        real_pair_flip: false,
        pair_bit: 0,
        pair_count: 0,
        kernel_angle: angle.value,
        cos_kernel_angle: angle.cosine,
        sin_kernel_angle: angle.sine,
        minus_even_coefficient: rotation_coefficient(action.even_phase, angle.sine),
    };
    if action.xmask == 0 {
        return kernel;
    }
    kernel.is_diagonal = false;
    kernel.uniform_imag_pairs = action.zmask == 0;
    kernel.real_pair_flip = can_rotate_real_pair_flip(action, phase);
    kernel.pair_bit = highest_set_bit(action.xmask);
    kernel.pair_count = dim / 2;
    kernel
}

impl PrecomputedActivePauliRotationKernel {
    /// The rotation kernel of an action with this phase exponent and angle.
    pub fn new(
        action: ActivePauliAction,
        phase: u64,
        angle: Angle,
        limit: u64,
    ) -> Result<Self, Reason>
        ensures { answer_of result
            ≡ rotation limit action phase angle.value angle.sine angle.cosine }
    {
        let dim = action.dimension(limit)?;
        Ok(rotation_kernel(action, phase, angle, dim))
    }
}

// The coefficient of a measurement: the conjugate of the even phase over the square root of 2.
fn measurement_coefficient(even_phase: Complex64) -> Complex64
    ensures { result ≡ measurement_coefficient even_phase }
{
    Complex64 {
        re: even_phase.re * INV_SQRT2,
        im: -even_phase.im * INV_SQRT2,
    }
}

// The kernel of a measurement with X bits.
fn nondiagonal_kernel(
    action: ActivePauliAction,
    pivot: u64,
    dim: u64,
) -> Result<PrecomputedActivePauliMeasurementKernel, Reason>
    ensures { answer_of result ≡ nondiagonal dim action pivot }
{
    if bit_at(action.xmask, pivot) == 0 {
        return Err(Reason::PivotX);
    }
    Ok(PrecomputedActivePauliMeasurementKernel {
        action,
        pivot,
        is_diagonal: false,
        diagonal_phase_bit: 0,
        z_without_pivot: 0,
        out_dim: dim / 2,
        nondiagonal_coefficient1_even: measurement_coefficient(action.even_phase),
    })
}

// The kernel of a measurement with Z bits alone.
fn diagonal_kernel(
    action: ActivePauliAction,
    phase: u64,
    pivot: u64,
    dim: u64,
) -> Result<PrecomputedActivePauliMeasurementKernel, Reason>
    ensures { answer_of result ≡ diagonal dim action phase pivot }
{
    if bit_at(action.zmask, pivot) == 0 {
        return Err(Reason::PivotZ);
    }
    if phase % 2 == 1 {
        return Err(Reason::Eigenvalues);
    }
    Ok(PrecomputedActivePauliMeasurementKernel {
        action,
        pivot,
        is_diagonal: true,
        diagonal_phase_bit: phase % 4 / 2,
        z_without_pivot: without_bit(action.zmask, pivot),
        out_dim: dim / 2,
        nondiagonal_coefficient1_even: measurement_coefficient(action.even_phase),
    })
}

impl PrecomputedActivePauliMeasurementKernel {
    /// The measurement kernel of an action with this phase exponent around a pivot.
    pub fn with_pivot(
        action: ActivePauliAction,
        phase: u64,
        pivot: u64,
        limit: u64,
    ) -> Result<Self, Reason>
        ensures { answer_of result ≡ measurement limit action phase pivot }
    {
        let dim = action.dimension(limit)?;
        if action.xmask != 0 {
            nondiagonal_kernel(action, pivot, dim)
        } else if action.zmask != 0 {
            diagonal_kernel(action, phase, pivot, dim)
        } else {
            Err(Reason::Identity)
        }
    }
}
