//! Rows as words. A row is written into the part of its buffer that begins at its number times its
//! size: `put` lends that part, and each kind of row writes its words into the front of it. In
//! `reading` words are read as rows again.
#![tactic(auto)]

ghost use Rattle.std.specs.Prelude.{◌≡◌, ℕ, List, ◌++◌, ◌+◌, ◌*◌, ◌≤◌, length, get_or, drop};
ghost use Rattle.words.specs.Lists.{patch};
ghost use Rattle.plan_spec.specs.Rows.{action_words, step_words, measurement_words, rotation_words};
ghost use Rattle.plan_rows.specs.Steps.{kind_number};
ghost use Rattle.plan_rows.specs.Writing.{head_written, step_written, rotation_written, measurement_written};
ghost use Rattle.plan_rows.specs.Reading.{complex_in, head_in, action_in, step_in, rotation_in, measurement_in};
ghost use Rattle.plan_rows.specs.Exact.{StepRowIsExact, RotationRowIsExact, MeasurementRowIsExact};
ghost use Rattle.plan_rows.specs.RowLaws.{step_counted, rotation_counted, measurement_counted, step_back, rotation_back, measurement_back};

use kernels::active::{
    ActivePauliAction, Complex64, PrecomputedActivePauliMeasurementKernel,
    PrecomputedActivePauliRotationKernel,
};
use plan_buffers::{MEASUREMENT_WORDS, ROTATION_WORDS};
use words::floats::{float_bits, float_of};

pub mod reading;

/// A row: how many words it has, which words they are, and which row words say.
pub trait Row: Copy {
    /// How many words each row of the type has.
    const WORDS: usize;

    ghost WORDS: { ℕ };

    // The words that a row stands for.
    ghost words: { Self → List ℕ };

    // The row that words say.
    ghost value: { List ℕ → Self };

    // Binary64 holds the row's floats.
    ghost IsExact: { Self → Type 0 };

    /// Writes the row's words into the front of a part.
    fn write(self, part: &mut [u64])
        requires { WORDS ≤ length part.old }
        ensures { part.new ≡ words self ++ drop WORDS part.old };

    /// The row that words say; a word that is missing counts as 0.
    fn from_words(row: &[u64]) -> Self
        ensures { result ≡ value row.now };

    // A row's words are as many as its type says.
    ghost counted: { (row : Self) → length (words row) ≡ WORDS };

    // What is read of a row's words is the row.
    ghost back: { (row : Self) → IsExact row → value (words row) ≡ row };
}

/// What a row says of its join: the component, and which part of the merge list has the sources.
#[derive(Clone, Copy, Debug, PartialEq, Eq)]
pub struct RowHead {
    pub component: u64,
    pub merge_offset: u64,
    pub merge_count: u64,
}

/// A rotation's row.
#[derive(Clone, Copy, Debug, PartialEq)]
pub struct RotationRow {
    pub head: RowHead,
    pub kernel: PrecomputedActivePauliRotationKernel,
}

/// A measurement's row, and whether the component has no coordinate left after it.
#[derive(Clone, Copy, Debug, PartialEq)]
pub struct MeasurementRow {
    pub head: RowHead,
    pub kernel: PrecomputedActivePauliMeasurementKernel,
    pub deactivated: bool,
}

/// What is done for a record.
#[derive(Clone, Copy, Debug, PartialEq, Eq)]
pub enum StepKind {
    None,
    IgnoredGlobalPhase,
    Rotation,
    Promotion,
    Measurement,
}

/// The step of a record: the number of its kind, and the number of its row among the rows of that
/// kind, or 0. Where a step is read, any number can stand for its kind.
#[derive(Clone, Copy, Debug, PartialEq, Eq)]
pub struct Step {
    pub kind: u64,
    pub payload: u64,
}

impl From<StepKind> for u64 {
    ghost from_gives = { λ kind number. number ≡ kind_number kind };

    fn from(kind: StepKind) -> u64 {
        match kind {
            StepKind::None => 0,
            StepKind::IgnoredGlobalPhase => 1,
            StepKind::Rotation => 2,
            StepKind::Promotion => 3,
            StepKind::Measurement => 4,
        }
    }
}

// Writes the eleven words that a rotation's and a measurement's row begin with.
fn write_head(part: &mut [u64], head: RowHead, action: ActivePauliAction)
    requires { action_words ≤ length part.old }
    ensures { part.new ≡ head_written head action ++ drop action_words part.old }
{
    part[..11].copy_from_slice(&[
        head.component,
        head.merge_offset,
        head.merge_count,
        action.nqubits,
        action.xmask,
        action.zmask,
        float_bits(action.even_phase.re),
        float_bits(action.even_phase.im),
        float_bits(action.odd_phase.re),
        float_bits(action.odd_phase.im),
        u64::from(action.xz_overlap_odd),
    ]);
}

// The word at a place, or 0 past the end.
fn word(row: &[u64], place: usize) -> u64
    ensures { result ≡ get_or row.now place 0 }
{
    row.get(place).copied().unwrap_or(0)
}

// The complex number of two words.
fn complex_of(re: u64, im: u64) -> Complex64
    ensures { result ≡ complex_in re im }
{
    Complex64 {
        re: float_of(re),
        im: float_of(im),
    }
}

// What a row's first three words say of its join.
fn head_of(row: &[u64]) -> RowHead
    ensures { result ≡ head_in row.now }
{
    RowHead {
        component: word(row, 0),
        merge_offset: word(row, 1),
        merge_count: word(row, 2),
    }
}

// The action that a row's first eleven words say.
fn action_of(row: &[u64]) -> ActivePauliAction
    ensures { result ≡ action_in row.now }
{
    ActivePauliAction {
        nqubits: word(row, 3),
        xmask: word(row, 4),
        zmask: word(row, 5),
        even_phase: complex_of(word(row, 6), word(row, 7)),
        odd_phase: complex_of(word(row, 8), word(row, 9)),
        xz_overlap_odd: word(row, 10) != 0,
    }
}

impl Row for RotationRow {
    const WORDS: usize = ROTATION_WORDS;

    ghost WORDS = { rotation_words };

    ghost words = { rotation_written };

    ghost value = { rotation_in };

    ghost IsExact = { RotationRowIsExact };

    ghost counted = { rotation_counted };

    ghost back = { rotation_back };

    fn write(self, part: &mut [u64]) {
        let rotation = self.kernel;
        write_head(part, self.head, rotation.action);
        part[11..21].copy_from_slice(&[
            u64::from(rotation.is_diagonal),
            u64::from(rotation.uniform_imag_pairs),
            u64::from(rotation.real_pair_flip),
            rotation.pair_bit,
            rotation.pair_count,
            float_bits(rotation.kernel_angle),
            float_bits(rotation.cos_kernel_angle),
            float_bits(rotation.sin_kernel_angle),
            float_bits(rotation.minus_even_coefficient.re),
            float_bits(rotation.minus_even_coefficient.im),
        ]);
    }

    #[tactic(auto, unfolding(crate::specs::Reading::rotation_in))]
    fn from_words(row: &[u64]) -> RotationRow {
        let kernel = PrecomputedActivePauliRotationKernel {
            action: action_of(row),
            is_diagonal: word(row, 11) != 0,
            uniform_imag_pairs: word(row, 12) != 0,
            real_pair_flip: word(row, 13) != 0,
            pair_bit: word(row, 14),
            pair_count: word(row, 15),
            kernel_angle: float_of(word(row, 16)),
            cos_kernel_angle: float_of(word(row, 17)),
            sin_kernel_angle: float_of(word(row, 18)),
            minus_even_coefficient: complex_of(word(row, 19), word(row, 20)),
        };
        RotationRow {
            head: head_of(row),
            kernel,
        }
    }
}

impl Row for MeasurementRow {
    const WORDS: usize = MEASUREMENT_WORDS;

    ghost WORDS = { measurement_words };

    ghost words = { measurement_written };

    ghost value = { measurement_in };

    ghost IsExact = { MeasurementRowIsExact };

    ghost counted = { measurement_counted };

    ghost back = { measurement_back };

    fn write(self, part: &mut [u64]) {
        let measurement = self.kernel;
        write_head(part, self.head, measurement.action);
        part[11..19].copy_from_slice(&[
            measurement.pivot,
            u64::from(measurement.is_diagonal),
            measurement.diagonal_phase_bit,
            measurement.z_without_pivot,
            measurement.out_dim,
            float_bits(measurement.nondiagonal_coefficient1_even.re),
            float_bits(measurement.nondiagonal_coefficient1_even.im),
            u64::from(self.deactivated),
        ]);
    }

    #[tactic(auto, unfolding(crate::specs::Reading::measurement_in))]
    fn from_words(row: &[u64]) -> MeasurementRow {
        let kernel = PrecomputedActivePauliMeasurementKernel {
            action: action_of(row),
            pivot: word(row, 11),
            is_diagonal: word(row, 12) != 0,
            diagonal_phase_bit: word(row, 13),
            z_without_pivot: word(row, 14),
            out_dim: word(row, 15),
            nondiagonal_coefficient1_even: complex_of(word(row, 16), word(row, 17)),
        };
        MeasurementRow {
            head: head_of(row),
            kernel,
            deactivated: word(row, 18) != 0,
        }
    }
}

impl Row for Step {
    const WORDS: usize = 2;

    ghost WORDS = { step_words };

    ghost words = { step_written };

    ghost value = { step_in };

    ghost IsExact = { StepRowIsExact };

    ghost counted = { step_counted };

    ghost back = { step_back };

    fn write(self, part: &mut [u64]) {
        part[0] = self.kind;
        part[1] = self.payload;
    }

    fn from_words(row: &[u64]) -> Step {
        Step {
            kind: word(row, 0),
            payload: word(row, 1),
        }
    }
}

/// Writes a row into the part of the rows that begins at its number times its size.
pub fn put<R: Row>(rows: &mut [u64], number: usize, row: R)
    requires { R.WORDS * number + R.WORDS ≤ length rows.old }
    ensures { rows.new ≡ patch (R.WORDS * number) (R.words row) rows.old }
{
    let at = R::WORDS * number;
    row.write(&mut rows[at..]);
}
