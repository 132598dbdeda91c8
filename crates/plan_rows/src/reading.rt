//! Words read as rows: a row's sources as a part of the merge list, steps and rows by their number,
//! and rotation rows as a slice of structs.

ghost use Rattle.std.specs.Prelude.{◌≡◌, length};
ghost use Rattle.words.specs.Lists.{part_of};
ghost use Rattle.plan_rows.specs.Exact.{StepsComeBack, RotationsComeBack, MeasurementsComeBack};
ghost use Rattle.plan_rows.specs.Reading.{row_read, step_at, rotation_at, measurement_at, rotation_or_zero, filled_rows};

use crate::{MeasurementRow, RotationRow, Row, Step};

/// The part of the merge list from offset on, of count words; where it runs past the end, an empty
/// part.
pub fn merge_sources(merges: &[u64], offset: u64, count: u64) -> &[u64]
    ensures { result.now ≡ part_of merges.now offset count }
{
    match merges.get(offset as usize..) {
        Some(rest) => rest.get(..count as usize).unwrap_or(&[]),
        None => &[],
    }
}

/// The row of a number, or none past the last whole row.
pub fn read<R: Row>(rows: &[u64], number: u64) -> Option<R>
    ensures { result ≡ row_read R.WORDS R.value rows.now number }
{
    let at = R::WORDS.checked_mul(number as usize)?;
    let row = rows.get(at..)?.get(..R::WORDS)?;
    Some(R::from_words(row))
}

/// What `read` gives at the three types: the step, rotation or measurement of the number.
pub fn reads()
    ensures steps { let row = ⟦<Step as Row>⟧ in
        row_read row.WORDS row.value ≡ step_at }
    ensures rotations { let row = ⟦<RotationRow as Row>⟧ in
        row_read row.WORDS row.value ≡ rotation_at }
    ensures measurements { let row = ⟦<MeasurementRow as Row>⟧ in
        row_read row.WORDS row.value ≡ measurement_at }
{}

/// A row that is written is read back as it was, where binary64 holds its floats.
pub fn reads_back()
    ensures steps { StepsComeBack }
    ensures rotations { RotationsComeBack }
    ensures measurements { MeasurementsComeBack }
{}

// Rotation row i, or the row of zeros past the last whole row.
fn rotation_or_zero(rotations: &[u64], i: usize) -> RotationRow
    ensures { result ≡ rotation_or_zero rotations.now i }
{
    read(rotations, i as u64).unwrap_or(RotationRow::from_words(&[]))
}

/// Fills a lent slice of row structs: struct i has the values of row i, and a struct past the last
/// row is all zero.
pub fn fill_rotation_rows(rotations: &[u64], rows: &mut [RotationRow])
    ensures { rows.new ≡ filled_rows (length rows.old) rotations.now }
{
    for i in 0..rows.len() {
        rows[i] = rotation_or_zero(rotations, i);
    }
}
