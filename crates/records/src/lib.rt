//! Instruction records: the head, the decoded instruction, reading a record and the record pass (01, section 2 and
//! "Where planning stops", refusals 5 to 10; 02, CR 5, refusal 25).
#![tactic(auto)]

ghost use Rattle.std.specs.Prelude.{◌≡◌, ◌&&◌};
ghost use Rattle.std.specs.Float.{binary64};
ghost use Rattle.std.specs.Float.Ieee.{of_bits};
ghost use Rattle.std.specs.Float.Ieee.Scale.{finite};
ghost use Rattle.refusals.specs.Answer.{number_or_0};
ghost use Rattle.records.specs.Record.{word_of, record_at, instruction_of, measurement_of};
ghost use Rattle.records.specs.Pass.{within, within_one, action_number, floats_number, square_sum, sums_to_one, squares_number, rotation_number, promotion_number, measurement_number, number_of, checked_of, record_pass};

use refusals::{Reason, Refusal};
use words::floats::float_of;

// 1 - 2^-50 by its bits, the eighth float below 1.
const LEAST_SUM: f64 = f64::from_bits(0x3fef_ffff_ffff_fff8);

// 1 + 2^-50 by its bits, the fourth float above 1.
const MOST_SUM: f64 = f64::from_bits(0x3ff0_0000_0000_0004);

/// The head of a program (01, section 2; the ceiling: 02, CR 4).
#[derive(Clone, Copy, Debug, PartialEq, Eq)]
pub struct Head {
    pub initial_k: u64,
    pub max_k: u64,
    pub nexpvals: u64,
    pub ceiling: u64,
}

/// A decoded record (01, section 2). An expectation is a measurement with flag 1.
// Kept: a Pauli's parts and an angle's are fields of their own, as 01 lists them and the definition matches on them.
#[derive(Clone, Copy, Debug, PartialEq)]
pub enum Instruction {
    Rotation {
        width: u64,
        x: u64,
        z: u64,
        phase: u64,
        angle: f64,
        sine: f64,
        cosine: f64,
    },
    Promotion,
    RecordMeasurement,
    RecordDetector,
    Measurement {
        width: u64,
        x: u64,
        z: u64,
        phase: u64,
        pivot: u64,
    },
    Expectation,
    DormantBranch,
}

/// The kinds of records by their numbers, from 0 on (01, section 2).
#[derive(Clone, Copy, Debug, PartialEq, Eq)]
pub enum Kind {
    Rotation,
    Promotion,
    RecordMeasurement,
    RecordDetector,
    ActiveMeasurement,
    DormantBranch,
}

impl TryFrom<u64> for Kind {
    type Error = Reason;

    ghost use Rattle.std.specs.Prelude.{◌≡◌};
    ghost use Rattle.records.specs.Kinds.{kind_in};

    ghost try_from_gives = { λ number r. r ≡ kind_in number };

    fn try_from(number: u64) -> Result<Kind, Reason> {
        match number {
            0 => Ok(Kind::Rotation),
            1 => Ok(Kind::Promotion),
            2 => Ok(Kind::RecordMeasurement),
            3 => Ok(Kind::RecordDetector),
            4 => Ok(Kind::ActiveMeasurement),
            5 => Ok(Kind::DormantBranch),
            _ => Err(Reason::Kind),
        }
    }
}

// The words of record i; those past the end are missing.
fn record_at(words: &[u64], i: usize) -> &[u64]
    ensures { result.now ≡ record_at words.now i }
{
    if words.len() / 8 < i {
        return &words[..0];
    }
    let from = 8 * i;
    let behind = (words.len() - from).min(8);
    &words[from..from + behind]
}

// Word j of a record, and 0 where it is missing.
fn word(fields: &[u64], j: usize) -> u64
    ensures { result ≡ word_of fields.now j }
{
    fields.get(j).copied().unwrap_or(0)
}

// The float of word j of a record.
fn float_word(fields: &[u64], j: usize) -> f64
    ensures { result ≡ of_bits binary64 (word_of fields.now j) }
{
    float_of(word(fields, j))
}

// A record, where its kind is a measurement's.
#[tactic(auto, unfolding(crate::specs::Record::measurement_of))]
fn read_measurement(fields: &[u64]) -> Instruction
    ensures { result ≡ measurement_of fields.now }
{
    if word(fields, 6) != 0 {
        return Instruction::Expectation;
    }
    Instruction::Measurement {
        width: word(fields, 1),
        x: word(fields, 2),
        z: word(fields, 3),
        phase: word(fields, 4),
        pivot: word(fields, 5),
    }
}

// A record, decoded.
#[tactic(auto, unfolding(crate::specs::Record::instruction_of))]
fn read_record(fields: &[u64]) -> Instruction
    ensures { result ≡ instruction_of fields.now }
{
    match Kind::try_from(word(fields, 0)) {
        Ok(Kind::Rotation) => Instruction::Rotation {
            width: word(fields, 1),
            x: word(fields, 2),
            z: word(fields, 3),
            phase: word(fields, 4),
            angle: float_word(fields, 5),
            sine: float_word(fields, 6),
            cosine: float_word(fields, 7),
        },
        Ok(Kind::Promotion) => Instruction::Promotion,
        Ok(Kind::RecordMeasurement) => Instruction::RecordMeasurement,
        Ok(Kind::RecordDetector) => Instruction::RecordDetector,
        Ok(Kind::ActiveMeasurement) => read_measurement(fields),
        Ok(Kind::DormantBranch) | Err(_) => Instruction::DormantBranch,
    }
}

/// Record i, decoded. A word past the end counts as 0.
pub fn read(words: &[u64], i: usize) -> Instruction
    ensures { result ≡ instruction_of (record_at words.now i) }
{
    read_record(record_at(words, i))
}

/// Whether x is from low to high, both included.
pub fn within(low: f64, high: f64, x: f64) -> bool
    ensures { result ≡ within low high x }
{
    low <= x && x <= high
}

// Whether x is in -1 to 1.
fn within_one(x: f64) -> bool
    ensures { result ≡ within_one x }
{
    within(-1.0, 1.0, x)
}

// Refusal 6 or 7 of a record's width and phase.
#[tactic(auto, unfolding(crate::specs::Pass::action_number))]
fn check_action(fields: &[u64]) -> Result<(), Reason>
    ensures { number_or_0 result ≡ action_number fields.now }
{
    if 62 < word(fields, 1) {
        return Err(Reason::Width);
    }
    if 3 < word(fields, 4) {
        return Err(Reason::Phase);
    }
    Ok(())
}

// Whether the angle is finite, and sine and cosine are in -1 to 1.
#[tactic(auto, using(crate::proofs::Floats::finite_is))]
fn floats_sound(angle: f64, sine: f64, cosine: f64) -> bool
    ensures { result ≡ (finite angle && (within_one sine && within_one cosine)) }
{
    angle.is_finite() && within_one(sine) && within_one(cosine)
}

// Refusal 8 of a record's angle, sine and cosine.
#[tactic(auto, unfolding(crate::specs::Pass::floats_number))]
fn check_floats(fields: &[u64]) -> Result<(), Reason>
    ensures { number_or_0 result ≡ floats_number fields.now }
{
    let sound = floats_sound(
        float_word(fields, 5),
        float_word(fields, 6),
        float_word(fields, 7),
    );
    if sound { Ok(()) } else { Err(Reason::Floats) }
}

// The square of the sine and that of the cosine, added.
fn square_sum(sine: f64, cosine: f64) -> f64
    ensures { result ≡ square_sum sine cosine }
{
    sine * sine + cosine * cosine
}

// Whether the squares sum to 1, give or take 2^-50.
fn sums_to_one(sine: f64, cosine: f64) -> bool
    ensures { result ≡ sums_to_one sine cosine }
{
    within(LEAST_SUM, MOST_SUM, square_sum(sine, cosine))
}

// Refusal 25 of a record's sine and cosine.
#[tactic(auto, unfolding(crate::specs::Pass::squares_number))]
fn check_squares(fields: &[u64]) -> Result<(), Reason>
    ensures { number_or_0 result ≡ squares_number fields.now }
{
    if sums_to_one(float_word(fields, 6), float_word(fields, 7)) {
        Ok(())
    } else {
        Err(Reason::Squares)
    }
}

// The refusal of a record whose kind is a rotation's.
#[tactic(auto, unfolding(crate::specs::Pass::rotation_number, crate::specs::Pass::or_else))]
fn check_rotation(fields: &[u64]) -> Result<(), Reason>
    ensures { number_or_0 result ≡ rotation_number fields.now }
{
    check_action(fields)?;
    check_floats(fields)?;
    check_squares(fields)
}

// Refusal 10 of a promotion after so many coordinates.
#[tactic(auto, unfolding(crate::specs::Pass::promotion_number))]
fn check_promotion(coordinates: u64) -> Result<(), Reason>
    ensures { number_or_0 result ≡ promotion_number coordinates }
{
    if coordinates < 512 {
        Ok(())
    } else {
        Err(Reason::Promotion)
    }
}

// The refusal of a record whose kind is a measurement's.
#[tactic(auto, unfolding(crate::specs::Pass::measurement_number))]
fn check_measurement(fields: &[u64]) -> Result<(), Reason>
    ensures { number_or_0 result ≡ measurement_number fields.now }
{
    match word(fields, 6) {
        0 => check_action(fields),
        1 => Ok(()),
        _ => Err(Reason::Flag),
    }
}

// The refusal of a record after so many coordinates.
#[tactic(auto, unfolding(crate::specs::Pass::number_of))]
fn check_record(fields: &[u64], coordinates: u64) -> Result<(), Reason>
    ensures { number_or_0 result ≡ number_of coordinates fields.now }
{
    match Kind::try_from(word(fields, 0))? {
        Kind::Rotation => check_rotation(fields),
        Kind::Promotion => check_promotion(coordinates),
        Kind::ActiveMeasurement => check_measurement(fields),
        Kind::RecordMeasurement | Kind::RecordDetector | Kind::DormantBranch => Ok(()),
    }
}

/// The first refusal 5 to 10 or 25 with its record's index, over the whole records.
pub fn check_records(words: &[u64], initial_k: u64) -> Result<(), Refusal>
    ensures { checked_of result ≡ record_pass initial_k words.now }
{
    let mut coordinates = initial_k;
    for i in 0..words.len() / 8 {
        let fields = record_at(words, i);
        if let Err(reason) = check_record(fields, coordinates) {
            return Err(reason.at(i));
        }
        if Kind::try_from(word(fields, 0)) == Ok(Kind::Promotion) {
            coordinates += 1;
        }
    }
    Ok(())
}
