//! Why a program or a stored plan is refused: the numbers of document 01 and 02 by name, and the record that a refusal is of.
#![tactic(auto)]

ghost use Rattle.std.specs.Prelude.{◌≡◌};
ghost use Rattle.refusals.specs.Numbers.{number_of};

use std::error::Error;
use std::fmt;

/// The reasons for a refusal, by ascending number.
#[derive(Clone, Copy, Debug, PartialEq, Eq)]
pub enum Reason {
    // max_k is the ceiling or more.
    MaxK,
    // The record words are no multiple of 8, or more than 8,192.
    RecordWords,
    // A lent buffer is too short for the records.
    Buffers,
    // initial_k is more than 512.
    InitialK,
    // The kind is none of 0 to 5.
    Kind,
    // The width is more than 62.
    Width,
    // The phase exponent is more than 3.
    Phase,
    // The angle is not finite, or the sine or cosine is not in -1 to 1.
    Floats,
    // The expectation flag is neither 0 nor 1.
    Flag,
    // The promotion would make the 513th coordinate.
    Promotion,
    // A rotation's width is not the number of active coordinates.
    RotationWidth,
    // A measurement's width is not the number of active coordinates.
    MeasurementWidth,
    // A measurement where no coordinate is active.
    NothingActive,
    // A component of as many members as the ceiling, or more.
    ComponentSize,
    // The pivot is not an active position.
    Pivot,
    // The pivot's coordinate is outside the target.
    PivotComponent,
    // There are X bits, and none at the pivot.
    PivotX,
    // There are Z bits alone, and none at the pivot.
    PivotZ,
    // There are Z bits alone, and the phase is imaginary.
    Eigenvalues,
    // There are no bits.
    Identity,
    // The bytes are no file: by their number, or by the length or version in the trailer.
    File,
    // The sections do not touch, in order, from the first word to the trailer.
    Sections,
    // A count that no plan has, an output shorter than its section, or a file buffer shorter than the file.
    Lengths,
    // The ceiling is not 1 to 62.
    Ceiling,
    // The squares of sine and cosine do not sum to 1.
    Squares,
    // A list of pending operations outside its form or its limits, or an output too short for it.
    Form,
    // A preserved prefix beyond the list.
    Prefix,
    // A pending rotation about a string that is not Hermitian.
    Generator,
}

/// A refusal's reason and its record's index, 0 for one of the head, the buffers or a file.
#[derive(Clone, Copy, Debug, PartialEq, Eq)]
pub struct Refusal {
    pub reason: Reason,
    pub index: u64,
}

impl Reason {
    /// The number of the reason.
    pub fn number(self) -> u64
        ensures { result ≡ number_of self }
    {
        match self {
            Reason::MaxK => 1,
            Reason::RecordWords => 2,
            Reason::Buffers => 3,
            Reason::InitialK => 4,
            Reason::Kind => 5,
            Reason::Width => 6,
            Reason::Phase => 7,
            Reason::Floats => 8,
            Reason::Flag => 9,
            Reason::Promotion => 10,
            Reason::RotationWidth => 11,
            Reason::MeasurementWidth => 12,
            Reason::NothingActive => 13,
            Reason::ComponentSize => 14,
            Reason::Pivot => 15,
            Reason::PivotComponent => 16,
            Reason::PivotX => 17,
            Reason::PivotZ => 18,
            Reason::Eigenvalues => 19,
            Reason::Identity => 20,
            Reason::File => 21,
            Reason::Sections => 22,
            Reason::Lengths => 23,
            Reason::Ceiling => 24,
            Reason::Squares => 25,
            Reason::Form => 26,
            Reason::Prefix => 27,
            Reason::Generator => 28,
        }
    }

    /// The refusal of a record for this reason.
    pub fn at(self, index: usize) -> Refusal
        ensures { result ≡ record { reason = self; index = index } }
    {
        Refusal {
            reason: self,
            index: index as u64,
        }
    }
}

// What is refused for a reason alone has the index 0.
impl From<Reason> for Refusal {
    ghost use Rattle.std.specs.Prelude.{◌≡◌};

    ghost from_gives = { λ reason refusal. refusal ≡ record { reason = reason; index = 0 } };

    fn from(reason: Reason) -> Refusal {
        Refusal { reason, index: 0 }
    }
}

impl fmt::Display for Refusal {
    ghost use Rattle.std.specs.Prelude.{Some};
    ghost use Rattle.refusals.specs.Numbers.{told};

    ghost output = { λ refusal. Some (told refusal) };

    fn fmt<W: fmt::Write>(&self, f: &mut fmt::Formatter<W>) -> fmt::Result {
        let number = self.reason.number();
        let index = self.index;
        write!(f, "refused by {number} at record {index}")
    }
}

impl Error for Refusal {}
