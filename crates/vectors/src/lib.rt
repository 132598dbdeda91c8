//! Fixed vectors, read from words of eight bytes, and how many of them agree: what the programs
//! that replay them share. Words are read from an input as they come, and in `in_memory` from
//! memory.
#![tactic(auto)]

ghost use Rattle.std.specs.Prelude.{◌≡◌, ◌<◌, ◌≤◌, ◌+◌, ◌^◌, ℕ, Bool, List, length, take, IfOk, IsSome, IfSome, if◌then◌else◌};
ghost use Rattle.std.specs.Io.KnownBytes.{Consumes, IsAtEnd};
ghost use Rattle.vectors.specs.declared.ReplayError.TheVariants.{Flawed, Memory, Io};
ghost use Rattle.vectors.specs.Reading.{Read, ReadsNext, words_of, left_of, word_in, words_in, holds, buffer_within};
ghost use Rattle.vectors.specs.Replaying.{agreements, agreements_in, counts_of};

use std::alloc::{AllocError, Global};
use std::io::{ErrorKind, Read};
use std::{fmt, io};
use words::file::word_at;

mod in_memory;
#[cfg(test)]
mod tests;

pub use in_memory::{Vector, buffer_agrees, read_word, read_words, replay_vectors};

/// What is wrong with a vector.
#[derive(Clone, Copy, Debug, PartialEq, Eq)]
pub enum Flaw {
    TooLong,
    CutShort,
}

impl fmt::Display for Flaw {
    fn fmt<W: fmt::Write>(&self, f: &mut fmt::Formatter<W>) -> fmt::Result {
        match self {
            Flaw::TooLong => write!(f, "too long"),
            Flaw::CutShort => write!(f, "the list ends"),
        }
    }
}

/// Why a vector is not replayed.
#[derive(Debug, Drop)]
pub enum ReplayError {
    Flawed(Flaw),
    Memory(AllocError),
    Io(io::Error),
}

impl From<Flaw> for ReplayError {
    ghost from_gives = { λ flaw error. error ≡ Flawed flaw };

    fn from(flaw: Flaw) -> ReplayError {
        ReplayError::Flawed(flaw)
    }
}

impl From<AllocError> for ReplayError {
    ghost from_gives = { λ none error. error ≡ Memory none };

    fn from(error: AllocError) -> ReplayError {
        ReplayError::Memory(error)
    }
}

impl From<io::Error> for ReplayError {
    ghost from_gives = { λ failed error. error ≡ Io failed };

    fn from(error: io::Error) -> ReplayError {
        ReplayError::Io(error)
    }
}

impl ReplayError {
    // The flaw, or what kept a vector from being read or replayed.
    fn flaw(self) -> io::Result<Flaw>
        ensures { IfOk result (λ flaw. self ≡ Flawed flaw) }
    {
        match self {
            ReplayError::Flawed(flaw) => Ok(flaw),
            ReplayError::Memory(error) => Err(io::Error::from(error)),
            ReplayError::Io(error) => Err(error),
        }
    }
}

/// How many vectors agree, and how many differ.
#[derive(Clone, Copy, Debug, PartialEq, Eq)]
pub struct Counts {
    pub agree: u64,
    pub differ: u64,
}

impl Counts {
    // One vector more.
    fn with(self, agrees: bool) -> Counts
        requires room { (self.agree + 1 < 2 ^ 64) × (self.differ + 1 < 2 ^ 64) }
        ensures agree { result.agree ≡ self.agree + (if agrees then 1 else 0) }
        ensures differ { result.differ ≡ self.differ + (if agrees then 0 else 1) }
    {
        let Counts { agree, differ } = self;
        if agrees {
            Counts {
                agree: agree + 1,
                differ,
            }
        } else {
            Counts {
                agree,
                differ: differ + 1,
            }
        }
    }
}

// Reads bytes until they are full or the input ends; how many were read.
fn fill<R: Read>(input: &mut R, bytes: &mut [u8]) -> io::Result<usize>
    ensures within { IfOk result (λ n. n ≤ length bytes.new) }
    ensures bytes { IfOk result (λ n.
        Consumes (R.remaining input.old) (R.remaining input.new) (take n bytes.new)) }
    ensures end { IfOk result (λ n. n < length bytes.new → IsAtEnd (R.remaining input.new)) }
    ensures room { length bytes.new ≡ length bytes.old }
{
    let mut at = 0;
    for _ in 0..u64::MAX {
        if at >= bytes.len() {
            return Ok(at);
        }
        match input.read(&mut bytes[at..]) {
            Ok(0) => return Ok(at),
            Ok(n) => at += n,
            Err(error) if error.kind() == ErrorKind::Interrupted => {}
            Err(error) => return Err(error),
        }
    }
    Err(io::Error::from(ErrorKind::TimedOut))
}

/// Reads the next word.
pub fn next_word<R: Read>(input: &mut R) -> Result<u64, ReplayError>
    ensures { ReadsNext (λ word. word) result
        (R.remaining input.old) (R.remaining input.new) word_in }
{
    let mut bytes = [0u8; 8];
    let read = fill(input, &mut bytes)?;
    if read < 8 {
        return Err(ReplayError::Flawed(Flaw::CutShort));
    }
    Ok(word_at(&bytes, 0))
}

/// Reads so many words.
pub fn next_words<R: Read>(
    alloc: Global,
    input: &mut R,
    count: u64,
) -> Result<Vec<u64>, ReplayError>
    ensures words { ReadsNext (λ words. words.items) result
        (R.remaining input.old) (R.remaining input.new) (words_in count) }
    ensures many { IfOk result (λ words. length words.items ≡ count) }
{
    let mut words = Vec::new(alloc);
    for _ in 0..count {
        let word = next_word(input)?;
        if let Err(error) = words.push(word) {
            return Err(ReplayError::Memory(AllocError::from(error)));
        }
    }
    Ok(words)
}

/// Whether a buffer holds the used words and zeros behind them, and nothing else.
pub fn holds(buffer: &[u64], used: &[u64]) -> bool
    ensures { result ≡ holds buffer.now used.now }
{
    if buffer.len() < used.len() {
        return false;
    }
    for (at, word) in buffer.iter().enumerate() {
        if *word != used.get(at).copied().unwrap_or(0) {
            return false;
        }
    }
    true
}

#[tactic(auto, unfolding(crate::specs::Reading::buffer_within, crate::specs::Reading::counted_within))]
/// Reads a count up to a limit and so many words, and compares a buffer with them.
pub fn next_buffer_agrees<R: Read>(
    alloc: Global,
    input: &mut R,
    limit: u64,
    buffer: &[u64],
) -> Result<bool, ReplayError>
    ensures { ReadsNext (λ agrees. agrees) result
        (R.remaining input.old) (R.remaining input.new) (buffer_within limit buffer.now) }
{
    let count = next_word(input)?;
    if limit < count {
        return Err(ReplayError::Flawed(Flaw::TooLong));
    }
    let used = next_words(alloc, input, count)?;
    Ok(holds(buffer, &used))
}

/// A kind of vectors that are read from an input as they come.
pub trait StreamedVector {
    // Whether the vector at the front agrees, and the words behind it.
    ghost agreement: { List ℕ → Read Bool };

    /// Reads the next vector and replays it; whether it agrees.
    fn replay<R: Read>(alloc: Global, input: &mut R) -> Result<bool, ReplayError>
        ensures { ReadsNext (λ agrees. agrees) result
            (R.remaining input.old) (R.remaining input.new) agreement };
}

// Prints that vector i differs, and nothing of one that agrees.
fn tell(rt: &impl Print, i: u64, agrees: bool) -> io::Result<()> {
    if agrees {
        Ok(())
    } else {
        println!(rt; "vector {i}: differs")
    }
}

// Prints what is wrong with vector i.
fn tell_flaw(rt: &impl Print, i: u64, flaw: Flaw) -> io::Result<()> {
    match flaw {
        Flaw::TooLong => println!(rt; "vector {i}: {flaw}"),
        Flaw::CutShort => println!(rt; "{flaw} in vector {i}"),
    }
}

// Replays that many vectors, up to the first that cannot be read, and prints which differ.
fn replay_all<V: StreamedVector, R: Read>(
    rt: &impl Print,
    alloc: Global,
    input: &mut R,
    count: u64,
) -> io::Result<Counts>
    ensures { IfOk result (λ counts. IsSome (R.remaining input.old)
        → counts ≡ counts_of (agreements V.agreement count (left_of (R.remaining input.old)))) }
{
    let mut counts = Counts {
        agree: 0,
        differ: 0,
    };
    for i in 0..count {
        match V::replay(alloc, input) {
            Ok(agrees) => {
                counts = counts.with(agrees);
                tell(rt, i, agrees)?;
            }
            Err(error) => {
                tell_flaw(rt, i, error.flaw()?)?;
                return Ok(counts);
            }
        }
    }
    Ok(counts)
}

/// Replays a list of vectors that begins with their number, each as it comes, prints how many agree
/// and how many differ, and gives both.
pub fn replay_streamed_vectors<V: StreamedVector, R: Read>(
    rt: &impl Print,
    alloc: Global,
    input: &mut R,
) -> io::Result<Counts>
    ensures { IfOk result (λ counts. IfSome (R.remaining input.old)
        (λ bytes. counts ≡ counts_of (agreements_in V.agreement (words_of bytes)))) }
{
    match next_word(input) {
        Ok(count) => {
            let counts = replay_all::<V, R>(rt, alloc, input, count)?;
            println!(rt;
                "{count} vectors: {} agree, {} differ",
                counts.agree, counts.differ
            )?;
            Ok(counts)
        }
        Err(error) => {
            let flaw = error.flaw()?;
            println!(rt; "{flaw} before its first vector")?;
            Ok(Counts {
                agree: 0,
                differ: 0,
            })
        }
    }
}
