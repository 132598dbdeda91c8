//! Fixed vectors of words in memory: what is read comes with the words behind it. A list of vectors
//! is brought into memory whole, and then replayed.

ghost use Rattle.std.specs.Prelude.{◌≡◌, Bool, List, ℕ, length, IfOk, IfSome};
ghost use Rattle.vectors.specs.Reading.{Read, Reads, words_of, word_in, words_in, buffer_in};
ghost use Rattle.vectors.specs.Replaying.{Replays, agreements, agreements_in, counts_of};

use crate::{Counts, Flaw, ReplayError, holds, tell, tell_flaw};
use std::alloc::Global;
use std::io;
use std::io::Read;
use words::file::get_words;

// The most words of a list in a vector.
const LONGEST: u64 = 65536;

/// Reads the word at the front; it comes with the words behind it.
pub fn read_word(words: &[u64]) -> Result<(u64, &[u64]), Flaw>
    ensures { Reads (λ x. (x.0, x.1.now)) result (word_in words.now) }
{
    match words.split_first() {
        Some((word, rest)) => Ok((*word, rest)),
        None => Err(Flaw::CutShort),
    }
}

/// Reads so many words from the front; they come with the words behind them.
pub fn read_words(words: &[u64], count: u64) -> Result<(&[u64], &[u64]), Flaw>
    ensures words { Reads (λ x. (x.0.now, x.1.now)) result (words_in count words.now) }
    ensures many { IfOk result (λ x. length x.0.now ≡ count) }
{
    words.split_at_checked(count as usize).ok_or(Flaw::CutShort)
}

#[tactic(auto, unfolding(crate::specs::Reading::buffer_in, crate::specs::Reading::counted_in))]
/// Reads a count of at most 65,536 and so many words, and compares a buffer with them.
pub fn buffer_agrees<'a>(buffer: &[u64], words: &'a [u64]) -> Result<(bool, &'a [u64]), Flaw>
    ensures { Reads (λ x. (x.0, x.1.now)) result (buffer_in buffer.now words.now) }
{
    let (count, rest) = read_word(words)?;
    if LONGEST < count {
        return Err(Flaw::TooLong);
    }
    let (used, rest) = read_words(rest, count)?;
    Ok((holds(buffer, used), rest))
}

/// A kind of vectors that are read of words in memory.
pub trait Vector {
    // Whether the vector at the front agrees, and the words behind it.
    ghost agreement: { List ℕ → Read Bool };

    /// Reads the vector at the front and replays it; whether it agrees comes with the words behind.
    fn replay(alloc: Global, words: &[u64]) -> Result<(bool, &[u64]), ReplayError>
        ensures { Replays result (agreement words.now) };
}

// Replays that many vectors, up to the first that cannot be read, and prints which differ.
fn replay_all<V: Vector>(
    rt: &impl Print,
    alloc: Global,
    words: &[u64],
    count: u64,
) -> io::Result<Counts>
    ensures { IfOk result (λ counts. counts ≡ counts_of (agreements V.agreement count words.now)) }
{
    let mut counts = Counts {
        agree: 0,
        differ: 0,
    };
    let mut rest = words;
    for i in 0..count {
        match V::replay(alloc, rest) {
            Ok((agrees, behind)) => {
                counts = counts.with(agrees);
                rest = behind;
                tell(rt, i, agrees)?;
            }
            Err(ReplayError::Memory(error)) => return Err(io::Error::from(error)),
            Err(ReplayError::Flawed(flaw)) => {
                tell_flaw(rt, i, flaw)?;
                return Ok(counts);
            }
            Err(ReplayError::Io(_)) => unreachable!(),
        }
    }
    Ok(counts)
}

// Reads the words of all bytes that are left.
fn read_all<R: Read>(alloc: Global, input: &mut R) -> io::Result<Vec<u64>>
    ensures { IfOk result (λ words. IfSome (R.remaining input.old)
        (λ bytes. words.items ≡ words_of bytes)) }
{
    let mut bytes = Vec::new(alloc);
    input.read_to_end(&mut bytes)?;
    let mut words = vec![in alloc; 0u64; bytes.len() / 8]?;
    get_words(&bytes, 0, &mut words);
    Ok(words)
}

/// Reads a list of vectors to the input's end, replays them, prints how many agree and how many
/// differ, and gives both. The list begins with the number of its vectors.
pub fn replay_vectors<V: Vector, R: Read>(
    rt: &impl Print,
    alloc: Global,
    input: &mut R,
) -> io::Result<Counts>
    ensures { IfOk result (λ counts. IfSome (R.remaining input.old)
        (λ bytes. counts ≡ counts_of (agreements_in V.agreement (words_of bytes)))) }
{
    let words = read_all(alloc, input)?;
    match read_word(&words) {
        Ok((count, rest)) => {
            let counts = replay_all::<V>(rt, alloc, rest, count)?;
            println!(rt;
                "{count} vectors: {} agree, {} differ",
                counts.agree, counts.differ
            )?;
            Ok(counts)
        }
        Err(flaw) => {
            println!(rt; "{flaw} before its first vector")?;
            Ok(Counts {
                agree: 0,
                differ: 0,
            })
        }
    }
}
