//! Replays fixed lists of pending operations against the proved optimizer and prints how many
//! agree. Standard input holds them with the answers of the published Rust, as tests/vectors/make
//! writes and describes them.
#![tactic(auto)]

ghost use Rattle.std.specs.Prelude.{◌≡◌, length, IfOk};
ghost use Rattle.vectors.specs.Reading.{ReadsNext};
ghost use Rattle.replay_lists.specs.Head.{too_long};
ghost use Rattle.replay_lists.specs.Vector.{answer_in, recorded_in, head_in, agreement};

use midvokt::optimizing::midvokt_optimize;
use std::alloc::Global;
use std::io;
use std::io::{BufReader, Read};
use vectors::{
    Flaw, ReplayError, StreamedVector, holds, next_buffer_agrees, next_word, next_words,
    replay_streamed_vectors,
};

// The most words that a list, its prefixes, the lent list or the map may have.
const LONGEST: u64 = 65536;

// Whether a number of words is too large.
fn too_long(lengths: &[u64]) -> bool
    ensures { result ≡ too_long lengths.now }
{
    for length in lengths {
        if LONGEST < *length {
            return true;
        }
    }
    false
}

// Reads the five words of a head.
#[tactic(auto, unfolding(crate::specs::Vector::head_in))]
fn read_head<R: Read>(alloc: Global, input: &mut R) -> Result<Vec<u64>, ReplayError>
    ensures head { ReadsNext (λ head. head.items) result
        (R.remaining input.old) (R.remaining input.new) head_in }
    ensures five { IfOk result (λ head. length head.items ≡ 5) }
{
    let head = next_words(alloc, input, 5)?;
    if too_long(&head[1..]) {
        Err(ReplayError::Flawed(Flaw::TooLong))
    } else {
        Ok(head)
    }
}

// Reads the number and the words that the call should give, and compares.
#[tactic(auto, unfolding(crate::specs::Vector::answer_in))]
fn answer_agrees<R: Read>(
    alloc: Global,
    input: &mut R,
    number: u64,
    reply: &[u64; 6],
) -> Result<bool, ReplayError>
    ensures { ReadsNext (λ agrees. agrees) result
        (R.remaining input.old) (R.remaining input.new) (answer_in number reply.now) }
{
    let recorded = next_word(input)?;
    let expected = next_words(alloc, input, 6)?;
    Ok(number == recorded && holds(reply, &expected))
}

// Reads the answer, the list and the map that the call should give, and compares.
#[tactic(auto, unfolding(crate::specs::Vector::recorded_in))]
fn recorded<R: Read>(
    alloc: Global,
    input: &mut R,
    number: u64,
    reply: &[u64; 6],
    optimized: &[u64],
    map: &[u64],
) -> Result<bool, ReplayError>
    ensures { ReadsNext (λ agrees. agrees) result
        (R.remaining input.old) (R.remaining input.new)
        (recorded_in number reply.now optimized.now map.now) }
{
    let answer = answer_agrees(alloc, input, number, reply)?;
    let list = next_buffer_agrees(alloc, input, LONGEST, optimized)?;
    let marks = next_buffer_agrees(alloc, input, LONGEST, map)?;
    Ok(answer & list & marks)
}

// Reads the next list and replays it, in outputs with no zero in them; whether it agrees.
#[tactic(auto, unfolding(crate::specs::Vector::agreement))]
fn replay_next<R: Read>(alloc: Global, input: &mut R) -> Result<bool, ReplayError>
    ensures { ReadsNext (λ agrees. agrees) result
        (R.remaining input.old) (R.remaining input.new) agreement }
{
    let head = read_head(alloc, input)?;
    let operations = next_words(alloc, input, head[1])?;
    let prefixes = next_words(alloc, input, head[2])?;
    let mut optimized = vec![in alloc; 7u64; head[3] as usize]?;
    let mut map = vec![in alloc; 7u64; head[4] as usize]?;
    let mut reply = [7u64; 6];
    let number = midvokt_optimize(
        head[0],
        &operations,
        &prefixes,
        &mut optimized,
        &mut map,
        &mut reply,
    );
    recorded(alloc, input, number, &reply, &optimized, &map)
}

// Lists of pending operations with the answers of optimizing.
#[derive(Clone, Copy)]
struct ListVector;

impl StreamedVector for ListVector {
    ghost agreement = { agreement };

    fn replay<R: Read>(alloc: Global, input: &mut R) -> Result<bool, ReplayError> {
        replay_next(alloc, input)
    }
}

// Replays the vectors of standard input.
fn main(rt: HostRuntime) -> io::Result<()> {
    let mut input = BufReader::new(rt.alloc(), rt.reader())?;
    replay_streamed_vectors::<ListVector, _>(&rt, rt.alloc(), &mut input)?;
    Ok(())
}
