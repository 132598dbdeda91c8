//! Replays fixed vectors against the proved planner and prints how many agree. Standard input holds
//! them: programs with the answers of the published Rust, and under ceilings below 62 with those
//! made of its answers, as tests/vectors/make writes and describes them.
#![tactic(auto)]

ghost use Rattle.std.specs.Prelude.{◌≡◌, length, IfOk};
ghost use Rattle.midvokt.specs.Reply.{Replies};
ghost use Rattle.vectors.specs.Reading.{ReadsNext};
ghost use Rattle.replay.specs.Head.{too_long};
ghost use Rattle.replay.specs.Vector.{head_of, lengths_in, buffers_of, sevens, answer_in, buffers_in, recorded_in, head_in, agreement};

use midvokt::midvokt_plan;
use std::alloc::{AllocError, Global};
use std::io;
use std::io::{BufReader, Read};
use vectors::{
    Flaw, ReplayError, StreamedVector, holds, next_buffer_agrees, next_word, next_words,
    replay_streamed_vectors,
};

// The most words that the records or a buffer may have.
const LONGEST: u64 = 4096;

// Whether a length of the records or a buffer is too long.
fn too_long(lengths: &[u64]) -> bool
    ensures { result ≡ too_long lengths.now }
{
    for length in lengths {
        if LONGEST < *length {
            return true;
        }
    }
    false
}

// Reads the twelve words of a head.
#[tactic(auto, unfolding(crate::specs::Vector::head_in))]
fn read_head<R: Read>(alloc: Global, input: &mut R) -> Result<Vec<u64>, ReplayError>
    ensures head { ReadsNext (λ head. head.items) result
        (R.remaining input.old) (R.remaining input.new) head_in }
    ensures twelve { IfOk result (λ head. length head.items ≡ 12) }
{
    let head = next_words(alloc, input, 12)?;
    if too_long(&head[4..]) {
        Err(ReplayError::Flawed(Flaw::TooLong))
    } else {
        Ok(head)
    }
}

// Reads the number and the words that the call should give, and compares.
#[tactic(auto, unfolding(crate::specs::Vector::answer_in))]
fn answer_agrees<R: Read>(
    alloc: Global,
    input: &mut R,
    number: u64,
    reply: &[u64; 14],
) -> Result<bool, ReplayError>
    ensures { ReadsNext (λ agrees. agrees) result
        (R.remaining input.old) (R.remaining input.new) (answer_in number reply.now) }
{
    let recorded = next_word(input)?;
    let expected = next_words(alloc, input, 14)?;
    Ok(number == recorded && holds(reply, &expected))
}

// The seven buffers of a plan.
#[derive(Drop)]
struct Buffers {
    steps: Vec<u64>,
    merges: Vec<u64>,
    sizes: Vec<u64>,
    rotations: Vec<u64>,
    promotions: Vec<u64>,
    measurements: Vec<u64>,
    groups: Vec<u64>,
}

impl Buffers {
    // Buffers of the lengths that the head gives, with no zero in them.
    fn new(alloc: Global, head: &[u64]) -> Result<Buffers, AllocError>
        requires { length head.now ≡ 12 }
        ensures { IfOk result (λ buffers. buffers_of buffers ≡ sevens (lengths_in head.now)) }
    {
        Ok(Buffers {
            steps: vec![in alloc; 7u64; head[5] as usize]?,
            merges: vec![in alloc; 7u64; head[6] as usize]?,
            sizes: vec![in alloc; 7u64; head[7] as usize]?,
            rotations: vec![in alloc; 7u64; head[8] as usize]?,
            promotions: vec![in alloc; 7u64; head[9] as usize]?,
            measurements: vec![in alloc; 7u64; head[10] as usize]?,
            groups: vec![in alloc; 7u64; head[11] as usize]?,
        })
    }

    // Plans a program into the buffers; the number of the answer.
    fn plan(&mut self, head: &[u64], records: &[u64], reply: &mut [u64; 14]) -> u64
        requires { length head.now ≡ 12 }
        ensures { Replies (head_of head.now) records.now (buffers_of self.old) (buffers_of self.new)
            reply.old reply.new result }
    {
        midvokt_plan(
            head[0],
            head[1],
            head[2],
            head[3],
            records,
            &mut self.steps,
            &mut self.merges,
            &mut self.sizes,
            &mut self.rotations,
            &mut self.promotions,
            &mut self.measurements,
            &mut self.groups,
            reply,
        )
    }

    // Reads what each buffer should hold, and compares every word.
    #[tactic(auto, unfolding(crate::specs::Vector::buffers_in))]
    fn agree<R: Read>(&self, alloc: Global, input: &mut R) -> Result<bool, ReplayError>
        ensures { ReadsNext (λ agrees. agrees) result
            (R.remaining input.old) (R.remaining input.new) (buffers_in (buffers_of self.now)) }
    {
        let steps = next_buffer_agrees(alloc, input, LONGEST, &self.steps)?;
        let merges = next_buffer_agrees(alloc, input, LONGEST, &self.merges)?;
        let sizes = next_buffer_agrees(alloc, input, LONGEST, &self.sizes)?;
        let rotations = next_buffer_agrees(alloc, input, LONGEST, &self.rotations)?;
        let promotions = next_buffer_agrees(alloc, input, LONGEST, &self.promotions)?;
        let measurements = next_buffer_agrees(alloc, input, LONGEST, &self.measurements)?;
        let groups = next_buffer_agrees(alloc, input, LONGEST, &self.groups)?;
        Ok(steps & merges & sizes & rotations & promotions & measurements & groups)
    }

    // Reads the answer and the buffers that the call should give, and compares.
    #[tactic(auto, unfolding(crate::specs::Vector::recorded_in))]
    fn recorded<R: Read>(
        &self,
        alloc: Global,
        input: &mut R,
        number: u64,
        reply: &[u64; 14],
    ) -> Result<bool, ReplayError>
        ensures { ReadsNext (λ agrees. agrees) result
            (R.remaining input.old) (R.remaining input.new)
            (recorded_in number reply.now (buffers_of self.now)) }
    {
        let answer = answer_agrees(alloc, input, number, reply)?;
        let held = self.agree(alloc, input)?;
        Ok(answer & held)
    }
}

// Reads the next vector and replays it; whether it agrees.
#[tactic(auto, unfolding(crate::specs::Vector::agreement))]
fn replay_next<R: Read>(alloc: Global, input: &mut R) -> Result<bool, ReplayError>
    ensures { ReadsNext (λ agrees. agrees) result
        (R.remaining input.old) (R.remaining input.new) agreement }
{
    let twelve = read_head(alloc, input)?;
    let head = twelve.as_slice();
    let records = next_words(alloc, input, head[4])?;
    let mut buffers = Buffers::new(alloc, head)?;
    let mut reply = [7u64; 14];
    let number = buffers.plan(head, &records, &mut reply);
    buffers.recorded(alloc, input, number, &reply)
}

// Programs with the answers of planning.
#[derive(Clone, Copy)]
struct PlanVector;

impl StreamedVector for PlanVector {
    ghost agreement = { agreement };

    fn replay<R: Read>(alloc: Global, input: &mut R) -> Result<bool, ReplayError> {
        replay_next(alloc, input)
    }
}

// Replays the vectors of standard input.
fn main(rt: HostRuntime) -> io::Result<()> {
    let mut input = BufReader::new(rt.alloc(), rt.reader())?;
    replay_streamed_vectors::<PlanVector, _>(&rt, rt.alloc(), &mut input)?;
    Ok(())
}
