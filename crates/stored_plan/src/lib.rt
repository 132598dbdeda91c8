//! Reading a stored plan: refusals 21 to 23, and else its sections into six lent outputs. The words come back as they stand:
//! only the trailer and component_count are looked at.
#![tactic(auto)]

ghost use Rattle.std.specs.Prelude.{◌≡◌, if◌then◌else◌, ◌+◌, ◌*◌, ◌≤◌, length, IfOk};
ghost use Rattle.words.specs.Lists.{padded};
ghost use Rattle.words.specs.File.{words_at};
ghost use Rattle.plan_buffers.specs.SixOutputs.{outputs_of, SameOutputs};
ghost use Rattle.stored_plan.specs.Reading.{file_refused, touch, odd_counts, read_file};
ghost use Rattle.refusals.specs.Answer.{number_or_0};
ghost use Rattle.stored_plan.specs.Loading.{Loads, number_of, scalar_list, trailer_in, pointers_in, counts_in};

use plan_buffers::{MEASUREMENT_WORDS, ROTATION_WORDS, StoredOutputs, WordCounts};
use refusals::Reason;
use words::file::{get_words, word_at};
use words::filling::fill_from;

/// The words of the eight scalar fields, as a file has them.
#[derive(Clone, Copy, Debug, PartialEq, Eq)]
pub struct ScalarWords {
    pub selected: u64,
    pub initial_components: u64,
    pub component_count: u64,
    pub estimated_dense_work: u64,
    pub estimated_component_work: u64,
    pub dense_peak_dimension: u64,
    pub component_peak_live_dimension: u64,
    pub component_allocated_dimension: u64,
}

/// What reading gives beside the outputs: the eight scalar words, and how many words each output has.
#[derive(Clone, Copy, Debug, PartialEq, Eq)]
pub struct StoredPlan {
    pub scalars: ScalarWords,
    pub counts: WordCounts,
}

// The sixteen words of a file's trailer, or refusal 21.
fn trailer_of(file: &[u8]) -> Result<[u64; 16], Reason>
    ensures number { number_or_0 result ≡ (if file_refused file.now then 21 else 0) }
    ensures trailer { IfOk result (λ words. words ≡ trailer_in file.now) }
{
    let n = file.len();
    if n < 128 || n % 8 != 0 {
        return Err(Reason::File);
    }
    let mut trailer = [0u64; 16];
    get_words(file, n / 8 - 16, &mut trailer);
    if trailer[14] != n as u64 || trailer[15] != 1 {
        Err(Reason::File)
    } else {
        Ok(trailer)
    }
}

// Whether the seven sections touch, in order, from word 0 to the trailer. No sum is formed that could wrap.
fn sections_touch(trailer: &[u64; 16], end: usize) -> bool
    ensures { result ≡ touch 0 end (pointers_in trailer.now) }
{
    let mut at = 0usize;
    for s in 0..7usize {
        let start = trailer[2 * s];
        let count = trailer[2 * s + 1];
        if start != at as u64 {
            return false;
        }
        if ((end - at) as u64) < count {
            return false;
        }
        at += count as usize;
    }
    at == end
}

// How many words each of the six sections has, by the trailer.
fn counts_in(trailer: &[u64; 16]) -> WordCounts
    ensures { result ≡ counts_in trailer.now }
{
    WordCounts {
        steps: trailer[1] as usize,
        merges: trailer[3] as usize,
        sizes: trailer[5] as usize,
        rotations: trailer[7] as usize,
        promotions: trailer[9] as usize,
        measurements: trailer[11] as usize,
    }
}

// Whether counts are not those of a plan with so many components.
fn counts_odd(counts: WordCounts, components: u64) -> bool
    ensures { result ≡ odd_counts counts components }
{
    counts.steps % 2 != 0
        || counts.sizes as u64 != components
        || counts.rotations % ROTATION_WORDS != 0
        || counts.measurements % MEASUREMENT_WORDS != 0
}

// Refusals 21 to 23, or else the trailer.
fn check_file(file: &[u8], lent: WordCounts) -> Result<[u64; 16], Reason>
    ensures number { number_or_0 result ≡ number_of (read_file file.now lent) }
    ensures trailer { IfOk result (λ words. words ≡ trailer_in file.now) }
{
    let trailer = trailer_of(file)?;
    let end = file.len() / 8 - 16;
    if !sections_touch(&trailer, end) {
        return Err(Reason::Sections);
    }
    let counts = counts_in(&trailer);
    if trailer[13] != 8 || counts_odd(counts, word_at(file, end - 6)) || lent.short_of(counts) {
        return Err(Reason::Lengths);
    }
    Ok(trailer)
}

// Reads so many words from a place on, with zeros behind them.
fn get_section(file: &[u8], start: u64, count: u64, output: &mut [u64])
    requires inside { 8 * (start + count) ≤ length file.now }
    requires room { count ≤ length output.old }
    ensures { output.new ≡ padded (length output.old) (words_at file.now start count) }
{
    let n = count as usize;
    get_words(file, start as usize, &mut output[..n]);
    fill_from(output, n, 0);
}

// The eight scalar words from a word on.
fn scalars_at(file: &[u8], at: usize) -> ScalarWords
    requires { 8 * (at + 8) ≤ length file.now }
    ensures { scalar_list result ≡ words_at file.now at 8 }
{
    ScalarWords {
        selected: word_at(file, at),
        initial_components: word_at(file, at + 1),
        component_count: word_at(file, at + 2),
        estimated_dense_work: word_at(file, at + 3),
        estimated_component_work: word_at(file, at + 4),
        dense_peak_dimension: word_at(file, at + 5),
        component_peak_live_dimension: word_at(file, at + 6),
        component_allocated_dimension: word_at(file, at + 7),
    }
}

/// Reads a stored plan into the six outputs, or gives its first refusal, after which they are zero.
pub fn load(file: &[u8], out: &mut StoredOutputs) -> Result<StoredPlan, Reason>
    ensures same { SameOutputs out.old out.new }
    ensures loads { Loads file.now (outputs_of out.old) (outputs_of out.new) result }
{
    let lent = out.lengths();
    match check_file(file, lent) {
        Err(reason) => {
            out.clear();
            Err(reason)
        }
        Ok(trailer) => {
            get_section(file, trailer[0], trailer[1], out.steps);
            get_section(file, trailer[2], trailer[3], out.merges);
            get_section(file, trailer[4], trailer[5], out.sizes);
            get_section(file, trailer[6], trailer[7], out.rotations);
            get_section(file, trailer[8], trailer[9], out.promotions);
            get_section(file, trailer[10], trailer[11], out.measurements);
            Ok(StoredPlan {
                scalars: scalars_at(file, trailer[12] as usize),
                counts: counts_in(&trailer),
            })
        }
    }
}
