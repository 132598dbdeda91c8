//! Writing the file of a plan into lent bytes, from the fields of its answer and the words that
//! its outputs hold: the six sections, the scalar words, the trailer, and zeros behind them.
#![tactic(auto)]

ghost use Rattle.std.specs.Prelude.{◌≡◌, ◌+◌, ◌*◌, ◌≤◌, ◌<◌, ◌^◌, length};
ghost use Rattle.words.specs.Lists.{padded};
ghost use Rattle.stored_plan.specs.Stored.{bytes_of};
ghost use Rattle.plan_buffers.specs.SixOutputs.{word_counts_of};
ghost use Rattle.plan_file.specs.Writing.{words_in, kept_in, scalars_in, words_for, trailer_for};

use answer::ActiveComponentPlan;
use plan_buffers::WordCounts;
use words::file::put_words;
use words::filling::fill_from;
use words::floats::float_bits;

/// The words that a file keeps of each of the first six outputs.
// Kept: no one generic struct with `StoredOutputs` and `WordCounts`, which have the same six
// names: one is written through, one is read and one counts, so that their derives, methods and
// promises differ.
#[derive(Clone, Copy, Debug, PartialEq, Eq)]
pub struct Sections<'a> {
    pub steps: &'a [u64],
    pub merges: &'a [u64],
    pub sizes: &'a [u64],
    pub rotations: &'a [u64],
    pub promotions: &'a [u64],
    pub measurements: &'a [u64],
}

/// The words of the eight scalar fields.
pub fn scalar_words(plan: ActiveComponentPlan) -> [u64; 8]
    ensures { result ≡ scalars_in plan }
{
    [
        u64::from(plan.selected),
        plan.initial_components,
        plan.component_count,
        float_bits(plan.estimated_dense_work),
        float_bits(plan.estimated_component_work),
        plan.dense_peak_dimension,
        plan.component_peak_live_dimension,
        plan.component_allocated_dimension,
    ]
}

/// How many words a file has.
pub fn word_count(used: WordCounts) -> usize
    requires { words_for used < 2 ^ 64 }
    ensures { result ≡ words_for used }
{
    used.steps
        + used.merges
        + used.sizes
        + used.rotations
        + used.promotions
        + used.measurements
        + 24
}

// The sixteen words of the trailer.
fn trailer_words(used: WordCounts) -> [u64; 16]
    requires { 8 * words_for used < 2 ^ 64 }
    ensures { result ≡ trailer_for used }
{
    let merges = used.steps;
    let sizes = merges + used.merges;
    let rotations = sizes + used.sizes;
    let promotions = rotations + used.rotations;
    let measurements = promotions + used.promotions;
    let scalars = measurements + used.measurements;
    [
        0,
        used.steps as u64,
        merges as u64,
        used.merges as u64,
        sizes as u64,
        used.sizes as u64,
        rotations as u64,
        used.rotations as u64,
        promotions as u64,
        used.promotions as u64,
        measurements as u64,
        used.measurements as u64,
        scalars as u64,
        8,
        (8 * (scalars + 24)) as u64,
        1,
    ]
}

/// Writes the file of a plan with these words, and zeros behind it.
pub fn write_file(plan: ActiveComponentPlan, sections: &Sections, file: &mut [u8])
    requires { 8 * words_for (word_counts_of (words_in sections.now)) ≤ length file.old }
    ensures { let kept = kept_in plan (words_in sections.now) in
        file.new ≡ padded (length file.old) (bytes_of kept) }
{
    let used = WordCounts {
        steps: sections.steps.len(),
        merges: sections.merges.len(),
        sizes: sections.sizes.len(),
        rotations: sections.rotations.len(),
        promotions: sections.promotions.len(),
        measurements: sections.measurements.len(),
    };
    let mut at: usize = 0;
    put_words(sections.steps, file, at);
    at += sections.steps.len();
    put_words(sections.merges, file, at);
    at += sections.merges.len();
    put_words(sections.sizes, file, at);
    at += sections.sizes.len();
    put_words(sections.rotations, file, at);
    at += sections.rotations.len();
    put_words(sections.promotions, file, at);
    at += sections.promotions.len();
    put_words(sections.measurements, file, at);
    at += sections.measurements.len();
    let scalars = scalar_words(plan);
    put_words(&scalars[..], file, at);
    let trailer = trailer_words(used);
    put_words(&trailer[..], file, at + 8);
    fill_from(file, 8 * (at + 24), 0);
}
