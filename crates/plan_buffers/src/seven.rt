//! All seven lent buffers at once: whether one of them is too short, and zeros behind the used
//! words or everywhere.
#![tactic(auto)]

ghost use Rattle.std.specs.Prelude.{◌≡◌, ◌^◌, ◌<◌};
ghost use Rattle.plan_spec.specs.Plan.{buffers_refused};
ghost use Rattle.plan_buffers.specs.SixOutputs.{SameOutputs};
ghost use Rattle.plan_buffers.specs.SevenBuffers.{buffers_of, lengths_of, first_words, no_words, padded_buffers};

use crate::{MEASUREMENT_WORDS, ROTATION_WORDS, StoredOutputs, WordCounts};
use words::filling::fill_from;

/// Whether one of the buffers is too short for n records.
pub fn buffers_short(n: usize, out: &StoredOutputs, groups: &[u64]) -> bool
    requires { n < 2 ^ 58 }
    ensures { result ≡ buffers_refused n (lengths_of (buffers_of out.now groups.now)) }
{
    let needed = WordCounts {
        steps: 2 * n,
        merges: n + 512,
        sizes: 512,
        rotations: ROTATION_WORDS * n,
        promotions: n,
        measurements: MEASUREMENT_WORDS * n,
    };
    out.lengths().short_of(needed) || groups.len() < 1024
}

/// Zeroes what the used words leave of each buffer.
#[tactic(auto, using(crate::proofs::Fill::rest_padded))]
pub fn clear_rest(used: WordCounts, used_groups: usize, out: &mut StoredOutputs, groups: &mut [u64])
    ensures same { SameOutputs out.old out.new }
    ensures cleared { let before = buffers_of out.old groups.old in
        let first = first_words used used_groups before in
        buffers_of out.new groups.new ≡ padded_buffers (lengths_of before) first }
{
    fill_from(out.steps, used.steps, 0);
    fill_from(out.merges, used.merges, 0);
    fill_from(out.sizes, used.sizes, 0);
    fill_from(out.rotations, used.rotations, 0);
    fill_from(out.promotions, used.promotions, 0);
    fill_from(out.measurements, used.measurements, 0);
    fill_from(groups, used_groups, 0);
}

/// Zeroes the seven buffers.
pub fn clear_all(out: &mut StoredOutputs, groups: &mut [u64])
    ensures same { SameOutputs out.old out.new }
    ensures cleared { let before = buffers_of out.old groups.old in
        buffers_of out.new groups.new ≡ padded_buffers (lengths_of before) no_words }
{
    out.clear();
    fill_from(groups, 0, 0);
}
