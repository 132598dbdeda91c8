//! Stored plans: a plan written into a file's bytes, and read back from them.
ghost use Rattle.std.specs.Prelude.{◌≡◌};
ghost use Rattle.stored_plan.specs.Loading as Loading;
ghost use Rattle.store.specs.Storing as Storing;
ghost use Rattle.midvokt.specs.Reply.{head_of, seven_buffers};
ghost use Rattle.midvokt.specs.Stored.{store_words, StoreReplies, six_outputs, load_words, LoadReplies};

use crate::{lay_out, reply_number};
use plan_buffers::StoredOutputs;
use records::Head;
use refusals::{Reason, Refusal};
use store::store;
use stored_plan::{StoredPlan, load};

// The refusal's record index and the file's length in bytes.
fn store_words(stored: Result<usize, Refusal>) -> [u64; 2]
    ensures { result ≡ store_words (Storing.outcome_of stored) }
{
    match stored {
        Ok(length) => [0, length as u64],
        Err(refusal) => [refusal.index, 0],
    }
}

// 0, the eight scalar words and the six counts; all zero after a refusal.
fn load_words(loaded: Result<StoredPlan, Reason>) -> [u64; 15]
    ensures { result ≡ load_words (Loading.outcome_of loaded) }
{
    let Ok(plan) = loaded else {
        return [0; 15];
    };
    let scalars = plan.scalars;
    let counts = plan.counts;
    [
        0,
        scalars.selected,
        scalars.initial_components,
        scalars.component_count,
        scalars.estimated_dense_work,
        scalars.estimated_component_work,
        scalars.dense_peak_dimension,
        scalars.component_peak_live_dimension,
        scalars.component_allocated_dimension,
        counts.steps as u64,
        counts.merges as u64,
        counts.sizes as u64,
        counts.rotations as u64,
        counts.promotions as u64,
        counts.measurements as u64,
    ]
}

/// Plans a program into the seven buffers and stores the plan in the file; 0, or the refusal's number.
// Kept: C's words and slices, one by one, so that `midvokt_c` only hands them on.
#[tactic(auto, using(crate::proofs::Laid::store_told))]
pub fn midvokt_store(
    initial_k: u64,
    max_k: u64,
    nexpvals: u64,
    ceiling: u64,
    records: &[u64],
    steps: &mut [u64],
    merges: &mut [u64],
    sizes: &mut [u64],
    rotations: &mut [u64],
    promotions: &mut [u64],
    measurements: &mut [u64],
    groups: &mut [u64],
    file: &mut [u8],
    res: &mut [u64],
) -> u64
    ensures { let head = head_of initial_k max_k nexpvals ceiling in
        let before = seven_buffers steps.old merges.old sizes.old
        rotations.old promotions.old measurements.old groups.old in
        let after = seven_buffers steps.new merges.new sizes.new
        rotations.new promotions.new measurements.new groups.new in
        StoreReplies head records.now before after file.old file.new res.old res.new result }
{
    let head = Head {
        initial_k,
        max_k,
        nexpvals,
        ceiling,
    };
    let mut out = StoredOutputs {
        steps,
        merges,
        sizes,
        rotations,
        promotions,
        measurements,
    };
    let stored = store(head, records, &mut out, groups, file);
    lay_out(&store_words(stored), res);
    reply_number(stored)
}

/// Reads a stored plan into the six buffers and the result; 0, or the refusal's number.
// Kept: C's words and slices, one by one, so that `midvokt_c` only hands them on.
pub fn midvokt_load(
    file: &[u8],
    steps: &mut [u64],
    merges: &mut [u64],
    sizes: &mut [u64],
    rotations: &mut [u64],
    promotions: &mut [u64],
    measurements: &mut [u64],
    res: &mut [u64],
) -> u64
    ensures { let before = six_outputs steps.old merges.old sizes.old
        rotations.old promotions.old measurements.old in
        let after = six_outputs steps.new merges.new sizes.new
        rotations.new promotions.new measurements.new in
        LoadReplies file.now before after res.old res.new result }
{
    let mut out = StoredOutputs {
        steps,
        merges,
        sizes,
        rotations,
        promotions,
        measurements,
    };
    let loaded = load(file, &mut out);
    lay_out(&load_words(loaded), res);
    reply_number(loaded.map_err(Refusal::from))
}
