//! The library as C and Rust link it: each export makes the call of its name, in the crate `midvokt`, and states its clause
//! again. include/midvokt.h has the declarations.
#![tactic(auto)]

ghost use Rattle.midvokt.specs.Reply.{head_of, seven_buffers, Replies};
ghost use Rattle.midvokt.specs.Optimized.{OptimizeReplies};
ghost use Rattle.midvokt.specs.Stored.{StoreReplies, six_outputs, LoadReplies};

use midvokt::midvokt_plan as plan_call;
use midvokt::optimizing::midvokt_optimize as optimize_call;
use midvokt::stored::{midvokt_load as load_call, midvokt_store as store_call};

/// Plans a program into the seven buffers and the result; 0, or the refusal's number.
// Kept: C's words and slices, one by one.
#[unsafe(no_mangle)]
pub extern "C" fn midvokt_plan(
    initial_k: u64,
    max_k: u64,
    nexpvals: u64,
    ceiling: u64,
    records: &[u64],
    steps: &mut [u64],
    merges: &mut [u64],
    sizes: &mut [u64],
    rotations: &mut [u64],
    promotions: &mut [u64],
    measurements: &mut [u64],
    groups: &mut [u64],
    res: &mut [u64],
) -> u64
    ensures { let head = head_of initial_k max_k nexpvals ceiling in
        let before = seven_buffers steps.old merges.old sizes.old
        rotations.old promotions.old measurements.old groups.old in
        let after = seven_buffers steps.new merges.new sizes.new
        rotations.new promotions.new measurements.new groups.new in
        Replies head records.now before after res.old res.new result }
{
    plan_call(
        initial_k,
        max_k,
        nexpvals,
        ceiling,
        records,
        steps,
        merges,
        sizes,
        rotations,
        promotions,
        measurements,
        groups,
        res,
    )
}

/// Plans a program into the seven buffers and stores the plan in the file; 0, or the refusal's number.
// Kept: C's words and slices, one by one.
#[unsafe(no_mangle)]
pub extern "C" fn midvokt_store(
    initial_k: u64,
    max_k: u64,
    nexpvals: u64,
    ceiling: u64,
    records: &[u64],
    steps: &mut [u64],
    merges: &mut [u64],
    sizes: &mut [u64],
    rotations: &mut [u64],
    promotions: &mut [u64],
    measurements: &mut [u64],
    groups: &mut [u64],
    file: &mut [u8],
    res: &mut [u64],
) -> u64
    ensures { let head = head_of initial_k max_k nexpvals ceiling in
        let before = seven_buffers steps.old merges.old sizes.old
        rotations.old promotions.old measurements.old groups.old in
        let after = seven_buffers steps.new merges.new sizes.new
        rotations.new promotions.new measurements.new groups.new in
        StoreReplies head records.now before after file.old file.new res.old res.new result }
{
    store_call(
        initial_k,
        max_k,
        nexpvals,
        ceiling,
        records,
        steps,
        merges,
        sizes,
        rotations,
        promotions,
        measurements,
        groups,
        file,
        res,
    )
}

/// Reads a stored plan into the six buffers and the result; 0, or the refusal's number.
// Kept: C's words and slices, one by one.
#[unsafe(no_mangle)]
pub extern "C" fn midvokt_load(
    file: &[u8],
    steps: &mut [u64],
    merges: &mut [u64],
    sizes: &mut [u64],
    rotations: &mut [u64],
    promotions: &mut [u64],
    measurements: &mut [u64],
    res: &mut [u64],
) -> u64
    ensures { let before = six_outputs steps.old merges.old sizes.old
        rotations.old promotions.old measurements.old in
        let after = six_outputs steps.new merges.new sizes.new
        rotations.new promotions.new measurements.new in
        LoadReplies file.now before after res.old res.new result }
{
    load_call(
        file,
        steps,
        merges,
        sizes,
        rotations,
        promotions,
        measurements,
        res,
    )
}

/// Optimizes a list of pending operations into the lent list, map and result; 0, or the refusal's number.
// Kept: C's words and slices, one by one.
#[unsafe(no_mangle)]
pub extern "C" fn midvokt_optimize(
    width: u64,
    operations: &[u64],
    prefixes: &[u64],
    optimized: &mut [u64],
    map: &mut [u64],
    res: &mut [u64],
) -> u64
    ensures { OptimizeReplies width operations.now prefixes.now
        optimized.old optimized.new map.old map.new res.old res.new result }
{
    optimize_call(width, operations, prefixes, optimized, map, res)
}
