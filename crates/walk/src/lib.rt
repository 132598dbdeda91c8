//! The walk over the records. The state is a local of the walk's function, and is changed by
//! nothing but its own steps; the active order stands beside it and is changed in place.
#![tactic(auto)]

ghost use Rattle.std.specs.Prelude.{◌≡◌, ◌+◌, ◌*◌, ◌<◌, ◌≤◌, ℕ, List, [], ◌∷◌, length, set};
ghost use Rattle.words.specs.Lists.{patch};
ghost use Rattle.records.specs.Record.{instructions_of};
ghost use Rattle.plan_spec.specs.Rows.{measurement_words, rotation_words};
ghost use Rattle.plan_spec.specs.Walk.{start, walk_from};
ghost use Rattle.plan_buffers.specs.SevenBuffers.{buffers_of};
ghost use Rattle.plan_buffers.specs.SixOutputs.{SameOutputs};
ghost use Rattle.plan_rows.specs.Steps.{kind_number};
ghost use Rattle.record_steps.specs.RecordSteps.{Settled, JoinedFits, rotation_answer, RotationDone, MeasurementDone, PromotionFits, PromotionDone};
ghost use Rattle.state.specs.Steps.{BeforeJoin, Joined, BeforePromotion, promoted, BeforeRemoval, Removed};
ghost use Rattle.walk.specs.Walking.{Walkable, WalkEnds};
ghost use Rattle.walk.specs.Looping.{Looping, Standing, StepEnds, Joins, JoinMade, rotation_progress, promotion_progress, measurement_progress, answer_in, Leaves, Measured};

use kernels::active::Angle;
use plan_buffers::StoredOutputs;
use plan_buffers::buffers::{write_counts, write_members};
use plan_rows::{Step, StepKind, put};
use record_steps::{AtRecord, Pauli, measure, open, promote, rotate};
use records::{Instruction, read};
use refusals::{Reason, Refusal};
use state::{State, append, close_gap, first_order};
use words::filling::fill_ones;
use work_sums::{Joining, Tally};

/// What a finished walk leaves beside the buffers: the sums, how many components were made, and
/// how many words the groups take.
#[derive(Clone, Copy, Debug, PartialEq)]
pub struct Summary {
    pub tally: Tally,
    pub count: usize,
    pub groups: usize,
}

// Joins the sources in place. The state's steps take it and give it back by value; each stands in
// a function of its own, so that the copies of one lie where those of the others do, and the
// stack of the walk has them once.
fn join_state(state: &mut State, sources: &[u64])
    requires { BeforeJoin state.old sources.now }
    ensures { Joined state.old sources.now state.new }
{
    *state = state.join(sources);
}

// Promotes in place.
fn promote_state(state: &mut State)
    requires { BeforePromotion state.old }
    ensures { state.new ≡ promoted state.old }
{
    *state = state.promote();
}

// Removes in place what stands at a position.
fn remove_state(state: &mut State, pivot: usize)
    requires { BeforeRemoval state.old pivot }
    ensures { Removed state.old pivot state.new }
{
    *state = state.remove(pivot);
}

// Makes the join that a record makes, or gives refusal 11, 12 or 13: its sources stand in the
// merge list from the offset on.
fn make_join(
    instruction: Instruction,
    offset: usize,
    state: &mut State,
    merges: &mut [u64],
) -> Result<Option<Joining>, Reason>
    requires { Joins state.old instruction offset (length merges.old) }
    ensures { JoinMade state.old state.new instruction offset result merges.old merges.new }
{
    let width = state.width as u64;
    let made = open(
        instruction,
        width,
        offset,
        &state.component,
        &state.size,
        merges,
    )?;
    if let Some(join) = made {
        let count = join.count;
        if 1 < count {
            let end = offset + count;
            join_state(state, &merges[offset..end]);
        }
    }
    Ok(made)
}

// Writes a record's step that has no row.
fn put_kind(steps: &mut [u64], index: usize, kind: StepKind)
    requires { 2 * index + 2 ≤ length steps.old }
    ensures { steps.new ≡ patch (2 * index) (kind_number kind ∷ 0 ∷ []) steps.old }
{
    let step = Step {
        kind: u64::from(kind),
        payload: 0,
    };
    put(steps, index, step);
}

// Makes a rotation behind its join, or gives refusal 14.
// Kept: a function of its own: in `record_step`, the longest function, the call's nine arguments
// would stand a level deeper, and the sums that `rotate` gives by value would take a place on its
// stack, under all that it calls.
fn rotation(
    pauli: Pauli,
    angle: Angle,
    join: Joining,
    here: AtRecord,
    place: &[u8; 512],
    tally: &mut Tally,
    out: &mut StoredOutputs,
) -> Result<(), Reason>
    requires joined_fits { JoinedFits place.now pauli here join
        tally.old out.old.steps.now out.old.sizes.now }
    requires row_room { rotation_words * tally.old.rotations + rotation_words
        ≤ length out.old.rotations.now }
    ensures same { SameOutputs out.old out.new }
    ensures merges { out.new.merges.now ≡ out.old.merges.now }
    ensures promotions { out.new.promotions.now ≡ out.old.promotions.now }
    ensures measurements { out.new.measurements.now ≡ out.old.measurements.now }
    ensures settled { let before = rotation_progress tally.old out.old in
        let after = rotation_progress tally.new out.new in
        Settled (rotation_answer place.now pauli angle here join.size) result
        (λ done. RotationDone here join before after) }
{
    *tally = rotate(
        pauli,
        angle,
        join,
        here,
        *tally,
        place,
        out.steps,
        out.sizes,
        out.rotations,
    )?;
    Ok(())
}

// Makes a promotion.
fn promotion(
    here: AtRecord,
    order: &mut [u16; 512],
    state: &mut State,
    tally: &mut Tally,
    out: &mut StoredOutputs,
)
    requires fits { PromotionFits state.old.count here (promotion_progress tally.old out.old) }
    requires room { BeforePromotion state.old }
    ensures same { SameOutputs out.old out.new }
    ensures merges { out.new.merges.now ≡ out.old.merges.now }
    ensures rotations { out.new.rotations.now ≡ out.old.rotations.now }
    ensures measurements { out.new.measurements.now ≡ out.old.measurements.now }
    ensures done { let before = promotion_progress tally.old out.old in
        let after = promotion_progress tally.new out.new in
        PromotionDone state.old.count here before after }
    ensures grown { state.new ≡ promoted state.old }
    ensures appended { order.new ≡ set order.old state.old.width state.old.count }
{
    let next = state.count;
    *tally = promote(next, here, *tally, out.steps, out.sizes, out.promotions);
    let end = state.width;
    append(order, end, next);
    promote_state(state);
}

// Makes a measurement behind its join, or gives refusal 14 to 20.
fn measurement(
    pauli: Pauli,
    pivot: u64,
    join: Joining,
    here: AtRecord,
    order: &mut [u16; 512],
    state: &mut State,
    tally: &mut Tally,
    out: &mut StoredOutputs,
) -> Result<(), Reason>
    requires joined_fits { JoinedFits state.old.place pauli here join
        tally.old out.old.steps.now out.old.sizes.now }
    requires row_room { measurement_words * tally.old.measurements + measurement_words
        ≤ length out.old.measurements.now }
    requires leaves { Leaves (answer_in state.old pauli pivot here join) state.old pivot }
    ensures same { SameOutputs out.old out.new }
    ensures merges { out.new.merges.now ≡ out.old.merges.now }
    ensures rotations { out.new.rotations.now ≡ out.old.rotations.now }
    ensures promotions { out.new.promotions.now ≡ out.old.promotions.now }
    ensures settled { let before = measurement_progress tally.old out.old in
        let after = measurement_progress tally.new out.new in
        let written = MeasurementDone here join before after in
        Settled (answer_in state.old pauli pivot here join) result
        (λ done. Measured written pivot order.old order.new state.old state.new) }
{
    *tally = measure(
        pauli,
        pivot,
        join,
        here,
        *tally,
        &state.component,
        &state.place,
        out.steps,
        out.sizes,
        out.measurements,
    )?;
    let at = pivot as usize;
    remove_state(state, at);
    let last = state.width;
    close_gap(order, at, last);
    Ok(())
}

// One record: its join, and its rotation, promotion or measurement; or the reason why it is
// refused.
// Kept: here and above order, state and sums are three parameters: a join changes the state alone
// and a rotation the sums alone, and with a struct their contracts would have to say that the
// rest is as it was.
fn record_step(
    limit: u64,
    records: &[u64],
    index: usize,
    order: &mut [u16; 512],
    state: &mut State,
    tally: &mut Tally,
    out: &mut StoredOutputs,
) -> Result<(), Reason>
    requires { Standing limit records.now index
        order.old state.old tally.old (buffers_of out.old) }
    ensures same { SameOutputs out.old out.new }
    ensures step { (k : ℕ) (groups : List ℕ)
        → Looping limit k records.now index
        order.old state.old tally.old (buffers_of out.old groups)
        → StepEnds limit k records.now index result
        order.new state.new tally.new (buffers_of out.new groups) }
{
    let instruction = read(records, index);
    let here = AtRecord {
        index,
        width: state.width as u64,
        limit,
    };
    let made = make_join(instruction, tally.merges, state, out.merges)?;
    match instruction {
        Instruction::Rotation {
            width: _,
            x,
            z,
            phase,
            angle: value,
            sine,
            cosine,
        } => {
            if let Some(join) = made {
                let pauli = Pauli { x, z, phase };
                let angle = Angle {
                    value,
                    sine,
                    cosine,
                };
                rotation(pauli, angle, join, here, &state.place, tally, out)?;
            } else {
                *tally = tally.ignored();
                put_kind(out.steps, index, StepKind::IgnoredGlobalPhase);
            }
        }
        Instruction::Promotion => promotion(here, order, state, tally, out),
        Instruction::Measurement {
            width: _,
            x,
            z,
            phase,
            pivot,
        } => {
            let pauli = Pauli { x, z, phase };
            let join = made.unwrap();
            measurement(pauli, pivot, join, here, order, state, tally, out)?;
        }
        _ => put_kind(out.steps, index, StepKind::None),
    }
    Ok(())
}

/// Walks over the records, and writes every output but the zeros behind the used words.
pub fn walk(
    limit: u64,
    initial_k: usize,
    records: &[u64],
    out: &mut StoredOutputs,
    groups: &mut [u64],
) -> Result<Summary, Refusal>
    requires { Walkable initial_k records.now (buffers_of out.old groups.old) }
    ensures same { SameOutputs out.old out.new }
    ensures walked { let instructions = instructions_of records.now in
        let walked = walk_from limit 0 (start initial_k) instructions in
        WalkEnds walked result (buffers_of out.new groups.new) }
{
    let mut order = first_order(initial_k);
    let mut state = State::start(initial_k);
    let mut tally = Tally::start(initial_k as u64);
    fill_ones(out.sizes, initial_k);
    for index in 0..records.len() / 8 {
        if let Err(reason) = record_step(
            limit, records, index, &mut order, &mut state, &mut tally, out,
        ) {
            return Err(reason.at(index));
        }
    }
    let count = state.count;
    let starts = write_counts(&state.size, count, groups);
    write_members(
        starts.start,
        &order,
        &state.component,
        &state.place,
        state.width,
        groups,
    );
    Ok(Summary {
        tally,
        count,
        groups: starts.used,
    })
}
