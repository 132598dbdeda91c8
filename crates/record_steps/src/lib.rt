//! What a record does besides changing the state: the sources of its join before, its row, its
//! step and its sums after.
#![tactic(auto)]

ghost use Rattle.std.specs.Prelude.{◌≡◌, ◌+◌, ◌*◌, ◌%◌, ◌^◌, ◌<◌, ◌≤◌, length};
ghost use Rattle.words.specs.Lists.{patch};
ghost use Rattle.masks.specs.Positions.{local_of};
ghost use Rattle.refusals.specs.Answer.{answer_of, given};
ghost use Rattle.work_sums.specs.Tally.{joining_of};
ghost use Rattle.record_steps.specs.RecordSteps.{sources_at, GatherFits, WhereJoined, Opened, progress_of, local_action_of, Settled, JoinedFits, pivot_answer, rotation_answer, RotationDone, measurement_answer, MeasurementDone, PromotionFits, PromotionDone};
ghost use Rattle.plan_spec.specs.Rows.{measurement_words, rotation_words};
ghost use Rattle.plan_rows.specs.Steps.{kind_number};

use kernels::active::{
    ActivePauliAction, Angle, PrecomputedActivePauliMeasurementKernel,
    PrecomputedActivePauliRotationKernel,
};
use masks::{below_width, local_mask, reached_positions, write_sources};
use plan_buffers::buffers::raise_size;
use plan_rows::{MeasurementRow, RotationRow, RowHead, Step, StepKind, put};
use records::Instruction;
use refusals::Reason;
use work_sums::{Joining, Tally, join_of};

/// A record's Pauli: its X and Z bits by active position, and its phase exponent.
#[derive(Clone, Copy, Debug, PartialEq, Eq)]
pub struct Pauli {
    pub x: u64,
    pub z: u64,
    pub phase: u64,
}

/// Where a record stands: its index, how many coordinates are active before it, and the size that
/// a component has to be below.
#[derive(Clone, Copy, Debug, PartialEq, Eq)]
pub struct AtRecord {
    pub index: usize,
    pub width: u64,
    pub limit: u64,
}

// The join of the components that the masks reach, whose sources are written into the merge list
// from the offset on.
// Kept: here, below and in `masks`, on which `state` builds, components and sizes are lent one by
// one: they are all that is read of the state's five fields, and a struct of the two would be
// made for the call.
fn gather<'a>(
    component: &'a [u16; 512],
    size: &'a [u8; 512],
    x: u64,
    z: u64,
    width: u64,
    offset: usize,
    merges: &mut [u64],
) -> Joining
    requires { GatherFits component.now size.now width offset (length merges.old) x z }
    ensures join { result ≡ joining_of size.now (sources_at component.now size.now width x z) }
    ensures written { let sources = sources_at component.now size.now width x z in
        merges.new ≡ patch offset sources merges.old }
{
    let mask = reached_positions(below_width(x, width), below_width(z, width));
    let count = write_sources(component, size, mask, &mut merges[offset..]);
    let end = offset + count;
    join_of(size, &merges[offset..end])
}

/// The join that a record makes, or none where it makes none, or refusal 11, 12 or 13.
#[tactic(auto, using(words::proofs::Patches::patch_none), unfolding(crate::specs::RecordSteps::number_before, crate::specs::RecordSteps::sources_before, masks::specs::Positions::sources_in))]
pub fn open<'a>(
    instruction: Instruction,
    width: u64,
    offset: usize,
    component: &'a [u16; 512],
    size: &'a [u8; 512],
    merges: &mut [u64],
) -> Result<Option<Joining>, Reason>
    requires { WhereJoined width
        (λ x z. GatherFits component.now size.now width offset (length merges.old) x z)
        instruction }
    ensures { Opened width offset component.now size.now instruction result merges.old merges.new }
{
    match instruction {
        Instruction::Rotation { width: w, x, z, .. } => {
            if w != width {
                return Err(Reason::RotationWidth);
            }
            if width == 0 {
                return Ok(None);
            }
            let join = gather(component, size, x, z, width, offset, merges);
            Ok(Some(join))
        }
        Instruction::Measurement { width: w, x, z, .. } => {
            if w != width {
                return Err(Reason::MeasurementWidth);
            }
            if width == 0 {
                return Err(Reason::NothingActive);
            }
            let join = gather(component, size, x, z, width, offset, merges);
            Ok(Some(join))
        }
        _ => Ok(None),
    }
}

// The action of a Pauli on a component of a size, by the places of its positions.
fn local_action(place: &[u8; 512], pauli: Pauli, width: u64, size: u64) -> ActivePauliAction
    requires x_fits { local_of (pauli.x % 2 ^ width) place.now < 2 ^ 64 }
    requires z_fits { local_of (pauli.z % 2 ^ width) place.now < 2 ^ 64 }
    ensures { result ≡ local_action_of place.now pauli width size }
{
    let local_x = local_mask(place, below_width(pauli.x, width));
    let local_z = local_mask(place, below_width(pauli.z, width));
    ActivePauliAction::new(size, local_x, local_z, pauli.phase)
}

// What a row says of its join: its target, where its sources stand in the merge list, and how
// many.
fn head_of(join: Joining, tally: Tally) -> RowHead
    ensures { result ≡ record {
      component = join.target;
      merge_offset = tally.merges;
      merge_count = join.count;
    } }
{
    RowHead {
        component: join.target,
        merge_offset: tally.merges as u64,
        merge_count: join.count as u64,
    }
}

// The step of a record whose row has this number.
fn step_of(kind: StepKind, row: usize) -> Step
    ensures { result ≡ record { kind = kind_number kind; payload = row } }
{
    Step {
        kind: u64::from(kind),
        payload: row as u64,
    }
}

/// Writes the row, the step and the longest size of a rotation, or gives refusal 14.
// Kept: of the lent buffers, only the three that it writes, so that its contract need not say
// that the others are as they were. Here, in `measure` and in the walk a record's Pauli, its join
// and where it stands are three structs, which the record, its sources and the walk give; one of
// all three would be made for a call, and could not hold `joined_fits`, which speaks of the
// places, the sums and the buffers too.
pub fn rotate(
    pauli: Pauli,
    angle: Angle,
    join: Joining,
    here: AtRecord,
    tally: Tally,
    place: &[u8; 512],
    steps: &mut [u64],
    sizes: &mut [u64],
    rotations: &mut [u64],
) -> Result<Tally, Reason>
    requires joined_fits { JoinedFits place.now pauli here join tally steps.old sizes.old }
    requires row_room { rotation_words * tally.rotations + rotation_words ≤ length rotations.old }
    ensures { let before = progress_of tally steps.old sizes.old rotations.old in
        Settled (rotation_answer place.now pauli angle here join.size) result (λ next.
        RotationDone here join before (progress_of next steps.new sizes.new rotations.new)) }
{
    let action = local_action(place, pauli, here.width, join.size);
    let kernel = PrecomputedActivePauliRotationKernel::new(action, pauli.phase, angle, here.limit)?;
    let head = head_of(join, tally);
    put(rotations, tally.rotations, RotationRow { head, kernel });
    let step = step_of(StepKind::Rotation, tally.rotations);
    put(steps, here.index, step);
    raise_size(sizes, join.target as usize, join.size);
    Ok(tally.rotated(join, here.width))
}

// Refusal 14, 15 or 16 of a measurement.
fn check_pivot(
    component: &[u16; 512],
    pivot: u64,
    join: Joining,
    here: AtRecord,
) -> Result<(), Reason>
    requires { here.width < 64 }
    ensures { answer_of result ≡ pivot_answer component.now pivot here join (given tt) }
{
    if here.limit <= join.size {
        return Err(Reason::ComponentSize);
    }
    if here.width <= pivot {
        return Err(Reason::Pivot);
    }
    let at = pivot as usize;
    if u64::from(component[at]) == join.target {
        Ok(())
    } else {
        Err(Reason::PivotComponent)
    }
}

/// Writes the row, the step and the longest size of a measurement, or gives refusal 14 to 20.
// Kept: of the lent buffers, only the three that it writes, so that its contract need not say
// that the others are as they were.
pub fn measure<'a>(
    pauli: Pauli,
    pivot: u64,
    join: Joining,
    here: AtRecord,
    tally: Tally,
    component: &'a [u16; 512],
    place: &'a [u8; 512],
    steps: &mut [u64],
    sizes: &mut [u64],
    measurements: &mut [u64],
) -> Result<Tally, Reason>
    requires joined_fits { JoinedFits place.now pauli here join tally steps.old sizes.old }
    requires row_room { measurement_words * tally.measurements + measurement_words
        ≤ length measurements.old }
    ensures { let before = progress_of tally steps.old sizes.old measurements.old in
        let answer = measurement_answer component.now place.now pauli pivot here join in
        Settled answer result (λ next.
        MeasurementDone here join before (progress_of next steps.new sizes.new measurements.new)) }
{
    check_pivot(component, pivot, join, here)?;
    let action = local_action(place, pauli, here.width, join.size);
    let local = u64::from(place[pivot as usize]);
    let kernel = PrecomputedActivePauliMeasurementKernel::with_pivot(
        action,
        pauli.phase,
        local,
        here.limit,
    )?;
    let measured = MeasurementRow {
        head: head_of(join, tally),
        kernel,
        deactivated: join.size == 1,
    };
    put(measurements, tally.measurements, measured);
    let step = step_of(StepKind::Measurement, tally.measurements);
    put(steps, here.index, step);
    raise_size(sizes, join.target as usize, join.size);
    Ok(tally.measured(join, here.width))
}

/// Writes the row, the step and the longest size of a promotion, whose component has the next
/// number.
// Kept: of the lent buffers, only the three that it writes, so that its contract need not say
// that the others are as they were.
pub fn promote(
    next: usize,
    here: AtRecord,
    tally: Tally,
    steps: &mut [u64],
    sizes: &mut [u64],
    promotions: &mut [u64],
) -> Tally
    requires { let before = progress_of tally steps.old sizes.old promotions.old in
        PromotionFits next here before }
    ensures { let before = progress_of tally steps.old sizes.old promotions.old in
        let after = progress_of result steps.new sizes.new promotions.new in
        PromotionDone next here before after }
{
    let row = tally.promotions;
    promotions[row] = next as u64;
    let step = step_of(StepKind::Promotion, row);
    put(steps, here.index, step);
    sizes[next] = 1;
    tally.promoted(here.width)
}
