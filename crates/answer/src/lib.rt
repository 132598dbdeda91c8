//! The planner's answer where it refuses nothing: the scalar fields of a plan with its whole
//! works and the words it uses; the choice; and the two ways a plan comes about, from a finished
//! walk and with no record read.
#![tactic(auto)]

ghost use Rattle.std.specs.Prelude.{◌≡◌, false, pos, Ok};
ghost use Rattle.std.specs.Float.{fin};
ghost use Rattle.plan_spec.specs.Plan.{chosen};
ghost use Rattle.answer.specs.Outcome.{finished_outcome, no_counts, outcome_of, UsedFit};

use plan_buffers::{MEASUREMENT_WORDS, ROTATION_WORDS, WordCounts};
use walk::Summary;
use work_sums::WholeWorks;

/// The scalar fields of a plan, its works as whole numbers, and how many words of the first six
/// outputs it uses.
#[derive(Clone, Copy, Debug, PartialEq)]
pub struct ActiveComponentPlan {
    pub selected: bool,
    pub initial_components: u64,
    pub component_count: u64,
    pub estimated_dense_work: f64,
    pub estimated_component_work: f64,
    pub dense_peak_dimension: u64,
    pub component_peak_live_dimension: u64,
    pub component_allocated_dimension: u64,
    pub whole_works: WholeWorks,
    pub used: WordCounts,
}

/// The scalar fields of a plan that reads no record.
pub fn unread_plan(initial_k: u64, dense_peak: u64) -> ActiveComponentPlan
    ensures { result ≡ record {
      selected = false;
      initial_components = initial_k;
      component_count = 0;
      estimated_dense_work = fin false 0 (pos 0);
      estimated_component_work = fin false 0 (pos 0);
      dense_peak_dimension = dense_peak;
      component_peak_live_dimension = 0;
      component_allocated_dimension = 0;
      whole_works = WholeWorks.WithoutQuotient 0;
      used = no_counts;
    } }
{
    ActiveComponentPlan {
        selected: false,
        initial_components: initial_k,
        component_count: 0,
        estimated_dense_work: 0.0,
        estimated_component_work: 0.0,
        dense_peak_dimension: dense_peak,
        component_peak_live_dimension: 0,
        component_allocated_dimension: 0,
        whole_works: WholeWorks::WithoutQuotient { dense: 0 },
        used: WordCounts::default(),
    }
}

/// Whether the component path is worth its cost.
pub fn choose(quantum: u64, dense: f64, component: f64, allocated: u64, dense_peak: u64) -> bool
    ensures { result ≡ chosen quantum dense component allocated dense_peak }
{
    if quantum < 4 {
        return false;
    }
    if !(1.8 * component <= dense) {
        return false;
    }
    if !(8192.0 <= dense - component) {
        return false;
    }
    std::num::nearest_u64_to_f64(allocated) <= 1.25 * std::num::nearest_u64_to_f64(dense_peak)
}

/// The scalar fields of the plan of a finished walk over n records.
pub fn finished_plan(
    initial_k: u64,
    dense_peak: u64,
    done: Summary,
    n: usize,
    allocated: u64,
) -> ActiveComponentPlan
    requires { UsedFit done n }
    ensures { outcome_of (Ok result) ≡ finished_outcome initial_k dense_peak done n allocated }
{
    let tally = done.tally;
    ActiveComponentPlan {
        selected: choose(
            tally.quantum,
            tally.dense,
            tally.work,
            allocated,
            dense_peak,
        ),
        initial_components: initial_k,
        component_count: done.count as u64,
        estimated_dense_work: tally.dense,
        estimated_component_work: tally.work,
        dense_peak_dimension: dense_peak,
        component_peak_live_dimension: tally.peak,
        component_allocated_dimension: allocated,
        whole_works: tally.whole_works(),
        used: WordCounts {
            steps: 2 * n,
            merges: tally.merges,
            sizes: done.count,
            rotations: ROTATION_WORDS * tally.rotations,
            promotions: tally.promotions,
            measurements: MEASUREMENT_WORDS * tally.measurements,
        },
    }
}
