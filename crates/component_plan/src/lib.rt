//! The component planner: the plan of a program, written into seven lent buffers.
#![tactic(auto)]

pub mod refusing;

ghost use Rattle.std.specs.Prelude.{◌≡◌, ◌≤◌, length, take};
ghost use Rattle.words.specs.Words.{AreBelow};
ghost use Rattle.plan_spec.specs.Components.{allocated_for};
ghost use Rattle.plan_buffers.specs.SevenBuffers.{buffers_of};
ghost use Rattle.plan_buffers.specs.SixOutputs.{SameOutputs};
ghost use Rattle.component_plan.specs.Answer.{Answers, ReadAnswers, HeadAnswers};

use crate::refusing::{check_lent, dense_peak};
use answer::{ActiveComponentPlan, finished_plan, unread_plan};
use plan_buffers::StoredOutputs;
use plan_buffers::buffers::allocated;
use plan_buffers::seven::{buffers_short, clear_all, clear_rest};
use records::{Head, check_records};
use refusals::Refusal;
use walk::walk;

// What the first of the longest sizes allocate, as many as there are components.
fn allocated_in(out: &StoredOutputs, count: usize) -> u64
    requires inside { count ≤ length out.now.sizes.now }
    requires below { AreBelow 64 (take count out.now.sizes.now) }
    ensures { result ≡ allocated_for (take count out.now.sizes.now) }
{
    allocated(&out.sizes[..count])
}

// The plan of a program whose records are read, or its first refusal.
fn plan_read(
    head: Head,
    dense_peak: u64,
    records: &[u64],
    out: &mut StoredOutputs,
    groups: &mut [u64],
) -> Result<ActiveComponentPlan, Refusal>
    ensures same { SameOutputs out.old out.new }
    ensures answers { let before = buffers_of out.old groups.old in
        let after = buffers_of out.new groups.new in
        ReadAnswers head dense_peak records.now before after result }
{
    let n = records.len() / 8;
    let short = buffers_short(n, out, groups);
    check_lent(head.initial_k, records.len(), short)?;
    check_records(records, head.initial_k)?;
    let done = walk(head.ceiling, head.initial_k as usize, records, out, groups)?;
    let all = allocated_in(out, done.count);
    let plan = finished_plan(head.initial_k, dense_peak, done, n, all);
    clear_rest(plan.used, done.groups, out, groups);
    Ok(plan)
}

// The plan of a program, or its first refusal, after which the buffers hold anything.
fn plan_head(
    head: Head,
    records: &[u64],
    out: &mut StoredOutputs,
    groups: &mut [u64],
) -> Result<ActiveComponentPlan, Refusal>
    ensures same { SameOutputs out.old out.new }
    ensures answers { let before = buffers_of out.old groups.old in
        let after = buffers_of out.new groups.new in
        HeadAnswers head records.now before after result }
{
    let peak = dense_peak(head)?;
    if head.max_k < 8 || head.nexpvals != 0 {
        clear_all(out, groups);
        return Ok(unread_plan(head.initial_k, peak));
    }
    plan_read(head, peak, records, out, groups)
}

/// The plan of a program, or its first refusal, after which all seven buffers are zero.
pub fn build_active_component_plan(
    head: Head,
    records: &[u64],
    out: &mut StoredOutputs,
    groups: &mut [u64],
) -> Result<ActiveComponentPlan, Refusal>
    ensures same { SameOutputs out.old out.new }
    ensures answers { let before = buffers_of out.old groups.old in
        let after = buffers_of out.new groups.new in
        Answers head records.now before after result }
{
    let planned = plan_head(head, records, out, groups);
    if planned.is_err() {
        clear_all(out, groups);
    }
    planned
}
