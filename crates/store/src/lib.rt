//! Storing a plan: head and records are planned into the seven outputs, and the plan's file is
//! then written from them into lent bytes. Nothing is allocated, and no copy of the file is made.
#![tactic(auto)]

ghost use Rattle.std.specs.Prelude.{◌≡◌, ◌*◌, ◌≤◌, length};
ghost use Rattle.words.specs.Lists.{padded};
ghost use Rattle.plan_buffers.specs.SevenBuffers.{buffers_of};
ghost use Rattle.plan_buffers.specs.SixOutputs.{outputs_of, SameOutputs};
ghost use Rattle.stored_plan.specs.Stored.{bytes_of};
ghost use Rattle.plan_file.specs.Writing.{words_for};
ghost use Rattle.store.specs.Storing.{UsedInside, used_of, Stores};

use answer::ActiveComponentPlan;
use component_plan::build_active_component_plan;
use plan_buffers::StoredOutputs;
use plan_buffers::seven::clear_all;
use plan_file::{Sections, word_count, write_file};
use records::Head;
use refusals::{Reason, Refusal};
use words::filling::fill_from;

// Writes the file of a plan from the words that it uses of the outputs, and zeros behind it.
fn write_used(plan: ActiveComponentPlan, out: &StoredOutputs, file: &mut [u8])
    requires inside { UsedInside plan.used (outputs_of out.now) }
    requires room { 8 * words_for plan.used ≤ length file.old }
    ensures { file.new ≡ padded (length file.old) (bytes_of (used_of plan (outputs_of out.now))) }
{
    let used = plan.used;
    let sections = Sections {
        steps: &out.steps[..used.steps],
        merges: &out.merges[..used.merges],
        sizes: &out.sizes[..used.sizes],
        rotations: &out.rotations[..used.rotations],
        promotions: &out.promotions[..used.promotions],
        measurements: &out.measurements[..used.measurements],
    };
    write_file(plan, &sections, file);
}

/// Plans head and records into the seven outputs and stores the plan in the file, whose length in
/// bytes is given; or gives the first refusal, after which outputs and file are zero.
pub fn store(
    head: Head,
    records: &[u64],
    out: &mut StoredOutputs,
    groups: &mut [u64],
    file: &mut [u8],
) -> Result<usize, Refusal>
    ensures same { SameOutputs out.old out.new }
    ensures stores { let before = buffers_of out.old groups.old in
        let after = buffers_of out.new groups.new in
        Stores head records.now before after file.old file.new result }
{
    let plan = match build_active_component_plan(head, records, out, groups) {
        Ok(plan) => plan,
        Err(refusal) => {
            fill_from(file, 0, 0);
            return Err(refusal);
        }
    };
    let words = word_count(plan.used);
    if file.len() / 8 < words {
        clear_all(out, groups);
        fill_from(file, 0, 0);
        return Err(Reason::Lengths.at(0));
    }
    write_used(plan, out, file);
    Ok(8 * words)
}
