//! The library's calls: plain words in and out. Planning stands here, storing and reading plans in `stored`, optimizing pending
//! operations in `optimizing`. The crate `midvokt_c` exports them, as C and Rust link them; include/midvokt.h has the declarations.
#![tactic(auto)]

pub mod optimizing;
pub mod stored;

ghost use Rattle.std.specs.Prelude.{◌≡◌, length, Ok};
ghost use Rattle.plan_spec.specs.WholeWorks.{whole_words};
ghost use Rattle.work_sums.specs.Tally.{works_of};
ghost use Rattle.answer.specs.Outcome.{outcome_of};
ghost use Rattle.midvokt.specs.Reply.{head_of, seven_buffers, Replies, number_in, words_of, laid_out};

use answer::ActiveComponentPlan;
use component_plan::build_active_component_plan;
use plan_buffers::StoredOutputs;
use plan_file::scalar_words;
use records::Head;
use refusals::Refusal;
use words::filling::fill_from;
use work_sums::WholeWorks;

// 0 for an answer, and else the refusal's number.
// Kept: what C's calls return is a plain number.
fn reply_number<T: Copy>(answer: Result<T, Refusal>) -> u64
    ensures { result ≡ number_in answer }
{
    match answer {
        Ok(_) => 0,
        Err(refusal) => refusal.reason.number(),
    }
}

// Writes words into the result, as many as there is room for, and zeros behind them.
fn lay_out(words: &[u64], res: &mut [u64])
    ensures { res.new ≡ laid_out (length res.old) words.now }
{
    let n = words.len().min(res.len());
    res[..n].copy_from_slice(&words[..n]);
    fill_from(res, n, 0);
}

// The five words of the whole works: the mark, dense, component, quotient and remainder, and 0 for what a mark does not give.
fn whole_words(works: WholeWorks) -> [u64; 5]
    ensures { result ≡ whole_words (works_of works) }
{
    match works {
        WholeWorks::TooWide => [0, 0, 0, 0, 0],
        WholeWorks::WithoutQuotient { dense } => [1, dense, 0, 0, 0],
        WholeWorks::WithQuotient {
            dense,
            component,
            quotient,
            remainder,
        } => [2, dense, component, quotient, remainder],
    }
}

// The words of a plan's result: 0, the eight scalar fields, and the five words of the whole works.
fn plan_words(plan: ActiveComponentPlan) -> [u64; 14]
    ensures { result ≡ words_of (outcome_of (Ok plan)) }
{
    let fields = scalar_words(plan);
    let whole = whole_words(plan.whole_works);
    [
        0, fields[0], fields[1], fields[2], fields[3], fields[4], fields[5], fields[6], fields[7],
        whole[0], whole[1], whole[2], whole[3], whole[4],
    ]
}

// Writes the result: the words of a plan, or a refusal's record index.
fn write_result(planned: Result<ActiveComponentPlan, Refusal>, res: &mut [u64])
    ensures { res.new ≡ laid_out (length res.old) (words_of (outcome_of planned)) }
{
    match planned {
        Ok(plan) => lay_out(&plan_words(plan), res),
        Err(refusal) => lay_out(&[refusal.index], res),
    }
}

/// Plans a program into the seven buffers and the result; 0, or the refusal's number.
// Kept: C's words and slices, one by one, so that `midvokt_c` only hands them on and `replay` tries what C calls.
#[tactic(auto, using(crate::proofs::Laid::plan_told))]
pub fn midvokt_plan(
    initial_k: u64,
    max_k: u64,
    nexpvals: u64,
    ceiling: u64,
    records: &[u64],
    steps: &mut [u64],
    merges: &mut [u64],
    sizes: &mut [u64],
    rotations: &mut [u64],
    promotions: &mut [u64],
    measurements: &mut [u64],
    groups: &mut [u64],
    res: &mut [u64],
) -> u64
    ensures { let head = head_of initial_k max_k nexpvals ceiling in
        let before = seven_buffers steps.old merges.old sizes.old
        rotations.old promotions.old measurements.old groups.old in
        let after = seven_buffers steps.new merges.new sizes.new
        rotations.new promotions.new measurements.new groups.new in
        Replies head records.now before after res.old res.new result }
{
    let head = Head {
        initial_k,
        max_k,
        nexpvals,
        ceiling,
    };
    let mut out = StoredOutputs {
        steps,
        merges,
        sizes,
        rotations,
        promotions,
        measurements,
    };
    let planned = build_active_component_plan(head, records, &mut out, groups);
    write_result(planned, res);
    reply_number(planned)
}
