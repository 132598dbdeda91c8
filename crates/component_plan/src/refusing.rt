//! Refusals 24 and 1, by the head alone, with its dense peak; and refusals 2 to 4, by the lent
//! lengths and the initial width.
#![tactic(auto)]

ghost use Rattle.std.specs.Prelude.{◌≡◌};
ghost use Rattle.refusals.specs.Answer.{answer_of, number_or_0};
ghost use Rattle.component_plan.specs.Refusing.{head_answer, lent_number};

use kernels::bits::active_length;
use records::Head;
use refusals::Reason;

// The largest ceiling that a head may have.
const LARGEST_CEILING: u64 = 62;

/// The dense peak of a head, or refusal 24 or 1.
pub fn dense_peak(head: Head) -> Result<u64, Reason>
    ensures { answer_of result ≡ head_answer head }
{
    if head.ceiling < 1 || LARGEST_CEILING < head.ceiling {
        return Err(Reason::Ceiling);
    }
    active_length(head.max_k, head.ceiling).ok_or(Reason::MaxK)
}

/// Refusals 2 to 4.
pub fn check_lent(initial_k: u64, words: usize, short: bool) -> Result<(), Reason>
    ensures { number_or_0 result ≡ lent_number initial_k words short }
{
    if words % 8 != 0 || 8192 < words {
        return Err(Reason::RecordWords);
    }
    if short {
        return Err(Reason::Buffers);
    }
    if 512 < initial_k {
        return Err(Reason::InitialK);
    }
    Ok(())
}
