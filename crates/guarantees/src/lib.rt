//! All that is promised of the library's calls. A function here does nothing: what its contract
//! states is proved, for every head, every list of words and every lent buffer. The statements
//! stand in the same order in `specs/Promises.antt`.
//!
//! A plan is what a call of `build_active_component_plan` leaves, or of `midvokt_plan`. A file is
//! what a call of `store` leaves, or of `midvokt_store`; `load` and `midvokt_load` read it. A list
//! is what a call of `optimize_pending_operations` leaves, or of `midvokt_optimize`. So says
//! `specs/Calls.antt`. That each of these calls gives what its definition gives stands in its own
//! contract.
#![tactic(auto)]

ghost use Rattle.guarantees.specs.Promises.{ComponentsAreRight, SourcesAreListed, EveryJoinIsListed, SourcesAreUnique, GroupsAreListed, GroupsAreUnique, WorksAgree, TooWideIsExact, WorksAreNotNegative, PairsAreUnits, DimensionsFit, PlanIsKept, NoOtherPlan, UnreadSaysNothing, RoomIsEnough, GuardsNeverFail, RefusalIsPlaced, RefusalLeavesZeros, RowsAreRead, PartsAreRead, StoredIsReadBack, FileIsShort, FileIsOne, PlanIsOne, ListIsKept, ExpectationKeepsList};

// ---- a plan

/// The components are right at every point of a plan: at the start and after each record they hold
/// each active coordinate once and nothing else, and two coordinates share a component exactly
/// when a chain of supports links them. Just after a join the bits of the local masks are the
/// record's bits, each at its own coordinate. The peak is the largest live dimension, and never
/// above the allocated one.
pub fn components()
    ensures { ComponentsAreRight }
{}

/// The row of each join lists the touched components: the largest first, the smallest number among
/// equals, and then all others, strictly ascending. So does every join that the walk makes,
/// whatever becomes of its program. No other list is that.
pub fn sources()
    ensures listed { SourcesAreListed }
    ensures every_join { EveryJoinIsListed }
    ensures no_other_list { SourcesAreUnique }
{}

/// The groups are the components that live after the last record, by ascending number, each once:
/// its member count, and its members in order. No other list is that.
pub fn groups()
    ensures listed { GroupsAreListed }
    ensures no_other_list { GroupsAreUnique }
{}

/// Whole works, where a plan has them, are its float works exactly, and their remainder is the
/// division's. A plan has none exactly where more than 38 coordinates are active at some point. No
/// float work is a NaN or negative.
pub fn works()
    ensures agree { WorksAgree }
    ensures too_wide { TooWideIsExact }
    ensures not_negative { WorksAreNotNegative }
{}

/// The squares of the sine and the cosine of each rotation in a plan sum to 1, give or take 2^-50,
/// and the two are not both zero.
pub fn pairs()
    ensures { PairsAreUnits }
{}

/// A program with a plan has that plan, word for word, under each ceiling of 1 to 62 that is above
/// max_k and above the longest size of each component, and under no other. Each component has its
/// dimension under the ceiling, at every point.
pub fn ceilings()
    ensures dimensions { DimensionsFit }
    ensures kept { PlanIsKept }
    ensures no_other { NoOtherPlan }
{}

/// Where max_k is below 8, or there are expectation values, a plan reads no record: it says
/// initial_k and 2^max_k, and all else is zero.
pub fn unread()
    ensures { UnreadSaysNothing }
{}

/// A plan of n records uses at most 2n words of steps, n + 511 of merges, 512 of sizes, 21n of
/// rotations, n of promotions, 19n of measurements and 1,024 of groups. Its peak is below 2^63.
pub fn room()
    ensures { RoomIsEnough }
{}

/// The errors of the Rust that have no number never occur: no record is come to in a state against
/// which the Rust guards.
pub fn guards()
    ensures { GuardsNeverFail }
{}

/// A refusal has a number above 0, and the index of a record or 0. It leaves all buffers zero.
pub fn refusals()
    ensures placed { RefusalIsPlaced }
    ensures zeroed { RefusalLeavesZeros }
{}

/// What the readers give of a plan for a record, its step, its row and the row's part of the merge
/// list, is what the definition's walk gives there. That part is the list of `sources`.
pub fn rows()
    ensures given_back { RowsAreRead }
    ensures parts { PartsAreRead }
{}

// ---- a file

/// A stored plan is loaded into all outputs that are long enough, every field and every word, and
/// its file has at most as many bytes as the header says for so many records. Bytes that load at
/// all are the file of what they give back, so a plan has one file. Plans with the same file are
/// the same in all that is stored, so a file has one plan.
pub fn files()
    ensures back { StoredIsReadBack }
    ensures short { FileIsShort }
    ensures one_file { FileIsOne }
    ensures one_plan { PlanIsOne }
{}

// ---- a list

/// What is left of an optimized list has its order, but for a measurement and a rotation that
/// commute. Nothing crosses a preserved prefix. Between two rotations that were fused are only
/// classical records and operations that commute with the earlier one. Each operation is left, or
/// fused into one that is, or cancelled, once; and map and counts tell so. A list with an
/// expectation value is left as it is.
pub fn lists()
    ensures claims { ListIsKept }
    ensures expectation { ExpectationKeepsList }
{}
