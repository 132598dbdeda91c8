//! Works, dimensions and counts, kept as the walk goes. Every sum of floats is in the order of the definition, each addition
//! rounded once. Beside them the works are kept as whole numbers modulo 2^64; they are handed out where no width passed 38,
//! and there they did not wrap.
#![tactic(auto)]

ghost use Rattle.std.specs.Prelude.{◌≡◌, ◌+◌, ◌*◌, ◌%◌, ◌^◌, ◌<◌, ◌≤◌, max, slice_index};
ghost use Rattle.plan_spec.specs.WholeWorks.{whole_works_of};
ghost use Rattle.work_sums.specs.Tally.{Countable, joining_of, JoinFits, start_tally, joined_tally, ignored_tally, rotated_tally, promoted_tally, measured_tally, power_left, works_of, whole_sums_of};

use kernels::bits::exact_exp2;

// Past this active width the works are not given as whole numbers.
const WIDEST: u64 = 38;

/// A join that is to be made: how many sources it has, the first of them, how many members they have together, the joining
/// cost as a float and as a whole number, and the sources' dimensions together.
#[derive(Clone, Copy, Debug, PartialEq)]
pub struct Joining {
    pub count: usize,
    pub target: u64,
    pub size: u64,
    pub cost: f64,
    pub whole_cost: u64,
    pub freed: u64,
}

/// The works as floats and as whole numbers, the widest active width, the live dimension and its peak, and how many merges,
/// rows of each kind and quantum instructions there are.
#[derive(Clone, Copy, Debug, Default, PartialEq)]
pub struct Tally {
    pub dense: f64,
    pub work: f64,
    pub whole_dense: u64,
    pub whole_work: u64,
    pub widest: u64,
    pub live: u64,
    pub peak: u64,
    pub merges: usize,
    pub rotations: usize,
    pub promotions: usize,
    pub measurements: usize,
    pub quantum: u64,
}

/// Both works as whole numbers, and dense divided by component: not where a width passed 38, and no quotient where the
/// component work is 0.
// Kept: an enum of its own, since it has three cases.
#[derive(Clone, Copy, Debug, PartialEq, Eq)]
pub enum WholeWorks {
    TooWide,
    WithoutQuotient {
        dense: u64,
    },
    WithQuotient {
        dense: u64,
        component: u64,
        quotient: u64,
        remainder: u64,
    },
}

// The dimension of so many members.
fn power(size: u64) -> u64
    requires { size < 64 }
    ensures { result ≡ 2 ^ size }
{
    1 << size
}

// 2 to the power of k, modulo 2^64.
#[tactic(auto, using(crate::proofs::Sums::power_gone))]
fn power_low(k: u64) -> u64
    ensures { result ≡ 2 ^ k % 2 ^ 64 }
{
    if k < 64 { power(k) } else { 0 }
}

// Twice 2 to the power of k, modulo 2^64.
fn double_low(k: u64) -> u64
    ensures { result ≡ 2 * 2 ^ k % 2 ^ 64 }
{
    power_low(k).wrapping_mul(2)
}

// The dimension that a component has without one of its members.
fn power_left(size: u64) -> u64
    requires { size < 64 }
    ensures { result ≡ power_left size }
{
    if size <= 1 { 0 } else { power(size - 1) }
}

// How many members a component has.
fn size_at(size: &[u8; 512], component: u64) -> u64
    requires { component < 512 }
    ensures { result ≡ slice_index size.now component }
{
    u64::from(size[component as usize])
}

/// The join of the sources.
pub fn join_of(size: &[u8; 512], sources: &[u64]) -> Joining
    requires { Countable size.now sources.now }
    ensures { result ≡ joining_of size.now sources.now }
{
    let target = sources[0];
    let mut grown = size_at(size, target);
    let mut freed = power(grown);
    let mut cost = 0.0f64;
    let mut whole_cost = 0u64;
    for &source in &sources[1..] {
        let more = size_at(size, source);
        grown += more;
        freed += power(more);
        cost += 2.0 * exact_exp2(grown);
        whole_cost = whole_cost.wrapping_add(double_low(grown));
    }
    Joining {
        count: sources.len(),
        target,
        size: grown,
        cost,
        whole_cost,
        freed,
    }
}

impl Tally {
    /// Before the first record, with k coordinates, each alone.
    #[tactic(auto, unfolding(crate::specs::Tally::start_tally))]
    pub fn start(k: u64) -> Self
        requires { 2 * k < 2 ^ 64 }
        ensures { result ≡ start_tally k }
    {
        Tally {
            widest: k,
            live: 2 * k,
            peak: 2 * k,
            ..Tally::default()
        }
    }

    // After a join.
    // Kept: that the join fits the sums so far is a fact about both, which neither can hold; `rotated` and `measured` ask it too.
    #[tactic(auto, unfolding(crate::specs::Tally::joined_tally))]
    fn joined(mut self, join: Joining) -> Self
        requires { JoinFits self join }
        ensures { result ≡ joined_tally self join }
    {
        self.live = self.live - join.freed + power(join.size);
        self.peak = self.peak.max(self.live);
        self.work += join.cost;
        self.whole_work = self.whole_work.wrapping_add(join.whole_cost);
        self.merges += join.count;
        self.quantum += 1;
        self
    }

    /// After a rotation of no coordinates.
    #[tactic(auto, unfolding(crate::specs::Tally::ignored_tally))]
    pub fn ignored(mut self) -> Self
        requires { self.quantum + 1 < 2 ^ 64 }
        ensures { result ≡ ignored_tally self }
    {
        self.dense += exact_exp2(0);
        self.whole_dense = self.whole_dense.wrapping_add(1);
        self.quantum += 1;
        self
    }

    /// After a rotation of k coordinates, and the join before it.
    #[tactic(auto, unfolding(crate::specs::Tally::joined_tally))]
    pub fn rotated(self, join: Joining, k: u64) -> Self
        requires join_fits { JoinFits self join }
        requires row_fits { self.rotations + 1 < 2 ^ 64 }
        ensures { result ≡ rotated_tally self join k }
    {
        let mut next = self.joined(join);
        next.dense += exact_exp2(k);
        next.work += exact_exp2(join.size) + 32.0;
        next.whole_dense = next.whole_dense.wrapping_add(power_low(k));
        next.whole_work = next.whole_work.wrapping_add(power(join.size) + 32);
        next.rotations += 1;
        next
    }

    /// After a promotion at k coordinates.
    pub fn promoted(mut self, k: u64) -> Self
        requires narrow { k < 512 }
        requires live_fits { self.live + 2 < 2 ^ 64 }
        requires row_fits { self.promotions + 1 < 2 ^ 64 }
        requires counted { self.quantum + 1 < 2 ^ 64 }
        ensures { result ≡ promoted_tally self k }
    {
        self.dense += 2.0 * exact_exp2(k);
        self.work += 34.0;
        self.whole_dense = self.whole_dense.wrapping_add(double_low(k));
        self.whole_work = self.whole_work.wrapping_add(34);
        self.widest = self.widest.max(k + 1);
        self.live += 2;
        self.peak = self.peak.max(self.live);
        self.promotions += 1;
        self.quantum += 1;
        self
    }

    /// After a measurement of k coordinates, the join before it and the removal.
    #[tactic(auto, unfolding(crate::specs::Tally::joined_tally))]
    pub fn measured(self, join: Joining, k: u64) -> Self
        requires join_fits { JoinFits self join }
        requires row_fits { self.measurements + 1 < 2 ^ 64 }
        ensures { result ≡ measured_tally self join k }
    {
        let mut next = self.joined(join);
        next.dense += 2.0 * exact_exp2(k);
        next.work += 2.0 * exact_exp2(join.size) + 32.0;
        next.whole_dense = next.whole_dense.wrapping_add(double_low(k));
        let removal = double_low(join.size).wrapping_add(32);
        next.whole_work = next.whole_work.wrapping_add(removal);
        next.live = next.live - power(join.size) + power_left(join.size);
        next.measurements += 1;
        next
    }

    /// The works as whole numbers, and how many times the component work goes into the dense one.
    #[tactic(auto, unfolding(plan_spec::specs::WholeWorks::whole_works_of))]
    pub fn whole_works(self) -> WholeWorks
        ensures { works_of result ≡ whole_works_of (whole_sums_of self) }
    {
        let dense = self.whole_dense;
        let component = self.whole_work;
        if WIDEST < self.widest {
            return WholeWorks::TooWide;
        }
        if component == 0 {
            return WholeWorks::WithoutQuotient { dense };
        }
        WholeWorks::WithQuotient {
            dense,
            component,
            quotient: dense / component,
            remainder: dense % component,
        }
    }
}
