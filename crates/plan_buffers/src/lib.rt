//! The lent buffers and what planning writes into them beside rows and steps: longest sizes,
//! groups, and zeros.
#![tactic(auto)]

pub mod buffers;
pub mod seven;

ghost use Rattle.std.specs.Prelude.{◌≡◌};
ghost use Rattle.plan_buffers.specs.SixOutputs.{outputs_of, word_counts_of, outputs_short, SameOutputs, Cleared};

use words::filling::fill_from;

/// The six lent outputs that a stored plan has too. What lends by `&mut` is neither copied nor
/// compared, so nothing more is derived.
// Kept: planning's seventh buffer, the groups, is lent beside it. In a struct that holds this
// struct the six lose what their owner knows of them after a call (tried), and in one struct of
// all seven zeroing and lengths would stand twice.
#[derive(Drop)]
pub struct StoredOutputs<'a> {
    pub steps: &'a mut [u64],
    pub merges: &'a mut [u64],
    pub sizes: &'a mut [u64],
    pub rotations: &'a mut [u64],
    pub promotions: &'a mut [u64],
    pub measurements: &'a mut [u64],
}

/// The words of a rotation's row.
pub const ROTATION_WORDS: usize = 21;

/// The words of a measurement's row.
pub const MEASUREMENT_WORDS: usize = 19;

/// So many words of each of the first six outputs.
#[derive(Clone, Copy, Debug, Default, PartialEq, Eq)]
pub struct WordCounts {
    pub steps: usize,
    pub merges: usize,
    pub sizes: usize,
    pub rotations: usize,
    pub promotions: usize,
    pub measurements: usize,
}

impl WordCounts {
    /// Whether one of these is less than the other's.
    pub fn short_of(self, needed: WordCounts) -> bool
        ensures { result ≡ outputs_short self needed }
    {
        self.steps < needed.steps
            || self.merges < needed.merges
            || self.sizes < needed.sizes
            || self.rotations < needed.rotations
            || self.promotions < needed.promotions
            || self.measurements < needed.measurements
    }
}

impl StoredOutputs<'_> {
    /// How many words each has room for.
    pub fn lengths(&self) -> WordCounts
        ensures { result ≡ word_counts_of (outputs_of self.now) }
    {
        WordCounts {
            steps: self.steps.len(),
            merges: self.merges.len(),
            sizes: self.sizes.len(),
            rotations: self.rotations.len(),
            promotions: self.promotions.len(),
            measurements: self.measurements.len(),
        }
    }

    /// Zeroes all six.
    pub fn clear(&mut self)
        ensures same { SameOutputs self.old self.new }
        ensures cleared { Cleared (outputs_of self.old) (outputs_of self.new) }
    {
        fill_from(self.steps, 0, 0);
        fill_from(self.merges, 0, 0);
        fill_from(self.sizes, 0, 0);
        fill_from(self.rotations, 0, 0);
        fill_from(self.promotions, 0, 0);
        fill_from(self.measurements, 0, 0);
    }
}
