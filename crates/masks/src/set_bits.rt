//! The places of a mask's set bits, one after the other from the lowest up.
ghost use Rattle.std.specs.Iterator.{YieldsFirst, item_count};
ghost use Rattle.masks.specs.Positions.{places};

/// A mask that gives the places of its set bits, each of which is taken off as it is given.
#[derive(Clone, Copy, Debug, PartialEq, Eq, Drop)]
pub struct SetBits(pub u64);

impl Iterator for SetBits {
    type Item = u8;

    ghost next_gives = { YieldsFirst (λ s. places s.0) };

    ghost remaining = { item_count (λ s. places s.0) };

    // The lowest place that is left.
    #[tactic(auto, using(crate::proofs::Masks::places_none, crate::proofs::Masks::places_lowest))]
    fn next(&mut self) -> Option<u8> {
        if self.0 == 0 {
            return None;
        }
        let place = self.0.trailing_zeros() as u8;
        self.0 &= self.0 - 1;
        Some(place)
    }
}
