//! The state of planning, by active position. No member lists are kept: member j of a component is the coordinate at the
//! position that has that component and that place. Which coordinate that is stands beside the state, in the active order:
//! only the groups ask for it, and what the steps take and return by value is smaller without it.
#![tactic(auto)]

ghost use Rattle.std.specs.Prelude.{◌≡◌, ◌≤◌, ◌<◌, length, set};
ghost use Rattle.masks.specs.Positions.{Below512};
ghost use Rattle.state.specs.Steps.{InOrder, Closed, Started, Joinable, gathering, sizes_after, BeforeJoin, Joined, BeforePromotion, promoted, BeforeRemoval, Removed};
ghost use Rattle.state.specs.Steps as Steps;

/// The active positions of a walk, each with its component and its place among that component's
/// members; sizes by component.
#[derive(Clone, Copy, Debug, PartialEq, Eq)]
pub struct State {
    /// by active position: the component of the coordinate there, and its index among that component's members
    // Kept: two arrays, since most of what reads the state reads one of them alone, and a struct of both at each position takes
    // 512 bytes more in each of the three states that the walk's stack has
    pub component: [u16; 512],
    pub place: [u8; 512],
    /// by component number: how many members it has, 0 once joined away or emptied
    pub size: [u8; 512],
    /// how many coordinates are active, and how many components were ever made
    pub width: usize,
    pub count: usize,
}

/// The active order at the start: coordinates 0 to k - 1, and zeros behind them. The component that a coordinate begins in has
/// the same number.
// Kept: an array and no vector, since the library has no heap. How much of it counts is the state's width, as for components and
// places, and a length of its own would say that again.
pub fn first_order(k: usize) -> [u16; 512]
    requires { k ≤ 512 }
    ensures in_order { InOrder k result }
    ensures small { Below512 result }
{
    let mut numbers = [0u16; 512];
    for i in 0..k {
        numbers[i] = i as u16;
    }
    numbers
}

/// A coordinate behind the last of the active order.
pub fn append(order: &mut [u16; 512], width: usize, coordinate: usize)
    requires room { width < 512 }
    requires number { coordinate < 512 }
    ensures { order.new ≡ set order.old width coordinate }
{
    order[width] = coordinate as u16;
}

/// The coordinate at a position leaves the active order, and those behind it, up to the last, move down.
pub fn close_gap(order: &mut [u16; 512], pivot: usize, last: usize)
    requires active { pivot ≤ last }
    requires inside { last < 512 }
    requires long { length order.old ≡ 512 }
    ensures { Closed pivot last order.old order.new }
{
    order[..].copy_within(pivot + 1..last + 1, pivot);
}

/// Gives the first of the sources the sizes of all, and the others none. Returns by how much a join raises the places of each
/// component's members: 0 for the first source's, and for those of a component that is no source.
pub fn gather_sizes(size: &mut [u8; 512], sources: &[u64]) -> [u8; 512]
    requires { Joinable size.old sources.now }
    ensures rise { result ≡ (gathering size.old sources.now).rise }
    ensures sizes { size.new ≡ sizes_after size.old sources.now }
{
    let mut rise = [0u8; 512];
    let target = sources[0] as usize;
    let mut grown = size[target];
    let others = &sources[1..];
    for source in others {
        let source = *source as usize;
        rise[source] = grown;
        grown += size[source];
        size[source] = 0;
    }
    size[target] = grown;
    rise
}

// The position before a removal of what stands at p after it.
fn skip(pivot: usize, p: usize) -> usize
    requires { p < 512 }
    ensures { result ≡ Steps.skip pivot p }
{
    if p < pivot { p } else { p + 1 }
}

// The place of a member of a component, after the member at one place of the target has left.
fn lower(target: u16, local: u8, component: u16, place: u8) -> u8
    ensures { result ≡ Steps.lowered target local component place }
{
    if component != target {
        return place;
    }
    if local < place { place - 1 } else { place }
}

impl State {
    /// Coordinates 0 to k - 1 in order, each alone in the component of its number.
    pub fn start(k: usize) -> Self
        requires { k ≤ 512 }
        ensures { Started k result }
    {
        let numbers = first_order(k);
        let mut size = [0u8; 512];
        size[..k].fill(1);
        State {
            component: numbers,
            place: [0u8; 512],
            size,
            width: k,
            count: k,
        }
    }

    /// The members of the other sources go behind those of the first, in order.
    #[tactic(auto, using(crate::proofs::Gathers::length_after))]
    pub fn join(mut self, sources: &[u64]) -> Self
        requires { BeforeJoin self sources.now }
        ensures { Joined self sources.now result }
    {
        let rise = gather_sizes(&mut self.size, sources);
        let target = sources[0] as u16;
        for p in 0..self.width {
            let by = rise[usize::from(self.component[p])];
            if by != 0 {
                self.component[p] = target;
                self.place[p] += by;
            }
        }
        self
    }

    /// A new coordinate, alone in a new component, both with the next number.
    #[tactic(auto, unfolding(crate::specs::Steps::promoted))]
    pub fn promote(mut self) -> Self
        requires { BeforePromotion self }
        ensures { result ≡ promoted self }
    {
        self.component[self.width] = self.count as u16;
        self.place[self.width] = 0;
        self.size[self.count] = 1;
        self.width += 1;
        self.count += 1;
        self
    }

    /// The coordinate at an active position leaves, the order otherwise kept.
    pub fn remove(mut self, pivot: usize) -> Self
        requires { BeforeRemoval self pivot }
        ensures { Removed self pivot result }
    {
        let target = self.component[pivot];
        let local = self.place[pivot];
        let last = self.width - 1;
        for p in 0..last {
            let q = skip(pivot, p);
            let c = self.component[q];
            self.component[p] = c;
            self.place[p] = lower(target, local, c, self.place[q]);
        }
        self.size[usize::from(target)] -= 1;
        self.width = last;
        self
    }
}
