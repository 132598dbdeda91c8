//! The lent buffers other than rows: the longest sizes and what they allocate, and the groups.
ghost use Rattle.std.specs.Prelude.{◌≡◌, ◌+◌, ◌-◌, ◌≤◌, ◌<◌, max, length, get_or, set, take};
ghost use Rattle.words.specs.Words.{AreBelow};
ghost use Rattle.plan_spec.specs.Components.{allocated_for};
ghost use Rattle.plan_buffers.specs.Buffers.{counts_of, CountsFit, placed_up_to, PlacesFit};

/// Raises a longest size to the size, where that is larger.
pub fn raise_size(sizes: &mut [u64], component: usize, size: u64)
    requires { component < length sizes.old }
    ensures { sizes.new ≡ set sizes.old component (max (get_or sizes.old component 0) size) }
{
    sizes[component] = sizes[component].max(size);
}

/// The sum of 2 to the power of each size, or the largest word where that is smaller.
pub fn allocated(sizes: &[u64]) -> u64
    requires { AreBelow 64 sizes.now }
    ensures { result ≡ allocated_for sizes.now }
{
    let mut sum = 0u64;
    for size in sizes {
        sum = sum.saturating_add(1 << *size);
    }
    sum
}

/// Where the members of each component go, and how many words the groups take.
#[derive(Clone, Copy, Debug, PartialEq, Eq)]
pub struct Starts {
    pub start: [u16; 512],
    pub used: usize,
}

/// Writes the member count of each component that has members, in the order of their numbers,
/// with room for the members behind each.
#[tactic(auto, using(crate::proofs::Groups::counts_room))]
pub fn write_counts(size: &[u8; 512], count: usize, groups: &mut [u64]) -> Starts
    requires fits { CountsFit (take count size.now) groups.old }
    requires few { count ≤ 512 }
    ensures start { result.start ≡ (counts_of (take count size.now) groups.old).start }
    ensures used { result.used ≡ (counts_of (take count size.now) groups.old).used }
    ensures groups { groups.new ≡ (counts_of (take count size.now) groups.old).groups }
{
    let mut start = [0u16; 512];
    let mut used = 0usize;
    for c in 0..count {
        let s = size[c];
        if s != 0 {
            groups[used] = u64::from(s);
            start[c] = (used + 1) as u16;
            used += 1 + usize::from(s);
        }
    }
    Starts { start, used }
}

/// Writes each active coordinate at its place among its component's members.
pub fn write_members<'a>(
    start: [u16; 512],
    coordinate: &'a [u16; 512],
    component: &'a [u16; 512],
    place: &'a [u8; 512],
    width: usize,
    groups: &mut [u64],
)
    requires { PlacesFit start component.now place.now width (length groups.old) }
    ensures { groups.new
        ≡ placed_up_to start coordinate.now component.now place.now width groups.old }
{
    for p in 0..width {
        let c = usize::from(component[p]);
        let at = usize::from(start[c]) + usize::from(place[p]);
        groups[at] = u64::from(coordinate[p]);
    }
}
