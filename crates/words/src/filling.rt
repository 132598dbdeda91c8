//! Entries of a list that are given one value.
ghost use Rattle.std.specs.Prelude.{◌≡◌, ◌++◌, ◌≤◌, length, drop, replicate};
ghost use Rattle.words.specs.Lists.{filled_from};

/// Gives every entry from a place on one value.
// Kept: a loop over the places and no `fill`, which asks that a clone cannot fail and is the
// value; of a type parameter the check does not know that (tried).
pub fn fill_from<T: Copy>(entries: &mut [T], from: usize, value: T)
    ensures { entries.new ≡ filled_from from value entries.old }
{
    for i in from..entries.len() {
        entries[i] = value;
    }
}

/// Writes n ones.
pub fn fill_ones(words: &mut [u64], n: usize)
    requires { n ≤ length words.old }
    ensures { words.new ≡ replicate n 1 ++ drop n words.old }
{
    words[..n].fill(1);
}
