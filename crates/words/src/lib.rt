//! Words of 64 bits and lists of them, whatever they mean: filling a list, floats as their bits, and words in a file of
//! bytes.
#![tactic(auto)]

pub mod file;
pub mod filling;
pub mod floats;
