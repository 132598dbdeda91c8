//! Bits of a word, and the kernels of one Pauli on a small register: what a plan's rows are made of.
#![tactic(auto)]

pub mod active;
pub mod bits;
