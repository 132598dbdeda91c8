//! Pending operations as words: reading one, and what a list has to be (refusal 26).
#![tactic(auto)]

pub mod form;
pub mod operation;
