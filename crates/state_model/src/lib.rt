//! No code: specs/ says how the state's arrays stand for the definition's walk, and proofs/ that
//! each step keeps that.
#![tactic(auto)]
