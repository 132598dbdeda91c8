//! What optimizing a list of pending operations gives: definitions, theorems and their proofs stand in specs/ and proofs/. No code.
#![tactic(auto)]
