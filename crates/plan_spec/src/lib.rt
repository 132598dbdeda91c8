//! What the plan of an input is: definitions, laws and the theorem on components stand in specs/ and proofs/. No code.
#![tactic(auto)]
