// The sequences of the arrays of S(n,k): specs/Listed.antt and proofs/Listed.antt. This crate has no code.
#![tactic(auto)]
