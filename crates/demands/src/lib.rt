// The demands as theorems: proofs/Demands.antt. This crate has no code.
#![tactic(auto)]
