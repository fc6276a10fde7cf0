// What roundings cost, and error bounds for binary32. This crate is theory alone: its theorems are in proofs/.
#![tactic(auto)]
