// Exact fractions, and the value of a float as one. This crate is theory alone: its definitions are in specs/, its theorems in proofs/.
#![tactic(auto)]
