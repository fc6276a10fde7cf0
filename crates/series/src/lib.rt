// Polynomials by Horner's rule and the terms of a series. This crate is theory alone: its definitions are in specs/, its theorems in proofs/.
#![tactic(auto)]
