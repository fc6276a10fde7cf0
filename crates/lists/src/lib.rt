// Lists: a slice written from its start, a list of a fixed length, a table of a function's values, and laws of lists. This crate is theory alone: its definitions are in
// specs/, its theorems in proofs/.
#![tactic(auto)]
