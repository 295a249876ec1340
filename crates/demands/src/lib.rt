// The demands on the whole tool, as theorems over the contracts of its crates: see proofs/Demands.antt. There is no code here.
#![tactic(auto)]
