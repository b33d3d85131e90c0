// Theorems alone: what the three demands come to over the definitions of the other crates. There is no function.
#![tactic(auto)]
