// Theorems alone: demand 3, and what every call of the runner keeps. There is no function.
#![tactic(auto)]
