// One statement of a process, as its cell says. A process by value, a lent table.
#![tactic(auto)]

pub mod joining;
pub mod loops;
pub mod moving;
pub mod outcome;
