// What a program needs of the system around it: its words, its input, its output and its errors.
#![tactic(auto)]

pub mod arguments;
pub mod lines;
pub mod parts;
pub mod reading;
pub mod saying;
#[cfg(test)]
mod tests;
