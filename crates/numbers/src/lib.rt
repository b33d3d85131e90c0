// Decimal numbers, read from a place of a slice.
#![tactic(auto)]

pub mod decimal;

// A number that was read, with the place after it.
#[derive(Clone, Copy, Debug, PartialEq, Eq)]
pub struct Number {
    pub value: u32,
    pub next: usize,
}
