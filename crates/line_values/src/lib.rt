// What follows a name, read in code; and what a line is told as.
#![tactic(auto)]

use language::{Cell, LETTER_PLACES};

pub mod clocks;
pub mod parts;
pub mod settings;
pub mod times;

// What a line means. A statement is told by the cell it has where its data begin at place 0 of the pool; its data, and those of
// OMIT, stand at the front of the lent buffer.
#[derive(Clone, Copy)]
pub enum Line {
    Comment,
    Blank,
    Process,
    Ex,
    Says(Cell),
    Encode(u8),
    Stopbits(bool),
    Omit(u8),
    // The letters, made capital, with zeros after them, as Heads holds them, whose fields may not change.
    Lfext([u8; LETTER_PLACES]),
}
