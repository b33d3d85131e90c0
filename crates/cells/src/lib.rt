// A cell and its word: `encoder` has the word of a cell, `decoder` the cell of a word.
#![tactic(auto)]

pub mod decoder;
pub mod encoder;

// A word holds its kind times this, and its argument below.
// Kinds are the numbers of a table's words: the definitions coded and cell_of have them as numbers, and may not change.
const KIND: u32 = 67108864;
