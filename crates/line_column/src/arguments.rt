// An argument of one word: which name it stands behind, and the place up to which it can be taken.
ghost use Rattle.std.specs.Prelude.{◌+◌, ◌≤◌, ◌≡◌, length, drop};
ghost use Rattle.language.specs.Column.{faultless, in_word, behind_blanks};
ghost use Rattle.line_values.specs.Inside.Line.{line_from};
ghost use Rattle.line_column.specs.Inside.Kinds.{reader_of, taken_of};

use crate::taken::{
    clock_taken, in_taken, lfext_taken, loop_taken, number_taken, rts_taken, time_taken,
};
use language::TextFault;
use line_values::Line;
use line_values::clocks::wait_clock;
use line_values::settings::{ex, lfext, rts};
use line_values::times::{loop_count, wait_byte, wait_time};
use words::{after_blanks, word_end};

// The name that a word stands behind. An enum, since with two functions in its place each of ten calls would name both, and the
// contract their two definitions.
#[derive(Clone, Copy)]
pub(crate) enum Kind {
    Loop,
    Time,
    Byte,
    Clock,
    Rts,
    Ex,
    Lfext,
}

// How many bytes of a word can be taken.
fn word_taken(word: &[u8], kind: Kind) -> usize
    ensures { result ≡ taken_of kind word.now }
{
    match kind {
        Kind::Loop => loop_taken(word),
        Kind::Time => time_taken(word),
        Kind::Byte => number_taken(word),
        Kind::Clock => clock_taken(word),
        Kind::Rts => rts_taken(word),
        Kind::Ex => in_taken(word),
        Kind::Lfext => lfext_taken(word),
    }
}

// What a line tells whose argument is this word.
fn word_read(word: &[u8], kind: Kind) -> Result<Line, TextFault>
    ensures { result ≡ line_from (reader_of kind word.now) }
{
    match kind {
        Kind::Loop => loop_count(word),
        Kind::Time => wait_time(word),
        Kind::Byte => wait_byte(word),
        Kind::Clock => wait_clock(word),
        Kind::Rts => rts(word),
        Kind::Ex => ex(word),
        Kind::Lfext => lfext(word),
    }
}

// Whether a word is right as it stands.
fn right_word(word: &[u8], kind: Kind) -> bool
    ensures { result ≡ faultless (reader_of kind word.now) }
{
    word_read(word, kind).is_ok()
}

// The word behind the name that ends at `at`: up to its bad byte, to its end where it is not right as it stands, else to the next word.
pub(crate) fn in_word(line: &[u8], at: usize, kind: Kind) -> usize
    requires { at ≤ length line.now }
    ensures { result ≡ at + behind_blanks (in_word (reader_of kind) (taken_of kind)) (drop at line.now) }
{
    let from = after_blanks(line, at);
    let end = word_end(line, from);
    let word = &line[from..end];
    let count = word_taken(word, kind);
    if count < end - from {
        return from + count;
    }
    if !right_word(word, kind) {
        return end;
    }
    after_blanks(line, end)
}
