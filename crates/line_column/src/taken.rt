// How many bytes of a word can be taken.
ghost use Rattle.std.specs.Prelude.{◌+◌, ◌≡◌, drop};
ghost use Rattle.language.specs.Column.{alike, number_taken, loop_taken, unit_taken, time_taken, clock_taken, rts_taken, in_taken, lfext_taken};

use language::LETTERS;
use language::extension::is_capital;
use line_values::clocks::clock_value;
use line_values::times::{DIGITS, MOST};
use numbers::decimal::number;

// The place up to which the bytes from `at` on agree with a name.
// It is counted beside the bytes: with enumerate each law of Taking would speak of at + i, no plainer.
fn alike(s: &[u8], at: usize, name: &[u8]) -> usize
    ensures { result ≡ at + alike name.now (drop at s.now) }
{
    let mut i = at;
    for b in name {
        if s.len() <= i || *b != s[i] {
            return i;
        }
        i += 1;
    }
    i
}

// A number: the place after it, or that of the byte it cannot take.
pub(crate) fn number_taken(word: &[u8]) -> usize
    ensures { result ≡ number_taken word.now }
{
    match number(word, 0, DIGITS, MOST) {
        Ok(read) => read.next,
        Err(at) => at,
    }
}

// LOOP: EVER, or a number.
pub(crate) fn loop_taken(word: &[u8]) -> usize
    ensures { result ≡ loop_taken word.now }
{
    alike(word, 0, b"EVER").max(number_taken(word))
}

// The place up to which the bytes from `at` on are a unit.
fn unit_taken(word: &[u8], at: usize) -> usize
    ensures { result ≡ at + unit_taken (drop at word.now) }
{
    alike(word, at, b"MS").max(alike(word, at, b"S"))
}

// WAIT TIME: a number and a unit that touch.
pub(crate) fn time_taken(word: &[u8]) -> usize
    ensures { result ≡ time_taken word.now }
{
    unit_taken(word, number_taken(word))
}

// WAIT CLOCK: a unit and digits.
pub(crate) fn clock_taken(word: &[u8]) -> usize
    ensures { result ≡ clock_taken word.now }
{
    match clock_value(word) {
        Ok(_) => word.len(),
        Err(at) => at,
    }
}

// RTS: ON or OFF.
pub(crate) fn rts_taken(word: &[u8]) -> usize
    ensures { result ≡ rts_taken word.now }
{
    alike(word, 0, b"ON").max(alike(word, 0, b"OFF"))
}

// EX1 to EX4: IN.
pub(crate) fn in_taken(word: &[u8]) -> usize
    ensures { result ≡ in_taken word.now }
{
    alike(word, 0, b"IN")
}

// LFEXT: letters or digits, three of them.
pub(crate) fn lfext_taken(word: &[u8]) -> usize
    ensures { result ≡ lfext_taken word.now }
{
    for (i, b) in word.iter().enumerate() {
        if LETTERS <= i || !is_capital(b.to_ascii_uppercase()) {
            return i;
        }
    }
    word.len()
}
