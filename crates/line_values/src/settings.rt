// RTS and the f: lines: what stands after each name.
ghost use Rattle.std.specs.Prelude.{◌≡◌, Ok};
ghost use Rattle.language.specs.Meaning.{rts_of, ex_in, stopbits_of, encode_of, lfext_of};
ghost use Rattle.line_values.specs.Inside.Line.{line_from};

use crate::Line;
use crate::parts::is_name;
use hex_data::hex_byte;
use language::extension::is_capital;
use language::{Cell, LETTER_PLACES, LETTERS, TextFault};

// RTS: ON or OFF.
pub fn rts(argument: &[u8]) -> Result<Line, TextFault>
    ensures { result ≡ line_from (rts_of argument.now) }
{
    if is_name(argument, b"ON") {
        return Ok(Line::Says(Cell::Rts(true)));
    }
    if is_name(argument, b"OFF") {
        return Ok(Line::Says(Cell::Rts(false)));
    }
    Err(TextFault::BadRest)
}

// EX1 to EX4: IN.
pub fn ex(argument: &[u8]) -> Result<Line, TextFault>
    ensures { result ≡ line_from (ex_in argument.now) }
{
    if is_name(argument, b"IN") {
        return Ok(Line::Ex);
    }
    Err(TextFault::BadRest)
}

// STOPBITS: exactly 2 is two, any other rest is one.
pub fn stopbits(argument: &[u8]) -> Line
    ensures { Ok result ≡ line_from (stopbits_of argument.now) }
{
    Line::Stopbits(is_name(argument, b"2"))
}

// ENCODE: `:` and one or two hex digits, `/` then a byte, or the byte.
// Tests and no slice patterns: nothing, `/` alone and `/` with a byte would be three patterns more, no plainer.
pub fn encode(argument: &[u8]) -> Result<Line, TextFault>
    ensures { result ≡ line_from (encode_of argument.now) }
{
    if argument.len() == 0 {
        return Err(TextFault::BadRest);
    }
    let first = argument[0];
    if first == b':' {
        // A match: see `wait_clock`.
        return match hex_byte(argument, 1) {
            Ok(read) => Ok(Line::Encode(read.value as u8)),
            Err(_) => Err(TextFault::BadRest),
        };
    }
    if first == b'/' {
        if argument.len() == 1 {
            return Err(TextFault::BadRest);
        }
        return Ok(Line::Encode(argument[1]));
    }
    Ok(Line::Encode(first))
}

// LFEXT: one to three letters or digits.
pub fn lfext(argument: &[u8]) -> Result<Line, TextFault>
    ensures { result ≡ line_from (lfext_of argument.now) }
{
    if argument.len() == 0 || LETTERS < argument.len() {
        return Err(TextFault::BadRest);
    }
    let mut letters = [0u8; LETTER_PLACES];
    for (i, b) in argument.iter().enumerate() {
        let letter = b.to_ascii_uppercase();
        if !is_capital(letter) {
            return Err(TextFault::BadRest);
        }
        letters[i] = letter;
    }
    Ok(Line::Lfext(letters))
}
