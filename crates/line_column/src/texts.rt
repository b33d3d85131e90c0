// Data and text behind a name: the place up to which they can be taken.
ghost use Rattle.std.specs.Prelude.{◌+◌, ◌≤◌, ◌≡◌, false, length, drop};
ghost use Rattle.language.specs.Column.{hex_taken, marked_taken, encode_taken, signs_taken, log_taken, behind_blanks};

use hex_data::{hex_byte, hex_count};
use language::signs::is_sign;
use words::after_blanks;

// Hex data: all of them, or those before the byte that cannot be taken.
pub(crate) fn hex_taken(line: &[u8], at: usize) -> usize
    requires { at ≤ length line.now }
    ensures { result ≡ at + hex_taken (drop at line.now) }
{
    match hex_count(line, at) {
        Ok(_) => line.len(),
        Err(place) => place,
    }
}

// Data after their mark: `/` and text, or `:` and hex data.
// Tests and no slice patterns: what is told is a place of the line, so the rest of a pattern would not serve.
pub(crate) fn marked_taken(line: &[u8], at: usize) -> usize
    ensures { result ≡ at + behind_blanks marked_taken (drop at line.now) }
{
    let from = after_blanks(line, at);
    if line.len() <= from {
        return from;
    }
    let mark = line[from];
    if mark == b'/' {
        return line.len();
    }
    if mark == b':' {
        return hex_taken(line, from + 1);
    }
    from
}

// ENCODE: `:` and one or two hex digits, or a byte; more is ignored.
pub(crate) fn encode_taken(line: &[u8], at: usize) -> usize
    ensures { result ≡ at + behind_blanks encode_taken (drop at line.now) }
{
    let from = after_blanks(line, at);
    if line.len() <= from {
        return from;
    }
    if line[from] == b':' {
        return match hex_byte(line, from + 1) {
            Ok(_) => line.len(),
            Err(place) => place,
        };
    }
    line.len()
}

// LOG's text: up to a byte that ends no sign.
fn signs_taken(line: &[u8], at: usize) -> usize
    requires { at ≤ length line.now }
    ensures { result ≡ at + signs_taken (drop at line.now) false }
{
    let mut marked = false;
    // By its place, which is the answer. Tried by `enumerate` over the rest of the line: each law then adds `at` to it, no plainer.
    for i in at..line.len() {
        if marked && !is_sign(line[i]) {
            return i;
        }
        marked = !marked && line[i] == b'@';
    }
    line.len()
}

// LOG: one space and text.
pub(crate) fn log_taken(line: &[u8], at: usize) -> usize
    ensures { result ≡ at + log_taken (drop at line.now) }
{
    if line.len() <= at || line[at] != b' ' {
        return at;
    }
    signs_taken(line, at + 1)
}
