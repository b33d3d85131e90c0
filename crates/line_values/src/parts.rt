// Words and what stands after them.
ghost use Rattle.std.specs.Prelude.{◌≡◌};
ghost use Rattle.reader.specs.Bytes.{all, same, is_blank};
ghost use Rattle.words.specs.Words.{argument};
ghost use Rattle.line_values.specs.Inside.Bare.{bare_line};

use crate::Line;
use language::TextFault;
use words::{after_blanks, trimmed_end};

// Whether a word is this name. Kept by hand: `==` of slices calls a search by groups, 13 % more instructions a line.
pub fn is_name(word: &[u8], name: &[u8]) -> bool
    ensures { result ≡ same word.now name.now }
{
    if word.len() != name.len() {
        return false;
    }
    for i in 0..name.len() {
        if word[i] != name[i] {
            return false;
        }
    }
    true
}

// Whether there is nothing but spaces and tabs.
pub fn only_blanks(rest: &[u8]) -> bool
    ensures { result ≡ all is_blank rest.now }
{
    after_blanks(rest, 0) == rest.len()
}

// What a name is followed by, without the spaces and tabs around it.
pub fn argument(rest: &[u8]) -> &[u8]
    ensures { result.now ≡ argument rest.now }
{
    let from = after_blanks(rest, 0);
    let tail = &rest[from..];
    let end = trimmed_end(tail);
    &tail[..end]
}

// What a line tells whose one name has nothing after it.
pub fn bare_name(word: &[u8], name: &[u8], rest: &[u8], told: Line) -> Result<Line, TextFault>
    ensures { result ≡ bare_line word.now name.now rest.now told }
{
    if !is_name(word, name) {
        return Err(TextFault::NoSuchName);
    }
    if !only_blanks(rest) {
        return Err(TextFault::BadRest);
    }
    Ok(told)
}
