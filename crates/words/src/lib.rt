// Words, parted by spaces and tabs. A slice and a place in it go together: the public parameters may not change.
#![tactic(auto)]

ghost use Rattle.std.specs.Prelude.{◌≡◌, ◌+◌, ◌^◌, ◌<◌, not, length, drop, take_while, reverse};
ghost use Rattle.reader.specs.Bytes.{is_blank};
ghost use Rattle.words.specs.Words.{after_blanks, word_end, trimmed_end, is_named};

use reader::bytes::blank;

// The bytes from a place on, none where it lies past the end.
fn rest(s: &[u8], at: usize) -> &[u8]
    ensures there { result.now ≡ drop at s.now }
    ensures fits { at + length result.now < 2 ^ 64 }
{
    match s.get(at..) {
        Some(bytes) => bytes,
        None => &[],
    }
}

// Three lines that differ in what they count: over a closure handed in each contract would name it again, no plainer.

// How many spaces and tabs are at the front.
fn blanks(s: &[u8]) -> usize
    ensures { result ≡ length (take_while is_blank s.now) }
{
    s.iter().take_while(|b| blank(**b)).count()
}

// How many bytes are before the first space or tab.
fn word(s: &[u8]) -> usize
    ensures { result ≡ length (take_while (λ b. not (is_blank b)) s.now) }
{
    s.iter().take_while(|b| !blank(**b)).count()
}

// How many spaces and tabs are at the end.
fn last_blanks(s: &[u8]) -> usize
    ensures { result ≡ length (take_while is_blank (reverse s.now)) }
{
    s.iter().rev().take_while(|b| blank(**b)).count()
}

// The place of the first byte from `at` on that is no space or tab.
pub fn after_blanks(s: &[u8], at: usize) -> usize
    ensures { result ≡ after_blanks s.now at }
{
    at + blanks(rest(s, at))
}

// The place where the word at `at` ends.
pub fn word_end(s: &[u8], at: usize) -> usize
    ensures { result ≡ word_end s.now at }
{
    at + word(rest(s, at))
}

// The end of a line without the spaces and tabs at its end.
pub fn trimmed_end(s: &[u8]) -> usize
    ensures { result ≡ trimmed_end s.now }
{
    s.len() - last_blanks(s)
}

// Whether the bytes from one place to another are this name.
pub fn is_named(s: &[u8], from: usize, to: usize, name: &[u8]) -> bool
    ensures { result ≡ is_named s.now from to name.now }
{
    match s.get(from..to.min(s.len())) {
        Some(word) => word == name,
        None => name.is_empty(),
    }
}
