// The words that a program is given after its name.
ghost use Rattle.std.specs.Prelude.{◌≤◌, length, IfSome};

use std::env::FillError;
use std::rt::Env;

// A longer word is not read: std fills a buffer that it is lent, and asking for words must not fail for memory.
pub const WORD: usize = 4096;

// What they ask for. Three ways that a program parts by one match: a Result of an Option would be no plainer.
#[derive(Clone, Copy)]
pub enum Given {
    // `--help`.
    Help,
    // An option that is not known, or a word that is too long to be read.
    Mistaken,
    // So many words, the program's own name among them.
    Words(usize),
}

// The word at a place, lent from a buffer; None where there is none or it does not fit.
pub fn word(rt: HostRuntime, i: usize, buffer: &mut [u8]) -> Option<&[u8]>
    ensures { IfSome result (λ word. length word.now ≤ length buffer.old) }
{
    match rt.arg(i, buffer) {
        Ok(n) => Some(&buffer[..n]),
        Err(_) => None,
    }
}

// Whether a word is whole and no option: what begins with `-` is one.
fn is_plain(rt: HostRuntime, i: usize) -> bool {
    let mut buffer = [0u8; WORD];
    word(rt, i, &mut buffer).is_some_and(|word| !word.starts_with(b"-"))
}

// Whether there is a word at a place, and it is this one.
pub fn is_word(rt: HostRuntime, i: usize, name: &[u8]) -> bool {
    let mut buffer = [0u8; WORD];
    word(rt, i, &mut buffer) == Some(name)
}

fn is_missing(rt: HostRuntime, i: usize) -> bool {
    let mut buffer = [0u8; WORD];
    matches!(rt.arg(i, &mut buffer), Err(FillError::NotPresent))
}

// How many words there are, the program's own name among them.
fn word_count(rt: HostRuntime) -> usize {
    (0..usize::MAX)
        .find(|i| is_missing(rt, *i))
        .unwrap_or(usize::MAX)
}

// What the words ask for, of which those from a place on may be no options.
pub fn asked(rt: HostRuntime, from: usize) -> Given {
    let count = word_count(rt);
    if is_word(rt, 1, b"--help") {
        return Given::Help;
    }
    if (from..count).all(|i| is_plain(rt, i)) {
        return Given::Words(count);
    }
    Given::Mistaken
}
