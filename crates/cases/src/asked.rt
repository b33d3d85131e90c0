// What a line asks of a reader or a writer: what is called begins it; then come the text in brackets, and numbers.
use console::parts::{first, place_of, rest_from};
use numbers::decimal::number;
use words::word_end;

// The largest place there is: it stands for every number of the line over 4,294,967,295, and for one that is missing.
// No Option: what the cases print of such places may not change.
const FAR: usize = usize::MAX;

#[derive(Clone, Copy)]
pub struct Asked<'a> {
    line: &'a [u8],
    // What follows the first text in brackets, up to where numbers are read.
    rest: &'a [u8],
}

// The first text in brackets.
fn bracketed(line: &[u8]) -> Option<&[u8]> {
    let open = line.iter().position(|b| *b == b'[')?;
    let text = rest_from(line, open + 1);
    Some(first(text, place_of(text, 0, b']')))
}

impl<'a> Asked<'a> {
    pub(crate) fn new(line: &'a [u8]) -> Asked<'a> {
        let close = line.iter().position(|b| *b == b']').unwrap_or(0);
        Asked {
            line,
            rest: rest_from(line, close),
        }
    }

    pub(crate) fn calls(&self, name: &[u8]) -> bool {
        self.line.starts_with(name)
    }

    // The text in brackets; the line, if it has none.
    pub(crate) fn text(&self) -> &'a [u8] {
        bracketed(self.line).unwrap_or(self.line)
    }

    // The text in brackets behind the first one.
    pub(crate) fn second_text(&self) -> &'a [u8] {
        bracketed(self.rest).unwrap_or(self.line)
    }

    // The next number; what follows its word is read after it.
    pub(crate) fn place(&mut self) -> usize {
        let Some(at) = self.rest.iter().position(u8::is_ascii_digit) else {
            return FAR;
        };
        let word = rest_from(self.rest, at);
        self.rest = rest_from(word, word_end(word, 0));
        number(word, 0, 10, u32::MAX).map_or(FAR, |n| n.value as usize)
    }

    // In a smaller type one that does not fit becomes the largest that does.
    pub(crate) fn word(&mut self) -> u32 {
        u32::try_from(self.place()).unwrap_or(u32::MAX)
    }

    pub(crate) fn byte(&mut self) -> u8 {
        u8::try_from(self.place()).unwrap_or(u8::MAX)
    }
}
