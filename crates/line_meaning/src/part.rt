// A part of a line, which is no longer than a line.
ghost use Rattle.std.specs.Prelude.{◌≤◌, ◌≡◌, length, drop};
ghost use Rattle.words.specs.Words.{skip, argument, word_of, after_word};
ghost use Rattle.language.specs.Limits.{line_limit};

use line_values::parts;
use words::{after_blanks, word_end};

#[derive(Clone, Copy)]
pub(crate) struct Part<'a> {
    pub(crate) bytes: &'a [u8],
    ghost fits: { length bytes.now ≤ line_limit },
}

impl<'a> Part<'a> {
    // What stands from a place on.
    pub(crate) fn after(self, from: usize) -> Part<'a>
        requires { from ≤ length self.bytes.now }
        ensures { result.bytes.now ≡ drop from self.entry.bytes.now }
    {
        let bytes = &self.bytes[from..];
        Part { bytes }
    }

    // Without the spaces and tabs at its front.
    pub(crate) fn skip(self) -> Part<'a>
        ensures { result.bytes.now ≡ skip self.entry.bytes.now }
    {
        self.after(after_blanks(self.bytes, 0))
    }

    // Without the spaces and tabs around it.
    pub(crate) fn argument(self) -> &'a [u8]
        ensures { result.now ≡ argument self.entry.bytes.now }
    {
        parts::argument(self.bytes)
    }

    // Its first word, and what follows that.
    pub(crate) fn cut(self) -> (&'a [u8], Part<'a>)
        ensures word { result.0.now ≡ word_of self.entry.bytes.now }
        ensures rest { result.1.bytes.now ≡ after_word self.entry.bytes.now }
    {
        let end = word_end(self.bytes, 0);
        let word = &self.bytes[..end];
        (word, self.after(end))
    }
}
