// Text to table: a text that is too long is refused, and any other taken line by line.
#![tactic(auto)]

ghost use Rattle.std.specs.Prelude.{◌≡◌};
ghost use Rattle.language.specs.Answer.{compiled};

use crate::drafting::{Drafting, refused};
use language::Compiled;

mod columns;
mod drafting;
pub mod faults;
mod feeds;
mod lines;
mod needs;
mod steps;

/// The table of a script, with the largest stretch of any process; or the first fault, with the line that it names and the column.
pub fn compile(text: &[u8]) -> Compiled
    ensures { result ≡ compiled text.now }
{
    let mut draft = Drafting::new();
    match draft.take_text(text) {
        Ok(stretch) => Compiled {
            answer: Ok(stretch),
            table: draft.table,
        },
        Err(refusal) => refused(refusal),
    }
}
