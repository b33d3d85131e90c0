// Where in a line a bad rest goes wrong: how many of its bytes can be taken.
#![tactic(auto)]

ghost use Rattle.std.specs.Prelude.{◌≡◌};
ghost use Rattle.language.specs.Column.{line_taken};

use crate::names::behind_name;
use crate::texts::hex_taken;
use words::word_end;

mod arguments;
mod names;
mod taken;
mod texts;

/// How many bytes of a line can be taken whose rest is wrong: the column is one more.
pub fn line_taken(line: &[u8]) -> usize
    ensures { result ≡ line_taken line.now }
{
    if line.len() == 0 {
        return 0;
    }
    if line[0] == b':' {
        return hex_taken(line, 1);
    }
    let to = word_end(line, 0);
    behind_name(line, to)
}
