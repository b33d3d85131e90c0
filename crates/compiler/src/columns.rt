// The column of a fault in the line that it was found at.
ghost use Rattle.std.specs.Prelude.{◌≡◌, ◌≤◌, length};
ghost use Rattle.language.specs.Answer.{refusal_of};
ghost use Rattle.language.specs.Column.{column_in};
ghost use Rattle.language.specs.Limits.{line_limit};

use crate::drafting::Stop;
use language::{LINE, Refusal, TextFault};
use line_column::line_taken;

// "128 for 1": the first byte that is too much.
const OVERLONG: u32 = LINE as u32 + 1;

// The column of a fault that was found at a line. Only a line of at most 127 bytes can have a bad rest.
fn column_in(line: &[u8], fault: TextFault) -> u32
    requires { fault ≡ TextFault.BadRest → length line.now ≤ line_limit }
    ensures { result ≡ column_in line.now fault }
{
    match fault {
        TextFault::LineTooLong => OVERLONG,
        TextFault::BadRest => line_taken(line) as u32 + 1,
        TextFault::TextTooLong | TextFault::StretchTooLong => 0,
        _ => 1,
    }
}

impl Stop {
    /// The refusal of a fault, with its column in the line that it was found at; of the text as a whole, at no line's bytes.
    pub(crate) fn at(self, line: &[u8]) -> Refusal
        requires { self.fault ≡ TextFault.BadRest → length line.now ≤ line_limit }
        ensures { result ≡ refusal_of self.fault self.row (column_in line.now self.fault) }
    {
        Refusal {
            fault: self.fault,
            line: self.row,
            column: column_in(line, self.fault),
        }
    }
}
