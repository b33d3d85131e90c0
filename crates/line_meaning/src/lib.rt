// What a line says, read in code: its first byte, its name, and its data in a lent buffer.
#![tactic(auto)]

ghost use Rattle.std.specs.Prelude.{◌≡◌};
ghost use Rattle.std.proofs.lemmas.List.Edits.{sets};
ghost use Rattle.line_meaning.specs.Inside.Line.{line_of, line_data};

use crate::part::Part;
use language::{LINE, TextFault};
use line_values::Line;
use line_values::parts::only_blanks;

mod names;
mod naming;
mod part;
mod texts;
mod waits;

// "At most 127 per line": a lent buffer of this many bytes holds the data of any line.
pub const ROOM: usize = LINE + 1;

// No heap: the count of the bytes in use goes with the line's meaning.
pub type Data = [u8; ROOM];

// Reads one line, without its LF and CR: what it means, and its data at the front of `bytes`.
pub fn read_line(line: &[u8], bytes: &mut Data) -> Result<Line, TextFault>
    ensures { (result ≡ line_of line.now)
        × (bytes.new ≡ sets bytes.old 0 (line_data line.now)) }
{
    if LINE < line.len() {
        return Err(TextFault::LineTooLong);
    }
    match line {
        [] => Ok(Line::Blank),
        [b';', ..] => Ok(Line::Comment),
        [b'#', ..] => names::named(Part { bytes: line }, bytes),
        [b'/', text @ ..] => texts::send_text(Part { bytes: text }, bytes),
        [b':', text @ ..] => texts::send_hex(Part { bytes: text }, bytes),
        _ if only_blanks(line) => Ok(Line::Blank),
        _ => Err(TextFault::NoSuchName),
    }
}
