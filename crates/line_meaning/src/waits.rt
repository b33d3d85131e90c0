// What WAIT waits for, parted by the length of the second word.
ghost use Rattle.words.specs.Words.{skip};
ghost use Rattle.language.specs.Meaning.{lookup, waits, wait_of};
ghost use Rattle.line_meaning.specs.Inside.Reading.{ReadsLine};
ghost use Rattle.line_meaning.specs.Inside.Names.{waits_long};

use crate::Data;
use crate::naming::{of_five, of_six};
use crate::part::Part;
use crate::texts::wait_data;
use language::TextFault;
use line_values::Line;
use line_values::parts::is_name;
use line_values::times::{wait_byte, wait_time};

// TIME, DATA and BYTE. A test a name: see names.rt.
fn of_four(word: &[u8], rest: Part, bytes: &mut Data) -> Result<Line, TextFault>
    ensures { ReadsLine (lookup (waits_long 4) word.now rest.entry.bytes.now) result bytes.old
        bytes.new }
{
    if is_name(word, b"TIME") {
        return wait_time(rest.argument());
    }
    if is_name(word, b"DATA") {
        return wait_data(rest, bytes);
    }
    if is_name(word, b"BYTE") {
        return wait_byte(rest.argument());
    }
    Err(TextFault::NoSuchName)
}

// The line of a second word, parted by its length.
fn by_second(word: &[u8], rest: Part, bytes: &mut Data) -> Result<Line, TextFault>
    ensures { ReadsLine (lookup waits word.now rest.entry.bytes.now) result bytes.old
        bytes.new }
{
    if word.len() == 4 {
        return of_four(word, rest, bytes);
    }
    if word.len() == 5 {
        return of_five(word, rest.bytes);
    }
    if word.len() == 6 {
        return of_six(word, rest.bytes);
    }
    Err(TextFault::NoSuchName)
}

// WAIT: its second word, and what follows it.
pub(crate) fn wait(rest: Part, bytes: &mut Data) -> Result<Line, TextFault>
    ensures { ReadsLine (wait_of (skip rest.entry.bytes.now)) result bytes.old bytes.new }
{
    let (word, after) = rest.skip().cut();
    by_second(word, after, bytes)
}
