// The names that a line begins with, parted by their second byte, and those of f: lines by their length. A test a name, since a
// `match` on byte strings is a goal for each byte that can differ (ten for three names).
ghost use Rattle.language.specs.Meaning.{lookup, names, named};
ghost use Rattle.line_meaning.specs.Inside.Reading.{ReadsLine};
ghost use Rattle.line_meaning.specs.Inside.Names.{names_with};

use crate::Data;
use crate::naming::{only_ex, pause_or_process, rts_or_resume};
use crate::part::Part;
use crate::texts::{log, omit};
use crate::waits::wait;
use language::{Cell, TextFault};
use line_values::Line;
use line_values::parts::{bare_name, is_name};
use line_values::settings::{encode, lfext, stopbits};
use line_values::times::loop_count;

// LOOP and LOG.
fn loop_or_log(word: &[u8], rest: Part, bytes: &mut Data) -> Result<Line, TextFault>
    ensures { ReadsLine (lookup (names_with 76) word.now rest.entry.bytes.now) result bytes.old
        bytes.new }
{
    if is_name(word, b"#LOOP") {
        return loop_count(rest.argument());
    }
    if is_name(word, b"#LOG") {
        return log(rest, bytes);
    }
    Err(TextFault::NoSuchName)
}

// WAIT.
fn only_wait(word: &[u8], rest: Part, bytes: &mut Data) -> Result<Line, TextFault>
    ensures { ReadsLine (lookup (names_with 87) word.now rest.entry.bytes.now) result bytes.old
        bytes.new }
{
    if is_name(word, b"#WAIT") {
        return wait(rest, bytes);
    }
    Err(TextFault::NoSuchName)
}

// The f: lines.
fn setting(word: &[u8], rest: Part, bytes: &mut Data) -> Result<Line, TextFault>
    ensures { ReadsLine (lookup (names_with 102) word.now rest.entry.bytes.now) result bytes.old
        bytes.new }
{
    if word.len() == 6 {
        return only_ex(word, rest.bytes);
    }
    if is_name(word, b"#f:OMIT") {
        return omit(rest, bytes);
    }
    if is_name(word, b"#f:LFEXT") {
        return lfext(rest.argument());
    }
    if is_name(word, b"#f:ENCODE") {
        return encode(rest.argument());
    }
    if is_name(word, b"#f:STOPBITS") {
        return Ok(stopbits(rest.argument()));
    }
    Err(TextFault::NoSuchName)
}

// The line of a name, parted by its second byte.
fn by_name(word: &[u8], rest: Part, bytes: &mut Data) -> Result<Line, TextFault>
    ensures { ReadsLine (lookup names word.now rest.entry.bytes.now) result bytes.old
        bytes.new }
{
    if word.len() < 2 {
        return Err(TextFault::NoSuchName);
    }
    match word[1] {
        b'L' => loop_or_log(word, rest, bytes),
        b'E' => bare_name(word, b"#END", rest.bytes, Line::Says(Cell::End)),
        b'W' => only_wait(word, rest, bytes),
        b'R' => rts_or_resume(word, rest.bytes),
        b'F' => bare_name(word, b"#FCHANGE", rest.bytes, Line::Says(Cell::Fchange)),
        b'P' => pause_or_process(word, rest.bytes),
        b'N' => bare_name(word, b"#NOP", rest.bytes, Line::Says(Cell::Nop)),
        b'f' => setting(word, rest, bytes),
        _ => Err(TextFault::NoSuchName),
    }
}

// A line that begins with `#`: its first word, and what follows it.
pub(crate) fn named(line: Part, bytes: &mut Data) -> Result<Line, TextFault>
    ensures { ReadsLine (named line.entry.bytes.now) result bytes.old bytes.new }
{
    let (word, rest) = line.cut();
    by_name(word, rest, bytes)
}
