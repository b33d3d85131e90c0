// Lines with data: text as it stands, hex data, and LOG's text with its signs.
ghost use Rattle.std.specs.Prelude.{◌≡◌, length};
ghost use Rattle.std.proofs.lemmas.List.Edits.{sets};
ghost use Rattle.words.specs.Words.{skip};
ghost use Rattle.hex_data.specs.Hex.{hex_at};
ghost use Rattle.language.specs.Script.{send, says};
ghost use Rattle.language.specs.Meaning.{send_says, marked_data, data_says, omit_says, log_of};
ghost use Rattle.line_meaning.specs.Inside.Reading.{ReadsLine, ReadsData};

use crate::Data;
use crate::part::Part;
use hex_data::hex_into;
use language::signs::right_signs;
use language::{Cell, Span, TextFault};
use line_values::Line;
use writer::put_bytes;

// Puts text into the lent bytes as it stands.
fn put_text(text: Part, bytes: &mut Data) -> u16
    ensures { (result ≡ length text.entry.bytes.now)
        × (bytes.new ≡ sets bytes.old 0 text.entry.bytes.now) }
{
    put_bytes(bytes, 0, text.bytes);
    text.bytes.len() as u16
}

// Reads hex data into the lent bytes, all of it or none: how many bytes they are.
fn read_hex(text: Part, bytes: &mut Data) -> Result<u16, TextFault>
    ensures { ReadsData (hex_at text.entry.bytes.now 0) result bytes.old bytes.new }
{
    // A match: its answers would read the fault through a closure's contract (tried at `wait_clock` of line_values), no plainer.
    match hex_into(text.bytes, 0, bytes, 0) {
        Ok(n) => Ok(n as u16),
        Err(_) => Err(TextFault::BadRest),
    }
}

// Reads data after its mark: `/` and text, or `:` and hex data.
// Tests and no slice patterns: the rest of a pattern would have to be made a Part again, no plainer.
fn read_marked(rest: Part, bytes: &mut Data) -> Result<u16, TextFault>
    ensures { ReadsData (marked_data rest.entry.bytes.now) result bytes.old bytes.new }
{
    if rest.bytes.len() == 0 {
        return Err(TextFault::BadRest);
    }
    let mark = rest.bytes[0];
    if mark == b'/' {
        return Ok(put_text(rest.after(1), bytes));
    }
    if mark == b':' {
        return read_hex(rest.after(1), bytes);
    }
    Err(TextFault::BadRest)
}

// A line that sends text.
pub(crate) fn send_text(text: Part, bytes: &mut Data) -> Result<Line, TextFault>
    ensures { ReadsLine (says (send text.entry.bytes.now)) result bytes.old bytes.new }
{
    let count = put_text(text, bytes);
    Ok(Line::Says(Cell::Send(Span { from: 0, count })))
}

// A line that sends hex bytes.
pub(crate) fn send_hex(text: Part, bytes: &mut Data) -> Result<Line, TextFault>
    ensures { ReadsLine (send_says (hex_at text.entry.bytes.now 0)) result bytes.old bytes.new }
{
    let count = read_hex(text, bytes)?;
    Ok(Line::Says(Cell::Send(Span { from: 0, count })))
}

// WAIT DATA: marked data, not empty.
pub(crate) fn wait_data(rest: Part, bytes: &mut Data) -> Result<Line, TextFault>
    ensures { ReadsLine (data_says (marked_data (skip rest.entry.bytes.now))) result bytes.old
        bytes.new }
{
    let count = read_marked(rest.skip(), bytes)?;
    if count == 0 {
        return Err(TextFault::BadRest);
    }
    Ok(Line::Says(Cell::WaitData(Span { from: 0, count })))
}

// OMIT: marked data.
pub(crate) fn omit(rest: Part, bytes: &mut Data) -> Result<Line, TextFault>
    ensures { ReadsLine (omit_says (marked_data (skip rest.entry.bytes.now))) result bytes.old
        bytes.new }
{
    let count = read_marked(rest.skip(), bytes)?;
    Ok(Line::Omit(count as u8))
}

// LOG: one space and text, or nothing.
pub(crate) fn log(rest: Part, bytes: &mut Data) -> Result<Line, TextFault>
    ensures { ReadsLine (log_of rest.entry.bytes.now) result bytes.old bytes.new }
{
    if rest.bytes.len() == 0 {
        return Ok(Line::Says(Cell::Log(Span { from: 0, count: 0 })));
    }
    if rest.bytes[0] != b' ' {
        return Err(TextFault::BadRest);
    }
    let text = rest.after(1);
    if right_signs(text.bytes) {
        let count = put_text(text, bytes);
        return Ok(Line::Says(Cell::Log(Span { from: 0, count })));
    }
    Err(TextFault::BadRest)
}
