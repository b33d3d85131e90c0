// LOOP, WAIT BYTE and WAIT TIME: a number, with a unit for a time.
ghost use Rattle.std.specs.Prelude.{◌≤◌, ◌≡◌};
ghost use Rattle.numbers.specs.Number.{number_at};
ghost use Rattle.language.specs.Meaning.{loop_of, byte_of, time_in, time_of};
ghost use Rattle.line_values.specs.Inside.Line.{line_from};
ghost use Rattle.line_values.specs.Inside.WholeNumber.{whole};

use crate::Line;
use crate::parts::is_name;
use language::{Cell, TextFault};
use numbers::decimal::number;

// "0 to 60000": the largest number of a line.
pub const MOST: u32 = 60000;

// "One to five decimal digits".
pub const DIGITS: usize = 5;

// A number with nothing after it.
fn whole_number(argument: &[u8]) -> Result<u16, TextFault>
    ensures { result ≡ whole argument.now (number_at 5 60000 argument.now 0) }
{
    match number(argument, 0, DIGITS, MOST) {
        Ok(read) if read.next == argument.len() => Ok(read.value as u16),
        _ => Err(TextFault::BadRest),
    }
}

// LOOP: how often, 0 is forever.
pub fn loop_count(argument: &[u8]) -> Result<Line, TextFault>
    ensures { result ≡ line_from (loop_of argument.now) }
{
    if argument.len() == 0 || is_name(argument, b"EVER") {
        return Ok(Line::Says(Cell::Loop(0)));
    }
    let times = whole_number(argument)?;
    Ok(Line::Says(Cell::Loop(times)))
}

// WAIT BYTE: how many bytes.
pub fn wait_byte(argument: &[u8]) -> Result<Line, TextFault>
    ensures { result ≡ line_from (byte_of argument.now) }
{
    if argument.len() == 0 {
        return Ok(Line::Says(Cell::WaitByte(1)));
    }
    let count = whole_number(argument)?;
    Ok(Line::Says(Cell::WaitByte(count)))
}

// A time of so many of a unit. A test a name: see names.rt of line_meaning.
fn time_in(unit: &[u8], v: u32) -> Result<Line, TextFault>
    requires { v ≤ 60000 }
    ensures { result ≡ line_from (time_in unit.now v) }
{
    if is_name(unit, b"MS") {
        return Ok(Line::Says(Cell::WaitTime(v)));
    }
    if unit.len() == 0 || is_name(unit, b"S") {
        return Ok(Line::Says(Cell::WaitTime(v * 1000)));
    }
    if is_name(unit, b"M") && v <= 999 {
        return Ok(Line::Says(Cell::WaitTime(v * 60000)));
    }
    Err(TextFault::BadRest)
}

// WAIT TIME: a number and a unit that touch.
pub fn wait_time(argument: &[u8]) -> Result<Line, TextFault>
    ensures { result ≡ line_from (time_of argument.now) }
{
    match number(argument, 0, DIGITS, MOST) {
        Ok(read) => time_in(&argument[read.next..], read.value),
        Err(0) => time_in(argument, 1),
        Err(_) => Err(TextFault::BadRest),
    }
}
