// WAIT CLOCK: a unit, and two digits for it and each shorter one.
ghost use Rattle.std.specs.Prelude.{◌≤◌, ◌≡◌, drop};
ghost use Rattle.language.specs.Clock.{range, day_on, fill, from, clock_of};
ghost use Rattle.language.specs.Meaning.{clock_says};
ghost use Rattle.line_values.specs.Inside.Line.{line_from};
ghost use Rattle.line_values.specs.Inside.ClockUnits.{unit_at, clock_read};

use crate::Line;
use language::{Cell, Clock, TextFault};
use numbers::decimal::pair;

// How many units there are: day, hour, minute and second, the longest first.
const UNITS: usize = 4;

// The least and the largest value of each.
const RANGES: [(u8, u8); UNITS] = [(1, 31), (0, 23), (0, 59), (0, 59)];

// The value of a unit from a place on, 0 where it is left out; or the place of the first byte that cannot be taken.
fn unit(digits: &[u8], at: usize, low: u8, high: u8) -> Result<u8, usize>
    ensures { result ≡ unit_at (range low high) (drop at digits.now) at }
{
    if digits.len() <= at {
        return Ok(0);
    }
    let read = pair(digits, at, low, high)?;
    Ok(read.value as u8)
}

// The values of the unit `first` and of each shorter one, with nothing after them.
fn units(digits: &[u8], start: usize, first: usize) -> Result<Clock, usize>
    requires early { start ≤ 1 }
    requires unit { first ≤ 4 }
    ensures { result ≡ clock_read (fill (drop first day_on) (drop start digits.now) start) }
{
    let mut values = [0u8; UNITS];
    let mut at = start;
    // By its number: two arrays are read and written at once from `first` on, and a zip of them would count `at` as well, no plainer.
    for i in first..UNITS {
        let (low, high) = RANGES[i];
        values[i] = unit(digits, at, low, high)?;
        at += 2;
    }
    if at < digits.len() {
        return Err(at);
    }
    Ok(Clock {
        fixed: (UNITS - first) as u8,
        day: values[0],
        hour: values[1],
        minute: values[2],
        second: values[3],
    })
}

// The values from the unit `first` on: with no digits that unit matches all too.
fn fixed_from(digits: &[u8], start: usize, first: usize) -> Result<Clock, usize>
    requires early { start ≤ 1 }
    requires unit { first ≤ 3 }
    ensures { result ≡ clock_read (from (drop first day_on) (drop start digits.now) start) }
{
    if digits.len() <= start {
        return units(digits, start, first + 1);
    }
    units(digits, start, first)
}

// The unit, D, h, m or s, and the digits; or the place of the first byte that cannot be taken, counted from the argument's first.
// By the first byte: a slice pattern would bind a rest that no arm uses, since places count from the whole, no plainer.
pub fn clock_value(argument: &[u8]) -> Result<Clock, usize>
    ensures { result ≡ clock_read (clock_of argument.now) }
{
    if argument.len() == 0 {
        return fixed_from(argument, 0, 1);
    }
    match argument[0] {
        b'D' => fixed_from(argument, 1, 0),
        b'h' => fixed_from(argument, 1, 1),
        b'm' => fixed_from(argument, 1, 2),
        b's' => fixed_from(argument, 1, 3),
        _ => fixed_from(argument, 0, 1),
    }
}

// WAIT CLOCK: what its value says.
pub fn wait_clock(argument: &[u8]) -> Result<Line, TextFault>
    ensures { result ≡ line_from (clock_says (clock_of argument.now)) }
{
    // A match: `map_err` was tried, and its answers read the fault through the contract of the closure, which is no plainer.
    match clock_value(argument) {
        Ok(value) => Ok(Line::Says(Cell::WaitClock(value))),
        Err(_) => Err(TextFault::BadRest),
    }
}
