// The word of a cell of the table. Nothing else puts a word together.
ghost use Rattle.std.specs.Prelude.{◌≡◌, ◌+◌, ◌*◌, ◌%◌, ◌<◌};
ghost use Rattle.language.specs.Cell.{bit, span_number, clock_number, coded};

use crate::KIND;
use language::{Cell, Clock, Level, Span};

fn word(kind: u32, argument: u32) -> u32
    requires { kind < 16 }
    ensures { result ≡ kind * 67108864 + argument % 67108864 }
{
    kind * KIND + argument % KIND
}

#[tactic(auto, unfolding(language::specs::Cell::span_number))]
fn span_number(s: Span) -> u32
    ensures { result ≡ span_number s }
{
    u32::from(s.from) * 128 + u32::from(s.count)
}

#[tactic(auto, unfolding(language::specs::Cell::clock_number))]
fn clock_number(c: Clock) -> u32
    ensures { result ≡ clock_number c }
{
    let minutes = u32::from(c.minute) * 64 + u32::from(c.second);
    let hours = u32::from(c.hour) * 4096 + minutes;
    let days = u32::from(c.day) * 131072 + hours;
    u32::from(c.fixed) * 4194304 + days
}

fn signal_number(l: Level) -> u32
    ensures { result ≡ l.signal * 2 + bit l.on }
{
    u32::from(l.signal) * 2 + u32::from(l.on)
}

// The word of a cell.
#[tactic(auto, unfolding(language::specs::Cell::coded))]
pub fn code(c: Cell) -> u32
    ensures { result ≡ coded c }
{
    match c {
        Cell::Nothing => word(0, 0),
        Cell::Send(s) => word(1, span_number(s)),
        Cell::Loop(n) => word(2, u32::from(n)),
        Cell::End => word(3, 0),
        Cell::WaitTime(n) => word(4, n),
        Cell::WaitData(s) => word(5, span_number(s)),
        Cell::WaitByte(n) => word(6, u32::from(n)),
        Cell::WaitClock(c) => word(7, clock_number(c)),
        Cell::WaitSignal(l) => word(8, signal_number(l)),
        Cell::Rts(on) => word(9, u32::from(on)),
        Cell::Log(s) => word(10, span_number(s)),
        Cell::Fchange => word(11, 0),
        Cell::Pause => word(12, 0),
        Cell::Resume => word(13, 0),
        Cell::Nop => word(14, 0),
        Cell::Unknown => word(15, 0),
    }
}
