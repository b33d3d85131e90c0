// The cell of a word of the table. Nothing else takes a word apart.
ghost use Rattle.std.specs.Prelude.{◌≡◌, ◌/◌, ◌%◌, ◌<◌, ltb, leb, eqb, get_or};
ghost use Rattle.std.specs.Bool.{then_some};
ghost use Rattle.std.specs.Option.{unwrap_or};
ghost use Rattle.language.specs.Clock.{range};
ghost use Rattle.language.specs.Right.{time_right};
ghost use Rattle.language.specs.Cell.{level, span_right, unit_right, fixed_right, span_of, clock_of_number, cell_of, decoded};

use crate::KIND;
use language::{Cell, Cells, Clock, LOG_ROOM, Level, POOL_PLACES, SEND_ROOM, Span, WAIT_ROOM};

// The limits that a word is held against, as wide as a word.
const POOL: u32 = POOL_PLACES as u32;

const SEND: u32 = SEND_ROOM as u32;

const WAIT: u32 = WAIT_ROOM as u32;

const LOG: u32 = LOG_ROOM as u32;

// ---- the arguments that a line can have

// Data within the pool, of as many bytes as a line can have.
// No then_some here and in count and signal: it was tried, and each cast, made before the test, asked a bound of its own.
#[tactic(auto, unfolding(language::specs::Cell::span_right))]
fn data(argument: u32, low: u32, high: u32) -> Option<Span>
    ensures { result ≡ then_some (span_right low high (span_of argument)) (span_of argument) }
{
    let from = argument / 128;
    let count = argument % 128;
    if low <= count && count <= high && from + count <= POOL {
        let from = from as u16;
        let count = count as u16;
        return Some(Span { from, count });
    }
    None
}

// A count of passes or of bytes; an `if`, as in data.
fn count(argument: u32) -> Option<u16>
    ensures { result ≡ then_some (leb argument 60000) argument }
{
    if argument <= 60000 {
        Some(argument as u16)
    } else {
        None
    }
}

// Up to 60,000 ms, or whole seconds up to 60,000.
#[tactic(auto, unfolding(language::specs::Right::time_right))]
fn is_time(argument: u32) -> bool
    ensures { result ≡ time_right argument }
{
    argument <= 60000 || argument % 1000 == 0 && argument <= 60000000
}

// A unit that is fixed is in its range, any other is 0.
// A flag beside its value, as the definition unit_right has them, which may not change.
#[tactic(auto, unfolding(language::specs::Cell::unit_right, language::specs::Clock::within))]
fn unit_right(fixed: bool, low: u8, high: u8, value: u8) -> bool
    ensures { result ≡ unit_right fixed (range low high) value }
{
    if fixed {
        low <= value && value <= high
    } else {
        value == 0
    }
}

#[tactic(auto, unfolding(language::specs::Cell::fixed_right))]
fn fixed_right(c: Clock) -> bool
    ensures { result ≡ fixed_right c }
{
    c.fixed <= 4
        && unit_right(4 <= c.fixed, 1, 31, c.day)
        && unit_right(3 <= c.fixed, 0, 23, c.hour)
        && unit_right(2 <= c.fixed, 0, 59, c.minute)
        && unit_right(1 <= c.fixed, 0, 59, c.second)
}

fn clock(argument: u32) -> Option<Clock>
    requires { argument < 67108864 }
    ensures { result ≡ then_some (fixed_right (clock_of_number argument)) (clock_of_number argument) }
{
    let c = Clock {
        fixed: (argument / 4194304) as u8,
        day: (argument / 131072 % 32) as u8,
        hour: (argument / 4096 % 32) as u8,
        minute: (argument / 64 % 64) as u8,
        second: (argument % 64) as u8,
    };
    fixed_right(c).then_some(c)
}

// A signal and a level; an `if`, as in data.
fn signal(argument: u32) -> Option<Level>
    ensures { result ≡ then_some (ltb argument 10) (level (argument / 2) (eqb (argument % 2) 1)) }
{
    if argument < 10 {
        let signal = (argument / 2) as u8;
        let on = argument % 2 == 1;
        return Some(Level { signal, on });
    }
    None
}

// ---- the cells

// The cell of a kind and an argument, where a line has such a cell.
#[tactic(auto, unfolding(language::specs::Cell::cell_of))]
fn cell_of(kind: u32, argument: u32) -> Option<Cell>
    requires { argument < 67108864 }
    ensures { unwrap_or result Cell.Unknown ≡ cell_of kind argument }
{
    let bare = argument == 0;
    match kind {
        0 => bare.then_some(Cell::Nothing),
        1 => data(argument, 0, SEND).map(Cell::Send),
        2 => count(argument).map(Cell::Loop),
        3 => bare.then_some(Cell::End),
        4 => is_time(argument).then_some(Cell::WaitTime(argument)),
        5 => data(argument, 1, WAIT).map(Cell::WaitData),
        6 => count(argument).map(Cell::WaitByte),
        7 => clock(argument).map(Cell::WaitClock),
        8 => signal(argument).map(Cell::WaitSignal),
        9 => (argument < 2).then_some(Cell::Rts(argument == 1)),
        10 => data(argument, 0, LOG).map(Cell::Log),
        11 => bare.then_some(Cell::Fchange),
        12 => bare.then_some(Cell::Pause),
        13 => bare.then_some(Cell::Resume),
        14 => bare.then_some(Cell::Nop),
        _ => None,
    }
}

// The cell of a word; Unknown where no line has such a cell.
#[tactic(auto, unfolding(language::specs::Cell::decoded))]
pub fn decode(w: u32) -> Cell
    ensures { result ≡ decoded w }
{
    cell_of(w / KIND, w % KIND).unwrap_or(Cell::Unknown)
}

// The cell at a place; after the last there is nothing.
#[tactic(auto, using(crate::proofs::Coding::nothing_behind))]
pub fn cell_at(cells: &Cells, at: usize) -> Cell
    ensures { result ≡ decoded (get_or cells.now at 0) }
{
    cells.get(at).map_or(Cell::Nothing, |w| decode(*w))
}
