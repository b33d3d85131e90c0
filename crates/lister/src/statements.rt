// The line of a cell, with its CR LF.
ghost use Rattle.std.specs.Prelude.{◌≡◌, ◌++◌, ◌+◌, ◌≤◌};
ghost use Rattle.reader.specs.Ascii.{ascii};
ghost use Rattle.writer.specs.Put.{decimal};
ghost use Rattle.language.specs.Cell.{fixed_units};
ghost use Rattle.language.specs.Clock.{clock_text};
ghost use Rattle.language.specs.Listing.{count_text, time_text, on_text, signal_text};
ghost use Rattle.language.specs.Limits.{pool_places};
ghost use Rattle.language.specs.Table.{data_at};
ghost use Rattle.lister.specs.Inside.Names.{bare_name};
ghost use Rattle.lister.specs.Inside.Printed.{FitsListing, Printed, line_ended, word_line};

use crate::lines::{
    clock_text, count_text, data_text, log_text, on_text, signal_text, time_text, wait_data,
};
use crate::text::{number, put};
use cells::decoder::decode;
use language::{Cell, Clock, Level, Pool, SEND_ROOM, Span};

// The bytes of a cell's data.
// Also in accepted and runner: shared it would be public, so total, with two tests more each time, no plainer.
fn data_of(pool: &Pool, s: Span) -> &[u8]
    requires { s.from + s.count ≤ pool_places }
    ensures { result.now ≡ data_at pool.now s }
{
    let from = usize::from(s.from);
    &pool[from..from + usize::from(s.count)]
}

// A name, then a value: each of these six has its own writer of the value, so one function over a closure would be no plainer.

// `#LOOP` and how often.
fn loops(out: &mut [u8], at: usize, n: u16) -> usize
    requires { FitsListing at (ascii "#LOOP " ++ count_text n) }
    ensures { Printed (ascii "#LOOP " ++ count_text n) out.old at result out.new }
{
    let next = put(out, at, b"#LOOP ");
    count_text(out, next, n)
}

// `#WAIT TIME` and the time.
fn wait_time(out: &mut [u8], at: usize, n: u32) -> usize
    requires { FitsListing at (ascii "#WAIT TIME " ++ time_text n) }
    ensures { Printed (ascii "#WAIT TIME " ++ time_text n) out.old at result out.new }
{
    let next = put(out, at, b"#WAIT TIME ");
    time_text(out, next, n)
}

// `#WAIT BYTE` and how many.
fn wait_byte(out: &mut [u8], at: usize, n: u16) -> usize
    requires { FitsListing at (ascii "#WAIT BYTE " ++ decimal n) }
    ensures { Printed (ascii "#WAIT BYTE " ++ decimal n) out.old at result out.new }
{
    let next = put(out, at, b"#WAIT BYTE ");
    number(out, next, u32::from(n))
}

// `#WAIT CLOCK` and the clock value.
fn wait_clock(out: &mut [u8], at: usize, c: Clock) -> usize
    requires { FitsListing at (ascii "#WAIT CLOCK " ++ clock_text (fixed_units c)) }
    ensures { Printed (ascii "#WAIT CLOCK " ++ clock_text (fixed_units c)) out.old at result
        out.new }
{
    let next = put(out, at, b"#WAIT CLOCK ");
    clock_text(out, next, c)
}

// `#WAIT`, a signal and its level.
fn wait_signal(out: &mut [u8], at: usize, l: Level) -> usize
    requires { (l.signal ≤ 4) × FitsListing at (ascii "#WAIT " ++ (signal_text l.signal ++ on_text l.on)) }
    ensures { Printed (ascii "#WAIT " ++ (signal_text l.signal ++ on_text l.on)) out.old at result
        out.new }
{
    let name = put(out, at, b"#WAIT ");
    let next = signal_text(out, name, l.signal);
    on_text(out, next, l.on)
}

// `#RTS` and its level.
fn rts(out: &mut [u8], at: usize, on: bool) -> usize
    requires { FitsListing at (ascii "#RTS " ++ on_text on) }
    ensures { Printed (ascii "#RTS " ++ on_text on) out.old at result out.new }
{
    let next = put(out, at, b"#RTS ");
    on_text(out, next, on)
}

// The line of a cell that is a name alone. Any other is read as NOP.
fn bare_name(out: &mut [u8], at: usize, c: Cell) -> usize
    requires { FitsListing at (bare_name c) }
    ensures { Printed (bare_name c) out.old at result out.new }
{
    match c {
        Cell::End => put(out, at, b"#END"),
        Cell::Fchange => put(out, at, b"#FCHANGE"),
        Cell::Pause => put(out, at, b"#PAUSE"),
        Cell::Resume => put(out, at, b"#RESUME"),
        _ => put(out, at, b"#NOP"),
    }
}

// The line of a word. A cell that says no statement is read as NOP.
fn statement(out: &mut [u8], at: usize, pool: &Pool, w: u32) -> usize
    requires { FitsListing at (word_line pool.now w) }
    ensures { Printed (word_line pool.now w) out.old at result out.new }
{
    let c = decode(w);
    match c {
        Cell::Send(s) => data_text(out, at, data_of(pool, s), SEND_ROOM),
        Cell::Loop(n) => loops(out, at, n),
        Cell::WaitTime(n) => wait_time(out, at, n),
        Cell::WaitData(s) => wait_data(out, at, data_of(pool, s)),
        Cell::WaitByte(n) => wait_byte(out, at, n),
        Cell::WaitClock(v) => wait_clock(out, at, v),
        Cell::WaitSignal(l) => wait_signal(out, at, l),
        Cell::Rts(on) => rts(out, at, on),
        Cell::Log(s) => log_text(out, at, data_of(pool, s)),
        _ => bare_name(out, at, c),
    }
}

// "CR LF after each line".
pub(crate) fn line(out: &mut [u8], at: usize, pool: &Pool, w: u32) -> usize
    requires { FitsListing at (line_ended (word_line pool.now w)) }
    ensures { Printed (line_ended (word_line pool.now w)) out.old at result out.new }
{
    let next = statement(out, at, pool, w);
    put(out, next, b"\r\n")
}
