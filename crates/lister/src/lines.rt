// The line of each statement, without its CR LF.
ghost use Rattle.std.specs.Prelude.{◌≡◌, ◌++◌, ◌≤◌};
ghost use Rattle.reader.specs.Ascii.{ascii};
ghost use Rattle.language.specs.Clock.{clock_letter, clock_text};
ghost use Rattle.language.specs.Cell.{fixed_units};
ghost use Rattle.language.specs.Listing.{data_text, count_text, time_text, on_text, signal_text, log_text};
ghost use Rattle.lister.specs.Inside.Printed.{FitsListing, Printed};
ghost use Rattle.language.specs.Limits.{send_room, wait_room};

use crate::hex_or_text::in_hex;
use crate::text::{hex, number, put, short_hex, store, unit};
use language::last_digit::last_in_one;
use language::{Clock, WAIT_ROOM};

// Data in hex after `:`, or as text after `/`.
pub(crate) fn data_text(out: &mut [u8], at: usize, text: &[u8], room: usize) -> usize
    requires { (room ≤ send_room) × FitsListing at (data_text room text.now) }
    ensures { Printed (data_text room text.now) out.old at result out.new }
{
    if last_in_one(text, room) {
        store(out, at, b':');
        return short_hex(out, at + 1, text);
    }
    if in_hex(text, room) {
        store(out, at, b':');
        return hex(out, at + 1, text);
    }
    store(out, at, b'/');
    put(out, at + 1, text)
}

// "`#WAIT DATA`" and its data.
pub(crate) fn wait_data(out: &mut [u8], at: usize, text: &[u8]) -> usize
    requires { FitsListing at (ascii "#WAIT DATA " ++ data_text wait_room text.now) }
    ensures { Printed (ascii "#WAIT DATA " ++ data_text wait_room text.now) out.old at result
        out.new }
{
    let next = put(out, at, b"#WAIT DATA ");
    data_text(out, next, text, WAIT_ROOM)
}

// "LOG as written, `#LOG` if empty".
pub(crate) fn log_text(out: &mut [u8], at: usize, text: &[u8]) -> usize
    requires { FitsListing at (log_text text.now) }
    ensures { Printed (log_text text.now) out.old at result out.new }
{
    if text.len() == 0 {
        return put(out, at, b"#LOG");
    }
    let next = put(out, at, b"#LOG ");
    put(out, next, text)
}

// "`#LOOP EVER` or the count".
pub(crate) fn count_text(out: &mut [u8], at: usize, n: u16) -> usize
    requires { FitsListing at (count_text n) }
    ensures { Printed (count_text n) out.old at result out.new }
{
    if n == 0 {
        return put(out, at, b"EVER");
    }
    number(out, at, u32::from(n))
}

// "Times up to 60000 ms in MS, longer in S".
pub(crate) fn time_text(out: &mut [u8], at: usize, n: u32) -> usize
    requires { FitsListing at (time_text n) }
    ensures { Printed (time_text n) out.old at result out.new }
{
    if n <= 60000 {
        let next = number(out, at, n);
        return put(out, next, b"MS");
    }
    let next = number(out, at, n / 1000);
    put(out, next, b"S")
}

// A level.
pub(crate) fn on_text(out: &mut [u8], at: usize, on: bool) -> usize
    requires { FitsListing at (on_text on) }
    ensures { Printed (on_text on) out.old at result out.new }
{
    if on {
        return put(out, at, b"ON");
    }
    put(out, at, b"OFF")
}

// CTS, or EX and its number.
pub(crate) fn signal_text(out: &mut [u8], at: usize, n: u8) -> usize
    requires { (n ≤ 4) × FitsListing at (signal_text n) }
    ensures { Printed (signal_text n) out.old at result out.new }
{
    if n == 0 {
        return put(out, at, b"CTS");
    }
    let name = [b'E', b'X', b'0' + n];
    put(out, at, &name)
}

// The letter of the first fixed unit, `s` where none is fixed.
fn letter(c: Clock) -> u8
    ensures { result ≡ clock_letter (fixed_units c) }
{
    match c.fixed {
        0 | 1 => b's',
        2 => b'm',
        3 => b'h',
        _ => b'D',
    }
}

// "the first fixed unit and every shorter one in full, or `s`".
pub(crate) fn clock_text(out: &mut [u8], at: usize, c: Clock) -> usize
    requires { FitsListing at (clock_text (fixed_units c)) }
    ensures { Printed (clock_text (fixed_units c)) out.old at result out.new }
{
    let fixed = c.fixed;
    let name = [letter(c)];
    let day = put(out, at, &name);
    let hour = unit(out, day, 4 <= fixed, c.day);
    let minute = unit(out, hour, 3 <= fixed, c.hour);
    let second = unit(out, minute, 2 <= fixed, c.minute);
    unit(out, second, 1 <= fixed, c.second)
}
