// Bytes, numbers and hex written from a place on, as far as the slice goes. No heap: what is printed stands in buffers of its own size.
ghost use Rattle.std.specs.Prelude.{◌≡◌, cond, [], ◌≤◌, ◌<◌, length, set};
ghost use Rattle.writer.specs.Hex.{hex_text};
ghost use Rattle.writer.specs.Put.{decimal, two_digits};
ghost use Rattle.language.specs.Listing.{last_of, short_hex};
ghost use Rattle.lister.specs.Inside.Printed.{FitsListing, Printed};

use language::SEND_ROOM;
use writer::{capital_digit, put_decimal, put_hex, put_two_digits};

// Writes a byte, if the slice has the place.
pub(crate) fn store(out: &mut [u8], at: usize, b: u8)
    ensures { out.new ≡ set out.old at b }
{
    if at < out.len() {
        out[at] = b;
    }
}

// Writes bytes.
pub(crate) fn put(out: &mut [u8], at: usize, bytes: &[u8]) -> usize
    requires { FitsListing at bytes.now }
    ensures { Printed bytes.now out.old at result out.new }
{
    for (i, b) in bytes.iter().enumerate() {
        store(out, at + i, *b);
    }
    at + bytes.len()
}

// Writes a number in decimal. One function over a closure, for `hex` and `two_digits` too, would take the text as a ghost argument: no plainer.
pub(crate) fn number(out: &mut [u8], at: usize, n: u32) -> usize
    requires { FitsListing at (decimal n) }
    ensures { Printed (decimal n) out.old at result out.new }
{
    let mut digits = [0u8; 10];
    // Ten digits are enough for every number.
    let count = put_decimal(&mut digits, 0, n).unwrap();
    put(out, at, &digits[..count])
}

// Writes bytes in hex, at most as many as a line has room for.
pub(crate) fn hex(out: &mut [u8], at: usize, bytes: &[u8]) -> usize
    requires { (length bytes.now ≤ 63) × FitsListing at (hex_text bytes.now) }
    ensures { Printed (hex_text bytes.now) out.old at result out.new }
{
    let mut digits = [0u8; SEND_ROOM];
    // There are two digits for each byte.
    let count = put_hex(&mut digits, 0, bytes).unwrap();
    put(out, at, &digits[..count])
}

// Writes bytes in hex, the last of them in one digit.
pub(crate) fn short_hex(out: &mut [u8], at: usize, bytes: &[u8]) -> usize
    requires { (0 < length bytes.now)
        × (length bytes.now ≤ 64)
        × (last_of bytes.now < 16)
        × FitsListing at (short_hex bytes.now) }
    ensures { Printed (short_hex bytes.now) out.old at result out.new }
{
    let last = bytes.len() - 1;
    let next = hex(out, at, &bytes[..last]);
    store(out, next, capital_digit(bytes[last]));
    next + 1
}

// Writes a number below 100 in two digits.
fn two_digits(out: &mut [u8], at: usize, n: u8) -> usize
    requires { FitsListing at (two_digits n) }
    ensures { Printed (two_digits n) out.old at result out.new }
{
    let mut digits = [0u8; 2];
    // Two digits have room in two bytes.
    let count = put_two_digits(&mut digits, 0, n).unwrap();
    put(out, at, &digits[..count])
}

// Writes a unit of a clock value, if it is fixed. A flag beside the value, as the clock's text has it (`cond`): an Option would be made
// of both and taken apart again.
pub(crate) fn unit(out: &mut [u8], at: usize, is: bool, n: u8) -> usize
    requires { FitsListing at (cond is (two_digits n) []) }
    ensures { Printed (cond is (two_digits n) []) out.old at result out.new }
{
    if is {
        return two_digits(out, at, n);
    }
    at
}
