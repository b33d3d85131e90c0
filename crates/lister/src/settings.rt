// The lines of the settings. "First, in this order, if not default".
ghost use Rattle.std.specs.Prelude.{cond, not, [], ◌++◌, ◌≤◌, length};
ghost use Rattle.reader.specs.Ascii.{ascii};
ghost use Rattle.reader.specs.Bytes.{same};
ghost use Rattle.writer.specs.Hex.{hex_text};
ghost use Rattle.language.specs.Script.{unset, byte};
ghost use Rattle.language.specs.Listing.{line_if, encode_lines, with_line_ends};
ghost use Rattle.language.specs.Table.{letters_of};
ghost use Rattle.lister.specs.Inside.Printed.{FitsListing, Printed, printed_settings};
ghost use Rattle.language.specs.Limits.{omit_places};

use crate::text::{hex, put};
use accepted::settings::{letters, other_letters};
use language::{Heads, OMIT_PLACES};

// "`#f:ENCODE :hh`". A flag and a byte, as Heads has them, whose fields may not change.
fn encode_line(out: &mut [u8], at: usize, encodes: bool, encode: u8) -> usize
    requires { FitsListing at (with_line_ends (encode_lines (cond encodes (byte encode) unset))) }
    ensures { Printed (with_line_ends (encode_lines (cond encodes (byte encode) unset))) out.old at result
        out.new }
{
    if encodes {
        let name = put(out, at, b"#f:ENCODE :");
        let next = hex(out, name, &[encode]);
        return put(out, next, b"\r\n");
    }
    at
}

// "`#f:STOPBITS 2`".
fn stopbits_line(out: &mut [u8], at: usize, two: bool) -> usize
    requires { FitsListing at (with_line_ends (line_if two (ascii "#f:STOPBITS 2"))) }
    ensures { Printed (with_line_ends (line_if two (ascii "#f:STOPBITS 2"))) out.old at result
        out.new }
{
    if two {
        return put(out, at, b"#f:STOPBITS 2\r\n");
    }
    at
}

// "`#f:OMIT`" and the bytes in hex.
fn omit_line(out: &mut [u8], at: usize, omit: &[u8]) -> usize
    requires { (length omit.now ≤ omit_places)
        × FitsListing at (with_line_ends (line_if (not (same omit.now [])) (ascii "#f:OMIT :" ++ hex_text omit.now))) }
    ensures { Printed (with_line_ends
        (line_if (not (same omit.now [])) (ascii "#f:OMIT :" ++ hex_text omit.now)))
        out.old at result out.new }
{
    if omit.len() == 0 {
        return at;
    }
    let name = put(out, at, b"#f:OMIT :");
    let next = hex(out, name, omit);
    put(out, next, b"\r\n")
}

// "`#f:LFEXT`" and the letters.
fn lfext_line(out: &mut [u8], at: usize, extension: &[u8]) -> usize
    requires { FitsListing at
        (with_line_ends (line_if (not (same (letters_of extension.now) (ascii "LOG")))
        (ascii "#f:LFEXT " ++ letters_of extension.now))) }
    ensures { Printed (with_line_ends
        (line_if (not (same (letters_of «extension».now) (ascii "LOG")))
        (ascii "#f:LFEXT " ++ letters_of «extension».now))) out.old at result out.new }
{
    if other_letters(extension) {
        let name = put(out, at, b"#f:LFEXT ");
        let next = put(out, name, &extension[..letters(extension)]);
        return put(out, next, b"\r\n");
    }
    at
}

// The lines of the settings that are not default.
pub(crate) fn settings(out: &mut [u8], at: usize, heads: Heads) -> usize
    requires { FitsListing at (printed_settings heads) }
    ensures { Printed (printed_settings heads) out.old at result out.new }
{
    let omits = usize::from(heads.omits).min(OMIT_PLACES);
    let first = encode_line(out, at, heads.encodes, heads.encode);
    let second = stopbits_line(out, first, heads.two_stop_bits);
    let third = omit_line(out, second, &heads.omit[..omits]);
    lfext_line(out, third, &heads.extension)
}
