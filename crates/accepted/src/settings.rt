// The settings, and how many lines the listing has.
ghost use Rattle.std.specs.Prelude.{◌≡◌, true, cond, not, ◌≤◌, eqb, length};
ghost use Rattle.reader.specs.Ascii.{ascii};
ghost use Rattle.reader.specs.Bytes.{all, same};
ghost use Rattle.language.specs.Meaning.{is_capital};
ghost use Rattle.language.specs.Table.{letters_of};
ghost use Rattle.accepted.specs.Inside.Heads.{first_empty, extension_fits, settings_fit, settings_in};

use crate::zeros::all_from;
use language::extension::is_capital;
use language::{Heads, LETTERS, OMITS};
use words::is_named;

// How many letters stand before the first zero.
pub fn letters(extension: &[u8]) -> usize
    ensures { result ≡ length (letters_of «extension».now) }
{
    extension
        .iter()
        .position(|b| *b == 0)
        .unwrap_or(extension.len())
}

// Whether every byte is a capital letter or a digit.
fn all_capital(text: &[u8]) -> bool
    ensures { result ≡ all is_capital text.now }
{
    text.iter().all(|b| is_capital(*b))
}

// Whether LFEXT can have these letters, with zeros after them.
fn extension_fits(extension: &[u8]) -> bool
    ensures { result ≡ extension_fits «extension».now }
{
    let count = letters(extension);
    if count < 1 || LETTERS < count {
        return false;
    }
    all_capital(&extension[..count]) && all_from(extension, count, &0)
}

// Whether the byte of ENCODE is zero where it is not set. A flag and a byte, as Heads has them, whose fields may not change.
fn encode_fits(encodes: bool, encode: u8) -> bool
    ensures { result ≡ cond encodes true (eqb encode 0) }
{
    encodes || encode == 0
}

// Whether lines can have these settings, with zeros after them.
pub(crate) fn settings_fit(heads: Heads) -> bool
    ensures { result ≡ settings_fit heads }
{
    let omits = usize::from(heads.omits);
    omits <= OMITS
        && encode_fits(heads.encodes, heads.encode)
        && all_from(&heads.omit, omits, &0)
        && extension_fits(&heads.extension)
}

// "and the first too if it is empty and others follow".
pub fn first_empty(heads: Heads) -> bool
    ensures { result ≡ first_empty heads }
{
    1 < heads.processes && heads.ends[0] == 0
}

// Whether the letters are others than LOG.
pub fn other_letters(extension: &[u8]) -> bool
    ensures { result ≡ not (same (letters_of «extension».now) (ascii "LOG")) }
{
    !is_named(extension, 0, letters(extension), b"LOG")
}

// How many lines the settings have.
pub(crate) fn setting_lines(heads: Heads) -> usize
    ensures { (result ≡ settings_in heads) × (result ≤ 4) }
{
    usize::from(heads.encodes)
        + usize::from(heads.two_stop_bits)
        + usize::from(0 < heads.omits)
        + usize::from(other_letters(&heads.extension))
}
