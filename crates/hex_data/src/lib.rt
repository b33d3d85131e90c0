// Hex data, read from a place of a slice: the public parameters may not change.
#![tactic(auto)]

ghost use Rattle.std.specs.Prelude.{◌+◌, ◌≤◌, ◌<◌, ◌≡◌, length, drop, IfSome};
ghost use Rattle.std.proofs.lemmas.List.Edits.{sets};
ghost use Rattle.hex_data.specs.Hex.{good, step_of, hex_at, counted, hex_into, hex_put, hex_byte_at};
ghost use Rattle.hex_data.specs.Inside.Steps.{first_digit, begun, stepped};
ghost use Rattle.hex_data.specs.Inside.Said.{said_bytes};

use numbers::Number;
use reader::bytes::{blank, digit};
use reader::has_room;

// Why no hex data were read: the place of the first byte that cannot be taken, or no room for them.
#[derive(Clone, Copy, Debug, PartialEq, Eq)]
pub enum HexFault {
    Wrong(usize),
    Full,
}

// What a byte of hex data does: it parts, it begins a pair, or with it a byte is whole.
#[derive(Clone, Copy)]
enum Step {
    Parts,
    Begins(u8),
    Ends(u8),
}

// What a byte does after the first digit of a pair, if one is begun: a separator leaves that digit a byte. None where it cannot be taken.
fn step_by(half: Option<u8>, b: u8) -> Option<Step>
    requires { IfSome half (λ h. h < 16) }
    ensures { stepped result ≡ step_of (begun half) b }
{
    match digit(b) {
        Some(low) => Some(match half {
            Some(high) => Step::Ends(high * 16 + low),
            None => Step::Begins(low),
        }),
        None if blank(b) => Some(match half {
            Some(high) => Step::Ends(high),
            None => Step::Parts,
        }),
        None => None,
    }
}

// Two walks and no closure: the count must be known before the first byte is written ("all of it or none", `hex_put`).
// By the place, which is the answer; and a digit at a time: a reader of whole bytes was tried, and took a third more instructions.

// How many bytes the hex data from a place on to the end are.
pub fn hex_count(s: &[u8], at: usize) -> Result<usize, usize>
    ensures { result ≡ counted 0 (hex_at s.now at) }
{
    let mut n = 0;
    let mut half = None;
    for i in at..s.len() {
        let Some(step) = step_by(half, s[i]) else {
            return Err(i);
        };
        match step {
            Step::Parts => half = None,
            Step::Begins(high) => half = Some(high),
            Step::Ends(_) => {
                half = None;
                n += 1;
            }
        }
    }
    if half.is_some() {
        return Ok(n + 1);
    }
    Ok(n)
}

// Writes the bytes of hex data that are good and have room.
fn hex_write(s: &[u8], at: usize, dst: &mut [u8], to: usize)
    requires { (hex_at s.now at ≡ good (said_bytes (hex_at s.now at)))
        × (to + length (said_bytes (hex_at s.now at)) ≤ length dst.old) }
    ensures { dst.new ≡ sets dst.old to (said_bytes (hex_at s.now at)) }
{
    let mut place = to;
    let mut half = None;
    for i in at..s.len() {
        let Some(step) = step_by(half, s[i]) else {
            return;
        };
        match step {
            Step::Parts => half = None,
            Step::Begins(high) => half = Some(high),
            Step::Ends(b) => {
                half = None;
                dst[place] = b;
                place += 1;
            }
        }
    }
    if let Some(high) = half {
        dst[place] = high;
    }
}

// Reads the hex data from a place on to the end into `dst` from `to` on, all of it or none.
pub fn hex_into(s: &[u8], at: usize, dst: &mut [u8], to: usize) -> Result<usize, HexFault>
    ensures { (result ≡ hex_into (hex_at s.now at) dst.old to)
        × (dst.new ≡ hex_put (hex_at s.now at) dst.old to) }
{
    let n = hex_count(s, at).map_err(HexFault::Wrong)?;
    if !has_room(dst.len(), to, n) {
        return Err(HexFault::Full);
    }
    hex_write(s, at, dst, to);
    Ok(n)
}

// The hex digit at a place, if one is there.
fn digit_at(s: &[u8], at: usize) -> Option<u8>
    ensures { result ≡ first_digit (drop at s.now) }
{
    digit(*s.get(at)?)
}

// The byte that one or two hex digits are, as many as stand there.
pub fn hex_byte(s: &[u8], at: usize) -> Result<Number, usize>
    ensures { result ≡ hex_byte_at s.now at }
{
    let Some(high) = digit_at(s, at) else {
        return Err(at);
    };
    let next = at + 1;
    Ok(match digit_at(s, next) {
        None => Number {
            value: u32::from(high),
            next,
        },
        Some(low) => Number {
            value: u32::from(high * 16 + low),
            next: next + 1,
        },
    })
}
