// LOG records: the text of a record, its signs written out, into a lent buffer.
#![tactic(auto)]

ghost use Rattle.std.specs.Prelude.{◌≡◌, ◌+◌, ◌-◌, ◌≤◌, length, take};
ghost use Rattle.writer.specs.Put.{put_answer, put_into};
ghost use Rattle.record.specs.Logging.{record_limit, sign_text, record_answer, record_into};
ghost use Rattle.record.specs.Inside.Signs.{date_of, plain_sign, piece, begins_sign};

use process::Reading;
use writer::{put_bytes, put_decimal, put_two_digits};

// "A record is cut after 127 bytes."
pub const RECORD: usize = 127;

// The longest text of a sign: a count has at most ten digits.
const SIGN: usize = 10;

// The unit of a reading that a sign shows.
#[tactic(auto, unfolding(crate::specs::Inside::Signs::date_of))]
fn unit_of(r: Reading, b: u8) -> Option<u8>
    ensures { result ≡ date_of r b }
{
    match b {
        b'Y' => Some(r.year),
        b'M' => Some(r.month),
        b'D' => Some(r.day),
        b'h' => Some(r.hour),
        b'm' => Some(r.minute),
        b's' => Some(r.second),
        _ => None,
    }
}

// `@r` and `@n`, and `@@`: any other byte stands for itself.
#[tactic(auto, unfolding(crate::specs::Inside::Signs::plain_sign))]
fn plain(b: u8) -> u8
    ensures { result ≡ plain_sign b }
{
    match b {
        b'r' => b'\r',
        b'n' => b'\n',
        _ => b,
    }
}

#[tactic(auto, unfolding(crate::specs::Inside::Signs::begins_sign))]
fn begins_sign(signed: bool, b: u8) -> bool
    ensures { result ≡ begins_sign signed b }
{
    !signed && b == b'@'
}

// What the signs of a record show: the last reading, and the count before the record.
#[derive(Clone, Copy)]
struct Shown {
    reading: Reading,
    count: u32,
}

impl Shown {
    // Writes the text of the sign that b ends.
    fn put_sign(self, sign: &mut [u8], b: u8) -> Option<usize>
        ensures { (result ≡ put_answer (sign_text self.reading self.count b) sign.old 0)
            × (sign.new ≡ put_into (sign_text self.reading self.count b) sign.old 0) }
    {
        if b == b'c' {
            return put_decimal(sign, 0, self.count);
        }
        match unit_of(self.reading, b) {
            Some(n) => put_two_digits(sign, 0, n),
            None => put_bytes(sign, 0, &[plain(b)]),
        }
    }

    // Writes what a byte of the text adds to the record; `signed` tells that `@` stands before.
    fn put_piece(self, dst: &mut [u8], signed: bool, b: u8) -> Option<usize>
        ensures { (result ≡ put_answer (piece self.reading self.count signed b) dst.old 0)
            × (dst.new ≡ put_into (piece self.reading self.count signed b) dst.old 0) }
    {
        if signed {
            return self.put_sign(dst, b);
        }
        if b == b'@' {
            return Some(0);
        }
        put_bytes(dst, 0, &[b])
    }
}

// Writes bytes from a place on, as many as stand before 127: the place after them.
fn put_cut(out: &mut [u8], at: usize, bytes: &[u8]) -> usize
    requires { (at ≤ record_limit) × (record_limit ≤ length out.old) }
    ensures { (result ≡ at + length (take (record_limit - at) bytes.now))
        × (out.new ≡ put_into (take (record_limit - at) bytes.now) out.old at) }
{
    let n = bytes.len().min(RECORD - at);
    put_bytes(out, at, &bytes[..n]);
    at + n
}

// The record of a LOG text, written into a lent buffer; a buffer under 127 bytes is left as it is.
pub fn write_record(text: &[u8], r: Reading, count: u32, out: &mut [u8]) -> Option<usize>
    ensures { (result ≡ record_answer r count text.now out.old)
        × (out.new ≡ record_into r count text.now out.old) }
{
    if out.len() < RECORD {
        return None;
    }
    let shown = Shown { reading: r, count };
    // No heap: a piece is put into ten bytes, with its length beside.
    let mut piece = [0u8; SIGN];
    let mut at = 0usize;
    let mut signed = false;
    for b in text {
        let n = shown.put_piece(&mut piece, signed, *b).unwrap();
        at = put_cut(out, at, &piece[..n]);
        signed = begins_sign(signed, *b);
    }
    Some(at)
}
