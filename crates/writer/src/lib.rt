// Bytes, decimal numbers and hex data written into a lent slice from a place on, all of it or nothing: the place
// after what was written, or None where there is no room. The public parameters may not change.
#![tactic(auto)]

ghost use Rattle.std.specs.Prelude.{◌%◌, ◌^◌, ◌≡◌, ◌∷◌, []};
ghost use Rattle.writer.specs.Hex.{capital, hex_text};
ghost use Rattle.writer.specs.Put.{width_of, decimal, two_digits, put_answer, put_into};

use reader::has_room;

// Writes bytes.
pub fn put_bytes(dst: &mut [u8], at: usize, bytes: &[u8]) -> Option<usize>
    ensures { (result ≡ put_answer bytes.now dst.old at)
        × (dst.new ≡ put_into bytes.now dst.old at) }
{
    if !has_room(dst.len(), at, bytes.len()) {
        return None;
    }
    let end = at + bytes.len();
    dst[at..end].copy_from_slice(bytes);
    Some(end)
}

// Writes a number below 100 in two digits.
pub fn put_two_digits(dst: &mut [u8], at: usize, n: u8) -> Option<usize>
    ensures { (result ≡ put_answer (two_digits n) dst.old at)
        × (dst.new ≡ put_into (two_digits n) dst.old at) }
{
    let digits = [b'0' + n / 10, b'0' + n % 10];
    put_bytes(dst, at, &digits)
}

// The capital digit of a value below 16; of another byte, of its low half.
pub fn capital_digit(b: u8) -> u8
    ensures { result ≡ capital (b % 16) }
{
    let d = b % 16;
    if d < 10 { b'0' + d } else { b'A' - 10 + d }
}

// Writes bytes as hex data, two capital digits for each and nothing between.
pub fn put_hex(dst: &mut [u8], at: usize, bytes: &[u8]) -> Option<usize>
    ensures { (result ≡ put_answer (hex_text bytes.now) dst.old at)
        × (dst.new ≡ put_into (hex_text bytes.now) dst.old at) }
{
    if dst.len() < at || (dst.len() - at) / 2 < bytes.len() {
        return None;
    }
    for (i, b) in bytes.iter().enumerate() {
        let place = at + 2 * i;
        dst[place] = capital_digit(*b / 16);
        dst[place + 1] = capital_digit(*b);
    }
    Some(at + 2 * bytes.len())
}

// Writes one byte as two capital hex digits.
pub fn put_hex_digits(dst: &mut [u8], at: usize, b: u8) -> Option<usize>
    ensures { (result ≡ put_answer (hex_text (b ∷ [])) dst.old at)
        × (dst.new ≡ put_into (hex_text (b ∷ [])) dst.old at) }
{
    put_hex(dst, at, &[b])
}

// How many digits a number has, and ten to that many.
#[derive(Clone, Copy)]
struct Digits {
    count: usize,
    power: u64,
}

// Looks for the first power of ten above a number.
fn width(n: u32) -> Digits
    ensures { (result.count ≡ width_of n) × (result.power ≡ 10 ^ width_of n) }
{
    let mut power = 10;
    for count in 1..10 {
        if u64::from(n) < power {
            return Digits { count, power };
        }
        power *= 10;
    }
    Digits { count: 10, power }
}

// Writes a number in decimal digits, with no leading zero.
pub fn put_decimal(dst: &mut [u8], at: usize, n: u32) -> Option<usize>
    ensures { (result ≡ put_answer (decimal n) dst.old at)
        × (dst.new ≡ put_into (decimal n) dst.old at) }
{
    let Digits { count, mut power } = width(n);
    if !has_room(dst.len(), at, count) {
        return None;
    }
    let end = at + count;
    let mut left = u64::from(n);
    for digit in &mut dst[at..end] {
        power /= 10;
        *digit = b'0' + (left / power) as u8;
        left %= power;
    }
    Some(end)
}
