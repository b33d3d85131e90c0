// Decimal numbers, and values of two digits. A slice and a place in it: the public parameters may not change.
ghost use Rattle.std.specs.Prelude.{◌≡◌};
ghost use Rattle.numbers.specs.Number.{number_at, pair_at};
ghost use Rattle.numbers.specs.Inside.Decimal.{decimal_at};

use super::Number;

// The decimal digit at a place, if one is there.
fn decimal(s: &[u8], at: usize) -> Option<u8>
    ensures { result ≡ decimal_at s.now at }
{
    match *s.get(at)? {
        b @ b'0'..=b'9' => Some(b - b'0'),
        _ => None,
    }
}

// The number from `at` on, of at most `most` digits, up to `limit`.
pub fn number(s: &[u8], at: usize, most: usize, limit: u32) -> Result<Number, usize>
    ensures { result ≡ number_at most limit s.now at }
{
    let mut got = Number { value: 0, next: at };
    // Not a `for`: the place is a field of the answer, and a `for` would count it a second time, no plainer.
    while let Some(d) = decimal(s, got.next) {
        let value = u64::from(got.value) * 10 + u64::from(d);
        if most <= got.next - at || u64::from(limit) < value {
            return Err(got.next);
        }
        got = Number {
            value: value as u32,
            next: got.next + 1,
        };
    }
    if got.next == at { Err(at) } else { Ok(got) }
}

// A value of exactly two digits, from `low` to `high`.
pub fn pair(s: &[u8], at: usize, low: u8, high: u8) -> Result<Number, usize>
    ensures { result ≡ pair_at low high s.now at }
{
    let Some(tens) = decimal(s, at) else {
        return Err(at);
    };
    if tens * 10 + 9 < low || high < tens * 10 {
        return Err(at);
    }
    let next = at + 1;
    let Some(units) = decimal(s, next) else {
        return Err(next);
    };
    let value = tens * 10 + units;
    if value < low || high < value {
        return Err(next);
    }
    Ok(Number {
        value: u32::from(value),
        next: next + 1,
    })
}
