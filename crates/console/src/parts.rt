// Parts of some bytes. A place past the end is the end.
ghost use Rattle.std.specs.Prelude.{ℕ, ◌≤◌, ◌<◌, max, ◌≡◌, ◌≢◌, length, get_or, take, drop};

// The first n, or all of them if there are not so many.
pub fn first(bytes: &[u8], n: usize) -> &[u8]
    ensures { result.now ≡ take n bytes.now }
{
    &bytes[..n.min(bytes.len())]
}

// Those after the first n; none if there are not so many. As `rest` of words: this library stands on no crate of the box.
pub fn rest_from(bytes: &[u8], n: usize) -> &[u8]
    ensures { result.now ≡ drop n bytes.now }
{
    &bytes[n.min(bytes.len())..]
}

// The place of a byte; where it is not there, the end.
// No Option: what its callers cut at it goes on to the end, and the clauses of `place_of` may not change.
fn place_in(bytes: &[u8], byte: u8) -> usize
    ensures within { result ≤ length bytes.now }
    ensures before { (k : ℕ) → k < result → get_or bytes.now k 0 ≢ byte }
    ensures found { result < length bytes.now → get_or bytes.now result 0 ≡ byte }
{
    bytes.iter().position(|b| *b == byte).unwrap_or(bytes.len())
}

// The place of a byte from a place on; where it is not there, the end.
pub fn place_of(bytes: &[u8], from: usize, byte: u8) -> usize
    ensures within { (from ≤ result) × (result ≤ max from (length bytes.now)) }
    ensures before { (k : ℕ) → k < result → from ≤ k → get_or bytes.now k 0 ≡ byte → ⊥ }
    ensures found { result < length bytes.now → get_or bytes.now result 0 ≡ byte }
{
    from + place_in(rest_from(bytes, from), byte)
}
