// The rule of LOG's signs.
ghost use Rattle.std.specs.Prelude.{◌≡◌, false};
ghost use Rattle.language.specs.Meaning.{is_sign, signs};

// Whether a byte may follow `@`.
pub fn is_sign(b: u8) -> bool
    ensures { result ≡ is_sign b }
{
    matches!(
        b,
        b'c' | b'Y' | b'M' | b'D' | b'h' | b'm' | b's' | b'@' | b'r' | b'n'
    )
}

// Whether every `@` begins a sign.
pub fn right_signs(text: &[u8]) -> bool
    ensures { result ≡ signs text.now false }
{
    // Whether `@` stands before the byte.
    let mut marked = false;
    for byte in text {
        if !marked {
            marked = *byte == b'@';
        } else if is_sign(*byte) {
            marked = false;
        } else {
            return false;
        }
    }
    !marked
}
