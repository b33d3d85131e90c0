// The rule of LFEXT's letters.
ghost use Rattle.std.specs.Prelude.{◌≡◌};
ghost use Rattle.language.specs.Meaning.{is_capital};

// Whether a byte is a capital letter or a digit.
pub fn is_capital(b: u8) -> bool
    ensures { result ≡ is_capital b }
{
    matches!(b, b'0'..=b'9' | b'A'..=b'Z')
}
