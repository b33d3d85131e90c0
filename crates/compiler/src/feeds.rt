// Where a line ends: the search for its LF.
ghost use Rattle.std.specs.Prelude.{◌≡◌, ◌≤◌, ◌==◌, length, position};
ghost use Rattle.compiler.specs.Inside.Text.{clear_from, EndsAt};

/// Whether sixteen bytes from a place on are there and none is an LF: no branch parts them, so that they are compared at once.
pub(crate) fn no_feed(text: &[u8], from: usize) -> bool
    requires { from ≤ length text.now }
    ensures { result ≡ clear_from text.now from }
{
    if text.len() - from < 16 {
        return false;
    }
    let mut none = true;
    for byte in &text[from..from + 16] {
        none &= *byte != b'\n';
    }
    none
}

// The place of the first LF.
fn first_feed(text: &[u8]) -> Option<usize>
    ensures { result ≡ position (λ b. b == 10) text.now }
{
    text.iter().position(|byte| *byte == b'\n')
}

/// The place of the first LF from a place on, or the end of the text.
pub(crate) fn next_feed(text: &[u8], from: usize) -> usize
    requires { from ≤ length text.now }
    ensures { EndsAt text.now from result }
{
    match first_feed(&text[from..]) {
        Some(at) => from + at,
        None => text.len(),
    }
}
