// Which data a listing has in hex.
ghost use Rattle.std.specs.Prelude.{◌≡◌};
ghost use Rattle.reader.specs.Bytes.{all};
ghost use Rattle.language.specs.Listing.{is_plain, in_hex};

// Whether every byte lies in 20h to 7Eh.
fn all_plain(text: &[u8]) -> bool
    ensures { result ≡ all is_plain text.now }
{
    text.iter().all(|b| matches!(*b, b' '..=b'~'))
}

/// "Data in hex .. where a byte lies outside 20h to 7Eh and the line fits in 127": `room` is what the line has left after the mark.
pub(crate) fn in_hex(text: &[u8], room: usize) -> bool
    ensures { result ≡ in_hex room text.now }
{
    !all_plain(text) && text.len() * 2 <= room
}
