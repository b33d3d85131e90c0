// The one case in which a line has room for a byte in one digit alone.
ghost use Rattle.std.specs.Prelude.{◌≡◌};
ghost use Rattle.language.specs.Listing.{last_in_one};

// Whether data fill the room in hex if their last byte has one digit, and whether one is enough for it.
pub fn last_in_one(data: &[u8], room: usize) -> bool
    ensures { result ≡ last_in_one room «data».now }
{
    match data {
        [front @ .., last] => front.len() * 2 + 1 == room && *last < 16,
        [] => false,
    }
}
