// What bytes are, and whether there is room for more.
#![tactic(auto)]

ghost use Rattle.std.specs.Prelude.{◌+◌, ◌≡◌, leb};

pub mod bytes;

// Whether `need` bytes fit from `at` on into `len`: the sum, which may wrap, is not made.
pub fn has_room(len: usize, at: usize, need: usize) -> bool
    ensures { result ≡ leb (at + need) len }
{
    at <= len && need <= len - at
}
