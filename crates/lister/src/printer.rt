// The text of a listing: the lines of the settings, then those of the processes, "CR LF after each line".
// The slice and the place are two parameters of every printing function: in a struct over the lent slice each contract would also have to
// say that it is still the same slice, which is no plainer.
ghost use Rattle.std.specs.Prelude.{◌≡◌, leb, length};
ghost use Rattle.lister.specs.Inside.Printed.{FitsListing, Printed};
ghost use Rattle.lister.specs.Listed.{listing_of};
ghost use Rattle.language.specs.Table.{table};

use language::{Cells, Heads, LISTING, Pool};

/// Writes the listing as far as the buffer goes: how many bytes it has.
pub(crate) fn whole<'a>(cells: &'a Cells, pool: &'a Pool, heads: Heads, out: &mut [u8]) -> usize
    requires { FitsListing 0 (listing_of (table cells.now pool.now heads)) }
    ensures { Printed (listing_of (table cells.now pool.now heads)) out.old 0 result
        out.new }
{
    let next = crate::settings::settings(out, 0, heads);
    crate::body::body(out, next, cells, pool, heads)
}

/// Whether the listing has room in so many bytes.
pub(crate) fn listing_fits<'a>(cells: &'a Cells, pool: &'a Pool, heads: Heads, room: usize) -> bool
    requires { FitsListing 0 (listing_of (table cells.now pool.now heads)) }
    ensures { result ≡ leb (length (listing_of (table cells.now pool.now heads))) room }
{
    // Every listing has room in so many bytes: its length need not be learned.
    if LISTING <= room {
        return true;
    }
    whole(cells, pool, heads, &mut []) <= room
}
