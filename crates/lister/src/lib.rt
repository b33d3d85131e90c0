// Table to listing, in a lent buffer: the table is tested first, then the room.
#![tactic(auto)]

ghost use Rattle.std.specs.Prelude.{◌≡◌};
ghost use Rattle.lister.specs.Listed.{list_answer, list_into};
ghost use Rattle.language.specs.Table.{table};

use crate::printer::{listing_fits, whole};
use accepted::is_accepted;
use language::{Cells, Heads, Pool};

mod body;
mod hex_or_text;
mod lines;
mod printer;
mod settings;
mod statements;
mod text;

// Why there is no listing: no accepted script has this table (25), or the buffer is too small (26).
#[derive(Clone, Copy, PartialEq, Eq, Debug)]
pub enum ListRefusal {
    BadTable,
    NoRoom,
}

/// Writes the listing of a table's script: how many bytes it has; or refuses, first a table that no accepted script has, then a buffer that is too small.
pub fn list<'a>(
    cells: &'a Cells,
    pool: &'a Pool,
    heads: Heads,
    out: &mut [u8],
) -> Result<usize, ListRefusal>
    ensures { (result ≡ list_answer (table cells.now pool.now heads) out.old)
        × (out.new ≡ list_into (table cells.now pool.now heads) out.old) }
{
    if !is_accepted(cells, pool, heads) {
        return Err(ListRefusal::BadTable);
    }
    // A refusal alters no byte, so the room is tested before the first is written.
    if !listing_fits(cells, pool, heads, out.len()) {
        return Err(ListRefusal::NoRoom);
    }
    Ok(whole(cells, pool, heads, out))
}
