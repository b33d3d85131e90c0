// The exact test whether some accepted script has a table: one pass over the cells in use, and the heads.
#![tactic(auto)]

ghost use Rattle.std.specs.Prelude.{◌≡◌};
ghost use Rattle.accepted.specs.Accepted.{table_right};
ghost use Rattle.language.specs.Table.{table};

use crate::cells_fit::cells_right;
use crate::ends::cells_in_use;
use crate::settings::settings_fit;
use language::{Cells, Heads, LINES, Pool};
use stretch::largest;

mod cells_fit;
mod data_fit;
mod ends;
mod lines;
pub mod settings;
mod zeros;

/// Whether some accepted script has this table.
pub fn is_accepted<'a>(cells: &'a Cells, pool: &'a Pool, heads: Heads) -> bool
    ensures { result ≡ table_right (table cells.now pool.now heads) }
{
    let Some(in_use) = cells_in_use(heads) else {
        return false;
    };
    cells_right(cells, pool, in_use, usize::from(heads.used))
        && settings_fit(heads)
        && lines::lines(heads, in_use) <= LINES
        && largest(cells, heads).is_ok()
}
