// The lines of the processes.
ghost use Rattle.std.specs.Prelude.{◌∷◌, []};
ghost use Rattle.language.specs.Script.{next};
ghost use Rattle.accepted.specs.Inside.Heads.{ends_of};
ghost use Rattle.lister.specs.Inside.Printed.{FitsListing, Printed, printed_items, printed_cells, further, printed_first, printed_body};

use crate::statements::line;
use crate::text::put;
use accepted::settings::first_empty;
use language::{Cells, Heads, PROCESSES, Pool};

// The lines of the cells from one place to another.
fn cell_lines<'a>(
    out: &mut [u8],
    at: usize,
    cells: &'a Cells,
    pool: &'a Pool,
    from: usize,
    end: usize,
) -> usize
    requires { FitsListing at (printed_cells pool.now cells.now from end) }
    ensures { Printed (printed_cells pool.now cells.now from end) out.old at result
        out.new }
{
    let last = end.min(cells.len());
    let mut place = at;
    for w in &cells[from.min(last)..last] {
        place = line(out, place, pool, *w);
    }
    place
}

// "`#PROCESS` precedes every process but the first".
fn process_line(out: &mut [u8], at: usize) -> usize
    requires { FitsListing at (printed_items (next ∷ [])) }
    ensures { Printed (printed_items (next ∷ [])) out.old at result out.new }
{
    put(out, at, b"#PROCESS\r\n")
}

// The lines of the processes after the first, each with its PROCESS line, by their ends.
fn others<'a>(
    out: &mut [u8],
    at: usize,
    cells: &'a Cells,
    pool: &'a Pool,
    ends: &'a [u16],
    first: usize,
) -> usize
    requires { FitsListing at
        (printed_items (further pool.now cells.now first ends.now)) }
    ensures { Printed (printed_items (further pool.now cells.now first ends.now)) out.old
        at result out.new }
{
    let mut place = at;
    let mut from = first;
    for end in ends {
        let end = usize::from(*end);
        let begun = process_line(out, place);
        place = cell_lines(out, begun, cells, pool, from, end);
        from = end;
    }
    place
}

// "and the first too if it is empty and others follow".
fn first_line(out: &mut [u8], at: usize, is: bool) -> usize
    requires { FitsListing at (printed_first is) }
    ensures { Printed (printed_first is) out.old at result out.new }
{
    if is {
        return process_line(out, at);
    }
    at
}

// The lines of the processes.
pub(crate) fn body<'a>(
    out: &mut [u8],
    at: usize,
    cells: &'a Cells,
    pool: &'a Pool,
    heads: Heads,
) -> usize
    requires { FitsListing at (printed_body pool.now cells.now (ends_of heads)) }
    ensures { Printed (printed_body pool.now cells.now (ends_of heads)) out.old
        at result out.new }
{
    let processes = usize::from(heads.processes).min(PROCESSES);
    if processes == 0 {
        return at;
    }
    let first = usize::from(heads.ends[0]);
    let begun = first_line(out, at, first_empty(heads));
    let next = cell_lines(out, begun, cells, pool, 0, first);
    others(out, next, cells, pool, &heads.ends[1..processes], first)
}
