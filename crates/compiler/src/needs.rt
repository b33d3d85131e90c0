// What the compiler asks of a statement's cell: its data, and where they stand.
ghost use Rattle.std.specs.Prelude.{◌≡◌};
ghost use Rattle.compiler.specs.Inside.Needs.{count_in, placed_at};

use language::{Cell, Span};

/// How many bytes of data a statement has.
pub(crate) fn count(cell: Cell) -> usize
    ensures { result ≡ count_in cell }
{
    match cell {
        Cell::Send(span) | Cell::WaitData(span) | Cell::Log(span) => usize::from(span.count),
        _ => 0,
    }
}

/// The cell with its data at a place of the pool.
pub(crate) fn placed(cell: Cell, from: u16) -> Cell
    ensures { result ≡ placed_at from cell }
{
    match cell {
        Cell::Send(span) => Cell::Send(Span { from, ..span }),
        Cell::WaitData(span) => Cell::WaitData(Span { from, ..span }),
        Cell::Log(span) => Cell::Log(Span { from, ..span }),
        _ => cell,
    }
}
