// "WAIT DATA lines that follow each other in one process are one wait for the bytes joined."
ghost use Rattle.std.specs.Prelude.{◌≡◌};
ghost use Rattle.std.proofs.Math.Seq.{slice};
ghost use Rattle.statement.specs.Inside.Joined.{joined_of};

use cells::decoder::decode;
use language::{CELL_PLACES, Cell, Cells};

// The WAIT DATA lines that follow: how many cells, and how many bytes they have.
#[derive(Clone, Copy, PartialEq, Eq, Debug, Default)]
pub struct Joined {
    pub cells: u16,
    pub bytes: u32,
}

// The WAIT DATA lines from one place up to another.
pub(crate) fn join(cells: &Cells, from: usize, end: usize) -> Joined
    ensures { result ≡ joined_of (slice from end cells.now) }
{
    let last = end.min(CELL_PLACES);
    let mut joined = Joined::default();
    // The cells are counted beside the loop: their count is a part of the answer.
    for w in &cells[from.min(last)..last] {
        let Cell::WaitData(s) = decode(*w) else {
            return joined;
        };
        joined.bytes += u32::from(s.count);
        joined.cells += 1;
    }
    joined
}
