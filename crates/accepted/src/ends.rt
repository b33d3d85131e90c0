// Where the processes end.
ghost use Rattle.std.specs.Prelude.{◌≡◌, take};
ghost use Rattle.accepted.specs.Inside.Heads.{ends_right, in_use};
ghost use Rattle.accepted.specs.Inside.EndsFit.{reaches, ends_reach};

use crate::zeros::all_from;
use language::{CELL_PLACES, Heads, PROCESSES};

// Each process ends where it begins or later, and within the cells: the last end.
fn last_end(ends: &[u16], processes: usize) -> Option<usize>
    ensures { result ≡ ends_reach 0 (take processes ends.now) }
{
    let mut last = 0usize;
    for end in &ends[..processes.min(ends.len())] {
        let end = usize::from(*end);
        if end < last || CELL_PLACES < end {
            return None;
        }
        last = end;
    }
    Some(last)
}

// How many cells are in use, if the ends of the processes are right.
pub(crate) fn cells_in_use(heads: Heads) -> Option<usize>
    ensures { result ≡ reaches (ends_right heads) (in_use heads) }
{
    let processes = usize::from(heads.processes);
    if processes < 1 || PROCESSES < processes || !all_from(&heads.ends, processes, &0) {
        return None;
    }
    last_end(&heads.ends, processes)
}
