// Where a statement takes its process: the next place, the open loops, and the wait. None: a place, loop or data range leaves the table.
ghost use Rattle.std.specs.Prelude.{◌≡◌, ◌+◌, ◌<◌, ◌≤◌, false, slice_index_or};
ghost use Rattle.statement.specs.Inside.Joined.{joined_of};
ghost use Rattle.statement.specs.Inside.InTable.{in_table};
ghost use Rattle.statement.specs.Moving.{goes_on, rests_at, awaits, rests_unless, signalled, after_place, moved_by, cell_at, moved};
ghost use Rattle.language.specs.Limits.{cell_places};

use crate::joining::{Joined, join};
use crate::loops::{closes, goes_to, opens};
use cells::decoder::cell_at;
use language::{CELL_PLACES, Cell, Cells, Level, POOL_PLACES, SIGNALS, Span};
use process::{Process, Progress, Wait};

// The lengths of the table's arrays, as wide as what is held against them: language's own are as wide as an index.
const POOL: u32 = POOL_PLACES as u32;

const CELLS: u16 = CELL_PLACES as u16;

// That a place lies in the table is in each contract: a struct with the bound, made anew at each step, is no plainer.

// A process after its statement, and the cell at its place, so that a drain decodes it once.
#[derive(Clone, Copy)]
pub struct Stepped {
    pub moved: Option<Process>,
    pub cell: Cell,
}

// On to the next statement.
fn passes_on(p: Process) -> Process
    requires { p.place < cell_places }
    ensures { result ≡ (goes_on p).process }
{
    goes_to(p, p.place + 1)
}

// A rest, with the next statement at a place.
fn rests_at(p: Process, place: u16, wait: Wait) -> Process
    ensures { result ≡ (rests_at p place wait).process }
{
    Process { place, wait, ..p }
}

// "Zero waits pass."
#[tactic(auto, unfolding(crate::specs::Moving::rests_unless))]
fn rests_unless(p: Process, n: u32, wait: Wait) -> Process
    requires { p.place < cell_places }
    ensures { Some result ≡ in_table (rests_unless p n wait) }
{
    if n == 0 {
        passes_on(p)
    } else {
        rests_at(p, p.place + 1, wait)
    }
}

// WAIT DATA begins, with the lines that follow it.
#[tactic(auto, unfolding(crate::specs::Moving::awaits))]
fn awaits_data(p: Process, s: Span, j: Joined) -> Option<Process>
    requires { (p.place < cell_places) × (p.place + 1 + j.cells ≤ 65535) }
    ensures { result ≡ in_table (awaits p s j.cells j.bytes) }
{
    // Tested first, so that no sum of them wraps.
    if POOL < j.bytes {
        return None;
    }
    let count = u32::from(s.count) + j.bytes;
    if POOL < u32::from(s.from) + count {
        return None;
    }
    let progress = Progress {
        from: s.from,
        count: count as u16,
        matched: 0,
    };
    Some(rests_at(p, p.place + 1 + j.cells, Wait::Data(progress)))
}

// The WAIT DATA lines after the place of a process.
fn neighbours_in(p: Process, cells: &Cells) -> Joined
    requires { p.place < cell_places }
    ensures { (result ≡ joined_of (after_place cells.now p)) × (p.place + 1 + result.cells ≤ 65535) }
{
    join(cells, usize::from(p.place) + 1, usize::from(p.end))
}

// The statement that a cell says.
#[tactic(auto, unfolding(crate::specs::Moving::moved_by))]
fn moves_by(p: Process, cells: &Cells, levels: [bool; SIGNALS], cell: Cell) -> Option<Process>
    requires { p.place < cell_places }
    ensures { result ≡ in_table (moved_by cells.now levels p cell) }
{
    match cell {
        Cell::Nothing | Cell::Unknown => None,
        Cell::Loop(n) => opens(p, p.place + 1, n),
        Cell::End => closes(p, p.place + 1),
        Cell::WaitTime(n) => Some(rests_unless(p, n, Wait::Ticks(n))),
        Cell::WaitData(s) => awaits_data(p, s, neighbours_in(p, cells)),
        Cell::WaitByte(n) => Some(rests_unless(p, u32::from(n), Wait::Bytes(n))),
        Cell::WaitClock(c) => Some(rests_at(p, p.place + 1, Wait::ClockValue(c))),
        Cell::WaitSignal(l) => Some(awaits_level(p, levels, l)),
        _ => Some(passes_on(p)),
    }
}

// Where its cell takes a process: its place lies within the table and before its end, or it strays.
#[tactic(auto, unfolding(crate::specs::Moving::moved))]
fn moves_at(p: Process, cells: &Cells, levels: [bool; SIGNALS], cell: Cell) -> Option<Process>
    requires { cell ≡ cell_at cells.now p }
    ensures { result ≡ in_table (moved cells.now levels p) }
{
    if p.place < CELLS && p.place < p.end {
        moves_by(p, cells, levels, cell)
    } else {
        None
    }
}

// One statement of a process that is ready.
pub fn step(p: Process, cells: &Cells, levels: [bool; SIGNALS]) -> Stepped
    ensures { (result.moved ≡ in_table (moved cells.now levels p)) × (result.cell ≡ cell_at cells.now p) }
{
    let cell = cell_at(cells, usize::from(p.place));
    let moved = moves_at(p, cells, levels, cell);
    Stepped { moved, cell }
}

// A wait for a level.
#[tactic(auto, unfolding(crate::specs::Moving::signalled, process::specs::Waiting::same_level))]
fn awaits_level(p: Process, levels: [bool; SIGNALS], l: Level) -> Process
    requires { p.place < cell_places }
    ensures { Some result ≡ in_table (signalled p levels l) }
{
    if l.on == level_of(levels, l.signal) {
        passes_on(p)
    } else {
        rests_at(p, p.place + 1, Wait::Signal(l))
    }
}

// The level of a signal; off where there is none.
fn level_of(levels: [bool; SIGNALS], signal: u8) -> bool
    ensures { result ≡ slice_index_or levels signal false }
{
    levels.get(usize::from(signal)).copied().unwrap_or(false)
}
