// The start: every process with statements is ready, the levels are off, the counts are 0.
ghost use Rattle.std.specs.Prelude.{◌≡◌, ◌<◌};
ghost use Rattle.language.specs.Table.{table, zero_table};
ghost use Rattle.accepted.specs.Accepted.{table_right};
ghost use Rattle.runner.specs.Starting.{start_at, started, started_from, start_state, no_reading, no_counts, start_event, start_counts};
ghost use Rattle.language.specs.Limits.{process_places};

use accepted::is_accepted;
use language::{CELL_PLACES, Cells, Heads, LOOP_PLACES, PROCESS_PLACES, Pool, SIGNALS};
use process::waits::awaken;
use process::{Event, Process, Reading, RunRefusal, State};

// How often each LOG statement has recorded, by the place of its cell.
pub type Counts = [u32; CELL_PLACES];

// A process at its first statement, with no loop open.
fn start_at(first: u16, end: u16) -> Process
    ensures { result ≡ start_at first end }
{
    Process {
        place: first,
        end,
        depth: 0,
        left: [0; LOOP_PLACES],
        back: [0; LOOP_PLACES],
        wait: awaken(first, end),
    }
}

// Process i begins after the one before it; one that the table does not have is over.
#[tactic(auto, unfolding(crate::specs::Starting::started))]
fn started_at(heads: Heads, i: usize) -> Process
    requires { i < process_places }
    ensures { result ≡ started heads i }
{
    if usize::from(heads.processes) <= i {
        return start_at(0, 0);
    }
    let first = if i == 0 { 0 } else { heads.ends[i - 1] };
    start_at(first, heads.ends[i])
}

fn all_started(heads: Heads) -> [Process; PROCESS_PLACES]
    ensures { result ≡ started_from heads 0 process_places }
{
    // Not `array::from_fn`: of a closure that holds the heads its contract tells too little.
    let mut all = [start_at(0, 0); PROCESS_PLACES];
    for i in 0..PROCESS_PLACES {
        all[i] = started_at(heads, i);
    }
    all
}

// "000101000000 (yymmddhhmmss) before any" reading.
fn no_reading() -> Reading
    ensures { result ≡ no_reading }
{
    Reading {
        year: 0,
        month: 1,
        day: 1,
        hour: 0,
        minute: 0,
        second: 0,
    }
}

// The state of a start: "Levels start off", recording is not paused.
#[tactic(auto, unfolding(crate::specs::Starting::start_state))]
fn start_state(heads: Heads) -> State
    ensures { result ≡ start_state heads }
{
    State {
        processes: all_started(heads),
        reading: no_reading(),
        levels: [false; SIGNALS],
        paused: false,
    }
}

/// The state of a box before any start: no process has a statement.
#[tactic(auto, unfolding(language::specs::Table::zero_table))]
pub fn idle() -> State
    ensures { result ≡ start_state zero_table.heads }
{
    start_state(Heads::default())
}

// The counts of all LOG statements, "from 0".
fn clear(counts: &mut Counts)
    ensures { counts.new ≡ no_counts }
{
    *counts = [0; CELL_PLACES];
}

/// Starts the script of a table; a table that no accepted script has is refused, and the state handed back.
#[tactic(auto, unfolding(crate::specs::Starting::start_event, crate::specs::Starting::start_counts))]
pub fn start<'a>(
    cells: &'a Cells,
    pool: &'a Pool,
    heads: Heads,
    s: State,
    counts: &mut Counts,
) -> Event<()>
    ensures { (result ≡ start_event (table_right (table cells.now pool.now heads)) heads s)
        × (counts.new ≡ start_counts (table_right (table cells.now pool.now heads))
        counts.old) }
{
    if is_accepted(cells, pool, heads) {
        clear(counts);
        return Event {
            state: start_state(heads),
            answer: Ok(()),
        };
    }
    Event {
        state: s,
        answer: Err(RunRefusal::BadTable),
    }
}
