// Drains until a script is quiet, over and over.
use events::tick;
use figures::runs::LIMIT;
use language::{DRAIN, PROCESSES, Table};
use process::State;
use runner::draining::drain;
use runner::starting::Counts;
use statement::outcome::Outcome;

// No process does more than 4,097 statements before it rests.
const MOST: u64 = PROCESSES as u64 * (LIMIT as u64 + 1);

// The state when the script is quiet, and how many statements were done until then.
#[derive(Clone, Copy)]
pub struct Drains {
    pub state: State,
    pub count: u64,
}

// The buffer is an array, as the box has it: what is lent to it is never grown.
pub(crate) fn drain_all(table: &Table, s: State, counts: &mut Counts) -> Drains {
    let mut out = [0u8; DRAIN];
    let mut state = s;
    for count in 0..MOST {
        let drained = drain(&table.cells, &table.pool, state, counts, &mut out);
        state = drained.state;
        if matches!(drained.outcome, Outcome::Quiet | Outcome::Refused(_)) {
            return Drains { state, count };
        }
    }
    Drains { state, count: MOST }
}

// A loop of its own: by `sum` a turn takes 48 instructions more, which the figures would show.
pub(crate) fn drain_often(table: &Table, s: State, counts: &mut Counts, count: u64) -> u64 {
    let mut state = s;
    let mut sum = 0u64;
    for _ in 0..count {
        let drained = drain_all(table, state, counts);
        let ticked = tick(drained.state);
        state = ticked.state;
        sum = sum.wrapping_add(drained.count);
        sum = sum.wrapping_add(u64::from(ticked.answer.is_ok()));
    }
    sum
}
