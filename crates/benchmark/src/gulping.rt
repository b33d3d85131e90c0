// Gulps, over and over: how many bytes or ticks were taken.
use super::ROOM;
use super::often::sum;
use events::receiving::receive_run;
use events::tick_run;
use language::Table;
use process::taking::any_ready;
use process::{Gulped, State};

// Every byte of an input may be recorded twice. An array, as the box has it: what is lent to it is never grown.
const RECORDS: usize = 2 * ROOM;

fn taken(answer: Gulped) -> u64 {
    answer.map_or(0, |gulp| gulp.taken as u64)
}

// What the last gulp left: 1 more than its first record where a process is ready.
fn left_by(s: State, record: u8) -> u64 {
    u64::from(record) + u64::from(any_ready(s.processes))
}

// Each time from the same state. What the last one left is added, since the compiler drops what nobody reads.
pub(crate) fn bytes_often(table: &Table, s: State, input: &[u8], count: u64) -> u64 {
    let mut records = [0u8; RECORDS];
    let mut after = s;
    let all = sum(0..count, |_| {
        let e = receive_run(&table.pool, table.heads, s, input, &mut records);
        after = e.state;
        taken(e.answer)
    });
    all.wrapping_add(left_by(after, records[0]))
}

// Where a process is ready it begins anew.
pub(crate) fn ticks_often(s: State, ticks: u32, count: u64) -> u64 {
    let mut state = s;
    sum(0..count, |_| {
        let e = tick_run(state, ticks);
        state = if e.answer.is_ok() { e.state } else { s };
        taken(e.answer)
    })
}
