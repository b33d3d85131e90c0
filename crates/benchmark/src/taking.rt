// Events, over and over: how many were taken.
use super::often::{sum, taken};
use events::receiving::receive;
use events::{read_clock, set_level, tick};
use language::Table;
use process::{Reading, State};

// A loop of its own: by `sum` a byte takes 33 instructions more, which the figures would show.
fn take_bytes(table: &Table, s: State, input: &[u8]) -> u64 {
    let mut state = s;
    let mut sum = 0u64;
    for byte in input {
        sum = sum.wrapping_add(taken(receive(&table.pool, table.heads, state, *byte), &mut state));
    }
    sum
}

// Each time from the same state.
pub(crate) fn byte_often(table: &Table, s: State, input: &[u8], count: u64) -> u64 {
    sum(0..count, |_| take_bytes(table, s, input))
}

// Three times the same but for the event: by one function of an event a reading or a level takes 80 instructions more.
pub(crate) fn tick_often(s: State, count: u64) -> u64 {
    let mut state = s;
    sum(0..count, |_| taken(tick(state), &mut state))
}

fn reading(k: u64) -> Reading {
    Reading {
        year: 24,
        month: 5,
        day: 6,
        hour: 7,
        minute: 8,
        second: (k % 32) as u8,
    }
}

pub(crate) fn clock_often(s: State, count: u64) -> u64 {
    let mut state = s;
    sum(
        0..count,
        |k| taken(read_clock(state, reading(k)), &mut state),
    )
}

pub(crate) fn level_often(s: State, count: u64) -> u64 {
    let mut state = s;
    sum(
        0..count,
        |k| taken(set_level(state, 2, k % 2 == 1), &mut state),
    )
}
