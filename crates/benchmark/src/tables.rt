// A text compiled, and its table listed and started, over and over.
use super::often::{sum, taken};
use compiler::compile;
use language::{CELL_PLACES, LISTING, Table};
use lister::list;
use runner::starting::{idle, start};

// The stretch of a text, or the line of its fault: one number for both, since what is printed may not change.
fn stretch(text: &[u8]) -> u64 {
    match compile(text).answer {
        Ok(stretch) => u64::from(stretch),
        Err(refusal) => u64::from(refusal.line),
    }
}

pub(crate) fn compile_often(text: &[u8], count: u64) -> u64 {
    let mut last = 0u64;
    for _ in 0..count {
        last = stretch(text);
    }
    last
}

// The bytes of all listings, and of the last.
#[derive(Clone, Copy)]
pub struct Listings {
    pub all: u64,
    pub one: u64,
}

// The lister writes into a lent slice, as in the box.
pub(crate) fn list_often(table: &Table, count: u64) -> Listings {
    let mut out = [0u8; LISTING];
    let mut one = 0u64;
    let all = sum(0..count, |_| {
        let listed = list(&table.cells, &table.pool, table.heads, &mut out);
        // 0 for a refusal: what is printed may not change.
        one = listed.map_or(0, |n| n as u64);
        one
    });
    Listings { all, one }
}

pub(crate) fn start_often(table: &Table, count: u64) -> u64 {
    let mut counts = [0u32; CELL_PLACES];
    let mut state = idle();
    sum(0..count, |_| {
        let started = start(&table.cells, &table.pool, table.heads, state, &mut counts);
        taken(started, &mut state)
    })
}
