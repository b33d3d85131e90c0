// Does one thing many times, to be timed or counted from outside, and prints what came of it.
//   benchmark compile SCRIPT N      compiles the script N times: its stretch, or the line of its fault
//   benchmark list SCRIPT N         lists its table N times: the bytes in all, and those of one listing
//   benchmark start SCRIPT N        starts it N times: how often that was taken
//   benchmark drain SCRIPT N        N times drains it until it is quiet, and ticks: statements done and ticks taken
//   benchmark byte SCRIPT N INPUT   N times has it, quiet, take the bytes of a file: how many were taken
//   benchmark tick SCRIPT N         has it, quiet, take N ticks: how many were taken; `clock` and `level` likewise
//   benchmark bytes SCRIPT N INPUT  N times has it, quiet, take the bytes of a file in one gulp: how many, and what the last left
//   benchmark ticks SCRIPT N COUNT  has it, quiet, take N gulps of COUNT ticks: how many were taken
#![tactic(auto)]

use compiler::compile;
use compiler::faults::number;
use console::arguments::{Given, WORD, asked, word};
use console::reading::read_file_into;
use console::saying::{print, tell};
use language::{CELL_PLACES, TEXT, Table};
use process::State;
use runner::starting::{idle, start};
use std::io;

mod drains;
mod gulping;
mod often;
mod tables;
mod taking;

// One byte more than a text may have shows that it is too long. The box never holds a text: each program says it.
const ROOM: usize = TEXT + 1;

#[derive(Clone, Copy, PartialEq, Eq)]
enum What {
    Compile,
    List,
    Start,
    Drain,
    Tick,
    Clock,
    Level,
    Byte,
    Bytes,
    // Gulps of COUNT ticks.
    Ticks(u32),
}

impl What {
    fn named(name: &[u8], count: u32) -> Option<What> {
        match name {
            b"compile" => Some(What::Compile),
            b"list" => Some(What::List),
            b"start" => Some(What::Start),
            b"drain" => Some(What::Drain),
            b"tick" => Some(What::Tick),
            b"clock" => Some(What::Clock),
            b"level" => Some(What::Level),
            b"byte" => Some(What::Byte),
            b"bytes" => Some(What::Bytes),
            b"ticks" => Some(What::Ticks(count)),
            _ => None,
        }
    }

    // How many words it takes, the program's own name among them.
    fn words(self) -> usize {
        match self {
            What::Byte | What::Bytes | What::Ticks(_) => 5,
            _ => 4,
        }
    }
}

// What is done, how many times, and the bytes of INPUT if it takes any.
#[derive(Clone, Copy)]
struct Job<'a> {
    what: What,
    count: u64,
    input: &'a [u8],
}

// The events on a script that is quiet. Here, and in the three below, `What` is asked again: each takes no more than it
// needs (a text, a table, a start, a quiet script), and closures in its place would be no plainer.
fn on_quiet(job: Job, table: &Table, s: State) -> u64 {
    match job.what {
        What::Byte => taking::byte_often(table, s, job.input, job.count),
        What::Bytes => gulping::bytes_often(table, s, job.input, job.count),
        What::Ticks(ticks) => gulping::ticks_often(s, ticks, job.count),
        What::Clock => taking::clock_often(s, job.count),
        What::Level => taking::level_often(s, job.count),
        _ => taking::tick_often(s, job.count),
    }
}

// What is done with a script that is started.
fn on_started(job: Job, table: &Table) -> u64 {
    let mut counts = [0u32; CELL_PLACES];
    let started = start(&table.cells, &table.pool, table.heads, idle(), &mut counts);
    if job.what == What::Drain {
        return drains::drain_often(table, started.state, &mut counts, job.count);
    }
    let drained = drains::drain_all(table, started.state, &mut counts);
    on_quiet(job, table, drained.state)
}

// The bytes of all listings and of one.
fn list_often(rt: HostRuntime, job: Job, table: &Table) -> io::Result<()> {
    let listed = tables::list_often(table, job.count);
    print(rt, format_args!("{} {}\n", listed.all, listed.one))
}

fn say_sum(rt: HostRuntime, sum: u64) -> io::Result<()> {
    print(rt, format_args!("{sum}\n"))
}

fn on_table(rt: HostRuntime, job: Job, table: &Table) -> io::Result<()> {
    match job.what {
        What::List => list_often(rt, job, table),
        What::Start => say_sum(rt, tables::start_often(table, job.count)),
        _ => say_sum(rt, on_started(job, table)),
    }
}

// Each program spells a refusal: the core has no printing.
fn on_text(rt: HostRuntime, job: Job, text: &[u8]) -> io::Result<()> {
    if job.what == What::Compile {
        return say_sum(rt, tables::compile_often(text, job.count));
    }
    let compiled = compile(text);
    match compiled.answer {
        Ok(_) => on_table(rt, job, &compiled.table),
        Err(refusal) => {
            let n = number(refusal.fault);
            print(
                rt,
                format_args!("refused {n} at {},{}\n", refusal.line, refusal.column),
            )
        }
    }
}

// The number of a word; 0 where it is none: N of 0 tells the usage, COUNT of 0 is no tick, which may not change.
fn value(rt: HostRuntime, place: usize) -> u32 {
    let mut buffer = [0u8; WORD];
    let text = word(rt, place, &mut buffer).unwrap_or(b"");
    numbers::decimal::number(text, 0, 10, u32::MAX).map_or(0, |number| number.value)
}

fn usage(rt: HostRuntime, to: &impl Print) -> io::Result<()> {
    tell(
        rt,
        to,
        b"usage: benchmark compile|list|start|drain|tick|clock|level SCRIPT N\n       \
        benchmark byte|bytes SCRIPT N INPUT, benchmark ticks SCRIPT N COUNT\n\
        Does that N times with the script, bytes and ticks as one gulp each time, byte with each byte of\n\
        INPUT by itself, and prints what came of it: `tools/benchmark` times it.\n",
    )
}

// The bytes of a file whose name is a word.
fn read_word(rt: HostRuntime, place: usize) -> io::Result<Vec<u8>> {
    let mut buffer = [0u8; WORD];
    let name = word(rt, place, &mut buffer).unwrap_or(b"");
    let mut bytes = Vec::new(rt.alloc());
    read_file_into(rt, name, ROOM, &mut bytes)?;
    Ok(bytes)
}

fn read_input(rt: HostRuntime, what: What) -> io::Result<Vec<u8>> {
    match what {
        What::Byte | What::Bytes => read_word(rt, 4),
        _ => Ok(Vec::new(rt.alloc())),
    }
}

// Of two files that cannot be read both are told.
fn on_script(rt: HostRuntime, what: What, count: u64) -> io::Result<()> {
    let (text, input) = (read_word(rt, 2), read_input(rt, what));
    let (text, input) = (text?, input?);
    let job = Job {
        what,
        count,
        input: &input,
    };
    on_text(rt, job, &text)
}

fn on_words(rt: HostRuntime, words: usize) -> io::Result<()> {
    let mut buffer = [0u8; WORD];
    let name = word(rt, 1, &mut buffer).unwrap_or(b"");
    let count = u64::from(value(rt, 3));
    match What::named(name, value(rt, 4)) {
        Some(what) if 0 < count && words == what.words() => on_script(rt, what, count),
        _ => usage(rt, &rt.stderr()),
    }
}

// What fails has been told.
fn main(rt: HostRuntime) {
    let _ = match asked(rt, 1) {
        Given::Help => usage(rt, &rt.stdout()),
        Given::Mistaken => usage(rt, &rt.stderr()),
        Given::Words(words) => on_words(rt, words),
    };
}
