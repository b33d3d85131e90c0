// Runs the script of a file on operations, one a line, and prints one outcome line for each.
//   replay SCRIPT < OPERATIONS
//   replay --check NAME ..    holds whole cases against their files
#![tactic(auto)]

use compiler::compile;
use console::arguments::{Given, WORD, asked, is_word, word};
use console::reading::read_file_into;
use console::saying::{print, tell};
use language::TEXT;
use showing::Refused;
use stop::Stop;

mod checking;
mod differences;
mod operations;
mod outcomes;
mod running;
mod showing;
mod sizes;
mod stop;
mod tally;
mod telling;

// One byte more than a text may have shows that it is too long. The box never holds a text: each program says it.
pub(crate) const ROOM: usize = TEXT + 1;

const USAGE: &[u8] = b"usage: replay SCRIPT < OPERATIONS
       replay --check NAME ..
Runs the script of a file on operations, one a line, and prints an outcome for each; or holds
NAME.script against NAME.listing, and its run on NAME.operations against NAME.outcomes.
";

// Runs a script on the operations of standard input.
fn run_named(rt: HostRuntime) -> Result<(), Stop> {
    let mut buffer = [0u8; WORD];
    let name = word(rt, 1, &mut buffer).unwrap_or(b"");
    let mut text = Vec::new(rt.alloc());
    read_file_into(rt, name, ROOM, &mut text)?;
    let compiled = compile(&text);
    match compiled.answer {
        Ok(_) => running::print_run(rt, &compiled.table),
        Err(refusal) => {
            let refused = Refused(refusal);
            Ok(print(rt, format_args!("{refused}\n"))?)
        }
    }
}

// A NAME at least for `--check`, and else one SCRIPT.
fn on_words(rt: HostRuntime, is_check: bool, count: usize) -> Result<(), Stop> {
    if is_check && 2 < count {
        return tally::check_all(rt, count);
    }
    if !is_check && count == 2 {
        return run_named(rt);
    }
    Ok(tell(rt, &rt.stderr(), USAGE)?)
}

fn run(rt: HostRuntime) -> Result<(), Stop> {
    let is_check = is_word(rt, 1, b"--check");
    match asked(rt, if is_check { 2 } else { 1 }) {
        Given::Help => Ok(tell(rt, &rt.stdout(), USAGE)?),
        Given::Mistaken => Ok(tell(rt, &rt.stderr(), USAGE)?),
        Given::Words(count) => on_words(rt, is_check, count),
    }
}

fn main(rt: HostRuntime) {
    if let Err(Stop::OutOfMemory) = run(rt) {
        let _ = rt.eprintln("out of memory");
    }
}
