// Cases on both sides of each bound, a line of the input for each: readers and writers called, and texts compiled.
#![tactic(auto)]

mod asked;
mod output;
mod readers;
mod spelling;
mod texts;
mod writers;

use asked::Asked;
use console::arguments::{Given, asked};
use console::reading::read_whole_into;
use console::saying::tell;
use output::say;
use std::io;

// Of a longer input the last cases would be missing in what is printed: it is not taken.
const INPUT: usize = 16384;

const USAGE: &[u8] = b"usage: cases < CASES
Calls the readers and writers, or compiles a text, as each line of the input asks,
and prints the line with what came back.
";

// A reader or a writer called: the line and what came back.
fn call(rt: HostRuntime, line: &[u8]) {
    say(rt, line);
    let asked = Asked::new(line);
    if asked.calls(b"put ") {
        writers::put(rt, asked);
    } else {
        readers::read(rt, asked);
    }
}

fn take_case(rt: HostRuntime, line: &[u8], compiles: bool) {
    if compiles {
        texts::compiled(rt, line);
    } else {
        call(rt, line);
    }
    say(rt, b"\n");
}

// A heading tells whether the lines below it are texts to compile; each other line is a case. The last may lack its LF.
fn all_cases(rt: HostRuntime, input: &[u8]) {
    if input.is_empty() {
        return;
    }
    let lines = input.strip_suffix(b"\n").unwrap_or(input);
    let mut compiles = false;
    for line in lines.split(|b| *b == b'\n') {
        if line.starts_with(b"Each line below ") {
            compiles = line.starts_with(b"Each line below is a text");
        } else {
            take_case(rt, line, compiles);
        }
    }
}

fn on_words(rt: HostRuntime, words: usize) -> io::Result<()> {
    if 1 < words {
        return tell(rt, &rt.stderr(), USAGE);
    }
    let mut input = Vec::new(rt.alloc());
    read_whole_into(rt, &mut rt.stdin(), b"standard input", INPUT, &mut input)?;
    if input.len() < INPUT {
        all_cases(rt, &input);
        return Ok(());
    }
    tell(
        rt,
        &rt.stderr(),
        b"standard input: over 16383 bytes are not taken\n",
    )
}

fn main(rt: HostRuntime) {
    // What failed has been told.
    let _ = match asked(rt, 1) {
        Given::Help => tell(rt, &rt.stdout(), USAGE),
        Given::Mistaken => tell(rt, &rt.stderr(), USAGE),
        Given::Words(words) => on_words(rt, words),
    };
}
