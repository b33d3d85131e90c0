// Reads a script, of a file or on standard input, and prints its listing, or `refused N at L,C`.
#![tactic(auto)]

use compiler::compile;
use compiler::faults::number;
use console::arguments::{Given, WORD, asked, word};
use console::parts::first;
use console::reading::{read_file_into, read_whole_into};
use console::saying::{print, say, tell};
use language::{LISTING, TEXT, Table};
use lister::list;
use std::io;

// One byte more than a text may have shows that it is too long. The box never holds a text: each program says it.
const ROOM: usize = TEXT + 1;

fn usage(rt: HostRuntime, to: &impl Print) -> io::Result<()> {
    tell(
        rt,
        to,
        b"usage: list_script [FILE]\n\
        Reads a script from FILE, or without it from standard input, and prints\n\
        its listing, each line ended by CR LF, or `refused N at L,C`: the number\n\
        of the refusal, the line and the column, as README.md lists them.\n",
    )
}

// A buffer of LISTING bytes has room for every listing. The lister writes into a lent slice, as in the box.
fn say_listing(rt: HostRuntime, table: &Table) -> io::Result<()> {
    let mut out = [0u8; LISTING];
    match list(&table.cells, &table.pool, table.heads, &mut out) {
        Ok(n) => say(rt, first(&out, n)),
        Err(_) => Ok(()),
    }
}

// Each program spells a refusal: the core has no printing.
fn list_text(rt: HostRuntime, text: &[u8]) -> io::Result<()> {
    let compiled = compile(text);
    match compiled.answer {
        Ok(_) => say_listing(rt, &compiled.table),
        Err(refusal) => {
            let n = number(refusal.fault);
            print(
                rt,
                format_args!("refused {n} at {},{}\n", refusal.line, refusal.column),
            )
        }
    }
}

fn read_named(rt: HostRuntime, text: &mut Vec<u8>) -> io::Result<()> {
    let mut buffer = [0u8; WORD];
    let name = word(rt, 1, &mut buffer).unwrap_or(b"");
    read_file_into(rt, name, ROOM, text)
}

// The text of FILE if there is one, else that of standard input.
fn read_text(rt: HostRuntime, count: usize, text: &mut Vec<u8>) -> io::Result<()> {
    if count < 2 {
        return read_whole_into(rt, &mut rt.stdin(), b"standard input", ROOM, text);
    }
    read_named(rt, text)
}

fn on_words(rt: HostRuntime, count: usize) -> io::Result<()> {
    if 2 < count {
        return usage(rt, &rt.stderr());
    }
    let mut text = Vec::new(rt.alloc());
    read_text(rt, count, &mut text)?;
    list_text(rt, &text)
}

// What fails has been told.
fn main(rt: HostRuntime) {
    let _ = match asked(rt, 1) {
        Given::Help => usage(rt, &rt.stdout()),
        Given::Mistaken => usage(rt, &rt.stderr()),
        Given::Words(count) => on_words(rt, count),
    };
}
