// The library `console`, tried by the gate on given words, input and files: a line for each answer.
#![tactic(auto)]

use console::arguments::{Given, asked, is_word};
use console::lines::{LineFault, Lines};
use console::reading::{open, read_file_into};
use console::saying::{print, say, tell};
use std::io;
use std::io::Read;

fn usage(rt: HostRuntime, to: &impl Print) -> io::Result<()> {
    tell(
        rt,
        to,
        b"usage: console_cases [--help] < LINES\n\
        Prints what the library `console` makes of its words, of two files\n\
        and of the lines of its input.\n",
    )
}

fn say_words(rt: HostRuntime) -> io::Result<()> {
    match asked(rt, 1) {
        Given::Help => usage(rt, &rt.stdout()),
        Given::Mistaken => say(rt, b"mistaken\n"),
        Given::Words(count) => print(rt, format_args!("{count} words\n")),
    }
}

fn say_answer(rt: HostRuntime, is: bool) {
    let _ = say(rt, if is { b"yes\n" } else { b"no\n" });
}

fn say_file(rt: HostRuntime, name: &str) {
    let mut text = Vec::new(rt.alloc());
    let is_read = read_file_into(rt, name.as_bytes(), 64, &mut text).is_ok();
    let n = text.len();
    let _ = print(rt, format_args!("{name}: {n} bytes, read: "));
    say_answer(rt, is_read);
}

fn say_line(rt: HostRuntime, line: &[u8]) -> io::Result<()> {
    say(rt, b"[")?;
    say(rt, line)?;
    say(rt, b"]\n")
}

fn say_lines<R: Read>(rt: HostRuntime, input: &mut R, name: &[u8]) -> io::Result<()> {
    let mut lines = Lines::new(rt, input, name)?;
    for _ in 0..100 {
        match lines.next() {
            Ok(Some(line)) => say_line(rt, line)?,
            Ok(None) => return say(rt, b"end\n"),
            Err(LineFault::TooLong) => say(rt, b"too long\n")?,
            Err(LineFault::Unread) => return say(rt, b"unread\n"),
        }
    }
    Ok(())
}

// A folder is opened as a file is, and cannot be read.
fn say_folder(rt: HostRuntime) -> io::Result<()> {
    match open(rt, b".") {
        Ok(mut folder) => say_lines(rt, &mut folder, b"the folder"),
        Err(_) => say(rt, b"unread\n"),
    }
}

fn main(rt: HostRuntime) {
    let _ = say_words(rt);
    say_answer(rt, is_word(rt, 1, b"--help"));
    say_answer(rt, is_word(rt, 1, b"--hel"));
    say_answer(rt, is_word(rt, 2, b""));
    say_file(rt, "note");
    say_file(rt, "nowhere");
    let _ = say_lines(rt, &mut rt.stdin(), b"standard input");
    let _ = say_folder(rt);
}
