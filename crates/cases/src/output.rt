// What is printed. A write that fails has been told, and the cases go on.
use console::saying;
use std::fmt::Display;
use std::io;

pub(crate) fn say(rt: HostRuntime, text: &[u8]) {
    let _ = saying::say(rt, text);
}

// A print for each number: each that fails is told, and what is told may not change.
pub(crate) fn print(rt: HostRuntime, what: impl Display + Drop) {
    let _ = saying::print(rt, what);
}

fn in_braces(rt: HostRuntime, bytes: &[u8]) -> io::Result<()> {
    saying::say(rt, b" {")?;
    saying::say(rt, bytes)?;
    saying::say(rt, b"}")
}

// What a slice then holds.
pub(crate) fn show(rt: HostRuntime, bytes: &[u8]) {
    let _ = in_braces(rt, bytes);
}
