// The readers: what a line asks of them, and what came back.
use super::asked::Asked;
use super::output::{print, say};
use hex_data::{HexFault, hex_byte, hex_count, hex_into};
use numbers::decimal::{number, pair};
use reader::bytes;

// No digit is printed as 16: what is printed may not change.
fn byte(rt: HostRuntime, b: u8) {
    let digit = bytes::digit(b).unwrap_or(16);
    print(rt, format_args!(": digit {digit}"));
    if bytes::blank(b) {
        say(rt, b", blank");
    }
}

fn word(rt: HostRuntime, text: &[u8], at: usize) {
    let from = words::after_blanks(text, at);
    let to = words::word_end(text, from);
    print(rt, format_args!(": from {from}"));
    print(rt, format_args!(" to {to}"));
}

// The name is the second text of the line.
fn named(rt: HostRuntime, mut asked: Asked<'_>) {
    let name = asked.second_text();
    let from = asked.place();
    let to = asked.place();
    let is_named = words::is_named(asked.text(), from, to, name);
    say(rt, if is_named { b": yes" } else { b": no" });
}

fn bad(rt: HostRuntime, at: usize) {
    print(rt, format_args!(": bad at {at}"));
}

// Counts, and reads into four bytes from a place on, which are shown in hex.
fn data(rt: HostRuntime, text: &[u8], at: usize, to: usize) {
    match hex_count(text, at) {
        Ok(n) => print(rt, format_args!(": count {n}")),
        Err(at) => bad(rt, at),
    }
    let mut out = [0xEEu8; 4];
    match hex_into(text, at, &mut out, to) {
        Ok(n) => print(rt, format_args!(": bytes {n}")),
        Err(HexFault::Wrong(at)) => bad(rt, at),
        Err(HexFault::Full) => say(rt, b": full"),
    }
    let [a, b, c, d] = out;
    print(rt, format_args!(" {{{a:02X}{b:02X}{c:02X}{d:02X}}}"));
}

fn value(rt: HostRuntime, mut asked: Asked<'_>) {
    let text = asked.text();
    let at = asked.place();
    let read = if asked.calls(b"number") {
        let digits = asked.place();
        number(text, at, digits, asked.word())
    } else if asked.calls(b"pair") {
        let low = asked.byte();
        pair(text, at, low, asked.byte())
    } else {
        hex_byte(text, at)
    };
    match read {
        Ok(n) => {
            let value = n.value;
            let next = n.next;
            print(rt, format_args!(": {value}"));
            print(rt, format_args!(", next {next}"));
        }
        Err(at) => bad(rt, at),
    }
}

// A name is whatever the line begins with, so it is tested and not matched: `bytes` asks for `byte`.
pub(crate) fn read(rt: HostRuntime, mut asked: Asked<'_>) {
    let text = asked.text();
    if asked.calls(b"byte") {
        byte(rt, asked.byte());
    } else if asked.calls(b"word") {
        word(rt, text, asked.place());
    } else if asked.calls(b"trimmed") {
        let end = words::trimmed_end(text);
        print(rt, format_args!(": {end}"));
    } else if asked.calls(b"named") {
        named(rt, asked);
    } else if asked.calls(b"data") {
        let at = asked.place();
        // The number between says how many bytes there are to read into, which are always four.
        asked.place();
        data(rt, text, at, asked.place());
    } else {
        value(rt, asked);
    }
}
