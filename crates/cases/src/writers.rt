// The writers: what a line asks of them, and what came back.
use super::asked::Asked;
use super::output::{print, say, show};
use writer::{put_bytes, put_decimal, put_hex, put_hex_digits, put_two_digits};

// Calls a writer on some bytes, and shows them afterwards.
fn called<F: FnOnce(&mut [u8]) -> Option<usize>>(rt: HostRuntime, out: &mut [u8], write: F)
    requires { F.IsAlwaysCallable write }
{
    match write(out) {
        Some(next) => print(rt, format_args!(": next {next}")),
        None => say(rt, b": no room"),
    }
    show(rt, out);
}

// As in `readers`, a line begins with the name, so it is tested and not matched.
pub(crate) fn put(rt: HostRuntime, mut asked: Asked<'_>) {
    let text = asked.text();
    if asked.calls(b"put decimal") {
        let n = asked.word();
        let at = asked.place();
        called(rt, &mut [b'.'; 12], |out| put_decimal(out, at, n));
    } else if asked.calls(b"put two digits") {
        let n = asked.byte();
        let at = asked.place();
        called(rt, &mut [b'.'; 4], |out| put_two_digits(out, at, n));
    } else if asked.calls(b"put hex digits") {
        let n = asked.byte();
        let at = asked.place();
        called(rt, &mut [b'.'; 4], |out| put_hex_digits(out, at, n));
    } else if asked.calls(b"put hex") {
        let at = asked.place();
        called(rt, &mut [b'.'; 8], |out| put_hex(out, at, text));
    } else {
        let at = asked.place();
        called(rt, &mut [b'.'; 8], |out| put_bytes(out, at, text));
    }
}
