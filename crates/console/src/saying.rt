// What a program says. A write that fails is told on standard error.
ghost use Rattle.std.specs.Prelude.{◌≡◌};

use std::fmt::Display;
use std::io;
use std::io::Error;

// The system's word for an error, without the number that std puts behind it.
fn tell_word(rt: HostRuntime, error: Error) {
    let _ = match format!(in rt.alloc(); "{error}") {
        Ok(text) => match text.as_str().split_once(" (os error ") {
            Some((word, _)) => rt.eprintln(word),
            None => rt.eprintln(text.as_str()),
        },
        Err(_) => rt.eprintln(error),
    };
}

// What failed, by its name and the system's word. Where even that cannot be told, nothing can be.
pub(crate) fn fail(rt: HostRuntime, name: &[u8], error: Error) {
    let errors = rt.stderr();
    let _ = errors.write_all(name);
    let _ = errors.write_all(b": ");
    tell_word(rt, error);
}

// Hands on what came of something; what failed is told by its name.
pub(crate) fn told<T>(rt: HostRuntime, name: &[u8], came: io::Result<T>) -> io::Result<T>
    ensures { result ≡ came }
{
    came.inspect_err(|error| fail(rt, name, *error))
}

// A text, on standard output or standard error.
pub fn tell(rt: HostRuntime, to: &impl Print, text: &[u8]) -> io::Result<()> {
    told(rt, b"standard output", to.write_all(text))
}

// On standard output.
pub fn say(rt: HostRuntime, text: &[u8]) -> io::Result<()> {
    tell(rt, &rt.stdout(), text)
}

// On standard output, whatever can be printed. No contract: std promises nothing of what is printed.
pub fn print(rt: HostRuntime, what: impl Display + Drop) -> io::Result<()> {
    told(rt, b"standard output", rt.print(what))
}
