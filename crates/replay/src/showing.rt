// How a refusal, and a line of a text, are shown.
use compiler::faults::number;
use console::parts::first;
use language::Refusal;
use std::fmt;

// As `list_script` prints it, but for the line's end. Each program spells it: the core has no printing.
#[derive(Clone, Copy)]
pub struct Refused(pub Refusal);

impl fmt::Display for Refused {
    fn fmt<W: fmt::Write>(&self, f: &mut fmt::Formatter<W>) -> fmt::Result {
        let number = number(self.0.fault);
        let line = self.0.line;
        let column = self.0.column;
        write!(f, "refused {number} at {line},{column}")
    }
}

// The most bytes of a line that are shown.
const MOST: usize = 300;

// A byte that a terminal shows stands as it is, any other in hex.
#[derive(Clone, Copy)]
struct Shown<'a>(&'a [u8]);

impl fmt::Display for Shown<'_> {
    fn fmt<W: fmt::Write>(&self, f: &mut fmt::Formatter<W>) -> fmt::Result {
        for b in first(self.0, MOST) {
            match *b {
                b' '..=b'~' => f.write_char(char::from(*b))?,
                b => write!(f, "\\x{b:02X}")?,
            }
        }
        if MOST < self.0.len() {
            f.write_str(" ..")?;
        }
        Ok(())
    }
}

// What there is of a line, in backquotes.
#[derive(Clone, Copy)]
pub struct Quoted<'a>(pub Option<&'a [u8]>);

impl fmt::Display for Quoted<'_> {
    fn fmt<W: fmt::Write>(&self, f: &mut fmt::Formatter<W>) -> fmt::Result {
        match self.0 {
            Some(line) => {
                let shown = Shown(line);
                write!(f, "`{shown}`")
            }
            None => f.write_str("no further line"),
        }
    }
}
