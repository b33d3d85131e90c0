// The line that tells an outcome.
use console::parts::first;
use process::{Gulp, RunRefusal};
use statement::outcome::Outcome;
use std::{fmt, str};
use writer::put_hex;

// What is said of an operation: a name, a number if it has one, and how many of the bytes that were lent.
// A count and no slice: the bytes stay lent to the box while this is made.
#[derive(Clone, Copy)]
pub struct Said {
    name: &'static str,
    number: Option<usize>,
    count: usize,
}

impl Said {
    pub(crate) fn plain(name: &'static str) -> Said {
        Said::bytes(name, 0)
    }

    pub(crate) fn bytes(name: &'static str, count: usize) -> Said {
        Said {
            name,
            number: None,
            count,
        }
    }

    pub(crate) fn gulp(gulp: Gulp) -> Said {
        Said {
            name: "gulp",
            number: Some(gulp.taken),
            count: gulp.recorded,
        }
    }

    pub(crate) fn drained(outcome: Outcome) -> Said {
        match outcome {
            Outcome::Quiet => Said::plain("quiet"),
            Outcome::Sent(length) => Said::bytes("sent", length.bytes),
            Outcome::Recorded(length) => Said::bytes("recorded", length.bytes),
            Outcome::Rts(switch) => Said::plain(if switch.on { "rts on" } else { "rts off" }),
            Outcome::Fchange => Said::plain("fchange"),
            Outcome::Pause => Said::plain("pause"),
            Outcome::Resume => Said::plain("resume"),
            Outcome::Plain => Said::plain("plain"),
            Outcome::Refused(why) => Said::from(why),
        }
    }
}

impl From<RunRefusal> for Said {
    fn from(why: RunRefusal) -> Said {
        Said {
            name: "refused",
            number: Some(usize::from(why.number())),
            count: 0,
        }
    }
}

// How many bytes are shown at once.
const PIECE: usize = 64;

// Bytes in hex, two digits each. A piece at a time: with a `write!` for each byte a gulp took three times as long.
#[derive(Clone, Copy)]
struct InHex<'a>(&'a [u8]);

impl fmt::Display for InHex<'_> {
    fn fmt<W: fmt::Write>(&self, f: &mut fmt::Formatter<W>) -> fmt::Result {
        for bytes in self.0.chunks(PIECE) {
            let mut digits = [0u8; 2 * PIECE];
            let n = put_hex(&mut digits, 0, bytes).unwrap_or(0);
            f.write_str(str::from_utf8(first(&digits, n)).map_err(|_| fmt::Error)?)?;
        }
        Ok(())
    }
}

// The line that tells it: its bytes stand in hex behind it, if there are any.
#[derive(Clone, Copy)]
pub struct Told<'a> {
    pub said: Said,
    pub lent: &'a [u8],
}

impl fmt::Display for Told<'_> {
    fn fmt<W: fmt::Write>(&self, f: &mut fmt::Formatter<W>) -> fmt::Result {
        f.write_str(self.said.name)?;
        if let Some(number) = self.said.number {
            write!(f, " {number}")?;
        }
        if 0 < self.said.count {
            let bytes = InHex(first(self.lent, self.said.count));
            write!(f, " {bytes}")?;
        }
        Ok(())
    }
}
