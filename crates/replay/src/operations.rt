// An operation, read from a line: `drain SIZE`, `byte HH`, `tick`, `clock YY MM DD hh mm ss`, `level SIGNAL on|off`,
// `bytes HEX ROOM`, `ticks N`.
use super::sizes::{RUN, SIZE, SIZE_DIGITS, TICKS_DIGITS};
use console::parts::{first, rest_from};
use hex_data::{hex_byte, hex_into};
use numbers::Number;
use numbers::decimal::number;
use process::Reading;
use std::alloc::{AllocError, Global};
use words::{after_blanks, trimmed_end, word_end};

#[derive(Drop)]
pub enum Operation {
    Drain(usize),
    Byte(u8),
    Tick,
    Clock(Reading),
    Level(u8, bool),
    // A gulp: its bytes, and the room for their records.
    Bytes(Vec<u8>, usize),
    Ticks(u32),
}

// What is not read yet of a line. Whatever is read may stand after blanks.
#[derive(Drop)]
struct Rest<'a>(&'a [u8]);

impl<'a> Rest<'a> {
    fn after_blanks(&self) -> &'a [u8] {
        let line = self.0;
        rest_from(line, after_blanks(line, 0))
    }

    fn value<F: FnOnce(&[u8]) -> Result<Number, usize>>(&mut self, read: F) -> Option<u32>
        requires { F.IsAlwaysCallable read }
    {
        let line = self.after_blanks();
        let number = read(line).ok()?;
        self.0 = rest_from(line, number.next);
        Some(number.value)
    }

    fn number(&mut self, digits: usize, limit: u32) -> Option<u32> {
        self.value(|line| number(line, 0, digits, limit))
    }

    fn small(&mut self) -> Option<u8> {
        u8::try_from(self.number(3, 255)?).ok()
    }

    fn hex(&mut self) -> Option<u8> {
        u8::try_from(self.value(|line| hex_byte(line, 0))?).ok()
    }

    fn word(&mut self) -> &'a [u8] {
        let line = self.after_blanks();
        let end = word_end(line, 0);
        self.0 = rest_from(line, end);
        first(line, end)
    }

    // What was read, if it ends the line.
    fn ended<T: Drop>(&self, read: T) -> Option<T> {
        if self.after_blanks().is_empty() {
            return Some(read);
        }
        None
    }

    // A SIZE or a ROOM, which ends its line.
    fn size(&mut self) -> Option<usize> {
        let size = self.number(SIZE_DIGITS, SIZE)?;
        self.ended(size as usize)
    }

    fn byte(&mut self) -> Option<Operation> {
        let byte = self.hex()?;
        self.ended(Operation::Byte(byte))
    }

    fn ticks(&mut self) -> Option<Operation> {
        let count = self.number(TICKS_DIGITS, u32::MAX)?;
        self.ended(Operation::Ticks(count))
    }

    fn clock(&mut self) -> Option<Operation> {
        let reading = Reading {
            year: self.small()?,
            month: self.small()?,
            day: self.small()?,
            hour: self.small()?,
            minute: self.small()?,
            second: self.small()?,
        };
        self.ended(Operation::Clock(reading))
    }

    fn level(&mut self) -> Option<Operation> {
        let signal = self.small()?;
        match self.after_blanks() {
            b"on" => Some(Operation::Level(signal, true)),
            b"off" => Some(Operation::Level(signal, false)),
            _ => None,
        }
    }

    fn bytes(&mut self, alloc: Global) -> Result<Option<Operation>, AllocError> {
        let Some(run) = run_of(alloc, self.word())? else {
            return Ok(None);
        };
        Ok(self.size().map(|room| Operation::Bytes(run, room)))
    }
}

// The bytes of a word: two digits each, or `-` for none.
fn run_of(alloc: Global, word: &[u8]) -> Result<Option<Vec<u8>>, AllocError> {
    if word == b"-".as_slice() {
        return Ok(Some(Vec::new(alloc)));
    }
    let mut run = vec![in alloc; 0; RUN]?;
    match hex_into(word, 0, &mut run, 0) {
        Ok(n) if word.len() % 2 == 0 => {
            run.truncate(n);
            Ok(Some(run))
        }
        _ => Ok(None),
    }
}

// Whether a line asks for nothing: it is blank or a comment.
pub(crate) fn is_passed(line: &[u8]) -> bool {
    line.starts_with(b";") || trimmed_end(line) == 0
}

// The operation of a line, if it is one. Blanks at its end are ignored.
pub(crate) fn read_operation(alloc: Global, line: &[u8]) -> Result<Option<Operation>, AllocError> {
    let line = first(line, trimmed_end(line));
    let end = word_end(line, 0);
    let mut rest = Rest(rest_from(line, end));
    Ok(match first(line, end) {
        b"drain" => rest.size().map(Operation::Drain),
        b"byte" => rest.byte(),
        b"bytes" => rest.bytes(alloc)?,
        b"tick" => rest.ended(Operation::Tick),
        b"ticks" => rest.ticks(),
        b"clock" => rest.clock(),
        b"level" => rest.level(),
        _ => None,
    })
}
