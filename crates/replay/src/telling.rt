// What becomes of an outcome: it is put on a page that is printed, or held against the next line of a file.
use super::outcomes::Told;
use super::sizes::LONGEST;
use super::stop::Stop;
use console::lines::{BLOCK, LineFault, Lines};
use console::saying::say;
use std::io::Read;

pub trait Telling {
    fn tell(&mut self, told: Told<'_>) -> Result<(), Stop>;

    // Nothing stays untold while the program waits for input.
    fn wait(&mut self) -> Result<(), Stop>;

    // After the last outcome.
    fn finish(&mut self) -> Result<(), Stop>;
}

// Outcomes that are not printed yet.
#[derive(Drop)]
pub struct Page {
    rt: HostRuntime,
    text: String,
}

impl Page {
    pub(crate) fn new(rt: HostRuntime) -> Page {
        Page {
            rt,
            text: String::new(rt.alloc()),
        }
    }

    fn print(&mut self) -> Result<(), Stop> {
        if self.text.is_empty() {
            return Ok(());
        }
        let said = say(self.rt, self.text.as_bytes());
        self.text.clear();
        Ok(said?)
    }
}

impl Telling for Page {
    // A page has no more bytes than a block. The outcome is put on it also where that which is full cannot be printed.
    fn tell(&mut self, told: Told<'_>) -> Result<(), Stop> {
        let printed = if BLOCK - LONGEST <= self.text.len() {
            self.print()
        } else {
            Ok(())
        };
        writeln!(self.text, "{told}")?;
        printed
    }

    fn wait(&mut self) -> Result<(), Stop> {
        self.print()
    }

    fn finish(&mut self) -> Result<(), Stop> {
        self.print()
    }
}

// The file that outcomes are held against, and how many of its lines were.
#[derive(Drop)]
pub struct Expected<'a, R> {
    rt: HostRuntime,
    lines: Lines<'a, R>,
    pub told: u32,
}

impl<'a, R: Read> Expected<'a, R> {
    pub(crate) fn new(rt: HostRuntime, lines: Lines<'a, R>) -> Expected<'a, R> {
        Expected { rt, lines, told: 0 }
    }

    // A line that was read last, beside what came in its place.
    fn differs(&self, came: Option<String>) -> Result<(), Stop> {
        let line = self.lines.last().to_vec(self.rt.alloc())?;
        Err(Stop::Differs(Some(line), came))
    }
}

impl<R: Read> Telling for Expected<'_, R> {
    fn tell(&mut self, told: Told<'_>) -> Result<(), Stop> {
        let came = format!(in self.rt.alloc(); "{told}")?;
        self.told = self.told.saturating_add(1);
        match self.lines.next() {
            Ok(Some(line)) if line == came.as_bytes() => Ok(()),
            Ok(None) => Err(Stop::Differs(None, Some(came))),
            Err(LineFault::Unread) => Err(Stop::Told),
            _ => self.differs(Some(came)),
        }
    }

    fn wait(&mut self) -> Result<(), Stop> {
        Ok(())
    }

    fn finish(&mut self) -> Result<(), Stop> {
        match self.lines.next() {
            Ok(None) => Ok(()),
            Err(LineFault::Unread) => Err(Stop::Told),
            _ => {
                self.told = self.told.saturating_add(1);
                self.differs(None)
            }
        }
    }
}
