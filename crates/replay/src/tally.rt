// Every case that is named, one after the other, and how many of them agree.
use super::checking::{Case, Unlike};
use super::stop::Stop;
use console::arguments::{WORD, word};
use console::saying::{print, say};
use std::fmt;

#[derive(Clone, Copy, Default)]
struct Tally {
    agree: u32,
    differ: u32,
    not_compared: u32,
}

impl Tally {
    fn count(&mut self, checked: Result<(), Unlike>) -> Result<(), Stop> {
        let of = match checked {
            Ok(()) => &mut self.agree,
            Err(Unlike::Differs) => &mut self.differ,
            Err(Unlike::NotCompared) => &mut self.not_compared,
            Err(Unlike::OutOfMemory) => return Err(Stop::OutOfMemory),
        };
        *of = of.saturating_add(1);
        Ok(())
    }
}

impl fmt::Display for Tally {
    fn fmt<W: fmt::Write>(&self, f: &mut fmt::Formatter<W>) -> fmt::Result {
        let agree = self.agree;
        let differ = self.differ;
        let not_compared = self.not_compared;
        write!(
            f,
            "cases: {agree} agree, {differ} differ, {not_compared} not compared"
        )
    }
}

fn check_named(rt: HostRuntime, i: usize, tally: &mut Tally) -> Result<(), Stop> {
    let mut buffer = [0u8; WORD];
    let name = word(rt, i, &mut buffer).unwrap_or(b"");
    let mut case = Case::new(rt, name)?;
    tally.count(case.check())?;
    case.line.extend_from_slice(b"\n")?;
    Ok(say(rt, &case.line)?)
}

pub(crate) fn check_all(rt: HostRuntime, words: usize) -> Result<(), Stop> {
    let mut tally = Tally::default();
    for i in 2..words {
        check_named(rt, i, &mut tally)?;
    }
    Ok(print(rt, format_args!("{tally}\n"))?)
}
