// Whole cases: a script held against its listing, and its run against its outcomes.
use super::ROOM;
use super::differences::{Difference, first_difference};
use super::running::run;
use super::showing::{Quoted, Refused};
use super::stop::Stop;
use super::telling::Expected;
use compiler::compile;
use console::lines::Lines;
use console::reading::{open, read_file_into};
use language::{Compiled, LISTING, Table};
use lister::list;
use std::alloc::{AllocError, Global};
use std::fmt::Display;

// One byte more than any listing has is enough to know that a file holds another.
const HELD: usize = LISTING + 1;

// Why a case does not agree, which its line tells.
#[derive(Clone, Copy)]
pub enum Unlike {
    Differs,
    NotCompared,
    OutOfMemory,
}

impl From<AllocError> for Unlike {
    fn from(_error: AllocError) -> Unlike {
        Unlike::OutOfMemory
    }
}

// The table is that of a script, and LISTING bytes are enough: no listing is refused.
fn listing(alloc: Global, table: &Table) -> Result<Vec<u8>, AllocError> {
    let mut out = vec![in alloc; 0; LISTING]?;
    let n = list(&table.cells, &table.pool, table.heads, &mut out).unwrap_or(0);
    out.truncate(n);
    Ok(out)
}

// What `list_script` prints.
fn printed(alloc: Global, compiled: &Compiled) -> Result<Vec<u8>, AllocError> {
    match compiled.answer {
        Ok(_) => listing(alloc, &compiled.table),
        Err(refusal) => {
            let refused = Refused(refusal);
            Ok(format!(in alloc; "{refused}\n")?.into_bytes())
        }
    }
}

// A case by its name, and the line that tells of it.
#[derive(Drop)]
pub struct Case<'a> {
    rt: HostRuntime,
    name: &'a [u8],
    pub line: Vec<u8>,
}

impl<'a> Case<'a> {
    pub(crate) fn new(rt: HostRuntime, name: &'a [u8]) -> Result<Case<'a>, AllocError> {
        let mut line = name.to_vec(rt.alloc())?;
        line.extend_from_slice(b": ")?;
        Ok(Case { rt, name, line })
    }

    fn path(&self, ending: &[u8]) -> Result<Vec<u8>, AllocError> {
        let mut path = self.name.to_vec(self.rt.alloc())?;
        path.extend_from_slice(ending)?;
        Ok(path)
    }

    fn add<D: Display + Drop>(&mut self, what: D) -> Result<(), AllocError> {
        let text = what.to_string(self.rt.alloc())?;
        self.line.extend_from_slice(text.as_bytes())
    }

    // A file could not be opened or read, which has been told by the system's word.
    fn not_read(&mut self, path: &[u8]) -> Result<(), Unlike> {
        self.line.extend_from_slice(path)?;
        self.line.extend_from_slice(b" cannot be read")?;
        Err(Unlike::NotCompared)
    }

    fn differs(&mut self, path: &[u8], first: Difference<'_>) -> Result<(), Unlike> {
        let number = first.number;
        let expected = Quoted(first.expected);
        let came = Quoted(first.came);
        self.line.extend_from_slice(path)?;
        self.add(format_args!(", line {number} differs: expected {expected}, came {came}"))?;
        Err(Unlike::Differs)
    }

    // Holds what `list_script` prints of the script against a file.
    fn check_listing(&mut self, compiled: &Compiled) -> Result<(), Unlike> {
        let came = printed(self.rt.alloc(), compiled)?;
        let path = self.path(b".listing")?;
        let mut held = Vec::new(self.rt.alloc());
        if read_file_into(self.rt, &path, HELD, &mut held).is_err() {
            return self.not_read(&path);
        }
        if held.as_slice() == came.as_slice() {
            return Ok(self.add("listing agrees, ")?);
        }
        self.differs(&path, first_difference(&held, &came))
    }

    // Holds the run of a case against its outcomes.
    fn check_run(&mut self, table: &Table) -> Result<(), Unlike> {
        let rt = self.rt;
        let asked = self.path(b".operations")?;
        let path = self.path(b".outcomes")?;
        let Ok(mut operations) = open(rt, &asked) else {
            return self.not_read(&asked);
        };
        let Ok(mut outcomes) = open(rt, &path) else {
            return self.not_read(&path);
        };
        let (Ok(mut lines), Ok(told)) = (
            Lines::new(rt, &mut operations, &asked),
            Lines::new(rt, &mut outcomes, &path),
        ) else {
            return Err(Unlike::OutOfMemory);
        };
        let mut expected = Expected::new(rt, told);
        let ended = run(rt, table, &mut lines, &mut expected);
        let told = expected.told;
        match ended {
            Ok(()) => Ok(self.add(format_args!("{told} outcomes agree"))?),
            Err(Stop::Told) => self.not_read(b"its operations or outcomes"),
            Err(Stop::OutOfMemory) => Err(Unlike::OutOfMemory),
            Err(Stop::Differs(line, came)) => {
                let first = Difference {
                    number: told as usize,
                    expected: line.as_deref(),
                    came: came.as_ref().map(|came| came.as_bytes()),
                };
                self.differs(&path, first)
            }
        }
    }

    // A script that is refused has no run.
    fn check_script(&mut self, compiled: &Compiled) -> Result<(), Unlike> {
        self.check_listing(compiled)?;
        match compiled.answer {
            Ok(_) => self.check_run(&compiled.table),
            Err(refusal) => Ok(self.add(Refused(refusal))?),
        }
    }

    pub(crate) fn check(&mut self) -> Result<(), Unlike> {
        let path = self.path(b".script")?;
        let mut text = Vec::new(self.rt.alloc());
        match read_file_into(self.rt, &path, ROOM, &mut text) {
            Ok(()) => self.check_script(&compile(&text)),
            Err(_) => self.not_read(&path),
        }
    }
}
