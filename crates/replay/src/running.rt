// A run: an operation at a time, and its outcome told.
use super::operations::{Operation, is_passed, read_operation};
use super::outcomes::{Said, Told};
use super::sizes::LENT;
use super::stop::Stop;
use super::telling::{Page, Telling};
use console::lines::{LineFault, Lines};
use events::receiving::{receive, receive_run};
use events::{read_clock, set_level, tick, tick_run};
use language::{CELL_PLACES, Table};
use process::{Event, RunRefusal, State};
use runner::draining::drain;
use runner::starting::{Counts, idle, start};
use std::io::Read;

// A box that runs the script of a table. What it is lent stands beside it: two fields that are lent at once behind one
// reference get no proof.
#[derive(Drop)]
struct Running<'a> {
    table: &'a Table,
    state: State,
    counts: Counts,
}

impl<'a> Running<'a> {
    fn new(table: &'a Table) -> Running<'a> {
        let mut counts = [0u32; CELL_PLACES];
        let begun = start(&table.cells, &table.pool, table.heads, idle(), &mut counts);
        Running {
            table,
            state: begun.state,
            counts,
        }
    }

    // What an event is answered; the state after it is kept.
    fn after<A>(&mut self, event: Event<A>) -> Result<A, RunRefusal> {
        self.state = event.state;
        event.answer
    }

    fn drain(&mut self, lent: &mut [u8]) -> Said {
        let table = self.table;
        let state = self.state;
        let drained = drain(&table.cells, &table.pool, state, &mut self.counts, lent);
        self.state = drained.state;
        Said::drained(drained.outcome)
    }

    fn byte(&mut self, b: u8, lent: &mut [u8; LENT]) -> Result<Said, RunRefusal> {
        let table = self.table;
        lent[0] = b;
        lent[1] = b;
        let copies = self.after(receive(&table.pool, table.heads, self.state, b))?;
        Ok(Said::bytes("took", usize::from(copies.count)))
    }

    fn bytes(&mut self, run: &[u8], lent: &mut [u8]) -> Result<Said, RunRefusal> {
        let table = self.table;
        let event = receive_run(&table.pool, table.heads, self.state, run, lent);
        Ok(Said::gulp(self.after(event)?))
    }

    fn ticks(&mut self, count: u32) -> Result<Said, RunRefusal> {
        Ok(Said::gulp(self.after(tick_run(self.state, count))?))
    }

    fn event(&mut self, event: Event<()>) -> Result<Said, RunRefusal> {
        self.after(event)?;
        Ok(Said::plain("took"))
    }

    // No more than there is is lent, whatever is asked: neither a statement nor a gulp writes more.
    fn operate(&mut self, asked: Operation, lent: &mut [u8; LENT]) -> Result<Said, RunRefusal> {
        match asked {
            Operation::Drain(size) => Ok(self.drain(&mut lent[..size.min(LENT)])),
            Operation::Byte(b) => self.byte(b, lent),
            Operation::Bytes(run, room) => self.bytes(&run, &mut lent[..room.min(LENT)]),
            Operation::Ticks(count) => self.ticks(count),
            Operation::Tick => self.event(tick(self.state)),
            Operation::Clock(reading) => self.event(read_clock(self.state, reading)),
            Operation::Level(signal, on) => self.event(set_level(self.state, signal, on)),
        }
    }

    // What is said of a line; one that is no operation alters nothing.
    fn said(&mut self, asked: Option<Operation>, lent: &mut [u8; LENT]) -> Said {
        match asked {
            Some(asked) => self.operate(asked, lent).unwrap_or_else(Said::from),
            None => Said::plain("bad operation"),
        }
    }
}

// Starts the script of a table and does the operations of an input.
pub(crate) fn run<I: Read, T: Telling>(
    rt: HostRuntime,
    table: &Table,
    operations: &mut Lines<'_, I>,
    to: &mut T,
) -> Result<(), Stop> {
    let mut running = Running::new(table);
    let mut lent = [0u8; LENT];
    // A proved loop has to end, and nothing says that the input does.
    for _ in 0..u64::MAX {
        if operations.is_spent() {
            to.wait()?;
        }
        let asked = match operations.next() {
            Ok(Some(line)) if is_passed(line) => continue,
            Ok(Some(line)) => read_operation(rt.alloc(), line)?,
            Err(LineFault::TooLong) => None,
            Ok(None) => return to.finish(),
            Err(LineFault::Unread) => {
                to.wait()?;
                return Err(Stop::Told);
            }
        };
        let said = running.said(asked, &mut lent);
        let told = to.tell(Told { said, lent: &lent });
        // After a write that failed, what is told is still written where the next line takes a read.
        if matches!(told, Err(Stop::Told)) && operations.is_spent() {
            to.wait()?;
        }
        told?;
    }
    Ok(())
}

// Prints the outcomes of a run on standard input.
pub(crate) fn print_run(rt: HostRuntime, table: &Table) -> Result<(), Stop> {
    let mut input = rt.stdin();
    let mut operations = Lines::new(rt, &mut input, b"standard input")?;
    run(rt, table, &mut operations, &mut Page::new(rt))
}
