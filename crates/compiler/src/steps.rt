// What a line does to the script so far, by its meaning.
ghost use Rattle.std.specs.Prelude.{◌≡◌, ◌≤◌, ◌+◌, true, List, [], ℕ, length};
ghost use Rattle.language.specs.Cell.{coded};
ghost use Rattle.language.specs.Draft.{Draft, beginning, take_omit, take_process, with_item};
ghost use Rattle.language.specs.Limits.{line_limit, loop_limit};
ghost use Rattle.language.specs.Script.{Statement, closes, data_of, opens};
ghost use Rattle.language.specs.Table.{cell_for};
ghost use Rattle.compiler.specs.Inside.Drafting.{IsDraft, Took, Takes, Nests, HasRoom, HasRoomFor, Fronts, Writes, Steps, bytes_of_line, first_of};
ghost use Rattle.compiler.specs.Inside.Needs.{count_in, shape_in};

use crate::drafting::{Drafting, Stop};
use crate::needs::{count, placed};
use cells::encoder::code;
use language::{Cell, DATA, LOOPS, OMITS, PROCESSES, TextFault};
use line_meaning::Data;
use line_values::Line;
use writer::put_bytes;

// HasRoom stands in three contracts and is no invariant: the 512th statement uses the last cell.
impl Drafting {
    /// The line of the innermost open loop.
    pub(crate) fn innermost(&self) -> Option<u32>
        requires { self.now.opened ≤ loop_limit }
        ensures { (st : Draft) → IsDraft st self.now → result ≡ first_of st.loops }
    {
        self.loops[..usize::from(self.opened)].last().copied()
    }

    // LOOP: its line is noted. "ninth open loop".
    fn open_loop(&mut self, row: u32) -> Result<(), Stop>
        ensures { Nests opens row self.old result self.new }
    {
        let at = usize::from(self.opened);
        if LOOPS <= at {
            let fault = TextFault::TooManyLoops;
            return Err(Stop { fault, row });
        }
        self.loops[at] = row;
        self.opened += 1;
        Ok(())
    }

    // END: the innermost loop is closed. "END with none open".
    fn close_loop(&mut self, row: u32) -> Result<(), Stop>
        ensures { Nests closes row self.old result self.new }
    {
        if self.opened == 0 {
            let fault = TextFault::EndWithoutLoop;
            return Err(Stop { fault, row });
        }
        self.opened -= 1;
        Ok(())
    }

    // The loops that are open after a statement.
    fn nest(&mut self, cell: Cell, row: u32) -> Result<(), Stop>
        ensures { Nests (shape_in cell) row self.old result self.new }
    {
        match cell {
            Cell::Loop(_) => self.open_loop(row),
            Cell::End => self.close_loop(row),
            _ => Ok(()),
        }
    }

    // Writes a statement's word and its data, each after those before.
    fn write(&mut self, word: u32, bytes: &[u8])
        requires { HasRoomFor self.old bytes.now }
        ensures { (st : Draft) (s : Statement) → word ≡ coded (cell_for st.used s)
            → bytes.now ≡ data_of s
            → IsDraft st self.old → IsDraft (with_item st st.loops s) self.new }
    {
        let at = usize::from(self.written);
        let last = usize::from(self.table.heads.processes) - 1;
        let used = self.table.heads.used;
        put_bytes(&mut self.table.pool, usize::from(used), bytes);
        self.table.cells[at] = word;
        self.written += 1;
        self.begun = true;
        self.table.heads.ends[last] = self.written;
        self.table.heads.used = used + bytes.len() as u16;
    }

    // A statement line. "data over 1,024".
    fn take_statement(&mut self, cell: Cell, lent: &Data, row: u32) -> Result<(), Stop>
        requires { HasRoom self.old × (count_in cell ≤ line_limit + 1) }
        ensures { Writes row lent.now self.old result self.new cell }
    {
        let used = self.table.heads.used;
        let size = count(cell);
        if DATA < usize::from(used) + size {
            let fault = TextFault::TooMuchData;
            return Err(Stop { fault, row });
        }
        self.nest(cell, row)?;
        self.write(code(placed(cell, used)), &lent[..size]);
        Ok(())
    }

    // PROCESS after a statement or another such line begins the next process. "ninth process".
    fn next_process(&mut self, row: u32) -> Result<(), Stop>
        ensures { (st : Draft) → IsDraft st self.old → st.loops ≡ [] → st.begun ≡ true
            → Took (beginning row st) result self.new }
    {
        let heads = &mut self.table.heads;
        let at = usize::from(heads.processes);
        if PROCESSES <= at {
            let fault = TextFault::TooManyProcesses;
            return Err(Stop { fault, row });
        }
        heads.ends[at] = self.written;
        heads.processes += 1;
        Ok(())
    }

    // A PROCESS line. "loop open at a PROCESS line".
    fn take_process(&mut self, row: u32) -> Result<(), Stop>
        requires { HasRoom self.old }
        ensures { Takes (λ st. take_process row st st.loops) self.old result self.new }
    {
        if let Some(innermost) = self.innermost() {
            let fault = TextFault::LoopLeftOpen;
            return Err(Stop {
                fault,
                row: innermost,
            });
        }
        if self.begun {
            return self.next_process(row);
        }
        self.begun = true;
        Ok(())
    }

    // An OMIT line adds its bytes to those before. "OMIT over 10".
    fn take_omit(&mut self, size: u8, lent: &Data, row: u32) -> Result<(), Stop>
        requires { size ≤ line_limit + 1 }
        ensures { (bs : List ℕ) → size ≡ length bs → Fronts lent.now bs
            → Takes (λ st. take_omit row st st.settings bs) self.old result self.new }
    {
        let heads = &mut self.table.heads;
        let at = usize::from(heads.omits);
        let size = usize::from(size);
        if OMITS < at + size {
            let fault = TextFault::TooManyOmits;
            return Err(Stop { fault, row });
        }
        put_bytes(&mut heads.omit, at, &lent[..size]);
        heads.omits = (at + size) as u8;
        Ok(())
    }

    // A line that counts, by what it says. Of ENCODE, STOPBITS and LFEXT the last one holds.
    pub(crate) fn take(&mut self, line: Line, lent: &Data, row: u32) -> Result<(), Stop>
        requires { HasRoom self.old × (bytes_of_line line ≤ line_limit + 1) }
        ensures { Steps row lent.now self.old result self.new line }
    {
        let heads = &mut self.table.heads;
        match line {
            Line::Comment | Line::Blank | Line::Ex => {}
            Line::Process => self.take_process(row)?,
            Line::Says(cell) => self.take_statement(cell, lent, row)?,
            Line::Encode(byte) => {
                heads.encodes = true;
                heads.encode = byte;
            }
            Line::Stopbits(two) => heads.two_stop_bits = two,
            Line::Omit(size) => self.take_omit(size, lent, row)?,
            Line::Lfext(letters) => heads.extension = letters,
        }
        Ok(())
    }
}
