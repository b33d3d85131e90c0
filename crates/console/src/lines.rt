// A line at a time from an input that is read in blocks.
ghost use Rattle.std.specs.Prelude.{◌≡◌, ◌≢◌, ◌↔◌, [], length, All, IfOk, IfSome, IsTrue, OnOk};
ghost use Rattle.std.specs.Io.{StopsAt};
ghost use Rattle.std.specs.Io.Buffered.{reader_buffer};

use crate::saying::told;
use std::io;
use std::io::{BufRead, BufReader, Read};

// A line of as many bytes as a block has, its LF not counted, is too long to be held.
pub const BLOCK: usize = 65536;

// Why a line is not handed out.
#[derive(Clone, Copy, PartialEq, Eq, Debug)]
pub enum LineFault {
    TooLong,
    // A read has failed, which has been told.
    Unread,
}

// What is still to come.
#[derive(Clone, Copy)]
enum Rest {
    Open,
    Over,
    Failed,
}

#[derive(Drop)]
pub struct Lines<'a, R> {
    rt: HostRuntime,
    name: &'a [u8],
    from: BufReader<&'a mut R>,
    line: Vec<u8>,
    rest: Rest,
}

impl<'a, R: Read> Lines<'a, R> {
    // Nothing is read yet.
    pub fn new(rt: HostRuntime, from: &'a mut R, name: &'a [u8]) -> io::Result<Lines<'a, R>>
        ensures nothing { IfOk result (λ lines. (reader_buffer lines.from ≡ []) × (lines.line.items ≡ [])) }
        ensures open { IfOk result (λ lines. lines.rest ≡ Rest.Open) }
    {
        let from = told(rt, name, BufReader::with_capacity(rt.alloc(), BLOCK, from))?;
        Ok(Lines {
            rt,
            name,
            from,
            line: Vec::new(rt.alloc()),
            rest: Rest::Open,
        })
    }

    // Whether no byte is held that was read and not handed out: then the next line takes a read.
    pub fn is_spent(&self) -> bool
        ensures { IsTrue result ↔ length (reader_buffer self.now.from) ≡ 0 }
    {
        self.from.buffer().is_empty()
    }

    // The line that `next` handed out last; of one that is too long, the part that is held.
    pub fn last(&self) -> &[u8]
        ensures { result.now ≡ self.now.line.items }
    {
        &self.line
    }

    // The next line without its LF and the one CR that is dropped in front of it; None at the end.
    pub fn next(&mut self) -> Result<Option<&[u8]>, LineFault>
        ensures { IfOk result (λ line. IfSome line (λ bytes. All (λ byte. byte ≢ 10) bytes.now)) }
    {
        self.line.clear();
        let is_line = match self.rest {
            Rest::Open => self.read_line()?,
            Rest::Over => false,
            Rest::Failed => return Err(LineFault::Unread),
        };
        Ok(is_line.then_some(self.line.as_slice()))
    }

    // That no LF is held stands in each contract and is no invariant: between read_part and take_end one is.
    // Whether there is a line. One that does not fit into a part is too long, and its last part is kept.
    fn read_line(&mut self) -> Result<bool, LineFault>
        ensures { OnOk result (All (λ byte. byte ≢ 10) self.new.line.items) }
    {
        // A proved loop has to end, and nothing says that the input does.
        for parts in 0..u64::MAX {
            let n = self.read_part()?;
            if n < BLOCK || self.line.ends_with(b"\n") {
                self.take_end();
                self.take_cr();
                return if parts == 0 {
                    Ok(0 < n)
                } else {
                    Err(LineFault::TooLong)
                };
            }
        }
        Err(LineFault::TooLong)
    }

    // Reads up to a line's end, its LF with it, and no more than a block has.
    fn read_part(&mut self) -> Result<usize, LineFault>
        ensures { OnOk result (StopsAt self.new.line.items 10) }
    {
        self.line.clear();
        let mut block = self.from.by_ref().take(BLOCK as u64);
        let read = block.read_until(b'\n', &mut self.line);
        self.or_unread(read)
    }

    // Takes the LF away. The last line may lack it.
    fn take_end(&mut self)
        requires { StopsAt self.old.line.items 10 }
        ensures { All (λ byte. byte ≢ 10) self.new.line.items }
    {
        if self.line.last() == Some(&b'\n') {
            self.line.pop();
        } else {
            self.rest = Rest::Over;
        }
    }

    // Takes one CR away.
    fn take_cr(&mut self)
        requires { All (λ byte. byte ≢ 10) self.old.line.items }
        ensures { All (λ byte. byte ≢ 10) self.new.line.items }
    {
        if self.line.ends_with(b"\r") {
            self.line.pop();
        }
    }

    // A read that fails is told, and no other is tried.
    fn or_unread<T>(&mut self, read: io::Result<T>) -> Result<T, LineFault>
        ensures { OnOk result (self.new ≡ self.old) }
    {
        match told(self.rt, self.name, read) {
            Ok(came) => Ok(came),
            Err(_) => {
                self.line.clear();
                self.rest = Rest::Failed;
                Err(LineFault::Unread)
            }
        }
    }
}
