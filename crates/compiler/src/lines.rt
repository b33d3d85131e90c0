// Text to table: the lines one after the other, each taken into the script so far, until the first fault or the end of the text.
ghost use Rattle.std.specs.Prelude.{◌≡◌, true, ◌≤◌, length};
ghost use Rattle.reader.specs.Bytes.{all};
ghost use Rattle.language.specs.Answer.{answered, compiled};
ghost use Rattle.language.specs.Draft.{Draft, start, finished, take_line};
ghost use Rattle.language.specs.Limits.{text_limit, loop_limit};
ghost use Rattle.language.specs.Lines.{drop_cr};
ghost use Rattle.language.specs.Right.{in_line};
ghost use Rattle.language.specs.Stretch.{stretch_of};
ghost use Rattle.language.proofs.SoundBody.{Sound};
ghost use Rattle.compiler.specs.Inside.Drafting.{script_in, IsDraft, Took, Ready, comment_said};
ghost use Rattle.compiler.specs.Inside.Ending.{Nests, Answered, told};

use crate::drafting::{Drafting, Stop};
use crate::feeds::{next_feed, no_feed};
use language::{Answer, LINE, LINES, Refusal, TEXT, TextFault};
use line_meaning::{Data, ROOM, read_line};
use line_values::Line;
use stretch::{StretchFault, largest};

// A line without a CR at its end.
fn without_cr(line: &[u8]) -> &[u8]
    ensures { result.now ≡ drop_cr line.now }
{
    match line {
        [front @ .., b'\r'] => front,
        _ => line,
    }
}

// Whether a line is a comment, which is not counted: "At most 512 lines besides comments".
fn is_comment(said: Result<Line, TextFault>) -> bool
    ensures { result ≡ comment_said said }
{
    matches!(said, Ok(Line::Comment))
}

impl Drafting {
    // Takes one line, without its LF and CR. "line over 127", "513th counted line".
    fn take_line(&mut self, line: &[u8], row: u32, lent: &mut Data) -> Result<(), Stop>
        requires { Ready self.old × (all in_line line.now ≡ true) }
        ensures { (st : Draft) → IsDraft st self.old → Took (take_line row st line.now) result self.new }
    {
        if LINE < line.len() {
            let fault = TextFault::LineTooLong;
            return Err(Stop { fault, row });
        }
        let said = read_line(line, lent);
        if is_comment(said) {
            return Ok(());
        }
        if LINES <= usize::from(self.counted) {
            let fault = TextFault::TooManyLines;
            return Err(Stop { fault, row });
        }
        self.counted += 1;
        match said {
            Ok(line) => self.take(line, lent, row),
            Err(fault) => Err(Stop { fault, row }),
        }
    }

    // The lines one after the other, sixteen bytes at a time up to the LF; the first fault ends both loops, with its column.
    // Two loops with a label: document 01's form, "Loop over lines and their bytes, left by a label at the first fault".
    fn take_lines(&mut self, text: &[u8]) -> Result<(), Refusal>
        requires { (length text.now ≤ text_limit) × IsDraft start self.old }
        ensures { Answered text.now self.new result }
    {
        let mut lent = [0u8; ROOM];
        let mut taken = Ok(());
        let mut row = 1u32;
        let mut start = 0usize;
        'lines: while start < text.len() {
            let mut clear = start;
            while no_feed(text, clear) {
                if LINE < clear - start {
                    let fault = TextFault::LineTooLong;
                    taken = Err(Stop { fault, row }.at(&[]));
                    break 'lines;
                }
                clear += 16;
            }
            let end = next_feed(text, clear);
            let line = without_cr(&text[start..end]);
            if let Err(stop) = self.take_line(line, row, &mut lent) {
                taken = Err(stop.at(line));
                break 'lines;
            }
            row += 1;
            start = end + 1;
        }
        taken
    }

    // The end of the text. "loop open at .. the end of text", "stretch over 4,096".
    fn finish(&self) -> Answer
        requires { (self.now.opened ≤ loop_limit) × Nests self.now }
        ensures { (st : Draft) → Sound 0 st → IsDraft st self.now
            → told result self.now.table ≡ answered (finished stretch_of (script_in st) st.loops) }
    {
        if let Some(row) = self.innermost() {
            let fault = TextFault::LoopLeftOpen;
            return Err(Stop { fault, row }.at(&[]));
        }
        match largest(&self.table.cells, self.table.heads) {
            Ok(stretch) => Ok(stretch),
            Err(StretchFault::Over(row)) => {
                let fault = TextFault::StretchTooLong;
                Err(Stop { fault, row }.at(&[]))
            }
            // The loops of every draft nest.
            Err(StretchFault::Broken) => unreachable!(),
        }
    }

    /// A text: its lines, and its end.
    pub(crate) fn take_text(&mut self, text: &[u8]) -> Answer
        requires { IsDraft start self.old }
        ensures { told result self.new.table ≡ compiled text.now }
    {
        if TEXT < text.len() {
            let fault = TextFault::TextTooLong;
            return Err(Stop { fault, row: 0 }.at(&[]));
        }
        self.take_lines(text)?;
        self.finish()
    }
}
