// What a script is: the table that it is laid out in, its cells, and what the compiler answers.
#![tactic(auto)]

pub mod extension;
pub mod last_digit;
pub mod limits;
pub mod signs;

// ---- how much a script may have

// "Text 65,536 bytes": the longest text.
pub const TEXT: usize = 65536;

// "At most 127 per line, comments too".
pub const LINE: usize = 127;

// "At most 512 lines besides comments".
pub const LINES: usize = 512;

// "Data of data lines, WAIT DATA and LOG (as written) 1,024 bytes in all".
pub const DATA: usize = 1024;

// "8 loops deep".
pub const LOOPS: usize = 8;

// "8 processes".
pub const PROCESSES: usize = 8;

// "10 OMIT bytes".
pub const OMITS: usize = 10;

// "1 to 3 letters or digits".
pub const LETTERS: usize = 3;

// "0 (CTS) or 1 to 4 (EX)": so many signals.
pub const SIGNALS: usize = 5;

// "drain buffer under 128 bytes": the least that a drain is lent.
pub const DRAIN: usize = 128;

// The longest listing of any accepted script.
pub const LISTING: usize = 13670;

// What a line has room for: after the mark of a data line, after `#WAIT DATA ` and a mark, after `#LOG `.
pub const SEND_ROOM: usize = LINE - 1;

pub const WAIT_ROOM: usize = LINE - 12;

pub const LOG_ROOM: usize = LINE - 5;

// ---- how long the arrays are: no shorter than what a script may have

// A cell for each written statement line.
pub const CELL_PLACES: usize = LINES;

// The bytes of the data.
pub const POOL_PLACES: usize = DATA;

// The ends of the processes, and the processes of a state.
pub const PROCESS_PLACES: usize = PROCESSES;

// The open loops of a process.
pub const LOOP_PLACES: usize = LOOPS;

// The OMIT bytes.
pub const OMIT_PLACES: usize = OMITS;

// The letters of LFEXT.
pub const LETTER_PLACES: usize = LETTERS;

// A word for each written statement line: its kind, and below 2 ^ 26 its argument.
pub type Cells = [u32; CELL_PLACES];

// The bytes of the data, one after the other.
pub type Pool = [u8; POOL_PLACES];

// What else a table holds. A narrower type than `encodes` beside `encode`, and lists with their counts, would shut out tables that
// a caller may hand in and that are answered 25.
#[derive(Clone, Copy, PartialEq, Eq, Default)]
pub struct Heads {
    // How many processes there are, and the place after the last cell of each.
    pub processes: u8,
    pub ends: [u16; PROCESS_PLACES],
    // How many bytes of the pool are used.
    pub used: u16,
    // Whether there is an ENCODE byte, and which.
    pub encodes: bool,
    pub encode: u8,
    pub two_stop_bits: bool,
    // How many OMIT bytes there are, and which.
    pub omits: u8,
    pub omit: [u8; OMIT_PLACES],
    // The letters of LFEXT, with zeros after them.
    pub extension: [u8; LETTER_PLACES],
}

// Public functions take its three parts, lent one by one: their parameters `cells, pool, heads` may not change.
#[derive(Clone, Copy, PartialEq, Eq)]
pub struct Table {
    pub cells: Cells,
    pub pool: Pool,
    pub heads: Heads,
}

// Where data lie in the pool.
#[derive(Clone, Copy, PartialEq, Eq, Debug)]
pub struct Span {
    pub from: u16,
    pub count: u16,
}

// A clock value: how many units are fixed, of second, minute, hour and day in this order, and their values; the others are 0.
// Four values and a count, as the word of a cell holds them: the definition clock_of_number may not change.
#[derive(Clone, Copy, PartialEq, Eq, Debug)]
pub struct Clock {
    pub fixed: u8,
    pub day: u8,
    pub hour: u8,
    pub minute: u8,
    pub second: u8,
}

// A signal, 0 for CTS and 1 to 4 for EX, and a level of it.
#[derive(Clone, Copy, PartialEq, Eq, Debug)]
pub struct Level {
    pub signal: u8,
    pub on: bool,
}

// What a cell says: no statement, a statement, or nothing that a line can say.
#[derive(Clone, Copy, PartialEq, Eq, Debug)]
pub enum Cell {
    Nothing,
    Send(Span),
    Loop(u16),
    End,
    WaitTime(u32),
    WaitData(Span),
    WaitByte(u16),
    WaitClock(Clock),
    WaitSignal(Level),
    Rts(bool),
    Log(Span),
    Fchange,
    Pause,
    Resume,
    Nop,
    Unknown,
}

// Why a text is refused, with the numbers that the bench reads back.
#[derive(Clone, Copy, PartialEq, Eq, Debug)]
pub enum TextFault {
    TextTooLong = 12,
    LineTooLong = 1,
    TooManyLines = 2,
    NoSuchName = 3,
    BadRest = 4,
    TooMuchData = 5,
    TooManyOmits = 10,
    TooManyLoops = 6,
    EndWithoutLoop = 7,
    LoopLeftOpen = 8,
    TooManyProcesses = 9,
    StretchTooLong = 11,
}

// A fault, with the line that it names, the process for StretchTooLong, 0 for TextTooLong, and the column in that line,
// from 1, 0 for both of these. These numbers, the zeros too, are what the bench reads back, and may not change.
#[derive(Clone, Copy, PartialEq, Eq, Debug)]
pub struct Refusal {
    pub fault: TextFault,
    pub line: u32,
    pub column: u32,
}

// The compiler's answer: the largest stretch of any process, or the first fault.
pub type Answer = Result<u32, Refusal>;

// The answer and the table, which is all zeros with a refusal.
#[derive(Clone, Copy)]
pub struct Compiled {
    pub answer: Answer,
    pub table: Table,
}
