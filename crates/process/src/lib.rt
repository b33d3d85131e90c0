// A process and what it waits for. A state by value.
#![tactic(auto)]

ghost use Rattle.std.specs.Prelude.{◌≡◌};
ghost use Rattle.process.specs.State.{run_refusal_number};

use language::{Clock, LOOP_PLACES, Level, PROCESS_PLACES, SIGNALS};

pub mod taking;
pub mod waits;

// A reading of the clock.
#[derive(Clone, Copy)]
pub struct Reading {
    pub year: u8,
    pub month: u8,
    pub day: u8,
    pub hour: u8,
    pub minute: u8,
    pub second: u8,
}

// A wait for data: where they lie in the pool, and how many of their first bytes are the last bytes received.
#[derive(Clone, Copy)]
pub struct Progress {
    pub from: u16,
    pub count: u16,
    pub matched: u16,
}

// What a process waits for: nothing; nothing any more; so many ticks or bytes; data; a clock value; a level.
#[derive(Clone, Copy)]
pub enum Wait {
    Ready,
    Over,
    Ticks(u32),
    Bytes(u16),
    Data(Progress),
    ClockValue(Clock),
    Signal(Level),
}

// A process: the place of its next statement and the place after its last; how many loops are open, and of each the passes left,
// 0 for a forever loop as the definitions have it, which may not change, and the place where its body begins; and its wait.
// Arrays of eight in a struct by value: document 01's form for a process state, and there is no heap.
#[derive(Clone, Copy)]
pub struct Process {
    pub place: u16,
    pub end: u16,
    pub depth: u8,
    pub left: [u16; LOOP_PLACES],
    pub back: [u16; LOOP_PLACES],
    pub wait: Wait,
}

// The state: the processes, the last reading, the levels of CTS and EX1 to EX4, and whether recording is paused.
#[derive(Clone, Copy)]
pub struct State {
    pub processes: [Process; PROCESS_PLACES],
    pub reading: Reading,
    pub levels: [bool; SIGNALS],
    pub paused: bool,
}

// Why a call is refused.
#[derive(Clone, Copy, PartialEq, Eq, Debug)]
pub enum RunRefusal {
    Busy = 21,
    BadReading = 22,
    NoSuchSignal = 23,
    SmallBuffer = 24,
    BadTable = 25,
}

impl RunRefusal {
    // "Numbers the bench reads back".
    #[tactic(auto, unfolding(crate::specs::State::run_refusal_number))]
    pub fn number(self) -> u8
        ensures { result ≡ run_refusal_number self }
    {
        self as u8
    }
}

// What an event answers: it is taken, or refused.
pub type Taken = Result<(), RunRefusal>;

// How often a received byte is recorded: not at all, once or twice.
#[derive(Clone, Copy)]
pub struct Copies {
    pub count: u8,
}

pub type Received = Result<Copies, RunRefusal>;

// What a gulp took: so many bytes or ticks, and so many bytes recorded of them.
#[derive(Clone, Copy)]
pub struct Gulp {
    pub taken: usize,
    pub recorded: usize,
}

pub type Gulped = Result<Gulp, RunRefusal>;

// The state after an event, with its answer.
#[derive(Clone, Copy)]
pub struct Event<A> {
    pub state: State,
    pub answer: Result<A, RunRefusal>,
}
