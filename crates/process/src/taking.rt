// A process takes a tick, a reading or a level, and is handed back.
ghost use Rattle.std.specs.Prelude.{◌≡◌};
ghost use Rattle.process.specs.Waiting.{ready, awake, with_wait, ticked, reading_taken, level_taken};
ghost use Rattle.process.specs.State.{any};

use crate::waits::{awaken, clock_matches, sets_level};
use crate::{Process, Reading, Wait};
use language::{Level, PROCESS_PLACES};

impl Process {
    pub fn is_ready(self) -> bool
        ensures { result ≡ ready self }
    {
        matches!(self.wait, Wait::Ready)
    }

    // A process with another wait.
    pub fn with(mut self, wait: Wait) -> Self
        ensures { result ≡ with_wait self wait }
    {
        self.wait = wait;
        self
    }

    // Its wait has ended: "one past its last statement is never ready again".
    pub fn awake(self) -> Wait
        ensures { result ≡ awake self.place self.end }
    {
        awaken(self.place, self.end)
    }

    // "WAIT TIME of n ms ends at the n-th tick": one of n ms has n - 1 left after a tick, and is over where that is none.
    pub fn tick(self) -> Self
        ensures { result ≡ ticked self }
    {
        self.with(match self.wait {
            Wait::Ticks(n) if n > 1 => Wait::Ticks(n - 1),
            Wait::Ticks(_) => self.awake(),
            w => w,
        })
    }

    // Kept beside `level`: two arms each, of another kind of wait; one function with the kind handed in is no plainer.
    // A reading ends a wait for a clock value that it matches.
    pub fn read(self, r: Reading) -> Self
        ensures { result ≡ reading_taken r self }
    {
        self.with(match self.wait {
            Wait::ClockValue(c) if clock_matches(c, r) => self.awake(),
            w => w,
        })
    }

    // A level ends a wait for it.
    pub fn level(self, e: Level) -> Self
        ensures { result ≡ level_taken e self }
    {
        self.with(match self.wait {
            Wait::Signal(l) if sets_level(l, e) => self.awake(),
            w => w,
        })
    }
}

// Whether some process is ready.
pub fn any_ready(ps: [Process; PROCESS_PLACES]) -> bool
    ensures { result ≡ any ready ps }
{
    ps.iter().any(|p| p.is_ready())
}
