// A number of ticks in one step: as many as leave no process ready before the last.
ghost use Rattle.std.specs.Prelude.{◌≡◌, false};
ghost use Rattle.process.specs.Waiting.{ready_wait, ready};
ghost use Rattle.process.specs.State.{any};
ghost use Rattle.events.specs.Inside.Passing.{through, reach, tick_on, ticks_of, ticks_on, ticks_reach};

use language::PROCESS_PLACES;
use process::{Process, Wait};

// How many of so many ticks are taken: up to the one that leaves the process ready, or all. A wait of none ends at the first tick, as one of one does.
fn ticks_until(p: Process, most: u32) -> u32
    requires { ready p ≡ false }
    ensures { result ≡ reach (tick_on p.place p.end) ready_wait (ticks_of most) p.wait }
{
    match p.wait {
        Wait::Ticks(n) => {
            let last = n.max(1);
            if most <= last {
                return most;
            }
            if p.place < p.end { last } else { most }
        }
        _ => most,
    }
}

// What so many ticks make of the wait of a process.
fn ticks_left(p: Process, count: u32) -> Wait
    ensures { result ≡ through (tick_on p.place p.end) (ticks_of count) p.wait }
{
    match p.wait {
        Wait::Ticks(n) if count < n.max(1) => Wait::Ticks(n - count),
        Wait::Ticks(_) => p.awake(),
        w => w,
    }
}

pub(crate) fn ticks_passed(p: Process, count: u32) -> Process
    ensures { result ≡ ticks_on count p }
{
    p.with(ticks_left(p, count))
}

// The least of the ticks left.
// That none is ready is asked and in no type, no plainer: the event tests it once, and answers Busy.
pub(crate) fn least_ticks(ps: &[Process; PROCESS_PLACES], most: u32) -> u32
    requires { any ready ps.now ≡ false }
    ensures { result ≡ ticks_reach most ps.now }
{
    let mut n = most;
    for p in ps {
        n = ticks_until(*p, n);
    }
    n
}
