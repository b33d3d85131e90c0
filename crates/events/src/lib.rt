// A tick, a reading of the clock and a signal level, on the state.
#![tactic(auto)]

ghost use Rattle.std.specs.Prelude.{◌≡◌};
ghost use Rattle.events.specs.Events.{refused, tick_event, reading_right, reading_event, level_event};
ghost use Rattle.events.specs.Gulps.{ticks_event};

use crate::each::each;
use crate::ticking::{least_ticks, ticks_passed};
use language::{Level, SIGNALS};
use process::taking::any_ready;
use process::{Event, Gulp, Reading, RunRefusal, State};

mod each;
mod matching;
mod passing;
pub mod receiving;
mod recording;
mod ticking;

// "A refusal alters no state".
pub(crate) fn refuse<A>(s: State, why: RunRefusal) -> Event<A>
    ensures { result ≡ refused s why }
{
    Event {
        state: s,
        answer: Err(why),
    }
}

// A tick of 1 ms.
pub fn tick(s: State) -> Event<()>
    ensures { result ≡ tick_event s }
{
    if any_ready(s.processes) {
        return refuse(s, RunRefusal::Busy);
    }
    let processes = each(s.processes, |p| p.tick());
    Event {
        state: State { processes, ..s },
        answer: Ok(()),
    }
}

// A number of ticks, up to the first that leaves a process ready.
pub fn tick_run(s: State, count: u32) -> Event<Gulp>
    ensures { result ≡ ticks_event s count }
{
    if any_ready(s.processes) {
        return refuse(s, RunRefusal::Busy);
    }
    let n = least_ticks(&s.processes, count);
    let processes = each(s.processes, |p| ticks_passed(p, n));
    Event {
        state: State { processes, ..s },
        answer: Ok(Gulp {
            taken: n as usize,
            recorded: 0,
        }),
    }
}

#[tactic(auto, unfolding(crate::specs::Events::reading_right))]
fn reading_right(r: Reading) -> bool
    ensures { result ≡ reading_right r }
{
    r.year <= 99
        && 1 <= r.month
        && r.month <= 12
        && 1 <= r.day
        && r.day <= 31
        && r.hour <= 23
        && r.minute <= 59
        && r.second <= 59
}

// A reading of the clock.
pub fn read_clock(s: State, r: Reading) -> Event<()>
    ensures { result ≡ reading_event s r }
{
    if any_ready(s.processes) {
        return refuse(s, RunRefusal::Busy);
    }
    if !reading_right(r) {
        return refuse(s, RunRefusal::BadReading);
    }
    let processes = each(s.processes, |p| p.read(r));
    Event {
        state: State {
            processes,
            reading: r,
            ..s
        },
        answer: Ok(()),
    }
}

// A level of a signal, 0 for CTS and 1 to 4 for EX.
pub fn set_level(s: State, signal: u8, on: bool) -> Event<()>
    ensures { result ≡ level_event s signal on }
{
    if any_ready(s.processes) {
        return refuse(s, RunRefusal::Busy);
    }
    let at = usize::from(signal);
    if SIGNALS <= at {
        return refuse(s, RunRefusal::NoSuchSignal);
    }
    let processes = each(s.processes, |p| p.level(Level { signal, on }));
    let mut levels = s.levels;
    levels[at] = on;
    Event {
        state: State {
            processes,
            levels,
            ..s
        },
        answer: Ok(()),
    }
}
