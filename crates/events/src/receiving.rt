// A received byte: what it does to each wait, and how often it is recorded.
ghost use Rattle.std.specs.Prelude.{◌≡◌, true, ◌+◌, ◌≤◌, length};
ghost use Rattle.process.specs.Matching.{advance};
ghost use Rattle.process.specs.Waiting.{awaited, matched_wait, byte_taken, progress_right, range_right};
ghost use Rattle.events.specs.Receiving.{ranges_right, byte_event};
ghost use Rattle.events.specs.Gulps.{bytes_event, records_after};
ghost use Rattle.language.specs.Limits.{pool_places};

use crate::each::each;
use crate::matching::advanced;
use crate::passing::{first, pass_run};
use crate::recording::{record_run, recorded, room_for};
use crate::refuse;
use language::{Heads, OMIT_PLACES, POOL_PLACES, Pool};
use process::taking::any_ready;
use process::{Copies, Event, Gulp, Process, Progress, RunRefusal, State, Wait};

// The data of a wait. As data_of of accepted, of a Progress: see there.
pub(crate) fn awaited_data(pool: &Pool, m: Progress) -> &[u8]
    requires { m.from + m.count ≤ pool_places }
    ensures { (result.now ≡ awaited pool.now m) × (length result.now ≡ m.count) }
{
    let from = usize::from(m.from);
    let to = from + usize::from(m.count);
    let bytes: &[u8] = pool;
    &bytes[from..to]
}

// One more byte for a wait for data: it is over where all of them are matched.
fn match_byte(p: Process, m: Progress, pool: &Pool, b: u8) -> Wait
    requires { progress_right m ≡ true }
    ensures { result ≡ matched_wait p.place p.end m (advance (awaited pool.now m) m.matched b) }
{
    let want = awaited_data(pool, m);
    let k = advanced(want, usize::from(m.matched), b);
    if k == want.len() {
        return p.awake();
    }
    Wait::Data(Progress {
        matched: k as u16,
        ..m
    })
}

// "WAIT BYTE likewise for bytes. WAIT DATA ends when the last bytes received since it began equal its data."
fn take_byte(p: Process, pool: &Pool, b: u8) -> Process
    requires { range_right p ≡ true }
    ensures { result ≡ byte_taken pool.now b p }
{
    p.with(match p.wait {
        Wait::Bytes(n) if n > 1 => Wait::Bytes(n - 1),
        Wait::Bytes(_) => p.awake(),
        Wait::Data(m) => match_byte(p, m, pool, b),
        w => w,
    })
}

// Whether the data of a wait lie within the pool, and what is matched within the data.
#[tactic(auto, unfolding(process::specs::Waiting::progress_right))]
fn range_right(p: Process) -> bool
    ensures { result ≡ range_right p }
{
    match p.wait {
        Wait::Data(m) => {
            usize::from(m.from) + usize::from(m.count) <= POOL_PLACES && m.matched < m.count
        }
        _ => true,
    }
}

// Whether what the event must use lies within the table: every data range, and the OMIT bytes.
fn ranges_right(heads: Heads, s: &State) -> bool
    ensures { result ≡ ranges_right heads s.now }
{
    usize::from(heads.omits) <= OMIT_PLACES && s.processes.iter().all(|p| range_right(*p))
}

// A received byte.
pub fn receive(pool: &Pool, heads: Heads, s: State, b: u8) -> Event<Copies>
    ensures { result ≡ byte_event pool.now heads s b }
{
    if !ranges_right(heads, &s) {
        return refuse(s, RunRefusal::BadTable);
    }
    if any_ready(s.processes) {
        return refuse(s, RunRefusal::Busy);
    }
    let count = recorded(heads, s.paused, b);
    let processes = each(s.processes, |p| take_byte(p, pool, b));
    Event {
        state: State { processes, ..s },
        answer: Ok(Copies { count }),
    }
}

// A run of bytes, up to the first that leaves a process ready or fewer than two places for what is recorded.
pub fn receive_run(
    pool: &Pool,
    heads: Heads,
    s: State,
    run: &[u8],
    records: &mut [u8],
) -> Event<Gulp>
    ensures { (result ≡ bytes_event pool.now heads s run.now (length records.old))
        × (records.new
        ≡ records_after pool.now heads s run.now records.old) }
{
    if !ranges_right(heads, &s) {
        return refuse(s, RunRefusal::BadTable);
    }
    if any_ready(s.processes) {
        return refuse(s, RunRefusal::Busy);
    }
    let fitting = first(run, room_for(heads, s.paused, run, records.len()));
    let pass = pass_run(s.processes, pool, fitting);
    let processes = pass.processes;
    let recorded = record_run(heads, s.paused, first(fitting, pass.count), records);
    Event {
        state: State { processes, ..s },
        answer: Ok(Gulp {
            taken: pass.count,
            recorded,
        }),
    }
}
