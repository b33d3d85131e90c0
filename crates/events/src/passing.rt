// A run of bytes on the waits: how many are taken up to the first that leaves a process ready, and what they make of each wait.
ghost use Rattle.std.specs.Prelude.{◌≡◌, ℕ, List, true, false, map, ◌≤◌, length, take};
ghost use Rattle.process.specs.declared.Wait.TheVariants.{Bytes, Data};
ghost use Rattle.process.specs.Waiting.{ready, awaited, progress_right, range_right};
ghost use Rattle.process.specs.State.{any};
ghost use Rattle.reader.specs.Bytes.{all};
ghost use Rattle.events.specs.Inside.Kept.{Kept, data_of, places_for, KeptFrom};
ghost use Rattle.events.specs.Inside.Passing.{passed_by, ended_at, reach_all, bytes_on, Passes};

use crate::matching::{Links, matched_run};
use crate::receiving::awaited_data;
use language::{POOL_PLACES, PROCESS_PLACES, Pool};
use process::{Process, Progress, Wait};

// A wait after some bytes, and how many they were.
#[derive(Clone, Copy)]
pub(crate) struct Passed {
    pub(crate) wait: Wait,
    pub(crate) count: usize,
}

// The processes after some bytes, and how many they were; `again`: some processes have taken more, and all are to take so many.
// A flag and no Result, no plainer: the count holds both ways, and the second pass is the same call.
#[derive(Clone, Copy)]
pub(crate) struct Pass {
    pub(crate) processes: [Process; PROCESS_PLACES],
    pub(crate) count: usize,
    pub(crate) again: bool,
}

// The first n bytes of a run.
pub(crate) fn first(run: &[u8], n: usize) -> &[u8]
    requires { n ≤ length run.now }
    ensures { (result.now ≡ take n run.now) × (length result.now ≡ n) }
{
    &run[0..n]
}

// A wait that ends at the n-th of a run of bytes: the run ends there where its process is ready, and goes on where it is over.
fn ended(n: usize, all: usize, p: Process) -> Passed
    ensures { result ≡ ended_at n all p.place p.end }
{
    if p.place < p.end {
        Passed {
            wait: Wait::Ready,
            count: n,
        }
    } else {
        Passed {
            wait: Wait::Over,
            count: all,
        }
    }
}

// "WAIT BYTE likewise for bytes". A wait for none ends at the first byte, as one for one does.
fn bytes_passed(n: u16, p: Process, run: &[u8]) -> Passed
    ensures { (pool : List ℕ) → result ≡ passed_by pool p.place p.end run.now (Bytes n) }
{
    let all = run.len();
    let left = usize::from(n);
    let last = left.max(1);
    if all < last {
        return Passed {
            wait: Wait::Bytes((left - all) as u16),
            count: all,
        };
    }
    ended(last, all, p)
}

fn data_passed(m: Progress, p: Process, pool: &Pool, run: &[u8], kept: &mut [u16]) -> Passed
    requires { (progress_right m ≡ true) × Kept (awaited pool.now m) kept.old }
    ensures { (result ≡ passed_by pool.now p.place p.end run.now (Data m))
        × Kept (awaited pool.now m) kept.new }
{
    let want = awaited_data(pool, m);
    let r = matched_run(want, usize::from(m.matched), run, kept);
    if r.matched == want.len() {
        return ended(r.count, run.len(), p);
    }
    Passed {
        wait: Wait::Data(Progress {
            matched: r.matched as u16,
            ..m
        }),
        count: run.len(),
    }
}

fn wait_passed(p: Process, pool: &Pool, run: &[u8], kept: &mut [u16]) -> Passed
    requires { (range_right p ≡ true) × (ready p ≡ false) × Kept (data_of pool.now p.wait) kept.old }
    ensures { (result ≡ passed_by pool.now p.place p.end run.now p.wait)
        × Kept (data_of pool.now p.wait) kept.new }
{
    match p.wait {
        Wait::Bytes(n) => bytes_passed(n, p, run),
        Wait::Data(m) => data_passed(m, p, pool, run, kept),
        wait => Passed {
            wait,
            count: run.len(),
        },
    }
}

// The places for the links of a wait, of those that are left: as many as the data of WAIT DATA have bytes; none where so many are not left, as in no
// accepted table.
#[tactic(auto, unfolding(crate::specs::Inside::Kept::places_for))]
fn places_for(w: Wait, left: usize) -> usize
    ensures { result ≡ places_for w left }
{
    match w {
        Wait::Data(m) if usize::from(m.count) <= left => usize::from(m.count),
        _ => 0,
    }
}

// One process after the other, each no farther than those before it. The links of each stand behind those of the one before it.
// By its number, which an iterator would count too: it is the place in `next`, and tells whether one came before.
// That none is ready is asked and in no type, no plainer: each event tests it once, and answers Busy.
fn pass_each(ps: [Process; PROCESS_PLACES], pool: &Pool, run: &[u8], links: &mut [u16]) -> Pass
    requires { (all range_right ps ≡ true) × (any ready ps ≡ false) × KeptFrom pool.now links.old 0 ps }
    ensures { Passes pool.now run.now ps result
        × KeptFrom pool.now links.new 0 ps }
{
    let mut next = ps;
    let mut n = run.len();
    let mut again = false;
    let mut from = 0;
    for i in 0..PROCESS_PLACES {
        let p = ps[i];
        let to = from + places_for(p.wait, links.len() - from);
        let r = wait_passed(p, pool, first(run, n), &mut links[from..to]);
        if r.count < n {
            again = 0 < i;
        }
        n = r.count;
        from = to;
        next[i] = p.with(r.wait);
    }
    Pass {
        processes: next,
        count: n,
        again,
    }
}

// All processes after the bytes that are taken of a run. A second time through them finds the links that the first has made.
pub(crate) fn pass_run(ps: [Process; PROCESS_PLACES], pool: &Pool, run: &[u8]) -> Pass
    requires { (all range_right ps ≡ true) × (any ready ps ≡ false) }
    ensures { (result.count ≡ reach_all pool.now run.now ps)
        × (result.processes ≡ map (bytes_on pool.now (take result.count run.now)) ps) }
{
    let mut links: Links = [0; POOL_PLACES];
    let r = pass_each(ps, pool, run, &mut links);
    if r.again {
        return pass_each(ps, pool, first(run, r.count), &mut links);
    }
    r
}
