// The turn of one process: its statement, and what that sends or records put into the lent buffer.
ghost use Rattle.std.specs.Prelude.{◌≡◌, ◌+◌, ◌<◌, ◌≤◌, length, get_or, set};
ghost use Rattle.std.proofs.lemmas.List.Edits.{sets};
ghost use Rattle.language.specs.Table.{data_at};
ghost use Rattle.record.specs.Logging.{record_limit, record_of};
ghost use Rattle.statement.specs.Saying.{outcome_of, counted_by};
ghost use Rattle.runner.specs.Writing.{writes_for};
ghost use Rattle.runner.specs.Inside.Writing.{OfWord};
ghost use Rattle.runner.specs.Inside.Turns.{turned, state_turned, buffer_turned, counts_turned};
ghost use Rattle.language.specs.Limits.{cell_places, pool_places, process_places, drain_least};
ghost use Rattle.runner.specs.Draining.{nobody};

use crate::starting::Counts;
use language::{Cell, Cells, DRAIN, Pool, Span};
use process::{Reading, RunRefusal, State};
use record::write_record;
use statement::moving::step;
use statement::outcome::{Outcome, counted, pauses, said};
use writer::put_bytes;

// The data that lie at a place of the pool.
// Also in accepted and lister: shared it would be public, so total, with two tests more each time, no plainer.
fn data<'a>(pool: &'a Pool, s: Span) -> &'a [u8]
    requires { s.from + s.count ≤ pool_places }
    ensures { result.now ≡ data_at pool.now s }
{
    let from = usize::from(s.from);
    &pool[from..from + usize::from(s.count)]
}

// Sends data: how many bytes they are.
#[tactic(auto, unfolding(writer::specs::Put::put_answer, writer::specs::Put::put_into))]
fn send(bytes: &[u8], out: &mut [u8]) -> usize
    requires { length bytes.now ≤ length out.old }
    ensures { (result ≡ length bytes.now)
        × (out.new ≡ sets out.old 0 bytes.now) }
{
    put_bytes(out, 0, bytes).unwrap()
}

// Records a LOG text: how many bytes the record has.
#[tactic(auto, unfolding(record::specs::Logging::record_answer, record::specs::Logging::record_into))]
fn log(text: &[u8], r: Reading, count: u32, out: &mut [u8]) -> usize
    requires { record_limit ≤ length out.old }
    ensures { (result ≡ length (record_of r count text.now))
        × (out.new ≡ sets out.old 0 (record_of r count text.now)) }
{
    // The buffer has 128 bytes, and no record more than 127.
    write_record(text, r, count, out).unwrap()
}

// Does what a cell's statement does besides moving its process on. "Each LOG statement has its own `@c`": by the place of its cell.
// Six parameters: the lent things of a drain stay apart, as in the public function, which may not change.
fn perform(
    cell: Cell,
    pool: &Pool,
    r: Reading,
    at: usize,
    counts: &mut Counts,
    out: &mut [u8],
) -> Outcome
    requires { (OfWord cell) × (at < cell_places) × (drain_least ≤ length out.old) }
    ensures { (result ≡ outcome_of (length (writes_for pool.now r (get_or counts.old at 0) cell))
        cell)
        × (out.new ≡ sets out.old 0
        (writes_for pool.now r (get_or counts.old at 0) cell))
        × (counts.new ≡ set counts.old at (counted_by (get_or counts.old at 0) cell)) }
{
    match cell {
        Cell::Send(s) => said(cell, send(data(pool, s), out)),
        Cell::Log(s) => {
            let count = counts[at];
            let n = log(data(pool, s), r, count, out);
            counts[at] = counted(cell, count);
            said(cell, n)
        }
        _ => said(cell, 0),
    }
}

// One statement of process i of the state, which is ready; or 25, then 24, with everything as it was.
#[tactic(auto, unfolding(crate::specs::Inside::Turns::turned, crate::specs::Inside::Turns::state_turned, crate::specs::Inside::Turns::buffer_turned, crate::specs::Inside::Turns::counts_turned))]
pub(crate) fn take_turn<'a>(
    s: &mut State,
    i: usize,
    cells: &'a Cells,
    pool: &'a Pool,
    counts: &mut Counts,
    out: &mut [u8],
) -> Result<Outcome, RunRefusal>
    requires { i < process_places }
    ensures { (result ≡ turned cells.now pool.now s.old counts.old
        (get_or s.old.processes i nobody) (length out.old))
        × (s.new ≡ state_turned cells.now s.old i
        (get_or s.old.processes i nobody) (length out.old))
        × (out.new ≡ buffer_turned cells.now pool.now s.old counts.old
        (get_or s.old.processes i nobody) out.old)
        × (counts.new ≡ counts_turned cells.now s.old counts.old
        (get_or s.old.processes i nobody) (length out.old)) }
{
    let p = s.processes[i];
    let stepped = step(p, cells, s.levels);
    let process = stepped.moved.ok_or(RunRefusal::BadTable)?;
    if out.len() < DRAIN {
        return Err(RunRefusal::SmallBuffer);
    }
    let cell = stepped.cell;
    let at = usize::from(p.place);
    let outcome = perform(cell, pool, s.reading, at, counts, out);
    s.processes[i] = process;
    s.paused = pauses(cell, s.paused);
    Ok(outcome)
}
