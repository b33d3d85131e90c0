// The drain: the turn of the lowest-numbered ready process.
ghost use Rattle.std.specs.Prelude.{◌≡◌, length, position};
ghost use Rattle.process.specs.Waiting.{ready};
ghost use Rattle.runner.specs.Draining.{drained, buffer_after, counts_after};
ghost use Rattle.runner.specs.Inside.Draining.{idled};

use crate::Drained;
use crate::starting::Counts;
use crate::turn::take_turn;
use language::{Cells, DRAIN, Pool};
use process::{RunRefusal, State};
use statement::outcome::Outcome;

// None is ready: "a quiet drain with a small buffer is 24".
#[tactic(auto, unfolding(crate::specs::Inside::Draining::idled))]
fn idle(s: State, room: usize) -> Drained
    ensures { result ≡ idled s room }
{
    let outcome = if room < DRAIN {
        Outcome::Refused(RunRefusal::SmallBuffer)
    } else {
        Outcome::Quiet
    };
    Drained { state: s, outcome }
}

// The number, from 0, of the first process that is ready.
fn first_ready(s: &State) -> Option<usize>
    ensures { result ≡ position ready s.now.processes }
{
    s.processes.iter().position(|p| p.is_ready())
}

// One statement of the lowest-numbered ready process, what it writes put into the lent buffer; or quiet, where none is ready.
pub fn drain<'a>(
    cells: &'a Cells,
    pool: &'a Pool,
    s: State,
    counts: &mut Counts,
    out: &mut [u8],
) -> Drained
    ensures { (result ≡ drained cells.now pool.now s counts.old
        (length out.old))
        × (out.new ≡ buffer_after cells.now pool.now s counts.old
        out.old)
        × (counts.new ≡ counts_after cells.now s counts.old (length out.old)) }
{
    // Copied once, before any branch, and altered in place: a copy of a state costs half as much as a statement.
    let mut t = s;
    let Some(i) = first_ready(&t) else {
        return idle(s, out.len());
    };
    let outcome = take_turn(&mut t, i, cells, pool, counts, out).unwrap_or_else(Outcome::Refused);
    Drained { state: t, outcome }
}
