// LOOP and END: the open loops of a process. None: a place, loop or data range leaves the table, which is 25.
ghost use Rattle.std.specs.Prelude.{◌≡◌};
ghost use Rattle.statement.specs.Ways.{goes};
ghost use Rattle.statement.specs.Inside.InTable.{in_table};
ghost use Rattle.statement.specs.Loops.{opened, back_to, closed};

use language::LOOP_PLACES;
use process::Process;
use process::waits::awaken;

// How many loops can be open, as wide as the depth of a process.
const OPEN: u8 = LOOP_PLACES as u8;

// On to a place, ready there or over, with the loops that are open.
pub(crate) fn goes_to(p: Process, place: u16) -> Process
    ensures { result ≡ (goes p place p.depth p.left p.back).process }
{
    let wait = awaken(place, p.end);
    Process { place, wait, ..p }
}

// LOOP n; `next` is the place after it.
#[tactic(auto, unfolding(crate::specs::Loops::opened))]
pub(crate) fn opens(mut p: Process, next: u16, n: u16) -> Option<Process>
    ensures { result ≡ in_table (opened p next n) }
{
    if OPEN <= p.depth {
        return None;
    }
    let at = usize::from(p.depth);
    p.left[at] = n;
    p.back[at] = next;
    p.depth += 1;
    Some(goes_to(p, next))
}

// Back to the body of the innermost loop.
#[tactic(auto, unfolding(crate::specs::Loops::back_to))]
fn goes_back(p: Process, body: u16) -> Option<Process>
    ensures { result ≡ in_table (back_to p body p.left) }
{
    (body < p.end).then(|| goes_to(p, body))
}

// END; `next` is the place after it.
#[tactic(auto, unfolding(crate::specs::Loops::pass, crate::specs::Loops::closed))]
pub(crate) fn closes(mut p: Process, next: u16) -> Option<Process>
    ensures { result ≡ in_table (closed p next) }
{
    if p.depth == 0 || OPEN < p.depth {
        return None;
    }
    let at = usize::from(p.depth - 1);
    let body = p.back[at];
    match p.left[at] {
        0 => goes_back(p, body),
        1 => {
            p.depth -= 1;
            Some(goes_to(p, next))
        }
        n => {
            p.left[at] = n - 1;
            goes_back(p, body)
        }
    }
}
