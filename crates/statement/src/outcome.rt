// What a statement says: what it sent, recorded or switched. What it makes of the pause and of its own count.
ghost use Rattle.std.specs.Prelude.{◌≡◌};
ghost use Rattle.statement.specs.Saying.{outcome_of, paused_by, counted_by};

use language::Cell;
use process::RunRefusal;

#[derive(Clone, Copy, PartialEq, Eq, Debug)]
pub struct Written {
    pub bytes: usize,
}

#[derive(Clone, Copy, PartialEq, Eq, Debug)]
pub struct Switch {
    pub on: bool,
}

// What a drain says: none is ready; or what the statement sent, recorded or switched, Plain where it did none of these.
// Its refusal is a case too: document 01, "Forms by place in the code", has the drain's answer as an enum of outcomes.
#[derive(Clone, Copy, PartialEq, Eq, Debug)]
pub enum Outcome {
    Quiet,
    Sent(Written),
    Recorded(Written),
    Rts(Switch),
    Fchange,
    Pause,
    Resume,
    Plain,
    Refused(RunRefusal),
}

// What a statement says that wrote n bytes.
#[tactic(auto, unfolding(crate::specs::Saying::outcome_of))]
pub fn said(cell: Cell, n: usize) -> Outcome
    ensures { result ≡ outcome_of n cell }
{
    match cell {
        Cell::Send(_) => Outcome::Sent(Written { bytes: n }),
        Cell::Rts(on) => Outcome::Rts(Switch { on }),
        Cell::Log(_) => Outcome::Recorded(Written { bytes: n }),
        Cell::Fchange => Outcome::Fchange,
        Cell::Pause => Outcome::Pause,
        Cell::Resume => Outcome::Resume,
        _ => Outcome::Plain,
    }
}

// "PAUSE and RESUME act from the next byte".
#[tactic(auto, unfolding(crate::specs::Saying::paused_by))]
pub fn pauses(cell: Cell, paused: bool) -> bool
    ensures { result ≡ paused_by paused cell }
{
    match cell {
        Cell::Pause => true,
        Cell::Resume => false,
        _ => paused,
    }
}

// A LOG statement has recorded once more: "4294967295 is followed by 0".
#[tactic(auto, unfolding(crate::specs::Saying::counted_by, record::specs::Logging::next_count))]
pub fn counted(cell: Cell, n: u32) -> u32
    ensures { result ≡ counted_by n cell }
{
    match cell {
        Cell::Log(_) => n.wrapping_add(1),
        _ => n,
    }
}
