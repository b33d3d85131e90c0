// Start and drain, on a lent table, lent counts and a state by value. The events are the crate `events`'s.
#![tactic(auto)]

pub mod draining;
pub mod starting;
mod turn;

use process::State;
use statement::outcome::Outcome;

#[derive(Clone, Copy)]
pub struct Drained {
    pub state: State,
    pub outcome: Outcome,
}
