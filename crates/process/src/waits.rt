// What a wait becomes where it ends, and what ends one.
ghost use Rattle.std.specs.Prelude.{◌≡◌};
ghost use Rattle.process.specs.Waiting.{awake, unit_matches, matches, sets_level};

use crate::{Reading, Wait};
use language::{Clock, Level};

// "one past its last statement is never ready again"
#[tactic(auto, unfolding(crate::specs::Waiting::awake))]
pub fn awaken(place: u16, end: u16) -> Wait
    ensures { result ≡ awake place end }
{
    if place < end { Wait::Ready } else { Wait::Over }
}

// A flag beside its value, as the definition unit_matches has them, which may not change.
#[tactic(auto, unfolding(crate::specs::Waiting::unit_matches))]
fn unit_matches(fixed: bool, value: u8, read: u8) -> bool
    ensures { result ≡ unit_matches fixed value read }
{
    !fixed || value == read
}

// Whether a reading has the values of the fixed units.
#[tactic(auto, unfolding(crate::specs::Waiting::matches))]
pub(crate) fn clock_matches(c: Clock, r: Reading) -> bool
    ensures { result ≡ matches c r }
{
    unit_matches(4 <= c.fixed, c.day, r.day)
        && unit_matches(3 <= c.fixed, c.hour, r.hour)
        && unit_matches(2 <= c.fixed, c.minute, r.minute)
        && unit_matches(1 <= c.fixed, c.second, r.second)
}

// Whether an event sets the level that a wait is for.
#[tactic(auto, unfolding(crate::specs::Waiting::sets_level))]
pub(crate) fn sets_level(l: Level, e: Level) -> bool
    ensures { result ≡ sets_level l e }
{
    l == e
}
