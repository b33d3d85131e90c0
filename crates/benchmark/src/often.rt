// A turn, over and over, and what came of all of them.
ghost use Rattle.std.specs.Iterator.{IsFinite};

use process::{Event, State};

// The sum of what each turn gives.
pub(crate) fn sum<I: Iterator, F: FnMut(I::Item) -> u64>(turns: I, mut turn: F) -> u64
where
    I: Drop,
    requires can { I.can_next turns }
    requires finite { IsFinite (I.remaining turns) }
    requires callable { F.IsAlwaysCallable turn }
{
    let mut sum = 0u64;
    for item in turns {
        sum = sum.wrapping_add(turn(item));
    }
    sum
}

// Goes on from the state that an event left: 1 where it was taken, and else 0.
pub(crate) fn taken<A: Copy>(e: Event<A>, state: &mut State) -> u64 {
    *state = e.state;
    u64::from(e.answer.is_ok())
}
