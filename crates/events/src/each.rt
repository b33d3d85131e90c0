// The eight processes, each handed to a function.
ghost use Rattle.events.specs.Inside.Each.{EachMay, EachGives};

use language::PROCESS_PLACES;
use process::Process;

// Each process is handed to a function, and what comes back stands in its place.
// With the `map` of arrays a tick took 1,163 instructions, where a loop takes 627.
pub(crate) fn each<F: Fn(Process) -> Process>(
    mut ps: [Process; PROCESS_PLACES],
    f: F,
) -> [Process; PROCESS_PLACES]
    requires { EachMay (F.pre f) ps }
    ensures { EachGives (F.post f) ps result }
{
    for i in 0..PROCESS_PLACES {
        ps[i] = f(ps[i]);
    }
    ps
}
