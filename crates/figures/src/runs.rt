// Runs, capped at 4,097 so that no sum and no product of them wraps.
ghost use Rattle.std.specs.Prelude.{◌≡◌, ◌+◌, ◌*◌};
ghost use Rattle.figures.specs.Cap.{cap};

/// The longest stretch that a process may have.
pub const LIMIT: u32 = 4096;
/// What stands for every run over the limit.
pub const OVER: u32 = LIMIT + 1;

/// The run x, capped.
pub(crate) fn held(x: u32) -> u32
    ensures { result ≡ cap x }
{
    x.min(OVER)
}

/// The capped run of two runs that meet.
pub(crate) fn meet(x: u32, y: u32) -> u32
    ensures { result ≡ cap (x + y) }
{
    held(held(x) + held(y))
}

/// The capped run of n runs of x that meet.
pub(crate) fn product(n: u32, x: u32) -> u32
    ensures { result ≡ cap (n * x) }
{
    held(held(n) * held(x))
}
