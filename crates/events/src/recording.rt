// How often a received byte is recorded, and the records of a run of bytes. The loops count by hand: as iterators (`take`, `any`, `enumerate`) they proved,
// but miss the bar of speed, a gulp of 256 bytes without ENCODE or OMIT 1,309 instructions, then 7,419: no longer one copy of the block.
ghost use Rattle.std.specs.Prelude.{◌≡◌, ◌+◌, ◌≤◌, length, take, replicate};
ghost use Rattle.std.proofs.Math.Seq as seq;
ghost use Rattle.events.specs.Recording.{one_of, times_recorded};
ghost use Rattle.events.specs.Inside.Passing.{records_of, room_for};

use language::Heads;

// Whether a byte is one of the first of some.
fn is_one_of(bytes: &[u8], count: usize, b: u8) -> bool
    ensures { result ≡ one_of (take count bytes.now) b }
{
    let mut i = 0usize;
    while i < bytes.len() {
        if count <= i {
            return false;
        }
        if bytes[i] == b {
            return true;
        }
        i += 1;
    }
    false
}

// How often a byte is recorded: "not at all if paused or in OMIT; in all other cases twice if it is the ENCODE byte".
#[tactic(auto, unfolding(crate::specs::Recording::times_recorded))]
pub(crate) fn recorded(heads: Heads, paused: bool, b: u8) -> u8
    ensures { result ≡ times_recorded heads paused b }
{
    let omit = heads.omit;
    if paused || is_one_of(&omit, usize::from(heads.omits), b) {
        return 0;
    }
    if heads.encodes && heads.encode == b {
        return 2;
    }
    1
}

// How many bytes of a run are taken until fewer than two places remain.
pub(crate) fn room_for(heads: Heads, paused: bool, run: &[u8], room: usize) -> usize
    ensures { result ≡ room_for heads paused run.now room }
{
    // Room for each byte twice: no byte need be looked at.
    if run.len() <= room / 2 {
        return run.len();
    }
    let mut left = room;
    let mut i = 0;
    while i < run.len() {
        if left < 2 {
            return i;
        }
        left -= usize::from(recorded(heads, paused, run[i]));
        i += 1;
    }
    i
}

// A byte so many times, at most twice.
fn put_copies(out: &mut [u8], at: usize, b: u8, count: u8)
    requires { (count ≤ 2) × (at + count ≤ length out.old) }
    ensures { out.new ≡ seq.sets out.old at (replicate count b) }
{
    if count == 0 {
        return;
    }
    out[at] = b;
    if count == 2 {
        out[at + 1] = b;
    }
}

// The records of a run, at the front of the lent places: how many.
pub(crate) fn record_run(heads: Heads, paused: bool, run: &[u8], out: &mut [u8]) -> usize
    requires { length (records_of heads paused run.now) ≤ length out.old }
    ensures { (result ≡ length (records_of heads paused run.now))
        × (out.new ≡ seq.sets out.old 0 (records_of heads paused run.now)) }
{
    let mut at = 0usize;
    let mut i = 0;
    while i < run.len() {
        let b = run[i];
        let count = recorded(heads, paused, b);
        put_copies(out, at, b, count);
        at += usize::from(count);
        i += 1;
    }
    at
}
