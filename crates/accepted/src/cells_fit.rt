// The cells in use: statements that lines can have, with their data one after the other.
ghost use Rattle.std.specs.Prelude.{◌≡◌, ◌&&◌, ◌+◌, ◌≤◌, take};
ghost use Rattle.language.specs.Right.{data_right, log_right};
ghost use Rattle.language.specs.Table.{data_at};
ghost use Rattle.accepted.specs.Inside.Cells.{follows, cells_fit};
ghost use Rattle.accepted.specs.Inside.EndsFit.{reaches};
ghost use Rattle.accepted.specs.Inside.CellsFit.{word_reach, words_reach};
ghost use Rattle.language.specs.Limits.{line_limit, pool_places};

use crate::data_fit::{in_line, log_right};
use crate::zeros::all_from;
use cells::decoder::decode;
use language::last_digit::last_in_one;
use language::{Cell, Cells, DATA, Pool, SEND_ROOM, Span, WAIT_ROOM};

// Whether a line has room for data: in hex, the last byte in one digit if need be, or, with no LF among them, as text.
fn data_right(data: &[u8], room: usize) -> bool
    requires { room ≤ line_limit }
    ensures { result ≡ data_right room «data».now }
{
    data.len() <= room && (data.len() * 2 <= room || last_in_one(data, room) || in_line(data))
}

// The bytes of a cell's data.
// Also in lister and runner: shared it would be public, so total, with two tests more each time, no plainer.
fn data_of(s: Span, pool: &Pool) -> &[u8]
    requires { s.from + s.count ≤ pool_places }
    ensures { result.now ≡ data_at pool.now s }
{
    let from = usize::from(s.from);
    &pool[from..from + usize::from(s.count)]
}

// Where data end that are right, if they begin at `at`.
fn after(s: Span, at: usize, right: bool) -> Option<usize>
    ensures { result ≡ reaches (follows at s && right) (at + s.count) }
{
    let from = usize::from(s.from);
    (from == at && right).then_some(from + usize::from(s.count))
}

// Where the data of a cell end, `at` being where those before it end, if it says a statement that a line can have.
fn after_word(w: u32, pool: &Pool, at: usize) -> Option<usize>
    ensures { result ≡ word_reach pool.now at w }
{
    match decode(w) {
        Cell::Nothing | Cell::Unknown => None,
        Cell::Send(s) => after(s, at, data_right(data_of(s, pool), SEND_ROOM)),
        Cell::WaitData(s) => after(s, at, data_right(data_of(s, pool), WAIT_ROOM)),
        Cell::Log(s) => after(s, at, log_right(data_of(s, pool))),
        _ => Some(at),
    }
}

// Where the data of the first cells end, if each says a statement that a line can have and their data follow each other.
fn data_end<'a>(cells: &'a Cells, pool: &'a Pool, in_use: usize) -> Option<usize>
    ensures { result ≡ words_reach pool.now 0 (take in_use cells.now) }
{
    let mut at = 0usize;
    for w in &cells[..in_use.min(cells.len())] {
        at = after_word(*w, pool, at)?;
    }
    Some(at)
}

/// Whether the first cells are right, with nothing after them nor after the bytes that are used.
pub(crate) fn cells_right<'a>(cells: &'a Cells, pool: &'a Pool, in_use: usize, used: usize) -> bool
    ensures { result ≡ cells_fit in_use cells.now pool.now used }
{
    used <= DATA
        && data_end(cells, pool, in_use) == Some(used)
        && all_from(cells, in_use, &0)
        && all_from(pool, used, &0)
}
