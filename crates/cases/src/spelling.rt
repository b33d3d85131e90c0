// A text, as a line spells it: `\n` is LF, `\r` CR, and `\` with any other byte that byte; `\512n` is 512 of them.
ghost use Rattle.std.specs.Prelude.{◌<◌, length, IfSome};

use console::parts::rest_from;
use language::TEXT;
use numbers::decimal::number;
use std::alloc::{AllocError, Global};

// One byte more than a text may have shows that it is too long. The box never holds a text: each program says it.
const ROOM: usize = TEXT + 1;

// So many of a byte, and what follows them in the line.
#[derive(Clone, Copy)]
struct Run<'a> {
    byte: u8,
    times: usize,
    rest: &'a [u8],
}

// What stands after a `\`: a number may come first.
fn escaped(line: &[u8]) -> Option<Run<'_>>
    ensures { IfSome result (λ run. length run.rest.now < length line.now) }
{
    let (times, place) = match number(line, 0, 5, ROOM as u32) {
        Ok(read) => (read.value as usize, read.next),
        Err(place) => (1, place),
    };
    let (byte, rest) = rest_from(line, place).split_first()?;
    let byte = match *byte {
        b'n' => b'\n',
        b'r' => b'\r',
        byte => byte,
    };
    Some(Run { byte, times, rest })
}

fn first_run(line: &[u8]) -> Option<Run<'_>>
    ensures { IfSome result (λ run. length run.rest.now < length line.now) }
{
    match line {
        [b'\\', rest @ ..] => escaped(rest),
        [byte, rest @ ..] => Some(Run {
            byte: *byte,
            times: 1,
            rest,
        }),
        [] => None,
    }
}

// Spells out a text, as far as there is room.
pub(crate) fn spell(alloc: Global, line: &[u8]) -> Result<Vec<u8>, AllocError> {
    let mut text = Vec::new(alloc);
    let mut rest = line;
    while let Some(run) = first_run(rest) {
        let end = text.len().saturating_add(run.times);
        text.resize(end.min(ROOM), run.byte)?;
        rest = run.rest;
    }
    Ok(text)
}
