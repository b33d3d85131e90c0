// Names of lines that have no data, and what stands after them. A test a name: see names.rt.
ghost use Rattle.std.specs.Prelude.{◌≡◌};
ghost use Rattle.language.specs.Meaning.{lookup};
ghost use Rattle.line_values.specs.Inside.Line.{line_from};
ghost use Rattle.line_meaning.specs.Inside.Names.{names_with, settings_long, waits_long};
ghost use Rattle.line_meaning.specs.Inside.Signal.{level_line};

use language::{Cell, Level, TextFault};
use line_values::Line;
use line_values::clocks::wait_clock;
use line_values::parts::{argument, bare_name, is_name};
use line_values::settings::{ex, rts};

// The names with an R: RTS and RESUME.
pub(crate) fn rts_or_resume(word: &[u8], rest: &[u8]) -> Result<Line, TextFault>
    ensures { result ≡ line_from (lookup (names_with 82) word.now rest.now) }
{
    if is_name(word, b"#RTS") {
        return rts(argument(rest));
    }
    bare_name(word, b"#RESUME", rest, Line::Says(Cell::Resume))
}

// The names with a P: PAUSE and PROCESS.
pub(crate) fn pause_or_process(word: &[u8], rest: &[u8]) -> Result<Line, TextFault>
    ensures { result ≡ line_from (lookup (names_with 80) word.now rest.now) }
{
    if word.len() == 6 {
        return bare_name(word, b"#PAUSE", rest, Line::Says(Cell::Pause));
    }
    bare_name(word, b"#PROCESS", rest, Line::Process)
}

// The names of f: lines with six bytes: EX1 to EX4.
pub(crate) fn only_ex(word: &[u8], rest: &[u8]) -> Result<Line, TextFault>
    ensures { result ≡ line_from (lookup (settings_long 6) word.now rest.now) }
{
    if is_name(word, b"#f:EX1")
        || is_name(word, b"#f:EX2")
        || is_name(word, b"#f:EX3")
        || is_name(word, b"#f:EX4")
    {
        return ex(argument(rest));
    }
    Err(TextFault::NoSuchName)
}

// A wait for a level of a signal.
fn level(signal: u8, on: bool) -> Line
    ensures { result ≡ level_line signal on }
{
    Line::Says(Cell::WaitSignal(Level { signal, on }))
}

// The second words of five bytes: CLOCK, and signals that are on. One function for both lengths would be handed five names, so that
// all ten would still stand.
pub(crate) fn of_five(word: &[u8], rest: &[u8]) -> Result<Line, TextFault>
    ensures { result ≡ line_from (lookup (waits_long 5) word.now rest.now) }
{
    if word.len() < 3 {
        return Err(TextFault::NoSuchName);
    }
    match word[2] {
        b'O' => {
            if is_name(word, b"CLOCK") {
                return wait_clock(argument(rest));
            }
            Err(TextFault::NoSuchName)
        }
        b'S' => bare_name(word, b"CTSON", rest, level(0, true)),
        b'1' => bare_name(word, b"EX1ON", rest, level(1, true)),
        b'2' => bare_name(word, b"EX2ON", rest, level(2, true)),
        b'3' => bare_name(word, b"EX3ON", rest, level(3, true)),
        b'4' => bare_name(word, b"EX4ON", rest, level(4, true)),
        _ => Err(TextFault::NoSuchName),
    }
}

// The second words of six bytes: signals that are off.
pub(crate) fn of_six(word: &[u8], rest: &[u8]) -> Result<Line, TextFault>
    ensures { result ≡ line_from (lookup (waits_long 6) word.now rest.now) }
{
    if word.len() < 3 {
        return Err(TextFault::NoSuchName);
    }
    match word[2] {
        b'S' => bare_name(word, b"CTSOFF", rest, level(0, false)),
        b'1' => bare_name(word, b"EX1OFF", rest, level(1, false)),
        b'2' => bare_name(word, b"EX2OFF", rest, level(2, false)),
        b'3' => bare_name(word, b"EX3OFF", rest, level(3, false)),
        b'4' => bare_name(word, b"EX4OFF", rest, level(4, false)),
        _ => Err(TextFault::NoSuchName),
    }
}
