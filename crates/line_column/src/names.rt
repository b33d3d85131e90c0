// The names that something may follow, and the place up to which it can be taken. The line is handed on whole, with a place in it,
// since each answer is a place of the line; a struct of both would be made anew at each call, so that the bound stands in contracts.
// A test a name, since a `match` on byte strings is a goal for each byte that can differ (ten for three names).
ghost use Rattle.std.specs.Prelude.{◌+◌, ◌≤◌, ◌≡◌, length, drop};
ghost use Rattle.language.specs.Column.{behind_blanks, named_taken, waits_behind, names_behind};
ghost use Rattle.line_column.specs.Inside.Behind.{settings_behind, taken_to};

use crate::arguments::{Kind, in_word};
use crate::texts::{encode_taken, log_taken, marked_taken};
use words::{after_blanks, is_named, word_end};

// Behind WAIT's second word, which stands from one place to another.
fn behind_second(line: &[u8], from: usize, to: usize) -> usize
    requires { to ≤ length line.now }
    ensures { result ≡ taken_to waits_behind line.now from to }
{
    if is_named(line, from, to, b"TIME") {
        return in_word(line, to, Kind::Time);
    }
    if is_named(line, from, to, b"DATA") {
        return marked_taken(line, to);
    }
    if is_named(line, from, to, b"BYTE") {
        return in_word(line, to, Kind::Byte);
    }
    if is_named(line, from, to, b"CLOCK") {
        return in_word(line, to, Kind::Clock);
    }
    after_blanks(line, to)
}

// WAIT: its second word, and what follows it.
fn wait_taken(line: &[u8], at: usize) -> usize
    requires { at ≤ length line.now }
    ensures { result ≡ at + behind_blanks (named_taken waits_behind) (drop at line.now) }
{
    let from = after_blanks(line, at);
    let to = word_end(line, from);
    behind_second(line, from, to)
}

// Behind the name of an f: line, which ends at `to`.
fn behind_setting(line: &[u8], to: usize) -> usize
    requires { to ≤ length line.now }
    ensures { result ≡ taken_to settings_behind line.now 0 to }
{
    if is_named(line, 0, to, b"#f:ENCODE") {
        return encode_taken(line, to);
    }
    if is_named(line, 0, to, b"#f:EX1")
        || is_named(line, 0, to, b"#f:EX2")
        || is_named(line, 0, to, b"#f:EX3")
        || is_named(line, 0, to, b"#f:EX4")
    {
        return in_word(line, to, Kind::Ex);
    }
    if is_named(line, 0, to, b"#f:OMIT") {
        return marked_taken(line, to);
    }
    if is_named(line, 0, to, b"#f:LFEXT") {
        return in_word(line, to, Kind::Lfext);
    }
    after_blanks(line, to)
}

// Behind the name that a line begins with, which ends at `to`.
pub(crate) fn behind_name(line: &[u8], to: usize) -> usize
    requires { to ≤ length line.now }
    ensures { result ≡ taken_to names_behind line.now 0 to }
{
    if is_named(line, 0, to, b"#LOOP") {
        return in_word(line, to, Kind::Loop);
    }
    if is_named(line, 0, to, b"#WAIT") {
        return wait_taken(line, to);
    }
    if is_named(line, 0, to, b"#RTS") {
        return in_word(line, to, Kind::Rts);
    }
    if is_named(line, 0, to, b"#LOG") {
        return log_taken(line, to);
    }
    behind_setting(line, to)
}
