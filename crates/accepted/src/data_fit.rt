// Which data a line can hold.
ghost use Rattle.std.specs.Prelude.{◌≡◌};
ghost use Rattle.reader.specs.Bytes.{all};
ghost use Rattle.language.specs.Right.{in_line, log_right};

use language::LOG_ROOM;
use language::signs::right_signs;

/// Whether the bytes can stand in a line: no LF is among them.
pub(crate) fn in_line(text: &[u8]) -> bool
    ensures { result ≡ all in_line text.now }
{
    !text.contains(&b'\n')
}

/// Whether a line can have this LOG text.
pub(crate) fn log_right(text: &[u8]) -> bool
    ensures { result ≡ log_right text.now }
{
    text.len() <= LOG_ROOM && right_signs(text) && in_line(text)
}
