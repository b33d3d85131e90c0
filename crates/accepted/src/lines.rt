// How many lines a listing has.
ghost use Rattle.std.specs.Prelude.{◌≡◌, ◌≤◌};
ghost use Rattle.accepted.specs.Inside.Heads.{in_use as in_use_of};
ghost use Rattle.accepted.specs.Inside.Lines.{lines_in};
ghost use Rattle.language.specs.Limits.{cell_places};

use crate::settings::{first_empty, setting_lines};
use language::Heads;

// How many lines the listing has.
pub(crate) fn lines(heads: Heads, in_use: usize) -> usize
    requires { (1 ≤ heads.processes) × (in_use_of heads ≡ in_use) × (in_use ≤ cell_places) }
    ensures { result ≡ lines_in heads }
{
    let behind = usize::from(heads.processes) - 1;
    setting_lines(heads) + usize::from(first_empty(heads)) + in_use + behind
}
