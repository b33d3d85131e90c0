// The number of a fault.
ghost use Rattle.std.specs.Prelude.{◌≡◌};
ghost use Rattle.language.specs.Answer.{fault_number};

use language::TextFault;

/// "Numbers the bench reads back". The conversion keeps this public name, which callers have.
pub fn number(fault: TextFault) -> u8
    ensures { result ≡ fault_number fault }
{
    fault as u8
}
