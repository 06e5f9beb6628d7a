//! The options of wait4(2) by their bits.
ghost use Rattle.std.specs.Prelude.{◌≡◌};
ghost use Rattle.tracehost_c.specs.Numbers.{options_numbered};

use step_types::Options;

/// Returns the options of wait4(2) with these bits: 1 for WNOHANG, which says nothing here, 2 for WUNTRACED, 4 for
/// WCONTINUED.
pub fn options_of(bits: u32) -> Option<Options>
    ensures { result ≡ options_numbered bits }
{
    if bits >= 8 {
        return None;
    }
    Some(Options {
        untraced: bits / 2 % 2 == 1,
        continued: bits / 4 % 2 == 1,
    })
}
