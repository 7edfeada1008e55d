//! Whether settings accept a run of instructions.

ghost use Rattle.std.specs.Prelude.{◌≡◌, ◌↔◌, IsTrue};
ghost use Rattle.vex_decode.specs.Laws.{AreWithin};
ghost use Rattle.vex_check.specs.Accepted.{covers};

use crate::needs::Needs;
use x86_settings::InstDecoder;

/// Whether settings have every bit that a run needs: exactly then they permit all its instructions.
pub fn accepts(decoder: &InstDecoder, needs: &Needs) -> bool
    ensures value { result ≡ covers decoder.now needs.now.least }
    ensures all { IsTrue result ↔ AreWithin needs.now.least decoder.now }
{
    has_each_bit(decoder, &needs.least)
}

/// Whether settings have every bit of others.
fn has_each_bit(decoder: &InstDecoder, wanted: &InstDecoder) -> bool
    ensures { IsTrue result ↔ AreWithin wanted.now decoder.now }
{
    for bit in 0..128 {
        if wanted.bit(bit) && !decoder.bit(bit) {
            return false;
        }
    }
    true
}
