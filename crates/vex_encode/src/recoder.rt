//! Decoding the instruction at the front of a slice, and its canonical bytes.

ghost use Rattle.std.specs.Prelude.{◌≡◌, ◌<◌, ◌≤◌, ◌↔◌, length, ℕ, IsOk, IfOk, IfErr, Some, None, true, take};
ghost use Rattle.x86_permit.specs.Permission.{permits};
ghost use Rattle.vex_decode.specs.Spelling.{Spells};
ghost use Rattle.vex_decode.specs.Blocked.{blocked};
ghost use Rattle.vex_encode.specs.Canon.{canon};
ghost use Rattle.vex_encode.specs.Recode.{Recodes, recoded};

use crate::encode::canonical;
use crate::laws::recode_again;
use crate::spelling::Spelling;
use std::marker::Brand;
use std::sync::ledger::{Blank, Ledger};
use step_counter::Steps;
use vex_decode::Decoder;
use x86_operand::{DecodeError, Instruction};
use x86_settings::InstDecoder;

/// The canonical bytes of an instruction's meaning, with a counter of their own.
fn canonical_bytes<L: Ledger>(instruction: &Instruction, blank: Blank) -> Option<Spelling>
    requires name { blank.name ≡ L.name }
    requires parts { blank.parts ≡ L.parts }
    requires some { 0 < blank.parts }
    ensures { result ≡ canon instruction.now.meaning }
{
    canonical(instruction, &mut Steps::<L>::new(blank))
}

/// The instruction and its canonical bytes, with all that is known of them at once.
fn recode_all(decoder: &InstDecoder, bytes: &[u8]) -> Result<(Instruction, Spelling), DecodeError>
    ensures all { Recodes decoder.now bytes.now result }
    ensures answer { result ≡ recoded decoder.now bytes.now }
{
    // A law: canonical bytes of a permitted opcode are not blocked.
    recode_again();
    let instruction = decoder.decode_slice(bytes)?;
    match canonical_bytes::<Brand>(&instruction, Blank::new(1)) {
        Some(spelling) => Ok((instruction, spelling)),
        None => unreachable!(),
    }
}

/// Decodes the instruction at the front of the bytes (Intel SDM volume 2, section 2.3), and answers it, with the number
/// of bytes that spell it, 3 to 11, and the canonical bytes of its meaning. Later bytes play no part.
///
/// The error is that of the first step that fails: `Outside` where the first byte is there and is neither C4 nor C5,
/// `ExhaustedInput` where a byte that is read isn't there, `InvalidOpcode` where the map number or the look-up or a
/// group refuses, or the settings do, and `InvalidOperand` where vvvv, L or the kind of operand does.
pub fn recode(decoder: &InstDecoder, bytes: &[u8]) -> Result<(Instruction, Spelling), DecodeError>
    // What a decode answers, and its canonical bytes.
    ensures answer { result ≡ recoded decoder.now bytes.now }

    // Exactly where a permitted spelling begins the bytes.
    ensures begun { IsOk result ↔ (blocked decoder.now bytes.now ≡ None) }
    ensures within { IfOk result (λ recoded. recoded.0.len ≤ length bytes.now) }
    ensures spelled { IfOk result (λ recoded. Spells (take recoded.0.len bytes.now) recoded.0.meaning) }
    ensures permitted { IfOk result (λ recoded. permits decoder.now recoded.0.meaning.evex recoded.0.meaning.opcode
        ≡ true) }

    // The canonical bytes spell the same meaning, and are accepted under the same settings.
    ensures canonical { IfOk result (λ recoded. canon recoded.0.meaning ≡ Some recoded.1) }
    ensures same { IfOk result (λ recoded. Spells recoded.1 recoded.0.meaning) }
    ensures accepted { IfOk result (λ recoded. blocked decoder.now recoded.1 ≡ None) }

    // The error is the one that blocks the bytes.
    ensures refused { IfErr result (λ error. (n : ℕ) × (blocked decoder.now bytes.now ≡ Some (error, n))) }
{
    recode_all(decoder, bytes)
}
