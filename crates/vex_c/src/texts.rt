//! The text of an instruction, both ways.

ghost use Rattle.std.specs.Prelude.{◌≡◌, ◌≢◌, ◌↔◌, ◌⊎◌, option_map, if◌then◌else◌, ◌==◌, IfOk, IfErr};
ghost use Rattle.x86_operand.specs.Meaning.{Meaning};
ghost use Rattle.vex_asm.specs.Laws.{IsTextOf};
ghost use Rattle.vex_asm.specs.Text.{text};
ghost use Rattle.vex_calls.specs.declared.call_error.CallError.TheVariants.{BadInstruction, BadSyntax, BadText};
ghost use Rattle.vex_calls.specs.Errors.{error_number};
ghost use Rattle.vex_calls.specs.Instructions.{meaning_of};
ghost use Rattle.vex_c.specs.Texts.{HoldsRead, WritesThere};

use crate::answer::put_text;
use vex_asm::{print, read};
use vex_calls::{CallError, FlatInstruction};

/// The number of the syntax that the product's own lines have, as `VADDPS x0 x1 x2 0`.
pub const PLAIN: u32 = 0;

/// Writes the text of an instruction's meaning and a 0 behind it: 0, or the number of an error, and the room is as it
/// was. `BadSyntax` comes exactly where the syntax isn't `PLAIN`, then `BadInstruction` exactly where the struct tells
/// no meaning, and then `NoRoom` exactly where text and 0 don't fit.
#[unsafe(no_mangle)]
pub extern "C" fn vex_format(instruction: &FlatInstruction, syntax: u32, room: &mut [u8]) -> u32
    ensures written { syntax ≡ PLAIN → WritesThere (error_number BadInstruction)
        (option_map text (meaning_of instruction.now)) result room.old room.new }
    ensures refused { syntax ≢ PLAIN → (result ≡ error_number BadSyntax) × (room.new ≡ room.old) }
{
    if syntax != PLAIN {
        return CallError::BadSyntax.number();
    }
    match instruction.instruction() {
        Some(instruction) => put_text(print(&instruction).as_str().as_bytes(), room),
        None => CallError::BadInstruction.number(),
    }
}

/// Writes the instruction, of length 0, that a text writes to `instruction`: 0, or the number of an error, and
/// `instruction` is as it was. `BadSyntax` comes exactly where the syntax isn't `PLAIN`, and then `BadText` exactly
/// where no meaning has the text. Only after `BadText` is `place` written, and holds 0.
#[unsafe(no_mangle)]
pub extern "C" fn vex_parse(
    syntax: u32,
    text: &[u8],
    instruction: &mut FlatInstruction,
    place: &mut usize,
) -> u32
    ensures holds { result ≡ 0 → (syntax ≡ PLAIN) × HoldsRead text.now instruction.new }
    ensures bad_syntax { (result ≡ error_number BadSyntax) ↔ (syntax ≢ PLAIN) }
    ensures bad_text { (result ≡ error_number BadText)
        ↔ ((syntax ≡ PLAIN) × ((m : Meaning) → IsTextOf text.now m → ⊥)) }
    ensures only { (result ≡ 0) ⊎ ((result ≡ error_number BadSyntax) ⊎ (result ≡ error_number BadText)) }
    ensures kept { result ≢ 0 → instruction.new ≡ instruction.old }
    ensures place { place.new ≡ (if result == error_number BadText then 0 else place.old) }
{
    if syntax != PLAIN {
        return CallError::BadSyntax.number();
    }
    match read(text) {
        Ok(found) => {
            *instruction = FlatInstruction::of(&found);
            0
        }
        Err(_) => {
            *place = 0;
            CallError::BadText.number()
        }
    }
}
