//! Encoding, and the spellings of a meaning.

ghost use Rattle.std.specs.Prelude.{◌≡◌, ◌≢◌, ◌↔◌, ◌<◌, ℕ, List, Some, None, IfOk, IfErr, IsErr};
ghost use Rattle.vex_decode.specs.Spelling.{Spells};
ghost use Rattle.vex_encode.specs.Canon.{canon};
ghost use Rattle.vex_calls.specs.Encodings.{bytes_of};
ghost use Rattle.vex_calls.specs.Errors.{error_number};
ghost use Rattle.vex_calls.specs.Instructions.{meaning_of};
ghost use Rattle.vex_c.specs.Encoding.{AnswersNoBytes, AnswersNoNext, HoldsNext, HoldsShortest};

use crate::answer::put;
use std::marker::Brand;
use std::sync::ledger::{Blank, Ledger};
use step_counter::Steps;
use vex_calls::{CallError, FlatBytes, FlatInstruction};
use vex_encode::{Spelling, encode_shortest};
use vex_list::spelling_after;
use x86_operand::{EncodeError, Instruction};

/// The canonical bytes of an instruction's meaning, with a counter of their own.
fn counted<L: Ledger>(instruction: &Instruction, blank: Blank) -> Result<Spelling, EncodeError>
    requires name { blank.name ≡ L.name }
    requires parts { blank.parts ≡ L.parts }
    requires some { 0 < blank.parts }
    ensures canonical { IfOk result (λ spelling. canon instruction.now.meaning ≡ Some spelling) }
    ensures spells { IfOk result (λ spelling. Spells spelling instruction.now.meaning) }
    ensures none { IsErr result ↔ ((bytes : List ℕ) → Spells bytes instruction.now.meaning → ⊥) }
{
    encode_shortest(instruction, &mut Steps::<L>::new(blank))
}

/// The canonical bytes of an instruction.
fn shortest(flat: &FlatInstruction) -> Result<FlatBytes, CallError>
    ensures holds { IfOk result (HoldsShortest flat.now) }
    ensures refused { IfErr result (λ error. AnswersNoBytes (meaning_of flat.now) (error_number error)) }
{
    match flat.instruction() {
        Some(instruction) => match counted::<Brand>(&instruction, Blank::new(1)) {
            Ok(spelling) => Ok(FlatBytes::of(spelling.as_slice())),
            Err(_) => Err(CallError::NoSpelling),
        },
        None => Err(CallError::BadInstruction),
    }
}

/// Writes the canonical bytes of an instruction's meaning to `encoding`: 0, or the number of an error, and `encoding`
/// is as it was. `BadInstruction` comes exactly where the struct tells no meaning, and `NoSpelling` exactly where it
/// tells one that no bytes spell.
#[unsafe(no_mangle)]
pub extern "C" fn vex_encode(instruction: &FlatInstruction, encoding: &mut FlatBytes) -> u32
    ensures holds { result ≡ 0 → HoldsShortest instruction.now encoding.new }
    ensures refused { result ≢ 0 → AnswersNoBytes (meaning_of instruction.now) result }
    ensures kept { result ≢ 0 → encoding.new ≡ encoding.old }
{
    put(shortest(instruction), encoding)
}

/// The next spelling of an instruction.
fn next(flat: &FlatInstruction, after: &FlatBytes) -> Result<FlatBytes, CallError>
    ensures holds { IfOk result (HoldsNext flat.now after.now) }
    ensures refused { IfErr result
        (λ error. AnswersNoNext (meaning_of flat.now) (bytes_of after.now) (error_number error)) }
{
    let Some(instruction) = flat.instruction() else {
        return Err(CallError::BadInstruction);
    };
    let Some(previous) = after.bytes() else {
        return Err(CallError::BadEncoding);
    };
    match spelling_after(&instruction, previous) {
        Some(spelling) => Ok(FlatBytes::of(spelling.as_slice())),
        None => Err(CallError::NoSpelling),
    }
}

/// Writes the least spelling of an instruction's meaning that comes after some bytes to `encoding`: 0, or the number of
/// an error, and `encoding` is as it was. `BadInstruction` comes exactly where the struct tells no meaning,
/// `BadEncoding` exactly where it does and `after` is said to have more than 15 bytes, and `NoSpelling` exactly where
/// no spelling comes after them.
#[unsafe(no_mangle)]
pub extern "C" fn vex_next_spelling(
    instruction: &FlatInstruction,
    after: &FlatBytes,
    encoding: &mut FlatBytes,
) -> u32
    ensures holds { result ≡ 0 → HoldsNext instruction.now after.now encoding.new }
    ensures refused { result ≢ 0 → AnswersNoNext (meaning_of instruction.now) (bytes_of after.now) result }
    ensures kept { result ≢ 0 → encoding.new ≡ encoding.old }
{
    put(next(instruction, after), encoding)
}
