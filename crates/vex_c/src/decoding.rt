//! Decoding.

ghost use Rattle.std.specs.Prelude.{◌≡◌, ◌≤◌, ◌↔◌, ◌≢◌, IfOk, IfErr, None};
ghost use Rattle.vex_decode.specs.Blocked.{blocked};
ghost use Rattle.vex_calls.specs.Errors.{error_number};
ghost use Rattle.vex_calls.specs.Settings.{settings_of};
ghost use Rattle.vex_c.specs.Decoding.{AnswersBlocked, HoldsFirst, HoldsFirstAndShortest};

use crate::answer::put;
use vex_calls::{CallError, FlatBytes, FlatInstruction, FlatSettings};
use vex_decode::Decoder;
use vex_encode::recode;

/// The instruction at the front of bytes.
fn first(settings: &FlatSettings, bytes: &[u8]) -> Result<FlatInstruction, CallError>
    ensures holds { IfOk result (HoldsFirst (settings_of settings.now) bytes.now) }
    ensures most { IfOk result (λ flat. flat.length ≤ 11) }
    ensures blocked { IfErr result (λ error. AnswersBlocked (settings_of settings.now) bytes.now (error_number error)) }
{
    match settings.settings().decode_slice(bytes) {
        Ok(instruction) => Ok(FlatInstruction::of(&instruction)),
        Err(error) => Err(CallError::of_decode(error)),
    }
}

/// Decodes the instruction at the front of the bytes under the settings, and writes it to `instruction`: 0, or the
/// number of an error, and `instruction` is as it was.
#[unsafe(no_mangle)]
pub extern "C" fn vex_decode(
    settings: &FlatSettings,
    bytes: &[u8],
    instruction: &mut FlatInstruction,
) -> u32
    ensures begun { (result ≡ 0) ↔ (blocked (settings_of settings.now) bytes.now ≡ None) }
    ensures holds { result ≡ 0 → HoldsFirst (settings_of settings.now) bytes.now instruction.new }
    ensures most { result ≡ 0 → instruction.new.length ≤ 11 }
    ensures refused { result ≢ 0 → AnswersBlocked (settings_of settings.now) bytes.now result }
    ensures kept { result ≢ 0 → instruction.new ≡ instruction.old }
{
    put(first(settings, bytes), instruction)
}

/// The instruction at the front of bytes, and its canonical bytes.
fn first_and_shortest(
    settings: &FlatSettings,
    bytes: &[u8],
) -> Result<(FlatInstruction, FlatBytes), CallError>
    ensures holds { IfOk result
        (λ found. HoldsFirstAndShortest (settings_of settings.now) bytes.now found.0 found.1) }
    ensures blocked { IfErr result (λ error. AnswersBlocked (settings_of settings.now) bytes.now (error_number error)) }
{
    match recode(&settings.settings(), bytes) {
        Ok(recoded) => Ok((
            FlatInstruction::of(&recoded.0),
            FlatBytes::of(recoded.1.as_slice()),
        )),
        Err(error) => Err(CallError::of_decode(error)),
    }
}

/// Decodes as `vex_decode` does, and writes the canonical bytes of the instruction's meaning to `encoding`: 0, or the
/// number of an error, and both places are as they were.
#[unsafe(no_mangle)]
pub extern "C" fn vex_recode(
    settings: &FlatSettings,
    bytes: &[u8],
    instruction: &mut FlatInstruction,
    encoding: &mut FlatBytes,
) -> u32
    ensures begun { (result ≡ 0) ↔ (blocked (settings_of settings.now) bytes.now ≡ None) }
    ensures holds { result ≡ 0
        → HoldsFirstAndShortest (settings_of settings.now) bytes.now instruction.new encoding.new }
    ensures refused { result ≢ 0 → AnswersBlocked (settings_of settings.now) bytes.now result }
    ensures kept { result ≢ 0 → (instruction.new ≡ instruction.old) × (encoding.new ≡ encoding.old) }
{
    match first_and_shortest(settings, bytes) {
        Ok((found, shortest)) => {
            *instruction = found;
            *encoding = shortest;
            0
        }
        Err(error) => error.number(),
    }
}
