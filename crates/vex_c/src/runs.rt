//! One instruction after another.

ghost use Rattle.std.specs.Prelude.{◌≡◌, ◌≤◌, ℕ, Ok, Err, Some, IfOk, IfErr, length};
ghost use Rattle.vex_decode.specs.Decode.{decode};
ghost use Rattle.vex_calls.specs.Errors.{decode_error};
ghost use Rattle.vex_calls.specs.Settings.{settings_of};
ghost use Rattle.vex_c.specs.Runs.{HoldsRun};

use vex_calls::{CallError, FlatInstruction, FlatSettings};
use vex_decode::Decoder;
use vex_decode::laws::prefix_free;
use x86_operand::{DecodeError, Instruction};
use x86_settings::InstDecoder;

/// How far a run of instructions was decoded.
#[repr(C)]
#[derive(Clone, Copy, PartialEq, Eq, Debug, Default)]
pub struct Taken {
    /// How many instructions.
    pub instructions: usize,
    /// Of how many bytes.
    pub bytes: usize,
}

/// The instruction at the front of bytes, or the error that blocks them.
fn first(settings: &InstDecoder, bytes: &[u8]) -> Result<Instruction, DecodeError>
    ensures first { IfOk result (λ decoded. decode settings.now bytes.now ≡ Ok decoded) }
    ensures some { IfOk result (λ decoded. 1 ≤ decoded.len) }
    ensures within { IfOk result (λ decoded. decoded.len ≤ length bytes.now) }
    ensures blocked { IfErr result (λ error. decode settings.now bytes.now ≡ Err error) }
{
    // A law: a spelling has bytes.
    prefix_free();
    match settings.decode_slice(bytes) {
        Ok(instruction) => Ok(instruction),
        Err(error) => Err(error),
    }
}

/// Decodes one instruction after another from the front of the bytes into the places, as many as there are or fit, and
/// writes how many instructions and bytes that were to `taken`, also after an error: that of the bytes behind them.
/// Where the places are full, 0 is answered. The places behind the instructions are as they were.
#[unsafe(no_mangle)]
pub extern "C" fn vex_decode_all(
    settings: &FlatSettings,
    bytes: &[u8],
    instructions: &mut [FlatInstruction],
    taken: &mut Taken,
) -> u32
    ensures { HoldsRun (settings_of settings.now) bytes.now instructions.old instructions.new taken.new result }
{
    let decoder = settings.settings();
    let mut place = 0;
    for count in 0..instructions.len() {
        if place == bytes.len() {
            *taken = Taken {
                instructions: count,
                bytes: place,
            };
            return 0;
        }
        match first(&decoder, &bytes[place..]) {
            Ok(instruction) => {
                instructions[count] = FlatInstruction::of(&instruction);
                place += usize::from(instruction.len());
            }
            Err(error) => {
                *taken = Taken {
                    instructions: count,
                    bytes: place,
                };
                return CallError::of_decode(error).number();
            }
        }
    }
    *taken = Taken {
        instructions: instructions.len(),
        bytes: place,
    };
    0
}
