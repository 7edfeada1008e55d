//! Decoding after the first byte of a VEX prefix, without settings.

ghost use Rattle.std.specs.Prelude.{◌≡◌, ◌≤◌, IfErr, OnOk, OnErr, IsSome};
ghost use Rattle.vex_decode.specs.Decoding.{TakesRest, FailsRest, NotesRest, no_instruction};

use crate::reading::{read_after_three, read_after_two};
use x86_operand::{DecodeError, FieldDescription, Instruction};
use x86_reader::{DescriptionSink, Reader};

/// Decodes what follows the first byte C5 (Intel SDM volume 2, section 2.3.5), whatever the settings, and appends the
/// notes on all bytes from that one on to the sink, also after an error. The first byte has been taken since the
/// reader's mark, and no other.
///
/// After `Ok` that byte and the bytes taken, at most 10, spell the meaning of the instruction, and the length is how
/// many they are. After an error the instruction is the default one. The error is that of the first step that fails:
/// `ExhaustedInput` where the reader refuses a byte, only where its count of refusals rose in this call or stands at
/// its last value; `InvalidOpcode` where the look-up or a group refuses; `InvalidOperand` where vvvv, L or the kind of
/// operand does. `Outside` never comes.
pub fn two_byte_vex<R: Reader, S: DescriptionSink<FieldDescription>>(
    words: &mut R,
    instruction: &mut Instruction,
    sink: &mut S,
) -> Result<(), DecodeError>
    requires { (R.state words.old).since_mark ≡ 1 }
    ensures decoded { OnOk result (TakesRest 0xC5 (R.state words.old) (R.state words.new) instruction.new) }
    ensures refused { IfErr result (FailsRest 0xC5 (R.state words.old) (R.state words.new)) }
    ensures fresh { OnErr result (instruction.new ≡ no_instruction) }
    ensures noted { NotesRest 0xC5 (R.state words.old) (R.state words.new) (S.state sink.old) (S.state sink.new) }
    ensures kept { IsSome (S.state sink.old).told → 11 ≤ (S.state sink.old).room → IsSome (S.state sink.new).told }
{
    match read_after_two(words, sink, instruction) {
        Ok(()) => {
            // At most 11.
            instruction.set_len(words.offset() as u8);
            Ok(())
        }
        Err(error) => {
            *instruction = Instruction::default();
            Err(error)
        }
    }
}

/// Decodes what follows the first byte C4, as `two_byte_vex` does what follows C5. `InvalidOpcode` comes also where the
/// map number is none of 1, 2 and 3, once both bytes of the prefix are there.
pub fn three_byte_vex<R: Reader, S: DescriptionSink<FieldDescription>>(
    words: &mut R,
    instruction: &mut Instruction,
    sink: &mut S,
) -> Result<(), DecodeError>
    requires { (R.state words.old).since_mark ≡ 1 }
    ensures decoded { OnOk result (TakesRest 0xC4 (R.state words.old) (R.state words.new) instruction.new) }
    ensures refused { IfErr result (FailsRest 0xC4 (R.state words.old) (R.state words.new)) }
    ensures fresh { OnErr result (instruction.new ≡ no_instruction) }
    ensures noted { NotesRest 0xC4 (R.state words.old) (R.state words.new) (S.state sink.old) (S.state sink.new) }
    ensures kept { IsSome (S.state sink.old).told → 11 ≤ (S.state sink.old).room → IsSome (S.state sink.new).told }
{
    match read_after_three(words, sink, instruction) {
        Ok(()) => {
            // At most 11.
            instruction.set_len(words.offset() as u8);
            Ok(())
        }
        Err(error) => {
            *instruction = Instruction::default();
            Err(error)
        }
    }
}
