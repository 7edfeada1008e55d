//! Decoding an instruction from a slice or a reader, under settings.

ghost use Rattle.std.specs.Prelude.{◌≡◌, ◌≤◌, ◌↔◌, length, take, ℕ, IsOk, IfOk, IfErr, OnOk, OnErr, IsSome, Some, None};
ghost use Rattle.std.specs.Prelude.{true};
ghost use Rattle.x86_permit.specs.Permission.{permits};
ghost use Rattle.x86_reader.specs.Reader.{marked};
ghost use Rattle.vex_forms.specs.Operands.{made};
ghost use Rattle.vex_decode.specs.Spelling.{Spells};
ghost use Rattle.vex_decode.specs.Blocked.{blocked};
ghost use Rattle.vex_decode.specs.Decode.{decode};
ghost use Rattle.vex_decode.specs.Decoding.{TakesInstruction, TakesBlocked, CompletesDecode, BlocksSlice, NotesTaken};
ghost use Rattle.vex_decode.specs.Decoding.{AnswersDecode, no_instruction};
ghost use Rattle.vex_decode.specs.Outcome.{Decodes};

use crate::reading::read_instruction;
use x86_operand::{DecodeError, FieldDescription, Instruction};
use x86_permit::revise_instruction;
use x86_reader::{DescriptionSink, NullSink, Reader, U8Reader};
use x86_settings::InstDecoder;

/// The greatest number of bytes of an instruction in VEX form: 3 of prefix, then opcode, ModRM, SIB, 4 of displacement
/// and 1 of immediate (Intel SDM volume 2, section 2.3.11 and figure 2-8).
pub const MAX_BYTES: usize = 11;

/// Decodes the instruction at the front of bytes, under settings (Intel SDM volume 2, section 2.3).
///
/// Each call marks its reader first, and takes the bytes of the steps that it does and no more, at most 11. The steps
/// are: the first byte, which is C4 or C5; the other bytes of the prefix, whose map number is 1, 2 or 3; the opcode
/// byte; the look-up of the entry; the steps of the entry's form; the settings. The first that fails gives the error:
///
/// - `Outside` where the first byte is neither C4 nor C5,
/// - `ExhaustedInput` where a byte isn't there, or the reader doesn't give it: only where its count of refusals rose in
///   this call or stands at its last value,
/// - `InvalidOpcode` where the map number, the look-up, a group or the settings refuse,
/// - `InvalidOperand` where vvvv, L or the kind of operand does.
///
/// After `Ok` the bytes taken spell the meaning of the instruction, and its length is how many they are. Bytes after
/// them play no part.
pub trait Decoder {
    ghost use Rattle.std.specs.Prelude.{Bool, List};

    /// The settings that it decodes by.
    ghost settings: { Self → List Bool };

    /// Decodes the instruction at the front of a slice, and answers it with the number of its bytes, 3 to 11. The
    /// errors are those above: `ExhaustedInput` comes exactly where a byte that a step reads isn't there.
    fn decode_slice(&self, bytes: &[u8]) -> Result<Instruction, DecodeError>
        ensures answer { result ≡ decode (settings self.now) bytes.now }

        // Exactly where a permitted spelling begins the bytes.
        ensures begun { IsOk result ↔ (blocked (settings self.now) bytes.now ≡ None) }
        ensures within { IfOk result (λ decoded. decoded.len ≤ length bytes.now) }
        ensures most { IfOk result (λ decoded. decoded.len ≤ 11) }
        ensures spelled { IfOk result (λ decoded. Spells (take decoded.len bytes.now) decoded.meaning) }
        ensures permitted { IfOk result (λ decoded. permits (settings self.now) decoded.meaning.evex
            decoded.meaning.opcode ≡ true) }

        // The error is the one that blocks the bytes.
        ensures refused { IfErr result (λ error. (n : ℕ) × (blocked (settings self.now) bytes.now ≡ Some (error, n))) };

    /// Decodes the instruction that a reader gives, and answers it with the number of bytes taken, 3 to 11. The errors
    /// are those above. Where the reader tells a permitted spelling and refuses no byte of it, the answer is `Ok`.
    fn decode<R: Reader>(&self, words: &mut R) -> Result<Instruction, DecodeError>
        ensures decoded { IfOk result
            (TakesInstruction (settings self.now) (marked (R.state words.old)) (R.state words.new)) }
        ensures refused { IfErr result
            (TakesBlocked (settings self.now) (marked (R.state words.old)) (R.state words.new)) }
        ensures complete { CompletesDecode (settings self.now) (marked (R.state words.old)) (R.state words.new) result }
        ensures slice { IfErr result
            (BlocksSlice (settings self.now) (marked (R.state words.old)) (R.state words.new)) }
        ensures answer { AnswersDecode (settings self.now) (marked (R.state words.old)) (R.state words.new) result };

    /// Decodes as `decode` does, and writes what it would answer to an instruction, whatever that held. After an error
    /// the instruction is the default one.
    fn decode_into<R: Reader>(
        &self,
        instruction: &mut Instruction,
        words: &mut R,
    ) -> Result<(), DecodeError>
        ensures decoded { OnOk result
            (TakesInstruction (settings self.now) (marked (R.state words.old)) (R.state words.new) instruction.new) }
        ensures refused { IfErr result
            (TakesBlocked (settings self.now) (marked (R.state words.old)) (R.state words.new)) }
        ensures fresh { OnErr result (instruction.new ≡ no_instruction) }
        ensures complete { CompletesDecode (settings self.now) (marked (R.state words.old)) (R.state words.new) result }
        ensures slice { IfErr result
            (BlocksSlice (settings self.now) (marked (R.state words.old)) (R.state words.new)) }
        ensures answer { AnswersDecode (settings self.now) (marked (R.state words.old)) (R.state words.new)
            (made result instruction.new) };

    /// Decodes as `decode_into` does, and appends the notes on the bytes taken to the sink, also after an error. There
    /// are at most 11: a sink with room for so many keeps telling its list.
    ///
    /// The bits of a note are counted from the mark on. The notes on the prefix come once all its bytes are there, and
    /// after a map number other than 1, 2 and 3 only those on pp and on the map; those on the opcode once the look-up
    /// has succeeded.
    fn decode_with_annotation<R: Reader, S: DescriptionSink<FieldDescription>>(
        &self,
        instruction: &mut Instruction,
        words: &mut R,
        sink: &mut S,
    ) -> Result<(), DecodeError>
        ensures decoded { OnOk result
            (TakesInstruction (settings self.now) (marked (R.state words.old)) (R.state words.new) instruction.new) }
        ensures refused { IfErr result
            (TakesBlocked (settings self.now) (marked (R.state words.old)) (R.state words.new)) }
        ensures fresh { OnErr result (instruction.new ≡ no_instruction) }
        ensures complete { CompletesDecode (settings self.now) (marked (R.state words.old)) (R.state words.new) result }
        ensures slice { IfErr result
            (BlocksSlice (settings self.now) (marked (R.state words.old)) (R.state words.new)) }
        ensures answer { AnswersDecode (settings self.now) (marked (R.state words.old)) (R.state words.new)
            (made result instruction.new) }
        ensures noted { NotesTaken (marked (R.state words.old)) (R.state words.new) (S.state sink.old)
            (S.state sink.new) }
        ensures kept { IsSome (S.state sink.old).told → 11 ≤ (S.state sink.old).room → IsSome (S.state sink.new).told };
}

/// Writes the instruction that a reader gives in the place of what `instruction` held, and its notes to the sink.
fn decode_noting<R: Reader, S: DescriptionSink<FieldDescription>>(
    settings: &InstDecoder,
    words: &mut R,
    sink: &mut S,
    instruction: &mut Instruction,
) -> Result<(), DecodeError>
    ensures { Decodes settings.now (marked (R.state words.old)) (R.state words.new)
        (S.state sink.old) (S.state sink.new) (made result instruction.new) }
{
    words.mark();
    read_instruction(words, sink, instruction)?;
    // At most 11.
    instruction.set_len(words.offset() as u8);
    revise_instruction(settings, instruction)?;
    Ok(())
}

impl Decoder for InstDecoder {
    ghost settings = { λ s. s };

    fn decode_slice(&self, bytes: &[u8]) -> Result<Instruction, DecodeError> {
        let mut words = U8Reader::new(bytes);
        self.decode(&mut words)
    }

    fn decode<R: Reader>(&self, words: &mut R) -> Result<Instruction, DecodeError> {
        let mut instruction = Instruction::default();
        match decode_noting(self, words, &mut NullSink, &mut instruction) {
            Ok(()) => Ok(instruction),
            Err(error) => Err(error),
        }
    }

    fn decode_into<R: Reader>(
        &self,
        instruction: &mut Instruction,
        words: &mut R,
    ) -> Result<(), DecodeError> {
        self.decode_with_annotation(instruction, words, &mut NullSink)
    }

    fn decode_with_annotation<R: Reader, S: DescriptionSink<FieldDescription>>(
        &self,
        instruction: &mut Instruction,
        words: &mut R,
        sink: &mut S,
    ) -> Result<(), DecodeError> {
        match decode_noting(self, words, sink, instruction) {
            Ok(()) => Ok(()),
            Err(error) => {
                *instruction = Instruction::default();
                Err(error)
            }
        }
    }
}
