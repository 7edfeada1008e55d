//! The result line of some code.

ghost use Rattle.std.specs.Prelude.{◌≡◌, ◌<◌, ℕ, List, [], Some, unwrap_or};
ghost use Rattle.x86_operand.specs.Errors.{decode_error_name};
ghost use Rattle.vex_decode.specs.Spelling.{Spells};
ghost use Rattle.vex_encode.specs.Canon.{canon};
ghost use Rattle.vex_lines.specs.Ends.{Writes};
ghost use Rattle.vex_lines.specs.ErrorLine.{error_line};
ghost use Rattle.vex_lines.specs.ResultLine.{instruction_line, result_line};

use crate::ends::{Failed, Sink};
use crate::line_text::{LineText, error_text, instruction_text};
use std::marker::Brand;
use std::sync::ledger::{Blank, Ledger};
use step_counter::Steps;
use vex_decode::Decoder;
use vex_encode::{Spelling, encode_shortest};
use x86_operand::{DecodeError, Instruction};
use x86_settings::InstDecoder;

/// The canonical bytes of an instruction that some bytes spell, with a counter of their own.
fn canonical_bytes<L: Ledger>(instruction: &Instruction, blank: Blank) -> Spelling
    requires spelled { (bytes : List ℕ) × Spells bytes instruction.now.meaning }
    requires name { blank.name ≡ L.name }
    requires parts { blank.parts ≡ L.parts }
    requires some { 0 < blank.parts }
    ensures { canon instruction.now.meaning ≡ Some result }
{
    match encode_shortest(instruction, &mut Steps::<L>::new(blank)) {
        Ok(spelling) => spelling,
        Err(_) => unreachable!(),
    }
}

/// Writes the result line of an instruction that some bytes spell, in one write. `Failed` where the sink's write fails.
pub fn write_instruction<K: Sink>(
    instruction: &Instruction,
    text: &mut LineText,
    sink: &mut K,
) -> Result<(), Failed>
    requires { (bytes : List ℕ) × Spells bytes instruction.now.meaning }
    ensures { Writes result (K.text sink.old) (K.text sink.new) (K.faults sink.old) (K.faults sink.new)
        (instruction_line instruction.now.len instruction.now.meaning (unwrap_or (canon instruction.now.meaning) [])) }
{
    let spelling = canonical_bytes::<Brand>(instruction, Blank::new(1));
    instruction_text(text, instruction, &spelling);
    sink.write_all(text.as_str().as_bytes())
}

/// Writes the line of a decode's error, in one write. `Failed` where the sink's write fails.
pub fn write_refused<K: Sink>(
    error: DecodeError,
    text: &mut LineText,
    sink: &mut K,
) -> Result<(), Failed>
    ensures { Writes result (K.text sink.old) (K.text sink.new) (K.faults sink.old) (K.faults sink.new)
        (error_line (decode_error_name error)) }
{
    error_text(text, error.name());
    sink.write_all(text.as_str().as_bytes())
}

/// Writes the result line of these bytes under settings, in one write. `Failed` where the sink's write fails.
pub fn write_result_line<K: Sink>(
    settings: &InstDecoder,
    bytes: &[u8],
    text: &mut LineText,
    sink: &mut K,
) -> Result<(), Failed>
    ensures { Writes result (K.text sink.old) (K.text sink.new) (K.faults sink.old) (K.faults sink.new)
        (result_line settings.now bytes.now) }
{
    // The instruction is lent to what encodes and prints it: `recode` hands it on by value, which takes longer.
    match settings.decode_slice(bytes) {
        Ok(instruction) => write_instruction(&instruction, text, sink),
        Err(error) => write_refused(error, text, sink),
    }
}
