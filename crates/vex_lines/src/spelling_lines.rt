//! The lines of all spellings of the instruction that begins some code.

ghost use Rattle.std.specs.Prelude.{flat_map};
ghost use Rattle.vex_list.specs.AllSpellings.{all_spellings};
ghost use Rattle.vex_lines.specs.Ends.{Writes};
ghost use Rattle.vex_lines.specs.SpellingLines.{lines_of_meaning, spelling_line, spelling_lines};

use crate::ends::{Failed, Sink};
use crate::line_text::{LineText, bytes_text, error_text};
use vex_decode::Decoder;
use vex_list::{first_spelling, spelling_after};
use x86_operand::Instruction;
use x86_settings::InstDecoder;

/// Writes a line for each spelling of the instruction's meaning, in order, in one write each.
fn write_each<K: Sink>(
    instruction: &Instruction,
    text: &mut LineText,
    sink: &mut K,
) -> Result<(), Failed>
    ensures { Writes result (K.text sink.old) (K.text sink.new) (K.faults sink.old) (K.faults sink.new)
        (flat_map spelling_line (all_spellings instruction.now.meaning)) }
{
    let mut next = first_spelling(instruction);
    while let Some(spelling) = next {
        bytes_text(text, &spelling);
        sink.write_all(text.as_str().as_bytes())?;
        next = spelling_after(instruction, spelling.as_slice());
    }
    Ok(())
}

/// Writes the lines of all spellings of the instruction's meaning, and that of the end.
fn write_all_spellings<K: Sink>(
    instruction: &Instruction,
    text: &mut LineText,
    sink: &mut K,
) -> Result<(), Failed>
    ensures { Writes result (K.text sink.old) (K.text sink.new) (K.faults sink.old) (K.faults sink.new)
        (lines_of_meaning instruction.now.meaning) }
{
    write_each(instruction, text, sink)?;
    sink.write_all(b"end\n")
}

/// Decodes the beginning of these bytes under settings, and writes a line for each spelling of its meaning and one for
/// the end, or one that names the error, in one write each. `Failed` where a write of the sink fails.
pub fn write_spellings<K: Sink>(
    settings: &InstDecoder,
    bytes: &[u8],
    text: &mut LineText,
    sink: &mut K,
) -> Result<(), Failed>
    ensures { Writes result (K.text sink.old) (K.text sink.new) (K.faults sink.old) (K.faults sink.new)
        (spelling_lines settings.now bytes.now) }
{
    match settings.decode_slice(bytes) {
        Ok(instruction) => write_all_spellings(&instruction, text, sink),
        Err(error) => {
            error_text(text, error.name());
            sink.write_all(text.as_str().as_bytes())
        }
    }
}
