//! The bytes of a text.

ghost use Rattle.std.specs.Prelude.{◌≡◌, Some};
ghost use Rattle.x86_permit.specs.Permission.{permits};
ghost use Rattle.vex_lines.specs.AsmLine.{asm_line, bytes_line};
ghost use Rattle.vex_lines.specs.Ends.{Writes};

use crate::ends::{Failed, Sink};
use crate::laws::assembled_lines;
use crate::line_text::{LineText, bytes_text, error_text};
use vex_asm::assemble_instruction;
use vex_encode::Spelling;
use vex_encode::laws::recode_again;
use x86_operand::{DecodeError, Instruction};
use x86_permit::revise_instruction;
use x86_settings::InstDecoder;

/// Whether the settings permit an instruction.
fn is_permitted(settings: &InstDecoder, instruction: &Instruction) -> bool
    ensures { result ≡ permits settings.now instruction.now.meaning.evex instruction.now.meaning.opcode }
{
    let mut revised = *instruction;
    revise_instruction(settings, &mut revised).is_ok()
}

/// Makes the text the line of canonical bytes, whose opcode is permitted or not.
fn permitted_text(text: &mut LineText, permitted: bool, spelling: &Spelling)
    ensures { text.new.bytes ≡ bytes_line permitted (Some spelling.now) }
{
    if permitted {
        bytes_text(text, spelling);
    } else {
        error_text(text, DecodeError::InvalidOpcode.name());
    }
}

/// Makes the text the line of a text under settings.
fn asm_text(text: &mut LineText, settings: &InstDecoder, line: &[u8])
    ensures { text.new.bytes ≡ asm_line settings.now line.now }
{
    // The laws of assembled lines and of canonical bytes.
    assembled_lines();
    recode_again();
    match assemble_instruction(line) {
        Ok((instruction, spelling)) => {
            permitted_text(text, is_permitted(settings, &instruction), &spelling);
        }
        Err(error) => error_text(text, error.name()),
    }
}

/// Writes the canonical bytes of the meaning that a line writes, or why there are none under settings, in one write.
/// `Failed` where the sink's write fails.
pub fn write_asm_line<K: Sink>(
    settings: &InstDecoder,
    line: &[u8],
    text: &mut LineText,
    sink: &mut K,
) -> Result<(), Failed>
    ensures { Writes result (K.text sink.old) (K.text sink.new) (K.faults sink.old) (K.faults sink.new)
        (asm_line settings.now line.now) }
{
    asm_text(text, settings, line);
    sink.write_all(text.as_str().as_bytes())
}
