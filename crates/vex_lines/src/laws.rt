//! What holds of all lines of texts and result lines, each law as the contract of a function that does nothing, but for
//! calls that it follows from.

ghost use Rattle.vex_lines.specs.Laws.{LineOfNoText, LineOfText, ResultAssembles};

use vex_asm::laws::meaning_of_line;
use vex_encode::recode;
use x86_operand::laws::instruction_in_range;
use x86_settings::InstDecoder;

/// The line of `asm` for a line that writes a meaning is that of its canonical bytes, or of `NoSpelling`, or, where its
/// opcode isn't permitted, of `InvalidOpcode`; and for a line that writes none that of `BadText`.
pub fn assembled_lines()
    ensures text { LineOfText }
    ensures no_text { LineOfNoText }
{
    meaning_of_line();
}

/// The words of a result line between the length and the bytes at its end assemble, under the same settings, to those
/// bytes.
pub fn result_line_assembles(settings: &InstDecoder, bytes: &[u8])
    ensures { ResultAssembles settings.now bytes.now }
{
    assembled_lines();
    match recode(settings, bytes) {
        Ok((instruction, _)) => instruction_in_range(instruction),
        Err(_) => {}
    }
}
