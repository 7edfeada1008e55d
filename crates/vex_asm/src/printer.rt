//! The text of a meaning in a buffer of its own.

ghost use Rattle.std.specs.Prelude.{◌≡◌, ◌≤◌, length};
ghost use Rattle.vex_asm.specs.Text.{text};

use crate::appender::{MAX_TEXT, append};
use arrayvec::ArrayString;
use std::marker::Model;
use x86_operand::Instruction;

/// The text of a meaning, of at most 256 bytes.
#[derive(Drop)]
pub struct MeaningText {
    text: ArrayString<MAX_TEXT>,
}

impl Model for MeaningText {
    ghost use Rattle.std.specs.Prelude.{List, ℕ};

    ghost Value = { List ℕ };

    ghost view = { λ t. t.text.bytes };
}

impl MeaningText {
    /// The text.
    pub fn as_str(&self) -> &str
        ensures bytes { result.now ≡ self.now }
        ensures within { length result.now ≤ MAX_TEXT }
    {
        self.text.as_str()
    }
}

/// The text of an instruction's meaning: the opcode's name, with `EVEX.` before it where the instruction has the mark,
/// the operands and the size of the memory operand, 0 for none, with one space before each. Other meanings have other
/// texts, and `read` answers the meaning of a text again.
pub fn print(instruction: &Instruction) -> MeaningText
    ensures { result ≡ text instruction.now.meaning }
{
    let mut text = ArrayString::new();
    append(&mut text, instruction);
    MeaningText { text }
}
