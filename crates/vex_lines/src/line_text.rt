//! The text of a line of the output, put together in a fixed buffer.

ghost use Rattle.std.specs.Prelude.{◌≡◌, ◌≤◌, ◌+◌, ◌*◌, ◌++◌, codes, decimal, length, IsUtf8};
ghost use Rattle.arrayvec.specs.ArrayString.{array_string_len};
ghost use Rattle.hex.specs.Hex.{encode_lower};
ghost use Rattle.x86_operand.specs.Note.{note_text};
ghost use Rattle.vex_encode.specs.Sweep.{item_seen};
ghost use Rattle.vex_lines.specs.ErrorLine.{error_line};
ghost use Rattle.vex_lines.specs.ResultLine.{instruction_line};
ghost use Rattle.vex_lines.specs.SweepLines.{item_line, end_line};
ghost use Rattle.vex_lines.specs.NoteLines.{description_text, note_line};

use arrayvec::ArrayString;
use vex_asm::{MAX_TEXT, append, append_name, append_number, append_register};
use vex_encode::{Spelling, SweepEnd, SweepItem};
use x86_operand::{FieldDescription, InnerDescription, Instruction, Note};

/// The text of a line as far as it is put together, of at most 256 bytes.
pub type LineText = ArrayString<MAX_TEXT>;

/// Appends a text that is known to be one.
fn push_digits(text: &mut LineText, digits: &[u8])
    requires text { IsUtf8 digits.now }
    requires room { array_string_len text.old + length digits.now ≤ MAX_TEXT }
    ensures { text.new.bytes ≡ text.old.bytes ++ digits.now }
{
    match str::from_utf8(digits) {
        Ok(digits) => text.push_str(digits),
        Err(_) => unreachable!(),
    }
}

/// Appends at most 32 bytes in lower-case hex digits.
pub fn push_hex(text: &mut LineText, bytes: &[u8])
    requires few { length bytes.now ≤ 32 }
    requires room { array_string_len text.old + 2 * length bytes.now ≤ MAX_TEXT }
    ensures written { text.new.bytes ≡ text.old.bytes ++ encode_lower bytes.now }
    ensures short { array_string_len text.new ≤ array_string_len text.old + 2 * length bytes.now }
{
    let mut digits = [0u8; 64];
    let digits = &mut digits[..2 * bytes.len()];
    match hex::encode_to_slice(bytes, digits) {
        Ok(()) => push_digits(text, digits),
        Err(_) => unreachable!(),
    }
}

/// Appends the result line of an instruction and its canonical bytes, its line end included.
fn push_instruction(text: &mut LineText, instruction: &Instruction, spelling: &Spelling)
    requires { array_string_len text.old + 178 ≤ MAX_TEXT }
    ensures { text.new.bytes ≡ text.old.bytes
        ++ instruction_line instruction.now.len instruction.now.meaning spelling.now }
{
    append_number(text, usize::from(instruction.len()));
    text.push_str(" ");
    append(text, instruction);
    text.push_str(" ");
    push_hex(text, spelling.as_slice());
    text.push_str("\n");
}

/// Makes the text the result line of an instruction and its canonical bytes, its line end included.
pub fn instruction_text(text: &mut LineText, instruction: &Instruction, spelling: &Spelling)
    ensures { text.new.bytes ≡ instruction_line instruction.now.len instruction.now.meaning spelling.now }
{
    text.clear();
    push_instruction(text, instruction, spelling);
}

/// Makes the text the line of a spelling: its bytes in hex digits and a line end.
pub fn bytes_text(text: &mut LineText, spelling: &Spelling)
    ensures { text.new.bytes ≡ encode_lower spelling.now ++ codes "\n" }
{
    text.clear();
    push_hex(text, spelling.as_slice());
    text.push_str("\n");
}

/// Makes the text the line of an instruction of a sweep: its place, a space and its result line.
pub fn item_text(text: &mut LineText, item: &SweepItem<'_>)
    ensures { text.new.bytes ≡ item_line (item_seen item.now) }
{
    text.clear();
    append_number(text, item.place);
    text.push_str(" ");
    push_instruction(text, &item.instruction, &item.spelling);
}

/// Appends where something stopped, and why: `stopped`, the place and the name of the cause.
pub fn push_stopped(text: &mut LineText, place: usize, name: &str)
    requires name { length name.now ≤ 32 }
    requires room { array_string_len text.old + 64 ≤ MAX_TEXT }
    ensures written { text.new.bytes ≡ text.old.bytes ++ codes "stopped " ++ decimal place ++ codes " " ++ name.now }
    ensures short { array_string_len text.new ≤ array_string_len text.old + 64 }
{
    text.push_str("stopped ");
    append_number(text, place);
    text.push_str(" ");
    text.push_str(name);
}

/// Makes the text the line of the end of a sweep: `end`, or `stopped`, the place and the error's name.
pub fn end_text(text: &mut LineText, end: &SweepEnd)
    ensures { text.new.bytes ≡ end_line end.now }
{
    text.clear();
    match end {
        SweepEnd::End => text.push_str("end"),
        SweepEnd::Stopped { place, error } => push_stopped(text, *place, error.name()),
    }
    text.push_str("\n");
}

/// Appends the text of a note.
#[tactic(auto, using(crate::proofs::Texts::short_note))]
fn push_note(text: &mut LineText, note: Note)
    requires { array_string_len text.old + 64 ≤ MAX_TEXT }
    ensures written { text.new.bytes ≡ text.old.bytes ++ note_text note }
    ensures short { array_string_len text.new ≤ array_string_len text.old + 64 }
{
    text.push_str(note.text());
}

/// Appends what stands in a field.
fn push_description(text: &mut LineText, desc: InnerDescription)
    requires { array_string_len text.old + 64 ≤ MAX_TEXT }
    ensures written { text.new.bytes ≡ text.old.bytes ++ description_text desc }
    ensures short { array_string_len text.new ≤ array_string_len text.old + 64 }
{
    match desc {
        InnerDescription::Misc(note) | InnerDescription::Boundary(note) => push_note(text, note),
        InnerDescription::RegisterNumber(number, reg) => {
            text.push_str("vvvv ");
            append_number(text, usize::from(number));
            text.push_str(" ");
            append_register(text, reg);
        }
        InnerDescription::Opcode(opcode) => {
            text.push_str("opcode ");
            append_name(text, opcode);
        }
    }
}

/// Makes the text the line of a note: its first bit, its last bit, its number and what stands there.
pub fn note_text_line(text: &mut LineText, note: &(u32, u32, FieldDescription))
    ensures { text.new.bytes ≡ note_line note.now }
{
    text.clear();
    text.push_str("note ");
    append_number(text, note.0 as usize);
    text.push_str(" ");
    append_number(text, note.1 as usize);
    text.push_str(" ");
    append_number(text, note.2.id as usize);
    text.push_str(" ");
    push_description(text, note.2.desc);
    text.push_str("\n");
}

/// Makes the text the line of an error's name: `error`, a space, the name and a line end.
pub fn error_text(text: &mut LineText, name: &str)
    requires { length name.now ≤ 32 }
    ensures { text.new.bytes ≡ error_line name.now }
{
    text.clear();
    text.push_str("error ");
    text.push_str(name);
    text.push_str("\n");
}
