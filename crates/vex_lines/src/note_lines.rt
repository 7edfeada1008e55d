//! The notes on the bytes of some code.

ghost use Rattle.std.specs.Prelude.{◌≡◌, ℕ, List, IfOk, flat_map};
ghost use Rattle.vex_decode.specs.Decode.{decode};
ghost use Rattle.vex_decode.specs.Spelling.{Spells};
ghost use Rattle.vex_decode.specs.Notes.{notes};
ghost use Rattle.vex_lines.specs.Ends.{Writes};
ghost use Rattle.vex_lines.specs.NoteLines.{bytes_taken, note_line, note_lines};

use crate::ends::{Failed, Sink};
use crate::line_text::{LineText, note_text_line};
use crate::result_line::{write_instruction, write_refused};
use vex_decode::Decoder;
use vex_decode::laws::decode_answers;
use x86_operand::{DecodeError, FieldDescription, Instruction};
use x86_reader::{ListSink, U8Reader};
use x86_settings::InstDecoder;

/// Decodes these bytes under settings, and makes the list the notes on the bytes that this takes.
fn list_notes(
    settings: &InstDecoder,
    bytes: &[u8],
    list: &mut ListSink<FieldDescription>,
) -> Result<Instruction, DecodeError>
    ensures listed { list.new.kept ≡ notes (bytes_taken settings.now bytes.now) }
    ensures answer { result ≡ decode settings.now bytes.now }
    ensures spelled { IfOk result (λ decoded. (front : List ℕ) × Spells front decoded.meaning) }
{
    // A law: bytes of which a decode answers an instruction are not blocked.
    decode_answers();
    list.clear();
    let mut words = U8Reader::new(bytes);
    let mut instruction = Instruction::default();
    // The notes are kept after a refusal too.
    match settings.decode_with_annotation(&mut instruction, &mut words, list) {
        Ok(()) => Ok(instruction),
        Err(error) => Err(error),
    }
}

/// Writes a line for each note, in one write each.
fn write_note_lines<K: Sink>(
    list: &ListSink<FieldDescription>,
    text: &mut LineText,
    sink: &mut K,
) -> Result<(), Failed>
    ensures { Writes result (K.text sink.old) (K.text sink.new) (K.faults sink.old) (K.faults sink.new)
        (flat_map note_line list.now.kept) }
{
    for i in 0..list.len() {
        if let Some(note) = list.get(i) {
            note_text_line(text, note);
            sink.write_all(text.as_str().as_bytes())?;
        }
    }
    Ok(())
}

/// Decodes these bytes under settings, and writes a line for each note and then the result line, in one write each.
/// What the list holds plays no part. `Failed` where a write of the sink fails.
pub fn write_notes<K: Sink>(
    settings: &InstDecoder,
    bytes: &[u8],
    list: &mut ListSink<FieldDescription>,
    text: &mut LineText,
    sink: &mut K,
) -> Result<(), Failed>
    ensures { Writes result (K.text sink.old) (K.text sink.new) (K.faults sink.old) (K.faults sink.new)
        (note_lines settings.now bytes.now) }
{
    let decoded = list_notes(settings, bytes, list);
    write_note_lines(list, text, sink)?;
    match decoded {
        Ok(instruction) => write_instruction(&instruction, text, sink),
        Err(error) => write_refused(error, text, sink),
    }
}
