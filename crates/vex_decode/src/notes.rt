//! The notes on the bytes of a prefix and on the opcode byte. Bits are counted from the first byte of the instruction
//! on, the lowest of each byte first.

ghost use Rattle.std.specs.Prelude.{◌≡◌, ◌+◌, [], ◌∷◌, ◌%◌, ◌<◌};
ghost use Rattle.x86_operand.specs.declared.note.InnerDescription.TheVariants.{Misc};
ghost use Rattle.x86_reader.specs.Sink.{Records};
ghost use Rattle.vex_decode.specs.Notes.{note_at, bit_set, by_bit, p_note, m_note, vvvv_note, two_byte_notes};
ghost use Rattle.vex_decode.specs.Notes.{map_notes, bit_notes, three_byte_notes, opcode_notes_at};

use crate::prefix_fields::{is_set, vvvv};
use vex_rows::Entry;
use x86_operand::{FieldDescription, InnerDescription, Note, RegSpec, RegisterBank};
use x86_reader::DescriptionSink;

/// Records what stands in the bits from `start` to `end`, with its number.
fn record<S: DescriptionSink<FieldDescription>>(
    start: u32,
    end: u32,
    id: u32,
    what: InnerDescription,
    sink: &mut S,
)
    ensures { Records (S.state sink.old) (S.state sink.new) (note_at start end id what ∷ []) }
{
    sink.record(start, end, what.with_id(id));
}

/// What is said of a bit of a byte where it is set, and where it isn't.
fn bit_note(byte: u8, bit: u8, one: Note, zero: Note) -> InnerDescription
    requires { bit < 8 }
    ensures { result ≡ by_bit (bit_set byte bit) one zero }
{
    InnerDescription::Misc(if is_set(byte, bit) { one } else { zero })
}

/// What is said of the field pp, the low two bits of a byte.
fn p_note(byte: u8) -> InnerDescription
    ensures { result ≡ Misc (p_note (byte % 4)) }
{
    InnerDescription::Misc(match byte % 4 {
        0 => Note::P0,
        1 => Note::P1,
        2 => Note::P2,
        _ => Note::P3,
    })
}

/// What is said of the map number, the low five bits of a byte.
fn m_note(byte: u8) -> InnerDescription
    ensures { result ≡ Misc (m_note (byte % 32)) }
{
    InnerDescription::Misc(match byte % 32 {
        1 => Note::M1,
        2 => Note::M2,
        3 => Note::M3,
        _ => Note::MOther,
    })
}

/// What is said of the field vvvv of a byte: its register, of bank `X`.
fn vvvv_note(byte: u8) -> InnerDescription
    ensures { result ≡ vvvv_note byte }
{
    let number = vvvv(byte);
    let register = RegSpec::of(RegisterBank::X, number).unwrap();
    InnerDescription::RegisterNumber(number, register)
}

/// Notes a two-byte prefix, by its second byte.
pub fn note_two_bytes<S: DescriptionSink<FieldDescription>>(byte: u8, sink: &mut S)
    ensures { Records (S.state sink.old) (S.state sink.new) (two_byte_notes byte) }
{
    record(8, 9, 8, p_note(byte), sink);
    record(11, 14, 10, vvvv_note(byte), sink);
    record(10, 10, 9, bit_note(byte, 2, Note::R1, Note::R0), sink);
    record(15, 15, 9, bit_note(byte, 7, Note::W1, Note::W0), sink);
    record(
        23,
        23,
        23,
        InnerDescription::Boundary(Note::PrefixEnd),
        sink,
    );
}

/// Notes the implied prefix and the map number of a three-byte prefix, by the bytes after its first.
pub fn note_map<S: DescriptionSink<FieldDescription>>(second: u8, third: u8, sink: &mut S)
    ensures { Records (S.state sink.old) (S.state sink.new) (map_notes second third) }
{
    record(16, 17, 8, p_note(third), sink);
    record(8, 12, 8, m_note(second), sink);
}

/// Notes the bits of a three-byte prefix.
fn note_bits<S: DescriptionSink<FieldDescription>>(second: u8, third: u8, sink: &mut S)
    ensures { Records (S.state sink.old) (S.state sink.new) (bit_notes second third) }
{
    record(15, 15, 9, bit_note(second, 7, Note::R1, Note::R0), sink);
    record(14, 14, 9, bit_note(second, 6, Note::X1, Note::X0), sink);
    record(13, 13, 9, bit_note(second, 5, Note::B1, Note::B0), sink);
    record(18, 18, 9, bit_note(third, 2, Note::L1, Note::L0), sink);
    record(23, 23, 9, bit_note(third, 7, Note::W1, Note::W0), sink);
}

/// Notes what else there is to say of a three-byte prefix that names a map.
pub fn note_three_bytes<S: DescriptionSink<FieldDescription>>(second: u8, third: u8, sink: &mut S)
    ensures { Records (S.state sink.old) (S.state sink.new) (three_byte_notes second third) }
{
    record(19, 22, 10, vvvv_note(third), sink);
    note_bits(second, third, sink);
    record(
        31,
        31,
        31,
        InnerDescription::Boundary(Note::PrefixEnd),
        sink,
    );
}

/// Notes the opcode byte, whose first bit is `start`, by the entry that was found.
pub fn note_opcode<S: DescriptionSink<FieldDescription>>(start: u32, entry: &Entry, sink: &mut S)
    requires { start < 32 }
    ensures { Records (S.state sink.old) (S.state sink.new) (opcode_notes_at start entry.now) }
{
    let last = start + 7;
    record(
        start,
        last,
        start,
        InnerDescription::Opcode(entry.opcode),
        sink,
    );
    record(
        last,
        last,
        last,
        InnerDescription::Boundary(Note::OpcodeEnd),
        sink,
    );
}
