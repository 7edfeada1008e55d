//! Reading an instruction over any reader, with its notes, but for the settings.

ghost use Rattle.std.specs.Prelude.{◌≡◌, ◌<◌, IfOk, IfSome, find, true};
ghost use Rattle.x86_address.specs.Follows.{Same, Decides};
ghost use Rattle.vex_rows.specs.Row.{Among};
ghost use Rattle.vex_rows.specs.Rules.{has_key};
ghost use Rattle.vex_rows.specs.Table.{table};
ghost use Rattle.vex_forms.specs.Fields.{fields_of};
ghost use Rattle.vex_forms.specs.Operands.{made};
ghost use Rattle.vex_decode.specs.Fields.{PrefixForm, C4, C5};
ghost use Rattle.vex_decode.specs.Walk.{key_of, entry_of, found};
ghost use Rattle.vex_decode.specs.Noting.{FollowsNoting};
ghost use Rattle.vex_decode.specs.NotedWalk.{noted_fields, noted_opcode, noted_rest, noted_walk, AreFields, IsMeant};
ghost use Rattle.vex_decode.specs.NotedWalk.{HasEntry};
ghost use Rattle.vex_decode.specs.Notes.{opcode_start};

use crate::notes::{note_map, note_opcode, note_three_bytes, note_two_bytes};
use crate::prefix_fields::{
    THREE_BYTES, TWO_BYTES, opcode_map, three_byte_fields, two_byte_fields,
};
use std::marker::Brand;
use std::sync::ledger::{Blank, Ledger};
use step_counter::Steps;
use vex_forms::read_form_into;
use vex_rows::{Entry, Key, Prefix, lookup};
use x86_address::read_byte;
use x86_operand::{DecodeError, FieldDescription, Instruction};
use x86_reader::{DescriptionSink, Reader};

/// The prefix after its first byte C5.
fn read_second_byte<R: Reader, S: DescriptionSink<FieldDescription>>(
    words: &mut R,
    sink: &mut S,
) -> Result<Prefix, DecodeError>
    ensures follows { FollowsNoting (noted_fields C5) AreFields
        (R.state words.old) (R.state words.new) (S.state sink.old) (S.state sink.new) result }
    ensures within { IfOk result (λ prefix. prefix.vvvv < 16) }
{
    let byte = read_byte(words)?;
    note_two_bytes(byte, sink);
    Ok(two_byte_fields(byte))
}

/// The prefix after its first byte C4. Both its bytes are read before the map number is looked at.
fn read_two_more<R: Reader, S: DescriptionSink<FieldDescription>>(
    words: &mut R,
    sink: &mut S,
) -> Result<Prefix, DecodeError>
    ensures follows { FollowsNoting (noted_fields C4) AreFields
        (R.state words.old) (R.state words.new) (S.state sink.old) (S.state sink.new) result }
    ensures within { IfOk result (λ prefix. prefix.vvvv < 16) }
{
    let second = read_byte(words)?;
    let third = read_byte(words)?;
    note_map(second, third, sink);
    match opcode_map(second) {
        Some(map) => {
            note_three_bytes(second, third, sink);
            Ok(three_byte_fields(map, second, third))
        }
        None => Err(DecodeError::InvalidOpcode),
    }
}

/// The entry that has the key. The look-up has a counter of its own.
fn look_up<L: Ledger>(key: &Key, blank: Blank) -> Option<Entry>
    requires name { blank.name ≡ L.name }
    requires parts { blank.parts ≡ L.parts }
    requires some { 0 < blank.parts }
    ensures found { IfSome result (λ entry. Among entry table × (has_key entry key.now ≡ true)) }
    ensures exact { result ≡ find (λ entry. has_key entry key.now) table }
{
    lookup(key, &mut Steps::<L>::new(blank))
}

/// The entry of an opcode byte behind a prefix.
#[tactic(auto, unfolding(crate::specs::Walk::entry_of))]
fn find_entry(prefix: &Prefix, byte: u8) -> Result<Entry, DecodeError>
    ensures decides { Decides (found (entry_of (key_of (fields_of prefix.now) byte))) Same result }
    ensures found { IfOk result (λ entry. HasEntry prefix.now byte entry) }
{
    let key = Key {
        map: prefix.map,
        pp: prefix.pp,
        byte,
        w: prefix.w,
        l: prefix.l,
    };
    match look_up::<Brand>(&key, Blank::new(1)) {
        Some(entry) => Ok(entry),
        None => Err(DecodeError::InvalidOpcode),
    }
}

/// Writes the instruction from the opcode byte on, whose first bit is `start`, in the place of what `instruction` held.
fn read_from_opcode<R: Reader, S: DescriptionSink<FieldDescription>>(
    prefix: &Prefix,
    start: u32,
    words: &mut R,
    sink: &mut S,
    instruction: &mut Instruction,
) -> Result<(), DecodeError>
    requires within { prefix.now.vvvv < 16 }
    requires start { start < 32 }
    ensures { (form : PrefixForm) → start ≡ opcode_start form
        → FollowsNoting (noted_opcode form (fields_of prefix.now)) IsMeant
        (R.state words.old) (R.state words.new) (S.state sink.old) (S.state sink.new) (made result instruction.new) }
{
    let byte = read_byte(words)?;
    let entry = find_entry(prefix, byte)?;
    note_opcode(start, &entry, sink);
    read_form_into(&entry, prefix, words, instruction)
}

/// The instruction after the first byte C5.
pub fn read_after_two<R: Reader, S: DescriptionSink<FieldDescription>>(
    words: &mut R,
    sink: &mut S,
    instruction: &mut Instruction,
) -> Result<(), DecodeError>
    ensures { FollowsNoting (noted_rest C5) IsMeant
        (R.state words.old) (R.state words.new) (S.state sink.old) (S.state sink.new) (made result instruction.new) }
{
    let prefix = read_second_byte(words, sink)?;
    read_from_opcode(&prefix, 16, words, sink, instruction)
}

/// The instruction after the first byte C4.
pub fn read_after_three<R: Reader, S: DescriptionSink<FieldDescription>>(
    words: &mut R,
    sink: &mut S,
    instruction: &mut Instruction,
) -> Result<(), DecodeError>
    ensures { FollowsNoting (noted_rest C4) IsMeant
        (R.state words.old) (R.state words.new) (S.state sink.old) (S.state sink.new) (made result instruction.new) }
{
    let prefix = read_two_more(words, sink)?;
    read_from_opcode(&prefix, 24, words, sink, instruction)
}

/// The instruction.
pub fn read_instruction<R: Reader, S: DescriptionSink<FieldDescription>>(
    words: &mut R,
    sink: &mut S,
    instruction: &mut Instruction,
) -> Result<(), DecodeError>
    ensures { FollowsNoting noted_walk IsMeant
        (R.state words.old) (R.state words.new) (S.state sink.old) (S.state sink.new) (made result instruction.new) }
{
    let first = read_byte(words)?;
    if first == TWO_BYTES {
        read_after_two(words, sink, instruction)
    } else if first == THREE_BYTES {
        read_after_three(words, sink, instruction)
    } else {
        Err(DecodeError::Outside)
    }
}
