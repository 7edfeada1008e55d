//! What no clause shows: the calls at readers and sinks of each kind, and the instructions and notes of given bytes.

use crate::{Decoder, shortest_prefix, three_byte_vex, two_byte_vex};
use std::process::Abort;
use std::test::Fail;
use vex_rows::{Map, Pp, Prefix};
use x86_operand::DecodeError::{ExhaustedInput, InvalidOpcode, InvalidOperand, Outside};
use x86_operand::InnerDescription::{Boundary, Misc, RegisterNumber};
use x86_operand::{
    DecodeError, FieldDescription, InnerDescription, Instruction, Note, Opcode, RegSpec,
    RegisterBank,
};
use x86_reader::{FailReader, ListSink, NullSink, Reader, U8Reader};
use x86_settings::InstDecoder;

/// The bytes of `VZEROUPPER`.
const VZEROUPPER: [u8; 3] = [0xC5, 0xF8, 0x77];

/// The bytes of `VMOVAPS` from `xmm8` to `xmm0`.
const VMOVAPS: [u8; 5] = [0xC4, 0xC1, 0x78, 0x28, 0xC0];

/// An instruction that no decode below answers.
fn other() -> Instruction {
    Instruction::of(Opcode::VADDPS, true)
}

/// What the notes say of a field vvvv that names no other register.
fn register_0() -> InnerDescription {
    RegisterNumber(0, RegSpec::of(RegisterBank::X, 0).unwrap())
}

/// The length of the instruction, or the error.
fn length(answer: &Result<Instruction, DecodeError>) -> Result<u8, DecodeError> {
    match answer {
        Ok(instruction) => Ok(instruction.len()),
        Err(error) => Err(*error),
    }
}

#[test]
fn a_reader_is_left_after_the_bytes_taken(rt: HostRuntime) -> Result<(), Fail> {
    let decoder = InstDecoder::default();
    let mut words = U8Reader::new(&[0xC5, 0xF8, 0x77, 0xFF]);
    let decoded = decoder
        .decode(&mut words)
        .map_err(|_| "the first is decoded")?;
    assert_eq!(rt; (decoded.opcode(), decoded.len()), (Opcode::VZEROUPPER, 3));
    assert_eq!(rt; (words.offset(), words.total_offset()), (3, 3));
    assert_eq!(rt; length(&decoder.decode(&mut words)), Err(Outside));
    assert_eq!(rt; (words.offset(), words.total_offset()), (1, 4));
    Ok(())
}

#[test]
fn a_refused_instruction_is_the_default_one(rt: HostRuntime) {
    let mut instruction = other();
    let mut words = U8Reader::new(&[0xC5, 0xF0, 0x28, 0xC1]);
    let answer = InstDecoder::default().decode_into(&mut instruction, &mut words);
    assert_eq!(rt; answer, Err(InvalidOperand));
    assert_eq!(rt; instruction, Instruction::default());
    assert_eq!(rt; words.total_offset(), 3);
}

/// The four calls answer the same, an instruction of this length or this error.
fn all_answer(
    rt: &impl Abort,
    decoder: &InstDecoder,
    bytes: &[u8],
    answer: Result<u8, DecodeError>,
) {
    assert_eq!(rt; length(&decoder.decode_slice(bytes)), answer);
    assert_eq!(rt;
        length(&decoder.decode(&mut FailReader::new(bytes, &[]))),
        answer
    );

    let mut instruction = other();
    let into = decoder.decode_into(&mut instruction, &mut FailReader::new(bytes, &[]));
    assert_eq!(rt; into.is_ok(), answer.is_ok());
    assert_eq!(rt; instruction.len(), answer.unwrap_or(0));

    let mut instruction = other();
    let mut words = U8Reader::new(bytes);
    let noted = decoder.decode_with_annotation(&mut instruction, &mut words, &mut NullSink);
    assert_eq!(rt; noted, into);
    assert_eq!(rt; instruction.len(), answer.unwrap_or(0));
}

#[test]
fn each_call_answers_the_same(rt: HostRuntime) {
    let all = InstDecoder::default();
    all_answer(&rt, &all, &VZEROUPPER, Ok(3));
    all_answer(&rt, &all, &VMOVAPS, Ok(5));
    all_answer(&rt, &all, &[], Err(ExhaustedInput));
    all_answer(&rt, &all, &[0x33, 0xC0], Err(Outside));
    all_answer(&rt, &all, &[0xC4, 0x00], Err(ExhaustedInput));
    all_answer(
        &rt,
        &all,
        &[0xC4, 0xE0, 0x78, 0x58, 0xC0],
        Err(InvalidOpcode),
    );
    all_answer(&rt, &all, &[0xC5, 0xE8, 0x77], Err(InvalidOperand));

    // The settings are asked last.
    let none = InstDecoder::minimal();
    all_answer(&rt, &none, &VZEROUPPER, Err(InvalidOpcode));
    all_answer(&rt, &none, &[0xC5, 0xF8], Err(ExhaustedInput));
    all_answer(&rt, &none, &[0xC5, 0xE8, 0x77], Err(InvalidOperand));
}

/// The answer of a decode that was refused a byte at this call is `ExhaustedInput`, the instruction is the default one,
/// and the reader has given as many bytes as there were calls before.
fn is_exhausted(
    rt: &impl Abort,
    answer: Result<(), DecodeError>,
    instruction: &Instruction,
    taken: u64,
    call: u64,
) {
    assert_eq!(rt; answer, Err(ExhaustedInput), "at call {call}");
    assert_eq!(rt; *instruction, Instruction::default());
    assert_eq!(rt; taken, call);
}

/// The reader refuses at each call in turn, of each call that decodes from it.
fn refused_at_each_call(rt: &impl Abort, bytes: &[u8]) {
    let decoder = InstDecoder::default();
    for place in 0..bytes.len() {
        let call = place as u64;
        let failing = [call];
        let mut words = FailReader::new(bytes, &failing);
        assert_eq!(rt;
            length(&decoder.decode(&mut words)),
            Err(ExhaustedInput),
            "at call {call}"
        );
        assert_eq!(rt; words.total_offset(), call);

        let mut words = FailReader::new(bytes, &failing);
        let mut instruction = other();
        let answer = decoder.decode_into(&mut instruction, &mut words);
        is_exhausted(rt, answer, &instruction, words.total_offset(), call);

        let mut words = FailReader::new(bytes, &failing);
        let mut instruction = other();
        let mut sink: ListSink<FieldDescription> = ListSink::new();
        let answer = decoder.decode_with_annotation(&mut instruction, &mut words, &mut sink);
        is_exhausted(rt, answer, &instruction, words.total_offset(), call);
    }
}

/// Bytes that decode to an instruction of this length, and that a reader refuses at each call in turn.
fn decodes_unless_refused(rt: &impl Abort, bytes: &[u8], length: u8) {
    all_answer(rt, &InstDecoder::default(), bytes, Ok(length));
    refused_at_each_call(rt, bytes);
}

#[test]
fn a_refused_byte_is_exhausted_input(rt: HostRuntime) {
    decodes_unless_refused(&rt, &VZEROUPPER, 3);
    decodes_unless_refused(&rt, &VMOVAPS, 5);

    // `VPEXTRB`, which has all that an instruction can have.
    decodes_unless_refused(
        &rt,
        &[
            0xC4, 0xE3, 0x79, 0x14, 0x84, 0x88, 0x78, 0x56, 0x34, 0x12, 0x07,
        ],
        11,
    );

    // `VPGATHERQD`, whose index is a vector register.
    decodes_unless_refused(&rt, &[0xC4, 0xE2, 0x75, 0x91, 0x04, 0x20], 6);

    // `RORX` and `BLSR`, which ignore vvvv and R.
    decodes_unless_refused(&rt, &[0xC4, 0xE3, 0x03, 0xF0, 0xC1, 0x05], 6);
    decodes_unless_refused(&rt, &[0xC4, 0x62, 0x70, 0xF3, 0xC9], 5);
}

/// The notes on bytes are these, each with its first bit, its last bit and its number.
fn has_notes(rt: &impl Abort, bytes: &[u8], notes: &[(u32, u32, u32, InnerDescription)]) {
    let mut sink = ListSink::new();
    let mut instruction = other();
    let mut words = U8Reader::new(bytes);
    let _ = InstDecoder::default().decode_with_annotation(&mut instruction, &mut words, &mut sink);
    assert_eq!(rt; sink.len(), notes.len());
    for (i, note) in notes.iter().enumerate() {
        let expected = (note.0, note.1, note.3.with_id(note.2));
        assert_eq!(rt; sink.get(i), Some(&expected));
    }
}

#[test]
fn the_notes_are_those_on_the_bytes_taken(rt: HostRuntime) {
    has_notes(
        &rt,
        &VZEROUPPER,
        &[
            (8, 9, 8, Misc(Note::P0)),
            (11, 14, 10, register_0()),
            (10, 10, 9, Misc(Note::R0)),
            (15, 15, 9, Misc(Note::W1)),
            (23, 23, 23, Boundary(Note::PrefixEnd)),
            (16, 23, 16, InnerDescription::Opcode(Opcode::VZEROUPPER)),
            (23, 23, 23, Boundary(Note::OpcodeEnd)),
        ],
    );
    has_notes(
        &rt,
        &VMOVAPS,
        &[
            (16, 17, 8, Misc(Note::P0)),
            (8, 12, 8, Misc(Note::M1)),
            (19, 22, 10, register_0()),
            (15, 15, 9, Misc(Note::R1)),
            (14, 14, 9, Misc(Note::X1)),
            (13, 13, 9, Misc(Note::B0)),
            (18, 18, 9, Misc(Note::L0)),
            (23, 23, 9, Misc(Note::W0)),
            (31, 31, 31, Boundary(Note::PrefixEnd)),
            (24, 31, 24, InnerDescription::Opcode(Opcode::VMOVAPS)),
            (31, 31, 31, Boundary(Note::OpcodeEnd)),
        ],
    );

    // A map number that names no map, and a prefix that isn't whole.
    has_notes(
        &rt,
        &[0xC4, 0xE0, 0x78],
        &[(16, 17, 8, Misc(Note::P0)), (8, 12, 8, Misc(Note::MOther))],
    );
    has_notes(&rt, &[0xC4, 0xE1], &[]);
}

#[test]
fn a_prefix_is_noted_where_no_entry_is_found(rt: HostRuntime) {
    let prefix = [
        (8, 9, 8, Misc(Note::P0)),
        (11, 14, 10, register_0()),
        (10, 10, 9, Misc(Note::R1)),
        (15, 15, 9, Misc(Note::W1)),
        (23, 23, 23, Boundary(Note::PrefixEnd)),
    ];
    has_notes(&rt, &[0xC5, 0xFC, 0x01], &prefix);
    has_notes(&rt, &[0xC5, 0xFC], &prefix);
}

#[test]
fn a_prefix_is_decoded_after_its_first_byte(rt: HostRuntime) {
    let mut instruction = other();
    let mut words = U8Reader::new(&VZEROUPPER);
    let first = words.next();
    assert!(rt; first.is_ok());
    assert_eq!(rt; words.offset(), 1);
    assert_eq!(rt;
        two_byte_vex(&mut words, &mut instruction, &mut NullSink),
        Ok(())
    );
    assert_eq!(rt;
        (instruction.opcode(), instruction.len()),
        (Opcode::VZEROUPPER, 3)
    );

    let mut words = FailReader::new(&VMOVAPS, &[]);
    let first = words.next();
    assert!(rt; first.is_ok());
    assert_eq!(rt;
        three_byte_vex(&mut words, &mut instruction, &mut NullSink),
        Ok(())
    );
    assert_eq!(rt;
        (instruction.opcode(), instruction.len()),
        (Opcode::VMOVAPS, 5)
    );

    let mut words = FailReader::new(&VMOVAPS, &[4]);
    let first = words.next();
    assert!(rt; first.is_ok());
    assert_eq!(rt; words.offset(), 1);
    let mut sink: ListSink<FieldDescription> = ListSink::new();
    assert_eq!(rt;
        three_byte_vex(&mut words, &mut instruction, &mut sink),
        Err(ExhaustedInput)
    );
    assert_eq!(rt; instruction, Instruction::default());
    assert_eq!(rt; (words.total_offset(), sink.len()), (4, 11));
}

#[test]
fn the_shortest_prefix_has_two_bytes_where_they_can_say_it(rt: HostRuntime) {
    let prefix = Prefix {
        map: Map::Map0F,
        pp: Pp::Plain,
        w: false,
        l: false,
        r: false,
        x: false,
        b: false,
        vvvv: 0,
    };
    assert_eq!(rt;
        shortest_prefix(&prefix).as_slice(),
        [0xC5, 0xF8].as_slice()
    );
    let upper = Prefix { b: true, ..prefix };
    assert_eq!(rt;
        shortest_prefix(&upper).as_slice(),
        [0xC4, 0xC1, 0x78].as_slice()
    );
}
