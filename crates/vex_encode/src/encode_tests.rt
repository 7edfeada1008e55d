//! What no clause shows: the canonical bytes of given meanings, and meanings that have none.

ghost use Rattle.std.specs.Prelude.{◌≡◌, ◌<◌};

use crate::{Spelling, encode_shortest};
use std::marker::Brand;
use std::process::Abort;
use std::sync::ledger::{Blank, Ledger};
use std::test::Fail;
use step_counter::Steps;
use vex_decode::Decoder;
use x86_operand::RegisterBank::{Q, RIP, X, Y, Z};
use x86_operand::{
    Address, EncodeError, Index, Instruction, MemoryAccessSize, Opcode, Operand, RegSpec,
    RegisterBank,
};
use x86_settings::InstDecoder;

/// A meaning over registers of one bank, and its canonical bytes, where it has some.
#[derive(Clone, Copy)]
struct Case {
    evex: bool,
    opcode: Opcode,
    bank: RegisterBank,
    numbers: &'static [u8],
    spelling: Option<&'static [u8]>,
}

fn spelled(
    opcode: Opcode,
    bank: RegisterBank,
    numbers: &'static [u8],
    spelling: &'static [u8],
) -> Case {
    Case {
        evex: false,
        opcode,
        bank,
        numbers,
        spelling: Some(spelling),
    }
}

fn refused(evex: bool, opcode: Opcode, bank: RegisterBank, numbers: &'static [u8]) -> Case {
    Case {
        evex,
        opcode,
        bank,
        numbers,
        spelling: None,
    }
}

#[rattlefmt::skip]
fn cases() -> [Case; 15] {
    [
        // Swapped operands need no B where one of them is below 8, and B and R where both are above.
        spelled(Opcode::VMOVAPS, X, &[0, 8], &[0xC5, 0x78, 0x29, 0xC0]),
        spelled(Opcode::VMOVAPS, X, &[8, 8], &[0xC4, 0x41, 0x78, 0x28, 0xC0]),
        spelled(Opcode::VMOVAPS, X, &[0, 0], &[0xC5, 0xF8, 0x28, 0xC0]),
        spelled(Opcode::VADDPS, X, &[0, 1, 2], &[0xC5, 0xF0, 0x58, 0xC2]),
        spelled(Opcode::VADDPS, X, &[0, 1, 8], &[0xC4, 0xC1, 0x70, 0x58, 0xC0]),
        spelled(Opcode::VADDPS, Y, &[0, 1, 2], &[0xC5, 0xF4, 0x58, 0xC2]),
        spelled(Opcode::VMULPS, Y, &[15, 15, 15], &[0xC4, 0x41, 0x04, 0x59, 0xFF]),
        spelled(Opcode::VZEROUPPER, X, &[], &[0xC5, 0xF8, 0x77]),
        spelled(Opcode::VZEROALL, X, &[], &[0xC5, 0xFC, 0x77]),
        // The number of operands, the mark, the number of a register, its bank, and the opcode.
        refused(false, Opcode::VADDPS, X, &[0]),
        refused(true, Opcode::VADDPS, X, &[0, 1, 2]),
        refused(false, Opcode::VMOVAPS, X, &[16, 0]),
        refused(false, Opcode::VADDPS, Z, &[0, 1, 2]),
        refused(false, Opcode::VZEROUPPER, X, &[0]),
        refused(false, Opcode::BSF, X, &[0, 1]),
    ]
}

/// `encode_shortest` with a counter of its own.
fn encode_by<L: Ledger>(instruction: &Instruction, blank: Blank) -> Result<Spelling, EncodeError>
    requires name { blank.name ≡ L.name }
    requires parts { blank.parts ≡ L.parts }
    requires some { 0 < blank.parts }
{
    encode_shortest(instruction, &mut Steps::<L>::new(blank))
}

fn encode(instruction: &Instruction) -> Result<Spelling, EncodeError> {
    encode_by::<Brand>(instruction, Blank::new(1))
}

/// The instruction of these parts, with a length that plays no part.
fn instruction_of(case: &Case) -> Option<Instruction> {
    let mut operands = [Operand::Nothing; 4];
    for (operand, num) in operands.iter_mut().zip(case.numbers.iter()) {
        *operand = Operand::Register {
            reg: RegSpec::of(case.bank, *num)?,
        };
    }
    let operands = operands.get(..case.numbers.len())?;
    let mut instruction = Instruction::from_parts(case.evex, case.opcode, operands, None)?;
    instruction.set_len(9);
    Some(instruction)
}

#[test]
fn meanings_have_their_canonical_bytes_or_none(rt: HostRuntime) {
    for case in cases() {
        let instruction = instruction_of(&case).expect(&rt, "there are such registers");
        match (encode(&instruction), case.spelling) {
            (Ok(spelling), Some(wanted)) => {
                assert_eq!(rt; spelling.as_slice(), wanted, "{instruction:?}");
            }
            (outcome, wanted) => {
                assert_eq!(rt;
                    outcome.err(),
                    Some(EncodeError::NoSpelling),
                    "{instruction:?}"
                );
                assert!(rt; wanted.is_none(), "{instruction:?}");
            }
        }
    }
}

/// Bases and indices, by bank and number, the index with its scale, that no bytes name together.
#[rattlefmt::skip]
fn addresses() -> [(Option<(RegisterBank, u8)>, (RegisterBank, u8), u8); 4] {
    [
        (Some((Q, 4)), (Q, 4), 1),
        (Some((RIP, 0)), (Q, 0), 1),
        (None, (Y, 1), 1),
        (None, (Q, 0), 3),
    ]
}

/// `VMOVAPS` of the register x0 and the address of these registers.
fn move_from(
    base: Option<(RegisterBank, u8)>,
    index: (RegisterBank, u8),
    scale: u8,
) -> Option<Instruction> {
    let base = match base {
        Some((bank, num)) => Some(RegSpec::of(bank, num)?),
        None => None,
    };
    let reg = RegSpec::of(index.0, index.1)?;
    let address = Address {
        base,
        index: Some(Index { reg, scale }),
        disp: 0,
    };
    let operands = [
        Operand::Register {
            reg: RegSpec::of(X, 0)?,
        },
        Operand::Memory { address },
    ];
    Instruction::from_parts(false, Opcode::VMOVAPS, &operands, MemoryAccessSize::of(16))
}

#[test]
fn addresses_that_no_bytes_name_have_no_spelling(rt: HostRuntime) {
    for (base, index, scale) in addresses() {
        let instruction = move_from(base, index, scale).expect(&rt, "there are such registers");
        let outcome = encode(&instruction);
        assert_eq!(rt;
            outcome.err(),
            Some(EncodeError::NoSpelling),
            "{instruction:?}"
        );
    }
}

/// Bytes that are the canonical bytes of their meaning.
fn kept(bytes: &'static [u8]) -> (&'static [u8], &'static [u8]) {
    (bytes, bytes)
}

/// Bytes, and the canonical bytes of their meaning.
#[rattlefmt::skip]
fn respelled() -> [(&'static [u8], &'static [u8]); 23] {
    [
        // Prefixes and entries: the shorter prefix, swapped operands, another implied prefix, another map.
        (&[0xC4, 0xE1, 0x70, 0x58, 0xC2], &[0xC5, 0xF0, 0x58, 0xC2]),
        (&[0xC4, 0xC1, 0x78, 0x28, 0xC0], &[0xC5, 0x78, 0x29, 0xC0]),
        (&[0xC4, 0xE1, 0xF9, 0x6E, 0x00], &[0xC5, 0xFA, 0x7E, 0x00]),
        (&[0xC4, 0xE3, 0x79, 0x15, 0xC8, 0x02], &[0xC5, 0xF9, 0xC5, 0xC1, 0x02]),
        kept(&[0xC4, 0xE2, 0xF1, 0xA9, 0xC2]),
        // Displacements: none for 0 but beside base 5, eight bits up to their ends, and four bytes beside no base.
        (&[0xC5, 0xFC, 0x28, 0x80, 0x00, 0x00, 0x00, 0x00], &[0xC5, 0xFC, 0x28, 0x00]),
        kept(&[0xC5, 0xFC, 0x28, 0x45, 0x00]),
        (&[0xC5, 0xF8, 0x28, 0x80, 0x80, 0xFF, 0xFF, 0xFF], &[0xC5, 0xF8, 0x28, 0x40, 0x80]),
        kept(&[0xC5, 0xF8, 0x28, 0x80, 0x80, 0x00, 0x00, 0x00]),
        (&[0xC4, 0xC1, 0x78, 0x28, 0x05, 0x10, 0x00, 0x00, 0x00], &[0xC5, 0xF8, 0x28, 0x05, 0x10, 0x00, 0x00, 0x00]),
        kept(&[0xC5, 0xF8, 0x28, 0x04, 0x25, 0x00, 0x10, 0x00, 0x00]),
        // SIB: none without an index but beside base 12; and an index that is a vector register.
        (&[0xC5, 0xF8, 0x28, 0x04, 0x20], &[0xC5, 0xF8, 0x28, 0x00]),
        kept(&[0xC4, 0xC1, 0x78, 0x28, 0x04, 0x24]),
        kept(&[0xC4, 0xE3, 0x79, 0x14, 0x84, 0x88, 0x78, 0x56, 0x34, 0x12, 0x07]),
        kept(&[0xC4, 0xE2, 0x75, 0x91, 0x04, 0x20]),
        kept(&[0xC4, 0xA2, 0x71, 0x92, 0x14, 0xE5, 0x00, 0x00, 0x00, 0x00]),
        // What plays no part: the low bits beside a register's number, vvvv, and R beside a group.
        (&[0xC4, 0xE3, 0x71, 0x4A, 0xC2, 0x35], &[0xC4, 0xE3, 0x71, 0x4A, 0xC2, 0x30]),
        (&[0xC4, 0xE3, 0x03, 0xF0, 0xC1, 0x05], &[0xC4, 0xE3, 0x7B, 0xF0, 0xC1, 0x05]),
        (&[0xC4, 0x62, 0x70, 0xF3, 0xC9], &[0xC4, 0xE2, 0x70, 0xF3, 0xC9]),
        // Sizes that go by the opcode and by L.
        kept(&[0xC4, 0xE2, 0x7D, 0x13, 0x00]),
        kept(&[0xC4, 0xE2, 0x7D, 0x13, 0xC1]),
        kept(&[0xC5, 0xFD, 0x70, 0x00, 0x1B]),
        kept(&[0xC4, 0xE2, 0x79, 0x22, 0x00]),
    ]
}

#[test]
fn decoded_bytes_have_the_canonical_bytes_of_their_meaning(rt: HostRuntime) -> Result<(), Fail> {
    for (bytes, canonical) in respelled() {
        let instruction = InstDecoder::default().decode_slice(bytes)?;
        let spelling = encode(&instruction)?;
        assert_eq!(rt; spelling.as_slice(), canonical, "{bytes:?}");
    }
    Ok(())
}
