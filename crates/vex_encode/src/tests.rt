//! What no clause says: the instructions and the errors of given bytes, and that eleven bytes are a spelling's most.

use crate::{Spelling, recode};
use std::process::Abort;
use std::test::Fail;
use x86_operand::DecodeError::{ExhaustedInput, InvalidOpcode, InvalidOperand, Outside};
use x86_operand::RegisterBank::{X, Y};
use x86_operand::{DecodeError, Instruction, Opcode, Operand, RegSpec, RegisterBank};
use x86_settings::InstDecoder;

/// An instruction over registers of one bank, and its canonical bytes.
#[derive(Clone, Copy)]
struct Parts {
    len: u8,
    opcode: Opcode,
    bank: RegisterBank,
    numbers: &'static [u8],
    spelling: &'static [u8],
}

/// Bytes under some settings, and what they are recoded to.
#[derive(Clone, Copy)]
struct Case {
    decoder: InstDecoder,
    bytes: &'static [u8],
    answer: Result<Parts, DecodeError>,
}

fn recoded(
    bytes: &'static [u8],
    len: u8,
    opcode: Opcode,
    bank: RegisterBank,
    numbers: &'static [u8],
    spelling: &'static [u8],
) -> Case {
    Case {
        decoder: InstDecoder::default(),
        bytes,
        answer: Ok(Parts {
            len,
            opcode,
            bank,
            numbers,
            spelling,
        }),
    }
}

fn refused(decoder: InstDecoder, bytes: &'static [u8], error: DecodeError) -> Case {
    Case {
        decoder,
        bytes,
        answer: Err(error),
    }
}

#[rattlefmt::skip]
fn cases() -> [Case; 18] {
    let all = InstDecoder::default();
    let none = InstDecoder::minimal();
    [
        // Swapped operands need no B, and W = 0 and map 0F no third byte.
        recoded(&[0xC4, 0xC1, 0x78, 0x28, 0xC0], 5, Opcode::VMOVAPS, X, &[0, 8], &[0xC5, 0x78, 0x29, 0xC0]),
        recoded(&[0xC4, 0xE1, 0x70, 0x58, 0xC2], 5, Opcode::VADDPS, X, &[0, 1, 2], &[0xC5, 0xF0, 0x58, 0xC2]),
        recoded(&[0xC5, 0xF4, 0x58, 0xC2], 4, Opcode::VADDPS, Y, &[0, 1, 2], &[0xC5, 0xF4, 0x58, 0xC2]),
        // L chooses the opcode, and later bytes play no part.
        recoded(&[0xC5, 0xF8, 0x77], 3, Opcode::VZEROUPPER, X, &[], &[0xC5, 0xF8, 0x77]),
        recoded(&[0xC5, 0xF8, 0x77, 0xFF, 0xFF], 3, Opcode::VZEROUPPER, X, &[], &[0xC5, 0xF8, 0x77]),
        recoded(&[0xC5, 0xFC, 0x77], 3, Opcode::VZEROALL, X, &[], &[0xC5, 0xFC, 0x77]),
        // Bytes that aren't there, whatever the settings.
        refused(all, &[], ExhaustedInput),
        refused(all, &[0xC4, 0x00], ExhaustedInput),
        refused(all, &[0xC5, 0xF8], ExhaustedInput),
        refused(none, &[0xC5, 0xF8], ExhaustedInput),
        refused(none, &[0xC5, 0xF8, 0x58], ExhaustedInput),
        // No prefix, no such map, no such entry, no leave.
        refused(all, &[0x33, 0xC0], Outside),
        refused(all, &[0xC4, 0xE0, 0x78, 0x58, 0xC0], InvalidOpcode),
        refused(all, &[0xC4, 0xE3, 0x78, 0x0F, 0xC0, 0x00], InvalidOpcode),
        refused(none, &[0xC5, 0xF8, 0x77], InvalidOpcode),
        // Register 1 or 2 in vvvv, where no operand stands there, and a displacement that isn't there.
        refused(all, &[0xC5, 0xE8, 0x77], InvalidOperand),
        refused(all, &[0xC5, 0xF0, 0x28], InvalidOperand),
        refused(all, &[0xC5, 0xF8, 0x28, 0x40], ExhaustedInput),
    ]
}

/// Whether an instruction has these parts and nothing more.
fn has_parts(instruction: &Instruction, wanted: &Parts) -> bool {
    for i in 0..instruction.operand_count() {
        let num = wanted.numbers.get(usize::from(i)).copied();
        let reg = num.and_then(|num| RegSpec::of(wanted.bank, num));
        if Some(instruction.operand(i)) != reg.map(|reg| Operand::Register { reg }) {
            return false;
        }
    }
    usize::from(instruction.operand_count()) == wanted.numbers.len()
        && instruction.len() == wanted.len
        && instruction.opcode() == wanted.opcode
        && instruction.mem_size().is_none()
        && !instruction.is_evex()
}

#[test]
fn bytes_have_their_instruction_and_canonical_bytes_or_their_error(rt: HostRuntime) {
    for Case {
        decoder,
        bytes,
        answer,
    } in cases() {
        match (recode(&decoder, bytes), answer) {
            (Ok((instruction, spelling)), Ok(wanted)) => {
                assert!(rt;
                    has_parts(&instruction, &wanted),
                    "{bytes:?}: {instruction:?}"
                );
                assert_eq!(rt; spelling.as_slice(), wanted.spelling, "{bytes:?}");
            }
            (outcome, _) => assert_eq!(rt; outcome.err(), answer.err(), "{bytes:?}"),
        }
    }
}

#[test]
fn spellings_are_equal_where_their_bytes_are(rt: HostRuntime) -> Result<(), Fail> {
    let decoder = InstDecoder::default();
    let (_, long) = recode(&decoder, &[0xC4, 0xE1, 0x70, 0x58, 0xC2])?;
    let (_, short) = recode(&decoder, &[0xC5, 0xF0, 0x58, 0xC2])?;
    let (_, other) = recode(&decoder, &[0xC5, 0xF4, 0x58, 0xC2])?;
    assert!(rt; long == short);
    assert!(rt; long != other);
    Ok(())
}

#[test]
fn bytes_are_a_spelling_up_to_eleven(rt: HostRuntime) {
    let bytes = [1u8, 2, 3, 4, 5, 6, 7, 8, 9, 10, 11, 12];
    assert!(rt; Spelling::of(&bytes).is_none());
    let spelling = Spelling::of(&bytes[..11]).expect(&rt, "eleven fit");
    assert_eq!(rt; spelling.as_slice(), &bytes[..11]);
}
