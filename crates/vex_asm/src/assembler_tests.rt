//! The bytes that given texts assemble to, and the errors of others.

use crate::laws::{meaning_of_line, text_assembles};
use crate::{AsmError, assemble, assemble_instruction, print};
use x86_settings::InstDecoder;

/// Texts, and the bytes that they assemble to: an instruction without operands, registers, another entry that is
/// shorter, swapped operands, addresses with each kind of base and index, displacements of each size, immediates,
/// groups, gathers, and sizes.
#[rattlefmt::skip]
static TEXTS: [(&str, &[u8]); 32] = [
    ("VADDPS x0 x1 x2 0", b"\xc5\xf0\x58\xc2"),
    (" VMOVAPS  y0 mq5/-/0 32", b"\xc5\xfc\x28\x45\x00"),
    ("VZEROUPPER 0", b"\xc5\xf8\x77"),
    ("VMOVAPS x0 x8 0", b"\xc5\x78\x29\xc0"),
    ("VMOVQ x0 mq0/-/0 8", b"\xc5\xfa\x7e\x00"),
    ("VMOVAPS y0 mq0/-/0 32", b"\xc5\xfc\x28\x00"),
    ("VMOVAPS x0 mq0/-/0 16", b"\xc5\xf8\x28\x00"),
    ("VMOVAPS x0 mrip/-/16 16", b"\xc5\xf8\x28\x05\x10\x00\x00\x00"),
    ("VPEXTRB mq0/q1*4/305419896 x0 u7 1", b"\xc4\xe3\x79\x14\x84\x88\x78\x56\x34\x12\x07"),
    ("VMOVAPS x0 mq0/-/-128 16", b"\xc5\xf8\x28\x40\x80"),
    ("VMOVAPS x0 mq0/-/128 16", b"\xc5\xf8\x28\x80\x80\x00\x00\x00"),
    ("VMOVAPS x0 mq12/-/0 16", b"\xc4\xc1\x78\x28\x04\x24"),
    ("VMOVAPS x0 m-/-/4096 16", b"\xc5\xf8\x28\x04\x25\x00\x10\x00\x00"),
    ("VCVTPH2PS y0 mq0/-/0 16", b"\xc4\xe2\x7d\x13\x00"),
    ("VCVTPH2PS y0 x1 0", b"\xc4\xe2\x7d\x13\xc1"),
    ("VPSHUFD y0 mq0/-/0 u27 32", b"\xc5\xfd\x70\x00\x1b"),
    ("VPMOVSXBQ x0 mq0/-/0 2", b"\xc4\xe2\x79\x22\x00"),
    ("VFMADD213SD x0 x1 x2 0", b"\xc4\xe2\xf1\xa9\xc2"),
    ("VPGATHERQD x0 mq0/y4*1/0 x1 4", b"\xc4\xe2\x75\x91\x04\x20"),
    ("VGATHERDPS x2 m-/x12*8/0 x1 4", b"\xc4\xa2\x71\x92\x14\xe5\x00\x00\x00\x00"),
    ("VPEXTRW d0 x1 u2 0", b"\xc5\xf9\xc5\xc1\x02"),
    ("VBLENDVPS x0 x1 x2 x3 0", b"\xc4\xe3\x71\x4a\xc2\x30"),
    ("RORX d0 d1 i5 0", b"\xc4\xe3\x7b\xf0\xc1\x05"),
    ("BLSR d1 d1 0", b"\xc4\xe2\x70\xf3\xc9"),
    ("VPSRLVQ x0 x0 x0 0", b"\xc4\xe2\xf9\x45\xc0"),
    ("VPSRLVD x0 x0 x0 0", b"\xc4\xe2\x79\x45\xc0"),
    ("VADDSS x0 x0 x1 0", b"\xc5\xfa\x58\xc1"),
    ("VCVTPH2PS x0 x1 0", b"\xc4\xe2\x79\x13\xc1"),
    ("VPBROADCASTD y0 x1 0", b"\xc4\xe2\x7d\x58\xc1"),
    ("VPSRLW x0 x1 i4 0", b"\xc5\xf9\x71\xd1\x04"),
    ("VMOVAPS x0 mq4/-/0 16", b"\xc5\xf8\x28\x04\x24"),
    ("VLDMXCSR mq0/-/0 4", b"\xc5\xf8\xae\x10"),
];

/// Texts of meanings that no bytes spell: too few operands, an address with the size of another, the mark, a register
/// that no field holds, index 4, a scale of no SIB, rip with an index, `nothing`, and opcodes of no entry.
static UNSPELLED: [&str; 13] = [
    "VADDPS x0 0",
    "VMOVAPS y0 mq0/-/0 16",
    "VADDPS x0 x1 x2 16",
    "EVEX.VADDPS x0 x1 x2 0",
    "VADDPS x0 x1 x16 0",
    "VMOVAPS x0 mq0/q4*1/0 16",
    "VMOVAPS x0 mq0/q1*3/0 16",
    "VMOVAPS x0 mrip/q1*1/0 16",
    "VMOVAPS x0 md0/-/0 16",
    "VPGATHERQD x0 mq0/-/0 x1 4",
    "VADDPS nothing nothing nothing 0",
    "TZCNT d0 d1 0",
    "Invalid 0",
];

#[test]
fn a_text_assembles_to_its_canonical_bytes(rt: HostRuntime) {
    for (text, want) in TEXTS.iter() {
        match assemble(text.as_bytes()) {
            Ok(spelling) => assert_eq!(rt; spelling.as_slice(), *want, "{text}"),
            Err(error) => panic!(rt; "{text}: {error}"),
        }
    }
    meaning_of_line();
    text_assembles(&InstDecoder::default(), b"\xc5\xf8\x77");
}

#[test]
fn the_instruction_is_answered_with_its_bytes(rt: HostRuntime) {
    match assemble_instruction(b"\tVMOVAPS y0  mq5/-/0 32\r") {
        Ok((instruction, spelling)) => {
            assert_eq!(rt; print(&instruction).as_str(), "VMOVAPS y0 mq5/-/0 32");
            assert_eq!(rt; instruction.len(), 0);
            assert_eq!(rt; spelling.as_slice(), b"\xc5\xfc\x28\x45\x00".as_slice());
        }
        Err(error) => panic!(rt; "{error}"),
    }
}

#[test]
fn a_text_that_no_bytes_spell_has_no_spelling(rt: HostRuntime) {
    for text in UNSPELLED.iter() {
        assert_eq!(rt;
            assemble(text.as_bytes()).err(),
            Some(AsmError::NoSpelling),
            "{text}"
        );
    }
}

#[test]
fn what_is_no_text_does_not_assemble(rt: HostRuntime) {
    for text in ["VMOVAPS y0 mq5/-/00 32", "VFOO 0", "", "VADDPS"] {
        assert_eq!(rt;
            assemble(text.as_bytes()).err(),
            Some(AsmError::BadText),
            "{text}"
        );
    }
}
