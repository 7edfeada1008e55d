//! What no clause says: how many spellings given meanings have, which come first and last, and one whole list.

use crate::{first_spelling, spelling_after};
use std::process::Abort;
use vex_decode::Decoder;
use x86_operand::{Instruction, Opcode};
use x86_settings::InstDecoder;

/// Bytes, and how many spellings their meaning has, and which of them are the first and the last.
#[derive(Clone, Copy)]
struct Case {
    bytes: &'static [u8],
    count: usize,
    first: &'static [u8],
    last: &'static [u8],
}

fn counted(bytes: &'static [u8], count: usize, first: &'static [u8], last: &'static [u8]) -> Case {
    Case {
        bytes,
        count,
        first,
        last,
    }
}

#[rattlefmt::skip]
fn cases() -> [Case; 11] {
    [
        // x0 x1 x2: 2 X, 2 W after C4, and one after C5.
        counted(&[0xC5, 0xF0, 0x58, 0xC2], 5, &[0xC4, 0xA1, 0x70, 0x58, 0xC2], &[0xC5, 0xF0, 0x58, 0xC2]),
        // Of one element, so that L plays no part either: twice as many.
        counted(&[0xC5, 0xF2, 0x58, 0xC2], 10, &[0xC4, 0xA1, 0x72, 0x58, 0xC2], &[0xC5, 0xF6, 0x58, 0xC2]),
        // A move from register to register has two opcode bytes, with 5 each.
        counted(&[0xC5, 0xF8, 0x28, 0xC1], 10, &[0xC4, 0xA1, 0x78, 0x28, 0xC1], &[0xC5, 0xF8, 0x29, 0xC8]),
        // The base q0 alone. Without SIB there are 3 widths of the displacement 0, with SIB 4 scales of no index as
        // well. After C4 X is free without SIB: 2 W times (2 * 3 + 3 * 4); after C5 it is 0: 3 + 3 * 4.
        counted(&[0xC5, 0xF0, 0x58, 0x00], 51,
            &[0xC4, 0xA1, 0x70, 0x58, 0x00], &[0xC5, 0xF0, 0x58, 0x84, 0xE0, 0, 0, 0, 0]),
        // q0 + q1 * 4: X, B and the scale are fixed. 3 widths, after C4 with 2 W, and after C5.
        counted(&[0xC5, 0xF0, 0x58, 0x04, 0x88], 9,
            &[0xC4, 0xE1, 0x70, 0x58, 0x04, 0x88], &[0xC5, 0xF0, 0x58, 0x84, 0x88, 0, 0, 0, 0]),
        // No base and no index: 4 scales, after C4 with 2 B and 2 W, and after C5.
        counted(&[0xC5, 0xF0, 0x58, 0x04, 0x25, 5, 0, 0, 0], 20,
            &[0xC4, 0xC1, 0x70, 0x58, 0x04, 0x25, 5, 0, 0, 0], &[0xC5, 0xF0, 0x58, 0x04, 0xE5, 5, 0, 0, 0]),
        // A group and an immediate: no slot names reg, so R is free. 2 R, 2 X, 2 W after C4, and 2 R after C5.
        counted(&[0xC5, 0xF1, 0x72, 0xD2, 3], 10, &[0xC4, 0x21, 0x71, 0x72, 0xD2, 3], &[0xC5, 0xF1, 0x72, 0xD2, 3]),
        // RORX d0 d1 5 doesn't look at vvvv: 16 of it, 2 X. The map has no C5.
        counted(&[0xC4, 0xE3, 0x7B, 0xF0, 0xC1, 5], 32,
            &[0xC4, 0xA3, 0x03, 0xF0, 0xC1, 5], &[0xC4, 0xE3, 0x7B, 0xF0, 0xC1, 5]),
        // The high half of the immediate byte names a register: 16 low halves, 2 X.
        counted(&[0xC4, 0xE3, 0x71, 0x4A, 0xC2, 0x35], 32,
            &[0xC4, 0xA3, 0x71, 0x4A, 0xC2, 0x30], &[0xC4, 0xE3, 0x71, 0x4A, 0xC2, 0x3F]),
        // A gather has SIB, and its index is there: 3 widths alone.
        counted(&[0xC4, 0xE2, 0x69, 0x90, 0x04, 0x48], 3,
            &[0xC4, 0xE2, 0x69, 0x90, 0x04, 0x48], &[0xC4, 0xE2, 0x69, 0x90, 0x84, 0x48, 0, 0, 0, 0]),
        // VLDMXCSR q0: a group and an address, and vvvv plays no part: 32 times as many as the base q0 alone.
        counted(&[0xC5, 0xF8, 0xAE, 0x10], 1632,
            &[0xC4, 0x21, 0x00, 0xAE, 0x10], &[0xC5, 0xF8, 0xAE, 0x94, 0xE0, 0, 0, 0, 0]),
    ]
}

#[test]
fn a_meaning_has_so_many_spellings_from_the_first_to_the_last(rt: HostRuntime) {
    let decoder = InstDecoder::default();
    for case in cases() {
        let instruction = decoder
            .decode_slice(case.bytes)
            .expect(&rt, "the bytes spell");
        let mut spelling = first_spelling(&instruction).expect(&rt, "there is one");
        assert_eq!(rt; spelling.as_slice(), case.first, "{instruction:?}");
        for _ in 1..case.count {
            spelling = spelling_after(&instruction, spelling.as_slice()).expect(
                &rt,
                "there is one more",
            );
        }
        assert_eq!(rt; spelling.as_slice(), case.last, "{instruction:?}");
        assert!(rt;
            spelling_after(&instruction, case.last).is_none(),
            "{instruction:?}"
        );
    }
}

/// All spellings of `VZEROUPPER`, in order: 2 R, 2 X, 2 B and 2 W after C4, and 2 R after C5.
#[rattlefmt::skip]
fn spellings_of_vzeroupper() -> [&'static [u8]; 18] {
    [
        &[0xC4, 0x01, 0x78, 0x77], &[0xC4, 0x01, 0xF8, 0x77], &[0xC4, 0x21, 0x78, 0x77], &[0xC4, 0x21, 0xF8, 0x77],
        &[0xC4, 0x41, 0x78, 0x77], &[0xC4, 0x41, 0xF8, 0x77], &[0xC4, 0x61, 0x78, 0x77], &[0xC4, 0x61, 0xF8, 0x77],
        &[0xC4, 0x81, 0x78, 0x77], &[0xC4, 0x81, 0xF8, 0x77], &[0xC4, 0xA1, 0x78, 0x77], &[0xC4, 0xA1, 0xF8, 0x77],
        &[0xC4, 0xC1, 0x78, 0x77], &[0xC4, 0xC1, 0xF8, 0x77], &[0xC4, 0xE1, 0x78, 0x77], &[0xC4, 0xE1, 0xF8, 0x77],
        &[0xC5, 0x78, 0x77], &[0xC5, 0xF8, 0x77],
    ]
}

#[test]
fn spellings_come_in_order(rt: HostRuntime) {
    let instruction = Instruction::of(Opcode::VZEROUPPER, false);
    let mut last = first_spelling(&instruction);
    for wanted in spellings_of_vzeroupper() {
        let spelling = last.expect(&rt, "there is one more");
        assert_eq!(rt; spelling.as_slice(), wanted);
        last = spelling_after(&instruction, spelling.as_slice());
    }
    assert!(rt; last.is_none());
}

/// Byte strings, most of which aren't spellings, and the spelling of `VZEROUPPER` that comes after each.
#[rattlefmt::skip]
fn nexts() -> [(&'static [u8], &'static [u8]); 6] {
    [
        (&[], &[0xC4, 0x01, 0x78, 0x77]),
        (&[0xC4], &[0xC4, 0x01, 0x78, 0x77]),
        (&[0xC4, 0x01, 0x78, 0x77, 0x00], &[0xC4, 0x01, 0xF8, 0x77]),
        (&[0xC4, 0xE1, 0xF8, 0x77], &[0xC5, 0x78, 0x77]),
        (&[0xC5], &[0xC5, 0x78, 0x77]),
        (&[0xC5, 0x78, 0x77, 0, 0, 0, 0, 0, 0, 0, 0, 0], &[0xC5, 0xF8, 0x77]),
    ]
}

#[test]
fn the_next_comes_after_any_bytes(rt: HostRuntime) {
    let instruction = Instruction::of(Opcode::VZEROUPPER, false);
    for (previous, wanted) in nexts() {
        let next = spelling_after(&instruction, previous).expect(&rt, "there is one");
        assert_eq!(rt; next.as_slice(), wanted);
    }
    assert!(rt; spelling_after(&instruction, &[0xC5, 0xF8, 0x77]).is_none());
    assert!(rt; spelling_after(&instruction, &[0xFF]).is_none());
    assert!(rt; first_spelling(&Instruction::of(Opcode::VZEROUPPER, true)).is_none());
}
