//! What runs of instructions need, at worked bytes.

use crate::{Needs, RunCause, RunFault, accepts, check};
use std::test::Fail;
use x86_opcode::Opcode;
use x86_operand::DecodeError;
use x86_settings::InstDecoder;

/// A bit, the place where it is first needed, and the opcode there.
type WantedFirst = (u8, usize, Opcode);

#[test]
fn a_run_needs_the_bits_of_its_instructions(rt: HostRuntime) -> Result<(), Fail> {
    let scalars = [
        0xC5, 0xFA, 0x10, 0x07, 0xC5, 0xFA, 0x58, 0x06, 0xC4, 0xE3, 0x7B, 0xF0, 0xC1, 0x05,
    ];
    let rounds = [0xC4, 0xE2, 0x79, 0xDC, 0xC1, 0xC4, 0xE2, 0x79, 0x13, 0xC1];
    let five = [
        0xC4, 0xE3, 0x7B, 0xF0, 0xC1, 0x05, 0xC4, 0xE2, 0x70, 0xF2, 0xC2, 0xC4, 0xE2, 0x79, 0x13,
        0xC1, 0xC5, 0xF8, 0x77, 0xC4, 0xE2, 0x79, 0xDC, 0xC1,
    ];
    let of_scalars = [(7, 0, Opcode::VMOVSS), (26, 8, Opcode::RORX)];
    let of_rounds = [
        (5, 0, Opcode::VAESENC),
        (7, 0, Opcode::VAESENC),
        (32, 5, Opcode::VCVTPH2PS),
    ];
    let of_five = [
        (5, 19, Opcode::VAESENC),
        (7, 11, Opcode::VCVTPH2PS),
        (25, 6, Opcode::ANDN),
        (26, 0, Opcode::RORX),
        (32, 11, Opcode::VCVTPH2PS),
    ];
    let nothing = InstDecoder::minimal();
    let with_f16c = nothing.with_avx().with_aesni().with_f16c();
    let rows: [(&[u8], &[WantedFirst], InstDecoder, usize); 4] = [
        (&scalars, &of_scalars, nothing.with_avx().with_bmi2(), 3),
        (&rounds, &of_rounds, with_f16c, 2),
        (&five, &of_five, with_f16c.with_bmi1().with_bmi2(), 5),
        (&[], &[], nothing, 0),
    ];
    for (bytes, wanted, least, count) in rows {
        let needs = check(bytes).map_err(|_| "there is a fault")?;
        assert_eq!(rt; needs.count, count);
        assert!(rt; needs.least == least);
        assert_eq!(rt; needs.firsts.len(), wanted.len());
        for (first, (bit, place, opcode)) in needs.firsts.as_slice().iter().zip(wanted) {
            assert_eq!(rt; first.bit, *bit);
            assert_eq!(rt; first.place, *place);
            assert!(rt; first.opcode.is(*opcode));
        }
    }
    Ok(())
}

#[test]
fn a_run_stops_at_its_first_fault(rt: HostRuntime) {
    let rows: [(&[u8], usize, DecodeError); 4] = [
        (&[0xC5, 0xF8, 0x77, 0x33], 3, DecodeError::Outside),
        (
            &[0xC5, 0xF8, 0x77, 0xC5, 0xF8],
            3,
            DecodeError::ExhaustedInput,
        ),
        (
            &[0xC5, 0xF1, 0x71, 0xCA, 0x04, 0xC5, 0xF8, 0x77],
            0,
            DecodeError::InvalidOpcode,
        ),
        (
            &[0xC4, 0xE2, 0x79, 0xDC, 0xC1, 0xC5, 0xF0, 0x28, 0xC1],
            5,
            DecodeError::InvalidOperand,
        ),
    ];
    for (bytes, place, error) in rows {
        let wanted = RunFault {
            place,
            cause: RunCause::Blocked(error),
        };
        assert_eq!(rt; check(bytes).err(), Some(wanted));
    }
}

#[test]
fn settings_accept_a_run_by_its_bits_alone(rt: HostRuntime) -> Result<(), Fail> {
    let bytes = [0xC5, 0xFA, 0x10, 0x07, 0xC4, 0xE3, 0x7B, 0xF0, 0xC1, 0x05];
    let needs: Needs = check(&bytes).map_err(|_| "there is a fault")?;
    let avx = InstDecoder::minimal().with_avx();
    let rows = [
        (InstDecoder::default(), true),
        (InstDecoder::minimal(), false),
        (avx, false),
        (avx.with_bmi1(), false),
        (avx.with_bmi2(), true),
    ];
    for (settings, wanted) in rows {
        assert_eq!(rt; accepts(&settings, &needs), wanted);
    }
    let nothing = check(&[]).map_err(|_| "there is a fault")?;
    assert!(rt; accepts(&InstDecoder::minimal(), &nothing));
    Ok(())
}
