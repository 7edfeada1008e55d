use crate::{least_settings, revise_instruction};
use std::process::Abort;
use x86_opcode::Opcode;
use x86_operand::{DecodeError, Instruction};
use x86_settings::InstDecoder;

/// The bits of AMD's Zen 4.
const ZEN_4: [u8; 44] = [
    3, 4, 5, 7, 8, 13, 14, 17, 20, 21, 22, 23, 25, 26, 27, 28, 30, 32, 33, 35, 37, 38, 41, 43, 48,
    49, 52, 53, 54, 55, 56, 57, 58, 59, 63, 66, 67, 68, 69, 70, 71, 72, 73, 74,
];

/// What Zen 5 has beside them.
const ADDED_BY_ZEN_5: [u8; 6] = [12, 15, 18, 75, 76, 109];

/// The bits of Intel's Skylake.
const SKYLAKE: [u8; 23] = [
    3, 4, 5, 7, 8, 25, 26, 29, 30, 32, 33, 42, 43, 45, 46, 48, 49, 51, 54, 55, 56, 58, 62,
];

/// The bits that each opcode needs with the EVEX mark.
const BASELINE: [u8; 11] = [12, 13, 14, 15, 17, 18, 20, 21, 22, 23, 109];

/// The settings with these bits too.
fn with_bits(settings: InstDecoder, bits: &[u8]) -> InstDecoder {
    let mut settings = settings;
    for &bit in bits {
        // The lists above hold no others.
        if bit < 128 {
            settings = settings.with_bit(bit);
        }
    }
    settings
}

fn settings_of(bits: &[u8]) -> InstDecoder {
    with_bits(InstDecoder::minimal(), bits)
}

/// Whether the settings permit the opcode, and then what it becomes. A refused instruction stays.
fn check(
    rt: &impl Abort,
    settings: &InstDecoder,
    opcode: Opcode,
    evex: bool,
    want: Option<Opcode>,
) {
    let given = Instruction::of(opcode, evex);
    let mut inst = given;
    let answer = revise_instruction(settings, &mut inst);
    match want {
        Some(becomes) => {
            assert!(rt; answer.is_ok(), "{opcode} {evex}");
            assert!(rt; inst == Instruction::of(becomes, evex), "{opcode} {evex}");
        }
        None => {
            assert!(rt;
                answer == Err(DecodeError::InvalidOpcode),
                "{opcode} {evex}"
            );
            assert!(rt; inst == given, "{opcode} {evex}");
        }
    }
}

/// An opcode of each condition, and the bits that it needs: it is permitted with them, with all others too, and
/// refused where one is missing from all.
#[test]
fn an_opcode_needs_its_bits(rt: HostRuntime) {
    let rows: [(Opcode, &'static [u8]); 29] = [
        (Opcode::FEMMS, &[1]),
        (Opcode::LDDQU, &[54]),
        (Opcode::PALIGNR, &[58]),
        (Opcode::PTEST, &[55]),
        (Opcode::EXTRQ, &[57]),
        (Opcode::CRC32, &[56]),
        (Opcode::AESENC, &[5]),
        (Opcode::PCLMULQDQ, &[43]),
        (Opcode::XBEGIN, &[62]),
        (Opcode::SHA1RNDS4, &[52]),
        (Opcode::ENCLS, &[51]),
        (Opcode::MOVBE, &[41]),
        (Opcode::ADCX, &[4]),
        (Opcode::VMRUN, &[59]),
        (Opcode::STGI, &[53, 59]),
        (Opcode::LAHF, &[38]),
        (Opcode::RDRAND, &[48]),
        (Opcode::RDSEED, &[49]),
        (Opcode::ENCODEKEY128, &[111]),
        (Opcode::RDPRU, &[6]),
        (Opcode::INVEPT, &[64]),
        (Opcode::HRESET, &[112]),
        (Opcode::ANDN, &[25]),
        (Opcode::RORX, &[26]),
        (Opcode::VAESENC, &[5, 7]),
        (Opcode::VCVTPH2PS, &[7, 32]),
        (Opcode::VADDPS, &[7]),
        (Opcode::BSF, &[]),
        (Opcode::Invalid, &[]),
    ];
    for (opcode, bits) in rows {
        check(&rt, &settings_of(bits), opcode, false, Some(opcode));
        for &missing in bits {
            let mut others = InstDecoder::minimal();
            for bit in 0..128 {
                if bit != missing {
                    others = others.with_bit(bit);
                }
            }
            check(&rt, &others, opcode, false, None);
        }
    }
}

#[test]
fn quirks_change_three_opcodes(rt: HostRuntime) {
    let rows: [(Opcode, &'static [u8], Option<Opcode>); 11] = [
        (Opcode::TZCNT, &[], Some(Opcode::BSF)),
        (Opcode::TZCNT, &[25], Some(Opcode::TZCNT)),
        (Opcode::LZCNT, &[39], Some(Opcode::LZCNT)),
        (Opcode::LZCNT, &[39, 6], None),
        (Opcode::LZCNT, &[39, 6, 3], Some(Opcode::LZCNT)),
        (Opcode::LZCNT, &[3, 6], None),
        (Opcode::POPCNT, &[45], Some(Opcode::POPCNT)),
        (Opcode::POPCNT, &[36, 56], Some(Opcode::POPCNT)),
        (Opcode::POPCNT, &[36], None),
        (Opcode::POPCNT, &[56], None),
        (Opcode::POPCNT, &[], None),
    ];
    for (opcode, bits, want) in rows {
        check(&rt, &settings_of(bits), opcode, false, want);
    }
}

#[test]
fn the_mark_needs_its_bits(rt: HostRuntime) {
    let zen4 = settings_of(&ZEN_4);
    let zen5 = with_bits(zen4, &ADDED_BY_ZEN_5);
    let skylake = settings_of(&SKYLAKE);
    let base = settings_of(&BASELINE);
    let parts = skylake.with_avx512_f().with_avx512_dq();
    assert!(rt; parts.avx512_f() && parts.avx512_dq() && !parts.avx512());
    let add = Opcode::VADDPS;
    let exp = Opcode::VEXP2PD;
    for (settings, opcode, is_permitted) in [
        (zen5, add, true),
        (zen4, add, false),
        (skylake, add, false),
        (parts, add, false),
        (zen5, exp, false),
        (base, add, true),
        (base, exp, false),
        (base.with_avx512_er(), add, true),
        (base.with_avx512_er(), exp, true),
        (base.with_avx512_4fmaps(), Opcode::V4FMADDPS, true),
        (base.with_avx512_4vnniw(), Opcode::V4FMADDPS, false),
        (base.with_avx512_4vnniw(), Opcode::VP4DPWSSD, true),
        (base.with_avx512_er(), Opcode::VP4DPWSSD, false),
        (InstDecoder::minimal().with_avx512(), exp, true),
        (InstDecoder::minimal().with_avx512(), Opcode::TZCNT, true),
        (InstDecoder::minimal(), Opcode::TZCNT, false),
    ] {
        let want = if is_permitted { Some(opcode) } else { None };
        check(&rt, &settings, opcode, true, want);
    }
    for left_out in 0..BASELINE.len() {
        let mut settings = InstDecoder::minimal().with_avx();
        for (place, &bit) in BASELINE.iter().enumerate() {
            if place != left_out && bit < 128 {
                settings = settings.with_bit(bit);
            }
        }
        check(&rt, &settings, add, true, None);
    }
}

#[test]
fn least_settings_are_those_of_the_opcode(rt: HostRuntime) {
    let rows: [(Opcode, Option<&'static [u8]>); 11] = [
        (Opcode::VAESENC, Some(&[5, 7])),
        (Opcode::VCVTPH2PS, Some(&[7, 32])),
        (Opcode::RORX, Some(&[26])),
        (Opcode::BLSR, Some(&[25])),
        (Opcode::VADDPS, Some(&[7])),
        (Opcode::VPERM2I128, Some(&[7])),
        (Opcode::VZEROUPPER, Some(&[7])),
        (Opcode::LZCNT, None),
        (Opcode::TZCNT, None),
        (Opcode::VPMULLQ, None),
        (Opcode::Invalid, None),
    ];
    for (opcode, bits) in rows {
        let want = bits.map(|bits| settings_of(bits));
        assert!(rt;
            least_settings(&Instruction::of(opcode, false)) == want,
            "{opcode}"
        );
        assert!(rt;
            least_settings(&Instruction::of(opcode, true)).is_none(),
            "{opcode}"
        );
    }
}
