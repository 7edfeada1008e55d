use crate::laws::constants_have_their_names;
use crate::{Condition, Opcode};
use std::process::Abort;
use std::test::Fail;

mod names;

/// What the opcodes of a list have in common.
#[derive(Clone, Copy)]
struct Kind {
    condition: Condition,
    marked_bit: Option<u8>,
    is_vex: bool,
}

/// What opcodes have in common that need this without the mark, and with it nothing of their own.
fn unmarked(condition: Condition, is_vex: bool) -> Kind {
    Kind {
        condition,
        marked_bit: None,
        is_vex,
    }
}

/// What opcodes have in common that need nothing without the mark, and this bit of their own with it.
fn marked(bit: u8) -> Kind {
    Kind {
        condition: Condition::Always,
        marked_bit: Some(bit),
        is_vex: false,
    }
}

/// Each name of the list is that of an opcode of this kind that was in no list before, nor twice in this one.
fn check_list(rt: &impl Abort, names: &[&str], kind: Kind, seen: &mut [bool]) {
    for name in names {
        let found = Opcode::named(name);
        assert!(rt; found.is_some(), "{name}");
        let opcode = found.unwrap_or_default();
        assert_eq!(rt; opcode.name(), *name);
        assert_eq!(rt; opcode.condition(), kind.condition, "{name}");
        assert_eq!(rt; opcode.marked_bit(), kind.marked_bit, "{name}");
        assert_eq!(rt; opcode.is_vex(), kind.is_vex, "{name}");
        match seen.get_mut(usize::from(opcode.number())) {
            Some(place) => {
                assert!(rt; !*place, "{name} twice");
                *place = true;
            }
            None => assert!(rt; false, "{name} has no place"),
        }
    }
}

#[test]
fn opcodes_are_those_of_the_lists(rt: HostRuntime) {
    let mut seen = [false; 551];
    let seen = &mut seen[..];
    check_list(
        &rt,
        names::THREE_D_NOW,
        unmarked(Condition::ThreeDNow, false),
        seen,
    );
    check_list(&rt, names::TZCNT, unmarked(Condition::Tzcnt, false), seen);
    check_list(&rt, names::SSE3, unmarked(Condition::Sse3, false), seen);
    check_list(&rt, names::SSSE3, unmarked(Condition::Ssse3, false), seen);
    check_list(&rt, names::SSE4_1, unmarked(Condition::Sse41, false), seen);
    check_list(&rt, names::SSE4A, unmarked(Condition::Sse4a, false), seen);
    check_list(&rt, names::SSE4_2, unmarked(Condition::Sse42, false), seen);
    check_list(&rt, names::AESNI, unmarked(Condition::Aesni, false), seen);
    check_list(
        &rt,
        names::PCLMULQDQ,
        unmarked(Condition::Pclmulqdq, false),
        seen,
    );
    check_list(&rt, names::TSX, unmarked(Condition::Tsx, false), seen);
    check_list(&rt, names::SHA, unmarked(Condition::Sha, false), seen);
    check_list(&rt, names::SGX, unmarked(Condition::Sgx, false), seen);
    check_list(&rt, names::MOVBE, unmarked(Condition::Movbe, false), seen);
    check_list(&rt, names::POPCNT, unmarked(Condition::Popcnt, false), seen);
    check_list(&rt, names::LZCNT, unmarked(Condition::Lzcnt, false), seen);
    check_list(&rt, names::ADX, unmarked(Condition::Adx, false), seen);
    check_list(&rt, names::SVM, unmarked(Condition::Svm, false), seen);
    check_list(
        &rt,
        names::SVM_AND_SKINIT,
        unmarked(Condition::SvmAndSkinit, false),
        seen,
    );
    check_list(
        &rt,
        names::LAHFSAHF,
        unmarked(Condition::Lahfsahf, false),
        seen,
    );
    check_list(&rt, names::RDRAND, unmarked(Condition::Rdrand, false), seen);
    check_list(&rt, names::RDSEED, unmarked(Condition::Rdseed, false), seen);
    check_list(
        &rt,
        names::KEYLOCKER,
        unmarked(Condition::Keylocker, false),
        seen,
    );
    check_list(
        &rt,
        names::AMD_QUIRKS,
        unmarked(Condition::AmdQuirks, false),
        seen,
    );
    check_list(&rt, names::VMX, unmarked(Condition::Vmx, false), seen);
    check_list(&rt, names::HRESET, unmarked(Condition::Hreset, false), seen);
    check_list(&rt, names::BMI1, unmarked(Condition::Bmi1, true), seen);
    check_list(&rt, names::BMI2, unmarked(Condition::Bmi2, true), seen);
    check_list(
        &rt,
        names::AVX_AND_AESNI,
        unmarked(Condition::AvxAndAesni, true),
        seen,
    );
    check_list(
        &rt,
        names::AVX_AND_F16C,
        unmarked(Condition::AvxAndF16c, true),
        seen,
    );
    check_list(&rt, names::AVX, unmarked(Condition::Avx, true), seen);
    check_list(
        &rt,
        names::AVX_WITHOUT_VEX,
        unmarked(Condition::Avx, false),
        seen,
    );
    check_list(&rt, names::ALWAYS, unmarked(Condition::Always, false), seen);
    check_list(&rt, names::AVX512_4FMAPS, marked(10), seen);
    check_list(&rt, names::AVX512_4VNNIW, marked(11), seen);
    check_list(&rt, names::AVX512_ER, marked(16), seen);
    for opcode in Opcode::all() {
        let place = seen.get(usize::from(opcode.number()));
        assert_eq!(rt; place.copied(), Some(true), "{opcode}");
    }
    assert_eq!(rt; Opcode::all().len(), 551);
    constants_have_their_names();
}

#[test]
fn other_texts_name_no_opcode(rt: HostRuntime) {
    for text in [
        "", "VADD", "vaddps", "VADDPS ", " VADDPS", "VADDPSS", "invalid", "Opcode", "VPMULLW2",
        "\u{e9}",
    ] {
        assert!(rt; Opcode::named(text).is_none(), "{text}");
    }
}

#[test]
fn prints_names(rt: HostRuntime) -> Result<(), Fail> {
    for (opcode, want) in [
        (Opcode::Invalid, "Invalid"),
        (Opcode::BSF, "BSF"),
        (Opcode::FEMMS, "FEMMS"),
        (Opcode::TZCNT, "TZCNT"),
        (Opcode::SHA1RNDS4, "SHA1RNDS4"),
        (Opcode::AESENCWIDE256KL, "AESENCWIDE256KL"),
        (Opcode::ANDN, "ANDN"),
        (Opcode::VADDPS, "VADDPS"),
        (Opcode::VPSLLDQ, "VPSLLDQ"),
        (Opcode::VCVTTSD2SI, "VCVTTSD2SI"),
        (Opcode::VFMADDSUB231PD, "VFMADDSUB231PD"),
        (Opcode::VRSQRT28SS, "VRSQRT28SS"),
    ] {
        let printed = format!(in rt.alloc(); "{opcode} {opcode:?}")?;
        let twice = format!(in rt.alloc(); "{want} {want}")?;
        assert_eq!(rt; printed.as_str(), twice.as_str());
        assert_eq!(rt; opcode.name(), want);
        assert!(rt; opcode.clone()? == opcode, "{want}");
    }
    Ok(())
}

#[test]
fn tells_opcodes_apart(rt: HostRuntime) {
    for opcode in [
        Opcode::Invalid,
        Opcode::CRC32,
        Opcode::VADDPS,
        Opcode::VRSQRT28SS,
    ] {
        let found = Opcode::all().get(usize::from(opcode.number()));
        assert_eq!(rt; found.copied(), Some(opcode));
        assert!(rt; opcode.is(opcode));
        assert!(rt; !opcode.is(Opcode::VADDPD), "{opcode}");
    }
    assert!(rt; Opcode::default().is(Opcode::Invalid));
}
