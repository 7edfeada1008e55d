//! Whether settings permit an instruction, and what it becomes.

ghost use Rattle.std.specs.Prelude.{◌≡◌, ◌↔◌, true, false, IsOk, IsErr, IfErr, IfSome, ◌<◌, OnOk, OnErr, IsTrue};
ghost use Rattle.x86_opcode.specs.Vex.{is_vex};
ghost use Rattle.x86_settings.specs.Sets.{all_set};
ghost use Rattle.x86_permit.specs.Permission.{condition_holds, marked_baseline, own_bit_set, permits, revised};

use x86_opcode::{Condition, Opcode};
use x86_operand::{DecodeError, Instruction};
use x86_settings::InstDecoder;

/// Whether the settings meet a condition.
fn holds(settings: &InstDecoder, condition: Condition) -> bool
    ensures { result ≡ condition_holds settings.now condition }
{
    match condition {
        Condition::ThreeDNow => settings._3dnow(),
        Condition::Tzcnt | Condition::Always => true,
        Condition::Sse3 => settings.sse3(),
        Condition::Ssse3 => settings.ssse3(),
        Condition::Sse41 => settings.sse4_1(),
        Condition::Sse4a => settings.sse4a(),
        Condition::Sse42 => settings.sse4_2(),
        Condition::Aesni => settings.aesni(),
        Condition::Pclmulqdq => settings.pclmulqdq(),
        Condition::Tsx => settings.tsx(),
        Condition::Sha => settings.sha(),
        Condition::Sgx => settings.sgx(),
        Condition::Movbe => settings.movbe(),
        Condition::Popcnt => settings.popcnt() || (settings.intel_quirks() && settings.sse4_2()),
        Condition::Lzcnt => settings.lzcnt() && (!settings.amd_quirks() || settings.abm()),
        Condition::Adx => settings.adx(),
        Condition::Svm => settings.svm(),
        Condition::SvmAndSkinit => settings.svm() && settings.skinit(),
        Condition::Lahfsahf => settings.lahfsahf(),
        Condition::Rdrand => settings.rdrand(),
        Condition::Rdseed => settings.rdseed(),
        Condition::Keylocker => settings.keylocker(),
        Condition::AmdQuirks => settings.amd_quirks(),
        Condition::Vmx => settings.vmx(),
        Condition::Hreset => settings.hreset(),
        Condition::Bmi1 => settings.bmi1(),
        Condition::Bmi2 => settings.bmi2(),
        Condition::AvxAndAesni => settings.avx() && settings.aesni(),
        Condition::AvxAndF16c => settings.avx() && settings.f16c(),
        Condition::Avx => settings.avx(),
    }
}

/// Whether the bits are set that every opcode with the EVEX mark needs where `avx512` isn't whole.
fn has_baseline(settings: &InstDecoder) -> bool
    ensures { result ≡ all_set settings.now marked_baseline }
{
    settings.avx512_bitalg()
        && settings.avx512_bw()
        && settings.avx512_cd()
        && settings.avx512_dq()
        && settings.avx512_f()
        && settings.avx512_fma()
        && settings.avx512_vbmi()
        && settings.avx512_vbmi2()
        && settings.avx512_vl()
        && settings.avx512_vpopcntdq()
        && settings.avx512_vnni()
}

/// Whether the bit of its own is set, for an opcode that needs one with the EVEX mark.
fn has_own_bit(settings: &InstDecoder, own: Option<u8>) -> bool
    requires { IfSome own (λ bit. bit < 128) }
    ensures { result ≡ own_bit_set settings.now own }
{
    match own {
        Some(bit) => settings.bit(bit),
        None => true,
    }
}

/// Whether the settings permit an opcode, with the EVEX mark or without it.
#[tactic(auto, unfolding(crate::specs::Permission::permits))]
fn is_permitted(settings: &InstDecoder, evex: bool, opcode: Opcode) -> bool
    ensures { result ≡ permits settings.now evex opcode }
{
    if evex {
        settings.avx512() || (has_baseline(settings) && has_own_bit(settings, opcode.marked_bit()))
    } else {
        holds(settings, opcode.condition())
    }
}

/// The opcode that a permitted instruction has then. Without BMI1 a processor ignores the prefix F3 of a `TZCNT`, which
/// makes it a `BSF` (Intel SDM volume 2, `TZCNT`).
#[tactic(auto, unfolding(crate::specs::Permission::revised))]
fn revised_opcode(settings: &InstDecoder, evex: bool, opcode: Opcode) -> Opcode
    ensures { result ≡ revised settings.now evex opcode }
{
    match opcode {
        Opcode::TZCNT if !evex && !settings.bmi1() => Opcode::BSF,
        _ => opcode,
    }
}

/// Refuses an instruction that the settings don't permit, by its EVEX mark and its opcode, and makes an unmarked
/// `TZCNT` a `BSF` where `bmi1` isn't set. Any other permitted instruction stays as it is, and so does a refused one.
///
/// The only error is `InvalidOpcode`. It comes exactly where the condition of the opcode without the mark doesn't
/// hold, or, with the mark, where neither `avx512` is whole nor the bits are set that the opcode needs beside it.
#[tactic(auto, using(crate::specs::Permission::Lemmas::vex_stays))]
pub fn revise_instruction(settings: &InstDecoder, inst: &mut Instruction) -> Result<(), DecodeError>
    ensures permitted { IsOk result ↔ (permits settings.now inst.old.meaning.evex inst.old.meaning.opcode ≡ true) }
    ensures refused { IsErr result ↔ (permits settings.now inst.old.meaning.evex inst.old.meaning.opcode ≡ false) }
    ensures error { IfErr result (λ error. error ≡ DecodeError.InvalidOpcode) }

    // The opcode alone may change.
    ensures revised { OnOk result (inst.new ≡ record inst.old {
      meaning = record inst.old.meaning { opcode = revised settings.now inst.old.meaning.evex inst.old.meaning.opcode };
    }) }
    ensures unchanged { OnErr result (inst.new ≡ inst.old) }

    // An instruction with a VEX opcode never changes.
    ensures vex_stays { IsTrue (is_vex inst.old.meaning.opcode) → inst.new ≡ inst.old }
{
    if !is_permitted(settings, inst.is_evex(), inst.opcode()) {
        return Err(DecodeError::InvalidOpcode);
    }
    inst.set_opcode(revised_opcode(settings, inst.is_evex(), inst.opcode()));
    Ok(())
}
