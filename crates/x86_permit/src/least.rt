//! The least settings of an instruction in VEX form.

ghost use Rattle.std.specs.Prelude.{◌≡◌, ◌↔◌, false, IsSome, IfSome, IsTrue};
ghost use Rattle.x86_opcode.specs.Vex.{is_vex};
ghost use Rattle.x86_settings.specs.Sets.{exactly};
ghost use Rattle.x86_permit.specs.LeastSettings.{least};

use x86_opcode::Opcode;
use x86_operand::Instruction;
use x86_settings::InstDecoder;

/// The least settings that permit a VEX opcode.
#[tactic(auto, unfolding(crate::specs::LeastSettings::least))]
fn least(opcode: Opcode) -> InstDecoder
    ensures { result ≡ exactly (least opcode) }
{
    match opcode {
        Opcode::ANDN | Opcode::BEXTR | Opcode::BLSI | Opcode::BLSMSK | Opcode::BLSR => {
            InstDecoder::minimal().with_bmi1()
        }
        Opcode::BZHI
        | Opcode::MULX
        | Opcode::PDEP
        | Opcode::PEXT
        | Opcode::RORX
        | Opcode::SARX
        | Opcode::SHRX
        | Opcode::SHLX => InstDecoder::minimal().with_bmi2(),
        Opcode::VAESDEC
        | Opcode::VAESDECLAST
        | Opcode::VAESENC
        | Opcode::VAESENCLAST
        | Opcode::VAESIMC
        | Opcode::VAESKEYGENASSIST => InstDecoder::minimal().with_avx().with_aesni(),
        Opcode::VCVTPS2PH | Opcode::VCVTPH2PS => InstDecoder::minimal().with_avx().with_f16c(),
        _ => InstDecoder::minimal().with_avx(),
    }
}

/// The least settings that permit an instruction in VEX form: the smallest set of bits that does. `None` exactly where
/// the instruction has the EVEX mark or an opcode that no instruction in VEX form has.
pub fn least_settings(inst: &Instruction) -> Option<InstDecoder>
    ensures there { IsSome result ↔ ((inst.now.meaning.evex ≡ false) × IsTrue (is_vex inst.now.meaning.opcode)) }
    ensures value { IfSome result (λ settings. settings ≡ exactly (least inst.now.meaning.opcode)) }
{
    if inst.is_evex() || !inst.opcode().is_vex() {
        return None;
    }
    Some(least(inst.opcode()))
}
