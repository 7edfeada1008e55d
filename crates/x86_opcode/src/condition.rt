//! What permits an opcode, and whether a VEX prefix can have it.

ghost use Rattle.std.specs.Prelude.{◌≡◌, ◌↔◌, ◌<◌, IsTrue, IfSome, Contains};
ghost use Rattle.x86_opcode.specs.Condition.{opcode_condition};
ghost use Rattle.x86_opcode.specs.Mark.{marked_bit};
ghost use Rattle.x86_opcode.specs.Vex.{is_vex, vex_opcodes};

use crate::{MarkedOpcode, Opcode};

// The settings bits that some opcodes need beside the common ones with the EVEX mark.
const AVX512_4FMAPS: u8 = 10;

const AVX512_4VNNIW: u8 = 11;

const AVX512_ER: u8 = 16;

/// What must be set in the settings to permit an opcode without the EVEX mark.
#[derive(Clone, Copy, PartialEq, Eq, Debug)]
pub enum Condition {
    /// `_3dnow`.
    ThreeDNow,
    /// Nothing; without `bmi1` the instruction becomes a `BSF`.
    Tzcnt,
    /// `sse3`.
    Sse3,
    /// `ssse3`.
    Ssse3,
    /// `sse4_1`.
    Sse41,
    /// `sse4a`.
    Sse4a,
    /// `sse4_2`.
    Sse42,
    /// `aesni`.
    Aesni,
    /// `pclmulqdq`.
    Pclmulqdq,
    /// `tsx`.
    Tsx,
    /// `sha`.
    Sha,
    /// `sgx`.
    Sgx,
    /// `movbe`.
    Movbe,
    /// `popcnt`, or `intel_quirks` and `sse4_2`.
    Popcnt,
    /// `lzcnt`, and `abm` where `amd_quirks` is set.
    Lzcnt,
    /// `adx`.
    Adx,
    /// `svm`.
    Svm,
    /// `svm` and `skinit`.
    SvmAndSkinit,
    /// `lahfsahf`.
    Lahfsahf,
    /// `rdrand`.
    Rdrand,
    /// `rdseed`.
    Rdseed,
    /// `keylocker`.
    Keylocker,
    /// `amd_quirks`.
    AmdQuirks,
    /// `vmx`.
    Vmx,
    /// `hreset`.
    Hreset,
    /// `bmi1`.
    Bmi1,
    /// `bmi2`.
    Bmi2,
    /// `avx` and `aesni`.
    AvxAndAesni,
    /// `avx` and `f16c`.
    AvxAndF16c,
    /// `avx`.
    Avx,
    /// Nothing.
    Always,
}

impl Opcode {
    /// What the settings must say to permit the opcode without the EVEX mark.
    #[tactic(auto, unfolding(crate::specs::Condition::opcode_condition))]
    pub fn condition(self) -> Condition
        ensures { result ≡ opcode_condition self }
    {
        match self {
            Opcode::Invalid | Opcode::BSF => Condition::Always,
            Opcode::Legacy(part) => part.condition(),
            Opcode::Integer(part) => part.condition(),
            Opcode::Float(part) => part.condition(),
            Opcode::Fused(_) => Condition::Avx,
            Opcode::Marked(part) => part.condition(),
        }
    }

    /// The settings bit that the opcode alone needs where it has the EVEX mark, 10, 11 or 16; `None` where it needs
    /// none of its own.
    #[tactic(auto, unfolding(crate::specs::Mark::marked_bit))]
    pub fn marked_bit(self) -> Option<u8>
        ensures value { result ≡ marked_bit self }
        ensures below { IfSome result (λ bit. bit < 128) }
    {
        let Opcode::Marked(part) = self else {
            return None;
        };
        match part {
            MarkedOpcode::VPMULLQ => None,
            MarkedOpcode::VP4DPWSSDS | MarkedOpcode::VP4DPWSSD => Some(AVX512_4VNNIW),
            MarkedOpcode::V4FMADDPS
            | MarkedOpcode::V4FNMADDPS
            | MarkedOpcode::V4FMADDSS
            | MarkedOpcode::V4FNMADDSS => Some(AVX512_4FMAPS),
            MarkedOpcode::VEXP2PD
            | MarkedOpcode::VEXP2PS
            | MarkedOpcode::VRCP28PD
            | MarkedOpcode::VRCP28PS
            | MarkedOpcode::VRCP28SD
            | MarkedOpcode::VRCP28SS
            | MarkedOpcode::VRSQRT28PD
            | MarkedOpcode::VRSQRT28PS
            | MarkedOpcode::VRSQRT28SD
            | MarkedOpcode::VRSQRT28SS => Some(AVX512_ER),
        }
    }

    /// Whether an instruction with a VEX prefix can have the opcode.
    pub fn is_vex(self) -> bool
        ensures listed { IsTrue result ↔ Contains vex_opcodes self }
        ensures test { result ≡ is_vex self }
    {
        match self {
            Opcode::Integer(_) | Opcode::Float(_) | Opcode::Fused(_) => true,
            Opcode::Invalid | Opcode::BSF | Opcode::Legacy(_) | Opcode::Marked(_) => false,
        }
    }
}
