//! What a run of instructions needs, and why a run has no such answer.

use arrayvec::ArrayVec;
use x86_opcode::Opcode;
use x86_operand::DecodeError;
use x86_settings::InstDecoder;

/// The first instruction of a run that needs a bit of the settings.
#[derive(Clone, Copy, PartialEq, Eq, Debug, Default)]
pub struct First {
    /// The bit, 0 to 127.
    pub bit: u8,
    /// How many bytes of the run stand before the instruction.
    pub place: usize,
    /// Its opcode.
    pub opcode: Opcode,
}

/// What a run of instructions needs.
#[derive(Drop)]
pub struct Needs {
    /// The bits that its instructions need, and no other.
    pub least: InstDecoder,
    /// The first instruction that needs each of these bits, in ascending order of the bits. The instructions in VEX
    /// form need five bits at most: `aesni`, `avx`, `bmi1`, `bmi2` and `f16c`.
    pub firsts: ArrayVec<First, 5>,
    /// How many instructions there are.
    pub count: usize,
}

/// Why a run has no least settings.
#[derive(Clone, Copy, PartialEq, Eq, Debug)]
pub enum RunCause {
    /// The bytes from here on are refused under all settings, by this error.
    Blocked(DecodeError),
    /// The instruction has the EVEX mark (Intel SDM volume 2, section 2.7), which no least settings are known for.
    Marked,
}

/// The first place of a run that has no least settings.
#[derive(Clone, Copy, PartialEq, Eq, Debug)]
pub struct RunFault {
    /// How many bytes of the run stand before it.
    pub place: usize,
    /// Why.
    pub cause: RunCause,
}
