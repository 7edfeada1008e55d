//! The checks of a form, which stand between what is read.

/// A check that a form makes. Where it fails, the bytes are refused: as `InvalidOpcode` by `Group`, and as
/// `InvalidOperand` by every other.
#[derive(Clone, Copy, PartialEq, Eq, Debug, Default)]
pub enum Check {
    /// The field vvvv is 0, which stands as 1111 in the bytes, so that it names no operand (Intel SDM volume 2, section
    /// 2.3.5.6).
    // A list that takes no memory fills its free places with it.
    #[default]
    V0,
    /// The field L is 0, for vectors of 128 bits (section 2.3.6.2).
    L0,
    /// The operand E is a register: the field mod of ModRM is 3 (section 2.1.3).
    Reg,
    /// The operand E is in memory: mod is not 3.
    Mem,
    /// The field reg of ModRM is one of the form's groups (section 2.1.3).
    Group,
    /// The field vvvv is 0 where the operand E is in memory.
    VifMem,
}
