//! Slots: where an operand's number stands in the bytes.

use x86_operand::RegisterBank;

/// Where an operand stands in the bytes, and the bank of its register.
#[derive(Clone, Copy, PartialEq, Eq, Debug, Default)]
pub enum Slot {
    /// The register of the field reg of ModRM, with the prefix bit R (Intel SDM volume 2, section 2.3.5.2).
    G(RegisterBank),
    /// The register of the field vvvv (section 2.3.5.6).
    V(RegisterBank),
    /// The register of the field rm of ModRM, with the prefix bit B, or an address in memory (sections 2.3.5.4 and
    /// 2.3.8).
    E(RegisterBank),
    /// The immediate byte, unsigned.
    // An `ArrayVec` fills its free places with it.
    #[default]
    U8,
    /// The immediate byte, signed.
    I8,
    /// The register of the immediate byte's high four bits (section 2.3.9).
    R4(RegisterBank),
}

/// What a row asks of the field vvvv (Intel SDM volume 2, section 2.3.5.6).
#[derive(Clone, Copy, PartialEq, Eq, Debug)]
pub enum VvvvRule {
    /// It names an operand.
    Named,
    /// It is 0.
    Zero,
    /// It plays no part.
    Free,
}
