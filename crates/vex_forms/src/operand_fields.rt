//! The numbers in the bytes of an instruction that its operands are named by.

ghost use Rattle.std.specs.Prelude.{◌<◌};
ghost use Rattle.vex_forms.specs.Operands.{BanksFit, NumberFits};

use crate::operand_e::OperandE;

/// What the slots of a row take their operands from.
#[derive(Clone, Copy, Debug)]
pub struct OperandFields {
    /// The prefix bit R (Intel SDM volume 2, section 2.3.5.2).
    pub r: bool,
    /// The field vvvv, below 16 (section 2.3.5.6).
    pub vvvv: u8,
    /// The field reg of ModRM, below 8, or 0 without ModRM.
    pub reg: u8,
    /// The operand E. A register's number is below 16; the base of an address is of bank `Q` or the instruction
    /// pointer, and its index of bank `Q`.
    pub e: OperandE,
    /// The immediate byte, or 0 where there is none.
    pub imm: u8,
    ghost vvvv_fits: { vvvv < 16 },
    ghost reg_fits: { reg < 8 },
    ghost number_fits: { NumberFits e },
    ghost banks_fit: { BanksFit e },
}
