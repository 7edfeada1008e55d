//! An operand as numbers.

ghost use Rattle.std.specs.Prelude.{◌≡◌, option_map};
ghost use Rattle.x86_operand.specs.Meaning.{memory, operand_meaning, register};
ghost use Rattle.vex_calls.specs.Operands.{address_with, flat_operand, index_register, index_scale, no_operand, operand_of};
ghost use Rattle.vex_calls.specs.Operands.{index_with, optional_of, signed_of, unsigned_of};
ghost use Rattle.vex_calls.specs.Registers.{register_of};

use crate::flat_register::FlatRegister;
use x86_operand::{Address, Index, Operand, RegSpec};

/// An operand: its kind, and each part in a place of its own. Places that the kind doesn't use hold 0 where the operand
/// comes from a call, and play no part where it goes to one.
#[repr(C)]
#[derive(Clone, Copy, PartialEq, Eq, Debug, Default)]
pub struct FlatOperand {
    /// 1 for a register, 2 for a signed and 3 for an unsigned immediate, 4 for an address, 0 for no operand.
    pub kind: u8,
    /// The factor of the index of an address, 0 where there is none.
    pub scale: u8,
    /// The register.
    pub reg: FlatRegister,
    /// The base of an address.
    pub base: FlatRegister,
    /// The index of an address.
    pub index: FlatRegister,
    /// The displacement of an address.
    pub displacement: i32,
    /// The immediate: from -128 to 127 where it is signed, and from 0 to 255 where not.
    pub immediate: i32,
}

impl FlatOperand {
    /// No operand.
    pub fn none() -> FlatOperand
        ensures { result ≡ no_operand }
    {
        FlatOperand {
            kind: 0,
            scale: 0,
            reg: FlatRegister::none(),
            base: FlatRegister::none(),
            index: FlatRegister::none(),
            displacement: 0,
            immediate: 0,
        }
    }

    /// That operand.
    pub fn of(operand: &Operand) -> FlatOperand
        ensures { result ≡ flat_operand (operand_meaning operand.now) }
    {
        match *operand {
            Operand::Register { reg } => FlatOperand {
                kind: 1,
                reg: FlatRegister::of(reg),
                ..FlatOperand::none()
            },
            Operand::ImmediateI8 { imm } => FlatOperand {
                kind: 2,
                immediate: i32::from(imm),
                ..FlatOperand::none()
            },
            Operand::ImmediateU8 { imm } => FlatOperand {
                kind: 3,
                immediate: i32::from(imm),
                ..FlatOperand::none()
            },
            Operand::MemDeref { base } => FlatOperand {
                kind: 4,
                base: FlatRegister::of(base),
                ..FlatOperand::none()
            },
            Operand::Memory { address } => flat_address(&address),
            Operand::Nothing => FlatOperand::none(),
        }
    }

    /// The operand that it is, and `None` exactly where there is no such kind, a register isn't one of its bank, or an
    /// immediate doesn't fit into its byte.
    #[tactic(auto, unfolding(crate::specs::Operands::operand_of))]
    pub fn operand(&self) -> Option<Operand>
        ensures { option_map operand_meaning result ≡ operand_of self.now }
    {
        match self.kind {
            0 => Some(Operand::Nothing),
            1 => register_operand(&self.reg),
            2 => signed_operand(self.immediate),
            3 => unsigned_operand(self.immediate),
            4 => address_operand(self),
            _ => None,
        }
    }
}

/// An address, flat.
fn flat_address(address: &Address) -> FlatOperand
    ensures { result ≡ flat_operand (memory address.now) }
{
    FlatOperand {
        kind: 4,
        scale: scale_of(address.index),
        base: FlatRegister::of_optional(address.base),
        index: FlatRegister::of_optional(register_of(address.index)),
        displacement: address.disp,
        ..FlatOperand::none()
    }
}

/// The register of an index.
fn register_of(index: Option<Index>) -> Option<RegSpec>
    ensures { result ≡ index_register index }
{
    match index {
        Some(index) => Some(index.reg),
        None => None,
    }
}

/// The scale of an index.
fn scale_of(index: Option<Index>) -> u8
    ensures { result ≡ index_scale index }
{
    match index {
        Some(index) => index.scale,
        None => 0,
    }
}

/// The operand of a register.
fn register_operand(reg: &FlatRegister) -> Option<Operand>
    ensures { option_map operand_meaning result ≡ option_map register (register_of reg.now) }
{
    match reg.register() {
        Some(reg) => Some(Operand::Register { reg }),
        None => None,
    }
}

/// The operand of a signed immediate.
fn signed_operand(immediate: i32) -> Option<Operand>
    ensures { option_map operand_meaning result ≡ signed_of immediate }
{
    if -128 <= immediate && immediate <= 127 {
        let imm = immediate as i8;
        Some(Operand::ImmediateI8 { imm })
    } else {
        None
    }
}

/// The operand of an unsigned immediate.
fn unsigned_operand(immediate: i32) -> Option<Operand>
    ensures { option_map operand_meaning result ≡ unsigned_of immediate }
{
    if 0 <= immediate && immediate <= 255 {
        let imm = immediate as u8;
        Some(Operand::ImmediateU8 { imm })
    } else {
        None
    }
}

/// A register that may be missing.
fn optional(reg: &FlatRegister) -> Option<Option<RegSpec>>
    ensures { result ≡ optional_of reg.now }
{
    if reg.bank == 0 {
        return Some(None);
    }
    match reg.register() {
        Some(reg) => Some(Some(reg)),
        None => None,
    }
}

/// The index of a register and a scale.
fn index_with(scale: u8, reg: Option<RegSpec>) -> Option<Index>
    ensures { result ≡ index_with scale reg }
{
    match reg {
        Some(reg) => Some(Index { reg, scale }),
        None => None,
    }
}

/// The operand of an address.
fn address_operand(flat: &FlatOperand) -> Option<Operand>
    ensures { option_map operand_meaning result
        ≡ address_with (optional_of flat.now.base) (optional_of flat.now.index) flat.now.scale flat.now.displacement }
{
    let base = optional(&flat.base)?;
    let index = optional(&flat.index)?;
    Some(Operand::Memory {
        address: Address {
            base,
            index: index_with(flat.scale, index),
            disp: flat.displacement,
        },
    })
}
