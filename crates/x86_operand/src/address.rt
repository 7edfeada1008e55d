//! Operands, and the addresses among them.

ghost use Rattle.std.specs.Prelude.{◌≡◌, ◌↔◌, IsTrue};

use crate::register::RegSpec;

/// An index register and the factor that it is multiplied by.
#[derive(Clone, Copy, Debug)]
pub struct Index {
    /// The register.
    pub reg: RegSpec,
    /// The factor: 1, 2, 4 or 8 in every address that bytes can spell.
    pub scale: u8,
}

/// A memory address: a base, a scaled index and a displacement, each compared by itself.
#[derive(Clone, Copy, Debug)]
pub struct Address {
    /// The base register, where there is one.
    pub base: Option<RegSpec>,
    /// The scaled index, where there is one.
    pub index: Option<Index>,
    /// The displacement in bytes. An absent one is 0.
    pub disp: i32,
}

/// One operand.
#[derive(Clone, Copy, Debug)]
pub enum Operand {
    /// A register.
    Register { reg: RegSpec },
    /// A signed immediate.
    ImmediateI8 { imm: i8 },
    /// An unsigned immediate.
    ImmediateU8 { imm: u8 },
    /// The address with this base, no index and displacement 0.
    MemDeref { base: RegSpec },
    /// An address.
    Memory { address: Address },
    /// No operand.
    Nothing,
}

/// Two indices are equal where register and scale are.
impl PartialEq for Index {
    ghost use Rattle.std.specs.Cmp.{decided, partial_equiv_from_equiv};
    ghost use Rattle.x86_operand.specs.Same.{same_index};
    ghost use Rattle.x86_operand.specs.Same.Lemmas.{same_index_decides};

    ghost eq = { same_index };

    ghost laws = { partial_equiv_from_equiv (decided same_index same_index_decides) };

    fn eq(&self, other: &Index) -> bool
        ensures same { IsTrue result ↔ (self.now ≡ other.now) }
    {
        self.reg == other.reg && self.scale == other.scale
    }
}

impl Eq for Index {
    ghost use Rattle.std.specs.Cmp.{decided};
    ghost use Rattle.x86_operand.specs.Same.{same_index};
    ghost use Rattle.x86_operand.specs.Same.Lemmas.{same_index_decides};

    ghost laws = { decided same_index same_index_decides };
}

/// Two addresses are equal where base, index and displacement are, whatever their sums.
impl PartialEq for Address {
    ghost use Rattle.std.specs.Cmp.{decided, partial_equiv_from_equiv};
    ghost use Rattle.x86_operand.specs.Same.{same_address};
    ghost use Rattle.x86_operand.specs.Same.Lemmas.{same_address_decides};

    ghost eq = { same_address };

    ghost laws = { partial_equiv_from_equiv (decided same_address same_address_decides) };

    #[tactic(auto, using(crate::specs::Same::Lemmas::address_parts))]
    fn eq(&self, other: &Address) -> bool
        ensures same { IsTrue result ↔ (self.now ≡ other.now) }
    {
        self.base == other.base && self.index == other.index && self.disp == other.disp
    }
}

impl Eq for Address {
    ghost use Rattle.std.specs.Cmp.{decided};
    ghost use Rattle.x86_operand.specs.Same.{same_address};
    ghost use Rattle.x86_operand.specs.Same.Lemmas.{same_address_decides};

    ghost laws = { decided same_address same_address_decides };
}

impl Operand {
    ghost use Rattle.x86_operand.specs.Meaning.{operand_meaning, address_of, number_of};
    ghost use Rattle.x86_operand.specs.Instruction.{kept_operand};

    /// The number of a register, and 0 of all else.
    pub fn number(&self) -> u8
        ensures { result ≡ number_of (operand_meaning self.now) }
    {
        match *self {
            Operand::Register { reg } => reg.num(),
            Operand::ImmediateI8 { .. }
            | Operand::ImmediateU8 { .. }
            | Operand::MemDeref { .. }
            | Operand::Memory { .. }
            | Operand::Nothing => 0,
        }
    }

    /// The address that a memory operand means, in whichever form it is written, and `None` of all else.
    pub fn address(&self) -> Option<Address>
        ensures { result ≡ address_of (operand_meaning self.now) }
    {
        match *self {
            Operand::MemDeref { base } => Some(Address {
                base: Some(base),
                index: None,
                disp: 0,
            }),
            Operand::Memory { address } => Some(address),
            _ => None,
        }
    }

    /// The operand in the form in which an instruction keeps it.
    pub(crate) fn kept(&self) -> Operand
        ensures { result ≡ kept_operand (operand_meaning self.now) }
    {
        match *self {
            Operand::Memory {
                address: Address {
                    base: Some(base),
                    index: None,
                    disp: 0,
                },
            } => Operand::MemDeref { base },
            other => other,
        }
    }
}

/// Two operands are equal where they mean the same: a `MemDeref` equals the `Memory` of its
/// address.
impl PartialEq for Operand {
    ghost use Rattle.std.specs.Cmp.{decided, on_equiv, partial_equiv_from_equiv};
    ghost use Rattle.std.specs.Ordering.{on};
    ghost use Rattle.x86_operand.specs.Meaning.{operand_meaning};
    ghost use Rattle.x86_operand.specs.Same.{same_operand};
    ghost use Rattle.x86_operand.specs.Same.Lemmas.{same_operand_decides};

    ghost eq = { on operand_meaning same_operand };

    ghost laws = { partial_equiv_from_equiv (on_equiv operand_meaning (decided same_operand same_operand_decides)) };

    #[tactic(auto, using(crate::specs::Same::Lemmas::address_parts))]
    fn eq(&self, other: &Operand) -> bool
        ensures same { IsTrue result ↔ (operand_meaning self.now ≡ operand_meaning other.now) }
    {
        match (self, other) {
            (Operand::Register { reg: one }, Operand::Register { reg: two }) => one == two,
            (Operand::ImmediateI8 { imm: one }, Operand::ImmediateI8 { imm: two }) => one == two,
            (Operand::ImmediateU8 { imm: one }, Operand::ImmediateU8 { imm: two }) => one == two,
            (Operand::Nothing, Operand::Nothing) => true,
            _ => match (self.address(), other.address()) {
                (Some(one), Some(two)) => one == two,
                _ => false,
            },
        }
    }
}

impl Eq for Operand {
    ghost use Rattle.std.specs.Cmp.{decided, on_equiv};
    ghost use Rattle.x86_operand.specs.Meaning.{operand_meaning};
    ghost use Rattle.x86_operand.specs.Same.{same_operand};
    ghost use Rattle.x86_operand.specs.Same.Lemmas.{same_operand_decides};

    ghost laws = { on_equiv operand_meaning (decided same_operand same_operand_decides) };
}
