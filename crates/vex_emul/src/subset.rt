//! Which instructions are of the subset, and what each does.

ghost use Rattle.std.specs.Prelude.{◌≡◌, ◌<◌, IfSome, option_map};
ghost use Rattle.x86_operand.specs.Meaning.{operand_meaning, memory};
ghost use Rattle.vex_emul.specs.declared.work.Location.TheVariants.{Memory};
ghost use Rattle.vex_emul.specs.Machine.{place_of};
ghost use Rattle.vex_emul.specs.Work.{IsLocation, IsWork};
ghost use Rattle.vex_emul.specs.Subset.{kind_of, vector_in, same_width, source_of, combine_of, move_of, move_to};
ghost use Rattle.vex_emul.specs.Subset.{work_of};

use crate::machine::Machine;
use crate::operation::{Lane, Operation};
use crate::work::{Location, Work};
use x86_opcode::{IntegerOpcode, Opcode};
use x86_operand::{Address, Instruction, Operand, RegSpec, RegisterBank};

/// What kind of instruction an opcode of the subset names.
#[derive(Clone, Copy)]
pub enum Kind {
    /// All vectors lose their bytes from 16 on.
    ZeroesUpper,
    /// All vectors become 0.
    ZeroesAll,
    /// A copy of an operand into another.
    Moves,
    /// An operation on two operands.
    Combines(Operation),
}

/// The kind of instruction that the opcode names, `None` where it isn't one of the eighteen.
#[tactic(auto, unfolding(crate::specs::Subset::kind_of))]
fn kind_of(opcode: Opcode) -> Option<Kind>
    ensures { result ≡ kind_of opcode }
{
    match opcode {
        Opcode::Integer(name) => match name {
            IntegerOpcode::VPADDB => Some(Kind::Combines(Operation::Add(Lane::Byte))),
            IntegerOpcode::VPADDW => Some(Kind::Combines(Operation::Add(Lane::Word))),
            IntegerOpcode::VPADDD => Some(Kind::Combines(Operation::Add(Lane::Doubleword))),
            IntegerOpcode::VPADDQ => Some(Kind::Combines(Operation::Add(Lane::Quadword))),
            IntegerOpcode::VPSUBB => Some(Kind::Combines(Operation::Subtract(Lane::Byte))),
            IntegerOpcode::VPSUBW => Some(Kind::Combines(Operation::Subtract(Lane::Word))),
            IntegerOpcode::VPSUBD => Some(Kind::Combines(Operation::Subtract(Lane::Doubleword))),
            IntegerOpcode::VPSUBQ => Some(Kind::Combines(Operation::Subtract(Lane::Quadword))),
            IntegerOpcode::VPAND => Some(Kind::Combines(Operation::And)),
            IntegerOpcode::VPANDN => Some(Kind::Combines(Operation::AndNot)),
            IntegerOpcode::VPOR => Some(Kind::Combines(Operation::Or)),
            IntegerOpcode::VPXOR => Some(Kind::Combines(Operation::Xor)),
            IntegerOpcode::VPCMPEQB => Some(Kind::Combines(Operation::Equal(Lane::Byte))),
            IntegerOpcode::VPCMPEQW => Some(Kind::Combines(Operation::Equal(Lane::Word))),
            IntegerOpcode::VPCMPEQD => Some(Kind::Combines(Operation::Equal(Lane::Doubleword))),
            IntegerOpcode::VMOVDQU => Some(Kind::Moves),
            IntegerOpcode::VZEROUPPER => Some(Kind::ZeroesUpper),
            IntegerOpcode::VZEROALL => Some(Kind::ZeroesAll),
            _ => None,
        },
        _ => None,
    }
}

/// A vector register that the machine has: whether its operand is wide, and its number.
#[tactic(auto, unfolding(crate::specs::Subset::vector_in))]
fn vector_of(reg: RegSpec) -> Option<(bool, u8)>
    ensures value { result ≡ vector_in reg.bank reg.num }
    ensures within { IfSome result (λ v. v.1 < 16) }
{
    let num = reg.num();
    match reg.bank() {
        RegisterBank::X if num < 16 => Some((false, num)),
        RegisterBank::Y if num < 16 => Some((true, num)),
        _ => None,
    }
}

/// A register as a location, where it is as wide.
fn vector_location(wide: bool, reg: RegSpec) -> Option<Location>
    ensures value { result ≡ same_width wide (vector_in reg.bank reg.num) }
    ensures within { IfSome result IsLocation }
{
    let (is_wide, num) = vector_of(reg)?;
    if is_wide == wide {
        Some(Location::Vector { num })
    } else {
        None
    }
}

impl<'a> Machine<'a> {
    /// The location that an address means.
    fn memory_location(&self, address: Address) -> Option<Location>
        ensures value { result ≡ option_map Memory (place_of self.now.q address) }
        ensures within { IfSome result IsLocation }
    {
        let place = self.place_of(address)?;
        Some(Location::Memory { place })
    }

    /// The location of an operand, in an instruction whose vectors are as wide.
    #[tactic(auto, unfolding(crate::specs::Subset::source_of))]
    fn source_of(&self, wide: bool, operand: Operand) -> Option<Location>
        ensures value { result ≡ source_of self.now.q wide (operand_meaning operand) }
        ensures within { IfSome result IsLocation }
    {
        match operand {
            Operand::Register { reg } => vector_location(wide, reg),
            _ => match operand.address() {
                Some(address) => self.memory_location(address),
                None => None,
            },
        }
    }

    /// An instruction on two operands, with the result in a vector.
    #[tactic(auto, unfolding(crate::specs::Subset::combine_of))]
    fn combine_of(
        &self,
        operation: Operation,
        dest: Operand,
        first: Operand,
        second: Operand,
    ) -> Option<Work>
        ensures value { result ≡ combine_of self.now.q operation
            (operand_meaning dest) (operand_meaning first) (operand_meaning second) }
        ensures within { IfSome result IsWork }
    {
        let Operand::Register { reg: dest } = dest else {
            return None;
        };
        let Operand::Register { reg: first } = first else {
            return None;
        };
        let (wide, dest) = vector_of(dest)?;
        let (first_wide, first) = vector_of(first)?;
        let second = self.source_of(wide, second)?;
        if first_wide != wide {
            return None;
        }
        Some(Work::Combine {
            operation,
            wide,
            dest,
            first,
            second,
        })
    }

    /// A move into a vector register.
    fn move_to(&self, dest: RegSpec, source: Operand) -> Option<Work>
        ensures value { result ≡ move_to self.now.q (vector_in dest.bank dest.num) (operand_meaning source) }
        ensures within { IfSome result IsWork }
    {
        let (wide, num) = vector_of(dest)?;
        let source = self.source_of(wide, source)?;
        Some(Work::Move {
            wide,
            dest: Location::Vector { num },
            source,
        })
    }

    /// A move of a vector register into the memory.
    #[tactic(auto, unfolding(crate::specs::Subset::move_of))]
    fn move_from(&self, address: Address, source: Operand) -> Option<Work>
        ensures value { result ≡ move_of self.now.q (memory address) (operand_meaning source) }
        ensures within { IfSome result IsWork }
    {
        let Operand::Register { reg } = source else {
            return None;
        };
        let place = self.place_of(address)?;
        let (wide, num) = vector_of(reg)?;
        Some(Work::Move {
            wide,
            dest: Location::Memory { place },
            source: Location::Vector { num },
        })
    }

    /// A move, of which one operand is a vector register.
    #[tactic(auto, unfolding(crate::specs::Subset::move_of))]
    fn move_of(&self, dest: Operand, source: Operand) -> Option<Work>
        ensures value { result ≡ move_of self.now.q (operand_meaning dest) (operand_meaning source) }
        ensures within { IfSome result IsWork }
    {
        match dest {
            Operand::Register { reg } => self.move_to(reg, source),
            _ => match dest.address() {
                Some(address) => self.move_from(address, source),
                None => None,
            },
        }
    }

    /// What an instruction of the subset does, or `None` where it isn't of the subset.
    #[tactic(auto, unfolding(crate::specs::Subset::work_of))]
    pub(crate) fn work_of(&self, instruction: &Instruction) -> Option<Work>
        ensures value { result ≡ work_of self.now.q instruction.now.meaning }
        ensures within { IfSome result IsWork }
    {
        if instruction.is_evex() {
            return None;
        }
        let first = instruction.operand(0);
        let second = instruction.operand(1);
        let third = instruction.operand(2);
        match kind_of(instruction.opcode())? {
            Kind::ZeroesUpper => Some(Work::ZeroUpper),
            Kind::ZeroesAll => Some(Work::ZeroAll),
            Kind::Moves => self.move_of(first, second),
            Kind::Combines(operation) => self.combine_of(operation, first, second, third),
        }
    }
}
