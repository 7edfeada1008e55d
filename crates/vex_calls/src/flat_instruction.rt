//! An instruction as numbers.

ghost use Rattle.std.specs.Prelude.{◌≡◌, option_map, take, unwrap_or};
ghost use Rattle.x86_operand.specs.Meaning.{operand_meaning};
ghost use Rattle.vex_calls.specs.Instructions.{flat_instruction, meaning_of, size_of};

use crate::flat_operand::FlatOperand;
use crate::opcode_number::opcode_of;
use x86_operand::{Instruction, MAX_OPERANDS, MemoryAccessSize};

/// An instruction: its opcode's number, the EVEX mark, its operands, the size of its memory operand and its length.
#[repr(C)]
#[derive(Clone, Copy, PartialEq, Eq, Debug, Default)]
pub struct FlatInstruction {
    /// The number of the opcode, 0 to 550.
    pub opcode: u16,
    /// 1 where the instruction has the EVEX mark, and 0 where not. Where it goes to a call, each value but 0 is the mark.
    pub mark: u8,
    /// How many operands there are, at most 4.
    pub operand_count: u8,
    /// The size of the memory operand in bytes, 1 to 64, where 63 stands for one that the instruction alone doesn't
    /// tell; 0 where there is none.
    pub size: u8,
    /// The number of bytes that spelled the instruction. It plays no part where it goes to a call.
    pub length: u8,
    /// 0. It plays no part where it goes to a call.
    pub reserved: u16,
    /// The operands. The places past their count hold 0 where the instruction comes from a call, and play no part where
    /// it goes to one.
    pub operands: [FlatOperand; MAX_OPERANDS],
}

impl FlatInstruction {
    /// That instruction.
    #[tactic(auto, unfolding(crate::specs::Instructions::four_flat))]
    pub fn of(instruction: &Instruction) -> FlatInstruction
        ensures { result ≡ flat_instruction instruction.now }
    {
        FlatInstruction {
            opcode: instruction.opcode().number(),
            mark: u8::from(instruction.is_evex()),
            operand_count: instruction.operand_count(),
            size: size_number(instruction.mem_size()),
            length: instruction.len(),
            reserved: 0,
            operands: [
                FlatOperand::of(&instruction.operand(0)),
                FlatOperand::of(&instruction.operand(1)),
                FlatOperand::of(&instruction.operand(2)),
                FlatOperand::of(&instruction.operand(3)),
            ],
        }
    }

    /// The instruction that it is, with length 0. `None` comes exactly where there are more than four operands, the size
    /// is above 64, no opcode has the number, or an operand isn't one.
    #[tactic(auto, unfolding(crate::specs::Instructions::meaning_of))]
    pub fn instruction(&self) -> Option<Instruction>
        ensures { option_map (λ made. made.meaning) result ≡ meaning_of self.now }
    {
        let count = usize::from(self.operand_count);
        if count > MAX_OPERANDS || self.size > 64 {
            return None;
        }
        let opcode = opcode_of(self.opcode)?;
        let mut instruction = Instruction::of(opcode, self.mark != 0);
        instruction.set_mem_size(MemoryAccessSize::of(self.size));
        for flat in &self.operands[..count] {
            match flat.operand() {
                Some(operand) => instruction.push(operand),
                None => return None,
            };
        }
        Some(instruction)
    }
}

/// The size of a memory operand, 0 for none.
fn size_number(size: Option<MemoryAccessSize>) -> u8
    ensures { result ≡ unwrap_or size 0 }
{
    match size {
        Some(size) => size.bytes_size().unwrap_or(63),
        None => 0,
    }
}
