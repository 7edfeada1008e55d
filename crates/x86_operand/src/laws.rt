//! What holds of every value that the code has.

ghost use Rattle.std.specs.Prelude.{◌≤◌, IfSome};
ghost use Rattle.x86_operand.specs.Instruction.{operand_at};
ghost use Rattle.x86_operand.specs.Meaning.{operand_meaning};
ghost use Rattle.x86_operand.specs.Range.{IsMeaning, IsOperand};

use crate::address::Operand;
use crate::instruction::Instruction;
use crate::size::MemoryAccessSize;

/// The law on operands: each means something in range.
pub fn operand_in_range(operand: Operand)
    ensures { IsOperand (operand_meaning operand) }
{
    let _meant = operand;
}

/// The law on sizes: each is 1 to 64.
pub fn size_in_range(size: MemoryAccessSize)
    ensures { (1 ≤ size) × (size ≤ 64) }
{
    let _bytes = size.bytes_size();
}

/// The law on instructions: the meaning of each is in range.
pub fn instruction_in_range(inst: Instruction)
    ensures { IsMeaning inst.meaning }
{
    let _count = inst.operand_count();
    place_in_range(&inst, 0);
    place_in_range(&inst, 1);
    place_in_range(&inst, 2);
    place_in_range(&inst, 3);
    memory_in_range(&inst);
}

/// What stands at a place is in range.
fn place_in_range(inst: &Instruction, i: u8)
    ensures { IsOperand (operand_at inst.now.meaning.operands i) }
{
    operand_in_range(inst.operand(i));
}

/// The size of the memory operand, where there is one, is in range.
fn memory_in_range(inst: &Instruction)
    ensures { IfSome inst.now.meaning.size (λ n. (1 ≤ n) × (n ≤ 64)) }
{
    match inst.mem_size() {
        Some(size) => size_in_range(size),
        None => {}
    }
}
