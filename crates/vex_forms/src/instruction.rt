//! The instruction that a row and the numbers of its operands mean.

ghost use Rattle.std.specs.Prelude.{◌≡◌, ◌≤◌, false, length, map, true};
ghost use Rattle.x86_address.specs.Bytes.{bit};
ghost use Rattle.vex_rows.specs.Row.{Row};
ghost use Rattle.vex_forms.specs.Gives.{gives, slot_operand};
ghost use Rattle.vex_forms.specs.Layout.{IsLayout, chosen};
ghost use Rattle.vex_forms.specs.Operands.{has_sixteen, slots_fit, target_seen};

use crate::choice::Choice;
use crate::operand_fields::OperandFields;
use crate::operands::add_operand;
use crate::row_layout::RowLayout;
use crate::slot::Slot;
use x86_operand::{Instruction, MemoryAccessSize, Opcode, RegisterBank};

/// Writes the opcode, the memory size and an operand for each of at most four slots in order, whatever the instruction
/// held. It writes in place, since an instruction is copied at each return.
#[inline(always)]
fn write_parts(
    opcode: Opcode,
    slots: &[Slot],
    index_bank: RegisterBank,
    mem_size: Option<MemoryAccessSize>,
    fields: &OperandFields,
    instruction: &mut Instruction,
)
    requires { length slots.now ≤ 4 }
    ensures meaning { slots_fit slots.now ≡ true → has_sixteen index_bank ≡ true → instruction.new.meaning
        ≡ record {
          evex = false;
          opcode = opcode;
          operands = map (slot_operand index_bank (bit fields.now.r) fields.now.vvvv fields.now.reg
              (target_seen fields.now.e) fields.now.imm) slots.now;
          size = mem_size;
        } }
    ensures length { instruction.new.len ≡ 0 }
{
    instruction.reset(opcode, false);
    instruction.set_mem_size(mem_size);
    for slot in slots {
        add_operand(*slot, index_bank, fields, instruction);
    }
}

/// The instruction that a row means with these numbers: the row's opcode and memory size, and an operand for each slot
/// in order (Intel SDM volume 2, sections 2.3.5.2, 2.3.5.6, 2.3.8 and 2.3.9). Its length is 0.
pub fn instruction_of(layout: &RowLayout, fields: &OperandFields) -> Instruction
    ensures meaning { (row : Row) → IsLayout row layout.now → result.meaning
        ≡ gives row (bit fields.now.r) fields.now.vvvv fields.now.reg (target_seen fields.now.e) fields.now.imm }
    ensures length { result.len ≡ 0 }
{
    let mut instruction = Instruction::default();
    write_parts(
        layout.opcode,
        layout.slots.as_slice(),
        layout.index_bank,
        layout.mem_size,
        fields,
        &mut instruction,
    );
    instruction
}

impl Choice {
    /// Writes the instruction that the row means with these numbers, as `instruction_of` makes it of the row's layout.
    pub fn write_instruction(&self, fields: &OperandFields, instruction: &mut Instruction)
        ensures meaning { instruction.new.meaning
            ≡ gives (chosen self.now) (bit fields.now.r) fields.now.vvvv fields.now.reg (target_seen fields.now.e)
            fields.now.imm }
        ensures length { instruction.new.len ≡ 0 }
    {
        let (shape, index_bank) = self.shape_and_index_bank();
        let (a, b, c, d) = shape.slots;
        let four = [a, b, c, d];
        // A shape has no more than four.
        let slots = &four[..usize::from(shape.slot_count.min(4))];
        write_parts(
            self.opcode(),
            slots,
            index_bank,
            self.memory_size(),
            fields,
            instruction,
        );
    }
}
