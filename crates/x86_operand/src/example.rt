//! The example at the head of the crate.

use crate::{Instruction, MemoryAccessSize, Opcode, Operand, RegSpec, RegisterBank};
use std::test::Fail;

#[test]
fn an_instruction_is_made_of_its_parts(rt: HostRuntime) -> Result<(), Fail> {
    // VMOVAPS x1, [rax]
    let x1 = RegSpec::of(RegisterBank::X, 1).ok_or("there are 32 of them")?;
    let from = Operand::MemDeref {
        base: RegSpec::rax(),
    };
    let operands = [Operand::Register { reg: x1 }, from];
    let size = MemoryAccessSize::of(16);
    let load = Instruction::from_parts(false, Opcode::VMOVAPS, &operands, size).ok_or(
        "two operands",
    )?;
    assert_eq!(rt; load.operand_count(), 2);
    assert_eq!(rt; load.operand(1), from);
    assert_eq!(rt; load.mem_size(), size);
    Ok(())
}
