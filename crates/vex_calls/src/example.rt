//! The example at the head of the crate.

use crate::FlatInstruction;
use std::test::Fail;
use x86_operand::{Instruction, Opcode, Operand, RegSpec};

#[test]
fn an_instruction_is_made_flat_and_back(rt: HostRuntime) -> Result<(), Fail> {
    let mut negation = Instruction::of(Opcode::BLSR, false);
    assert!(rt;
        negation.push(Operand::Register {
            reg: RegSpec::rax()
        })
    );
    let mut flat = FlatInstruction::of(&negation);
    assert_eq!(rt; flat.operand_count, 1);
    assert!(rt; flat.instruction() == Some(negation));
    flat.operand_count = 5;
    assert!(rt; flat.instruction().is_none());
    Ok(())
}
