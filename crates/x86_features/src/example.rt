//! The example at the head of the crate.

use crate::{Processor, features_of};
use std::test::Fail;
use x86_operand::{Instruction, Opcode, Operand, RegSpec, RegisterBank};

#[test]
fn an_instruction_needs_a_processor(rt: HostRuntime) -> Result<(), Fail> {
    // VPADDD y0, y0, y0
    let reg = RegSpec::of(RegisterBank::Y, 0).ok_or("there are 32 of them")?;
    let operands = [Operand::Register { reg }; 3];
    let sum = Instruction::from_parts(false, Opcode::VPADDD, &operands, None).ok_or("three")?;
    let needed = features_of(&sum);
    assert!(rt; needed.avx2 && !needed.avx);
    assert!(rt; Processor::Haswell.has_all(&needed));
    assert!(rt; !Processor::Ivybridge.has_all(&needed));
    Ok(())
}
