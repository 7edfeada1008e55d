//! The example at the head of the crate.

use crate::{least_settings, revise_instruction};
use x86_operand::{DecodeError, Instruction, Opcode};
use x86_settings::InstDecoder;

#[test]
fn an_instruction_needs_its_settings(rt: HostRuntime) {
    let mut rotation = Instruction::of(Opcode::RORX, false);
    let old = InstDecoder::minimal().with_avx();
    assert_eq!(rt;
        revise_instruction(&old, &mut rotation),
        Err(DecodeError::InvalidOpcode)
    );
    assert!(rt; revise_instruction(&old.with_bmi2(), &mut rotation).is_ok());
    assert!(rt; least_settings(&rotation) == Some(InstDecoder::minimal().with_bmi2()));
}
