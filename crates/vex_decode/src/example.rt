//! The example at the head of the crate.

use crate::Decoder;
use std::test::Fail;
use x86_operand::{DecodeError, Opcode};
use x86_settings::InstDecoder;

#[test]
fn an_instruction_is_decoded_from_a_slice(rt: HostRuntime) -> Result<(), Fail> {
    // VADDPS x0, x1, x2, and a byte of what comes next.
    let bytes = [0xC5, 0xF0, 0x58, 0xC2, 0xC5];
    let sum = InstDecoder::default()
        .decode_slice(&bytes)
        .map_err(|_| "a spelling")?;
    assert!(rt; sum.opcode().is(Opcode::VADDPS));
    assert_eq!(rt; (sum.operand_count(), sum.len()), (3, 4));
    let refused = InstDecoder::minimal().decode_slice(&bytes);
    assert_eq!(rt; refused, Err(DecodeError::InvalidOpcode));
    Ok(())
}
