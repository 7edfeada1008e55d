//! The example at the head of the crate.

use crate::recode;
use std::test::Fail;
use x86_settings::InstDecoder;

#[test]
fn an_instruction_is_recoded(rt: HostRuntime) -> Result<(), Fail> {
    // VADDPS x0, x1, x2 with a prefix of three bytes where two are enough.
    let bytes = [0xC4, 0xE1, 0x70, 0x58, 0xC2];
    let (sum, shortest) = recode(&InstDecoder::default(), &bytes).map_err(|_| "a spelling")?;
    assert_eq!(rt; sum.len(), 5);
    assert_eq!(rt; shortest.as_slice(), [0xC5, 0xF0, 0x58, 0xC2].as_slice());
    Ok(())
}
