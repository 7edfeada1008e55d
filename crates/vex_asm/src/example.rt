//! The example at the head of the crate.

use crate::{AsmError, assemble};
use std::test::Fail;

#[test]
fn a_text_is_assembled(rt: HostRuntime) -> Result<(), Fail> {
    let sum = assemble(b"VADDPS x0 x1 x2 0").map_err(|_| "the text of a meaning")?;
    assert_eq!(rt; sum.as_slice(), [0xC5, 0xF0, 0x58, 0xC2].as_slice());
    assert_eq!(rt;
        assemble(b"VADDPS x0 x1 x99 0").err(),
        Some(AsmError::BadText)
    );
    Ok(())
}
