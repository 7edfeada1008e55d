//! The example at the head of the crate.

use crate::{accepts, check};
use std::test::Fail;
use x86_settings::InstDecoder;

#[test]
fn a_run_needs_settings(rt: HostRuntime) -> Result<(), Fail> {
    // VMOVSS x0, [rdi] and RORX eax, ecx, 5.
    let run = [0xC5, 0xFA, 0x10, 0x07, 0xC4, 0xE3, 0x7B, 0xF0, 0xC1, 0x05];
    let needs = check(&run).map_err(|_| "two instructions")?;
    assert_eq!(rt; needs.count, 2);
    assert!(rt; needs.least == InstDecoder::minimal().with_avx().with_bmi2());
    assert!(rt; accepts(&InstDecoder::default(), &needs));
    Ok(())
}
