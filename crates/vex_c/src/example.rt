//! The example at the head of the crate.

use crate::decoding::vex_decode;
use crate::encoding::vex_encode;
use std::test::Fail;
use vex_calls::{FlatBytes, FlatInstruction, FlatSettings};

#[test]
fn bytes_are_decoded_and_encoded(rt: HostRuntime) -> Result<(), Fail> {
    let all = FlatSettings {
        low: u64::MAX,
        high: u64::MAX,
    };
    let mut sum = FlatInstruction::default();
    let mut shortest = FlatBytes::default();
    assert_eq!(rt;
        vex_decode(&all, &[0xC4, 0xE1, 0x70, 0x58, 0xC2], &mut sum),
        0
    );
    assert_eq!(rt; vex_encode(&sum, &mut shortest), 0);
    assert_eq!(rt; (sum.length, shortest.length), (5, 4));
    Ok(())
}
