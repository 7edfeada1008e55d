//! The example at the head of the crate.

use crate::InstDecoder;

#[test]
fn settings_are_set_one_by_one(rt: HostRuntime) {
    let settings = InstDecoder::minimal().with_avx().with_bmi2();
    assert!(rt; settings.avx() && settings.bmi2());
    assert!(rt; !settings.avx2());
    assert!(rt; InstDecoder::default().avx2());
}
