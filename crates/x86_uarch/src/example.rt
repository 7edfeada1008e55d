//! The example at the head of the crate.

use crate::{intel, profile};
use std::test::Fail;

#[test]
fn a_profile_is_found_by_its_name(rt: HostRuntime) -> Result<(), Fail> {
    let haswell = profile("haswell").ok_or("a profile")?;
    assert!(rt; haswell == intel::haswell());
    assert!(rt; haswell.avx2() && !haswell.avx512_f());
    Ok(())
}
