//! The example at the head of the crate.

use crate::{Condition, Opcode};
use std::test::Fail;

#[test]
fn an_opcode_has_its_name_and_condition(rt: HostRuntime) -> Result<(), Fail> {
    let opcode = Opcode::named("RORX").ok_or("a name")?;
    assert!(rt; opcode.is(Opcode::RORX));
    assert_eq!(rt; opcode.name(), "RORX");
    assert_eq!(rt; opcode.condition(), Condition::Bmi2);
    Ok(())
}
