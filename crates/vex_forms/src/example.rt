//! The example at the head of the crate.

use crate::{Slot, layout};
use std::test::Fail;
use vex_rows::{Entry, Form, Map, Pp, Rule};
use x86_operand::RegisterBank::Y;
use x86_operand::{MemoryAccessSize, Opcode};

#[test]
fn a_row_has_its_layout(rt: HostRuntime) -> Result<(), Fail> {
    let entry = Entry {
        map: Map::Map0F,
        pp: Pp::Plain,
        byte: 0x58,
        w: Rule::Any,
        l: Rule::Any,
        form: Form::G_V_E_xyLmm,
        opcode: Opcode::VADDPS,
    };
    // W 0, L 1, and the operand E in memory.
    let row = layout(&entry, false, true, true, 0).ok_or("a row")?;
    assert_eq!(rt;
        row.slots.as_slice(),
        [Slot::G(Y), Slot::V(Y), Slot::E(Y)].as_slice()
    );
    assert_eq!(rt; row.mem_size, MemoryAccessSize::of(32));
    Ok(())
}
