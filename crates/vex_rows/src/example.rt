//! The example at the head of the crate.

ghost use Rattle.std.specs.Prelude.{◌≡◌, ◌<◌};

use crate::{Entry, Key, Map, Pp, lookup, row_of_form};
use std::marker::Brand;
use std::sync::ledger::{Blank, Ledger};
use std::test::Fail;
use step_counter::Steps;
use x86_operand::Opcode;

// A caller that counts no steps makes a counter of its own.
fn look_up<L: Ledger>(key: &Key, blank: Blank) -> Option<Entry>
    requires name { blank.name ≡ L.name }
    requires parts { blank.parts ≡ L.parts }
    requires some { 0 < blank.parts }
{
    lookup(key, &mut Steps::<L>::new(blank))
}

#[test]
fn an_entry_is_found_by_its_key(rt: HostRuntime) -> Result<(), Fail> {
    let key = Key {
        map: Map::Map0F,
        pp: Pp::Plain,
        byte: 0x58,
        w: false,
        l: false,
    };
    let entry = look_up::<Brand>(&key, Blank::new(1)).ok_or("VADDPS")?;
    assert!(rt; entry.opcode.is(Opcode::VADDPS));
    let form = row_of_form(entry.form);
    assert!(rt; form.modrm && !form.imm);
    Ok(())
}
