//! The example at the head of the crate.

use crate::{read_address, shortest_address};
use std::test::Fail;
use x86_operand::{Index, RegSpec};
use x86_reader::U8Reader;

#[test]
fn an_address_is_read_and_written(rt: HostRuntime) -> Result<(), Fail> {
    // ModRM 44 names an address with SIB, here 88, and eight bits of displacement: [rax + rcx * 4 + 0x20].
    let address = read_address(&mut U8Reader::new(&[0x88, 0x20]), 0x44, false, false).map_err(
        |_| "both bytes are there",
    )?;
    assert_eq!(rt; address.base, Some(RegSpec::rax()));
    assert_eq!(rt;
        address.index,
        Some(Index {
            reg: RegSpec::rcx(),
            scale: 4
        })
    );
    assert_eq!(rt; address.disp, 0x20);
    let shortest = shortest_address(&address).ok_or("bytes name it")?;
    assert_eq!(rt; shortest.bytes.as_slice(), [0x44, 0x88, 0x20].as_slice());
    Ok(())
}
