//! What no clause says of a sweep: that it answers where there is memory, and the text of its error.

use crate::{NoMemory, SweepEnd, sweep};
use std::test::Fail;
use x86_operand::{DecodeError, Opcode};
use x86_settings::InstDecoder;

#[test]
fn a_sweep_goes_on_until_a_rest_is_refused(rt: HostRuntime) -> Result<(), Fail> {
    let bytes = [0xC5, 0xF8, 0x77, 0xC5, 0xF4, 0x58, 0xC2, 0x33];
    let found = sweep(rt.alloc(), &InstDecoder::default(), &bytes)?;
    let wanted = [
        (0, &bytes[..3], Opcode::VZEROUPPER, &bytes[..3]),
        (3, &bytes[3..7], Opcode::VADDPS, &bytes[3..7]),
    ];
    assert_eq!(rt; found.items.len(), 2);
    assert_eq!(rt; found.items.as_slice().len(), 2);
    for (i, (place, read, opcode, canonical)) in wanted.into_iter().enumerate() {
        let item = found.items.get(i).ok_or("an item is missing")?;
        assert_eq!(rt; item.place, place);
        assert_eq!(rt; item.bytes, read);
        assert!(rt; item.instruction.opcode().is(opcode));
        assert_eq!(rt; item.spelling.as_slice(), canonical);
    }
    assert!(rt; found.items.get(2).is_none());
    let stopped = SweepEnd::Stopped {
        place: 7,
        error: DecodeError::Outside,
    };
    assert_eq!(rt; found.end, stopped);
    let found = sweep(rt.alloc(), &InstDecoder::minimal(), &bytes[..0])?;
    assert_eq!(rt; found.items.len(), 0);
    assert_eq!(rt; found.end, SweepEnd::End);
    Ok(())
}

#[test]
fn the_error_says_no_memory(rt: HostRuntime) -> Result<(), Fail> {
    let text = format!(in rt.alloc(); "{NoMemory}")?;
    assert_eq!(rt; text.as_str(), "no memory");
    Ok(())
}
