//! The example at the head of the crate.

use crate::{Machine, run_code};
use x86_settings::InstDecoder;

#[test]
fn code_runs_on_a_machine(rt: HostRuntime) {
    let mut memory = [0u8; 64];
    let mut machine = Machine::new(&mut memory);
    machine.set_vector(1, &[1; 32]);
    machine.set_vector(2, &[2; 32]);
    // VPADDB y0, y1, y2
    let code = [0xC5, 0xF5, 0xFC, 0xC2];
    assert_eq!(rt;
        run_code(&mut machine, &InstDecoder::default(), &code),
        Ok(1)
    );
    assert_eq!(rt; machine.vector(0).as_slice(), [3; 32].as_slice());
}
