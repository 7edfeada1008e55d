//! The example at the head of the crate.

use crate::{MemSink, MemSource, Status, Words, run};

#[test]
fn a_line_is_answered(rt: HostRuntime) {
    let mut words = Words::new();
    words.push("recode");
    words.push("default");
    let mut source = MemSource::new(b"C4 E1 70 58 C2\n", 16, &[]);
    let mut room = [0u8; 64];
    let mut sink = MemSink::new(&mut room, &[]);
    assert_eq!(rt;
        run(rt.alloc(), &words, &mut source, &mut sink),
        Status::Done
    );
    assert_eq!(rt;
        sink.written(),
        b"5 VADDPS x0 x1 x2 0 c5f058c2\n".as_slice()
    );
}
