//! The example at the head of the crate.

use crate::gatherer::Gatherer;
use crate::std_ends::{StdSink, StdSource};
use vex_lines::{Status, Words, run};

#[test]
fn a_line_is_answered(rt: HostRuntime) {
    let mut words = Words::new();
    words.push("recode");
    words.push("default");
    let mut out = Vec::new(rt.alloc());
    let mut source = StdSource::new(b"C4 E1 70 58 C2\n".as_slice());
    let mut sink = StdSink::new(Gatherer::new(&mut out));
    assert_eq!(rt;
        run(rt.alloc(), &words, &mut source, &mut sink),
        Status::Done
    );
    assert_eq!(rt;
        out.as_slice(),
        b"5 VADDPS x0 x1 x2 0 c5f058c2\n".as_slice()
    );
}
