//! When what a sink holds back is handed on.

ghost use Rattle.std.specs.Prelude.{None};

use crate::memory_ends::MemSource;
use crate::tests::words_of;
use crate::{Failed, Sink, run};
use arrayvec::ArrayVec;

/// Notes its calls in their order, a write as W and a flush as F.
#[derive(Drop)]
struct Noting {
    calls: ArrayVec<u8, 32>,
}

impl Sink for Noting {
    ghost text = { λ _. None };

    ghost faults = { λ _. 0 };

    fn write_all(&mut self, _piece: &[u8]) -> Result<(), Failed> {
        let _ = self.calls.try_push(b'W');
        Ok(())
    }

    fn flush(&mut self) -> Result<(), Failed> {
        let _ = self.calls.try_push(b'F');
        Ok(())
    }
}

/// Runs, and input whose reads have a line each, and the calls of the sink.
const CALLS: [(&[&str], &[u8], &[u8]); 6] = [
    // A flush before each read, of which the last finds the end, and one at the end.
    (
        &["recode", "default"],
        b"c5f877\nc5fc77\n      \n",
        b"FWFWFWFF",
    ),
    (&["recode", "default"], b"c5f877\n33", b"FWFFWF"),
    (&["recode", "default"], b"", b"FF"),
    (&["sweep", "default"], b"c5f877\n", b"FWWFF"),
    (&["make", "2"], b"c5f877\n", b"WF"),
    (&["make", "0"], b"c5f877\n", b""),
];

#[test]
fn what_is_held_back_is_handed_on_before_each_read_and_at_the_end(rt: HostRuntime) {
    for (at, &(list, input, calls)) in CALLS.iter().enumerate() {
        let mut sink = Noting {
            calls: ArrayVec::new(),
        };
        run(
            rt.alloc(),
            &words_of(list),
            &mut MemSource::new(input, 7, &[]),
            &mut sink,
        );
        assert_eq!(rt; sink.calls.as_slice(), calls, "at {at}");
    }
}
