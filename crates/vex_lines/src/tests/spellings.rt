//! What `spellings` answers for lines of code.

use crate::memory_ends::{MemSink, MemSource};
use crate::run;
use crate::status::Status;
use crate::tests::lines::check;
use crate::tests::words_of;

/// A profile, a line of code, and what `spellings` answers: all bits that play no part, the widths of a displacement,
/// the low half of the byte that names a register, bytes after the instruction, and what is refused.
#[rattlefmt::skip]
static SPELLINGS: [(&str, &[u8], &[u8]); 8] = [
    // 2 R, 2 X, 2 B and 2 W after C4, and 2 R after C5.
    ("default", b"C5 F8 77 FF FF", b"\
        c4017877\n\
        c401f877\n\
        c4217877\n\
        c421f877\n\
        c4417877\n\
        c441f877\n\
        c4617877\n\
        c461f877\n\
        c4817877\n\
        c481f877\n\
        c4a17877\n\
        c4a1f877\n\
        c4c17877\n\
        c4c1f877\n\
        c4e17877\n\
        c4e1f877\n\
        c57877\n\
        c5f877\n\
        end\n"),
    // q0 + q1 * 4: 3 widths of the displacement 0, after C4 with 2 W, and after C5.
    ("haswell", b"C5 F0 58 04 88", b"\
        c4e170580488\n\
        c4e17058448800\n\
        c4e17058848800000000\n\
        c4e1f0580488\n\
        c4e1f058448800\n\
        c4e1f058848800000000\n\
        c5f0580488\n\
        c5f058448800\n\
        c5f058848800000000\n\
        end\n"),
    // 2 X and 16 low halves.
    ("default", b"C4 E3 71 4A C2 35", b"\
        c4a3714ac230\n\
        c4a3714ac231\n\
        c4a3714ac232\n\
        c4a3714ac233\n\
        c4a3714ac234\n\
        c4a3714ac235\n\
        c4a3714ac236\n\
        c4a3714ac237\n\
        c4a3714ac238\n\
        c4a3714ac239\n\
        c4a3714ac23a\n\
        c4a3714ac23b\n\
        c4a3714ac23c\n\
        c4a3714ac23d\n\
        c4a3714ac23e\n\
        c4a3714ac23f\n\
        c4e3714ac230\n\
        c4e3714ac231\n\
        c4e3714ac232\n\
        c4e3714ac233\n\
        c4e3714ac234\n\
        c4e3714ac235\n\
        c4e3714ac236\n\
        c4e3714ac237\n\
        c4e3714ac238\n\
        c4e3714ac239\n\
        c4e3714ac23a\n\
        c4e3714ac23b\n\
        c4e3714ac23c\n\
        c4e3714ac23d\n\
        c4e3714ac23e\n\
        c4e3714ac23f\n\
        end\n"),
    ("minimal", b"C5 F8 77", b"error InvalidOpcode\n"),
    ("default", b"C5 E8 77", b"error InvalidOperand\n"),
    ("default", b"33 C0", b"error Outside\n"),
    ("default", b"\n", b"error ExhaustedInput\n"),
    ("default", b"c5f", b"error BadHex\n"),
];

#[test]
fn spellings_come_in_order(rt: HostRuntime) {
    for (profile, line, text) in SPELLINGS.iter() {
        check(&rt, rt.alloc(), &["spellings", profile], line, text);
    }
}

#[test]
fn a_failed_write_ends_the_spellings(rt: HostRuntime) {
    let words = words_of(&["spellings", "default"]);
    let mut source = MemSource::new(b"C5 F0 58 04 88", 4096, &[]);
    let mut room = [0u8; 64];
    let mut sink = MemSink::new(&mut room, &[2]);
    let status = run(rt.alloc(), &words, &mut source, &mut sink);
    assert_eq!(rt; status, Status::WriteFault);
    assert_eq!(rt; sink.written(), "c4e170580488\nc4e17058448800\n".as_bytes());
}
