//! The spellings that `make` generates, and what it writes. The expected bytes and sums were worked out from the
//! definitions by a program of its own, in another language.

use crate::generator::generated;
use crate::memory_ends::MemSink;
use crate::run;
use crate::status::Status;
use crate::tests::{Asked, words_of};

/// Generated spellings by their numbers: each field of the prefix, the kinds and the groups of an entry, W and L that a
/// rule or a form fixes, an entry without ModRM, gathers, and the immediate byte.
#[rattlefmt::skip]
static SPELLINGS: [(usize, &[u8]); 20] = [
    (0, b"\xC4\xE1\x78\x10\xC0"),
    (1, b"\xC4\xE1\x78\x11\xC0"),
    (434, b"\xC4\xE1\xF8\x10\x8C\x08\x00\x00\x00\x00"),
    (868, b"\xC4\xE1\x7C\x10\xD2"),
    (1736, b"\xC4\xC1\x78\x10\xE4"),
    (3472, b"\xC4\x61\x78\x10\xC0"),
    (6510, b"\xC4\x41\xFC\x10\xBC\x08\x00\x00\x00\x00"),
    (519, b"\xC4\xE1\xF1\x73\xF9\x15"),
    (33, b"\xC4\xE1\x78\xAE\x9C\x08\x00\x00\x00\x00"),
    (646, b"\xC4\xE2\xF0\xF3\x9C\x08\x00\x00\x00\x00"),
    (465, b"\xC4\xE1\xF8\x77"),
    (1296, b"\xC4\xE3\x79\x60\xD2\x25"),
    (1730, b"\xC4\xE3\xF9\x60\x9C\x08\x00\x00\x00\x00\x35"),
    (309, b"\xC4\xE2\x79\x90\x84\x08\x00\x00\x00\x00"),
    (3347, b"\xC4\xC2\x45\x90\xBC\x08\x00\x00\x00\x00"),
    (6064, b"\xC4\x43\x11\x4A\xAC\x08\x00\x00\x00\x00\xD5"),
    (587, b"\xC4\xE1\xFA\x10\x8C\x08\x00\x00\x00\x00"),
    (2757, b"\xC4\xC1\x4E\x10\xF6"),
    (3989, b"\xC4\x61\xB1\x71\xF1\x95"),
    (448, b"\xC4\xE1\xF8\x50\xC9"),
];

#[test]
fn entries_take_turns_with_other_fields_in_each_round(rt: HostRuntime) {
    for (i, bytes) in SPELLINGS.iter() {
        assert_eq!(rt; generated(*i).as_slice(), *bytes, "at {i}");
    }
}

#[rattlefmt::skip]
static SUMS: [(&str, &[u8]); 5] = [
    ("1", b"made 1 ok 1 read 5 short 4 sum 653\n"),
    ("2", b"made 2 ok 2 read 10 short 8 sum 1306\n"),
    ("3", b"made 3 ok 3 read 15 short 12 sum 1961\n"),
    ("434", b"made 434 ok 434 read 2433 short 2065 sum 347565\n"),
    ("2000", b"made 2000 ok 2000 read 14994 short 10355 sum 1481857\n"),
];

#[test]
fn make_sums_up_its_spellings_and_reads_nothing(rt: HostRuntime) {
    for (count, text) in SUMS.iter() {
        let mut source = Asked { calls: 0 };
        let mut room = [0u8; 100];
        let mut sink = MemSink::new(&mut room, &[]);
        let status = run(
            rt.alloc(),
            &words_of(&["make", count]),
            &mut source,
            &mut sink,
        );
        assert_eq!(rt; status, Status::Done);
        assert_eq!(rt; sink.written(), *text);
        assert_eq!(rt; source.calls, 0);
    }
}

#[test]
fn make_ends_with_the_fault_of_its_write(rt: HostRuntime) {
    let cases: [(&[u64], &[u8]); 2] = [(&[0], b""), (&[], b"made 3 ok ")];
    for (failing, text) in cases {
        let mut source = Asked { calls: 0 };
        let mut room = [0u8; 10];
        let mut sink = MemSink::new(&mut room, failing);
        let status = run(
            rt.alloc(),
            &words_of(&["make", "3"]),
            &mut source,
            &mut sink,
        );
        assert_eq!(rt; status, Status::WriteFault);
        assert_eq!(rt; sink.written(), text);
        assert_eq!(rt; source.calls, 0);
    }
}

#[test]
fn numbers_that_make_refuses_are_usage(rt: HostRuntime) {
    let refused = [
        "",
        "0",
        "00",
        "01",
        "+1",
        "-1",
        "1000001",
        "4294967297",
        "1e3",
        "0x10",
        " 1",
        "1 ",
        "\u{661}",
    ];
    for count in refused {
        let mut source = Asked { calls: 0 };
        let mut sink = MemSink::new(&mut [], &[]);
        let status = run(
            rt.alloc(),
            &words_of(&["make", count]),
            &mut source,
            &mut sink,
        );
        assert_eq!(rt; status, Status::Usage, "at {count}");
        assert_eq!(rt; source.calls, 0);
    }
}
