//! Runs over memory, what ends them, and their words and statuses.

ghost use Rattle.std.specs.Prelude.{◌+◌, ◌≤◌, None};

use crate::ends::{Failed, Source};
use crate::memory_ends::{MemSink, MemSource};
use crate::run;
use crate::status::Status;
use crate::tests::words_of;
use crate::words::Words;
use std::alloc::{AllocError, Global};
use std::process::Abort;
use std::test::Fail;

/// What the five lines of the input give.
const ANSWERS: [&str; 5] = [
    "3 VZEROUPPER 0 c5f877\n",
    "error BadHex\n",
    "error ExhaustedInput\n",
    "error LongLine\n",
    "5 VPBROADCASTD y0 x1 0 c4e27d58c1\n",
];

/// Five lines: with blanks, of three digits, empty, of 8,193 bytes, and without a line end.
fn five_lines(alloc: Global) -> Result<Vec<u8>, AllocError> {
    let mut input = Vec::new(alloc);
    input.extend_from_slice(b" c5 f8\t77\r\nc5f\n\n")?;
    for _ in 0..8193 {
        input.push(b'c')?;
    }
    input.extend_from_slice(b"\nC4E27D58C1")?;
    Ok(input)
}

/// The answers of the first lines, joined.
fn answers(alloc: Global, count: usize) -> Result<Vec<u8>, AllocError> {
    let mut text = Vec::new(alloc);
    for answer in ANSWERS.iter().take(count) {
        text.extend_from_slice(answer.as_bytes())?;
    }
    Ok(text)
}

/// Runs `recode default` into this room, and wants this status and text.
fn check<S: Source>(
    rt: &impl Abort,
    alloc: Global,
    source: &mut S,
    sink: &mut MemSink<'_>,
    want: (Status, &[u8]),
    at: usize,
) {
    let words = words_of(&["recode", "default"]);
    let status = run(alloc, &words, source, sink);
    assert_eq!(rt; status, want.0, "at {at}");
    assert_eq!(rt; sink.written(), want.1, "at {at}");
}

#[test]
fn lines_do_not_depend_on_the_pieces(rt: HostRuntime) -> Result<(), Fail> {
    let input = five_lines(rt.alloc())?;
    let text = answers(rt.alloc(), 5)?;
    for step in 1..65 {
        let mut source = MemSource::new(input.as_slice(), step, &[]);
        let mut room = [0u8; 120];
        let mut sink = MemSink::new(&mut room, &[]);
        check(
            &rt,
            rt.alloc(),
            &mut source,
            &mut sink,
            (Status::Done, text.as_slice()),
            step,
        );
    }
    Ok(())
}

/// Fails one read after another of the five lines in pieces of this size: the answers of the whole lines before it are
/// written.
fn fail_reads(rt: &impl Abort, alloc: Global, step: usize, calls: usize) -> Result<(), AllocError>
    requires some { 1 ≤ step }
    requires most { step ≤ 4096 }
    requires few { calls ≤ 200 }
{
    let input = five_lines(alloc)?;
    for call in 0..calls {
        let read = (call * step).min(input.len());
        let lines = input.as_slice()[..read]
            .iter()
            .filter(|&&b| b == b'\n')
            .count();
        let text = answers(alloc, lines)?;
        let failing = [call as u64];
        let mut source = MemSource::new(input.as_slice(), step, &failing);
        let mut room = [0u8; 120];
        let mut sink = MemSink::new(&mut room, &[]);
        let want = (Status::ReadFault, text.as_slice());
        check(rt, alloc, &mut source, &mut sink, want, call);
    }
    Ok(())
}

#[test]
fn a_failed_read_leaves_the_answers_of_the_whole_lines(rt: HostRuntime) -> Result<(), Fail> {
    // 129 reads of 64 bytes, 9 of 1,000 and 3 of 4,096 give bytes, and one more finds the end.
    fail_reads(&rt, rt.alloc(), 64, 130)?;
    fail_reads(&rt, rt.alloc(), 1000, 10)?;
    fail_reads(&rt, rt.alloc(), 4096, 4)?;
    Ok(())
}

/// Fails one write after another of the answers to the five lines in pieces of this size: the answers before it are
/// written.
fn fail_writes(rt: &impl Abort, alloc: Global, step: usize) -> Result<(), AllocError>
    requires { 1 ≤ step }
{
    let input = five_lines(alloc)?;
    for call in 0..5 {
        let text = answers(alloc, call)?;
        let failing = [call as u64];
        let mut source = MemSource::new(input.as_slice(), step, &[]);
        let mut room = [0u8; 120];
        let mut sink = MemSink::new(&mut room, &failing);
        let want = (Status::WriteFault, text.as_slice());
        check(rt, alloc, &mut source, &mut sink, want, call);
    }
    Ok(())
}

#[test]
fn a_failed_write_leaves_a_front_of_the_answers(rt: HostRuntime) -> Result<(), Fail> {
    fail_writes(&rt, rt.alloc(), 1000)?;
    fail_writes(&rt, rt.alloc(), 4096)?;
    let input = five_lines(rt.alloc())?;
    let mut source = MemSource::new(input.as_slice(), 4096, &[]);
    let mut room = [0u8; 40];
    let mut sink = MemSink::new(&mut room, &[]);
    let want = (
        Status::WriteFault,
        b"3 VZEROUPPER 0 c5f877\nerror BadHex\nerror".as_slice(),
    );
    check(&rt, rt.alloc(), &mut source, &mut sink, want, 5);
    Ok(())
}

/// Gives bytes `6`, and one that ends a line, and tells nothing.
#[derive(Drop)]
struct Flood {
    left: u64,
    line_end: u64,
    given: u64,
}

impl Source for Flood {
    ghost left = { λ _. None };

    ghost given = { λ s. s.given };

    ghost faults = { λ _. 0 };

    fn read(&mut self, into: &mut [u8]) -> Result<usize, Failed> {
        let piece = [b'6'; 4096];
        let n = into.len().min(4096).min(self.left as usize);
        into[..n].copy_from_slice(&piece[..n]);
        if self.line_end < n as u64 {
            into[self.line_end as usize] = b'\n';
        }
        self.left -= n as u64;
        self.line_end = self.line_end.wrapping_sub(n as u64);
        self.given = self.given.saturating_add(n as u64);
        Ok(n)
    }
}

#[test]
fn the_limit_is_two_to_the_26(rt: HostRuntime) {
    let limit = 1 << 26;
    let none = u64::MAX;
    let long = b"error LongLine\n".as_slice();
    let cases = [
        // An unfinished line is answered at the end of the input, and dropped past the limit.
        (limit, none, Status::Done, long),
        (limit + 1, none, Status::TooLong, b""),
        // A line whose end is the last byte up to the limit is answered, and one whose end comes after is not.
        (limit + 1, limit - 1, Status::TooLong, long),
        (limit + 1, limit, Status::TooLong, b""),
    ];
    for (at, (left, line_end, status, text)) in cases.into_iter().enumerate() {
        let mut source = Flood {
            left,
            line_end,
            given: 0,
        };
        let mut room = [0u8; 120];
        let mut sink = MemSink::new(&mut room, &[]);
        check(&rt, rt.alloc(), &mut source, &mut sink, (status, text), at);
    }
}

#[test]
fn words_that_are_no_command_are_usage(rt: HostRuntime) {
    let long = "xxxxxxxxxxxxxxxxxxxxxxxxxxxxxxxxxxxxxxxxxxxxxxxxxxxxxxxxxxxxxxxxx";
    let lists: [&[&str]; 15] = [
        &[],
        &["recode"],
        &["recode", "zen6"],
        &["sweep"],
        &["sweep", "zen6"],
        &["notes"],
        &["notes", "zen6"],
        &["make"],
        &["make", "default"],
        &["make", "1", "1"],
        &["Recode", "default"],
        &["recode", "Default"],
        &["recode", "default", ""],
        &["recode", "default", long],
        &["recode", "default", "a", "b", "c"],
    ];
    for list in lists {
        let words = words_of(list);
        let mut source = MemSource::new(b"c5", 1, &[]);
        let mut sink = MemSink::new(&mut [], &[]);
        let status = run(rt.alloc(), &words, &mut source, &mut sink);
        assert_eq!(rt; status, Status::Usage, "at {list:?}");
    }
}

#[test]
fn words_are_kept_up_to_four_of_64_bytes(rt: HostRuntime) {
    let longest = "xxxxxxxxxxxxxxxxxxxxxxxxxxxxxxxxxxxxxxxxxxxxxxxxxxxxxxxxxxxxxxxx";
    let mut words = Words::new();
    for word in [longest, "", "a", "b"] {
        assert!(rt; words.push(word));
    }
    assert!(rt; !words.over());
    assert!(rt; !words.push("c"));
    assert!(rt; words.over());
    assert_eq!(rt; words.get(0), Some(longest));
    assert_eq!(rt; words.get(4), None);
}

#[test]
fn statuses_have_numbers_and_names(rt: HostRuntime) {
    let all = [
        (Status::Done, 0, "Done"),
        (Status::ReadFault, 1, "ReadFault"),
        (Status::Usage, 2, "Usage"),
        (Status::WriteFault, 3, "WriteFault"),
        (Status::NoMemory, 4, "NoMemory"),
        (Status::TooLong, 5, "TooLong"),
    ];
    for (status, code, name) in all {
        assert_eq!(rt; status.code(), code);
        assert_eq!(rt; status.name(), name);
    }
}

#[test]
fn no_status_equals_another(rt: HostRuntime) {
    let all = [
        Status::Done,
        Status::ReadFault,
        Status::Usage,
        Status::WriteFault,
        Status::NoMemory,
        Status::TooLong,
    ];
    for a in all {
        for b in all {
            assert_eq!(rt; a == b, a.code() == b.code(), "{a:?} and {b:?}");
        }
    }
}

#[test]
fn a_sweep_writes_each_instruction_and_how_it_ends(rt: HostRuntime) {
    let input = b"C5 F8 77 C5 F4 58 C2 33\n\nc5f\nC4C17828C0\nC5F877C5".as_slice();
    let text = b"0 3 VZEROUPPER 0 c5f877\n3 4 VADDPS y0 y1 y2 0 c5f458c2\nstopped 7 Outside\n\
        end\n\
        error BadHex\n\
        0 5 VMOVAPS x0 x8 0 c57829c0\nend\n\
        0 3 VZEROUPPER 0 c5f877\nstopped 3 ExhaustedInput\n"
        .as_slice();
    let mut source = MemSource::new(input, 7, &[]);
    let mut room = [0u8; 400];
    let mut sink = MemSink::new(&mut room, &[]);
    let words = words_of(&["sweep", "default"]);
    let status = run(rt.alloc(), &words, &mut source, &mut sink);
    assert_eq!(rt; status, Status::Done);
    assert_eq!(rt; sink.written(), text);
}

#[test]
fn notes_say_what_the_bytes_taken_hold(rt: HostRuntime) {
    let words = words_of(&["notes", "default"]);
    let whole = b"note 8 9 8 vex.p indicates no opcode prefix\nnote 11 14 10 vvvv 0 x0\n\
        note 10 10 9 vex.r extends extends rrr by 0b1000\nnote 15 15 9 vex.w selects 64-bit operand size\n\
        note 23 23 23 vex prefix ends/opcode begins\nnote 16 23 16 opcode VZEROUPPER\n\
        note 23 23 23 vex opcode ends/operands begin\n3 VZEROUPPER 0 c5f877\n"
        .as_slice();
    let no_map = b"note 16 17 8 vex.p indicates no opcode prefix\n\
        note 8 12 8 vex.mmmmm indicates illegal opcode escape and is invalid\nerror InvalidOpcode\n"
        .as_slice();
    for (line, text) in [
        (b"C5 F8 77 C5".as_slice(), whole),
        (b"C4 E0 78".as_slice(), no_map),
        (b"C4 E0".as_slice(), b"error ExhaustedInput\n".as_slice()),
        (b"33".as_slice(), b"error Outside\n".as_slice()),
        (b"c5f".as_slice(), b"error BadHex\n".as_slice()),
    ] {
        let mut source = MemSource::new(line, 4096, &[]);
        let mut room = [0u8; 400];
        let mut sink = MemSink::new(&mut room, &[]);
        let status = run(rt.alloc(), &words, &mut source, &mut sink);
        assert_eq!(rt; status, Status::Done);
        assert_eq!(rt; sink.written(), text);
    }
}
