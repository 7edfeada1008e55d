//! What no clause says of the ends of the program: how they call a reader and a writer of std.

use crate::gatherer::Gatherer;
use crate::std_ends::{StdSink, StdSource};
use crate::tests::recode_words;
use std::io::{self, ErrorKind, Read, Write};
use std::test::Fail;
use vex_lines::{MemSink, MemSource, Status, run};

/// How many bytes the reader gives in its calls, one after another and then from the first on.
const PIECES: [usize; 6] = [1, 4093, 7, 2049, 333, 5];

/// A number that no call has.
const NEVER: usize = usize::MAX;

/// Gives bytes in odd pieces, and fails once.
#[derive(Drop)]
struct OddReader<'a> {
    rest: &'a [u8],
    call: usize,
    failing: usize,
    ends: usize,
}

impl<'a> OddReader<'a> {
    fn new(bytes: &'a [u8], failing: usize) -> OddReader<'a> {
        OddReader {
            rest: bytes,
            call: 0,
            failing,
            ends: 0,
        }
    }
}

impl Read for OddReader<'_> {
    fn read(&mut self, buf: &mut [u8]) -> io::Result<usize> {
        let call = self.call;
        self.call = call.saturating_add(1);
        if call == self.failing {
            return Err(io::Error::from(ErrorKind::Interrupted));
        }
        if self.rest.is_empty() {
            self.ends = self.ends.saturating_add(1);
            return Ok(0);
        }
        let n = PIECES[call % 6].min(buf.len()).min(self.rest.len());
        buf[..n].copy_from_slice(&self.rest[..n]);
        self.rest = &self.rest[n..];
        Ok(n)
    }
}

/// Takes at most so many bytes a call. One of its writes fails, or one of its flushes.
#[derive(Drop)]
struct SlowWriter<'a> {
    out: &'a mut Vec<u8>,
    most: usize,
    call: usize,
    failing: usize,
    flushes: usize,
    failing_flush: usize,
}

impl<'a> SlowWriter<'a> {
    fn new(out: &'a mut Vec<u8>, most: usize, failing: usize) -> SlowWriter<'a> {
        SlowWriter {
            out,
            most,
            call: 0,
            failing,
            flushes: 0,
            failing_flush: NEVER,
        }
    }
}

impl Write for SlowWriter<'_> {
    fn write(&mut self, buf: &[u8]) -> io::Result<usize> {
        let call = self.call;
        self.call = call.saturating_add(1);
        if call == self.failing {
            return Err(io::Error::from(ErrorKind::Interrupted));
        }
        let n = self.most.min(buf.len());
        self.out.extend_from_slice(&buf[..n])?;
        Ok(n)
    }

    fn flush(&mut self) -> io::Result<()> {
        let flush = self.flushes;
        self.flushes = flush.saturating_add(1);
        if flush == self.failing_flush {
            return Err(io::Error::from(ErrorKind::Interrupted));
        }
        Ok(())
    }
}

/// More than 2^18 bytes of input.
const LINES: usize = 40_000;

#[test]
fn a_long_input_in_odd_pieces_is_answered_in_short_writes(rt: HostRuntime) -> Result<(), Fail> {
    let mut input = Vec::new(rt.alloc());
    let mut want = Vec::new(rt.alloc());
    for _ in 0..LINES {
        input.extend_from_slice(b"c5f877\n")?;
        want.extend_from_slice(b"3 VZEROUPPER 0 c5f877\n")?;
    }
    // One write makes a line, where the writer takes it whole; and else as many as are needed.
    for (most, writes) in [(NEVER, LINES), (1, want.len())] {
        let mut out = Vec::new(rt.alloc());
        let mut reader = OddReader::new(input.as_slice(), NEVER);
        let mut writer = SlowWriter::new(&mut out, most, NEVER);
        let status = run(
            rt.alloc(),
            &recode_words(),
            &mut StdSource::new(&mut reader),
            &mut StdSink::new(&mut writer),
        );
        assert_eq!(rt; status, Status::Done);
        assert_eq!(rt; writer.call, writes);
        // Nothing is read after the end.
        assert_eq!(rt; reader.ends, 1);
        assert!(rt; out.as_slice() == want.as_slice());
    }
    Ok(())
}

#[test]
fn a_read_that_failed_is_not_tried_again(rt: HostRuntime) {
    let input = b"c5f877\nc5fc77\n33".as_slice();
    // The first call gives one byte, and the second all that is left.
    let cases = [
        (0, 16, ""),
        (1, 15, ""),
        (2, 0, "3 VZEROUPPER 0 c5f877\n3 VZEROALL 0 c5fc77\n"),
    ];
    for (failing, left, text) in cases {
        let mut reader = OddReader::new(input, failing);
        let mut room = [0u8; 100];
        let mut sink = MemSink::new(&mut room, &[]);
        let status = run(
            rt.alloc(),
            &recode_words(),
            &mut StdSource::new(&mut reader),
            &mut sink,
        );
        assert_eq!(rt; status, Status::ReadFault, "at {failing}");
        assert_eq!(rt; sink.written(), text.as_bytes(), "at {failing}");
        assert_eq!(rt; reader.call, failing + 1);
        assert_eq!(rt; reader.rest.len(), left, "at {failing}");
    }
}

#[test]
fn a_write_that_failed_is_not_tried_again(rt: HostRuntime) {
    // How many bytes a call takes, which call fails, how many calls there are, and what is written.
    let cases = [
        (NEVER, 0, 1, ""),
        (NEVER, 1, 2, "error Outside\n"),
        (1, 3, 4, "err"),
        // A writer that takes nothing has failed.
        (0, NEVER, 1, ""),
    ];
    for (most, failing, calls, text) in cases {
        let mut out = Vec::new(rt.alloc());
        let mut source = MemSource::new(b"33\n33\n33\n", 3, &[]);
        let mut writer = SlowWriter::new(&mut out, most, failing);
        let status = run(
            rt.alloc(),
            &recode_words(),
            &mut source,
            &mut StdSink::new(&mut writer),
        );
        assert_eq!(rt; status, Status::WriteFault, "at {failing}");
        assert_eq!(rt; writer.call, calls, "at {failing}");
        assert_eq!(rt; out.as_slice(), text.as_bytes(), "at {failing}");
    }
}

#[test]
fn a_flush_that_failed_is_not_tried_again(rt: HostRuntime) {
    // Which flush fails, how many reads there are, and what is written. The fourth read finds the end.
    let cases = [
        (0, 0, ""),
        (1, 1, "error Outside\n"),
        (3, 3, "error Outside\nerror Outside\nerror Outside\n"),
        (4, 4, "error Outside\nerror Outside\nerror Outside\n"),
    ];
    for (failing, reads, text) in cases {
        let mut out = Vec::new(rt.alloc());
        let mut source = MemSource::new(b"33\n33\n33\n", 3, &[]);
        let mut writer = SlowWriter::new(&mut out, NEVER, NEVER);
        writer.failing_flush = failing;
        let status = run(
            rt.alloc(),
            &recode_words(),
            &mut source,
            &mut StdSink::new(&mut writer),
        );
        assert_eq!(rt; status, Status::WriteFault, "at {failing}");
        assert_eq!(rt; writer.flushes, failing + 1, "at {failing}");
        assert_eq!(rt; writer.call, reads.min(3), "at {failing}");
        assert_eq!(rt; out.as_slice(), text.as_bytes(), "at {failing}");
    }
}

#[test]
fn gathered_answers_are_one_write_for_each_read(rt: HostRuntime) -> Result<(), Fail> {
    let mut input = Vec::new(rt.alloc());
    let mut want = Vec::new(rt.alloc());
    for _ in 0..LINES {
        input.extend_from_slice(b"c5f877\n")?;
        want.extend_from_slice(b"3 VZEROUPPER 0 c5f877\n")?;
    }
    for most in [NEVER, 5000, 11] {
        let mut out = Vec::new(rt.alloc());
        let mut reader = OddReader::new(input.as_slice(), NEVER);
        let mut writer = SlowWriter::new(&mut out, most, NEVER);
        let status = run(
            rt.alloc(),
            &recode_words(),
            &mut StdSource::new(&mut reader),
            &mut StdSink::new(Gatherer::new(&mut writer)),
        );
        assert_eq!(rt; status, Status::Done);
        if most == NEVER {
            assert!(rt; writer.call <= reader.call);
        }
        assert!(rt; out.as_slice() == want.as_slice());
    }
    Ok(())
}

#[test]
fn a_gathered_write_that_failed_is_a_write_fault(rt: HostRuntime) {
    // How many bytes a call takes, which call fails, how many calls there are, and what is written.
    let cases = [
        (NEVER, 0, 1, ""),
        (NEVER, 1, 2, "error Outside\nerror Outside\n"),
        (NEVER, 2, 3, "error Outside\nerror Outside\nerror Outside\n"),
        (19, 1, 2, "error Outside\nerror"),
        // A writer that takes nothing has failed.
        (0, NEVER, 1, ""),
    ];
    for (most, failing, calls, text) in cases {
        let mut out = Vec::new(rt.alloc());
        // The reads give two lines, one line, and one without its end.
        let mut source = MemSource::new(b"33\n33\n33\n    33", 6, &[]);
        let mut writer = SlowWriter::new(&mut out, most, failing);
        let status = run(
            rt.alloc(),
            &recode_words(),
            &mut source,
            &mut StdSink::new(Gatherer::new(&mut writer)),
        );
        assert_eq!(rt; status, Status::WriteFault, "at {failing}");
        assert_eq!(rt; writer.call, calls, "at {failing}");
        assert_eq!(rt; out.as_slice(), text.as_bytes(), "at {failing}");
    }
}

/// A reader that fails.
#[derive(Drop)]
struct Broken;

impl Read for Broken {
    fn read(&mut self, _buf: &mut [u8]) -> io::Result<usize> {
        Err(io::Error::from(ErrorKind::Interrupted))
    }
}

/// Lines with blanks, of three digits, empty, and without a line end.
const FOUR_LINES: &[u8] = b" c5 f8\t77\r\nc5f\n\nC4E27D58C1";

/// What they give.
const ANSWERS: &[u8] = b"3 VZEROUPPER 0 c5f877\nerror BadHex\nerror ExhaustedInput\n\
    5 VPBROADCASTD y0 x1 0 c4e27d58c1\n";

#[test]
fn a_reader_of_std_gives_its_bytes_and_its_fault(rt: HostRuntime) {
    // What the reader gives before it fails, and how many bytes of the answers are written.
    for (bytes, written) in [(FOUR_LINES, 56), (b" c5 f8\t77\r\nc5".as_slice(), 22)] {
        let mut room = [0u8; 120];
        let mut sink = MemSink::new(&mut room, &[]);
        let mut source = StdSource::new(bytes.chain(Broken));
        let status = run(rt.alloc(), &recode_words(), &mut source, &mut sink);
        assert_eq!(rt; status, Status::ReadFault);
        assert_eq!(rt; sink.written(), &ANSWERS[..written]);
    }
    let mut room = [0u8; 120];
    let mut sink = MemSink::new(&mut room, &[]);
    let mut source = StdSource::new(FOUR_LINES);
    let status = run(rt.alloc(), &recode_words(), &mut source, &mut sink);
    assert_eq!(rt; status, Status::Done);
    assert_eq!(rt; sink.written(), ANSWERS);
}

#[test]
fn a_writer_of_std_gets_the_text_up_to_its_fault(rt: HostRuntime) {
    let mut source = MemSource::new(FOUR_LINES, 4096, &[]);
    let mut out = Vec::new(rt.alloc());
    let mut sink = StdSink::new(&mut out);
    let status = run(rt.alloc(), &recode_words(), &mut source, &mut sink);
    assert_eq!(rt; status, Status::Done);
    assert_eq!(rt; out.as_slice(), ANSWERS);

    let mut source = MemSource::new(FOUR_LINES, 4096, &[]);
    let mut room = [0u8; 40];
    let mut sink = StdSink::new(room.as_mut_slice());
    let status = run(rt.alloc(), &recode_words(), &mut source, &mut sink);
    assert_eq!(rt; status, Status::WriteFault);
    assert_eq!(rt; room.as_slice(), &ANSWERS[..40]);
}
