//! The ends of the real program, over any reader and any writer of std. They tell no bytes.

ghost use Rattle.std.specs.Prelude.{◌≡◌, ◌<◌, ◌≤◌, length, drop, None, Ok, IfOk, OnOk, OnErr};
ghost use Rattle.std.specs.Io.KnownBytes.{Appends, Keeps, ReadConsumes};
ghost use Rattle.vex_lines.specs.Ends.{RoseOrIsLast, AppendsFront, counted};

use std::io::{Read, Write};
use std::marker::Model;
use vex_lines::{Failed, PIECE, Sink, Source};

/// A source over a reader. Each call makes one read, and fails where that read does. It reads into a piece of its own,
/// so that a read that fails changes nothing of what it was to fill.
#[derive(Drop)]
pub struct StdSource<R: Read> {
    input: R,
    piece: [u8; PIECE],
    given: u64,
    faults: u64,
}

impl<R: Read> Model for StdSource<R> {
    ghost use Rattle.vex_tool.specs.StdEnds.{StdSourceView};

    ghost Value = { StdSourceView R };

    ghost view = { λ s. record { input = s.input; given = s.given; faults = s.faults } };
}

impl<R: Read> StdSource<R> {
    /// A source of what the reader gives.
    pub fn new(input: R) -> StdSource<R>
        ensures { result ≡ record { input = input; given = 0; faults = 0 } }
    {
        StdSource {
            input,
            piece: [0; PIECE],
            given: 0,
            faults: 0,
        }
    }
}

impl<R: Read> Source for StdSource<R> {
    ghost left = { λ _. None };

    ghost given = { λ s. s.given };

    ghost faults = { λ s. s.faults };

    fn read(&mut self, into: &mut [u8]) -> Result<usize, Failed>
        requires { 0 < length into.old }

        // What every source does. Of its own bytes this one tells nothing.
        ensures fits { IfOk result (λ n. n ≤ length into.old) }
        ensures others { IfOk result (λ n. drop n into.new ≡ drop n into.old) }
        ensures counts { IfOk result (λ n. self.new.given ≡ counted self.old.given n) }
        ensures quiet { OnOk result (self.new.faults ≡ self.old.faults) }
        ensures cause { OnErr result (RoseOrIsLast self.old.faults self.new.faults) }
        ensures keeps_places { OnErr result (into.new ≡ into.old) }
        ensures keeps_number { OnErr result (self.new.given ≡ self.old.given) }
        ensures never_falls { self.old.faults ≤ self.new.faults }

        // What it hands on from its reader, where the reader's bytes are known.
        ensures bytes { ReadConsumes (R.remaining self.old.input) (R.remaining self.new.input) result into.new }
        ensures fault { OnErr result (self.new.faults ≡ counted self.old.faults 1) }
    {
        let room = PIECE.min(into.len());
        let piece = &mut self.piece[..];
        match self.input.read(&mut piece[..room]) {
            Ok(n) => {
                into[..n].copy_from_slice(&piece[..n]);
                self.given = self.given.saturating_add(n as u64);
                Ok(n)
            }
            Err(_) => {
                self.faults = self.faults.saturating_add(1);
                Err(Failed)
            }
        }
    }
}

/// A sink over a writer. `write_all` writes until the whole piece is written, and fails where a write does or takes
/// nothing; `flush` makes one flush of the writer, and fails where that does.
#[derive(Drop)]
pub struct StdSink<W: Write> {
    output: W,
    faults: u64,
}

impl<W: Write> Model for StdSink<W> {
    ghost use Rattle.vex_tool.specs.StdEnds.{StdSinkView};

    ghost Value = { StdSinkView W };

    ghost view = { λ s. record { output = s.output; faults = s.faults } };
}

impl<W: Write> StdSink<W> {
    /// A sink that hands all to the writer.
    pub fn new(output: W) -> StdSink<W>
        ensures { result ≡ record { output = output; faults = 0 } }
    {
        StdSink { output, faults: 0 }
    }
}

impl<W: Write> Sink for StdSink<W> {
    ghost text = { λ _. None };

    ghost faults = { λ s. s.faults };

    fn write_all(&mut self, piece: &[u8]) -> Result<(), Failed>
        // What every sink does. Of its own bytes this one tells nothing.
        ensures quiet { OnOk result (self.new.faults ≡ self.old.faults) }
        ensures cause { OnErr result (RoseOrIsLast self.old.faults self.new.faults) }
        ensures never_falls { self.old.faults ≤ self.new.faults }

        // What it hands on to its writer, where the writer's bytes are known.
        ensures bytes { OnOk result (Appends (W.contents self.old.output) (W.contents self.new.output) piece.now) }
        ensures bytes_front { OnErr result (AppendsFront (W.contents self.old.output) (W.contents self.new.output)
            piece.now) }
        ensures fault { OnErr result (self.new.faults ≡ counted self.old.faults 1) }
    {
        let mut rest = piece;
        while !rest.is_empty() {
            match self.output.write(rest) {
                Err(_) | Ok(0) => {
                    self.faults = self.faults.saturating_add(1);
                    return Err(Failed);
                }
                Ok(n) => rest = &rest[n..],
            }
        }
        Ok(())
    }

    fn flush(&mut self) -> Result<(), Failed>
        // What every sink does. Of its own bytes this one tells nothing.
        ensures quiet { OnOk result (self.new.faults ≡ self.old.faults) }
        ensures cause { OnErr result (RoseOrIsLast self.old.faults self.new.faults) }
        ensures never_falls { self.old.faults ≤ self.new.faults }

        // What its writer says of it, where the writer's bytes are known.
        ensures bytes { Keeps (W.contents self.old.output) (W.contents self.new.output) }
        ensures fault { OnErr result (self.new.faults ≡ counted self.old.faults 1) }
    {
        match self.output.flush() {
            Ok(()) => Ok(()),
            Err(_) => {
                self.faults = self.faults.saturating_add(1);
                Err(Failed)
            }
        }
    }
}
