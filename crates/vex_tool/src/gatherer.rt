//! A writer that gathers what it is given in a fixed buffer.

ghost use Rattle.std.specs.Prelude.{◌≡◌, ◌<◌, ◌≤◌, [], length, IfOk, OnOk};
ghost use Rattle.std.specs.Io.KnownBytes.{Keeps, WriteAppends};
ghost use Rattle.std.specs.Io.{WritesAtMost};
ghost use Rattle.vex_tool.specs.Gatherer.{gatherer_contents};

use arrayvec::ArrayVec;
use std::io::{self, ErrorKind, Write};
use std::marker::Model;

/// How many bytes are gathered, at most: more than one read of common lines gives.
const ROOM: usize = 32_768;

/// Gathers bytes, and hands them on to its writer where there is no room for more and by `flush`, in one write where
/// the writer takes them whole. It takes no memory.
#[derive(Drop)]
pub struct Gatherer<W: Write> {
    output: W,
    gathered: ArrayVec<u8, ROOM>,
}

impl<W: Write> Model for Gatherer<W> {
    ghost use Rattle.vex_tool.specs.Gatherer.{GathererView};

    ghost Value = { GathererView W };

    ghost view = { λ g. record { output = g.output; gathered = g.gathered.items } };
}

impl<W: Write> Gatherer<W> {
    /// With nothing gathered.
    pub fn new(output: W) -> Gatherer<W>
        ensures { result ≡ record { output = output; gathered = [] } }
    {
        Gatherer {
            output,
            gathered: ArrayVec::new(),
        }
    }

    /// Hands on all that is gathered. What an error leaves unwritten stays gathered.
    fn hand_on(&mut self) -> io::Result<()>
        ensures bytes { Keeps (gatherer_contents W.contents self.old) (gatherer_contents W.contents self.new) }
        ensures all { OnOk result (self.new.gathered ≡ []) }
    {
        while !self.gathered.is_empty() {
            match self.output.write(self.gathered.as_slice()) {
                Err(error) => return Err(error),
                Ok(0) => return Err(io::Error::from(ErrorKind::WriteZero)),
                Ok(n) if n == self.gathered.len() => self.gathered.clear(),
                Ok(n) => drop(self.gathered.drain(..n)),
            }
        }
        Ok(())
    }
}

impl<W: Write> Write for Gatherer<W> {
    ghost contents = { λ g. gatherer_contents W.contents g };

    /// Takes the whole of a piece of at most 32,768 bytes. An error is one of its writer's, which was handed what was
    /// gathered before; nothing of the piece is then taken.
    fn write(&mut self, buf: &[u8]) -> io::Result<usize>
        ensures bound { WritesAtMost result buf.now }
        ensures bytes { WriteAppends (gatherer_contents W.contents self.old) (gatherer_contents W.contents self.new)
            result buf.now }
        ensures some { IfOk result (λ n. 0 < length buf.now → 0 < n) }
        ensures whole { IfOk result (λ n. length buf.now ≤ ROOM → n ≡ length buf.now) }
    {
        if self.gathered.remaining_capacity() < buf.len() {
            self.hand_on()?;
        }
        let n = buf.len().min(self.gathered.remaining_capacity());
        match self.gathered.try_extend_from_slice(&buf[..n]) {
            Ok(()) => {}
            Err(_) => unreachable!(),
        }
        Ok(n)
    }

    /// Hands on all that is gathered, and flushes its writer.
    fn flush(&mut self) -> io::Result<()>
        ensures bytes { Keeps (gatherer_contents W.contents self.old) (gatherer_contents W.contents self.new) }
        ensures all { OnOk result (self.new.gathered ≡ []) }
    {
        self.hand_on()?;
        self.output.flush()
    }
}
