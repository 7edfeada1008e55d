//! A source and a sink in memory, whose calls fail where they are told to.

ghost use Rattle.std.specs.Prelude.{◌≡◌, ◌<◌, ◌≤◌, ◌↔◌, ◌⊎◌, min, [], length, take, drop, Some, Ok, IfOk, OnOk, OnErr};
ghost use Rattle.std.specs.Prelude.{IsOk, IsErr, Contains};
ghost use Rattle.std.specs.Io.KnownBytes.{Appends, Consumes, Keeps, IsAtEnd};
ghost use Rattle.vex_lines.specs.Ends.{RoseOrIsLast, AppendsFront, counted};
ghost use Rattle.vex_lines.specs.MemoryEnds.{read_len, after_read, after_read_fault, with_written, after_write};
ghost use Rattle.vex_lines.specs.MemoryEnds.{after_write_fault};

use crate::ends::{Failed, Sink, Source};
use std::marker::Model;

/// A source over a slice.
#[derive(Drop)]
pub struct MemSource<'a> {
    rest: &'a [u8],
    step: usize,
    failing: &'a [u64],
    call: u64,
    given: u64,
    faults: u64,
}

impl<'a> Model for MemSource<'a> {
    ghost use Rattle.std.specs.Prelude.{◌≤◌};
    ghost use Rattle.vex_lines.specs.MemoryEnds.{MemSourceView};

    ghost Value = { MemSourceView };

    ghost view = { λ s. record {
      left = s.rest.now;
      step = s.step;
      failing = s.failing.now;
      call = s.call;
      given =
          s.given;
      faults = s.faults;
    } };

    ghost invariant = { λ s. 1 ≤ s.step };
}

impl<'a> MemSource<'a> {
    /// A source of these bytes that gives at most `step` of them in a read, and whose reads with the
    /// numbers in `failing`, counted from 0, fail.
    pub fn new(bytes: &'a [u8], step: usize, failing: &'a [u64]) -> MemSource<'a>
        requires { 1 ≤ step }
        ensures { result ≡ record {
          left = bytes.now;
          step = step;
          failing = failing.now;
          call = 0;
          given = 0;
          faults =
              0;
        } }
    {
        MemSource {
            rest: bytes,
            step,
            failing,
            call: 0,
            given: 0,
            faults: 0,
        }
    }
}

impl Source for MemSource<'_> {
    ghost left = { λ s. Some s.left };

    ghost given = { λ s. s.given };

    ghost faults = { λ s. s.faults };

    /// Fails exactly where the number of this call is in `failing`. Otherwise it gives as many bytes
    /// as the least of `step`, the length of `into` and the number of bytes left.
    fn read(&mut self, into: &mut [u8]) -> Result<usize, Failed>
        requires { 0 < length into.old }

        // What every source does.
        ensures fits { IfOk result (λ n. n ≤ length into.old) }
        ensures takes { IfOk result (λ n. Consumes (Some self.old.left) (Some self.new.left) (take n into.new)) }
        ensures others { IfOk result (λ n. drop n into.new ≡ drop n into.old) }
        ensures end { result ≡ Ok 0 → IsAtEnd (Some self.new.left) }
        ensures counts { IfOk result (λ n. self.new.given ≡ counted self.old.given n) }
        ensures quiet { OnOk result (self.new.faults ≡ self.old.faults) }
        ensures cause { OnErr result (RoseOrIsLast self.old.faults self.new.faults) }
        ensures keeps { OnErr result (Keeps (Some self.old.left) (Some self.new.left)) }
        ensures keeps_places { OnErr result (into.new ≡ into.old) }
        ensures keeps_number { OnErr result (self.new.given ≡ self.old.given) }
        ensures never_falls { self.old.faults ≤ self.new.faults }

        // What this source does.
        ensures fails { IsErr result ↔ Contains self.old.failing self.old.call }
        ensures gives { IfOk result (λ n. n ≡ read_len self.old (length into.old)) }
        ensures after { IfOk result (λ n. self.new ≡ after_read self.old n) }
        ensures after_fault { OnErr result (self.new ≡ after_read_fault self.old) }
    {
        let call = self.call;
        self.call = call.saturating_add(1);
        if self.failing.contains(&call) {
            self.faults = self.faults.saturating_add(1);
            return Err(Failed);
        }
        let n = self.step.min(into.len()).min(self.rest.len());
        into[..n].copy_from_slice(&self.rest[..n]);
        self.rest = &self.rest[n..];
        self.given = self.given.saturating_add(n as u64);
        Ok(n)
    }
}

/// A sink into a slice.
#[derive(Drop)]
pub struct MemSink<'a> {
    room: &'a mut [u8],
    len: usize,
    failing: &'a [u64],
    call: u64,
    faults: u64,
}

impl<'a> Model for MemSink<'a> {
    ghost use Rattle.std.specs.Prelude.{◌-◌, ◌≤◌, length, take};
    ghost use Rattle.vex_lines.specs.MemoryEnds.{MemSinkView};

    ghost Value = { MemSinkView };

    ghost view = { λ s. record {
      written = take s.len s.room.now;
      room = length s.room.now - s.len;
      failing =
          s.failing.now;
      call = s.call;
      faults = s.faults;
    } };

    ghost invariant = { λ s. s.len ≤ length s.room.now };
}

impl<'a> MemSink<'a> {
    /// A sink that writes into `room`, and whose writes with the numbers in `failing`, counted from
    /// 0, fail.
    pub fn new(room: &'a mut [u8], failing: &'a [u64]) -> MemSink<'a>
        ensures { result ≡ record {
          written = [];
          room = length room.old;
          failing = failing.now;
          call = 0;
          faults = 0;
        } }
    {
        MemSink {
            room,
            len: 0,
            failing,
            call: 0,
            faults: 0,
        }
    }

    /// What was written.
    pub fn written(&self) -> &[u8]
        ensures { result.now ≡ self.now.written }
    {
        &self.room[..self.len]
    }

    /// Appends as much of the piece as there is room for, and answers how many bytes that is.
    fn append(&mut self, piece: &[u8]) -> usize
        ensures count { result ≡ min (length piece.now) self.old.room }
        ensures after { self.new ≡ with_written self.old (take result piece.now) }
    {
        let n = piece.len().min(self.room.len() - self.len);
        self.room[self.len..self.len + n].copy_from_slice(&piece[..n]);
        self.len += n;
        n
    }
}

impl Sink for MemSink<'_> {
    ghost text = { λ s. Some s.written };

    ghost faults = { λ s. s.faults };

    /// A call whose number is in `failing` writes nothing and fails. A piece that does not fit is
    /// written as far as it fits, and fails. No other call fails.
    fn write_all(&mut self, piece: &[u8]) -> Result<(), Failed>
        // What every sink does.
        ensures appends { OnOk result (Appends (Some self.old.written) (Some self.new.written) piece.now) }
        ensures quiet { OnOk result (self.new.faults ≡ self.old.faults) }
        ensures front { OnErr result (AppendsFront (Some self.old.written) (Some self.new.written) piece.now) }
        ensures cause { OnErr result (RoseOrIsLast self.old.faults self.new.faults) }
        ensures never_falls { self.old.faults ≤ self.new.faults }

        // What this sink does.
        ensures fails { IsErr result ↔ (Contains self.old.failing self.old.call ⊎ (self.old.room < length piece.now)) }
        ensures after { OnOk result (self.new ≡ after_write self.old piece.now) }
        ensures after_failing { Contains self.old.failing self.old.call → self.new ≡ after_write_fault self.old [] }
        ensures after_full { ¬ Contains self.old.failing self.old.call → self.old.room < length piece.now
            → self.new ≡ after_write_fault self.old (take self.old.room piece.now) }
    {
        let call = self.call;
        self.call = call.saturating_add(1);
        if !self.failing.contains(&call) && self.append(piece) == piece.len() {
            return Ok(());
        }
        self.faults = self.faults.saturating_add(1);
        Err(Failed)
    }

    /// It holds nothing back, and never fails.
    fn flush(&mut self) -> Result<(), Failed>
        // What every sink does.
        ensures keeps { Keeps (Some self.old.written) (Some self.new.written) }
        ensures quiet { OnOk result (self.new.faults ≡ self.old.faults) }
        ensures cause { OnErr result (RoseOrIsLast self.old.faults self.new.faults) }
        ensures never_falls { self.old.faults ≤ self.new.faults }

        // What this sink does.
        ensures unchanged { self.new ≡ self.old }
        ensures works { IsOk result }
    {
        Ok(())
    }
}
