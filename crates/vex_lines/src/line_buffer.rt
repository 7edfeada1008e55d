//! The unfinished line, and how a piece of the input ends lines.

ghost use Rattle.std.specs.Prelude.{◌≡◌, ◌≢◌, ◌≤◌, [], length, Some, OnOk, IfSome, IsSomeAnd, IsTrue, ◌↔◌};
ghost use Rattle.std.specs.Prelude.{option_copied};
ghost use Rattle.vex_lines.specs.Internal.Stops.{Answers};
ghost use Rattle.vex_lines.specs.Report.{report, MayLackMemory};
ghost use Rattle.vex_lines.specs.Internal.LineMachine.{appended, line_after, kept_report, ended, last, EndedBefore};

use crate::command::Command;
use crate::ends::Sink;
use crate::report::{LineError, LineRoom, MAX_LINE, write_error, write_report};
use crate::stop::Stop;
use arrayvec::ArrayVec;
use memchr::memchr;
use std::alloc::Global;
use std::marker::Model;

/// The byte that ends a line.
const LINE_END: u8 = b'\n';

/// The bytes of the unfinished line, as long as these are at most 8,192.
#[derive(Drop)]
pub struct LineBuffer {
    kept: ArrayVec<u8, MAX_LINE>,
    is_long: bool,
}

impl Model for LineBuffer {
    ghost use Rattle.std.specs.Prelude.{List, ℕ, Option, Some, None, if◌then◌else◌};

    ghost Value = { Option (List ℕ) };

    ghost view = { λ b. if b.is_long then None else Some b.kept.items };
}

impl LineBuffer {
    /// An empty line.
    pub fn new() -> LineBuffer
        ensures { result ≡ Some [] }
    {
        LineBuffer {
            kept: ArrayVec::new(),
            is_long: false,
        }
    }

    /// Appends bytes. From byte 8,193 on the line is too long, and `line` answers `None`.
    #[tactic(auto, using(crate::proofs::LineMachineLemmas::appending))]
    pub fn append(&mut self, bytes: &[u8])
        ensures { self.new ≡ appended self.old bytes.now }
    {
        if self.is_long {
            return;
        }
        if MAX_LINE - self.kept.len() < bytes.len() {
            self.is_long = true;
            return;
        }
        match self.kept.try_extend_from_slice(bytes) {
            Ok(()) => {}
            Err(_) => unreachable!(),
        }
    }

    /// Begins the next line.
    pub fn clear(&mut self)
        ensures { self.new ≡ Some [] }
    {
        self.kept.clear();
        self.is_long = false;
    }

    /// Whether the line has no byte.
    pub fn is_empty(&self) -> bool
        ensures { IsTrue result ↔ (self.now ≡ Some []) }
    {
        !self.is_long && self.kept.is_empty()
    }

    /// The line, or `None` where it is too long.
    pub fn line(&self) -> Option<&[u8]>
        ensures value { option_copied result ≡ self.now }
        ensures fits { IfSome result (λ line. length line.now ≤ MAX_LINE) }
    {
        if self.is_long {
            return None;
        }
        Some(self.kept.as_slice())
    }
}

/// Writes the report of the line.
fn answer<K: Sink>(
    alloc: Global,
    command: &Command,
    line: &LineBuffer,
    room: &mut LineRoom,
    sink: &mut K,
) -> Result<(), Stop>
    ensures { Answers (λ written. (written ≡ []) × IsSomeAnd line.now (MayLackMemory command.now)) result
        (K.text sink.old) (K.text sink.new) (K.faults sink.old) (K.faults sink.new)
        (kept_report (report command.now) line.now) }
{
    match line.line() {
        Some(bytes) => write_report(alloc, command, bytes, room, sink),
        None => {
            write_error(LineError::LongLine, room, sink)?;
            Ok(())
        }
    }
}

/// Takes the bytes before a line end, and answers the line that they complete.
fn end_line<K: Sink>(
    alloc: Global,
    command: &Command,
    line: &mut LineBuffer,
    bytes: &[u8],
    room: &mut LineRoom,
    sink: &mut K,
) -> Result<(), Stop>
    ensures kept { OnOk result (line.new ≡ Some []) }
    ensures written { Answers (λ written. (written ≡ [])
        × IsSomeAnd (appended line.old bytes.now) (MayLackMemory command.now)) result
        (K.text sink.old) (K.text sink.new) (K.faults sink.old) (K.faults sink.new)
        (kept_report (report command.now) (appended line.old bytes.now)) }
{
    if line.is_empty() && bytes.len() <= MAX_LINE {
        // The whole line lies here, and is not copied.
        return write_report(alloc, command, bytes, room, sink);
    }
    line.append(bytes);
    answer(alloc, command, line, room, sink)?;
    line.clear();
    Ok(())
}

/// Takes a piece of the input: answers each line that it ends, and keeps the rest. `WriteFault` where a write of the
/// sink fails, and `NoMemory` where there is none for a line, once those before it are answered.
pub fn feed<K: Sink>(
    alloc: Global,
    command: &Command,
    line: &mut LineBuffer,
    piece: &[u8],
    room: &mut LineRoom,
    sink: &mut K,
) -> Result<(), Stop>
    ensures kept { OnOk result (line.new ≡ line_after line.old piece.now) }
    ensures written { Answers (λ written. EndedBefore (report command.now) (MayLackMemory command.now) line.old
        piece.now written) result
        (K.text sink.old) (K.text sink.new) (K.faults sink.old) (K.faults sink.new)
        (ended (report command.now) line.old piece.now) }
{
    let mut rest = piece;
    while let Some(at) = memchr(LINE_END, rest) {
        end_line(alloc, command, line, &rest[..at], room, sink)?;
        rest = &rest[at + 1..];
    }
    line.append(rest);
    Ok(())
}

/// Hands on what the sink holds back.
fn hand_on<K: Sink>(sink: &mut K) -> Result<(), Stop>
    ensures { Answers (λ _. ⊥) result (K.text sink.old) (K.text sink.new) (K.faults sink.old) (K.faults sink.new) [] }
{
    sink.flush()?;
    Ok(())
}

/// Answers the line that has no end, unless it is empty, and hands on what the sink holds back. `WriteFault` where a
/// write of the sink fails or that does, and `NoMemory` where there is none.
pub fn finish<K: Sink>(
    alloc: Global,
    command: &Command,
    line: &LineBuffer,
    room: &mut LineRoom,
    sink: &mut K,
) -> Result<(), Stop>
    ensures { Answers (λ written. (written ≡ []) × (line.now ≢ Some [])
        × IsSomeAnd line.now (MayLackMemory command.now)) result
        (K.text sink.old) (K.text sink.new) (K.faults sink.old) (K.faults sink.new)
        (last (report command.now) line.now) }
{
    if line.is_empty() {
        return hand_on(sink);
    }
    answer(alloc, command, line, room, sink)?;
    hand_on(sink)
}
