//! The loop over the input.

ghost use Rattle.std.specs.Prelude.{◌≡◌, ◌<◌, min, None};
ghost use Rattle.std.specs.Io.KnownBytes.{Keeps};
ghost use Rattle.vex_lines.specs.Command.{count_made};
ghost use Rattle.vex_lines.specs.Internal.Stops.{IsStopped};
ghost use Rattle.vex_lines.specs.Report.{report, MayLackMemory};
ghost use Rattle.vex_lines.specs.Internal.Run.{Ran};

use crate::command::Command;
use crate::emulate_lines::MEMORY_BYTES;
use crate::ends::{Failed, PIECE, Sink, Source};
use crate::line_buffer::{LineBuffer, feed, finish};
use crate::report::LineRoom;
use crate::status::Status;
use crate::stop::Stop;
use std::alloc::Global;

/// How many bytes of input a run answers, at most. It takes one more where there is one, which tells that the limit
/// is passed.
pub const INPUT_LIMIT: usize = 1 << 26;

/// How many bytes a read asks for: a piece, or what is left to the limit where that is less, and one byte
/// at the limit.
fn wanted(room: usize) -> usize
    ensures to_limit { 0 < room → result ≡ min room PIECE }
    ensures at_limit { room ≡ 0 → result ≡ 1 }
{
    room.clamp(1, PIECE)
}

/// Why a run stops in the midst of a piece. Where there was no memory for a line, the answers of those before it are
/// handed on first.
fn stopped<K: Sink>(stop: Stop, sink: &mut K) -> Stop
    ensures keeps { Keeps (K.text sink.old) (K.text sink.new) }
    ensures cause { IsStopped stop result (K.faults sink.old) (K.faults sink.new) }
{
    match stop {
        Stop::WriteFault => stop,
        Stop::NoMemory => match sink.flush() {
            Ok(()) => stop,
            Err(failed) => Stop::from(failed),
        },
    }
}

/// Reads lines to the end of the input, and answers each, with a command that reads lines. Before each read and at the
/// end, what the sink holds back is handed on: who waits for an answer before he gives the next line has it.
pub fn answer_input<S: Source, K: Sink>(
    alloc: Global,
    command: &Command,
    source: &mut S,
    sink: &mut K,
) -> Status
    requires { count_made command.now ≡ None }
    ensures { Ran (report command.now) (MayLackMemory command.now) result
        (record {
          left = S.left source.old;
          given = S.given source.old;
          source_faults = S.faults source.old;
          text =
              K.text sink.old;
          sink_faults = K.faults sink.old;
        })
        (record {
          left = S.left source.new;
          given = S.given source.new;
          source_faults = S.faults source.new;
          text =
              K.text sink.new;
          sink_faults = K.faults sink.new;
        }) }
{
    let mut line = LineBuffer::new();
    let mut memory = [0; MEMORY_BYTES];
    let mut lent = LineRoom::new(&mut memory);
    let mut buffer = [0u8; PIECE];
    let mut room = INPUT_LIMIT;
    loop {
        if let Err(Failed) = sink.flush() {
            return Status::WriteFault;
        }
        let piece = &mut buffer[..wanted(room)];
        match source.read(piece) {
            Err(Failed) => return Status::ReadFault,
            Ok(0) => {
                return match finish(alloc, command, &line, &mut lent, sink) {
                    Ok(()) => Status::Done,
                    Err(stop) => stop.status(),
                };
            }
            Ok(_) if room == 0 => return Status::TooLong,
            Ok(n) => {
                if let Err(stop) = feed(alloc, command, &mut line, &piece[..n], &mut lent, sink) {
                    return stopped(stop, sink).status();
                }
                room -= n;
            }
        }
    }
}
