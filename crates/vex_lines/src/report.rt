//! What is written for a line.

ghost use Rattle.std.specs.Prelude.{◌≡◌, ◌≤◌, ◌/◌, [], length, take, Ok, Err, IfOk, IfSome, IfNone, IsErr, IsOk};
ghost use Rattle.std.specs.Prelude.{MatchResult};
ghost use Rattle.hex.specs.Hex.{decode_of};
ghost use Rattle.vex_lines.specs.Ends.{Writes};
ghost use Rattle.vex_lines.specs.Internal.Stops.{Answers};
ghost use Rattle.vex_lines.specs.ErrorLine.{error_line};
ghost use Rattle.vex_lines.specs.Report.{answer, code, digits, line_error_name, line_report, report, sweep_report};
ghost use Rattle.vex_lines.specs.Report.{MayLackMemory};

use crate::asm_line::write_asm_line;
use crate::command::{Command, LineCommand};
use crate::emulate_lines::{LineMachine, MEMORY_BYTES, write_emulated};
use crate::ends::{Failed, Sink};
use crate::least_lines::write_least;
use crate::line_text::{LineText, error_text};
use crate::note_lines::write_notes;
use crate::result_line::write_result_line;
use crate::spelling_lines::write_spellings;
use crate::stop::Stop;
use crate::sweep_lines::write_sweep;
use arrayvec::ArrayVec;
use std::alloc::Global;
use vex_asm::is_blank;
use x86_operand::FieldDescription;
use x86_reader::ListSink;
use x86_settings::InstDecoder;

/// How many bytes a line has, at most.
pub const MAX_LINE: usize = 8192;

/// How many bytes a line writes in hex digits, at most.
const MAX_CODE: usize = MAX_LINE / 2;

/// Why a line writes no code.
#[derive(Clone, Copy, PartialEq, Eq, Debug)]
pub enum LineError {
    /// It has more than 8,192 bytes.
    LongLine,
    /// Without blanks it is not an even number of hex digits.
    BadHex,
}

impl LineError {
    /// The variant's own spelling.
    pub fn name(&self) -> &'static str
        ensures { result.now ≡ line_error_name self.now }
    {
        match self {
            LineError::LongLine => "LongLine",
            LineError::BadHex => "BadHex",
        }
    }
}

/// Keeps the line without its spaces, tabs and bytes 13.
fn keep_digits(line: &[u8], kept: &mut ArrayVec<u8, MAX_LINE>)
    requires { length line.now ≤ MAX_LINE }
    ensures { kept.new.items ≡ digits line.now }
{
    kept.clear();
    for &byte in line {
        if !is_blank(byte) {
            kept.push(byte);
        }
    }
}

/// Decodes hex digits to the first places of `bytes`, and answers how many bytes they write: `None` where they aren't
/// an even number of such digits.
fn decode_digits(text: &[u8], bytes: &mut [u8]) -> Option<usize>
    requires { length text.now / 2 ≤ length bytes.now }
    ensures within { IfSome result (λ n. n ≤ length bytes.new) }
    ensures decoded { IfSome result (λ n. decode_of text.now ≡ Ok (take n bytes.new)) }
    ensures refused { IfNone result (IsErr (decode_of text.now)) }
{
    let n = text.len() / 2;
    match hex::decode_to_slice(text, &mut bytes[..n]) {
        Ok(()) => Some(n),
        Err(_) => None,
    }
}

/// What the commands put together for a line: a list of notes, the text of a line of the output, and a machine that
/// runs the line's bytes.
#[derive(Drop)]
struct Scratch<'a> {
    notes: ListSink<FieldDescription>,
    text: LineText,
    machine: LineMachine<'a>,
}

/// Room for the digits of a line, for the bytes that they write and for what the commands put together. It is made once
/// and lent to each line: to make it anew, by value, would take longer than all else that a line needs.
#[derive(Drop)]
pub struct LineRoom<'a> {
    digits: ArrayVec<u8, MAX_LINE>,
    bytes: [u8; MAX_CODE],
    scratch: Scratch<'a>,
}

impl<'a> LineRoom<'a> {
    /// Room that holds nothing yet. The memory is the machine's.
    pub fn new(memory: &'a mut [u8; MEMORY_BYTES]) -> LineRoom<'a> {
        LineRoom {
            digits: ArrayVec::new(),
            bytes: [0; MAX_CODE],
            scratch: Scratch {
                notes: ListSink::new(),
                text: LineText::new(),
                machine: LineMachine::new(memory),
            },
        }
    }

    /// Decodes the line's digits to the first places of `bytes`, and answers how many.
    fn decode(&mut self, line: &[u8]) -> Result<usize, LineError>
        requires { length line.now ≤ MAX_LINE }
        ensures within { IfOk result (λ n. n ≤ MAX_CODE) }
        ensures decoded { MatchResult result (λ n. code line.now ≡ Ok (take n self.new.bytes))
            (λ e. code line.now ≡ Err e) }
    {
        if let Some(n) = decode_digits(line, &mut self.bytes) {
            // Without blanks the digits are decoded where they lie.
            return Ok(n);
        }
        keep_digits(line, &mut self.digits);
        match decode_digits(self.digits.as_slice(), &mut self.bytes) {
            Some(n) => Ok(n),
            None => Err(LineError::BadHex),
        }
    }
}

/// Writes the line that names the error, in one write. `Failed` where the sink's write fails.
pub fn write_error<K: Sink>(
    error: LineError,
    room: &mut LineRoom,
    sink: &mut K,
) -> Result<(), Failed>
    ensures { Writes result (K.text sink.old) (K.text sink.new) (K.faults sink.old) (K.faults sink.new)
        (error_line (line_error_name error)) }
{
    error_text(&mut room.scratch.text, error.name());
    sink.write_all(room.scratch.text.as_str().as_bytes())
}

/// Writes what a command answers for what it takes of a line. `Failed` where a write of the sink fails.
fn write_answer<K: Sink>(
    command: &LineCommand,
    bytes: &[u8],
    scratch: &mut Scratch<'_>,
    sink: &mut K,
) -> Result<(), Failed>
    ensures { Writes result (K.text sink.old) (K.text sink.new) (K.faults sink.old) (K.faults sink.new)
        (answer command.now bytes.now) }
{
    let text = &mut scratch.text;
    match command {
        LineCommand::Recode(settings) => write_result_line(settings, bytes, text, sink),
        LineCommand::Notes(settings) => {
            write_notes(settings, bytes, &mut scratch.notes, text, sink)
        }
        LineCommand::Asm(settings) => write_asm_line(settings, bytes, text, sink),
        LineCommand::Emulate(settings) => {
            write_emulated(settings, bytes, &mut scratch.machine, text, sink)
        }
        LineCommand::Spellings(settings) => write_spellings(settings, bytes, text, sink),
        LineCommand::Least => write_least(bytes, text, sink),
    }
}

/// Writes what a command that answers each line by itself writes for one, which may have any length. `Failed` where a
/// write of the sink fails. It takes no memory, and so can be called where there is no heap; what the room holds plays
/// no part.
#[tactic(auto, unfolding(crate::specs::Report::line_report))]
pub fn answer_line<K: Sink>(
    command: &LineCommand,
    line: &[u8],
    room: &mut LineRoom<'_>,
    sink: &mut K,
) -> Result<(), Failed>
    ensures { Writes result (K.text sink.old) (K.text sink.new) (K.faults sink.old) (K.faults sink.new)
        (line_report command.now line.now) }
{
    if line.len() > MAX_LINE {
        return write_error(LineError::LongLine, room, sink);
    }
    if command.reads_text() {
        return write_answer(command, line, &mut room.scratch, sink);
    }
    match room.decode(line) {
        Ok(n) => write_answer(command, &room.bytes[..n], &mut room.scratch, sink),
        Err(error) => write_error(error, room, sink),
    }
}

/// Writes the sweep of a line. `WriteFault` where a write of the sink fails, and `NoMemory` where there is none, and
/// then nothing is written.
#[tactic(auto, unfolding(crate::specs::Report::sweep_report))]
fn write_sweep_report<K: Sink>(
    alloc: Global,
    settings: &InstDecoder,
    line: &[u8],
    room: &mut LineRoom<'_>,
    sink: &mut K,
) -> Result<(), Stop>
    requires { length line.now ≤ MAX_LINE }
    ensures { Answers (λ written. (written ≡ []) × IsOk (code line.now)) result
        (K.text sink.old) (K.text sink.new) (K.faults sink.old) (K.faults sink.new)
        (sweep_report settings.now line.now) }
{
    match room.decode(line) {
        Ok(n) => write_sweep(
            alloc,
            settings,
            &room.bytes[..n],
            &mut room.scratch.text,
            sink,
        ),
        Err(error) => {
            write_error(error, room, sink)?;
            Ok(())
        }
    }
}

/// Writes the report of a line. `WriteFault` where a write of the sink fails, and `NoMemory` where there is none, and
/// then nothing is written.
pub fn write_report<K: Sink>(
    alloc: Global,
    command: &Command,
    line: &[u8],
    room: &mut LineRoom,
    sink: &mut K,
) -> Result<(), Stop>
    requires { length line.now ≤ MAX_LINE }
    ensures { Answers (λ written. (written ≡ []) × MayLackMemory command.now line.now) result
        (K.text sink.old) (K.text sink.new) (K.faults sink.old) (K.faults sink.new) (report command.now line.now) }
{
    match command {
        Command::EachLine(command) => {
            answer_line(command, line, room, sink)?;
            Ok(())
        }
        Command::Sweep(settings) => write_sweep_report(alloc, settings, line, room, sink),
        // It reads no lines.
        Command::Make(_) => Ok(()),
    }
}
