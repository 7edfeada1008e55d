//! What a run of code changes in a machine, which is put back to the start for each line.

ghost use Rattle.std.specs.Prelude.{◌≡◌, ◌<◌, ◌≤◌, ◌+◌, ◌++◌, codes, decimal, length};
ghost use Rattle.std.specs.Simd.Lanes.{chunk};
ghost use Rattle.hex.specs.Hex.{encode_lower};
ghost use Rattle.vex_lines.specs.EmulateLines.{block_lines, changed_line, emulate_lines, ran_line, start, start_vector};
ghost use Rattle.vex_lines.specs.EmulateLines.{vector_lines};
ghost use Rattle.vex_emul.specs.Run.{ran};
ghost use Rattle.vex_lines.specs.Ends.{Writes};

use crate::counting_bytes::CountingBytes;
use crate::ends::{Failed, Sink};
use crate::line_text::{LineText, push_hex, push_stopped};
use std::marker::Model;
use vex_asm::append_number;
use vex_emul::{Halt, Machine, run_code};
use x86_settings::InstDecoder;

/// How many bytes the memory of the machine has.
pub const MEMORY_BYTES: usize = 1024;

/// How many bytes a vector has, and a block of the memory.
const BLOCK_BYTES: usize = 32;

/// How many blocks the memory has.
const BLOCKS: usize = MEMORY_BYTES / BLOCK_BYTES;

/// How many vectors the machine has.
const VECTORS: u8 = 16;

/// A vector of the machine at the start begins with so many times its number.
const VECTOR_STEP: usize = 16;

/// A general register at the start holds so many times its number.
const NUMBER_STEP: u64 = 32;

/// A vector at the start.
fn start_vector(counting: &CountingBytes, i: u8) -> &[u8]
    requires { i < 16 }
    ensures { result.now ≡ start_vector i }
{
    counting.part(VECTOR_STEP * usize::from(i), BLOCK_BYTES)
}

/// Puts a machine that may have run code back to the start.
fn put_back(machine: &mut Machine<'_>, counting: &CountingBytes)
    requires { length machine.old.memory ≡ 1024 }
    ensures { machine.new ≡ start }
{
    machine.reset();
    machine
        .memory_mut()
        .copy_from_slice(counting.part(0, MEMORY_BYTES));
    for i in 0..VECTORS {
        let mut vector = [0; BLOCK_BYTES];
        vector.copy_from_slice(start_vector(counting, i));
        machine.set_vector(i, &vector);
        machine.set_q(i, NUMBER_STEP * u64::from(i));
    }
}

/// A machine with 1,024 bytes of memory, and the bytes of its start, which are made once and lent to each line. A line
/// finds the machine as the line before left it, and begins by putting it back to the start.
#[derive(Drop)]
pub struct LineMachine<'a> {
    machine: Machine<'a>,
    counting: CountingBytes,
}

impl<'a> Model for LineMachine<'a> {
    ghost use Rattle.std.specs.Prelude.{◌≡◌, length};
    ghost use Rattle.vex_emul.specs.Machine.{State};

    ghost Value = { State };

    ghost view = { λ m. m.machine };

    ghost invariant = { λ m. length m.machine.memory ≡ 1024 };
}

impl<'a> LineMachine<'a> {
    /// A machine over these bytes, which have no part in what a line writes.
    pub fn new(memory: &'a mut [u8; MEMORY_BYTES]) -> LineMachine<'a> {
        LineMachine {
            machine: Machine::new(memory),
            counting: CountingBytes::new(),
        }
    }

    /// Runs the code under settings, from the start.
    fn run(&mut self, settings: &InstDecoder, code: &[u8]) -> Result<usize, Halt>
        ensures { ran settings.now start code.now ≡ (self.new, result) }
    {
        put_back(&mut self.machine, &self.counting);
        run_code(&mut self.machine, settings, code)
    }
}

/// Makes the text the line of some bytes: a letter and a number, which name them, and the bytes in hex digits.
fn changed_text(text: &mut LineText, letter: &str, number: usize, bytes: &[u8])
    requires letter { length letter.now ≤ 1 }
    requires bytes { length bytes.now ≤ 32 }
    ensures { text.new.bytes ≡ letter.now ++ decimal number ++ codes " " ++ encode_lower bytes.now ++ codes "\n" }
{
    text.clear();
    text.push_str(letter);
    append_number(text, number);
    text.push_str(" ");
    push_hex(text, bytes);
    text.push_str("\n");
}

/// Writes the line of some bytes, in one write, unless they are still those of the start.
fn write_changed<K: Sink>(
    letter: &str,
    number: usize,
    bytes: &[u8],
    first: &[u8],
    text: &mut LineText,
    sink: &mut K,
) -> Result<(), Failed>
    requires letter { length letter.now ≤ 1 }
    requires bytes { length bytes.now ≤ 32 }
    ensures { Writes result (K.text sink.old) (K.text sink.new) (K.faults sink.old) (K.faults sink.new)
        (changed_line letter.now number bytes.now first.now) }
{
    if bytes == first {
        return Ok(());
    }
    changed_text(text, letter, number, bytes);
    sink.write_all(text.as_str().as_bytes())
}

/// Writes the lines of the vectors that changed.
fn write_vectors<K: Sink>(
    machine: &Machine<'_>,
    counting: &CountingBytes,
    text: &mut LineText,
    sink: &mut K,
) -> Result<(), Failed>
    ensures { Writes result (K.text sink.old) (K.text sink.new) (K.faults sink.old) (K.faults sink.new)
        (vector_lines machine.now.vectors) }
{
    for i in 0..VECTORS {
        let number = usize::from(i);
        write_changed(
            "y",
            number,
            machine.vector(i),
            start_vector(counting, i),
            text,
            sink,
        )?;
    }
    Ok(())
}

/// The block of the memory at a place.
fn block_at(memory: &[u8], place: usize) -> &[u8]
    requires { place + 32 ≤ length memory.now }
    ensures is { result.now ≡ chunk place 32 memory.now }
    ensures long { length result.now ≡ 32 }
{
    &memory[place..place + BLOCK_BYTES]
}

/// Writes the lines of the blocks of the memory that changed.
fn write_blocks<K: Sink>(
    memory: &[u8],
    counting: &CountingBytes,
    text: &mut LineText,
    sink: &mut K,
) -> Result<(), Failed>
    requires { length memory.now ≡ 1024 }
    ensures { Writes result (K.text sink.old) (K.text sink.new) (K.faults sink.old) (K.faults sink.new)
        (block_lines memory.now) }
{
    for b in 0..BLOCKS {
        let place = BLOCK_BYTES * b;
        let start = counting.part(place, BLOCK_BYTES);
        write_changed("m", place, block_at(memory, place), start, text, sink)?;
    }
    Ok(())
}

/// Makes the text the line of the end of a run.
fn ran_text(text: &mut LineText, answer: &Result<usize, Halt>)
    ensures { text.new.bytes ≡ ran_line answer.now }
{
    text.clear();
    match answer {
        Ok(count) => {
            text.push_str("end ");
            append_number(text, *count);
        }
        Err(halt) => push_stopped(text, halt.place, halt.cause.name()),
    }
    text.push_str("\n");
}

/// Runs the code under settings from the start of the machine, and writes a line for each vector and each block of the
/// memory that it changed, and one for the end, in one write each. `Failed` where a write of the sink fails.
pub fn write_emulated<K: Sink>(
    settings: &InstDecoder,
    code: &[u8],
    machine: &mut LineMachine<'_>,
    text: &mut LineText,
    sink: &mut K,
) -> Result<(), Failed>
    ensures { Writes result (K.text sink.old) (K.text sink.new) (K.faults sink.old) (K.faults sink.new)
        (emulate_lines settings.now code.now) }
{
    let answer = machine.run(settings, code);
    write_vectors(&machine.machine, &machine.counting, text, sink)?;
    write_blocks(machine.machine.memory(), &machine.counting, text, sink)?;
    ran_text(text, &answer);
    sink.write_all(text.as_str().as_bytes())
}
