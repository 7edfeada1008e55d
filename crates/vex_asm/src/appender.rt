//! Appending the text of a meaning to a text of fixed capacity.

ghost use Rattle.std.specs.Prelude.{◌≡◌, ◌≤◌, ◌+◌, ◌++◌, decimal, unwrap_or};
ghost use Rattle.std.specs.Fmt.{signed_decimal};
ghost use Rattle.arrayvec.specs.ArrayString.{array_string_len};
ghost use Rattle.x86_opcode.specs.Name.{opcode_name};
ghost use Rattle.x86_operand.specs.Meaning.{operand_meaning, memory};
ghost use Rattle.vex_asm.specs.Text.{register_text, base_text, index_text, operand_text, mark_text, text};
ghost use Rattle.vex_asm.specs.Written.{operands_text};

use arrayvec::ArrayString;
use itoa::Buffer;
use x86_operand::{Address, Index, Instruction, Opcode, Operand, RegSpec, RegisterBank};

/// The capacity of the text of a line, in bytes.
pub const MAX_TEXT: usize = 256;

/// How many bytes the text of a meaning has, at most: 5 of the mark, 16 of the name, 27 for each operand with its
/// space, and 4 of the size with its space.
pub const MAX_MEANING: usize = 133;

/// Appends a number in decimal. The caller leaves room for 20 bytes.
pub fn append_number(buffer: &mut ArrayString<MAX_TEXT>, number: usize)
    requires room { array_string_len buffer.old + 20 ≤ MAX_TEXT }
    ensures written { buffer.new.bytes ≡ buffer.old.bytes ++ decimal number }
    ensures short { array_string_len buffer.new ≤ array_string_len buffer.old + 20 }
{
    let mut digits = Buffer::new();
    buffer.push_str(digits.format(number));
}

/// Appends a number of one byte in decimal.
fn append_byte(buffer: &mut ArrayString<MAX_TEXT>, number: u8)
    requires { array_string_len buffer.old + 3 ≤ MAX_TEXT }
    ensures written { buffer.new.bytes ≡ buffer.old.bytes ++ decimal number }
    ensures short { array_string_len buffer.new ≤ array_string_len buffer.old + 3 }
{
    let mut digits = Buffer::new();
    buffer.push_str(digits.format(number));
}

/// Appends a signed number in decimal.
fn append_signed(buffer: &mut ArrayString<MAX_TEXT>, number: i32)
    requires { array_string_len buffer.old + 11 ≤ MAX_TEXT }
    ensures written { buffer.new.bytes ≡ buffer.old.bytes ++ signed_decimal number }
    ensures short { array_string_len buffer.new ≤ array_string_len buffer.old + 11 }
{
    let mut digits = Buffer::new();
    buffer.push_str(digits.format(number));
}

/// Appends a register: the letter of its bank and its number, or `rip`. The caller leaves room for 4 bytes.
pub fn append_register(buffer: &mut ArrayString<MAX_TEXT>, reg: RegSpec)
    requires room { array_string_len buffer.old + 4 ≤ MAX_TEXT }
    ensures written { buffer.new.bytes ≡ buffer.old.bytes ++ register_text reg }
    ensures short { array_string_len buffer.new ≤ array_string_len buffer.old + 4 }
{
    let letter = match reg.bank() {
        RegisterBank::Q => "q",
        RegisterBank::D => "d",
        RegisterBank::X => "x",
        RegisterBank::Y => "y",
        RegisterBank::Z => "z",
        RegisterBank::RIP => "rip",
    };
    buffer.push_str(letter);
    if reg.bank() != RegisterBank::RIP {
        append_byte(buffer, reg.num());
    }
}

/// Appends the base of an address, `-` for none.
fn append_base(buffer: &mut ArrayString<MAX_TEXT>, base: Option<RegSpec>)
    requires { array_string_len buffer.old + 4 ≤ MAX_TEXT }
    ensures written { buffer.new.bytes ≡ buffer.old.bytes ++ base_text base }
    ensures short { array_string_len buffer.new ≤ array_string_len buffer.old + 4 }
{
    match base {
        Some(reg) => append_register(buffer, reg),
        None => buffer.push_str("-"),
    }
}

/// Appends the index of an address with its scale, `-` for none.
fn append_index(buffer: &mut ArrayString<MAX_TEXT>, index: Option<Index>)
    requires { array_string_len buffer.old + 8 ≤ MAX_TEXT }
    ensures written { buffer.new.bytes ≡ buffer.old.bytes ++ index_text index }
    ensures short { array_string_len buffer.new ≤ array_string_len buffer.old + 8 }
{
    match index {
        Some(index) => {
            append_register(buffer, index.reg);
            buffer.push_str("*");
            append_byte(buffer, index.scale);
        }
        None => buffer.push_str("-"),
    }
}

/// Appends an address: `m`, its base, its index and its displacement.
fn append_address(buffer: &mut ArrayString<MAX_TEXT>, address: &Address)
    requires { array_string_len buffer.old + 26 ≤ MAX_TEXT }
    ensures written { buffer.new.bytes ≡ buffer.old.bytes ++ operand_text (memory address.now) }
    ensures short { array_string_len buffer.new ≤ array_string_len buffer.old + 26 }
{
    buffer.push_str("m");
    append_base(buffer, address.base);
    buffer.push_str("/");
    append_index(buffer, address.index);
    buffer.push_str("/");
    append_signed(buffer, address.disp);
}

/// Appends an operand.
fn append_operand(buffer: &mut ArrayString<MAX_TEXT>, operand: &Operand)
    requires { array_string_len buffer.old + 26 ≤ MAX_TEXT }
    ensures written { buffer.new.bytes ≡ buffer.old.bytes ++ operand_text (operand_meaning operand.now) }
    ensures short { array_string_len buffer.new ≤ array_string_len buffer.old + 26 }
{
    match operand {
        Operand::Register { reg } => append_register(buffer, *reg),
        Operand::ImmediateI8 { imm } => {
            buffer.push_str("i");
            append_signed(buffer, i32::from(*imm));
        }
        Operand::ImmediateU8 { imm } => {
            buffer.push_str("u");
            append_byte(buffer, *imm);
        }
        Operand::MemDeref { .. } | Operand::Memory { .. } => {
            if let Some(address) = operand.address() {
                append_address(buffer, &address);
            }
        }
        Operand::Nothing => buffer.push_str("nothing"),
    }
}

/// Appends the operands of an instruction, a space before each.
fn append_operands(buffer: &mut ArrayString<MAX_TEXT>, instruction: &Instruction)
    requires { array_string_len buffer.old + 108 ≤ MAX_TEXT }
    ensures written { buffer.new.bytes ≡ buffer.old.bytes ++ operands_text instruction.now.meaning.operands }
    ensures short { array_string_len buffer.new ≤ array_string_len buffer.old + 108 }
{
    for i in 0..instruction.operand_count() {
        buffer.push_str(" ");
        append_operand(buffer, &instruction.operand(i));
    }
}

/// Appends the EVEX mark, where there is one.
fn append_mark(buffer: &mut ArrayString<MAX_TEXT>, evex: bool)
    requires { array_string_len buffer.old + 5 ≤ MAX_TEXT }
    ensures written { buffer.new.bytes ≡ buffer.old.bytes ++ mark_text evex }
    ensures short { array_string_len buffer.new ≤ array_string_len buffer.old + 5 }
{
    if evex {
        buffer.push_str("EVEX.");
    }
}

/// Appends an opcode's name. The caller leaves room for 16 bytes.
#[tactic(auto, using(crate::proofs::Names::name_short))]
pub fn append_name(buffer: &mut ArrayString<MAX_TEXT>, opcode: Opcode)
    requires room { array_string_len buffer.old + 16 ≤ MAX_TEXT }
    ensures written { buffer.new.bytes ≡ buffer.old.bytes ++ opcode_name opcode }
    ensures short { array_string_len buffer.new ≤ array_string_len buffer.old + 16 }
{
    buffer.push_str(opcode.name());
}

/// The number of bytes of the memory operand: 0 where there is none, and 63 where it isn't known, for which
/// `bytes_size` is `None`.
fn size_of(instruction: &Instruction) -> u8
    ensures { result ≡ unwrap_or instruction.now.meaning.size 0 }
{
    match instruction.mem_size() {
        Some(size) => size.bytes_size().unwrap_or(63),
        None => 0,
    }
}

/// Appends the text of an instruction's meaning, which has at most 133 bytes: the opcode's name, with `EVEX.` before it
/// where the instruction has the mark, the operands and the size of the memory operand, 0 for none, with one space
/// before each. The caller leaves room for 133 bytes.
#[tactic(auto, using(crate::proofs::Written::text_as_written))]
pub fn append(buffer: &mut ArrayString<MAX_TEXT>, instruction: &Instruction)
    requires room { array_string_len buffer.old + MAX_MEANING ≤ MAX_TEXT }
    ensures written { buffer.new.bytes ≡ buffer.old.bytes ++ text instruction.now.meaning }
    ensures short { array_string_len buffer.new ≤ array_string_len buffer.old + MAX_MEANING }
{
    append_mark(buffer, instruction.is_evex());
    append_name(buffer, instruction.opcode());
    append_operands(buffer, instruction);
    buffer.push_str(" ");
    append_byte(buffer, size_of(instruction));
}
