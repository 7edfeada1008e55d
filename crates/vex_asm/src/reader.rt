//! The instruction that a line writes.

ghost use Rattle.std.specs.Prelude.{◌≡◌, ◌≤◌, ◌++◌, Bool, Option, Some, option_map, take, IfSome, IfOk, IfErr, Ok, map};
ghost use Rattle.x86_opcode.specs.declared.Opcode.{Opcode};
ghost use Rattle.x86_opcode.specs.Name.{opcode_name};
ghost use Rattle.x86_operand.specs.Meaning.{Meaning, operand_meaning};
ghost use Rattle.x86_operand.specs.Range.{IsMeaning};
ghost use Rattle.vex_asm.specs.Text.{line_parts, mark_text, text, words};
ghost use Rattle.vex_asm.specs.Laws.{IsTextOf};
ghost use Rattle.vex_asm.specs.Parsed.{rest_of, few};
ghost use Rattle.vex_asm.specs.declared.error.AsmError.TheVariants.{BadText};

use crate::error::AsmError;
use crate::operand::{operand, size};
use crate::words::next_word;
use x86_operand::{Instruction, MAX_OPERANDS, MemoryAccessSize, Opcode, Operand};

/// What stands behind the name on a line: operands up to a count, and the size of the memory operand.
#[derive(Clone, Copy)]
struct Rest {
    operands: [Operand; MAX_OPERANDS],
    count: usize,
    size: Option<MemoryAccessSize>,
}

/// The opcode of a name.
fn opcode(name: &[u8]) -> Option<Opcode>
    ensures found { IfSome result (λ opcode. opcode_name opcode ≡ name.now) }
    ensures only { (opcode : Opcode) → opcode_name opcode ≡ name.now → result ≡ Some opcode }
{
    match str::from_utf8(name) {
        Ok(name) => Opcode::named(name),
        Err(_) => None,
    }
}

/// The opcode of the first word, and whether the EVEX mark stands before its name.
fn head(word: &[u8]) -> Option<(bool, Opcode)>
    ensures found { IfSome result (λ head. mark_text head.0 ++ opcode_name head.1 ≡ word.now) }
    ensures only { (evex : Bool) (opcode : Opcode) → mark_text evex ++ opcode_name opcode ≡ word.now
        → result ≡ Some (evex, opcode) }
{
    match word.strip_prefix(b"EVEX.".as_slice()) {
        Some(name) => Some((true, opcode(name)?)),
        None => Some((false, opcode(word)?)),
    }
}

/// The operands and the memory size of the words behind the name.
fn behind_name(bytes: &[u8]) -> Option<Rest>
    ensures value { option_map (λ p. (map operand_meaning (take p.count p.operands), p.size)) result
        ≡ few (rest_of (line_parts bytes.now)) }
    ensures count { IfSome result (λ p. p.count ≤ 4) }
{
    let (mut last, mut rest) = next_word(bytes)?;
    let mut operands = [Operand::Nothing; MAX_OPERANDS];
    let mut count = 0;
    while let Some((word, after)) = next_word(rest) {
        let operand = operand(last)?;
        if count >= MAX_OPERANDS {
            return None;
        }
        operands[count] = operand;
        count += 1;
        last = word;
        rest = after;
    }
    let size = size(last)?;
    Some(Rest {
        operands,
        count,
        size,
    })
}

/// The instruction that a line writes, with no error to tell.
fn instruction_of(line: &[u8]) -> Option<Instruction>
    ensures found { IfSome result (λ read. (read.len ≡ 0) × IsTextOf line.now read.meaning) }
    ensures only { (m : Meaning) → IsTextOf line.now m → result ≡ Some (record { meaning = m; len = 0 }) }
{
    let (name, after) = next_word(line)?;
    let (evex, opcode) = head(name)?;
    let rest = behind_name(after)?;
    Instruction::from_parts(evex, opcode, &rest.operands[..rest.count], rest.size)
}

/// The instruction of length 0 whose meaning has the words of the line as its text, as `VADDPS x0 x1 x2 0`. Words stand
/// between spaces, tabs and carriage returns, of any number, which may stand before the first and behind the last too.
///
/// `BadText` comes exactly where no meaning in range has this text, and no other error comes. So numbers are exact: one
/// with a leading zero, `-0`, a register that its bank doesn't have, an immediate, a scale, a displacement or a size
/// out of range, and a fifth operand are no text. What no bytes spell is a text all the same, as `VADDPS x0 0`.
pub fn read(line: &[u8]) -> Result<Instruction, AsmError>
    ensures found { IfOk result (λ read. (read.len ≡ 0) × IsTextOf line.now read.meaning) }
    ensures only { (m : Meaning) → IsTextOf line.now m → result ≡ Ok (record { meaning = m; len = 0 }) }
    ensures again { (m : Meaning) → IsMeaning m → text m ≡ line.now → result ≡ Ok (record { meaning = m; len = 0 }) }
    ensures refused { IfErr result (λ error. (error ≡ BadText) × ((m : Meaning) → IsTextOf line.now m → ⊥)) }
{
    instruction_of(line).ok_or(AsmError::BadText)
}
