//! The shortest bytes of the meaning that a line writes.

ghost use Rattle.std.specs.Prelude.{◌≡◌, ◌↔◌, ◌<◌, ℕ, List, Some, IfOk, IsErr, Ok, Err};
ghost use Rattle.x86_operand.specs.Meaning.{Meaning};
ghost use Rattle.x86_operand.specs.Range.{IsMeaning};
ghost use Rattle.vex_decode.specs.Spelling.{Spells};
ghost use Rattle.vex_encode.specs.Canon.{canon};
ghost use Rattle.vex_asm.specs.declared.error.AsmError.TheVariants.{BadText, NoSpelling};
ghost use Rattle.vex_asm.specs.Text.{text};
ghost use Rattle.vex_asm.specs.Laws.{IsTextOf};
ghost use Rattle.vex_asm.specs.Assembly.{Assembles, AssemblesTo, HasNoSpelling};

use crate::error::AsmError;
use crate::reader::read;
use std::marker::Brand;
use std::sync::ledger::{Blank, Ledger};
use step_counter::Steps;
use vex_encode::laws::recode_again;
use vex_encode::{Spelling, encode_shortest};
use x86_operand::{EncodeError, Instruction};

/// The canonical bytes of an instruction's meaning, with a counter of their own.
fn shortest<L: Ledger>(instruction: &Instruction, blank: Blank) -> Result<Spelling, EncodeError>
    requires name { blank.name ≡ L.name }
    requires parts { blank.parts ≡ L.parts }
    requires some { 0 < blank.parts }
    ensures canonical { IfOk result (λ spelling. canon instruction.now.meaning ≡ Some spelling) }
    ensures none { IsErr result ↔ ((bytes : List ℕ) → Spells bytes instruction.now.meaning → ⊥) }
{
    encode_shortest(instruction, &mut Steps::<L>::new(blank))
}

/// The instruction of length 0 that a line writes, as `read` answers it, and the canonical bytes of its meaning. The
/// errors are those of `assemble`.
pub fn assemble_instruction(line: &[u8]) -> Result<(Instruction, Spelling), AsmError>
    ensures { Assembles line.now result }
{
    let instruction = read(line)?;
    match shortest::<Brand>(&instruction, Blank::new(1)) {
        Ok(spelling) => Ok((instruction, spelling)),
        Err(_) => Err(AsmError::NoSpelling),
    }
}

/// The canonical bytes of the meaning that a line writes, as `read` reads it: `VADDPS x0 x1 x2 0` gives C5 F0 58 C2.
///
/// `BadText` comes as for `read`, exactly where the line's words are no meaning's text. `NoSpelling` comes exactly
/// where they are the text of a meaning that no byte string spells.
pub fn assemble(line: &[u8]) -> Result<Spelling, AsmError>
    ensures assembled { IfOk result (λ spelling. AssemblesTo line.now spelling) }
    ensures only { (bytes : List ℕ) → AssemblesTo line.now bytes → result ≡ Ok bytes }
    ensures bad_text { result ≡ Err BadText ↔ ((m : Meaning) → IsTextOf line.now m → ⊥) }
    ensures no_spelling { result ≡ Err NoSpelling ↔ HasNoSpelling line.now }

    // The text of a meaning that has canonical bytes assembles to them.
    ensures again { (m : Meaning) (bytes : List ℕ) → IsMeaning m → text m ≡ line.now → canon m ≡ Some bytes
        → result ≡ Ok bytes }
{
    // A law: canonical bytes spell their meaning.
    recode_again();
    let (_, spelling) = assemble_instruction(line)?;
    Ok(spelling)
}
