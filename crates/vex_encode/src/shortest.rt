//! The shortest spelling of any meaning.

ghost use Rattle.std.specs.Prelude.{◌≡◌, ◌↔◌, ◌+◌, ◌≤◌, ℕ, List, Some, IfErr, IfOk, IsErr};
ghost use Rattle.x86_operand.specs.declared.error.EncodeError.TheVariants.{NoSpelling};
ghost use Rattle.vex_decode.specs.Spelling.{Spells};
ghost use Rattle.vex_encode.specs.Canon.{canon};

use crate::encode::canonical;
use crate::spelling::Spelling;
use std::sync::ledger::Ledger;
use step_counter::Steps;
use x86_operand::{EncodeError, Instruction};

/// The canonical bytes of an instruction's meaning: the first of the shortest standard bytes over all rows, 3 to 11
/// bytes. The length that the instruction holds plays no part. Counts a probe for each entry of the opcode, at most
/// four.
///
/// `NoSpelling` comes exactly where no byte string spells the meaning. These are the cases:
/// - The instruction has the EVEX mark, or no entry gives its opcode.
/// - No row of the opcode has the number of its operands, their kinds and banks, and its memory size.
/// - A register's number passes 15.
/// - An address has a base that is neither of bank `Q` nor the instruction pointer, or an index beside the instruction
///   pointer, or an index of another bank than the row's, or a scale other than 1, 2, 4 and 8. Where the row's index is
///   a vector register, it isn't there; where not, it has the number 4.
#[tactic(auto, using(crate::proofs::Canon::canon_spells, crate::proofs::Canon::none_spells, crate::proofs::Canon::never_none))]
pub fn encode_shortest<L: Ledger>(
    instruction: &Instruction,
    steps: &mut Steps<L>,
) -> Result<Spelling, EncodeError>
    ensures canonical { IfOk result (λ spelling. canon instruction.now.meaning ≡ Some spelling) }
    ensures spells { IfOk result (λ spelling. Spells spelling instruction.now.meaning) }
    ensures error { IfErr result (λ error. error ≡ NoSpelling) }
    ensures counted { steps.new ≤ steps.old + 4 }
    ensures none { IsErr result ↔ ((bytes : List ℕ) → Spells bytes instruction.now.meaning → ⊥) }
{
    match canonical(instruction, steps) {
        Some(spelling) => Ok(spelling),
        None => Err(EncodeError::NoSpelling),
    }
}
