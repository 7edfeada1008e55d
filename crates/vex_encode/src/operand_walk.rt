//! What the operands of an instruction ask for, slot by slot.

ghost use Rattle.std.specs.Prelude.{◌≡◌, ◌↔◌, ◌≤◌, IsSome, IfSome, IsTrue, List, [], ◌∷◌, length, true};
ghost use Rattle.x86_operand.specs.Instruction.{operand_at};
ghost use Rattle.x86_operand.specs.Kind.{Kind as KindSeen};
ghost use Rattle.x86_operand.specs.Meaning.{OperandMeaning, number_of, operand_meaning};
ghost use Rattle.vex_forms.specs.declared.slot.Slot.{Slot};
ghost use Rattle.vex_forms.specs.Slots.{names_imm};
ghost use Rattle.vex_encode.specs.Assembly.{IsAsked, IsRegisterOf};
ghost use Rattle.vex_encode.specs.Conditions.{OperandFits, OperandsFit};
ghost use Rattle.vex_forms.specs.Reads.{kind_seen};
ghost use Rattle.vex_encode.specs.Standard.{imm_of};

use crate::fits::{placed_fits, register_fits};
use vex_forms::{Kind, Slot};
use x86_operand::{Instruction, Operand, RegisterBank};

/// The number of a register that can stand at a slot of that bank.
fn number_at(bank: RegisterBank, operand: Operand) -> Option<u8>
    ensures fits { IsSome result ↔ IsRegisterOf bank (operand_meaning operand) }
    ensures number { IfSome result (λ num. num ≡ number_of (operand_meaning operand)) }
    ensures within { IfSome result (λ num. num ≤ 15) }
{
    match operand {
        Operand::Register { reg } if register_fits(bank, reg) => Some(reg.num()),
        _ => None,
    }
}

/// The immediate byte that an operand asks for at a slot: its value's low eight bits, or 16 times a register's number.
fn imm_at(slot: Slot, operand: Operand) -> Option<u8>
    requires { names_imm slot ≡ true }
    ensures fits { (kind : KindSeen) (bank : RegisterBank)
        → (IsSome result ↔ OperandFits kind bank slot (operand_meaning operand)) }
    ensures byte { IfSome result (λ imm. imm ≡ imm_of (operand_meaning operand)) }
{
    match slot {
        Slot::U8 => match operand {
            Operand::ImmediateU8 { imm } => Some(imm),
            _ => None,
        },
        Slot::I8 => match operand {
            Operand::ImmediateI8 { imm } => Some(imm.to_le_bytes()[0]),
            _ => None,
        },
        Slot::R4(bank) => match number_at(bank, operand) {
            Some(num) => Some(16 * num),
            None => None,
        },
        Slot::G(_) | Slot::V(_) | Slot::E(_) => unreachable!(),
    }
}

/// The place of an operand that an instruction doesn't have, since it has at most four.
const NO_PLACE: u8 = 4;

/// What operands ask for, each by the first slot of its kind.
#[derive(Clone, Copy, Debug)]
pub struct Asked {
    /// The number of the register at the slot of the field reg, 0 where there is none.
    pub g: u8,
    /// The number of the register at the slot of vvvv, 0 where there is none.
    pub v: u8,
    /// The place of the operand at the slot of E, 4 where there is none.
    pub e: u8,
    /// The immediate byte, 0 where there is none.
    pub imm: u8,
}

impl Asked {
    /// What no operands ask for.
    fn nothing() -> Asked
        ensures { (all : List OperandMeaning) → length all ≤ 4 → IsAsked all [] [] result }
    {
        Asked {
            g: 0,
            v: 0,
            e: NO_PLACE,
            imm: 0,
        }
    }

    /// Adds what the operand at a place asks for, which stands with its slot before the others. Answers whether it can
    /// stand there.
    #[inline(always)]
    fn put_before(
        &mut self,
        kind: Kind,
        index_bank: RegisterBank,
        slot: Slot,
        instruction: &Instruction,
        i: u8,
    ) -> bool
        ensures fits { IsTrue result
            ↔ OperandFits (kind_seen kind) index_bank slot (operand_at instruction.now.meaning.operands i) }
        ensures asked { (slots : List Slot) (operands : List OperandMeaning) → IsTrue result
            → IsAsked instruction.now.meaning.operands slots operands self.old
            → IsAsked instruction.now.meaning.operands (slot ∷ slots)
            (operand_at instruction.now.meaning.operands i ∷ operands) self.new }
    {
        match slot {
            Slot::G(bank) => match number_at(bank, instruction.operand(i)) {
                Some(num) => self.g = num,
                None => return false,
            },
            Slot::V(bank) => match number_at(bank, instruction.operand(i)) {
                Some(num) => self.v = num,
                None => return false,
            },
            Slot::E(bank) => {
                if !placed_fits(kind, index_bank, bank, instruction.operand(i)) {
                    return false;
                }
                self.e = i;
            }
            Slot::U8 | Slot::I8 | Slot::R4(_) => match imm_at(slot, instruction.operand(i)) {
                Some(imm) => self.imm = imm,
                None => return false,
            },
        }
        true
    }
}

/// What the operands of an instruction ask for, where there are as many as slots, and each can stand at its slot.
#[inline(always)]
pub fn operands_asked(
    kind: Kind,
    index_bank: RegisterBank,
    slots: &[Slot],
    instruction: &Instruction,
) -> Option<Asked>
    ensures fit { IsSome result ↔ OperandsFit (kind_seen kind) index_bank slots.now instruction.now.meaning.operands }
    ensures asked { IfSome result (IsAsked instruction.now.meaning.operands slots.now
        instruction.now.meaning.operands) }
{
    if usize::from(instruction.operand_count()) != slots.len() {
        return None;
    }
    // From the last to the first, so that the first slot of a kind decides.
    let mut asked = Asked::nothing();
    let mut i = slots.len();
    while i > 0 {
        i -= 1;
        if !asked.put_before(kind, index_bank, slots[i], instruction, i as u8) {
            return None;
        }
    }
    Some(asked)
}
