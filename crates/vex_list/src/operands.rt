//! What the operands of an instruction say of the bytes.

ghost use Rattle.std.specs.Prelude.{◌≡◌, ◌≤◌, ◌+◌, length};
ghost use Rattle.x86_operand.specs.Kind.{InMemory};
ghost use Rattle.x86_operand.specs.Meaning.{operand_meaning};
ghost use Rattle.x86_address.specs.Place.{At};
ghost use Rattle.x86_address.specs.Shortest.{plain};
ghost use Rattle.vex_forms.specs.Operands.{target_seen};
ghost use Rattle.vex_encode.specs.Standard.{imm_of, operand_of_kind, target_of};
ghost use Rattle.vex_list.specs.Choices.{kind_by, lows_of, names};

use vex_forms::{OperandE, Slot};
use x86_operand::{Address, Instruction, Operand, RegSpec, RegisterBank};

/// The kinds of slots, whatever their banks.
#[derive(Clone, Copy, PartialEq, Eq, Debug)]
pub enum SlotKind {
    /// The register of the field reg.
    G,
    /// The register of the field vvvv.
    V,
    /// The register of the field rm, or an address.
    E,
    /// What the immediate byte names.
    Immediate,
}

impl SlotKind {
    /// Whether a slot is of the kind.
    fn names(self, slot: Slot) -> bool
        ensures { result ≡ names self slot }
    {
        match slot {
            Slot::G(_) => self == SlotKind::G,
            Slot::V(_) => self == SlotKind::V,
            Slot::E(_) => self == SlotKind::E,
            Slot::U8 | Slot::I8 | Slot::R4(_) => self == SlotKind::Immediate,
        }
    }
}

/// The operand at the first slot of a kind, `Nothing` where there is none.
pub fn operand_of(kind: SlotKind, slots: &[Slot], instruction: &Instruction) -> Operand
    requires { length slots.now ≤ 4 }
    ensures { operand_meaning result ≡ operand_of_kind (names kind) slots.now instruction.now.meaning.operands }
{
    for (i, slot) in slots.iter().enumerate() {
        if kind.names(*slot) {
            return instruction.operand(i as u8);
        }
    }
    Operand::Nothing
}

/// The least immediate byte that names an operand, and how many bytes from that on do: the one that is its value's low
/// eight bits, or the sixteen whose high four bits are a register's number (Intel SDM volume 2, section 2.3.9).
pub fn immediates_of(operand: Operand) -> (u8, u8)
    ensures least { result.0 ≡ imm_of (operand_meaning operand) }
    ensures count { result.1 ≡ lows_of (operand_meaning operand) }
    ensures within { result.0 + result.1 ≤ 256 }
{
    match operand {
        Operand::Register { reg } => (reg.num() % 16 * 16, 16),
        Operand::ImmediateI8 { imm } => (imm.to_le_bytes()[0], 1),
        Operand::ImmediateU8 { imm } => (imm, 1),
        Operand::MemDeref { .. } | Operand::Memory { .. } | Operand::Nothing => (0, 1),
    }
}

/// The address that an operand is, and some other address of all else, which isn't what the instruction says.
fn address_of(operand: Operand) -> Address
    ensures { At (plain result) ≡ target_of InMemory (operand_meaning operand) }
{
    operand.address().unwrap_or(Address {
        base: RegSpec::of(RegisterBank::Q, 0),
        index: None,
        disp: 0,
    })
}

/// What the bytes from ModRM on name, by the operand at the slot E.
pub fn operand_e(has_modrm: bool, memory: bool, operand: Operand) -> OperandE
    ensures { target_seen result ≡ target_of (kind_by has_modrm memory) (operand_meaning operand) }
{
    if !has_modrm {
        OperandE::Absent
    } else if memory {
        OperandE::Memory(address_of(operand))
    } else {
        OperandE::Register(operand.number())
    }
}
