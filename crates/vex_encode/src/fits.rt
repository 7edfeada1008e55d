//! Whether a row can give an instruction: what it asks of the mark, the opcode, the size and each operand.

ghost use Rattle.std.specs.Prelude.{◌≡◌, ◌↔◌, IsSome, IfSome, IsTrue, Some};
ghost use Rattle.x86_operand.specs.Meaning.{operand_meaning};
ghost use Rattle.vex_forms.specs.Layout.{chosen};
ghost use Rattle.vex_forms.specs.Slots.{slots};
ghost use Rattle.vex_encode.specs.Assembly.{IsAddressOf, IsAsked, IsRegisterOf};
ghost use Rattle.vex_forms.specs.Reads.{kind_seen};
ghost use Rattle.vex_encode.specs.Conditions.{AddressFits, CanGive, MayBegin, PlacedFits, RegisterFits, SlotBaseFits};
ghost use Rattle.vex_encode.specs.Conditions.{SlotIndexFits, first_bank};

use crate::operand_walk::{Asked, operands_asked};
use vex_forms::{Choice, Kind, Slot};
use x86_operand::{Address, Index, Instruction, Operand, RegSpec, RegisterBank};

/// Whether a register is one of the sixteen of a bank that a prefix can name.
pub fn register_fits(bank: RegisterBank, reg: RegSpec) -> bool
    ensures { IsTrue result ↔ RegisterFits bank reg }
{
    reg.bank() == bank && reg.num() <= 15
}

/// Whether an address can have this base beside this index.
fn base_fits(base: Option<RegSpec>, index: Option<Index>) -> bool
    ensures { IsTrue result ↔ SlotBaseFits base index }
{
    match base {
        None => true,
        Some(base) => match base.bank() {
            RegisterBank::Q => register_fits(RegisterBank::Q, base),
            RegisterBank::RIP => base.num() == 0 && index.is_none(),
            _ => false,
        },
    }
}

/// Whether an address can have this index, of that bank: the number 4 means none, unless the index is a vector
/// register, which has to be there (Intel SDM volume 2, sections 2.1.5 and 2.3.12).
fn index_fits(vector: bool, bank: RegisterBank, index: Option<Index>) -> bool
    ensures { IsTrue result ↔ SlotIndexFits vector bank index }
{
    match index {
        None => !vector,
        Some(index) => {
            register_fits(bank, index.reg)
                && (vector || index.reg.num() != 4)
                && matches!(index.scale, 1 | 2 | 4 | 8)
        }
    }
}

/// Whether bytes can name an address with an index of that bank, which is a vector register or not.
fn address_fits(vector: bool, bank: RegisterBank, address: Address) -> bool
    ensures { IsTrue result ↔ AddressFits vector bank address }
{
    base_fits(address.base, address.index) && index_fits(vector, bank, address.index)
}

/// Whether an operand is a register that can stand at a slot of that bank.
fn is_register_of(bank: RegisterBank, operand: Operand) -> bool
    ensures { IsTrue result ↔ IsRegisterOf bank (operand_meaning operand) }
{
    match operand {
        Operand::Register { reg } => register_fits(bank, reg),
        _ => false,
    }
}

/// Whether an operand is an address that bytes can name, with an index of that bank, which is a vector register or not.
fn is_address_of(vector: bool, bank: RegisterBank, operand: Operand) -> bool
    ensures { IsTrue result ↔ IsAddressOf vector bank (operand_meaning operand) }
{
    match operand {
        Operand::MemDeref { base } => !vector && base_fits(Some(base), None),
        Operand::Memory { address } => address_fits(vector, bank, address),
        _ => false,
    }
}

/// Whether an operand can stand at a slot E of that bank.
pub fn placed_fits(
    kind: Kind,
    index_bank: RegisterBank,
    bank: RegisterBank,
    operand: Operand,
) -> bool
    ensures { IsTrue result ↔ PlacedFits (kind_seen kind) index_bank bank (operand_meaning operand) }
{
    match kind {
        Kind::WithoutModRM => false,
        Kind::Register => is_register_of(bank, operand),
        Kind::Memory => is_address_of(false, index_bank, operand),
        Kind::Vector => is_address_of(true, index_bank, operand),
    }
}

/// The bank of the first operand, where that is a register.
pub fn first_bank(instruction: &Instruction) -> Option<RegisterBank>
    ensures { result ≡ first_bank instruction.now.meaning.operands }
{
    match instruction.operand(0) {
        Operand::Register { reg } => Some(reg.bank()),
        _ => None,
    }
}

/// Whether a register is the first operand, and of that bank.
#[inline(always)]
fn begins_with(bank: RegisterBank, first: Option<RegisterBank>) -> bool
    ensures { IsTrue result ↔ first ≡ Some bank }
{
    match first {
        Some(other) => other == bank,
        None => false,
    }
}

/// Whether an operand can stand at the first slot of a row, with its operand E in memory or not, as far as is told by
/// the bank that the operand has where it is a register. It tells most rows of an entry apart, by their L.
#[inline(always)]
pub fn may_begin(slot: Option<Slot>, memory: bool, first: Option<RegisterBank>) -> bool
    ensures { IsTrue result ↔ MayBegin slot memory first }
{
    match slot {
        Some(Slot::G(bank)) => begins_with(bank, first),
        Some(Slot::V(bank)) => begins_with(bank, first),
        Some(Slot::E(bank)) => {
            if memory {
                first.is_none()
            } else {
                begins_with(bank, first)
            }
        }
        _ => true,
    }
}

/// What the operands of an instruction ask for, where the row that is chosen, with this kind of operand E, can give it.
/// The opcode comes last: it is the row's but where that goes by a group or the kind.
#[tactic(auto, unfolding(vex_rows::specs::Row::mark_of))]
#[inline(always)]
pub fn given(kind: Kind, choice: &Choice, instruction: &Instruction) -> Option<Asked>
    requires { (chosen choice.now).kind ≡ kind_seen kind }
    ensures gives { IsSome result ↔ CanGive (chosen choice.now) instruction.now.meaning }
    ensures asked { IfSome result (IsAsked instruction.now.meaning.operands (slots (chosen choice.now))
        instruction.now.meaning.operands) }
{
    let (slots, index_bank) = choice.slots_and_index_bank();
    if instruction.is_evex() || instruction.mem_size() != choice.memory_size() {
        return None;
    }
    let asked = operands_asked(kind, index_bank, slots.as_slice(), instruction)?;
    if instruction.opcode().is(choice.opcode()) {
        Some(asked)
    } else {
        None
    }
}
