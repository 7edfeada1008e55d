//! The operands that the slots of a row name, as they are added to an instruction. What is said of them holds where
//! each bank has sixteen registers, as in every row.

ghost use Rattle.std.specs.Prelude.{◌≡◌, ◌<◌, true};
ghost use Rattle.x86_address.specs.Bytes.{bit};
ghost use Rattle.x86_address.specs.Shortest.{in_banks, index_register, plain, plain_index};
ghost use Rattle.x86_operand.specs.Meaning.{memory, operand_meaning, register};
ghost use Rattle.x86_operand.specs.declared.register.RegisterBank.TheVariants.{Q};
ghost use Rattle.vex_forms.specs.Gives.{slot_operand};
ghost use Rattle.vex_forms.specs.Operands.{Adds, has_sixteen, slot_fits, target_seen};

use crate::operand_e::OperandE;
use crate::operand_fields::OperandFields;
use crate::slot::Slot;
use x86_operand::{Address, Index, Instruction, Operand, RegSpec, RegisterBank};

/// The index with its register in that bank.
fn index_in(bank: RegisterBank, index: Option<Index>) -> Option<Index>
    requires { index ≡ index_register Q (plain_index index) }
    ensures { has_sixteen bank ≡ true → result ≡ index_register bank (plain_index index) }
{
    let index = index?;
    let reg = RegSpec::of(bank, index.reg.num())?;
    Some(Index {
        reg,
        scale: index.scale,
    })
}

/// The address with its index in that bank.
fn address_in(bank: RegisterBank, address: Address) -> Address
    requires { address ≡ in_banks Q (plain address) }
    ensures { has_sixteen bank ≡ true → result ≡ in_banks bank (plain address) }
{
    Address {
        base: address.base,
        index: index_in(bank, address.index),
        disp: address.disp,
    }
}

/// Adds an operand, where there is room for it.
#[inline(always)]
fn add(operand: Operand, instruction: &mut Instruction)
    ensures added { Adds (operand_meaning operand) instruction.old instruction.new }
    ensures length { instruction.new.len ≡ instruction.old.len }
{
    // The rows have no more operands than there is room for.
    let _ = instruction.push(operand);
}

/// Adds the register of that number, below 16, as an operand.
#[inline(always)]
fn add_register(bank: RegisterBank, num: u8, instruction: &mut Instruction)
    requires { num < 16 }
    ensures added { has_sixteen bank ≡ true
        → Adds (register (record { bank = bank; num = num })) instruction.old instruction.new }
    ensures length { instruction.new.len ≡ instruction.old.len }
{
    // The remainder is the number itself. By it the compiler knows the number to be in the banks of a row.
    if let Some(reg) = RegSpec::of(bank, num % 16) {
        add(Operand::Register { reg }, instruction);
    }
}

/// Adds an address in memory as an operand, with its index in that bank.
#[inline(never)]
fn add_memory(index_bank: RegisterBank, address: Address, instruction: &mut Instruction)
    requires { address ≡ in_banks Q (plain address) }
    ensures added { has_sixteen index_bank ≡ true
        → Adds (memory (in_banks index_bank (plain address))) instruction.old instruction.new }
    ensures length { instruction.new.len ≡ instruction.old.len }
{
    let address = address_in(index_bank, address);
    add(Operand::Memory { address }, instruction);
}

/// Adds the operand that a slot names, with the index of an address in that bank.
#[inline(always)]
pub fn add_operand(
    slot: Slot,
    index_bank: RegisterBank,
    fields: &OperandFields,
    instruction: &mut Instruction,
)
    ensures added { slot_fits slot ≡ true → has_sixteen index_bank ≡ true
        → Adds (slot_operand index_bank (bit fields.now.r) fields.now.vvvv fields.now.reg (target_seen fields.now.e)
        fields.now.imm slot) instruction.old instruction.new }
    ensures length { instruction.new.len ≡ instruction.old.len }
{
    match slot {
        Slot::G(bank) if fields.r => add_register(bank, fields.reg + 8, instruction),
        Slot::G(bank) => add_register(bank, fields.reg, instruction),
        Slot::V(bank) => add_register(bank, fields.vvvv, instruction),
        Slot::E(bank) => match fields.e {
            OperandE::Absent => add(Operand::Nothing, instruction),
            OperandE::Register(num) => add_register(bank, num, instruction),
            OperandE::Memory(address) => add_memory(index_bank, address, instruction),
        },
        Slot::U8 => add(Operand::ImmediateU8 { imm: fields.imm }, instruction),
        Slot::I8 => {
            let imm = i8::from_le_bytes([fields.imm]);
            add(Operand::ImmediateI8 { imm }, instruction);
        }
        Slot::R4(bank) => add_register(bank, fields.imm / 16, instruction),
    }
}
