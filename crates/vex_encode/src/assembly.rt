//! Putting together the numbers that the operands of an instruction ask for in a row.

ghost use Rattle.std.specs.Prelude.{◌≡◌, ◌<◌, Bool};
ghost use Rattle.std.specs.Option.{ForSome};
ghost use Rattle.x86_operand.specs.Instruction.{operand_at};
ghost use Rattle.x86_operand.specs.Kind.{is_vector};
ghost use Rattle.x86_operand.specs.Meaning.{Meaning, operand_meaning};
ghost use Rattle.x86_operand.specs.declared.register.RegisterBank.{RegisterBank};
ghost use Rattle.x86_operand.specs.declared.register.RegisterBank.TheVariants.{Q};
ghost use Rattle.x86_address.specs.Shortest.{in_banks, index_register, plain, plain_index};
ghost use Rattle.x86_address.specs.Spells.{BaseFits, IndexFits};
ghost use Rattle.vex_rows.specs.Row.{Row};
ghost use Rattle.vex_forms.specs.Operands.{BanksFit, NumberFits};
ghost use Rattle.vex_forms.specs.Slots.{slots};
ghost use Rattle.vex_encode.specs.Assembly.{AsksFor, CanBePlaced, HasNumbers, GeneralAddress, IsAddressOf};
ghost use Rattle.vex_encode.specs.Assembly.{IsAsked, IsPlaced};
ghost use Rattle.vex_forms.specs.Reads.{kind_seen};
ghost use Rattle.vex_encode.specs.Standard.{target_of};
ghost use Rattle.vex_encode.specs.Conditions.{AddressFits, SlotIndexFits};

use crate::operand_walk::Asked;
use vex_forms::{Kind, OperandE, OperandFields};
use x86_operand::{Address, Index, Operand, RegSpec, RegisterBank};

/// The index with its register in bank `Q`.
fn general_index(index: Option<Index>) -> Option<Index>
    requires { (vector : Bool) × (bank : RegisterBank) × SlotIndexFits vector bank index }
    ensures { result ≡ index_register Q (plain_index index) }
{
    match index {
        None => None,
        Some(index) => Some(Index {
            reg: RegSpec::of(RegisterBank::Q, index.reg.num()).unwrap(),
            scale: index.scale,
        }),
    }
}

/// The address with its index in bank `Q`, whichever bank the row says that it is of.
fn general_address(address: Address) -> Address
    requires { (vector : Bool) × (bank : RegisterBank) × AddressFits vector bank address }
    ensures { result ≡ in_banks Q (plain address) }
{
    Address {
        base: address.base,
        index: general_index(address.index),
        disp: address.disp,
    }
}

/// The address of an operand, with its index in bank `Q`. `vector` says whether that is a vector register.
fn address_at_e(vector: bool, operand: Operand) -> Address
    requires { (bank : RegisterBank) × IsAddressOf vector bank (operand_meaning operand) }
    ensures address { GeneralAddress (operand_meaning operand) result }
    ensures bytes { BaseFits result.base result.index × IndexFits vector result.index }
{
    match operand.address() {
        Some(address) => general_address(address),
        None => unreachable!(),
    }
}

/// What the operand at the slot E asks for.
fn operand_e(kind: Kind, operand: Operand) -> OperandE
    requires { (bank : RegisterBank) × IsPlaced (kind_seen kind) bank (operand_meaning operand) }
    ensures asks { AsksFor result (target_of (kind_seen kind) (operand_meaning operand)) }
    ensures placed { CanBePlaced (is_vector (kind_seen kind)) result }
    ensures number { NumberFits result }
    ensures banks { BanksFit result }
{
    match kind {
        Kind::WithoutModRM => OperandE::Absent,
        Kind::Register => OperandE::Register(operand.number() % 16),
        Kind::Memory => OperandE::Memory(address_at_e(false, operand)),
        Kind::Vector => OperandE::Memory(address_at_e(true, operand)),
    }
}

/// The numbers that operands ask for in a row with this kind of operand E and this reg field of a group, where they ask
/// for this slot by slot, and `e` is the operand at the slot of E.
#[inline(always)]
pub fn operand_fields(kind: Kind, group: Option<u8>, asked: Asked, e: Operand) -> OperandFields
    requires group { ForSome group (λ group. group < 8) }
    requires e { (bank : RegisterBank) × IsPlaced (kind_seen kind) bank (operand_meaning e) }
    ensures numbers { (row : Row) (m : Meaning) → row.kind ≡ kind_seen kind → row.group ≡ group
        → operand_meaning e ≡ operand_at m.operands asked.e → IsAsked m.operands (slots row) m.operands asked
        → HasNumbers row m result }
    ensures placed { CanBePlaced (is_vector (kind_seen kind)) result.e }
{
    OperandFields {
        r: asked.g / 8 % 2 == 1,
        vvvv: asked.v % 16,
        reg: group.unwrap_or(asked.g % 8),
        e: operand_e(kind, e),
        imm: asked.imm,
    }
}
