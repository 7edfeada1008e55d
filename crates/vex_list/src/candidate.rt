//! Writing the bytes of a choice.

ghost use Rattle.std.specs.Prelude.{◌≡◌, ◌<◌, ◌≤◌, ◌+◌, ◌++◌, ◌∷◌, length};
ghost use Rattle.x86_address.specs.Bytes.{displacement_bytes, doubleword_bytes};
ghost use Rattle.x86_address.specs.Place.{mod_of_displacement, place_bytes};
ghost use Rattle.x86_address.specs.Shortest.{doubleword_of, index_field, plain_index};
ghost use Rattle.vex_forms.specs.Fields.{fields_of};
ghost use Rattle.vex_forms.specs.Operands.{target_seen};
ghost use Rattle.vex_decode.specs.Fields.{prefix_bytes};
ghost use Rattle.vex_decode.specs.Spelling.{imm_bytes};
ghost use Rattle.vex_list.specs.Choices.{IsAddressForm, IsChoices, displacement_with, exponent_in, numbered_with};
ghost use Rattle.vex_list.specs.Choices.{place_with, prefix_form};
ghost use Rattle.vex_list.specs.Sets.{address_place, seen_fields};

use crate::choices::{AddressForm, Choices, PrefixForm, RowParts, Width};
use arrayvec::ArrayVec;
use vex_decode::{MAX_BYTES, three_byte_prefix, two_byte_prefix};
use vex_forms::OperandE;
use vex_rows::Prefix;
use x86_address::pack_fields;
use x86_operand::{Address, Index, RegisterBank};

/// The bytes of a choice.
pub type Bytes = ArrayVec<u8, MAX_BYTES>;

/// The fields of the prefix.
fn prefix_fields(parts: &RowParts, choices: &Choices) -> Prefix
    ensures fields { fields_of result ≡ seen_fields parts.now choices.now }
    ensures vvvv { result.vvvv ≡ choices.now.vvvv }
{
    Prefix {
        map: parts.map,
        pp: parts.pp,
        w: parts.w,
        l: parts.l,
        r: choices.r,
        x: choices.x,
        b: choices.b,
        vvvv: choices.vvvv,
    }
}

/// The bytes of the prefix (Intel SDM volume 2, figure 2-9).
fn prefix(parts: &RowParts, choices: &Choices) -> Bytes
    requires { IsChoices choices.now }
    ensures bytes { result.items ≡ prefix_bytes (prefix_form choices.now.form) (seen_fields parts.now choices.now) }
    ensures short { length result.items ≤ 3 }
{
    let mut bytes = ArrayVec::new();
    let fields = prefix_fields(parts, choices);
    match choices.form {
        PrefixForm::TwoBytes => {
            let [first, second] = two_byte_prefix(&fields);
            bytes.push(first);
            bytes.push(second);
        }
        PrefixForm::ThreeBytes => {
            let [first, second, third] = three_byte_prefix(&fields);
            bytes.push(first);
            bytes.push(second);
            bytes.push(third);
        }
    }
    bytes
}

/// The index field of SIB, 4 for none.
fn index_field(index: Option<Index>) -> u8
    ensures value { result ≡ index_field (plain_index index) }
    ensures within { result < 8 }
{
    match index {
        None => 4,
        Some(index) => index.reg.num() % 8,
    }
}

/// The mod field of a width.
fn mode(width: Width, disp: i32) -> u8
    ensures value { result ≡ mod_of_displacement (displacement_with width disp) }
    ensures within { result < 3 }
{
    match width {
        Width::NoBytes => 0,
        Width::OneByte => 1,
        Width::FourBytes => 2,
    }
}

/// Appends a displacement in four bytes.
fn push_doubleword(bytes: &mut Bytes, disp: i32)
    requires { length bytes.old.items ≤ 6 }
    ensures { bytes.new.items ≡ bytes.old.items ++ doubleword_bytes (doubleword_of disp) }
{
    let [lowest, second, third, highest] = disp.to_le_bytes();
    bytes.push(lowest);
    bytes.push(second);
    bytes.push(third);
    bytes.push(highest);
}

/// Appends a displacement of a width: in one byte its lowest eight bits.
fn push_displacement(bytes: &mut Bytes, width: Width, disp: i32)
    requires { length bytes.old.items ≤ 6 }
    ensures bytes { bytes.new.items ≡ bytes.old.items ++ displacement_bytes (displacement_with width disp) }
    ensures short { length bytes.new.items ≤ length bytes.old.items + 4 }
{
    match width {
        Width::NoBytes => {}
        Width::OneByte => bytes.push(disp.to_le_bytes()[0]),
        Width::FourBytes => push_doubleword(bytes, disp),
    }
}

/// Appends the bytes of an address with a base of this number.
fn push_numbered(
    bytes: &mut Bytes,
    reg: u8,
    form: AddressForm,
    number: u8,
    index: Option<Index>,
    disp: i32,
)
    requires room { length bytes.old.items ≤ 4 }
    requires reg { reg < 8 }
    requires form { IsAddressForm form }
    ensures bytes { bytes.new.items ≡ bytes.old.items
        ++ place_bytes reg (numbered_with form number (plain_index index) disp) }
    ensures short { length bytes.new.items ≤ length bytes.old.items + 6 }
{
    match form {
        AddressForm::WithoutSib(width) => {
            bytes.push(pack_fields(mode(width, disp), reg, number % 8));
            push_displacement(bytes, width, disp);
        }
        AddressForm::WithSib(exponent, width) => {
            bytes.push(pack_fields(mode(width, disp), reg, 4));
            bytes.push(pack_fields(exponent, index_field(index), number % 8));
            push_displacement(bytes, width, disp);
        }
    }
}

/// The exponent that a form of an address writes.
fn exponent(form: AddressForm) -> u8
    requires { IsAddressForm form }
    ensures value { result ≡ exponent_in form }
    ensures within { result < 4 }
{
    match form {
        AddressForm::WithoutSib(_) => 0,
        AddressForm::WithSib(exponent, _) => exponent,
    }
}

/// Appends the bytes of an address.
fn push_address(bytes: &mut Bytes, reg: u8, form: AddressForm, address: Address)
    requires room { length bytes.old.items ≤ 4 }
    requires reg { reg < 8 }
    requires form { IsAddressForm form }
    ensures bytes { bytes.new.items ≡ bytes.old.items ++ place_bytes reg (address_place form address) }
    ensures short { length bytes.new.items ≤ length bytes.old.items + 6 }
{
    match address.base {
        None => {
            bytes.push(pack_fields(0, reg, 4));
            bytes.push(pack_fields(exponent(form), index_field(address.index), 5));
            push_doubleword(bytes, address.disp);
        }
        Some(base) if base.bank() == RegisterBank::RIP => {
            bytes.push(pack_fields(0, reg, 5));
            push_doubleword(bytes, address.disp);
        }
        Some(base) => {
            push_numbered(bytes, reg, form, base.num(), address.index, address.disp);
        }
    }
}

/// Appends the bytes from ModRM on, where there are some.
fn push_place(bytes: &mut Bytes, reg: u8, form: AddressForm, e: OperandE)
    requires room { length bytes.old.items ≤ 4 }
    requires reg { reg < 8 }
    requires form { IsAddressForm form }
    ensures bytes { bytes.new.items ≡ bytes.old.items ++ place_bytes reg (place_with form (target_seen e)) }
    ensures short { length bytes.new.items ≤ length bytes.old.items + 6 }
{
    match e {
        OperandE::Absent => {}
        OperandE::Register(number) => bytes.push(pack_fields(3, reg, number % 8)),
        OperandE::Memory(address) => push_address(bytes, reg, form, address),
    }
}

/// The bytes of a choice: prefix, opcode byte, those of the operand E, and the immediate where there is one.
pub fn candidate(parts: &RowParts, choices: &Choices) -> Bytes
    requires fits { IsChoices choices.now }
    requires low { choices.now.low < parts.now.lows }
    ensures { result.items ≡ prefix_bytes (prefix_form choices.now.form) (seen_fields parts.now choices.now)
        ++ parts.now.byte ∷ (place_bytes parts.now.reg (place_with choices.now.address (target_seen parts.now.e))
        ++ imm_bytes parts.now.has_imm (parts.now.imm + choices.now.low)) }
{
    let mut bytes = prefix(parts, choices);
    bytes.push(parts.byte);
    push_place(&mut bytes, parts.reg, choices.address, parts.e);
    if parts.has_imm {
        bytes.push(parts.imm + choices.low);
    }
    bytes
}
