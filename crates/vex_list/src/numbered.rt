//! The choices of a prefix and of an address by their numbers, which go nearly by the order of their bytes.

ghost use Rattle.std.specs.Prelude.{◌≡◌, ◌↔◌, ◌<◌, ◌≤◌, ◌-◌, IsTrue, ℕ};
ghost use Rattle.std.specs.Option.{ForSome};
ghost use Rattle.vex_forms.specs.Operands.{target_seen};
ghost use Rattle.vex_decode.specs.Fields.{CanSay};
ghost use Rattle.vex_list.specs.Choices.{Allows, IsAddressForm, IsChoices, prefix_form};
ghost use Rattle.vex_list.specs.Sets.{IsOpenPrefix, address_form, address_forms, prefix_choice, seen_fields, width_at};

use crate::choices::{AddressForm, Choices, PrefixForm, RowParts, Width};
use vex_forms::OperandE;
use vex_rows::Map;

/// The form of a prefix and its bits R, X and B with a number below 16: bit 3 of the number says the form, and the
/// others are R, X and B as they stand in the prefix, inverted (Intel SDM volume 2, figure 2-9). All else is 0.
#[tactic(auto, unfolding(crate::specs::Sets::prefix_choice))]
pub fn prefix_choice(number: u8) -> Choices
    ensures value { result ≡ prefix_choice number }
    ensures fits { IsChoices result }
{
    Choices {
        form: if number / 8 == 0 {
            PrefixForm::ThreeBytes
        } else {
            PrefixForm::TwoBytes
        },
        r: number / 4 % 2 == 0,
        x: number / 2 % 2 == 0,
        b: number % 2 == 0,
        vvvv: 0,
        address: AddressForm::WithoutSib(Width::NoBytes),
        low: 0,
    }
}

/// Whether the form of the prefix can say the rest: one of two bytes has map 0F alone, and W, X and B are 0.
fn can_say(parts: &RowParts, choices: &Choices) -> bool
    ensures { IsTrue result ↔ CanSay (prefix_form choices.now.form) (seen_fields parts.now choices.now) }
{
    match choices.form {
        PrefixForm::ThreeBytes => true,
        PrefixForm::TwoBytes => parts.map == Map::Map0F && !parts.w && !choices.x && !choices.b,
    }
}

/// Whether a bit is the fixed one, where one is fixed.
fn allows(fixed: Option<bool>, bit: bool) -> bool
    ensures { IsTrue result ↔ Allows fixed bit }
{
    match fixed {
        Some(fixed) => bit == fixed,
        None => true,
    }
}

/// Whether the row leaves the form of a prefix and its bits R, X and B open.
pub fn is_open(parts: &RowParts, choices: &Choices) -> bool
    ensures { IsTrue result ↔ IsOpenPrefix parts.now choices.now }
{
    can_say(parts, choices)
        && allows(parts.r, choices.r)
        && allows(parts.x, choices.x)
        && allows(parts.b, choices.b)
}

/// The values of vvvv, inverted: the first, and the end of them.
pub fn inverted_vvvv(fixed: Option<u8>) -> (u8, u8)
    requires { ForSome fixed (λ v. v < 16) }
    ensures all { (v : ℕ) → v < 16 → Allows fixed v → (result.0 ≤ 15 - v) × (15 - v < result.1) }
    ensures some { result.0 ≤ result.1 }
    ensures within { result.1 ≤ 16 }
{
    match fixed {
        Some(vvvv) => (15 - vvvv, 16 - vvvv),
        None => (0, 16),
    }
}

/// How many forms the operand E has: an address 15, and all else one.
pub fn address_forms(e: &OperandE) -> u8
    ensures { result ≡ address_forms (target_seen e.now) }
{
    match *e {
        OperandE::Absent | OperandE::Register(_) => 1,
        OperandE::Memory(_) => 15,
    }
}

/// The width with a number below 3.
fn width_at(number: u8) -> Width
    ensures { result ≡ width_at number }
{
    match number {
        0 => Width::NoBytes,
        1 => Width::OneByte,
        _ => Width::FourBytes,
    }
}

/// The form of an address with a number below 15: five of each width, of which the first has no SIB byte.
#[tactic(auto, unfolding(crate::specs::Sets::address_form))]
pub fn address_form(number: u8) -> AddressForm
    ensures value { result ≡ address_form number }
    ensures fits { IsAddressForm result }
{
    let width = width_at(number / 5);
    if number % 5 == 0 {
        AddressForm::WithoutSib(width)
    } else {
        AddressForm::WithSib(number % 5 - 1, width)
    }
}
