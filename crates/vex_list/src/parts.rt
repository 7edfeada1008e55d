//! What all spellings of an instruction by a row have in common.

ghost use Rattle.std.specs.Prelude.{◌≡◌, ◌<◌, ℕ};
ghost use Rattle.std.specs.List.{list_any};
ghost use Rattle.std.specs.Option.{ForSome};
ghost use Rattle.x86_address.specs.Shortest.{is_upper, plain_base, plain_index};
ghost use Rattle.vex_forms.specs.Layout.{IsLayout, row_for};
ghost use Rattle.vex_forms.specs.Operands.{target_seen};
ghost use Rattle.vex_forms.specs.Slots.{names_g};
ghost use Rattle.vex_list.specs.Choices.{b_fixed, b_of_base, r_fixed, v_fixed, x_fixed, x_of_index};
ghost use Rattle.vex_list.specs.Sets.{IsRowParts};

use crate::choices::RowParts;
use crate::operands::{SlotKind, immediates_of, operand_e, operand_of};
use vex_forms::{OperandE, RowLayout, Slot, VvvvRule};
use vex_rows::Entry;
use x86_operand::{Index, Instruction, RegSpec, RegisterBank};

/// Whether bit 3 of a number is set, which a prefix bit says.
fn is_upper(number: u8) -> bool
    ensures { result ≡ is_upper number }
{
    number / 8 % 2 == 1
}

/// Whether a slot names the field reg.
fn names_g(slots: &[Slot]) -> bool
    ensures { result ≡ list_any names_g slots.now }
{
    slots.iter().any(|slot| matches!(slot, Slot::G(_)))
}

/// The bit R, where a slot names the field reg.
fn fixed_r(slots: &[Slot], g: u8) -> Option<bool>
    ensures { result ≡ r_fixed (list_any names_g slots.now) g }
{
    if names_g(slots) {
        Some(is_upper(g))
    } else {
        None
    }
}

/// The bit X that an index fixes.
fn index_x(index: Option<Index>) -> Option<bool>
    ensures { result ≡ x_of_index (plain_index index) }
{
    match index {
        None => None,
        Some(index) => Some(is_upper(index.reg.num())),
    }
}

/// The bit X, where the operand E fixes it.
fn fixed_x(e: &OperandE) -> Option<bool>
    ensures { result ≡ x_fixed (target_seen e.now) }
{
    match *e {
        OperandE::Absent | OperandE::Register(_) => None,
        OperandE::Memory(address) => index_x(address.index),
    }
}

/// The bit B that a base fixes.
fn base_b(base: Option<RegSpec>) -> Option<bool>
    ensures { result ≡ b_of_base (plain_base base) }
{
    match base {
        None => None,
        Some(base) if base.bank() == RegisterBank::RIP => None,
        Some(base) => Some(is_upper(base.num())),
    }
}

/// The bit B, where the operand E fixes it.
fn fixed_b(e: &OperandE) -> Option<bool>
    ensures { result ≡ b_fixed (target_seen e.now) }
{
    match *e {
        OperandE::Absent => None,
        OperandE::Register(number) => Some(is_upper(number)),
        OperandE::Memory(address) => base_b(address.base),
    }
}

/// The field vvvv, where the row fixes it.
fn fixed_vvvv(rule: VvvvRule, v: u8) -> Option<u8>
    ensures value { result ≡ v_fixed rule v }
    ensures within { ForSome result (λ v. v < 16) }
{
    match rule {
        VvvvRule::Named => Some(v % 16),
        VvvvRule::Zero => Some(0),
        VvvvRule::Free => None,
    }
}

/// What all spellings of the instruction by the row of this layout have in common.
pub fn parts_of(
    entry: &Entry,
    w: bool,
    l: bool,
    memory: bool,
    layout: &RowLayout,
    instruction: &Instruction,
) -> RowParts
    requires { ForSome layout.now.group (λ group. group < 8) }
    ensures { (group : ℕ) → IsLayout (row_for entry.now w l memory group) layout.now
        → IsRowParts (row_for entry.now w l memory group) instruction.now.meaning result }
{
    let slots = layout.slots.as_slice();
    let g = operand_of(SlotKind::G, slots, instruction).number();
    let v = operand_of(SlotKind::V, slots, instruction).number();
    let e = operand_e(
        layout.has_modrm,
        memory,
        operand_of(SlotKind::E, slots, instruction),
    );
    let (imm, lows) = immediates_of(operand_of(SlotKind::Immediate, slots, instruction));
    let x = fixed_x(&e);
    let b = fixed_b(&e);
    RowParts {
        map: entry.map,
        pp: entry.pp,
        w,
        l,
        byte: entry.byte,
        reg: layout.group.unwrap_or(g % 8),
        e,
        has_imm: layout.has_imm,
        imm,
        lows,
        r: fixed_r(slots, g),
        x,
        b,
        vvvv: fixed_vvvv(layout.vvvv, v),
    }
}
