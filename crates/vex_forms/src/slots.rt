//! The slots of a row, and the banks of the registers that they name.

ghost use Rattle.std.specs.Prelude.{◌≡◌, ℕ, Option, [], ◌∷◌, take, if◌then◌else◌};
ghost use Rattle.vex_rows.specs.Row.{row_at};
ghost use Rattle.vex_forms.specs.Layout.{chosen, kind_for};
ghost use Rattle.vex_forms.specs.Shapes.{slots_seen};
ghost use Rattle.vex_forms.specs.Slots.{element_bank, first_of, gather_bank, gather_index_bank, general, index_bank};
ghost use Rattle.vex_forms.specs.Slots.{slots, vector};

use crate::choice::Choice;
use crate::shape::{BanksByOpcode, RowShape, shape_at};
use crate::slot::Slot;
use arrayvec::ArrayVec;
use vex_rows::Entry;
use x86_operand::RegisterBank::{Q, X, Y};
use x86_operand::{Opcode, RegisterBank};

/// The vector bank of an L: x with 0, y with 1.
#[inline(always)]
fn vector(l: bool) -> RegisterBank
    ensures { result ≡ vector (if l then 1 else 0) }
{
    if l { Y } else { X }
}

/// Whether the general bank of an element is q, that of the 64-bit ones.
#[inline(always)]
fn is_quadword(opcode: Opcode) -> bool
    ensures { element_bank opcode ≡ general result }
{
    matches!(opcode, Opcode::VPEXTRQ | Opcode::VPINSRQ)
}

/// The L whose vector bank a gather's operands have, 0 where the elements are half as wide as the indices, and the bank
/// of its index, x where the indices are half as wide as the elements.
#[inline(always)]
fn gather_banks(l: bool, opcode: Opcode) -> (bool, RegisterBank)
    ensures operands { gather_bank (if l then 1 else 0) opcode ≡ vector (if result.0 then 1 else 0) }
    ensures index { result.1 ≡ gather_index_bank (if l then 1 else 0) opcode }
{
    match opcode {
        Opcode::VPGATHERQD | Opcode::VGATHERQPS => (false, vector(l)),
        Opcode::VPGATHERDQ | Opcode::VGATHERDPD => (l, X),
        _ => (l, vector(l)),
    }
}

/// The first of four slots.
#[inline(always)]
fn first_slots(slots: (Slot, Slot, Slot, Slot), count: u8) -> ArrayVec<Slot, 4>
    ensures { result.items ≡ take count (slots.0 ∷ slots.1 ∷ slots.2 ∷ slots.3 ∷ []) }
{
    let (a, b, c, d) = slots;
    let mut first = ArrayVec::from([a, b, c, d]);
    first.truncate(count as usize);
    first
}

/// The shape that has the slots of an entry's rows, and the bank of the index of an address. The shape is the rows'
/// own, and where the opcode says the banks, that of the form at the W or L with these banks. The index is a vector
/// register where the form gathers, and of bank `Q` elsewhere.
#[inline(always)]
fn shape_and_index_bank(
    entry: &Entry,
    w: bool,
    l: bool,
    memory: bool,
) -> (&'static RowShape, RegisterBank)
    ensures slots { (group : Option ℕ) → slots_seen result.0.now ≡ slots (row_at entry.now w (if l then 1 else 0)
        (kind_for entry.now.form memory) group) }
    ensures index { (group : Option ℕ) → result.1 ≡ index_bank (row_at entry.now w (if l then 1 else 0)
        (kind_for entry.now.form memory) group) }
{
    let shape = shape_at(entry.form, w, l, memory);
    match shape.banks {
        BanksByOpcode::Fixed => (shape, Q),
        BanksByOpcode::Element => {
            let w = is_quadword(entry.opcode);
            (shape_at(entry.form, w, l, memory), Q)
        }
        BanksByOpcode::Gather => {
            let (l, index_bank) = gather_banks(l, entry.opcode);
            (shape_at(entry.form, w, l, memory), index_bank)
        }
    }
}

/// The first slot of the rows of an entry at that W, L and place of the operand E, `None` where they have no operands.
/// It takes no `Choice`, so that most rows which an instruction excludes are told before one is made.
#[inline(always)]
pub fn first_slot(entry: &Entry, w: bool, l: bool, memory: bool) -> Option<Slot>
    ensures { (group : Option ℕ) → result ≡ first_of (slots (row_at entry.now w (if l then 1 else 0)
        (kind_for entry.now.form memory) group)) }
{
    let (shape, _) = shape_and_index_bank(entry, w, l, memory);
    if shape.slot_count == 0 {
        return None;
    }
    Some(shape.slots.0)
}

impl Choice {
    /// The shape that has the row's slots, and the bank of the index of an address.
    #[inline(always)]
    pub(crate) fn shape_and_index_bank(&self) -> (&'static RowShape, RegisterBank)
        ensures slots { slots_seen result.0.now ≡ slots (chosen self.now) }
        ensures index { result.1 ≡ index_bank (chosen self.now) }
    {
        shape_and_index_bank(&self.entry, self.w, self.l, self.memory)
    }

    /// The slots of the row, one for each operand in order, and the bank of the index of an address: a vector register
    /// where the form gathers, and `Q` elsewhere.
    #[inline(always)]
    pub fn slots_and_index_bank(&self) -> (ArrayVec<Slot, 4>, RegisterBank)
        ensures slots { result.0.items ≡ slots (chosen self.now) }
        ensures index { result.1 ≡ index_bank (chosen self.now) }
    {
        let (shape, index_bank) = self.shape_and_index_bank();
        (first_slots(shape.slots, shape.slot_count), index_bank)
    }
}
