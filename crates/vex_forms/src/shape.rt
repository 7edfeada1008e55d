//! What a row is by its form, W, L and the place of the operand E alone.

ghost use Rattle.std.specs.Prelude.{◌≡◌};
ghost use Rattle.vex_rows.specs.Index.{bit};
ghost use Rattle.vex_forms.specs.Shapes.{shape_of};

use crate::shapes::SHAPES;
use crate::slot::{Slot, VvvvRule};
use vex_rows::{ByteCount, Form, SizeList};
use x86_operand::RegisterBank;

/// Which banks of a row's slots go by its opcode.
#[derive(Clone, Copy, PartialEq, Eq, Debug)]
pub enum BanksByOpcode {
    /// None of them.
    Fixed,
    /// That of the operand E, which is an element of a vector: D stands in the shapes with W 0 and Q in those with W 1.
    Element,
    /// All of them, those of a gather: x stands in the shapes with L 0 and y in those with L 1.
    Gather,
}

/// The size of a row's memory operand.
#[derive(Clone, Copy, PartialEq, Eq, Debug)]
pub enum ShapeSize {
    /// That many bytes for all opcodes, and `None` where there is no memory operand.
    Always(Option<u8>),
    /// The one that the list has for the opcode, and the other for an opcode that isn't in it.
    ByOpcode(SizeList, ByteCount),
}

/// What the rows of a form are at a W, an L and a place of the operand E, in a register or in memory. The table of
/// forms says it too, a word of its line at a time; here it is put together, so that a row is looked up.
#[derive(Clone, Copy, Debug)]
pub struct RowShape {
    /// Whether the operand E can be there and no check but that of the reg field refuses the row.
    pub is_row: bool,
    /// Whether the reg field says the opcode.
    pub has_group: bool,
    /// The slots, one for each operand in order, and others after them.
    pub slots: (Slot, Slot, Slot, Slot),
    /// How many slots there are.
    pub slot_count: u8,
    /// Which of their banks go by the opcode, so that the slots may be those of another W or L.
    pub banks: BanksByOpcode,
    /// What the row asks of the field vvvv.
    pub vvvv: VvvvRule,
    /// The size of the memory operand.
    pub size: ShapeSize,
}

// The shapes of rows that exist, and of those that don't, without slots.
pub const ROW: RowShape = RowShape {
    is_row: true,
    has_group: false,
    slots: (Slot::U8, Slot::U8, Slot::U8, Slot::U8),
    slot_count: 0,
    banks: BanksByOpcode::Fixed,
    vvvv: VvvvRule::Free,
    size: ShapeSize::Always(None),
};

pub const NO_ROW: RowShape = RowShape {
    is_row: false,
    ..ROW
};

pub const GROUP_ROW: RowShape = RowShape {
    has_group: true,
    ..ROW
};

pub const NO_GROUP_ROW: RowShape = RowShape {
    is_row: false,
    ..GROUP_ROW
};

pub const ELEMENT_ROW: RowShape = RowShape {
    banks: BanksByOpcode::Element,
    ..ROW
};

pub const GATHER_ROW: RowShape = RowShape {
    banks: BanksByOpcode::Gather,
    ..ROW
};

pub const NO_GATHER_ROW: RowShape = RowShape {
    is_row: false,
    ..GATHER_ROW
};

/// The shape that stands at no place: definitions name it, and no row has it.
pub const NO_SHAPE: RowShape = RowShape {
    slots: (
        Slot::G(RegisterBank::Q),
        Slot::G(RegisterBank::Q),
        Slot::G(RegisterBank::Q),
        Slot::G(RegisterBank::Q),
    ),
    vvvv: VvvvRule::Named,
    ..NO_ROW
};

/// A bit as a number.
#[inline(always)]
fn bit(set: bool) -> usize
    ensures { result ≡ bit set }
{
    if set { 1 } else { 0 }
}

/// The shape of the rows of a form at that W, L and place of the operand E.
#[tactic(auto, unfolding(crate::specs::Shapes::shape_of))]
#[inline(always)]
pub fn shape_at(form: Form, w: bool, l: bool, memory: bool) -> &'static RowShape
    ensures { result.now ≡ shape_of form w l memory }
{
    &SHAPES[8 * form as usize + 4 * bit(w) + 2 * bit(l) + bit(memory)]
}
