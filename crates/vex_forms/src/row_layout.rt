//! The layout of a row: its opcode, its slots, and what it asks of the bytes.

ghost use Rattle.std.specs.Prelude.{◌↔◌, ◌&&◌, IsSome, IfSome, IsTrue};
ghost use Rattle.vex_rows.specs.Row.{exists};
ghost use Rattle.vex_forms.specs.Layout.{IsLayout, chosen, may_be, row_for};

use crate::choice::{Choice, is_row, rules_allow};
use crate::slot::{Slot, VvvvRule};
use arrayvec::ArrayVec;
use vex_rows::Entry;
use x86_operand::{MemoryAccessSize, Opcode, RegisterBank};

/// What a row shows: all that is needed to read or write its operands.
#[derive(PartialEq, Eq, Debug, Drop)]
pub struct RowLayout {
    /// The opcode.
    pub opcode: Opcode,
    /// The slots, one for each operand in order.
    pub slots: ArrayVec<Slot, 4>,
    /// What the row asks of the field vvvv.
    pub vvvv: VvvvRule,
    /// The size of the memory operand, where there is one.
    pub mem_size: Option<MemoryAccessSize>,
    /// Whether the operand E is an address whose index is a vector register (Intel SDM volume 2, section 2.3.12).
    pub vector: bool,
    /// The bank of the index of an address: of vectors where the row gathers.
    pub index_bank: RegisterBank,
    /// Whether there is a ModRM byte.
    pub has_modrm: bool,
    /// The reg field, below 8, where the entry has groups.
    pub group: Option<u8>,
    /// Whether there is an immediate byte.
    pub has_imm: bool,
}

/// The layout of the row of an entry at that W, L, kind of the operand E and reg field. Entries without groups don't
/// look at `group`.
///
/// It is `None` exactly where the entry's W or L rule or one of its checks refuses that choice, or where the entry has
/// no ModRM byte and `memory` is true.
#[inline(never)]
#[tactic(auto, using(crate::proofs::Choices::no_rule_no_row))]
pub fn layout(entry: &Entry, w: bool, l: bool, memory: bool, group: u8) -> Option<RowLayout>
    ensures exists { IsSome result ↔ IsTrue (may_be entry.now memory && exists (row_for entry.now w l memory group)) }
    ensures row { IfSome result (IsLayout (row_for entry.now w l memory group)) }
{
    if !rules_allow(entry, w, l) || !is_row(entry, w, l, memory, group) {
        return None;
    }
    Choice::of(entry, w, l, memory, group).row_layout()
}

impl Choice {
    /// The layout of the row.
    #[inline(always)]
    fn row_layout(&self) -> Option<RowLayout>
        ensures some { IsSome result }
        ensures row { IfSome result (IsLayout (chosen self.now)) }
    {
        let (slots, index_bank) = self.slots_and_index_bank();
        Some(RowLayout {
            opcode: self.opcode(),
            slots,
            vvvv: self.vvvv_rule(),
            mem_size: self.memory_size(),
            vector: self.is_vector(),
            index_bank,
            has_modrm: self.has_modrm(),
            group: self.group,
            has_imm: self.has_imm(),
        })
    }
}
