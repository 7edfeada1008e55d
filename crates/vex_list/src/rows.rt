//! The nearest spelling of an instruction by the rows of an entry.

ghost use Rattle.std.specs.Prelude.{◌≡◌, ◌<◌, ◌↔◌, IsTrue, if◌then◌else◌};
ghost use Rattle.vex_rows.specs.Row.{Among, has_groups};
ghost use Rattle.vex_rows.specs.Table.{table};
ghost use Rattle.vex_list.specs.Next.{Covers};
ghost use Rattle.vex_list.specs.Sets.{ByChosen, ByEntry};

use crate::nearest::Wanted;
use crate::parts::parts_of;
use crate::search::by_row;
use vex_encode::Spelling;
use vex_forms::laws::rows_are_choices;
use vex_forms::{RowLayout, layout};
use vex_rows::{Entry, Form, row_of_form};
use x86_operand::Instruction;

/// Whether a row of this layout has the opcode and the memory size of the instruction.
fn has_opcode_and_size(layout: &RowLayout, instruction: &Instruction) -> bool
    ensures { IsTrue result ↔ ((layout.now.opcode ≡ instruction.now.meaning.opcode)
        × (layout.now.mem_size ≡ instruction.now.meaning.size)) }
{
    layout.opcode.is(instruction.opcode()) && layout.mem_size == instruction.mem_size()
}

/// The nearest of the nearest so far and of the spellings by the row that an entry has at a choice, where it has one.
fn by_choice(
    entry: &Entry,
    w: bool,
    l: bool,
    memory: bool,
    group: u8,
    wanted: &Wanted<'_>,
    nearest: Option<Spelling>,
) -> Option<Spelling>
    requires listed { Among entry.now table }
    requires small { group < 8 }
    ensures { Covers wanted.now.instruction.now.meaning wanted.now.previous.now
        (ByChosen wanted.now.instruction.now.meaning entry.now w l memory group) nearest result }
{
    // A law: what an entry has here is a row where it can be and exists.
    rows_are_choices();
    match layout(entry, w, l, memory, group) {
        Some(layout) => {
            if has_opcode_and_size(&layout, wanted.instruction) {
                let parts = parts_of(entry, w, l, memory, &layout, wanted.instruction);
                by_row(&parts, wanted, nearest)
            } else {
                nearest
            }
        }
        None => nearest,
    }
}

/// How many choices there are of the rows of a form: eight for each reg field that may be a group, where there are
/// groups.
#[tactic(auto, unfolding(vex_rows::specs::Row::has_groups, vex_rows::specs::Steps::steps))]
fn row_choices(form: Form) -> u8
    ensures { result ≡ (if has_groups form then 64 else 8) }
{
    if row_of_form(form).has_groups() {
        64
    } else {
        8
    }
}

/// The nearest of the nearest so far and of the spellings by all rows of an entry: with both values of W and L,
/// registers and memory, and the groups.
pub fn by_entry(entry: &Entry, wanted: &Wanted<'_>, nearest: Option<Spelling>) -> Option<Spelling>
    requires { Among entry.now table }
    ensures { Covers wanted.now.instruction.now.meaning wanted.now.previous.now
        (ByEntry wanted.now.instruction.now.meaning entry.now) nearest result }
{
    let mut nearest = nearest;
    for number in 0..row_choices(entry.form) {
        // Bit 0 of the number says memory, bit 1 L, bit 2 W, and the bits from 3 on the group.
        let w = number / 4 % 2 == 1;
        let l = number / 2 % 2 == 1;
        let memory = number % 2 == 1;
        let group = number / 8;
        nearest = by_choice(entry, w, l, memory, group, wanted, nearest);
    }
    nearest
}
