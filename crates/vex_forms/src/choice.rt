//! A choice of a row: an entry at one W, one L, one kind of the operand E, and one reg field.

ghost use Rattle.std.specs.Prelude.{◌≡◌, ◌&&◌, true};
ghost use Rattle.x86_operand.specs.Kind.{is_vector};
ghost use Rattle.vex_rows.specs.FormRows.{form_row, gathers};
ghost use Rattle.vex_rows.specs.Steps.{steps, steps_seen};
ghost use Rattle.vex_rows.specs.Groups.{groups};
ghost use Rattle.vex_rows.specs.Row.{exists, group_opcode, has_groups, has_imm, is_memory, is_memory_of};
ghost use Rattle.vex_rows.specs.Row.{opcode_of};
ghost use Rattle.vex_forms.specs.Layout.{chosen, may_be, row_for, rules_allow};
ghost use Rattle.vex_forms.specs.Shapes.{shape_of, size_in, slots_in};
ghost use Rattle.vex_forms.specs.Slots.{goes_by_w, size_of, slots, v_rule};

use crate::shape::{RowShape, shape_at};
use crate::slot::VvvvRule;
use vex_rows::{Entry, Form, FormRow, row_of_form};
use x86_operand::Opcode;

/// An entry at one W, one L, one kind of the operand E, and one reg field where its form has groups.
#[derive(Clone, Copy, Debug)]
pub struct Choice {
    /// The entry.
    pub entry: Entry,
    /// The bit W.
    pub w: bool,
    /// The bit L.
    pub l: bool,
    /// Whether the operand E is in memory.
    pub memory: bool,
    /// The reg field, where the form has groups.
    pub group: Option<u8>,
}

/// Whether an entry's rules allow a W and an L.
#[inline(always)]
pub fn rules_allow(entry: &Entry, w: bool, l: bool) -> bool
    ensures { result ≡ rules_allow entry.now w l }
{
    entry.w.allows(w) && entry.l.allows(l)
}

/// Whether the reg field says the opcode, which goes by the form alone.
#[inline(always)]
#[tactic(auto, using(crate::proofs::Shaping::group_shaped))]
fn has_group(form: Form, w: bool, l: bool, memory: bool) -> bool
    ensures { result ≡ has_groups form }
{
    shape_at(form, w, l, memory).has_group
}

/// Whether an entry has a row at that W, L, place of the operand E and reg field, where its rules allow W and L: the
/// operand E can be there, and no check refuses it. A refusal makes no `Choice`, so that it costs little.
#[inline(always)]
#[tactic(auto, using(crate::proofs::Shaping::row_shaped))]
pub fn is_row(entry: &Entry, w: bool, l: bool, memory: bool, group: u8) -> bool
    requires { rules_allow entry.now w l ≡ true }
    ensures { result ≡ (may_be entry.now memory && exists (row_for entry.now w l memory group)) }
{
    let shape = shape_at(entry.form, w, l, memory);
    shape.is_row && (!shape.has_group || row_of_form(entry.form).is_group(group))
}

/// Whether the rows of a form go by W: the bank of an operand or a size does. The rows of all other forms have the same
/// operands at both W.
#[inline(always)]
pub fn goes_by_w(form: Form) -> bool
    ensures { result ≡ goes_by_w form }
{
    matches!(
        form,
        Form::G_V_E | Form::G_E_V | Form::G_E_Ib | Form::BMI1_F3
    )
}

impl Choice {
    /// The choice of an entry. Entries without groups don't look at `group`.
    #[inline(always)]
    pub fn of(entry: &Entry, w: bool, l: bool, memory: bool, group: u8) -> Choice
        ensures row { chosen result ≡ row_for entry.now w l memory group }
        ensures entry { result.entry ≡ entry.now }
        ensures w { result.w ≡ w }
        ensures l { result.l ≡ l }
        ensures memory { result.memory ≡ memory }
    {
        Choice {
            // Field by field, so that the compiler knows the form, by which the row's shape was found.
            entry: Entry {
                map: entry.map,
                pp: entry.pp,
                byte: entry.byte,
                w: entry.w,
                l: entry.l,
                form: entry.form,
                opcode: entry.opcode,
            },
            w,
            l,
            memory,
            group: if has_group(entry.form, w, l, memory) {
                Some(group)
            } else {
                None
            },
        }
    }

    /// What the table of forms says of the entry's form.
    #[inline(always)]
    pub fn form_row(&self) -> &'static FormRow
        ensures row { result.now ≡ form_row self.now.entry.form }
        ensures steps { steps_seen result.now ≡ steps self.now.entry.form }
        ensures gathers { result.now.gathers ≡ gathers self.now.entry.form }
    {
        row_of_form(self.entry.form)
    }

    /// Whether there is a ModRM byte.
    #[tactic(auto, unfolding(vex_rows::specs::Steps::steps))]
    #[inline(always)]
    pub fn has_modrm(&self) -> bool
        ensures { result ≡ (steps self.now.entry.form).modrm }
    {
        self.form_row().modrm
    }

    /// Whether the operand E is an address in memory.
    #[inline(always)]
    pub fn in_memory(&self) -> bool
        ensures memory { result ≡ is_memory (chosen self.now).kind }
        ensures of { result ≡ is_memory_of (gathers self.now.entry.form) (chosen self.now).kind }
    {
        self.has_modrm() && self.memory
    }

    /// Whether the operand E is an address whose index is a vector register.
    #[inline(always)]
    pub fn is_vector(&self) -> bool
        ensures { result ≡ is_vector (chosen self.now).kind }
    {
        self.has_modrm() && self.memory && self.form_row().gathers
    }

    /// What the row is by its form, W, L and the place of the operand E.
    #[inline(always)]
    pub(crate) fn shape(&self) -> &'static RowShape
        ensures is { result.now ≡ shape_of self.now.entry.form self.now.w self.now.l self.now.memory }
        ensures slots { slots_in result.now (chosen self.now).l self.now.entry.opcode ≡ slots (chosen self.now) }
        ensures vvvv { result.now.vvvv ≡ v_rule (chosen self.now) }
        ensures size { size_in result.now.size (chosen self.now) ≡ size_of (chosen self.now) }
    {
        shape_at(self.entry.form, self.w, self.l, self.memory)
    }

    /// The opcode of the row's group, the one that the entry announces where it has no group.
    #[tactic(auto, unfolding(vex_rows::specs::Groups::groups))]
    #[inline(always)]
    fn opcode_by_group(&self) -> Opcode
        ensures { result ≡ group_opcode (groups self.now.entry.form (chosen self.now).l) self.now.group
            self.now.entry.opcode }
    {
        match self.group {
            Some(reg) => self.form_row().group_opcode(reg, self.entry.opcode),
            None => self.entry.opcode,
        }
    }

    /// The opcode of the row. Two forms go by the kind of the operand E, the others by their group.
    #[tactic(auto, unfolding(vex_rows::specs::Row::opcode_of))]
    #[inline(always)]
    pub fn opcode(&self) -> Opcode
        ensures { result ≡ opcode_of (chosen self.now) }
    {
        match self.form_row().opcodes {
            Some(both) if self.in_memory() => both.1,
            Some(both) => both.0,
            None => self.opcode_by_group(),
        }
    }

    /// Whether there is an immediate byte.
    #[tactic(auto, unfolding(vex_rows::specs::Row::has_imm, vex_rows::specs::Steps::steps))]
    #[inline(always)]
    pub fn has_imm(&self) -> bool
        ensures { result ≡ has_imm (chosen self.now) }
    {
        self.form_row().imm
    }

    /// What the row asks of the field vvvv: it names an operand, or it is 0 since a check demands it, or it plays no
    /// part.
    #[inline(always)]
    pub fn vvvv_rule(&self) -> VvvvRule
        ensures { result ≡ v_rule (chosen self.now) }
    {
        self.shape().vvvv
    }
}
