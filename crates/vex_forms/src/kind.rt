//! The kind of the operand E.

ghost use Rattle.std.specs.Prelude.{◌≡◌, ◌%◌, true};
ghost use Rattle.x86_operand.specs.Kind.{is_vector};
ghost use Rattle.vex_rows.specs.Row.{is_memory, is_memory_of};
ghost use Rattle.vex_forms.specs.FormWalk.{kind_by};
ghost use Rattle.vex_forms.specs.Layout.{chosen};
ghost use Rattle.vex_forms.specs.Reads.{kind_seen};

use crate::choice::Choice;
use vex_rows::{Entry, row_of_form};

/// What stands in the place of the operand E.
#[derive(Clone, Copy, PartialEq, Eq, Debug)]
pub enum Kind {
    /// Nothing, since there is no ModRM byte.
    WithoutModRM,
    /// A register.
    Register,
    /// An address in memory.
    Memory,
    /// An address in memory whose index is a vector register (Intel SDM volume 2, section 2.3.12).
    Vector,
}

impl Kind {
    /// The kind in the row that is chosen.
    #[inline(always)]
    pub fn of(choice: &Choice) -> Kind
        ensures { kind_seen result ≡ (chosen choice.now).kind }
    {
        let form = choice.form_row();
        if !form.modrm {
            Kind::WithoutModRM
        } else if !choice.memory {
            Kind::Register
        } else if form.gathers {
            Kind::Vector
        } else {
            Kind::Memory
        }
    }

    /// The kind that a ModRM byte says: a register where the field mod is 3, and with SIB an address whose index is a
    /// vector register where the entry's form gathers (Intel SDM volume 2, sections 2.1.3 and 2.3.12).
    pub fn of_modrm(entry: &Entry, modrm: u8) -> Kind
        ensures kind { kind_seen result ≡ kind_by entry.now modrm }
        ensures sib { is_vector (kind_seen result) ≡ true → modrm % 8 ≡ 4 }
    {
        if modrm / 64 == 3 {
            Kind::Register
        } else if row_of_form(entry.form).gathers && modrm % 8 == 4 {
            Kind::Vector
        } else {
            Kind::Memory
        }
    }

    /// Whether it is an address in memory.
    pub fn is_memory(self) -> bool
        ensures { result ≡ is_memory (kind_seen self) }
    {
        matches!(self, Kind::Memory | Kind::Vector)
    }

    /// Whether it is an address in memory whose index is a vector register.
    pub fn is_vector(self) -> bool
        ensures { result ≡ is_vector (kind_seen self) }
    {
        self == Kind::Vector
    }

    /// Whether it is an address in memory whose index is a vector register or not.
    pub(crate) fn is_memory_of(self, vector: bool) -> bool
        ensures { result ≡ is_memory_of vector (kind_seen self) }
    {
        match self {
            Kind::WithoutModRM | Kind::Register => false,
            Kind::Memory => !vector,
            Kind::Vector => vector,
        }
    }
}
