//! The operand forms: which slot names which operand, and how large the memory operand is; and reading what the form of
//! an entry asks for.
//!
//! ```
//! use vex_forms::{Slot, layout};
//! use vex_rows::{Entry, Form, Map, Pp, Rule};
//! use x86_operand::RegisterBank::Y;
//! use x86_operand::{MemoryAccessSize, Opcode};
//!
//! let entry = Entry {
//!     map: Map::Map0F,
//!     pp: Pp::Plain,
//!     byte: 0x58,
//!     w: Rule::Any,
//!     l: Rule::Any,
//!     form: Form::G_V_E_xyLmm,
//!     opcode: Opcode::VADDPS,
//! };
//! // W 0, L 1, and the operand E in memory.
//! let row = layout(&entry, false, true, true, 0).ok_or("a row")?;
//! assert_eq!(rt;
//!     row.slots.as_slice(),
//!     [Slot::G(Y), Slot::V(Y), Slot::E(Y)].as_slice()
//! );
//! assert_eq!(rt; row.mem_size, MemoryAccessSize::of(32));
//! ```
#![tactic(auto)]

mod checks;
mod choice;
#[cfg(test)]
mod example;
mod instruction;
mod kind;
pub mod laws;
mod operand_e;
mod operand_fields;
mod operands;
mod reading;
mod row_layout;
mod shape;
mod shapes;
mod sizes;
mod slot;
mod slots;

pub use choice::{Choice, goes_by_w, is_row, rules_allow};
pub use instruction::instruction_of;
pub use kind::Kind;
pub use operand_e::OperandE;
pub use operand_fields::OperandFields;
pub use reading::{read_form, read_form_into};
pub use row_layout::{RowLayout, layout};
pub use slot::{Slot, VvvvRule};
pub use slots::first_slot;

#[cfg(test)]
mod reading_tests;
#[cfg(test)]
mod tests;
#[cfg(test)]
mod wanted;
