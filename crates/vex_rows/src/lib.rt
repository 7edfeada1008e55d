//! The entries of the VEX opcode maps as plain data, and the look-up of the one entry of a key; the forms of operands
//! as data, one row for each.
//!
//! ```
//! use vex_rows::{Entry, Key, Map, Pp, lookup, row_of_form};
//! use std::marker::Brand;
//! use std::sync::ledger::{Blank, Ledger};
//! use step_counter::Steps;
//! use x86_operand::Opcode;
//!
//! // A caller that counts no steps makes a counter of its own.
//! fn look_up<L: Ledger>(key: &Key, blank: Blank) -> Option<Entry>
//!     requires name { blank.name ≡ L.name }
//!     requires parts { blank.parts ≡ L.parts }
//!     requires some { 0 < blank.parts }
//! {
//!     lookup(key, &mut Steps::<L>::new(blank))
//! }
//!
//! let key = Key {
//!     map: Map::Map0F,
//!     pp: Pp::Plain,
//!     byte: 0x58,
//!     w: false,
//!     l: false,
//! };
//! let entry = look_up::<Brand>(&key, Blank::new(1)).ok_or("VADDPS")?;
//! assert!(rt; entry.opcode.is(Opcode::VADDPS));
//! let form = row_of_form(entry.form);
//! assert!(rt; form.modrm && !form.imm);
//! ```
#![tactic(auto)]

mod cells;
mod entries;
mod entry;
#[cfg(test)]
mod example;
mod few;
mod form;
mod form_row;
mod forms;
mod key;
pub mod laws;
mod places;
mod sizes;
mod steps;
mod table;

pub use entries::{entries_of, entry_at, entry_count, lookup};
pub use entry::{Entry, Rule};
pub use few::Few;
pub use form::Form;
pub use form_row::{BankRule, ByteCount, FormRow, SizeList, SizeRule, SlotRule};
pub use forms::row_of_form;
pub use key::{Key, Map, Pp, Prefix};
pub use sizes::{size_in, sizes_of};
pub use steps::Check;

#[cfg(test)]
mod tests;
#[cfg(test)]
mod wanted;
