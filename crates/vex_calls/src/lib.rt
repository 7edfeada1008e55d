//! What callers from other languages hold: flat structs of numbers for instructions, settings and bytes, and the numbers
//! of opcodes and errors.
//!
//! ```
//! use vex_calls::FlatInstruction;
//! use x86_operand::{Instruction, Opcode, Operand, RegSpec};
//!
//! let mut negation = Instruction::of(Opcode::BLSR, false);
//! assert!(rt;
//!     negation.push(Operand::Register {
//!         reg: RegSpec::rax()
//!     })
//! );
//! let mut flat = FlatInstruction::of(&negation);
//! assert_eq!(rt; flat.operand_count, 1);
//! assert!(rt; flat.instruction() == Some(negation));
//! flat.operand_count = 5;
//! assert!(rt; flat.instruction().is_none());
//! ```
#![tactic(auto)]

mod call_error;
#[cfg(test)]
mod example;
mod flat_bytes;
mod flat_instruction;
mod flat_operand;
mod flat_register;
mod flat_settings;
mod opcode_number;

pub use call_error::CallError;
pub use flat_bytes::{FlatBytes, MOST_BYTES};
pub use flat_instruction::FlatInstruction;
pub use flat_operand::FlatOperand;
pub use flat_register::FlatRegister;
pub use flat_settings::FlatSettings;
pub use opcode_number::opcode_of;
