//! What x86 instructions are made of: registers, addresses, operands and sizes, the instruction itself, and the errors
//! of decoding and encoding one.
//!
//! ```
//! use x86_operand::{Instruction, MemoryAccessSize, Opcode, Operand, RegSpec, RegisterBank};
//!
//! // VMOVAPS x1, [rax]
//! let x1 = RegSpec::of(RegisterBank::X, 1).ok_or("there are 32 of them")?;
//! let from = Operand::MemDeref {
//!     base: RegSpec::rax(),
//! };
//! let operands = [Operand::Register { reg: x1 }, from];
//! let size = MemoryAccessSize::of(16);
//! let load = Instruction::from_parts(false, Opcode::VMOVAPS, &operands, size).ok_or(
//!     "two operands",
//! )?;
//! assert_eq!(rt; load.operand_count(), 2);
//! assert_eq!(rt; load.operand(1), from);
//! assert_eq!(rt; load.mem_size(), size);
//! ```
#![tactic(auto)]

mod address;
mod error;
#[cfg(test)]
mod example;
mod instruction;
pub mod laws;
mod note;
mod register;
mod size;
#[cfg(test)]
mod tests;

pub use address::{Address, Index, Operand};
pub use error::{DecodeError, EncodeError};
pub use instruction::{Instruction, MAX_OPERANDS};
pub use note::{FieldDescription, InnerDescription, Note};
pub use register::{RegSpec, RegisterBank};
pub use size::MemoryAccessSize;
pub use x86_opcode::Opcode;
