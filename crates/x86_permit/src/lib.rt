//! Which instructions settings permit, and the least settings of those in VEX form.
//!
//! ```
//! use x86_permit::{least_settings, revise_instruction};
//! use x86_operand::{DecodeError, Instruction, Opcode};
//! use x86_settings::InstDecoder;
//!
//! let mut rotation = Instruction::of(Opcode::RORX, false);
//! let old = InstDecoder::minimal().with_avx();
//! assert_eq!(rt;
//!     revise_instruction(&old, &mut rotation),
//!     Err(DecodeError::InvalidOpcode)
//! );
//! assert!(rt; revise_instruction(&old.with_bmi2(), &mut rotation).is_ok());
//! assert!(rt; least_settings(&rotation) == Some(InstDecoder::minimal().with_bmi2()));
//! ```
#![tactic(auto)]

#[cfg(test)]
mod example;
pub mod laws;
mod least;
mod permission;
#[cfg(test)]
mod tests;

pub use least::least_settings;
pub use permission::revise_instruction;
