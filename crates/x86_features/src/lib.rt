//! Which CPUID features an instruction needs, as the manual has it, and which processors have them.
//!
//! ```
//! use x86_features::{Processor, features_of};
//! use x86_operand::{Instruction, Opcode, Operand, RegSpec, RegisterBank};
//!
//! // VPADDD y0, y0, y0
//! let reg = RegSpec::of(RegisterBank::Y, 0).ok_or("there are 32 of them")?;
//! let operands = [Operand::Register { reg }; 3];
//! let sum = Instruction::from_parts(false, Opcode::VPADDD, &operands, None).ok_or("three")?;
//! let needed = features_of(&sum);
//! assert!(rt; needed.avx2 && !needed.avx);
//! assert!(rt; Processor::Haswell.has_all(&needed));
//! assert!(rt; !Processor::Ivybridge.has_all(&needed));
//! ```
#![tactic(auto)]

#[cfg(test)]
mod example;
mod feature;
pub mod laws;
mod needs;
mod processor;
mod rule;
mod rules;
#[cfg(test)]
mod tests;
#[cfg(test)]
mod wanted;

pub use feature::{Feature, FeatureSet};
pub use needs::features_of;
pub use processor::Processor;
