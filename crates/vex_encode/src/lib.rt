//! The shortest spelling of an instruction.
//!
//! `recode` decodes and answers the canonical bytes besides, `encode_shortest` starts from the instruction, and `sweep`
//! goes over a run of instructions.
//!
//! ```
//! use vex_encode::recode;
//! use x86_settings::InstDecoder;
//!
//! // VADDPS x0, x1, x2 with a prefix of three bytes where two are enough.
//! let bytes = [0xC4, 0xE1, 0x70, 0x58, 0xC2];
//! let (sum, shortest) = recode(&InstDecoder::default(), &bytes).map_err(|_| "a spelling")?;
//! assert_eq!(rt; sum.len(), 5);
//! assert_eq!(rt; shortest.as_slice(), [0xC5, 0xF0, 0x58, 0xC2].as_slice());
//! ```
#![tactic(auto)]

mod assembly;
mod encode;
#[cfg(test)]
mod example;
mod fits;
pub mod laws;
mod operand_walk;
mod place;
mod recoder;
mod shortest;
mod spell;
mod spelling;
mod sweeper;

pub use recoder::recode;
pub use shortest::encode_shortest;
pub use spelling::Spelling;
pub use sweeper::{Items, NoMemory, SweepEnd, SweepItem, SweepResult, sweep};

#[cfg(test)]
mod encode_tests;
#[cfg(test)]
mod sweep_tests;
#[cfg(test)]
mod tests;
