//! The text of an instruction's meaning, both ways: `VADDPS x0 x1 x2 0`.
//!
//! ```
//! use vex_asm::{AsmError, assemble};
//!
//! let sum = assemble(b"VADDPS x0 x1 x2 0").map_err(|_| "the text of a meaning")?;
//! assert_eq!(rt; sum.as_slice(), [0xC5, 0xF0, 0x58, 0xC2].as_slice());
//! assert_eq!(rt;
//!     assemble(b"VADDPS x0 x1 x99 0").err(),
//!     Some(AsmError::BadText)
//! );
//! ```
#![tactic(auto)]

mod appender;
mod assembler;
#[cfg(test)]
mod assembler_tests;
mod error;
#[cfg(test)]
mod example;
pub mod laws;
mod number;
mod operand;
mod printer;
mod reader;
#[cfg(test)]
mod tests;
mod words;

pub use appender::{MAX_MEANING, MAX_TEXT, append, append_name, append_number, append_register};
pub use assembler::{assemble, assemble_instruction};
pub use error::AsmError;
pub use printer::{MeaningText, print};
pub use reader::read;
pub use words::is_blank;
