//! All spellings of an instruction, one after another, in ascending order. No memory is taken.
//!
//! ```
//! use vex_list::{first_spelling, spelling_after};
//! use vex_decode::Decoder;
//! use x86_settings::InstDecoder;
//!
//! let decoder = InstDecoder::default();
//! let sum = decoder
//!     .decode_slice(&[0xC5, 0xF0, 0x58, 0xC2])
//!     .map_err(|_| "a spelling")?;
//! let first = first_spelling(&sum).ok_or("there are five")?;
//! assert_eq!(rt; first.as_slice(), [0xC4, 0xA1, 0x70, 0x58, 0xC2].as_slice());
//! let second = spelling_after(&sum, first.as_slice()).ok_or("there are five")?;
//! assert_eq!(rt;
//!     second.as_slice(),
//!     [0xC4, 0xA1, 0xF0, 0x58, 0xC2].as_slice()
//! );
//! assert!(rt; spelling_after(&sum, &[0xC5, 0xF0, 0x58, 0xC2]).is_none());
//! ```
#![tactic(auto)]

mod candidate;
mod choices;
#[cfg(test)]
mod example;
pub mod laws;
mod listing;
mod nearest;
mod numbered;
mod operands;
mod parts;
mod rows;
mod search;

pub use listing::{first_spelling, spelling_after};

#[cfg(test)]
mod tests;
