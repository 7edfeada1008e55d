//! The proved decoder and encoder for C, and for every language that calls C: include/vex.h says what each call answers.
//!
//! ```
//! use vex_c::decoding::vex_decode;
//! use vex_c::encoding::vex_encode;
//! use vex_calls::{FlatBytes, FlatInstruction, FlatSettings};
//!
//! let all = FlatSettings {
//!     low: u64::MAX,
//!     high: u64::MAX,
//! };
//! let mut sum = FlatInstruction::default();
//! let mut shortest = FlatBytes::default();
//! assert_eq!(rt;
//!     vex_decode(&all, &[0xC4, 0xE1, 0x70, 0x58, 0xC2], &mut sum),
//!     0
//! );
//! assert_eq!(rt; vex_encode(&sum, &mut shortest), 0);
//! assert_eq!(rt; (sum.length, shortest.length), (5, 4));
//! ```
#![tactic(auto)]

mod answer;
pub mod decoding;
pub mod encoding;
#[cfg(test)]
mod example;
pub mod names;
pub mod runs;
pub mod settings;
pub mod texts;
