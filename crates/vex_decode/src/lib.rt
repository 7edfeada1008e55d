//! What a VEX instruction is, byte by byte, and where a string of bytes fails to be one: decoding from a slice or a
//! reader, under settings.
//!
//! ```
//! use vex_decode::Decoder;
//! use x86_operand::{DecodeError, Opcode};
//! use x86_settings::InstDecoder;
//!
//! // VADDPS x0, x1, x2, and a byte of what comes next.
//! let bytes = [0xC5, 0xF0, 0x58, 0xC2, 0xC5];
//! let sum = InstDecoder::default()
//!     .decode_slice(&bytes)
//!     .map_err(|_| "a spelling")?;
//! assert!(rt; sum.opcode().is(Opcode::VADDPS));
//! assert_eq!(rt; (sum.operand_count(), sum.len()), (3, 4));
//! let refused = InstDecoder::minimal().decode_slice(&bytes);
//! assert_eq!(rt; refused, Err(DecodeError::InvalidOpcode));
//! ```
#![tactic(auto)]

mod decoder;
#[cfg(test)]
mod example;
pub mod laws;
mod notes;
mod prefix_fields;
mod reading;
mod vex_prefix;

pub use decoder::{Decoder, MAX_BYTES};
pub use prefix_fields::{shortest_prefix, three_byte_prefix, two_byte_prefix};
pub use vex_prefix::{three_byte_vex, two_byte_vex};

#[cfg(test)]
mod tests;
