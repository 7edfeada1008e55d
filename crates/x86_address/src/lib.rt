//! Addresses as they are written: ModRM, SIB and displacement, after Intel SDM volume 2, sections 2.1 to 2.3.
//!
//! Reading goes over any reader. Writing gives the shortest bytes that name an address.
//!
//! ```
//! use x86_address::{read_address, shortest_address};
//! use x86_operand::{Index, RegSpec};
//! use x86_reader::U8Reader;
//!
//! // ModRM 44 names an address with SIB, here 88, and eight bits of displacement: [rax + rcx * 4 + 0x20].
//! let address = read_address(&mut U8Reader::new(&[0x88, 0x20]), 0x44, false, false).map_err(
//!     |_| "both bytes are there",
//! )?;
//! assert_eq!(rt; address.base, Some(RegSpec::rax()));
//! assert_eq!(rt;
//!     address.index,
//!     Some(Index {
//!         reg: RegSpec::rcx(),
//!         scale: 4
//!     })
//! );
//! assert_eq!(rt; address.disp, 0x20);
//! let shortest = shortest_address(&address).ok_or("bytes name it")?;
//! assert_eq!(rt; shortest.bytes.as_slice(), [0x44, 0x88, 0x20].as_slice());
//! ```
#![tactic(auto)]

mod decode;
mod displacement;
mod encode;
#[cfg(test)]
mod example;
pub mod laws;

pub use decode::{read_address, read_byte, read_imm, read_modrm, read_vector_address};
pub use encode::{
    AddressBytes, pack_fields, shortest_address, shortest_scaled_address, shortest_vector_address,
};

#[cfg(test)]
mod tests;
