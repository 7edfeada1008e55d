//! Where the bytes of an instruction come from, and where the notes on them go.
//!
//! A reader gives one byte after another, and counts them since its mark and since it was made: a slice of bytes, or
//! one that fails where a test wants it. A sink takes notes on runs of bits.
//!
//! ```
//! use x86_reader::{ReadError, Reader, U8Reader};
//!
//! let mut words = U8Reader::new(&[0xC5, 0xF8]);
//! assert_eq!(rt; words.next(), Ok(0xC5));
//! words.mark();
//! assert_eq!(rt; words.next(), Ok(0xF8));
//! assert_eq!(rt; words.next(), Err(ReadError::ExhaustedInput));
//! assert_eq!(rt; (words.offset(), words.total_offset()), (1, 2));
//! ```
#![tactic(auto)]

#[cfg(test)]
mod example;
mod fail;
mod read;
mod sink;
mod slice;

pub use fail::FailReader;
pub use read::{ReadError, Reader};
pub use sink::{DescriptionSink, ListSink, NullSink};
pub use slice::U8Reader;

#[cfg(test)]
mod tests;
