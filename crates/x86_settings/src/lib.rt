//! The settings of the decoder: which extensions of x86 it knows, by bits, of which a few are shared.
//!
//! ```
//! use x86_settings::InstDecoder;
//!
//! let settings = InstDecoder::minimal().with_avx().with_bmi2();
//! assert!(rt; settings.avx() && settings.bmi2());
//! assert!(rt; !settings.avx2());
//! assert!(rt; InstDecoder::default().avx2());
//! ```
#![tactic(auto)]

mod amd;
mod amx;
mod avx;
mod avx512;
pub mod bits;
mod cache;
mod crypto;
mod decoder;
#[cfg(test)]
mod example;
mod integer;
pub mod laws;
mod quirks;
mod sse;
mod system;

pub use decoder::InstDecoder;

#[cfg(test)]
mod tests;
