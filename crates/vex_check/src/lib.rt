//! What settings a run of VEX instructions needs, where it first needs each, and which settings accept the run.
//!
//! ```
//! use vex_check::{accepts, check};
//! use x86_settings::InstDecoder;
//!
//! // VMOVSS x0, [rdi] and RORX eax, ecx, 5.
//! let run = [0xC5, 0xFA, 0x10, 0x07, 0xC4, 0xE3, 0x7B, 0xF0, 0xC1, 0x05];
//! let needs = check(&run).map_err(|_| "two instructions")?;
//! assert_eq!(rt; needs.count, 2);
//! assert!(rt; needs.least == InstDecoder::minimal().with_avx().with_bmi2());
//! assert!(rt; accepts(&InstDecoder::default(), &needs));
//! ```
#![tactic(auto)]

mod accept;
mod checker;
#[cfg(test)]
mod example;
mod first_places;
pub mod laws;
mod needs;

pub use accept::accepts;
pub use checker::check;
pub use needs::{First, Needs, RunCause, RunFault};

#[cfg(test)]
mod tests;
