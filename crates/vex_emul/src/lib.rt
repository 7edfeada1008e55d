//! An emulator of an integer vector subset of the VEX instructions: a machine of vectors, numbers and memory, and a run
//! of code on it.
//!
//! ```
//! use vex_emul::{Machine, run_code};
//! use x86_settings::InstDecoder;
//!
//! let mut memory = [0u8; 64];
//! let mut machine = Machine::new(&mut memory);
//! machine.set_vector(1, &[1; 32]);
//! machine.set_vector(2, &[2; 32]);
//! // VPADDB y0, y1, y2
//! let code = [0xC5, 0xF5, 0xFC, 0xC2];
//! assert_eq!(rt;
//!     run_code(&mut machine, &InstDecoder::default(), &code),
//!     Ok(1)
//! );
//! assert_eq!(rt; machine.vector(0).as_slice(), [3; 32].as_slice());
//! ```
#![tactic(auto)]

#[cfg(test)]
mod example;
mod kernels;
pub mod laws;
mod machine;
mod operation;
mod run;
mod subset;
#[cfg(test)]
mod tests;
mod work;

pub use machine::{Machine, VECTOR_BYTES};
pub use run::{Halt, HaltCause, run_code, step};
