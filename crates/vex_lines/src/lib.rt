//! The commands over lines of input: what `vex_tool` does between its words and its status, over any source and any
//! sink.
//!
//! `run` is all of it. `Source` and `Sink` are its ends, of which `MemSource` and `MemSink` lie in memory; `Words` says
//! what is asked, and `Status` how the run ended. `answer_line` answers one line, without a heap.
//!
//! ```
//! use vex_lines::{MemSink, MemSource, Status, Words, run};
//!
//! let mut words = Words::new();
//! words.push("recode");
//! words.push("default");
//! let mut source = MemSource::new(b"C4 E1 70 58 C2\n", 16, &[]);
//! let mut room = [0u8; 64];
//! let mut sink = MemSink::new(&mut room, &[]);
//! assert_eq!(rt;
//!     run(rt.alloc(), &words, &mut source, &mut sink),
//!     Status::Done
//! );
//! assert_eq!(rt;
//!     sink.written(),
//!     b"5 VADDPS x0 x1 x2 0 c5f058c2\n".as_slice()
//! );
//! ```
#![tactic(auto)]

mod asm_line;
mod command;
mod counting_bytes;
mod emulate_lines;
mod ends;
#[cfg(test)]
mod example;
mod generator;
mod input;
pub mod laws;
mod least_lines;
mod line_buffer;
mod line_text;
mod make_line;
mod memory_ends;
mod note_lines;
mod report;
mod result_line;
mod runner;
mod spelling_lines;
mod status;
mod stop;
mod sweep_lines;
mod words;

pub use command::{Command, LineCommand};
pub use emulate_lines::MEMORY_BYTES;
pub use ends::{Failed, PIECE, Sink, Source};
pub use memory_ends::{MemSink, MemSource};
pub use report::{LineRoom, answer_line};
pub use runner::run;
pub use status::Status;
pub use words::{MAX_WORD_LEN, MAX_WORDS, Words};

#[cfg(test)]
mod tests;
