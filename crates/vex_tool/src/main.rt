//! The program: decodes, encodes, lists, checks and runs code of VEX instructions, line by line, as its words ask.
//!
//! `main` makes words of the arguments, and hands `vex_lines::run` standard input and standard output. The ends stand
//! over any reader and any writer of std:
//!
//! ```
//! let mut words = Words::new();
//! words.push("recode");
//! words.push("default");
//! let mut out = Vec::new(rt.alloc());
//! let mut source = StdSource::new(b"C4 E1 70 58 C2\n".as_slice());
//! let mut sink = StdSink::new(Gatherer::new(&mut out));
//! assert_eq!(rt;
//!     run(rt.alloc(), &words, &mut source, &mut sink),
//!     Status::Done
//! );
//! assert_eq!(rt;
//!     out.as_slice(),
//!     b"5 VADDPS x0 x1 x2 0 c5f058c2\n".as_slice()
//! );
//! ```
#![tactic(auto)]

ghost use Rattle.std.specs.Prelude.{◌≡◌, ◌<◌, ◌≤◌, ◌↔◌, ◌∷◌, ◌++◌, true, length, [], IsTrue, IsUtf8};
ghost use Rattle.std.specs.Bool.{OnTrue, OnFalse};

use gatherer::Gatherer;
use help::text_asked;
use hints::hint;
use std::env::{Env, FillError};
use std::process::ExitCode;
use std_ends::{StdSink, StdSource};
use vex_lines::{MAX_WORD_LEN, Status, Words, run};

#[cfg(test)]
mod example;
mod gatherer;
mod help;
#[cfg(test)]
mod hint_tests;
mod hints;
mod std_ends;
#[cfg(test)]
mod tests;

/// A word that is refused, for an argument that is too long to be kept or is not UTF-8. It has 65 letters, one more
/// than a word may have.
const REFUSED: &str = "xxxxxxxxxxxxxxxxxxxxxxxxxxxxxxxxxxxxxxxxxxxxxxxxxxxxxxxxxxxxxxxxx";

/// Pushes an argument, and answers whether it is kept. It is refused exactly where it isn't UTF-8 or `Words::push`
/// refuses it.
fn push_argument(words: &mut Words, argument: &[u8]) -> bool
    ensures accepts { IsTrue result ↔ (IsUtf8 argument.now × ((length words.old.0 < 4) × (length argument.now ≤ 64))) }
    ensures accepted { OnTrue result (words.new ≡ (words.old.0 ++ argument.now ∷ [], words.old.1)) }
    ensures refused { OnFalse result (words.new ≡ (words.old.0, true)) }
{
    match str::from_utf8(argument) {
        Ok(word) => words.push(word),
        Err(_) => words.push(REFUSED),
    }
}

/// Pushes the program's arguments, without its name.
fn push_arguments(env: &impl Env, words: &mut Words) {
    let mut buffer = [0u8; MAX_WORD_LEN];
    for i in 1..usize::MAX {
        let _ = match env.arg(i, &mut buffer) {
            Ok(n) => push_argument(words, &buffer[..n]),
            Err(FillError::TooLong) => words.push(REFUSED),
            Err(FillError::NotPresent) => return,
        };
    }
}

/// Writes to standard error how the run ended, and where the words were no command, what is wrong with them. Nothing is
/// left to do where this fails too.
fn complain(rt: &HostRuntime, status: Status, words: &Words) {
    let _ = eprintln!(rt; "vex_tool: {}", status.name());
    if status == Status::Usage {
        if let Ok(hint) = hint(rt.alloc(), words) {
            let _ = eprintln!(rt; "vex_tool: {hint}");
        }
    }
}

/// Writes a text to standard output.
fn tell(rt: &HostRuntime, text: &str) -> Status {
    match print!(rt; "{text}") {
        Ok(()) => Status::Done,
        Err(_) => Status::WriteFault,
    }
}

fn main(rt: HostRuntime) -> ExitCode {
    let mut words = Words::new();
    push_arguments(&rt, &mut words);
    let status = match text_asked(&words) {
        Some(text) => tell(&rt, text),
        None => {
            let mut source = StdSource::new(rt.stdin());
            // `run` hands on what is gathered before each read.
            let mut sink = StdSink::new(Gatherer::new(rt.stdout()));
            run(rt.alloc(), &words, &mut source, &mut sink)
        }
    };
    if status != Status::Done {
        complain(&rt, status, &words);
    }
    ExitCode::from(status.code())
}
