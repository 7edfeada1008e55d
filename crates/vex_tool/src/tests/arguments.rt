//! How the arguments of the program become words, of which no clause speaks.

use crate::push_arguments;
use std::env::{Env, FillError};
use vex_lines::{MemSink, MemSource, Status, Words, run};

/// The arguments of a command line, of which the first is the program's name.
#[derive(Drop)]
struct Arguments(&'static [&'static [u8]]);

impl Env for Arguments {
    fn arg(&self, i: usize, buf: &mut [u8]) -> Result<usize, FillError> {
        let Some(&argument) = self.0.get(i) else {
            return Err(FillError::NotPresent);
        };
        if buf.len() < argument.len() {
            return Err(FillError::TooLong);
        }
        buf[..argument.len()].copy_from_slice(argument);
        Ok(argument.len())
    }

    fn var(&self, _name: &str, _buf: &mut [u8]) -> Result<usize, FillError> {
        Err(FillError::NotPresent)
    }

    fn var_at(&self, _i: usize, _buf: &mut [u8]) -> Result<usize, FillError> {
        Err(FillError::NotPresent)
    }
}

const LONG: &[u8] = b"xxxxxxxxxxxxxxxxxxxxxxxxxxxxxxxxxxxxxxxxxxxxxxxxxxxxxxxxxxxxxxxxx";

const NO_TEXT: &[u8] = b"\xFFx";

/// Command lines, and the statuses that they end with where the first read fails: words that are no command read
/// nothing.
const COMMAND_LINES: [(&[&[u8]], Status); 10] = [
    (&[b"vex_tool", b"recode", b"sandybridge"], Status::ReadFault),
    (&[LONG, b"recode", b"sandybridge"], Status::ReadFault),
    (&[b"vex_tool"], Status::Usage),
    (&[], Status::Usage),
    (&[b"vex_tool", b"recode"], Status::Usage),
    (&[b"vex_tool", b"recode", b"default", LONG], Status::Usage),
    (&[b"vex_tool", b"recode", LONG, b"default"], Status::Usage),
    (
        &[b"vex_tool", b"recode", b"default", NO_TEXT],
        Status::Usage,
    ),
    (
        &[b"vex_tool", NO_TEXT, b"recode", b"default"],
        Status::Usage,
    ),
    (
        &[b"vex_tool", b"recode", b"default", b"", b"", b""],
        Status::Usage,
    ),
];

#[test]
fn each_argument_is_a_word_or_refuses_the_run(rt: HostRuntime) {
    for (at, &(arguments, want)) in COMMAND_LINES.iter().enumerate() {
        let mut words = Words::new();
        push_arguments(&Arguments(arguments), &mut words);
        let mut source = MemSource::new(b"", 1, &[0]);
        let mut sink = MemSink::new(&mut [], &[]);
        let status = run(rt.alloc(), &words, &mut source, &mut sink);
        assert_eq!(rt; status, want, "at {at}");
    }
}
