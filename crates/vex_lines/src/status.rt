//! How a run ends.

ghost use Rattle.std.specs.Prelude.{◌≡◌};
ghost use Rattle.vex_lines.specs.Status.{exit_code_of, name_of};

/// How a run ends, with its exit code in this order from 0 on.
#[derive(Clone, Copy, PartialEq, Eq, Debug)]
pub enum Status {
    /// All is written and the input has ended.
    Done,
    /// A read failed.
    ReadFault,
    /// The words are no command, or one was refused. Nothing was read or written.
    Usage,
    /// A write failed.
    WriteFault,
    /// There was no memory for the sweep of a line.
    NoMemory,
    /// The input has more than 2^26 bytes.
    TooLong,
}

impl Status {
    /// The exit code.
    pub fn code(&self) -> u8
        ensures { result ≡ exit_code_of self.now }
    {
        match self {
            Status::Done => 0,
            Status::ReadFault => 1,
            Status::Usage => 2,
            Status::WriteFault => 3,
            Status::NoMemory => 4,
            Status::TooLong => 5,
        }
    }

    /// The name, as it is spelled here.
    pub fn name(&self) -> &'static str
        ensures { result.now ≡ name_of self.now }
    {
        match self {
            Status::Done => "Done",
            Status::ReadFault => "ReadFault",
            Status::Usage => "Usage",
            Status::WriteFault => "WriteFault",
            Status::NoMemory => "NoMemory",
            Status::TooLong => "TooLong",
        }
    }
}
