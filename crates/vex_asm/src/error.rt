//! Why a line isn't assembled.

ghost use Rattle.std.specs.Prelude.{◌≡◌, Some};
ghost use Rattle.vex_asm.specs.Errors.{asm_error_name};

use std::error::Error;
use std::fmt;

/// Why a line isn't assembled.
#[derive(Clone, Copy, PartialEq, Eq, Debug)]
pub enum AsmError {
    /// No meaning has this text.
    BadText,
    /// No byte string spells the meaning that has this text.
    NoSpelling,
}

impl AsmError {
    /// The variant's own spelling.
    pub fn name(&self) -> &'static str
        ensures { result.now ≡ asm_error_name self.now }
    {
        match self {
            AsmError::BadText => "BadText",
            AsmError::NoSpelling => "NoSpelling",
        }
    }
}

/// Writes the error's name.
impl fmt::Display for AsmError {
    ghost use Rattle.vex_asm.specs.Errors.{asm_error_name};

    ghost output = { λ error. Some (asm_error_name error) };

    ghost styled_output = { λ error _. Some (asm_error_name error) };

    fn fmt<W: fmt::Write>(&self, f: &mut fmt::Formatter<W>) -> fmt::Result {
        f.write_str(self.name())
    }
}

impl Error for AsmError {}
