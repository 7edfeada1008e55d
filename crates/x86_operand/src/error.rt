//! Why bytes have no meaning, and why a meaning has no bytes.

ghost use Rattle.std.specs.Prelude.{◌≡◌, Some};

use std::error::Error;
use std::fmt;

/// Why a decoder refuses bytes.
#[derive(Clone, Copy, PartialEq, Eq, Debug)]
pub enum DecodeError {
    /// A byte is wanted where none is left.
    ExhaustedInput = 1,
    /// No instruction has this prefix, opcode byte or group, or the settings don't permit it.
    InvalidOpcode = 2,
    /// The instruction doesn't take these operands.
    InvalidOperand = 3,
    /// The first byte begins no instruction of the kind that is decoded.
    Outside = 4,
}

impl DecodeError {
    ghost use Rattle.x86_operand.specs.Errors.{decode_error_name};

    /// The variant's own spelling.
    pub fn name(&self) -> &'static str
        ensures { result.now ≡ decode_error_name self.now }
    {
        match self {
            DecodeError::ExhaustedInput => "ExhaustedInput",
            DecodeError::InvalidOpcode => "InvalidOpcode",
            DecodeError::InvalidOperand => "InvalidOperand",
            DecodeError::Outside => "Outside",
        }
    }
}

/// Writes the error's name.
impl fmt::Display for DecodeError {
    ghost use Rattle.x86_operand.specs.Errors.{decode_error_name};

    ghost output = { λ error. Some (decode_error_name error) };

    ghost styled_output = { λ error _. Some (decode_error_name error) };

    fn fmt<W: fmt::Write>(&self, f: &mut fmt::Formatter<W>) -> fmt::Result {
        f.write_str(self.name())
    }
}

impl Error for DecodeError {}

/// Why an encoder refuses a meaning.
#[derive(Clone, Copy, PartialEq, Eq, Debug)]
pub enum EncodeError {
    /// No byte string spells the meaning.
    NoSpelling,
}

impl EncodeError {
    ghost use Rattle.x86_operand.specs.Errors.{encode_error_name};

    /// The variant's own spelling.
    pub fn name(&self) -> &'static str
        ensures { result.now ≡ encode_error_name self.now }
    {
        match self {
            EncodeError::NoSpelling => "NoSpelling",
        }
    }
}

/// Writes the error's name.
impl fmt::Display for EncodeError {
    ghost use Rattle.x86_operand.specs.Errors.{encode_error_name};

    ghost output = { λ error. Some (encode_error_name error) };

    ghost styled_output = { λ error _. Some (encode_error_name error) };

    fn fmt<W: fmt::Write>(&self, f: &mut fmt::Formatter<W>) -> fmt::Result {
        f.write_str(self.name())
    }
}

impl Error for EncodeError {}
