//! Why a call refuses.

ghost use Rattle.std.specs.Prelude.{◌≡◌, ◌↔◌, ◌≤◌, IfSome, IsSome};
ghost use Rattle.vex_calls.specs.Errors.{decode_error, error_name, error_number, error_of};

use x86_operand::DecodeError;

/// Why a call refuses. The numbers never change; new errors come at the end.
#[derive(Clone, Copy, PartialEq, Eq, Debug)]
pub enum CallError {
    /// A byte is wanted where none is left.
    ExhaustedInput,
    /// No instruction has this prefix, opcode byte or group, or the settings don't permit it.
    InvalidOpcode,
    /// The instruction doesn't take these operands.
    InvalidOperand,
    /// The first byte begins no instruction of the kind that is decoded.
    Outside,
    /// No bytes spell the meaning, or none that come after those given.
    NoSpelling,
    /// No instruction can be made of the struct.
    BadInstruction,
    /// A count of bytes is above 15.
    BadEncoding,
    /// The text is no meaning's.
    BadText,
    /// There is no such syntax.
    BadSyntax,
    /// There is too little room for the text.
    NoRoom,
    /// Nothing has that name.
    NoSuchName,
    /// Nothing has that number.
    NoSuchNumber,
    /// An instruction has the EVEX mark, and no settings are known that it needs.
    Marked,
}

impl CallError {
    /// The error's number, from 1 on.
    pub fn number(self) -> u32
        ensures number { result ≡ error_number self }
        ensures within { (1 ≤ result) × (result ≤ 13) }
    {
        match self {
            CallError::ExhaustedInput => 1,
            CallError::InvalidOpcode => 2,
            CallError::InvalidOperand => 3,
            CallError::Outside => 4,
            CallError::NoSpelling => 5,
            CallError::BadInstruction => 6,
            CallError::BadEncoding => 7,
            CallError::BadText => 8,
            CallError::BadSyntax => 9,
            CallError::NoRoom => 10,
            CallError::NoSuchName => 11,
            CallError::NoSuchNumber => 12,
            CallError::Marked => 13,
        }
    }

    /// The error of a number, and `None` of 0 and from 14 on.
    pub fn numbered(number: u32) -> Option<CallError>
        ensures value { result ≡ error_of number }
        ensures number { IfSome result (λ error. error_number error ≡ number) }
        ensures there { IsSome result ↔ ((1 ≤ number) × (number ≤ 13)) }
    {
        match number {
            1 => Some(CallError::ExhaustedInput),
            2 => Some(CallError::InvalidOpcode),
            3 => Some(CallError::InvalidOperand),
            4 => Some(CallError::Outside),
            5 => Some(CallError::NoSpelling),
            6 => Some(CallError::BadInstruction),
            7 => Some(CallError::BadEncoding),
            8 => Some(CallError::BadText),
            9 => Some(CallError::BadSyntax),
            10 => Some(CallError::NoRoom),
            11 => Some(CallError::NoSuchName),
            12 => Some(CallError::NoSuchNumber),
            13 => Some(CallError::Marked),
            _ => None,
        }
    }

    /// The variant's own spelling.
    pub fn name(self) -> &'static str
        ensures { result.now ≡ error_name self }
    {
        match self {
            CallError::ExhaustedInput => "ExhaustedInput",
            CallError::InvalidOpcode => "InvalidOpcode",
            CallError::InvalidOperand => "InvalidOperand",
            CallError::Outside => "Outside",
            CallError::NoSpelling => "NoSpelling",
            CallError::BadInstruction => "BadInstruction",
            CallError::BadEncoding => "BadEncoding",
            CallError::BadText => "BadText",
            CallError::BadSyntax => "BadSyntax",
            CallError::NoRoom => "NoRoom",
            CallError::NoSuchName => "NoSuchName",
            CallError::NoSuchNumber => "NoSuchNumber",
            CallError::Marked => "Marked",
        }
    }

    /// The error of a decode, among those of the calls.
    pub fn of_decode(error: DecodeError) -> CallError
        ensures { result ≡ decode_error error }
    {
        match error {
            DecodeError::ExhaustedInput => CallError::ExhaustedInput,
            DecodeError::InvalidOpcode => CallError::InvalidOpcode,
            DecodeError::InvalidOperand => CallError::InvalidOperand,
            DecodeError::Outside => CallError::Outside,
        }
    }
}
