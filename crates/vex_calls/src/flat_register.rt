//! A register as two numbers.

ghost use Rattle.std.specs.Prelude.{◌≡◌};
ghost use Rattle.vex_calls.specs.Registers.{bank_number, bank_of, flat_optional, flat_register, no_register, register_of};

use x86_operand::{RegSpec, RegisterBank};

/// A register: the number of its bank, from 1 to 6 in the order of `RegisterBank`, and its number there. Bank and
/// number 0 stand for no register.
#[repr(C)]
#[derive(Clone, Copy, PartialEq, Eq, Debug, Default)]
pub struct FlatRegister {
    /// The bank: 1 for Q, 2 for D, 3 for X, 4 for Y, 5 for Z, 6 for RIP, and 0 where there is no register.
    pub bank: u8,
    /// The number in the bank.
    pub number: u8,
}

impl FlatRegister {
    /// No register.
    pub fn none() -> FlatRegister
        ensures { result ≡ no_register }
    {
        FlatRegister { bank: 0, number: 0 }
    }

    /// That register.
    pub fn of(reg: RegSpec) -> FlatRegister
        ensures { result ≡ flat_register reg }
    {
        FlatRegister {
            bank: bank_number(reg.bank()),
            number: reg.num(),
        }
    }

    /// That register, where there is one.
    pub fn of_optional(reg: Option<RegSpec>) -> FlatRegister
        ensures { result ≡ flat_optional reg }
    {
        match reg {
            Some(reg) => FlatRegister::of(reg),
            None => FlatRegister::none(),
        }
    }

    /// The register that it is, and `None` where its bank is none or hasn't a register of this number.
    pub fn register(&self) -> Option<RegSpec>
        ensures { result ≡ register_of self.now }
    {
        match bank_of(self.bank) {
            Some(bank) => RegSpec::of(bank, self.number),
            None => None,
        }
    }
}

/// The number of a bank.
fn bank_number(bank: RegisterBank) -> u8
    ensures { result ≡ bank_number bank }
{
    match bank {
        RegisterBank::Q => 1,
        RegisterBank::D => 2,
        RegisterBank::X => 3,
        RegisterBank::Y => 4,
        RegisterBank::Z => 5,
        RegisterBank::RIP => 6,
    }
}

/// The bank of a number.
fn bank_of(number: u8) -> Option<RegisterBank>
    ensures { result ≡ bank_of number }
{
    match number {
        1 => Some(RegisterBank::Q),
        2 => Some(RegisterBank::D),
        3 => Some(RegisterBank::X),
        4 => Some(RegisterBank::Y),
        5 => Some(RegisterBank::Z),
        6 => Some(RegisterBank::RIP),
        _ => None,
    }
}
