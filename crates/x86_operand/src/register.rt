//! Registers: a bank and a number in it.

ghost use Rattle.std.specs.Prelude.{◌≡◌, ◌≤◌, ◌↔◌, IsTrue, IsSome, IfSome};
ghost use Rattle.x86_operand.specs.Register.{greatest};

use std::marker::Model;

/// A bank of registers.
#[derive(Clone, Copy, PartialEq, Eq, Debug)]
pub enum RegisterBank {
    /// The 16 general registers, 64 bits wide.
    Q,
    /// The 16 general registers, their low 32 bits.
    D,
    /// The 32 vector registers, their low 128 bits.
    X,
    /// The 32 vector registers, their low 256 bits.
    Y,
    /// The 32 vector registers, 512 bits wide.
    Z,
    /// The instruction pointer, alone in its bank.
    RIP,
}

impl RegisterBank {
    /// The number of the bank's last register.
    fn greatest(self) -> u8
        ensures { result ≡ greatest self }
    {
        match self {
            RegisterBank::Q | RegisterBank::D => 15,
            RegisterBank::X | RegisterBank::Y | RegisterBank::Z => 31,
            RegisterBank::RIP => 0,
        }
    }
}

/// A register: a number in a bank, of which there are 16 in `Q` and `D`, 32 in `X`, `Y` and `Z`,
/// and one in `RIP`.
#[derive(Clone, Copy, Debug)]
pub struct RegSpec {
    num: u8,
    bank: RegisterBank,
}

impl Model for RegSpec {
    ghost use Rattle.std.specs.Prelude.{◌≤◌};
    ghost use Rattle.x86_operand.specs.Register.{Register, greatest};

    ghost Value = { Register };

    ghost view = { λ r. record { bank = r.bank; num = r.num } };

    ghost invariant = { λ r. r.num ≤ greatest r.bank };

    ghost inverse = { λ r. record { num = r.num; bank = r.bank } };
}

impl RegSpec {
    /// The register of that number in the bank, or `None` where the number passes the bank's
    /// greatest.
    pub fn of(bank: RegisterBank, num: u8) -> Option<RegSpec>
        ensures within { IsSome result ↔ (num ≤ greatest bank) }
        ensures value { IfSome result (λ reg. reg ≡ record { bank = bank; num = num }) }
    {
        if num <= bank.greatest() {
            Some(RegSpec { num, bank })
        } else {
            None
        }
    }

    /// The number in the bank, at most 15 in `Q` and `D`, 31 in `X`, `Y` and `Z`, and 0 in `RIP`.
    pub fn num(&self) -> u8
        ensures value { result ≡ self.now.num }
        ensures within { result ≤ greatest self.now.bank }
    {
        self.num
    }

    /// The bank.
    pub fn bank(&self) -> RegisterBank
        ensures { result ≡ self.now.bank }
    {
        self.bank
    }

    /// The register `rax`: number 0 of bank `Q`.
    pub fn rax() -> RegSpec
        ensures { result ≡ record { bank = RegisterBank.Q; num = 0 } }
    {
        RegSpec {
            num: 0,
            bank: RegisterBank::Q,
        }
    }

    /// The register `rcx`: number 1 of bank `Q`.
    pub fn rcx() -> RegSpec
        ensures { result ≡ record { bank = RegisterBank.Q; num = 1 } }
    {
        RegSpec {
            num: 1,
            bank: RegisterBank::Q,
        }
    }

    /// The register `eax`: number 0 of bank `D`.
    pub fn eax() -> RegSpec
        ensures { result ≡ record { bank = RegisterBank.D; num = 0 } }
    {
        RegSpec {
            num: 0,
            bank: RegisterBank::D,
        }
    }
}

/// Two registers are equal where bank and number are.
impl PartialEq for RegSpec {
    ghost use Rattle.std.specs.Cmp.{decided, partial_equiv_from_equiv};
    ghost use Rattle.x86_operand.specs.Same.{same_register};
    ghost use Rattle.x86_operand.specs.Same.Lemmas.{same_register_decides};

    ghost eq = { same_register };

    ghost laws = { partial_equiv_from_equiv (decided same_register same_register_decides) };

    fn eq(&self, other: &RegSpec) -> bool
        ensures same { IsTrue result ↔ (self.now ≡ other.now) }
    {
        self.bank == other.bank && self.num == other.num
    }
}

impl Eq for RegSpec {
    ghost use Rattle.std.specs.Cmp.{decided};
    ghost use Rattle.x86_operand.specs.Same.{same_register};
    ghost use Rattle.x86_operand.specs.Same.Lemmas.{same_register_decides};

    ghost laws = { decided same_register same_register_decides };
}
