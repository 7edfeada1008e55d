//! The size of a memory operand.

ghost use Rattle.std.specs.Prelude.{◌≡◌, ◌≤◌, ◌↔◌, IsTrue, IsSome, IsNone, IfSome, Some};
ghost use Rattle.x86_operand.specs.Size.{size_name};

use std::fmt;
use std::marker::Model;

/// How many bytes an instruction reads or writes in memory, 1 to 64, where 63 stands for a size
/// that isn't known from the instruction alone.
#[derive(Clone, Copy)]
pub struct MemoryAccessSize {
    size: u8,
}

impl Model for MemoryAccessSize {
    ghost use Rattle.std.specs.Prelude.{ℕ, ◌≤◌};

    ghost Value = { ℕ };

    ghost view = { λ s. s.size };

    ghost invariant = { λ s. (1 ≤ s.size) × (s.size ≤ 64) };

    ghost inverse = { λ n. record { size = n } };
}

impl MemoryAccessSize {
    /// The size of `n` bytes, or `None` where `n` is 0 or above 64.
    pub fn of(n: u8) -> Option<MemoryAccessSize>
        ensures within { IsSome result ↔ ((1 ≤ n) × (n ≤ 64)) }
        ensures value { IfSome result (λ size. size ≡ n) }
    {
        if 1 <= n && n <= 64 {
            Some(MemoryAccessSize { size: n })
        } else {
            None
        }
    }

    /// The number of bytes, 1 to 64, or `None` where the size is 63: it isn't known then.
    pub fn bytes_size(&self) -> Option<u8>
        ensures unknown { IsNone result ↔ (self.now ≡ 63) }
        ensures value { IfSome result (λ bytes. bytes ≡ self.now) }
        ensures within { (1 ≤ self.now) × (self.now ≤ 64) }
    {
        if self.size == 63 {
            None
        } else {
            Some(self.size)
        }
    }

    /// The name of the size, as `xmmword` for 16 bytes, and `BUG` for a size without a name.
    pub fn size_name(&self) -> &'static str
        ensures { result.now ≡ size_name self.now }
    {
        match self.size {
            1 => "byte",
            2 => "word",
            4 => "dword",
            5 => "ptr",
            6 => "far",
            8 => "qword",
            10 => "mword",
            16 => "xmmword",
            32 => "ymmword",
            48 => "m384b",
            63 => "ptr",
            64 => "zmmword",
            _ => "BUG",
        }
    }
}

/// Two sizes are equal where their numbers of bytes are.
impl PartialEq for MemoryAccessSize {
    ghost use Rattle.std.specs.Prelude.{nat_eq};
    ghost use Rattle.std.specs.Cmp.{nat_eq_equiv, partial_equiv_from_equiv};

    ghost eq = { nat_eq };

    ghost laws = { partial_equiv_from_equiv nat_eq_equiv };

    fn eq(&self, other: &MemoryAccessSize) -> bool
        ensures same { IsTrue result ↔ (self.now ≡ other.now) }
    {
        self.size == other.size
    }
}

impl Eq for MemoryAccessSize {
    ghost use Rattle.std.specs.Cmp.{nat_eq_equiv};

    ghost laws = { nat_eq_equiv };
}

/// Writes the name of the size.
impl fmt::Display for MemoryAccessSize {
    ghost output = { λ size. Some (size_name size) };

    ghost styled_output = { λ size _. Some (size_name size) };

    fn fmt<W: fmt::Write>(&self, f: &mut fmt::Formatter<W>) -> fmt::Result {
        f.write_str(self.size_name())
    }
}

/// Writes the name of the size.
impl fmt::Debug for MemoryAccessSize {
    ghost debug_output = { λ size. Some (size_name size) };

    fn fmt<W: fmt::Write>(&self, f: &mut fmt::Formatter<W>) -> fmt::Result {
        f.write_str(self.size_name())
    }
}
