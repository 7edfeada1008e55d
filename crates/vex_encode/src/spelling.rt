//! A spelling: the bytes of one instruction.

ghost use Rattle.std.specs.Cmp.Lexicographic.{pointwise};
ghost use Rattle.std.specs.Cmp.Rules.{comparing};
ghost use Rattle.std.proofs.Common.{rules};
ghost use Rattle.std.specs.Prelude.{nat_eq, ◌≡◌, ◌↔◌, IsTrue, IsSome, IfSome, [], ◌∷◌, ◌++◌, ◌<◌, ◌≤◌, ◌+◌, length};

use arrayvec::ArrayVec;
use std::marker::Model;
use vex_decode::MAX_BYTES;

/// The bytes of one instruction, at most 11.
#[derive(Debug, Drop)]
pub struct Spelling {
    bytes: ArrayVec<u8, MAX_BYTES>,
}

impl Model for Spelling {
    ghost use Rattle.std.specs.Prelude.{List, ℕ};

    ghost Value = { List ℕ };

    ghost view = { λ s. s.bytes.items };
}

impl Spelling {
    /// No bytes yet.
    pub(crate) fn new() -> Spelling
        ensures { result ≡ [] }
    {
        Spelling {
            bytes: ArrayVec::new(),
        }
    }

    /// These bytes, whatever they are, and `None` exactly where there are more than 11.
    pub fn of(bytes: &[u8]) -> Option<Spelling>
        ensures within { IsSome result ↔ (length bytes.now ≤ 11) }
        ensures bytes { IfSome result (λ spelling. spelling ≡ bytes.now) }
    {
        if bytes.len() > MAX_BYTES {
            return None;
        }
        let mut spelling = Spelling::new();
        spelling.extend(bytes);
        Some(spelling)
    }

    /// Appends a byte.
    pub(crate) fn push(&mut self, byte: u8)
        requires { length self.old < 11 }
        ensures { self.new ≡ self.old ++ byte ∷ [] }
    {
        self.bytes.push(byte);
    }

    /// Appends bytes.
    pub(crate) fn extend(&mut self, bytes: &[u8])
        requires { length self.old + length bytes.now ≤ 11 }
        ensures { self.new ≡ self.old ++ bytes.now }
    {
        match self.bytes.try_extend_from_slice(bytes) {
            Ok(()) => {}
            Err(_) => unreachable!(),
        }
    }

    /// The bytes.
    pub fn as_slice(&self) -> &[u8]
        ensures bytes { result.now ≡ self.now }
        ensures short { length result.now ≤ 11 }
    {
        self.bytes.as_slice()
    }
}

impl PartialEq for Spelling {
    ghost eq = { pointwise nat_eq };

    ghost laws = { Prim.search (comparing, rules) };

    fn eq(&self, other: &Spelling) -> bool
        ensures same { IsTrue result ↔ (self.now ≡ other.now) }
    {
        self.as_slice() == other.as_slice()
    }
}

impl Eq for Spelling {
    ghost laws = { Prim.search (comparing, rules) };
}
