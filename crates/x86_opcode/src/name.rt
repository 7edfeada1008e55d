//! The names of opcodes, and the opcode of a name.

ghost use Rattle.std.specs.Prelude.{◌≡◌, ◌<◌, Some, IfSome};
ghost use Rattle.x86_opcode.specs.Name.{opcode_name};
ghost use Rattle.x86_opcode.specs.Slots.{hash, shift_at, slot, opcode_at};

use crate::Opcode;
use crate::slots::{SHIFTS, SLOTS};
use std::fmt;

impl Opcode {
    /// The opcode's name, spelled as its constant. No other opcode has it.
    #[tactic(auto, unfolding(crate::specs::Name::opcode_name))]
    pub fn name(&self) -> &'static str
        ensures value { result.now ≡ opcode_name self.now }
        ensures distinct { (other : Opcode) → opcode_name other ≡ result.now → other ≡ self.now }
    {
        match self {
            Opcode::Invalid => "Invalid",
            Opcode::BSF => "BSF",
            Opcode::Legacy(part) => part.name(),
            Opcode::Integer(part) => part.name(),
            Opcode::Float(part) => part.name(),
            Opcode::Fused(part) => part.name(),
            Opcode::Marked(part) => part.name(),
        }
    }

    /// The opcode of that name, and `None` exactly where no opcode has it. Case counts.
    pub fn named(name: &str) -> Option<Opcode>
        ensures found { IfSome result (λ opcode. opcode_name opcode ≡ name.now) }
        ensures only { (opcode : Opcode) → opcode_name opcode ≡ name.now → result ≡ Some opcode }
    {
        let opcode = opcode_at(slot(name.as_bytes()));
        if opcode.name().as_bytes() == name.as_bytes() {
            Some(opcode)
        } else {
            None
        }
    }
}

/// The hash of a name.
fn hash(name: &[u8]) -> u32
    ensures value { result ≡ hash name.now }
    ensures below { result < 1048576 }
{
    let mut sum: u32 = 0;
    for byte in name {
        sum = (sum * 35 + u32::from(*byte)) % 1048576;
    }
    sum
}

/// How far the names of a bucket are moved on.
#[tactic(auto, unfolding(crate::specs::Slots::shift_at))]
fn shift_at(bucket: usize) -> u16
    requires { bucket < 256 }
    ensures { result ≡ shift_at bucket }
{
    SHIFTS[bucket]
}

/// The opcode on a slot.
#[tactic(auto, unfolding(crate::specs::Slots::opcode_at))]
fn opcode_at(slot: usize) -> Opcode
    requires { slot < 768 }
    ensures { result ≡ opcode_at slot }
{
    SLOTS[slot]
}

/// The slot on which the opcode of a name stands, where there is one.
#[tactic(auto, unfolding(crate::specs::Slots::slot))]
fn slot(name: &[u8]) -> usize
    ensures value { result ≡ slot name.now }
    ensures below { result < 768 }
{
    let sum = hash(name);
    let shift = shift_at((sum % 256) as usize);
    (sum / 256 + u32::from(shift)) as usize % 768
}

/// Writes the opcode's name.
impl fmt::Display for Opcode {
    ghost output = { λ opcode. Some (opcode_name opcode) };

    ghost styled_output = { λ opcode _. Some (opcode_name opcode) };

    fn fmt<W: fmt::Write>(&self, f: &mut fmt::Formatter<W>) -> fmt::Result {
        f.write_str(self.name())
    }
}

/// Writes the opcode's name.
impl fmt::Debug for Opcode {
    ghost debug_output = { λ opcode. Some (opcode_name opcode) };

    fn fmt<W: fmt::Write>(&self, f: &mut fmt::Formatter<W>) -> fmt::Result {
        fmt::Display::fmt(self, f)
    }
}
