//! The numbers of opcodes, and the list of all.

ghost use Rattle.std.specs.Prelude.{◌≡◌, ◌↔◌, ◌<◌, ℕ, Some, IsTrue, length, slice_get};
ghost use Rattle.x86_opcode.specs.Number.{opcode_number};

use crate::Opcode;
use crate::list::{ALL, FIRST_FLOAT, FIRST_FUSED, FIRST_INTEGER, FIRST_LEGACY, FIRST_MARKED};

impl Opcode {
    /// The opcode's place among all opcodes, 0 to 550.
    #[tactic(auto, unfolding(crate::specs::Number::opcode_number), using(crate::proofs::Tags::tags))]
    pub fn number(self) -> u16
        ensures place { result ≡ opcode_number self }
        ensures below { result < 551 }
        ensures distinct { (other : Opcode) → opcode_number other ≡ result → other ≡ self }
    {
        match self {
            Opcode::Invalid => 0,
            Opcode::BSF => 1,
            Opcode::Legacy(part) => FIRST_LEGACY + part as u16,
            Opcode::Integer(part) => FIRST_INTEGER + part as u16,
            Opcode::Float(part) => FIRST_FLOAT + part as u16,
            Opcode::Fused(part) => FIRST_FUSED + part as u16,
            Opcode::Marked(part) => FIRST_MARKED + part as u16,
        }
    }

    /// Whether the two opcodes are one.
    #[tactic(auto, using(crate::specs::Number::Lemmas::opcode_number_injective))]
    pub fn is(self, other: Opcode) -> bool
        ensures { IsTrue result ↔ (self ≡ other) }
    {
        self.number() == other.number()
    }

    /// All opcodes, each once, in the order of their numbers.
    pub fn all() -> &'static [Opcode]
        ensures each { (o : Opcode) → slice_get result.now (opcode_number o) ≡ Some o }
        ensures once { (i : ℕ) (o : Opcode) → slice_get result.now i ≡ Some o → i ≡ opcode_number o }
        ensures count { length result.now ≡ 551 }
    {
        &ALL
    }
}
