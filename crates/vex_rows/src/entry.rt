//! One line of the opcode maps.

ghost use Rattle.std.specs.Prelude.{◌≡◌};
ghost use Rattle.vex_rows.specs.Rules.{allows, has_key};

use crate::form::Form;
use crate::key::{Key, Map, Pp};
use x86_operand::Opcode;

/// What an entry asks of a bit of the prefix. The manual writes the rules as WIG, W0 and W1 for W, and as LIG, 128 and
/// 256 for L (Intel SDM volume 2, section 3.1.1.2).
#[derive(Clone, Copy, PartialEq, Eq, Debug, Default)]
pub enum Rule {
    /// The bit plays no part.
    #[default]
    Any,
    /// The bit is 0.
    Zero,
    /// The bit is 1.
    One,
}

/// One line of the opcode maps: where it stands, what it asks of W and L, the form of its operands, and the opcode that
/// it announces (Intel SDM volume 2, section 3.1.1.2). That is `Opcode::Invalid` where a group field or the kind of
/// operand decides.
#[derive(Clone, Copy, PartialEq, Eq, Debug, Default)]
pub struct Entry {
    /// The opcode map.
    pub map: Map,
    /// The implied prefix.
    pub pp: Pp,
    /// The opcode byte.
    pub byte: u8,
    /// What it asks of W.
    pub w: Rule,
    /// What it asks of L.
    pub l: Rule,
    /// The form of its operands.
    pub form: Form,
    /// The opcode that it announces.
    pub opcode: Opcode,
}

impl Rule {
    /// Whether the rule allows a bit.
    pub fn allows(self, bit: bool) -> bool
        ensures { result ≡ allows self bit }
    {
        match self {
            Rule::Any => true,
            Rule::Zero => !bit,
            Rule::One => bit,
        }
    }
}

impl Entry {
    /// Whether the entry has the key: map, implied prefix and byte are the key's, and its rules allow the key's W and
    /// L.
    #[tactic(auto, unfolding(crate::specs::Rules::has_key))]
    pub fn has_key(&self, key: &Key) -> bool
        ensures { result ≡ has_key self.now key.now }
    {
        self.byte == key.byte
            && self.map == key.map
            && self.pp == key.pp
            && self.w.allows(key.w)
            && self.l.allows(key.l)
    }
}
