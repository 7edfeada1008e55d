//! What a VEX prefix says, and the part of it that chooses an entry.

ghost use Rattle.std.specs.Prelude.{◌≡◌, ◌<◌};
ghost use Rattle.vex_rows.specs.Rules.{map_number, pp_number};

/// An opcode map, named by its legacy escape bytes (Intel SDM volume 2, section 2.3.6.1).
#[derive(Clone, Copy, PartialEq, Eq, Debug, Default)]
pub enum Map {
    /// The map of the two-byte opcodes.
    #[default]
    Map0F,
    /// The first map of the three-byte opcodes.
    Map0F38,
    /// The second map of the three-byte opcodes.
    Map0F3A,
}

impl Map {
    /// The number of the map in a three-byte prefix (Intel SDM volume 2, section 2.3.6.1).
    pub fn number(self) -> u8
        ensures value { result ≡ map_number self }
        ensures within { result < 4 }
    {
        match self {
            Map::Map0F => 1,
            Map::Map0F38 => 2,
            Map::Map0F3A => 3,
        }
    }
}

/// The legacy prefix that the field pp stands for (Intel SDM volume 2, section 2.3.6.3).
#[derive(Clone, Copy, PartialEq, Eq, Debug, Default)]
pub enum Pp {
    /// No prefix.
    #[default]
    Plain,
    /// The prefix 66.
    Prefix66,
    /// The prefix F3.
    PrefixF3,
    /// The prefix F2.
    PrefixF2,
}

impl Pp {
    /// The number of the implied prefix in the field pp (Intel SDM volume 2, section 2.3.6.3).
    pub fn number(self) -> u8
        ensures value { result ≡ pp_number self }
        ensures within { result < 4 }
    {
        match self {
            Pp::Plain => 0,
            Pp::Prefix66 => 1,
            Pp::PrefixF3 => 2,
            Pp::PrefixF2 => 3,
        }
    }
}

/// What chooses an entry: opcode map, implied prefix, opcode byte, W and L (Intel SDM volume 2, sections 2.3.5.5, 2.3.6
/// and 2.3.7).
#[derive(Clone, Copy, PartialEq, Eq, Debug)]
pub struct Key {
    /// The opcode map.
    pub map: Map,
    /// The implied prefix.
    pub pp: Pp,
    /// The opcode byte.
    pub byte: u8,
    /// The bit W.
    pub w: bool,
    /// The bit L.
    pub l: bool,
}

/// The fields of a VEX prefix, those that stand inverted in its bytes put right (Intel SDM volume 2, sections 2.3.5 and
/// 2.3.6).
#[derive(Clone, Copy, PartialEq, Eq, Debug)]
pub struct Prefix {
    /// The opcode map.
    pub map: Map,
    /// The implied prefix.
    pub pp: Pp,
    /// The bit W: operands of 64 bits, or a part of the opcode.
    pub w: bool,
    /// The bit L: vectors of 256 bits.
    pub l: bool,
    /// The bit R, which is bit 3 of the number in the field reg.
    pub r: bool,
    /// The bit X, which is bit 3 of an index's number.
    pub x: bool,
    /// The bit B, which is bit 3 of the number in the field rm, or of a base's.
    pub b: bool,
    /// The number of a register, from 0 to 15.
    pub vvvv: u8,
}
