//! What a decoder notes of the fields that it reads.

ghost use Rattle.std.specs.Prelude.{◌≡◌};
ghost use Rattle.x86_operand.specs.Note.{default_description, note_text};

use crate::register::RegSpec;
use x86_opcode::Opcode;

/// What stands in a field of a VEX prefix (Intel SDM volume 2, section 2.3.5), or ends there. The bits R, X and B are
/// those of the byte, before they are inverted.
#[derive(Clone, Copy, PartialEq, Eq, Debug)]
pub enum Note {
    /// The field p is 0: no prefix is implied.
    P0,
    /// It is 1: the prefix 66 is implied.
    P1,
    /// It is 2: F3 is.
    P2,
    /// It is 3: F2 is.
    P3,
    /// The map number is 1: opcode map 0F.
    M1,
    /// It is 2: map 0F38.
    M2,
    /// It is 3: map 0F3A.
    M3,
    /// It is any other: there is no such map.
    MOther,
    /// The bit R stands as 0 in the byte: the reg field is raised by 8.
    R0,
    /// It stands as 1: the reg field is as it is.
    R1,
    /// The bit X stands as 0: an index is raised by 8.
    X0,
    /// It stands as 1: an index is as it is.
    X1,
    /// The bit B stands as 0: a base is raised by 8.
    B0,
    /// It stands as 1: a base is as it is.
    B1,
    /// The bit L is 0: vectors of 128 bits.
    L0,
    /// It is 1: vectors of 256 bits.
    L1,
    /// The bit W is 1: operands of 64 bits.
    W1,
    /// It is 0: operands of the size that goes without saying.
    W0,
    /// The prefix ends here.
    PrefixEnd,
    /// The opcode ends here.
    OpcodeEnd,
}

impl Note {
    /// The note in words.
    pub fn text(&self) -> &'static str
        ensures { result.now ≡ note_text self.now }
    {
        match self {
            Note::P0 => "vex.p indicates no opcode prefix",
            Note::P1 => "vex.p indicates opcode prefix 66",
            Note::P2 => "vex.p indicates opcode prefix f3",
            Note::P3 => "vex.p indicates opcode prefix f2",
            Note::M1 => "vex.mmmmm indicates opcode escape of 0f",
            Note::M2 => "vex.mmmmm indicates opcode escape of 0f38",
            Note::M3 => "vex.mmmmm indicates opcode escape of 0f3a",
            Note::MOther => "vex.mmmmm indicates illegal opcode escape and is invalid",
            Note::R0 => "vex.r extends extends rrr by 0b1000",
            Note::R1 => "vex.r does not alter rrr",
            Note::X0 => "vex.x extends extends index reg (if used) by 0b1000",
            Note::X1 => "vex.x does not alter index reg",
            Note::B0 => "vex.b extends extends base reg (if used) by 0b1000",
            Note::B1 => "vex.b does not alter base reg",
            Note::L0 => "vex.l selects 128-bit vector sizes",
            Note::L1 => "vex.l selects 256-bit vector sizes",
            Note::W1 => "vex.w selects 64-bit operand size",
            Note::W0 => "vex.w leaves default operand size",
            Note::PrefixEnd => "vex prefix ends/opcode begins",
            Note::OpcodeEnd => "vex opcode ends/operands begin",
        }
    }
}

/// What a field holds.
#[derive(Clone, Copy, PartialEq, Eq, Debug)]
pub enum InnerDescription {
    /// A field with this note.
    Misc(Note),
    /// The field `vvvv`, with its number and the register of that number.
    RegisterNumber(u8, RegSpec),
    /// The opcode byte, with the opcode that its entry announces.
    Opcode(Opcode),
    /// The end of a part of the instruction.
    Boundary(Note),
}

impl InnerDescription {
    /// The description of a field that is told from others by a number.
    pub fn with_id(self, id: u32) -> FieldDescription
        ensures { result ≡ record { desc = self; id = id } }
    {
        FieldDescription { desc: self, id }
    }
}

/// What a field holds, and a number that tells fields apart.
#[derive(Clone, Copy, PartialEq, Eq, Debug)]
pub struct FieldDescription {
    /// What the field holds.
    pub desc: InnerDescription,
    /// The number of the field.
    pub id: u32,
}

/// The first note as a boundary, with the number 0.
impl Default for FieldDescription {
    ghost is_default = { λ field. field ≡ default_description };

    fn default() -> FieldDescription {
        InnerDescription::Boundary(Note::P0).with_id(0)
    }
}
