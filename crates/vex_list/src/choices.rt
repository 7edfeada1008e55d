//! What a row and an instruction leave open to a spelling.

ghost use Rattle.std.specs.Prelude.{◌<◌, ◌≤◌, ◌+◌};
ghost use Rattle.std.specs.Option.{ForSome};

use vex_forms::OperandE;
use vex_rows::{Map, Pp};

/// The form of a prefix (Intel SDM volume 2, section 2.3.5).
#[derive(Clone, Copy, Debug)]
pub enum PrefixForm {
    /// Two bytes from C5 on.
    TwoBytes,
    /// Three bytes from C4 on.
    ThreeBytes,
}

/// How long a displacement is written.
#[derive(Clone, Copy, Debug)]
pub enum Width {
    /// Not at all.
    NoBytes,
    /// In one byte.
    OneByte,
    /// In four bytes.
    FourBytes,
}

/// How an address is written (Intel SDM volume 2, tables 2-2 and 2-3).
#[derive(Clone, Copy, Debug)]
pub enum AddressForm {
    /// Without a SIB byte.
    WithoutSib(Width),
    /// With a SIB byte that has this exponent of the scale, below 4.
    WithSib(u8, Width),
}

/// A choice of all that a row and an instruction leave open.
#[derive(Clone, Copy, Debug)]
pub struct Choices {
    /// The form of the prefix.
    pub form: PrefixForm,
    /// The bit R.
    pub r: bool,
    /// The bit X.
    pub x: bool,
    /// The bit B.
    pub b: bool,
    /// The field vvvv, below 16.
    pub vvvv: u8,
    /// The form of the address, which plays no part where the operand E is none.
    pub address: AddressForm,
    /// What is added to the least immediate byte.
    pub low: u8,
}

/// What all spellings of an instruction by a row have in common, and what of the rest is fixed.
#[derive(Clone, Copy, Debug)]
pub struct RowParts {
    /// The opcode map.
    pub map: Map,
    /// The implied prefix.
    pub pp: Pp,
    /// The bit W.
    pub w: bool,
    /// The bit L.
    pub l: bool,
    /// The opcode byte.
    pub byte: u8,
    /// The field reg, below 8.
    pub reg: u8,
    /// The operand E.
    pub e: OperandE,
    /// Whether there is an immediate byte.
    pub has_imm: bool,
    /// The least immediate byte.
    pub imm: u8,
    /// How many immediate bytes there are from that on.
    pub lows: u8,
    /// The bit R, where it is fixed.
    pub r: Option<bool>,
    /// The bit X, where it is fixed.
    pub x: Option<bool>,
    /// The bit B, where it is fixed.
    pub b: Option<bool>,
    /// The field vvvv, where it is fixed.
    pub vvvv: Option<u8>,
    ghost reg_fits: { reg < 8 },
    ghost vvvv_fits: { ForSome vvvv (λ v. v < 16) },
    ghost imm_fits: { imm + lows ≤ 256 },
}
