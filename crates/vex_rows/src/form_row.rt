//! What the table of forms says of one form.

ghost use Rattle.std.specs.Prelude.{◌≡◌, ◌==◌, Some, if◌then◌else◌};
ghost use Rattle.std.specs.List.{list_any};
ghost use Rattle.vex_rows.specs.Few.{items};
ghost use Rattle.vex_rows.specs.Row.{group_opcode, is_group, is_group_check};

use crate::few::Few;
use crate::form::Form;
use crate::steps::Check;
use x86_operand::Opcode;

/// The bank of a register, as a form names it.
#[derive(Clone, Copy, PartialEq, Eq, Debug)]
pub enum BankRule {
    /// x.
    X,
    /// y.
    Y,
    /// d.
    D,
    /// q.
    Q,
    /// x with L 0, y with L 1.
    ByL,
    /// d with W 0, q with W 1.
    ByW,
    /// q for an element of 64 bits, d for the others, by the opcode.
    Element,
    /// The bank of a gather's operands: x where the elements are half as wide as the indices, by L elsewhere.
    Gather,
}

/// A slot, as a form names it: where an operand stands in the bytes, and the bank of its register.
#[derive(Clone, Copy, PartialEq, Eq, Debug)]
pub enum SlotRule {
    /// The register of the field reg.
    G(BankRule),
    /// The register of the field vvvv.
    V(BankRule),
    /// The register of the field vvvv, where the operand E is a register. In memory rows there is no such slot.
    VInRegister(BankRule),
    /// The register of the field rm, or an address in memory.
    E(BankRule),
    /// The immediate byte, unsigned.
    U8,
    /// The immediate byte, signed.
    I8,
    /// The register of the immediate byte's high four bits.
    R4(BankRule),
}

/// A number of bytes, as a form names it.
#[derive(Clone, Copy, PartialEq, Eq, Debug)]
pub enum ByteCount {
    /// There is no memory operand.
    Nothing,
    /// That many.
    Is(u8),
    /// The first with L 0, the second with L 1.
    ByL(u8, u8),
    /// The first with W 0, the second with W 1.
    ByW(u8, u8),
}

/// The sizes that go by the opcode, each a list of `sizes`.
#[derive(Clone, Copy, PartialEq, Eq, Debug)]
pub enum SizeList {
    /// An element that is taken out of a vector.
    Extract,
    /// An element that is put into a vector.
    Insert,
    /// What is stored from an xmm register.
    Store,
    /// The source of an xmm register.
    Load,
    /// The source of a conversion into an xmm register.
    Convert,
    /// The xmm source of a ymm register.
    Widen,
    /// The source of a vector whose bank goes by L.
    Broadcast,
    /// The last source of an operation on xmm registers.
    Scalar,
    /// The last source of an operation on xmm registers that has an immediate byte.
    ScalarImmediate,
    /// What is loaded into a part of an xmm register.
    Half,
    /// A move or an operation of whole vectors.
    Move,
    /// An element that is gathered.
    Gather,
}

/// The size of the operand E in memory.
#[derive(Clone, Copy, PartialEq, Eq, Debug)]
pub enum SizeRule {
    /// One for all opcodes.
    Always(ByteCount),
    /// The one that the list has for the opcode, and the other for an opcode that isn't in it.
    ByOpcode(SizeList, ByteCount),
}

/// What the table says of a form: its steps in order, its slots, sizes and opcodes.
#[derive(Clone, Copy, Debug)]
pub struct FormRow {
    /// The form.
    pub form: Form,
    /// Checks before the ModRM byte.
    pub before_modrm: Few<Check>,
    /// Whether there is a ModRM byte.
    pub modrm: bool,
    /// Checks after the ModRM byte.
    pub after_modrm: Few<Check>,
    /// Whether SIB and displacement are read, where ModRM says that they are there.
    pub address: bool,
    /// Checks after the address.
    pub after_address: Few<Check>,
    /// Whether there is an immediate byte.
    pub imm: bool,
    /// The slots, one for each operand in order.
    pub slots: Few<SlotRule>,
    /// Whether the address is a vector of addresses, one for each element of the index (Intel SDM volume 2, section
    /// 2.3.12).
    pub gathers: bool,
    /// The size of the operand E in memory.
    pub size: SizeRule,
    /// The size of what is read in memory where the operand E is a register.
    pub register_size: ByteCount,
    /// The reg fields that the form allows where it has groups, each below 8, with its opcode.
    pub groups: Few<(u8, Opcode)>,
    /// The opcodes with the operand E in a register and in memory, where they go by that.
    pub opcodes: Option<(Opcode, Opcode)>,
}

/// Whether a check is that of the reg field.
fn is_group_check(check: Check) -> bool
    ensures { result ≡ is_group_check check }
{
    matches!(check, Check::Group)
}

/// The opcode of a group where it is that of the reg field, and else the other.
fn opcode_or(group: (u8, Opcode), reg: u8, other: Opcode) -> Opcode
    ensures { result ≡ if group.0 == reg then group.1 else other }
{
    if group.0 == reg { group.1 } else { other }
}

impl FormRow {
    /// Whether the reg field says the opcode: a check after the ModRM byte is that of the reg field.
    pub fn has_groups(&self) -> bool
        ensures { result ≡ list_any is_group_check (items self.now.after_modrm) }
    {
        match self.after_modrm {
            Few::Zero => false,
            Few::One(a) => is_group_check(a),
            Few::Two(a, b) => is_group_check(a) || is_group_check(b),
            Few::Three(a, b, c) => is_group_check(a) || is_group_check(b) || is_group_check(c),
            Few::Four(a, b, c, d) => is_group_check(a)
                || is_group_check(b)
                || is_group_check(c)
                || is_group_check(d),
        }
    }

    /// Whether a reg field is that of one of the groups.
    pub fn is_group(&self, reg: u8) -> bool
        ensures { result ≡ is_group (items self.now.groups) reg }
    {
        match self.groups {
            Few::Zero => false,
            Few::One(a) => a.0 == reg,
            Few::Two(a, b) => a.0 == reg || b.0 == reg,
            Few::Three(a, b, c) => a.0 == reg || b.0 == reg || c.0 == reg,
            Few::Four(a, b, c, d) => a.0 == reg || b.0 == reg || c.0 == reg || d.0 == reg,
        }
    }

    /// The opcode of the group of that reg field, and the announced one where there is none.
    pub fn group_opcode(&self, reg: u8, announced: Opcode) -> Opcode
        ensures { result ≡ group_opcode (items self.now.groups) (Some reg) announced }
    {
        match self.groups {
            Few::Zero => announced,
            Few::One(a) => opcode_or(a, reg, announced),
            Few::Two(a, b) => opcode_or(a, reg, opcode_or(b, reg, announced)),
            Few::Three(a, b, c) => opcode_or(
                a,
                reg,
                opcode_or(b, reg, opcode_or(c, reg, announced)),
            ),
            Few::Four(a, b, c, d) => opcode_or(
                a,
                reg,
                opcode_or(b, reg, opcode_or(c, reg, opcode_or(d, reg, announced))),
            ),
        }
    }
}
