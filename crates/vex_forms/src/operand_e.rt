//! The operand E: what ModRM names besides the field reg.

use x86_operand::Address;

/// What the bytes from ModRM on name as the operand E (Intel SDM volume 2, sections 2.1.3 to 2.1.5).
#[derive(Clone, Copy, Debug)]
pub enum OperandE {
    /// Nothing, since there is no ModRM byte.
    Absent,
    /// The register with this number, which is the field rm with the bit B above it.
    Register(u8),
    /// The address in memory. Its base is of bank `Q` or the instruction pointer. Its index is of bank `Q`, also where
    /// the row says that it is a vector register.
    Memory(Address),
}
