//! The size of the memory operand of a row, in bytes.

ghost use Rattle.std.specs.Prelude.{◌≡◌, find};
ghost use Rattle.vex_rows.specs.FormRows.{sizes};
ghost use Rattle.vex_forms.specs.Layout.{chosen};
ghost use Rattle.vex_forms.specs.Slots.{bytes_at, found_or, is_of, size_of};

use crate::choice::Choice;
use crate::shape::ShapeSize;
use vex_rows::{ByteCount, SizeList, size_in};
use x86_operand::{MemoryAccessSize, Opcode};

/// The size that a list has for an opcode, or else the other.
#[inline(always)]
fn size_or(list: SizeList, opcode: Opcode, other: ByteCount) -> ByteCount
    ensures { result ≡ found_or (find (is_of opcode) (sizes list)) other }
{
    match size_in(list, opcode) {
        Some(size) => size.1,
        None => other,
    }
}

impl Choice {
    /// The number of bytes that the form names.
    #[inline(always)]
    fn bytes_at(&self, count: ByteCount) -> Option<u8>
        ensures { result ≡ bytes_at (chosen self.now) count }
    {
        match count {
            ByteCount::Nothing => None,
            ByteCount::Is(n) => Some(n),
            ByteCount::ByL(narrow, wide) => Some(if self.l { wide } else { narrow }),
            ByteCount::ByW(narrow, wide) => Some(if self.w { wide } else { narrow }),
        }
    }

    /// How many bytes the memory operand has, and `None` where the row has none. One form reads memory though its
    /// operands are registers.
    #[inline(always)]
    fn bytes(&self) -> Option<u8>
        ensures { result ≡ size_of (chosen self.now) }
    {
        match self.shape().size {
            ShapeSize::Always(bytes) => bytes,
            ShapeSize::ByOpcode(list, other) => {
                self.bytes_at(size_or(list, self.entry.opcode, other))
            }
        }
    }

    /// The size of the memory operand, and `None` where the row has none.
    #[inline(always)]
    pub fn memory_size(&self) -> Option<MemoryAccessSize>
        ensures { result ≡ size_of (chosen self.now) }
    {
        MemoryAccessSize::of(self.bytes()?)
    }
}
