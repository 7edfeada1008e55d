//! The sizes that go by the opcode. In each list that has it an opcode stands at the same place.

ghost use Rattle.std.specs.Prelude.{◌≡◌, ◌==◌, find, Some, None, if◌then◌else◌};
ghost use Rattle.x86_opcode.specs.Number.{opcode_number, same_opcode};
ghost use Rattle.vex_rows.specs.FormRows.{sizes};
ghost use Rattle.vex_rows.specs.Index.{size_place_list};

use crate::form_row::ByteCount::{ByL, Is};
use crate::form_row::{ByteCount, SizeList};
use crate::places::SIZE_PLACES;
use x86_operand::Opcode;

/// The bytes of an element that is taken out of a vector.
pub const EXTRACT: &'static [(Opcode, ByteCount)] = &[
    (Opcode::VPEXTRB, Is(1)),
    (Opcode::VPEXTRW, Is(2)),
    (Opcode::VPEXTRQ, Is(8)),
];

/// The bytes of an element that is put into a vector.
pub const INSERT: &'static [(Opcode, ByteCount)] = &[
    (Opcode::VPINSRB, Is(1)),
    (Opcode::VPINSRW, Is(2)),
    (Opcode::VPINSRQ, Is(8)),
];

/// The bytes that a store from an xmm register writes, where it writes a half of it.
pub const STORE: &'static [(Opcode, ByteCount)] = &[
    (Opcode::VMOVLPD, Is(8)),
    (Opcode::VMOVHPD, Is(8)),
    (Opcode::VMOVLPS, Is(8)),
    (Opcode::VMOVHPS, Is(8)),
];

/// The bytes of the source of an xmm register, where it is smaller than the register.
pub const LOAD: &'static [(Opcode, ByteCount)] = &[
    (Opcode::VBROADCASTSS, Is(4)),
    (Opcode::VMOVQ, Is(8)),
    (Opcode::VPMOVSXBQ, Is(2)),
    (Opcode::VPMOVZXBQ, Is(2)),
    (Opcode::VPMOVSXBD, Is(4)),
    (Opcode::VPMOVZXBD, Is(4)),
    (Opcode::VPMOVSXWQ, Is(4)),
    (Opcode::VPMOVZXWQ, Is(4)),
    (Opcode::VUCOMISS, Is(4)),
    (Opcode::VCOMISS, Is(4)),
    (Opcode::VUCOMISD, Is(8)),
    (Opcode::VCOMISD, Is(8)),
    (Opcode::VCVTPS2PD, Is(8)),
    (Opcode::VPMOVSXBW, Is(8)),
    (Opcode::VPMOVZXBW, Is(8)),
    (Opcode::VPMOVSXWD, Is(8)),
    (Opcode::VPMOVZXWD, Is(8)),
    (Opcode::VPMOVSXDQ, Is(8)),
    (Opcode::VPMOVZXDQ, Is(8)),
];

/// The bytes of the source of a conversion into an xmm register, where it is smaller than the register.
pub const CONVERT: &'static [(Opcode, ByteCount)] = &[(Opcode::VCVTDQ2PD, Is(8))];

/// The bytes of the xmm source of a ymm register, where it is smaller than an xmm register.
pub const WIDEN: &'static [(Opcode, ByteCount)] = &[
    (Opcode::VBROADCASTSS, Is(4)),
    (Opcode::VBROADCASTSD, Is(8)),
    (Opcode::VPMOVSXBQ, Is(4)),
    (Opcode::VPMOVZXBQ, Is(4)),
    (Opcode::VPMOVSXBD, Is(8)),
    (Opcode::VPMOVZXBD, Is(8)),
    (Opcode::VPMOVSXWQ, Is(8)),
    (Opcode::VPMOVZXWQ, Is(8)),
];

/// The bytes of an element that is copied to all places, and of the half vector that is widened.
pub const BROADCAST: &'static [(Opcode, ByteCount)] = &[
    (Opcode::VPBROADCASTB, Is(1)),
    (Opcode::VPBROADCASTW, Is(2)),
    (Opcode::VPBROADCASTD, Is(4)),
    (Opcode::VPBROADCASTQ, Is(8)),
    (Opcode::VCVTPH2PS, ByL(8, 16)),
];

/// The bytes of the last source of an operation on xmm registers, where it is one element.
pub const SCALAR: &'static [(Opcode, ByteCount)] = &[
    (Opcode::VSQRTSS, Is(4)),
    (Opcode::VADDSS, Is(4)),
    (Opcode::VMULSS, Is(4)),
    (Opcode::VSUBSS, Is(4)),
    (Opcode::VMINSS, Is(4)),
    (Opcode::VDIVSS, Is(4)),
    (Opcode::VMAXSS, Is(4)),
    (Opcode::VRSQRTSS, Is(4)),
    (Opcode::VRCPSS, Is(4)),
    (Opcode::VFMADD132SS, Is(4)),
    (Opcode::VFMADD213SS, Is(4)),
    (Opcode::VFMADD231SS, Is(4)),
    (Opcode::VFMSUB132SS, Is(4)),
    (Opcode::VFMSUB213SS, Is(4)),
    (Opcode::VFMSUB231SS, Is(4)),
    (Opcode::VFNMADD132SS, Is(4)),
    (Opcode::VFNMADD213SS, Is(4)),
    (Opcode::VFNMADD231SS, Is(4)),
    (Opcode::VFNMSUB132SS, Is(4)),
    (Opcode::VFNMSUB213SS, Is(4)),
    (Opcode::VFNMSUB231SS, Is(4)),
    (Opcode::VSQRTSD, Is(8)),
    (Opcode::VADDSD, Is(8)),
    (Opcode::VMULSD, Is(8)),
    (Opcode::VSUBSD, Is(8)),
    (Opcode::VMINSD, Is(8)),
    (Opcode::VDIVSD, Is(8)),
    (Opcode::VMAXSD, Is(8)),
    (Opcode::VFMADD132SD, Is(8)),
    (Opcode::VFMADD213SD, Is(8)),
    (Opcode::VFMADD231SD, Is(8)),
    (Opcode::VFMSUB132SD, Is(8)),
    (Opcode::VFMSUB213SD, Is(8)),
    (Opcode::VFMSUB231SD, Is(8)),
    (Opcode::VFNMADD132SD, Is(8)),
    (Opcode::VFNMADD213SD, Is(8)),
    (Opcode::VFNMADD231SD, Is(8)),
    (Opcode::VFNMSUB132SD, Is(8)),
    (Opcode::VFNMSUB213SD, Is(8)),
    (Opcode::VFNMSUB231SD, Is(8)),
];

/// The bytes of the last source of an operation on xmm registers with an immediate byte, where it is one element.
pub const SCALAR_IMMEDIATE: &'static [(Opcode, ByteCount)] = &[
    (Opcode::VCMPSS, Is(4)),
    (Opcode::VROUNDSS, Is(4)),
    (Opcode::VINSERTPS, Is(4)),
    (Opcode::VCMPSD, Is(8)),
    (Opcode::VROUNDSD, Is(8)),
];

/// The bytes that are loaded into an xmm register beside what stays of another, where they are a half of it.
pub const HALF: &'static [(Opcode, ByteCount)] = &[
    (Opcode::VMOVLPD, Is(8)),
    (Opcode::VMOVHPD, Is(8)),
];

/// The bytes of a move or an operation of whole vectors, where they aren't the vector's.
pub const MOVE: &'static [(Opcode, ByteCount)] = &[
    (Opcode::VMOVDDUP, ByL(8, 32)),
    (Opcode::VMOVQ, Is(8)),
];

/// The bytes of an element that is gathered, where it isn't one of 8.
pub const GATHER: &'static [(Opcode, ByteCount)] = &[
    (Opcode::VPGATHERDD, Is(4)),
    (Opcode::VPGATHERQD, Is(4)),
    (Opcode::VGATHERDPS, Is(4)),
    (Opcode::VGATHERQPS, Is(4)),
];

/// The opcodes of a list, each with the number of its bytes.
#[tactic(auto, unfolding(crate::specs::FormRows::sizes))]
pub fn sizes_of(list: SizeList) -> &'static [(Opcode, ByteCount)]
    ensures { result.now ≡ sizes list }
{
    match list {
        SizeList::Extract => EXTRACT,
        SizeList::Insert => INSERT,
        SizeList::Store => STORE,
        SizeList::Load => LOAD,
        SizeList::Convert => CONVERT,
        SizeList::Widen => WIDEN,
        SizeList::Broadcast => BROADCAST,
        SizeList::Scalar => SCALAR,
        SizeList::ScalarImmediate => SCALAR_IMMEDIATE,
        SizeList::Half => HALF,
        SizeList::Move => MOVE,
        SizeList::Gather => GATHER,
    }
}

/// Where the size of each opcode stands in the lists that have it.
#[tactic(auto, unfolding(crate::specs::Index::size_place_list))]
fn all_size_places() -> &'static [u16]
    ensures { result.now ≡ size_place_list }
{
    &SIZE_PLACES
}

/// The size where its opcode has that number.
#[tactic(auto, unfolding(x86_opcode::specs::Number::same_opcode))]
#[inline(always)]
fn of_number(size: (Opcode, ByteCount), number: u16) -> Option<(Opcode, ByteCount)>
    ensures { result ≡ if opcode_number size.0 == number then Some size else None }
{
    if size.0.number() == number {
        Some(size)
    } else {
        None
    }
}

/// The opcode in a list with the number of its bytes, and `None` where it isn't in the list.
#[inline(always)]
pub fn size_in(list: SizeList, opcode: Opcode) -> Option<(Opcode, ByteCount)>
    ensures { result ≡ find (λ size. same_opcode size.0 opcode) (sizes list) }
{
    let number = opcode.number();
    let place = all_size_places()[number as usize];
    match sizes_of(list).get(place as usize) {
        Some(size) => of_number(*size, number),
        None => None,
    }
}
