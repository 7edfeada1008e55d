//! The operations on whole vectors, by lanes: of v, the operand that the prefix names, and e, the one that ModRM names.

ghost use Rattle.std.specs.Prelude.{◌≡◌, bit_and, bit_or, bit_xor};
ghost use Rattle.std.specs.Simd.Lanes.{zip2};
ghost use Rattle.vex_emul.specs.Lanes.{by_lanes, sum_in, difference_in, equality_in, and_not};

use crate::operation::Lane;
use std::simd::prelude::*;

// An operation on two vectors by lanes of each size: `$bytes` on their bytes as they are, and `$wider` on their bytes
// as wider lanes, which have the vectors' names there, with its result as bytes.
macro_rules! by_lanes {
    ($lane:ident, $v:ident, $e:ident, $words:ty, $doublewords:ty, $quadwords:ty, $bytes:expr, $wider:expr) => {
        match $lane {
            Lane::Byte => $bytes,
            Lane::Word => on_lanes!($words, $v, $e, $wider),
            Lane::Doubleword => on_lanes!($doublewords, $v, $e, $wider),
            Lane::Quadword => on_lanes!($quadwords, $v, $e, $wider),
        }
    };
}

macro_rules! on_lanes {
    ($lanes:ty, $v:ident, $e:ident, $result:expr) => {{
        let $v = <$lanes>::from_le_bytes($v);
        let $e = <$lanes>::from_le_bytes($e);
        $result.to_le_bytes()
    }};
}

/// The sums of the lanes, of 16 bytes.
pub(crate) fn add_16(lane: Lane, v: u8x16, e: u8x16) -> u8x16
    ensures { result ≡ by_lanes sum_in lane 16 v e }
{
    by_lanes!(lane, v, e, u16x8, u32x4, u64x2, v + e, (v + e))
}

/// The sums of the lanes, of 32 bytes.
pub(crate) fn add_32(lane: Lane, v: u8x32, e: u8x32) -> u8x32
    ensures { result ≡ by_lanes sum_in lane 32 v e }
{
    by_lanes!(lane, v, e, u16x16, u32x8, u64x4, v + e, (v + e))
}

/// The lanes of v less those of e, of 16 bytes.
pub(crate) fn subtract_16(lane: Lane, v: u8x16, e: u8x16) -> u8x16
    ensures { result ≡ by_lanes difference_in lane 16 v e }
{
    by_lanes!(lane, v, e, u16x8, u32x4, u64x2, v - e, (v - e))
}

/// The lanes of v less those of e, of 32 bytes.
pub(crate) fn subtract_32(lane: Lane, v: u8x32, e: u8x32) -> u8x32
    ensures { result ≡ by_lanes difference_in lane 32 v e }
{
    by_lanes!(lane, v, e, u16x16, u32x8, u64x4, v - e, (v - e))
}

/// Bytes FF where the lanes are equal and 0 elsewhere, of 16 bytes.
pub(crate) fn equal_16(lane: Lane, v: u8x16, e: u8x16) -> u8x16
    ensures { result ≡ by_lanes equality_in lane 16 v e }
{
    by_lanes!(
        lane,
        v,
        e,
        u16x8,
        u32x4,
        u64x2,
        v.simd_eq(e).select(Simd::splat(255), Simd::splat(0)),
        v.simd_eq(e).to_simd()
    )
}

/// Bytes FF where the lanes are equal and 0 elsewhere, of 32 bytes.
pub(crate) fn equal_32(lane: Lane, v: u8x32, e: u8x32) -> u8x32
    ensures { result ≡ by_lanes equality_in lane 32 v e }
{
    by_lanes!(
        lane,
        v,
        e,
        u16x16,
        u32x8,
        u64x4,
        v.simd_eq(e).select(Simd::splat(255), Simd::splat(0)),
        v.simd_eq(e).to_simd()
    )
}

/// The bits that are set in both.
pub(crate) fn and<const N: usize>(v: Simd<u8, N>, e: Simd<u8, N>) -> Simd<u8, N>
    ensures { result ≡ zip2 bit_and v.entry e.entry }
{
    v & e
}

/// The bits that are set in e and not in v.
pub(crate) fn and_not<const N: usize>(v: Simd<u8, N>, e: Simd<u8, N>) -> Simd<u8, N>
    ensures { result ≡ zip2 and_not v.entry e.entry }
{
    !v & e
}

/// The bits that are set in one or in both.
pub(crate) fn or<const N: usize>(v: Simd<u8, N>, e: Simd<u8, N>) -> Simd<u8, N>
    ensures { result ≡ zip2 bit_or v.entry e.entry }
{
    v | e
}

/// The bits that are set in one alone.
pub(crate) fn exclusive_or<const N: usize>(v: Simd<u8, N>, e: Simd<u8, N>) -> Simd<u8, N>
    ensures { result ≡ zip2 bit_xor v.entry e.entry }
{
    v ^ e
}
