//! The operations on two operands, by the size of their lanes.

ghost use Rattle.std.specs.Prelude.{◌≡◌};
ghost use Rattle.vex_emul.specs.Operation.{result_of};

use crate::kernels::{
    add_16, add_32, and, and_not, equal_16, equal_32, exclusive_or, or, subtract_16, subtract_32,
};
use std::simd::prelude::*;

/// The size of the lanes that an operation goes by.
#[derive(Clone, Copy, PartialEq, Eq, Debug)]
pub enum Lane {
    /// One byte.
    Byte,
    /// Two bytes.
    Word,
    /// Four bytes.
    Doubleword,
    /// Eight bytes.
    Quadword,
}

/// An operation on two operands of one size.
#[derive(Clone, Copy, PartialEq, Eq, Debug)]
pub enum Operation {
    /// The sum of each two lanes.
    Add(Lane),
    /// Each lane of the first, less that of the second.
    Subtract(Lane),
    /// Where two lanes are equal, a lane of bytes FF, and of bytes 0 elsewhere.
    Equal(Lane),
    /// The bits that are set in both.
    And,
    /// The bits that are set in the second and not in the first.
    AndNot,
    /// The bits that are set in one or in both.
    Or,
    /// The bits that are set in one alone.
    Xor,
}

/// The result on operands of 16 bytes.
#[tactic(auto, unfolding(crate::specs::Operation::result_of))]
pub(crate) fn result_16(operation: Operation, v: u8x16, e: u8x16) -> u8x16
    ensures { result ≡ result_of operation 16 v e }
{
    match operation {
        Operation::Add(lane) => add_16(lane, v, e),
        Operation::Subtract(lane) => subtract_16(lane, v, e),
        Operation::Equal(lane) => equal_16(lane, v, e),
        Operation::And => and(v, e),
        Operation::AndNot => and_not(v, e),
        Operation::Or => or(v, e),
        Operation::Xor => exclusive_or(v, e),
    }
}

/// The result on operands of 32 bytes.
#[tactic(auto, unfolding(crate::specs::Operation::result_of))]
pub(crate) fn result_32(operation: Operation, v: u8x32, e: u8x32) -> u8x32
    ensures { result ≡ result_of operation 32 v e }
{
    match operation {
        Operation::Add(lane) => add_32(lane, v, e),
        Operation::Subtract(lane) => subtract_32(lane, v, e),
        Operation::Equal(lane) => equal_32(lane, v, e),
        Operation::And => and(v, e),
        Operation::AndNot => and_not(v, e),
        Operation::Or => or(v, e),
        Operation::Xor => exclusive_or(v, e),
    }
}
