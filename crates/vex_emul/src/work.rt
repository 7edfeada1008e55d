//! What an instruction does to a machine.

ghost use Rattle.std.specs.Prelude.{◌≡◌, ◌<◌, ◌≤◌, Some, None, MatchBool};
ghost use Rattle.vex_emul.specs.declared.work.Work.TheVariants.{Combine, Move};
ghost use Rattle.vex_emul.specs.Work.{size_of, fetched, stored, combined, moved, after, IsLocation, IsWork};

use crate::machine::Machine;
use crate::operation::{Operation, result_16, result_32};
use std::simd::prelude::*;

/// Where an operand is: in a vector register by its number, or in the memory from a place on.
#[derive(Clone, Copy)]
pub enum Location {
    /// A vector register.
    Vector {
        /// Its number, below 16.
        num: u8,
    },
    /// A part of the memory.
    Memory {
        /// How many bytes stand before it.
        place: u64,
    },
}

/// What an instruction does. A wide one has operands of 32 bytes, another of 16.
#[derive(Clone, Copy)]
pub enum Work {
    /// An operation on a vector and an operand, whose result goes to a vector.
    Combine {
        /// The operation.
        operation: Operation,
        /// Whether the operands have 32 bytes.
        wide: bool,
        /// The vector register that gets the result.
        dest: u8,
        /// The vector register that is the first operand.
        first: u8,
        /// Where the second operand is.
        second: Location,
    },
    /// A copy of an operand into another.
    Move {
        /// Whether the operands have 32 bytes.
        wide: bool,
        /// Where the bytes go.
        dest: Location,
        /// Where they are.
        source: Location,
    },
    /// All vectors lose their bytes from 16 on.
    ZeroUpper,
    /// All vectors become 0.
    ZeroAll,
}

impl<'a> Machine<'a> {
    /// The bytes there, or `None` where they are in memory and don't lie wholly there.
    #[tactic(auto, unfolding(crate::specs::Work::fetched))]
    fn fetch<const N: usize>(&self, location: Location) -> Option<[u8; N]>
        requires size { N ≤ 32 }
        requires location { IsLocation location }
        ensures { result ≡ fetched self.now N location }
    {
        match location {
            Location::Vector { num } => Some(self.low::<N>(num).to_array()),
            Location::Memory { place } => {
                if self.has_room(place, N as u64) {
                    Some(self.load::<N>(place as usize).to_array())
                } else {
                    None
                }
            }
        }
    }

    /// Writes the bytes there. `false`, and nothing is changed, where they go to memory and don't lie wholly there.
    #[tactic(auto, unfolding(crate::specs::Work::stored))]
    fn put<const N: usize>(&mut self, location: Location, value: Simd<u8, N>) -> bool
        requires size { N ≤ 32 }
        requires location { IsLocation location }
        ensures { MatchBool result
            (stored self.old N location value.entry ≡ Some self.new)
            ((stored self.old N location value.entry ≡ None) × (self.new ≡ self.old)) }
    {
        match location {
            Location::Vector { num } => {
                self.set_low(num, value);
                true
            }
            Location::Memory { place } => {
                if self.has_room(place, N as u64) {
                    self.store(place as usize, value);
                    true
                } else {
                    false
                }
            }
        }
    }

    /// Puts the result of an operation into a vector register. `false`, and nothing is changed, where the second
    /// operand is in memory and doesn't lie wholly there.
    #[tactic(auto, unfolding(crate::specs::Work::combined))]
    fn combine(
        &mut self,
        operation: Operation,
        wide: bool,
        dest: u8,
        first: u8,
        second: Location,
    ) -> bool
        requires { IsWork (Combine operation wide dest first second) }
        ensures { MatchBool result
            (combined self.old operation (size_of wide) dest first second ≡ Some self.new)
            ((combined self.old operation (size_of wide) dest first second ≡ None) × (self.new ≡ self.old)) }
    {
        if wide {
            let Some(e) = self.fetch::<32>(second) else {
                return false;
            };
            let v = self.low::<32>(first);
            self.set_low(dest, result_32(operation, v, u8x32::from_array(e)));
        } else {
            let Some(e) = self.fetch::<16>(second) else {
                return false;
            };
            let v = self.low::<16>(first);
            self.set_low(dest, result_16(operation, v, u8x16::from_array(e)));
        }
        true
    }

    /// Copies an operand into another. `false`, and nothing is changed, where one of them is in memory and doesn't lie
    /// wholly there.
    #[tactic(auto, unfolding(crate::specs::Work::moved))]
    fn copy(&mut self, wide: bool, dest: Location, source: Location) -> bool
        requires { IsWork (Move wide dest source) }
        ensures { MatchBool result
            (moved self.old (size_of wide) dest source ≡ Some self.new)
            ((moved self.old (size_of wide) dest source ≡ None) × (self.new ≡ self.old)) }
    {
        if wide {
            let Some(bytes) = self.fetch::<32>(source) else {
                return false;
            };
            self.put(dest, u8x32::from_array(bytes))
        } else {
            let Some(bytes) = self.fetch::<16>(source) else {
                return false;
            };
            self.put(dest, u8x16::from_array(bytes))
        }
    }

    /// Does what the instruction does. `false`, and nothing is changed, where an operand in memory doesn't lie wholly
    /// there.
    pub(crate) fn work(&mut self, work: Work) -> bool
        requires { IsWork work }
        ensures { MatchBool result
            (after self.old work ≡ Some self.new)
            ((after self.old work ≡ None) × (self.new ≡ self.old)) }
    {
        match work {
            Work::Combine {
                operation,
                wide,
                dest,
                first,
                second,
            } => self.combine(operation, wide, dest, first, second),
            Work::Move { wide, dest, source } => self.copy(wide, dest, source),
            Work::ZeroUpper => {
                self.zero_upper();
                true
            }
            Work::ZeroAll => {
                self.zero_all();
                true
            }
        }
    }
}
