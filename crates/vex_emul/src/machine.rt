//! The state that instructions work on.

ghost use Rattle.std.specs.Prelude.{◌≡◌, ◌↔◌, ◌≤◌, ◌<◌, ◌+◌, ◌%◌, ◌^◌, IsTrue, [], length, map, option_map};
ghost use Rattle.std.specs.Prelude.{replicate};
ghost use Rattle.std.specs.Prelude.{slice_index, slice_index_or, slice_set};
ghost use Rattle.std.specs.Simd.Lanes.{chunk, put_chunk};
ghost use Rattle.vex_emul.specs.Machine.{start_of, general, base_part, index_part, place_of};
ghost use Rattle.std.specs.Borrow.{sem};
ghost use Rattle.vex_emul.specs.Lending.{LendsMemory};
ghost use Rattle.vex_emul.specs.Work.{low, with_vector, upper_cleared};

use std::marker::Model;
use std::simd::prelude::*;
use x86_operand::{Address, Index, RegSpec, RegisterBank};

/// The number of registers of each kind.
const REGISTERS: usize = 16;

/// The number of bytes of a vector.
pub const VECTOR_BYTES: usize = 32;

/// Sixteen vector registers of 32 bytes, sixteen numbers, which the general registers of 64 bits hold, and a memory,
/// which is borrowed. Contracts see it as its vectors, each a list of bytes, its numbers and its memory.
#[derive(Drop)]
pub struct Machine<'a> {
    vectors: [[u8; VECTOR_BYTES]; REGISTERS],
    q: [u64; REGISTERS],
    memory: &'a mut [u8],
}

impl<'a> Model for Machine<'a> {
    ghost use Rattle.vex_emul.specs.Machine.{State};

    ghost Value = { State };

    ghost view = { λ m. record { vectors = m.vectors; q = m.q; memory = m.memory.now } };
}

impl<'a> Machine<'a> {
    /// All registers 0, and the memory as it is.
    pub fn new(memory: &'a mut [u8]) -> Machine<'a>
        ensures { result ≡ start_of memory.old }
    {
        Machine {
            vectors: [[0; VECTOR_BYTES]; REGISTERS],
            q: [0; REGISTERS],
            memory,
        }
    }

    /// The vector register of number `i`, which is below 16.
    pub fn vector(&self, i: u8) -> &[u8; 32]
        requires { i < 16 }
        ensures { result.now ≡ slice_index_or self.now.vectors i [] }
    {
        &self.vectors[usize::from(i)]
    }

    /// Changes the vector register of number `i`, which is below 16, and nothing else.
    pub fn set_vector(&mut self, i: u8, value: &[u8; 32])
        requires { i < 16 }
        ensures { self.new ≡ record self.old { vectors = slice_set self.old.vectors i value.now } }
    {
        self.vectors[usize::from(i)] = *value;
    }

    /// The number in the general register `i`, which is below 16.
    pub fn q(&self, i: u8) -> u64
        requires { i < 16 }
        ensures { result ≡ slice_index self.now.q i }
    {
        self.q[usize::from(i)]
    }

    /// Changes the number in the general register `i`, which is below 16, and nothing else.
    pub fn set_q(&mut self, i: u8, value: u64)
        requires { i < 16 }
        ensures { self.new ≡ record self.old { q = slice_set self.old.q i value } }
    {
        self.q[usize::from(i)] = value;
    }

    /// The memory.
    pub fn memory(&self) -> &[u8]
        ensures { result.now ≡ self.now.memory }
    {
        self.memory
    }

    /// The memory, to be changed. The registers stay as they are.
    pub fn memory_mut(&mut self) -> &mut [u8]
        ensures* lent { sem 𝓛 (LendsMemory self.entry result) }
        ensures is { result.now ≡ self.old.memory }
    {
        self.memory
    }

    /// Sets all registers to 0, as `new` does. The memory stays as it is, so that a machine that has run code can be
    /// used again without a new one.
    pub fn reset(&mut self)
        ensures { self.new ≡ start_of self.old.memory }
    {
        self.zero_all();
        self.q = [0; REGISTERS];
    }

    /// The number in a general register of 64 bits, and `None` for any other register.
    #[tactic(auto, unfolding(crate::specs::Machine::general))]
    fn general(&self, reg: RegSpec) -> Option<u64>
        ensures { result ≡ general self.now.q reg.bank reg.num }
    {
        let num = reg.num();
        match reg.bank() {
            RegisterBank::Q => Some(self.q(num)),
            _ => None,
        }
    }

    /// What the base adds to a place.
    #[tactic(auto, unfolding(crate::specs::Machine::base_part))]
    fn base_part(&self, base: Option<RegSpec>) -> Option<u64>
        ensures { result ≡ base_part self.now.q base }
    {
        match base {
            Some(reg) => self.general(reg),
            None => Some(0),
        }
    }

    /// What the scaled index adds to a place, modulo 2^64.
    #[tactic(auto, unfolding(crate::specs::Machine::index_part))]
    fn index_part(&self, index: Option<Index>) -> Option<u64>
        ensures { result ≡ option_map (λ n. n % 2 ^ 64) (index_part self.now.q index) }
    {
        match index {
            Some(Index { reg, scale }) => {
                let number = self.general(reg)?;
                Some(number.wrapping_mul(u64::from(scale)))
            }
            None => Some(0),
        }
    }

    /// The place that an address means, modulo 2^64, and `None` where base or index isn't a general register of 64
    /// bits.
    #[tactic(auto, unfolding(crate::specs::Machine::place_of))]
    pub(crate) fn place_of(&self, address: Address) -> Option<u64>
        ensures { result ≡ place_of self.now.q address }
    {
        let Address { base, index, disp } = address;
        let base = self.base_part(base)?;
        let index = self.index_part(index)?;
        Some(
            base.wrapping_add(index)
                .wrapping_add(i64::from(disp).cast_unsigned()),
        )
    }

    /// Whether so many bytes from the place on lie wholly in the memory.
    pub(crate) fn has_room(&self, place: u64, size: u64) -> bool
        ensures { IsTrue result ↔ (place + size ≤ length self.now.memory) }
    {
        let len = self.memory.len() as u64;
        place <= len && size <= len - place
    }

    /// The bytes from the place on.
    pub(crate) fn load<const N: usize>(&self, place: usize) -> Simd<u8, N>
        requires { place + N ≤ length self.now.memory }
        ensures { result ≡ chunk place N self.now.memory }
    {
        Simd::<u8, N>::from_slice(&self.memory[place..])
    }

    /// Writes these bytes from the place on.
    pub(crate) fn store<const N: usize>(&mut self, place: usize, value: Simd<u8, N>)
        requires { place + N ≤ length self.old.memory }
        ensures { self.new ≡ record self.old { memory = put_chunk place self.old.memory value.entry } }
    {
        store_at(self.memory, place, value);
    }

    /// The low bytes of a vector register.
    pub(crate) fn low<const N: usize>(&self, i: u8) -> Simd<u8, N>
        requires i { i < 16 }
        requires size { N ≤ 32 }
        ensures { result ≡ low self.now N i }
    {
        let vector = self.vector(i);
        Simd::<u8, N>::from_slice(vector)
    }

    /// Changes a vector register to these bytes and then zeros.
    pub(crate) fn set_low<const N: usize>(&mut self, i: u8, value: Simd<u8, N>)
        requires i { i < 16 }
        requires size { N ≤ 32 }
        ensures { self.new ≡ with_vector self.old N i value.entry }
    {
        let mut bytes = [0; VECTOR_BYTES];
        value.copy_to_slice(&mut bytes);
        self.set_vector(i, &bytes);
    }

    /// Sets the bytes from 16 on of each vector register to 0.
    pub(crate) fn zero_upper(&mut self)
        ensures { self.new ≡ record self.old { vectors = map upper_cleared self.old.vectors } }
    {
        clear_uppers(&mut self.vectors);
    }

    /// Sets all bytes of each vector register to 0.
    pub(crate) fn zero_all(&mut self)
        ensures { self.new ≡ record self.old { vectors = replicate 16 (replicate 32 0) } }
    {
        clear_all(&mut self.vectors);
    }
}

/// Sets the bytes from 16 on of each vector to 0.
fn clear_uppers(vectors: &mut [[u8; VECTOR_BYTES]])
    ensures { vectors.new ≡ map upper_cleared vectors.old }
{
    for vector in vectors.iter_mut() {
        *vector = upper_cleared(vector);
    }
}

/// Sets all bytes of each vector to 0.
fn clear_all(vectors: &mut [[u8; VECTOR_BYTES]])
    ensures { vectors.new ≡ map (λ v. replicate 32 0) vectors.old }
{
    for vector in vectors.iter_mut() {
        *vector = [0; VECTOR_BYTES];
    }
}

/// The vector with its bytes from 16 on 0.
fn upper_cleared(vector: &[u8; VECTOR_BYTES]) -> [u8; VECTOR_BYTES]
    ensures { result ≡ upper_cleared vector.now }
{
    let low = u8x16::from_slice(vector);
    let mut bytes = [0; VECTOR_BYTES];
    low.copy_to_slice(&mut bytes);
    bytes
}

/// Writes these bytes from the place on. A part of a machine's memory is written through a slice of its own.
fn store_at<const N: usize>(memory: &mut [u8], place: usize, value: Simd<u8, N>)
    requires { place + N ≤ length memory.old }
    ensures { memory.new ≡ put_chunk place memory.old value.entry }
{
    value.copy_to_slice(&mut memory[place..]);
}
