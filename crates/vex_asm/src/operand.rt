//! Registers, addresses, operands and the memory size of a text.

ghost use Rattle.std.specs.Prelude.{◌≡◌, option_map};
ghost use Rattle.x86_operand.specs.Meaning.{operand_meaning};
ghost use Rattle.vex_asm.specs.Parsed.{bank_of, lettered_of, register_of, cut, base_of, scaled_of, index_of};
ghost use Rattle.vex_asm.specs.Parsed.{address_of, begun_of, operand_of, size_of};

use crate::number::{byte, displacement, signed_byte};
use x86_operand::{Address, Index, MemoryAccessSize, Operand, RegSpec, RegisterBank};

/// The bank of a letter.
fn bank(letter: u8) -> Option<RegisterBank>
    ensures { result ≡ bank_of letter }
{
    match letter {
        b'q' => Some(RegisterBank::Q),
        b'd' => Some(RegisterBank::D),
        b'x' => Some(RegisterBank::X),
        b'y' => Some(RegisterBank::Y),
        b'z' => Some(RegisterBank::Z),
        _ => None,
    }
}

/// The register of a letter and a number.
#[tactic(auto, unfolding(crate::specs::Parsed::lettered_of))]
fn lettered(bytes: &[u8]) -> Option<RegSpec>
    ensures { result ≡ lettered_of bytes.now }
{
    match bytes {
        [] => None,
        [letter, digits @ ..] => {
            let bank = bank(*letter)?;
            let num = byte(digits)?;
            RegSpec::of(bank, num)
        }
    }
}

/// The register of a text.
#[tactic(auto, unfolding(crate::specs::Parsed::register_of))]
fn register(bytes: &[u8]) -> Option<RegSpec>
    ensures { result ≡ register_of bytes.now }
{
    if bytes == b"rip".as_slice() {
        return RegSpec::of(RegisterBank::RIP, 0);
    }
    lettered(bytes)
}

/// What stands before and after the first byte `at`.
fn cut(bytes: &[u8], at: u8) -> Option<(&[u8], &[u8])>
    ensures { option_map (λ p. (p.0.now, p.1.now)) result ≡ cut at bytes.now }
{
    for i in 0..bytes.len() {
        if bytes[i] == at {
            return Some((&bytes[..i], &bytes[i + 1..]));
        }
    }
    None
}

/// The base of an address.
#[tactic(auto, unfolding(crate::specs::Parsed::base_of))]
fn base(bytes: &[u8]) -> Option<Option<RegSpec>>
    ensures { result ≡ base_of bytes.now }
{
    if bytes == b"-".as_slice() {
        return Some(None);
    }
    Some(Some(register(bytes)?))
}

/// An index register and its scale.
#[tactic(auto, unfolding(crate::specs::Parsed::scaled_of))]
fn scaled(bytes: &[u8]) -> Option<Index>
    ensures { result ≡ scaled_of bytes.now }
{
    let (reg, scale) = cut(bytes, b'*')?;
    let reg = register(reg)?;
    let scale = byte(scale)?;
    Some(Index { reg, scale })
}

/// The index of an address.
#[tactic(auto, unfolding(crate::specs::Parsed::index_of))]
fn index(bytes: &[u8]) -> Option<Option<Index>>
    ensures { result ≡ index_of bytes.now }
{
    if bytes == b"-".as_slice() {
        return Some(None);
    }
    Some(Some(scaled(bytes)?))
}

/// An address behind its `m`.
#[tactic(auto, unfolding(crate::specs::Parsed::address_of))]
fn address(bytes: &[u8]) -> Option<Address>
    ensures { result ≡ address_of bytes.now }
{
    let (base_text, rest) = cut(bytes, b'/')?;
    let (index_text, displacement_text) = cut(rest, b'/')?;
    let base = base(base_text)?;
    let index = index(index_text)?;
    let disp = displacement(displacement_text)?;
    Some(Address { base, index, disp })
}

/// The immediate, the address or the register of a word, by its first letter.
#[tactic(auto, unfolding(crate::specs::Parsed::begun_of))]
fn begun(word: &[u8]) -> Option<Operand>
    ensures { option_map operand_meaning result ≡ begun_of word.now }
{
    match word {
        [] => None,
        [first, rest @ ..] => match *first {
            b'i' => Some(Operand::ImmediateI8 {
                imm: signed_byte(rest)?,
            }),
            b'u' => Some(Operand::ImmediateU8 { imm: byte(rest)? }),
            b'm' => Some(Operand::Memory {
                address: address(rest)?,
            }),
            _ => Some(Operand::Register {
                reg: register(word)?,
            }),
        },
    }
}

/// The operand of a word.
#[tactic(auto, unfolding(crate::specs::Parsed::operand_of))]
pub fn operand(word: &[u8]) -> Option<Operand>
    ensures { option_map operand_meaning result ≡ operand_of word.now }
{
    if word == b"nothing".as_slice() {
        return Some(Operand::Nothing);
    }
    begun(word)
}

/// The size of the memory operand that a word names, 0 for none.
#[tactic(auto, unfolding(crate::specs::Parsed::size_of))]
pub fn size(word: &[u8]) -> Option<Option<MemoryAccessSize>>
    ensures { result ≡ size_of word.now }
{
    let bytes = byte(word)?;
    if bytes == 0 {
        return Some(None);
    }
    Some(Some(MemoryAccessSize::of(bytes)?))
}
