//! The shortest bytes of an address.

ghost use Rattle.std.specs.Prelude.{◌≡◌, ◌↔◌, ◌≤◌, ◌+◌, ◌*◌, ◌%◌, ◌<◌, ◌==◌, true, false, IsTrue, IsSome, IsNone};
ghost use Rattle.std.specs.Prelude.{IfSome, ℕ, Bool, List, length};
ghost use Rattle.x86_operand.specs.Kind.{InMemory, VectorIndexed, memory_kind};
ghost use Rattle.x86_address.specs.Bytes.{IsUnit};
ghost use Rattle.x86_address.specs.Place.{place_bytes, RipBased, Baseless, Numbered, At};
ghost use Rattle.x86_address.specs.Shortest.{plain, plain_base, base_register, plain_index, doubleword_of, exponent_of};
ghost use Rattle.x86_address.specs.Shortest.{exponent_field, index_field, place_of_base, shortest_in, shortest, is_upper};
ghost use Rattle.x86_address.specs.Shortest.{x_of_index, b_of_base, x_of, b_of, IsBase, MayBeIndex, IsIndex};
ghost use Rattle.x86_address.specs.Spells.{SpellsAddressIn, SpellsAddress, BaseFits, IsScale, IsPower, IndexFits, HasModRM};

use crate::displacement::{Written, append_doubleword};
use arrayvec::ArrayVec;
use x86_operand::{Address, Index, RegSpec, RegisterBank};

/// What spells an address: the prefix bits X and B, and the bytes from ModRM on.
#[derive(PartialEq, Eq, Debug, Drop)]
pub struct AddressBytes {
    /// The bit X of the prefix: the top bit of the index.
    pub x: bool,
    /// The bit B of the prefix: the top bit of the base.
    pub b: bool,
    /// ModRM with the field reg 0, SIB and displacement: 1 to 6 bytes.
    pub bytes: ArrayVec<u8, 6>,
}

/// Whether bytes can name this base, beside this index.
fn base_fits(base: Option<RegSpec>, index: Option<Index>) -> bool
    ensures fits { IsTrue result ↔ BaseFits base index }
    ensures within { IsTrue result → IsBase (plain_base base) }
    ensures bank { IsTrue result → base ≡ base_register (plain_base base) }
{
    match base {
        None => true,
        Some(base) => match base.bank() {
            RegisterBank::Q => true,
            RegisterBank::RIP => index.is_none(),
            _ => false,
        },
    }
}

/// Whether SIB can say this scale.
#[tactic(auto, using(crate::specs::Spells::Lemmas::power_of_scale))]
fn scale_fits(scale: u8) -> bool
    ensures fits { IsTrue result ↔ IsScale scale }
    ensures power { IsTrue result → IsPower scale }
{
    matches!(scale, 1 | 2 | 4 | 8)
}

/// Whether the number can be that of an index: 4 only of a vector register.
fn may_be_index(vector: bool, num: u8) -> bool
    ensures { IsTrue result ↔ MayBeIndex vector num }
{
    if vector { true } else { num != 4 }
}

/// Whether bytes can name this index, which has to be there where it is a vector register.
fn index_fits(vector: bool, index: Option<Index>) -> bool
    ensures fits { IsTrue result ↔ IndexFits vector index }
    ensures within { IsTrue result → IsIndex vector (plain_index index) }
{
    match index {
        None => !vector,
        Some(index) => {
            index.reg.bank() == RegisterBank::Q
                && may_be_index(vector, index.reg.num())
                && scale_fits(index.scale)
        }
    }
}

/// Whether a register's number takes a bit of the prefix.
fn is_upper(num: u8) -> bool
    ensures { result ≡ is_upper num }
{
    num / 8 % 2 == 1
}

/// Whether the index takes the bit X.
fn index_is_upper(index: Option<Index>) -> bool
    ensures { result ≡ x_of_index (plain_index index) }
{
    match index {
        None => false,
        Some(index) => is_upper(index.reg.num()),
    }
}

/// Whether the base takes the bit B.
fn base_is_upper(base: Option<RegSpec>) -> bool
    ensures { result ≡ b_of_base (plain_base base) }
{
    match base {
        None => false,
        Some(base) => base.bank() != RegisterBank::RIP && is_upper(base.num()),
    }
}

/// The exponent of a scale, which is a power of 2.
fn exponent_of(scale: u8) -> u8
    ensures value { result ≡ exponent_of scale }
    ensures within { result < 4 }
{
    match scale {
        8 => 3,
        4 => 2,
        2 => 1,
        _ => 0,
    }
}

/// A ModRM or SIB byte of its fields: two bits, below 4, then twice three, below 8 (Intel SDM volume 2, section 2.1.3).
#[inline]
pub fn pack_fields(high: u8, middle: u8, low: u8) -> u8
    requires high { high < 4 }
    requires middle { middle < 8 }
    requires low { low < 8 }
    ensures { result ≡ 64 * high + 8 * middle + low }
{
    (high << 6) + (middle << 3) + low
}

/// SIB with this field of the base: the scale's exponent and the low bits of the index, or 0 and 4 for none.
fn sib(index: Option<Index>, base: u8) -> u8
    requires { base < 8 }
    ensures { result
        ≡ 64 * exponent_field (plain_index index) + 8 * index_field (plain_index index) + base }
{
    match index {
        None => pack_fields(0, 4, base),
        Some(index) => pack_fields(exponent_of(index.scale), index.reg.num() % 8, base),
    }
}

/// The bytes of an address with no base.
fn baseless(index: Option<Index>, disp: i32) -> ArrayVec<u8, 6>
    ensures { result.items ≡ place_bytes 0 (Baseless (exponent_field (plain_index index))
        (index_field (plain_index index)) (doubleword_of disp)) }
{
    let mut bytes = ArrayVec::new();
    bytes.push(pack_fields(0, 0, 4));
    bytes.push(sib(index, 5));
    append_doubleword(disp, &mut bytes);
    bytes
}

/// The bytes of an address that is relative to the instruction pointer.
fn rip_based(disp: i32) -> ArrayVec<u8, 6>
    ensures { result.items ≡ place_bytes 0 (RipBased (doubleword_of disp)) }
{
    let mut bytes = ArrayVec::new();
    bytes.push(pack_fields(0, 0, 5));
    append_doubleword(disp, &mut bytes);
    bytes
}

/// The bytes of an address with a base register. Its low bits 4 in ModRM mean SIB, and its low bits 5 with mod 0 no
/// base.
fn based(num: u8, index: Option<Index>, disp: i32, unit: u8) -> ArrayVec<u8, 6>
    requires { IsUnit unit }
    ensures { result.items ≡ place_bytes 0 (place_of_base unit (Numbered num) (plain_index index) disp) }
{
    let base = num % 8;
    let displacement = Written::shortest(disp, base == 5, unit);
    let mut bytes = ArrayVec::new();
    if index.is_some() || base == 4 {
        bytes.push(pack_fields(displacement.mode(), 0, 4));
        bytes.push(sib(index, base));
    } else {
        bytes.push(pack_fields(displacement.mode(), 0, base));
    }
    displacement.append(&mut bytes);
    bytes
}

/// The bytes of the address with these parts, where bytes can name it.
fn address_bytes(
    base: Option<RegSpec>,
    index: Option<Index>,
    disp: i32,
    unit: u8,
) -> ArrayVec<u8, 6>
    requires { IsUnit unit }
    ensures { result.items ≡ place_bytes 0 (place_of_base unit (plain_base base) (plain_index index) disp) }
{
    match base {
        None => baseless(index, disp),
        Some(base) if base.bank() == RegisterBank::RIP => rip_based(disp),
        Some(base) => based(base.num(), index, disp, unit),
    }
}

/// The shortest bytes that spell an address, whose index is a vector register or not, with a displacement of one byte
/// in units.
fn shortest_of_kind(vector: bool, unit: u8, address: &Address) -> Option<AddressBytes>
    requires { IsUnit unit }
    ensures bytes { IfSome result (λ found.
        found.bytes.items ≡ place_bytes 0 (shortest_in unit (At (plain address.now)))) }
    ensures x { IfSome result (λ found. found.x ≡ x_of (At (plain address.now))) }
    ensures b { IfSome result (λ found. found.b ≡ b_of (At (plain address.now))) }
    ensures spells { IfSome result (λ found. SpellsAddressIn unit found.bytes.items (memory_kind vector) 0 found.x
        found.b address.now) }
    ensures least { IfSome result (λ found. (bytes : List ℕ) (reg : ℕ) (x b : Bool)
        → SpellsAddressIn unit bytes (memory_kind vector) reg x b address.now
        → length found.bytes.items ≤ length bytes) }
    ensures none { IsNone result ↔ ((bytes : List ℕ) (reg : ℕ) (x b : Bool)
        → ¬ (SpellsAddressIn unit bytes (memory_kind vector) reg x b address.now)) }
    ensures others { (other : ℕ) → IsUnit other → (IsNone result ↔ ((bytes : List ℕ) (reg : ℕ) (x b : Bool)
        → ¬ (SpellsAddressIn other bytes (memory_kind vector) reg x b address.now))) }
    ensures cases { IsSome result ↔ (BaseFits address.now.base address.now.index × IndexFits vector address.now.index) }
    ensures most { IfSome result (λ found. length found.bytes.items ≤ 6) }
    ensures modrm { IfSome result (λ found. HasModRM found.bytes.items (shortest_in unit (At (plain address.now)))) }
{
    if !base_fits(address.base, address.index) || !index_fits(vector, address.index) {
        return None;
    }
    Some(AddressBytes {
        x: index_is_upper(address.index),
        b: base_is_upper(address.base),
        bytes: address_bytes(address.base, address.index, address.disp, unit),
    })
}

/// The shortest bytes that spell an address in memory, with the bits X and B that go with them.
///
/// SIB stands only where there is an index, or the base's number is 4 or 12, or there is no base; it says scale 1 where
/// there is no index. There is no displacement where it is 0 and the base is a register other than 5 and 13; it has one
/// byte from -128 to 127, and else four, as it always has with the instruction pointer or no base. X and B are 0 where
/// nothing demands them. (Intel SDM volume 2, sections 2.1.3 to 2.1.5, 2.2.1.6, 2.3.5.3, 2.3.5.4 and 2.3.8.)
///
/// `None` exactly where no address bytes spell the address. These are the cases:
/// - The base is a register that is neither of bank `Q` nor the instruction pointer.
/// - The base is the instruction pointer, and there is an index.
/// - There is an index that isn't of bank `Q`. (For a vector register there is `shortest_vector_address`.)
/// - There is an index with the number 4.
/// - There is an index with a scale other than 1, 2, 4 and 8.
pub fn shortest_address(address: &Address) -> Option<AddressBytes>
    ensures bytes { IfSome result (λ found.
        found.bytes.items ≡ place_bytes 0 (shortest (At (plain address.now)))) }
    ensures x { IfSome result (λ found. found.x ≡ x_of (At (plain address.now))) }
    ensures b { IfSome result (λ found. found.b ≡ b_of (At (plain address.now))) }

    // The bytes spell the address, and no bytes that spell it are fewer.
    ensures spells { IfSome result (λ found. SpellsAddress found.bytes.items InMemory 0 found.x found.b address.now) }
    ensures least { IfSome result (λ found. (bytes : List ℕ) (reg : ℕ) (x b : Bool)
        → SpellsAddress bytes InMemory reg x b address.now → length found.bytes.items ≤ length bytes) }

    // None comes exactly where no bytes spell it, and where the base or the index doesn't fit.
    ensures none { IsNone result ↔ ((bytes : List ℕ) (reg : ℕ) (x b : Bool)
        → ¬ (SpellsAddress bytes InMemory reg x b address.now)) }
    ensures cases { IsSome result ↔ (BaseFits address.now.base address.now.index × IndexFits false address.now.index) }

    // There are 1 to 6 bytes, and a caller adds the field reg to the first of them.
    ensures most { IfSome result (λ found. length found.bytes.items ≤ 6) }
    ensures modrm { IfSome result (λ found. HasModRM found.bytes.items (shortest (At (plain address.now)))) }
{
    shortest_of_kind(false, 1, address)
}

/// The shortest bytes that spell an address in memory where a displacement of one byte counts in units, with the bits X
/// and B that go with them. The factor is how many bytes a unit has: after an EVEX prefix the operand's size in memory,
/// 16, 32 or 64, and else 1.
///
/// There is one byte of displacement where the displacement is the factor times a number from -128 to 127, and that
/// number is the byte; all else is as `shortest_address` has it, which answers the same for the factor 1. (Intel SDM
/// volume 2, section 2.7.5.)
///
/// `None` exactly where `shortest_address` answers `None`.
pub fn shortest_scaled_address(address: &Address, factor: u8) -> Option<AddressBytes>
    requires { IsUnit factor }
    ensures bytes { IfSome result (λ found.
        found.bytes.items ≡ place_bytes 0 (shortest_in factor (At (plain address.now)))) }
    ensures x { IfSome result (λ found. found.x ≡ x_of (At (plain address.now))) }
    ensures b { IfSome result (λ found. found.b ≡ b_of (At (plain address.now))) }

    // The bytes spell the address in these units, and no bytes that spell it so are fewer.
    ensures spells { IfSome result (λ found. SpellsAddressIn factor found.bytes.items InMemory 0 found.x found.b
        address.now) }
    ensures least { IfSome result (λ found. (bytes : List ℕ) (reg : ℕ) (x b : Bool)
        → SpellsAddressIn factor bytes InMemory reg x b address.now → length found.bytes.items ≤ length bytes) }

    // None comes exactly where no bytes spell it, in these units or in others, and where the base or the index doesn't
    // fit.
    ensures none { (unit : ℕ) → IsUnit unit → (IsNone result ↔ ((bytes : List ℕ) (reg : ℕ) (x b : Bool)
        → ¬ (SpellsAddressIn unit bytes InMemory reg x b address.now))) }
    ensures cases { IsSome result ↔ (BaseFits address.now.base address.now.index × IndexFits false address.now.index) }

    // There are 1 to 6 bytes, and a caller adds the field reg to the first of them.
    ensures most { IfSome result (λ found. length found.bytes.items ≤ 6) }
    ensures modrm { IfSome result (λ found. HasModRM found.bytes.items (shortest_in factor (At (plain address.now)))) }
{
    shortest_of_kind(false, factor, address)
}

/// The shortest bytes that spell an address with a vector register as its index, with the bits X and B that go with
/// them. A caller hands in the register's number in bank `Q`.
///
/// There always is SIB, and the number 4 is an index like any other; all else is as `shortest_address` has it. (Intel
/// SDM volume 2, sections 2.1.5, 2.3.8 and 2.3.12.)
///
/// `None` exactly where no address bytes spell the address. These are the cases:
/// - The base is a register that isn't of bank `Q`, or the instruction pointer.
/// - There is no index.
/// - The index isn't of bank `Q`.
/// - The index has a scale other than 1, 2, 4 and 8.
pub fn shortest_vector_address(address: &Address) -> Option<AddressBytes>
    ensures bytes { IfSome result (λ found.
        found.bytes.items ≡ place_bytes 0 (shortest (At (plain address.now)))) }
    ensures x { IfSome result (λ found. found.x ≡ x_of (At (plain address.now))) }
    ensures b { IfSome result (λ found. found.b ≡ b_of (At (plain address.now))) }

    // The bytes spell the address, and no bytes that spell it are fewer.
    ensures spells { IfSome result (λ found. SpellsAddress found.bytes.items VectorIndexed 0 found.x found.b
        address.now) }
    ensures least { IfSome result (λ found. (bytes : List ℕ) (reg : ℕ) (x b : Bool)
        → SpellsAddress bytes VectorIndexed reg x b address.now → length found.bytes.items ≤ length bytes) }

    // None comes exactly where no bytes spell it, and where the base or the index doesn't fit.
    ensures none { IsNone result ↔ ((bytes : List ℕ) (reg : ℕ) (x b : Bool)
        → ¬ (SpellsAddress bytes VectorIndexed reg x b address.now)) }
    ensures cases { IsSome result ↔ (BaseFits address.now.base address.now.index × IndexFits true address.now.index) }

    // There are 2 to 6 bytes, and a caller adds the field reg to the first of them.
    ensures most { IfSome result (λ found. length found.bytes.items ≤ 6) }
    ensures modrm { IfSome result (λ found. HasModRM found.bytes.items (shortest (At (plain address.now)))) }
{
    shortest_of_kind(true, 1, address)
}
