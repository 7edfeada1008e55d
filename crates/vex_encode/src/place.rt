//! The bytes from ModRM on that name the operand E.

ghost use Rattle.std.specs.Prelude.{◌≡◌, ◌≤◌, length};
ghost use Rattle.x86_address.specs.Place.{At, place_bytes};
ghost use Rattle.x86_address.specs.Shortest.{b_of, plain, shortest, x_of};
ghost use Rattle.x86_address.specs.Spells.{BaseFits, IndexFits};
ghost use Rattle.vex_forms.specs.Operands.{target_seen};
ghost use Rattle.vex_encode.specs.Assembly.{CanBePlaced, HeadFits};

use arrayvec::ArrayVec;
use vex_forms::OperandE;
use x86_address::{AddressBytes, shortest_address, shortest_vector_address};
use x86_operand::Address;

/// The shortest bytes of an address, with the field reg 0, and the bits X and B that go with them.
fn address_place(vector: bool, address: &Address) -> AddressBytes
    requires { BaseFits address.now.base address.now.index × IndexFits vector address.now.index }
    ensures bytes { result.bytes.items ≡ place_bytes 0 (shortest (At (plain address.now))) }
    ensures x { result.x ≡ x_of (At (plain address.now)) }
    ensures b { result.b ≡ b_of (At (plain address.now)) }
    ensures head { HeadFits result.bytes.items }
    ensures most { length result.bytes.items ≤ 6 }
{
    let found = if vector {
        shortest_vector_address(address)
    } else {
        shortest_address(address)
    };
    match found {
        Some(found) => found,
        None => unreachable!(),
    }
}

/// The shortest bytes of the operand E, with the field reg 0, and the bits X and B that go with them: no bytes where
/// there is no ModRM byte, and ModRM alone for a register (Intel SDM volume 2, section 2.1.3). `vector` says whether
/// the index of an address is a vector register, which the caller hands in with bank `Q`.
#[tactic(auto, unfolding(x86_address::specs::Shortest::shortest_in))]
pub fn place_of(vector: bool, e: OperandE) -> AddressBytes
    requires { CanBePlaced vector e }
    ensures bytes { result.bytes.items ≡ place_bytes 0 (shortest (target_seen e)) }
    ensures x { result.x ≡ x_of (target_seen e) }
    ensures b { result.b ≡ b_of (target_seen e) }
    ensures head { HeadFits result.bytes.items }
    ensures most { length result.bytes.items ≤ 6 }
{
    match e {
        OperandE::Absent => AddressBytes {
            x: false,
            b: false,
            bytes: ArrayVec::new(),
        },
        OperandE::Register(num) => {
            let mut bytes = ArrayVec::new();
            bytes.push(0xC0 + num % 8);
            AddressBytes {
                x: false,
                b: num / 8 % 2 == 1,
                bytes,
            }
        }
        OperandE::Memory(address) => address_place(vector, &address),
    }
}
