//! The opcode of a number.

ghost use Rattle.std.specs.Prelude.{◌≡◌, ◌↔◌, ◌<◌, IsSome, IfSome};
ghost use Rattle.x86_opcode.specs.Number.{opcode_number};
ghost use Rattle.vex_calls.specs.Instructions.{opcode_of};

use x86_operand::Opcode;

/// The opcode of that number, and `None` from 551 on.
pub fn opcode_of(number: u16) -> Option<Opcode>
    ensures value { result ≡ opcode_of number }
    ensures number { IfSome result (λ opcode. opcode_number opcode ≡ number) }
    ensures there { IsSome result ↔ (number < 551) }
{
    let all = Opcode::all();
    let place = usize::from(number);
    if place < all.len() {
        Some(all[place])
    } else {
        None
    }
}
