//! The names of opcodes and errors, and of the library.

ghost use Rattle.std.specs.Prelude.{◌≡◌, ◌≢◌, ◌↔◌, Some, IfSome, option_map, codes};
ghost use Rattle.x86_opcode.specs.declared.Opcode.{Opcode};
ghost use Rattle.x86_opcode.specs.Name.{opcode_name};
ghost use Rattle.x86_opcode.specs.Number.{opcode_number};
ghost use Rattle.vex_calls.specs.declared.call_error.CallError.TheVariants.{NoSuchName, NoSuchNumber};
ghost use Rattle.vex_calls.specs.Errors.{error_number};
ghost use Rattle.vex_calls.specs.Instructions.{opcode_of};
ghost use Rattle.vex_c.specs.Answers.{WritesText};
ghost use Rattle.vex_c.specs.Texts.{IsNumberOf, WritesThere, answer_name};

use crate::answer::put_text;
use vex_calls::{CallError, opcode_of};
use x86_operand::Opcode;

/// The version of the library, and the toolchain and the logic that it is proved with.
pub const VERSION: &str = "vex 0.9.0, rattle-kit-13f logic dac8208d650f15bf";

/// Writes the name of an opcode and a 0 behind it: 0, or the number of an error, and the room is as it was.
/// `NoSuchNumber` comes exactly where no opcode has the number, and else `NoRoom` exactly where name and 0 don't fit.
#[unsafe(no_mangle)]
pub extern "C" fn vex_opcode_name(opcode: u16, room: &mut [u8]) -> u32
    ensures { WritesThere (error_number NoSuchNumber) (option_map opcode_name (opcode_of opcode)) result room.old
        room.new }
{
    match opcode_of(opcode) {
        Some(opcode) => put_text(opcode.name().as_bytes(), room),
        None => CallError::NoSuchNumber.number(),
    }
}

/// The opcode of a name.
fn named(name: &[u8]) -> Option<Opcode>
    ensures found { IfSome result (λ opcode. opcode_name opcode ≡ name.now) }
    ensures only { (opcode : Opcode) → opcode_name opcode ≡ name.now → result ≡ Some opcode }
{
    match str::from_utf8(name) {
        Ok(name) => Opcode::named(name),
        Err(_) => None,
    }
}

/// Writes the number of the opcode of a name to `number`: 0, or the number of `NoSuchName` exactly where no opcode has
/// it, and `number` is as it was. Case counts.
#[unsafe(no_mangle)]
pub extern "C" fn vex_opcode_named(name: &[u8], number: &mut u16) -> u32
    ensures named { result ≡ 0 → IsNumberOf name.now number.new }
    ensures refused { result ≢ 0 → (result ≡ error_number NoSuchName)
        × ((opcode : Opcode) → opcode_name opcode ≢ name.now) }
    ensures kept { result ≢ 0 → number.new ≡ number.old }
{
    match named(name) {
        Some(opcode) => {
            *number = opcode.number();
            0
        }
        None => CallError::NoSuchName.number(),
    }
}

/// Writes the name of an error, and `Ok` of 0, and a 0 behind it: 0, or the number of an error, and the room is as it
/// was. `NoSuchNumber` comes exactly where no error has the number, and else `NoRoom` exactly where name and 0 don't
/// fit.
#[unsafe(no_mangle)]
pub extern "C" fn vex_error_name(error: u32, room: &mut [u8]) -> u32
    ensures { WritesThere (error_number NoSuchNumber) (answer_name error) result room.old room.new }
{
    if error == 0 {
        return put_text(b"Ok", room);
    }
    match CallError::numbered(error) {
        Some(error) => put_text(error.name().as_bytes(), room),
        None => CallError::NoSuchNumber.number(),
    }
}

/// Writes the version of the library, the toolchain and the logic that it is proved with, and a 0 behind it: 0, or the
/// number of `NoRoom` exactly where text and 0 don't fit, and the room is as it was.
#[unsafe(no_mangle)]
pub extern "C" fn vex_version(room: &mut [u8]) -> u32
    ensures { WritesText VERSION.now result room.old room.new }
{
    put_text(VERSION.as_bytes(), room)
}
