//! What a call answers: 0, or the number of an error.

ghost use Rattle.vex_c.specs.Answers.{Fills, WritesText};

use vex_calls::CallError;

/// Writes what was found to its place and answers 0, or answers the error's number.
pub fn put<T: Copy>(found: Result<T, CallError>, place: &mut T) -> u32
    ensures { Fills found result place.old place.new }
{
    match found {
        Ok(value) => {
            *place = value;
            0
        }
        Err(error) => error.number(),
    }
}

/// Writes a text and a 0 behind it, and answers 0, or the number of `NoRoom`.
pub fn put_text(text: &[u8], room: &mut [u8]) -> u32
    ensures { WritesText text.now result room.old room.new }
{
    let count = text.len();
    if count >= room.len() {
        return CallError::NoRoom.number();
    }
    room[..count].copy_from_slice(text);
    room[count] = 0;
    0
}
