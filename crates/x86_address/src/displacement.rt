//! The displacement of an address, as it is written.

ghost use Rattle.std.specs.Prelude.{◌≡◌, ◌≤◌, ◌++◌};
ghost use Rattle.arrayvec.specs.ArrayVec.{array_vec_len};
ghost use Rattle.x86_address.specs.Bytes.{doubleword_bytes, displacement_bytes, IsUnit};
ghost use Rattle.x86_address.specs.Place.{mod_of_displacement};
ghost use Rattle.x86_address.specs.Shortest.{doubleword_of, shortest_displacement};
ghost use Rattle.x86_address.specs.Written.{displacement_of};

use arrayvec::ArrayVec;

/// A displacement as it is written: not at all, in one byte, or in four.
#[derive(Clone, Copy)]
pub(crate) enum Written {
    Nothing,
    Byte(i8),
    Doubleword(i32),
}

impl Written {
    /// The shortest way to write this value, with a byte that counts in units; 0 needs no byte, except where one must
    /// stand.
    pub(crate) fn shortest(value: i32, must: bool, unit: u8) -> Written
        requires { IsUnit unit }
        ensures { displacement_of result ≡ shortest_displacement unit must value }
    {
        if value == 0 && !must {
            return Written::Nothing;
        }
        let unit = i32::from(unit);
        if value % unit != 0 {
            return Written::Doubleword(value);
        }
        match i8::try_from(value / unit) {
            Ok(count) => Written::Byte(count),
            Err(_) => Written::Doubleword(value),
        }
    }

    /// The mod field that says how long it is.
    pub(crate) fn mode(self) -> u8
        ensures { result ≡ mod_of_displacement (displacement_of self) }
    {
        match self {
            Written::Nothing => 0,
            Written::Byte(_) => 1,
            Written::Doubleword(_) => 2,
        }
    }

    /// Its bytes, after these.
    pub(crate) fn append(self, bytes: &mut ArrayVec<u8, 6>)
        requires { array_vec_len bytes.old ≤ 2 }
        ensures { bytes.new.items ≡ bytes.old.items ++ displacement_bytes (displacement_of self) }
    {
        match self {
            Written::Nothing => {}
            Written::Byte(byte) => bytes.push(byte.cast_unsigned()),
            Written::Doubleword(doubleword) => append_doubleword(doubleword, bytes),
        }
    }
}

/// The four bytes of a displacement, the lowest first, after these.
pub(crate) fn append_doubleword(doubleword: i32, bytes: &mut ArrayVec<u8, 6>)
    requires { array_vec_len bytes.old ≤ 2 }
    ensures { bytes.new.items ≡ bytes.old.items ++ doubleword_bytes (doubleword_of doubleword) }
{
    let [lowest, second, third, highest] = doubleword.to_le_bytes();
    bytes.push(lowest);
    bytes.push(second);
    bytes.push(third);
    bytes.push(highest);
}
