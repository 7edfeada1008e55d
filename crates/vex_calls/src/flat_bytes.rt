//! Bytes of an instruction, and how many they are.

ghost use Rattle.std.specs.Prelude.{◌≡◌, ◌≤◌, length, option_map};
ghost use Rattle.vex_calls.specs.Encodings.{bytes_of, flat_bytes};

/// How many bytes there is room for: an instruction of x86 has 15 at most (Intel SDM volume 2, section 2.3.11).
pub const MOST_BYTES: usize = 15;

/// Bytes of an instruction: how many they are, and their places. Those behind them hold 0 where the bytes come from a
/// call, and play no part where they go to one.
#[repr(C)]
#[derive(Clone, Copy, PartialEq, Eq, Debug, Default)]
pub struct FlatBytes {
    /// How many bytes there are.
    pub length: u8,
    /// The bytes.
    pub bytes: [u8; MOST_BYTES],
}

impl FlatBytes {
    /// Those bytes, of which there are 15 at most.
    pub fn of(bytes: &[u8]) -> FlatBytes
        requires { length bytes.now ≤ 15 }
        ensures { result ≡ flat_bytes bytes.now }
    {
        let mut places = [0; MOST_BYTES];
        places[..bytes.len()].copy_from_slice(bytes);
        FlatBytes {
            length: bytes.len() as u8,
            bytes: places,
        }
    }

    /// The bytes, and `None` where there are said to be more than 15.
    pub fn bytes(&self) -> Option<&[u8]>
        ensures { option_map (λ bytes. bytes.now) result ≡ bytes_of self.now }
    {
        let count = usize::from(self.length);
        if count <= MOST_BYTES {
            Some(&self.bytes[..count])
        } else {
            None
        }
    }
}
