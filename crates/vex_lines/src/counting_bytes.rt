//! Bytes that count up, of which the machine is made at the start of a line.

ghost use Rattle.std.specs.Prelude.{◌≡◌, ◌≤◌, ◌+◌, length};
ghost use Rattle.vex_lines.specs.EmulateLines.{counting};

use crate::emulate_lines::MEMORY_BYTES;

/// Fills the bytes, of which byte k is then k modulo 256.
fn count_up(bytes: &mut [u8])
    requires { length bytes.old ≤ 1024 }
    ensures { bytes.new ≡ counting 0 (length bytes.old) }
{
    for i in 0..bytes.len() {
        bytes[i] = (i % 256) as u8;
    }
}

/// As many bytes as the memory has, of which byte k is k modulo 256. They are made once and lent to each line.
#[derive(Drop)]
pub struct CountingBytes {
    bytes: [u8; MEMORY_BYTES],
    ghost counting: { bytes ≡ counting 0 1024 },
}

impl CountingBytes {
    /// All of them.
    pub fn new() -> CountingBytes {
        let mut bytes = [0; MEMORY_BYTES];
        count_up(&mut bytes);
        CountingBytes { bytes }
    }

    /// So many of them, which count up from a number, modulo 256.
    pub fn part(&self, first: usize, count: usize) -> &[u8]
        requires { first + count ≤ 1024 }
        ensures { result.now ≡ counting first count }
    {
        &self.bytes[first..first + count]
    }
}
