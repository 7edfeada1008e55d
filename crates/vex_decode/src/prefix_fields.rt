//! The fields of a VEX prefix in its bytes, both ways (Intel SDM volume 2, sections 2.3.5 and 2.3.6).

ghost use Rattle.std.specs.Prelude.{◌≡◌, ◌<◌, ◌≤◌, ◌/◌, ◌%◌, ◌-◌, ◌==◌, length};
ghost use Rattle.vex_forms.specs.Fields.{fields_of};
ghost use Rattle.vex_decode.specs.Fields.{C4, C5, low_byte, prefix_bytes, fits_two_bytes, shortest_form};
ghost use Rattle.vex_decode.specs.Walk.{pp_of, map_of, fields_of_two, fields_of_three};
ghost use Rattle.vex_decode.specs.Notes.{bit_set};

use arrayvec::ArrayVec;
use vex_rows::{Map, Pp, Prefix};

/// The first byte of a two-byte prefix (section 2.3.5.1).
pub const TWO_BYTES: u8 = 0xC5;

/// The first byte of a three-byte prefix.
pub const THREE_BYTES: u8 = 0xC4;

/// The implied prefix of the low two bits (section 2.3.6.3).
fn implied_prefix(byte: u8) -> Pp
    ensures { result ≡ pp_of (byte % 4) }
{
    match byte % 4 {
        0 => Pp::Plain,
        1 => Pp::Prefix66,
        2 => Pp::PrefixF3,
        _ => Pp::PrefixF2,
    }
}

/// The opcode map of the low five bits (section 2.3.6.1), `None` where their number isn't 1, 2 or 3.
pub fn opcode_map(byte: u8) -> Option<Map>
    ensures { result ≡ map_of (byte % 32) }
{
    match byte % 32 {
        1 => Some(Map::Map0F),
        2 => Some(Map::Map0F38),
        3 => Some(Map::Map0F3A),
        _ => None,
    }
}

/// Whether a bit of a byte is set.
pub fn is_set(byte: u8, bit: u8) -> bool
    requires { bit < 8 }
    ensures { result ≡ bit_set byte bit }
{
    (byte >> bit) & 1 == 1
}

/// The number of a register in the field vvvv of a byte, where it stands inverted (section 2.3.5.6).
pub fn vvvv(byte: u8) -> u8
    ensures value { result ≡ 15 - (byte / 8) % 16 }
    ensures within { result < 16 }
{
    15 - byte / 8 % 16
}

/// The fields of a two-byte prefix, by its second byte.
pub fn two_byte_fields(byte: u8) -> Prefix
    ensures fields { fields_of result ≡ fields_of_two byte }
    ensures within { result.vvvv < 16 }
{
    Prefix {
        map: Map::Map0F,
        pp: implied_prefix(byte),
        w: false,
        l: is_set(byte, 2),
        r: !is_set(byte, 7),
        x: false,
        b: false,
        vvvv: vvvv(byte),
    }
}

/// The fields of a three-byte prefix, by its map and the bytes after its first.
pub fn three_byte_fields(map: Map, second: u8, third: u8) -> Prefix
    ensures fields { fields_of result ≡ fields_of_three map second third }
    ensures within { result.vvvv < 16 }
{
    Prefix {
        map,
        pp: implied_prefix(third),
        w: is_set(third, 7),
        l: is_set(third, 2),
        r: !is_set(second, 7),
        x: !is_set(second, 6),
        b: !is_set(second, 5),
        vvvv: vvvv(third),
    }
}

/// The last byte of a prefix, but for its top bit.
fn low_byte(prefix: &Prefix) -> u8
    requires { prefix.now.vvvv < 16 }
    ensures value { result ≡ low_byte (fields_of prefix.now) }
    ensures within { result < 128 }
{
    8 * (15 - prefix.vvvv) + 4 * u8::from(prefix.l) + prefix.pp.number()
}

/// The bytes of a prefix that begins with C5. It says nothing of the fields map, W, X and B (section 2.3.5).
pub fn two_byte_prefix(prefix: &Prefix) -> [u8; 2]
    requires { prefix.now.vvvv < 16 }
    ensures { result ≡ prefix_bytes C5 (fields_of prefix.now) }
{
    [TWO_BYTES, 128 * u8::from(!prefix.r) + low_byte(prefix)]
}

/// The bytes of a prefix that begins with C4 (section 2.3.5).
pub fn three_byte_prefix(prefix: &Prefix) -> [u8; 3]
    requires { prefix.now.vvvv < 16 }
    ensures { result ≡ prefix_bytes C4 (fields_of prefix.now) }
{
    let high = 128 * u8::from(!prefix.r) + 64 * u8::from(!prefix.x) + 32 * u8::from(!prefix.b);
    [
        THREE_BYTES,
        high + prefix.map.number(),
        128 * u8::from(prefix.w) + low_byte(prefix),
    ]
}

/// Whether a two-byte prefix can say the fields.
fn fits_two_bytes(prefix: &Prefix) -> bool
    ensures { result ≡ fits_two_bytes (fields_of prefix.now) }
{
    prefix.map == Map::Map0F && !prefix.w && !prefix.x && !prefix.b
}

/// The bytes of the shortest prefix that says the fields: two bytes from C5 on where the map is 0F and W, X and B are
/// 0, and otherwise three from C4 on.
pub fn shortest_prefix(prefix: &Prefix) -> ArrayVec<u8, 3>
    requires { prefix.now.vvvv < 16 }
    ensures bytes { result.items ≡ prefix_bytes (shortest_form (fields_of prefix.now)) (fields_of prefix.now) }
    ensures short { length result.items ≤ 3 }
{
    let mut bytes = ArrayVec::new();
    if fits_two_bytes(prefix) {
        let [first, second] = two_byte_prefix(prefix);
        bytes.push(first);
        bytes.push(second);
    } else {
        let [first, second, third] = three_byte_prefix(prefix);
        bytes.push(first);
        bytes.push(second);
        bytes.push(third);
    }
    bytes
}
