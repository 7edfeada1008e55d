//! What no clause shows: addresses as the manual's tables have them, and the calls at concrete readers.

ghost use Rattle.std.specs.Prelude.{◌↔◌, ◌≤◌, ◌<◌, ◌/◌, ◌%◌, IsErr};
ghost use Rattle.x86_address.specs.Reading.{take_place};

use crate::{
    AddressBytes, read_address, read_imm, read_modrm, read_vector_address, shortest_address,
    shortest_scaled_address, shortest_vector_address,
};
use std::process::Abort;
use x86_operand::{Address, DecodeError, Index, RegSpec, RegisterBank};
use x86_reader::{FailReader, Reader, U8Reader};

/// A SIB byte with the scale, index field and base field that it stands for.
#[derive(Clone, Copy)]
struct Sib {
    byte: u8,
    scale: u8,
    index: u8,
    base: u8,
}

/// Four bytes of displacement, with the value of the first of them alone, and of all.
#[derive(Clone, Copy)]
struct Disp {
    bytes: [u8; 4],
    short: i32,
    long: i32,
}

fn sib_byte(byte: u8, scale: u8, index: u8, base: u8) -> Sib {
    Sib {
        byte,
        scale,
        index,
        base,
    }
}

fn four_bytes(bytes: [u8; 4], short: i32, long: i32) -> Disp {
    Disp { bytes, short, long }
}

fn general(num: u8) -> Option<RegSpec> {
    RegSpec::of(RegisterBank::Q, num)
}

fn instruction_pointer() -> Option<RegSpec> {
    RegSpec::of(RegisterBank::RIP, 0)
}

fn address(base: Option<RegSpec>, index: Option<Index>, disp: i32) -> Address {
    Address { base, index, disp }
}

fn index(num: u8, scale: u8) -> Option<Index> {
    match general(num) {
        Some(reg) => Some(Index { reg, scale }),
        None => None,
    }
}

/// The registers that a field names without and with the bit above it.
const LOWER: [u8; 8] = [0, 1, 2, 3, 4, 5, 6, 7];

const UPPER: [u8; 8] = [8, 9, 10, 11, 12, 13, 14, 15];

fn register(field: u8, upper: bool) -> Option<RegSpec>
    requires { field < 8 }
{
    general(if upper {
        UPPER[field as usize]
    } else {
        LOWER[field as usize]
    })
}

/// What follows ModRM with these fields: the address, and how many of the bytes SIB and displacement it takes.
fn expected(mode: u8, rm: u8, sib: Sib, disp: Disp, x: bool, b: bool) -> (Address, usize)
    requires { rm < 8 }
    ensures { result.1 ≤ 5 }
{
    let by_sib = rm == 4;
    let five = if by_sib { sib.base == 5 } else { rm == 5 };
    let (value, bytes) = match (mode, five) {
        (0, false) => (0, 0),
        (1, _) => (disp.short, 1),
        _ => (disp.long, 4),
    };
    if !by_sib {
        let base = if mode == 0 && five {
            instruction_pointer()
        } else {
            register(rm, b)
        };
        return (address(base, None, value), bytes);
    }
    let base = if mode == 0 && five {
        None
    } else {
        register(sib.base % 8, b)
    };
    let scaled = match (sib.index, x) {
        (4, false) => None,
        (field, false) => index(field % 8, sib.scale),
        (field, true) => index(field % 8 + 8, sib.scale),
    };
    (address(base, scaled, value), bytes + 1)
}

/// The answer over the bytes of a slice, which is an error exactly where they are too few.
fn address_of(bytes: &[u8], modrm: u8, x: bool, b: bool) -> (Result<Address, DecodeError>, u64)
    requires { modrm < 0xC0 }
    ensures { IsErr result.0 ↔ IsErr (take_place (modrm / 64) (modrm % 8) bytes.now) }
{
    let mut words = U8Reader::new(bytes);
    let outcome = read_address(&mut words, modrm, x, b);
    (outcome, words.total_offset())
}

/// The bytes give the address, and no beginning of them gives one.
fn reads_whole_only(rt: &impl Abort, bytes: &[u8], modrm: u8, x: bool, b: bool, address: Address)
    requires { modrm < 0xC0 }
{
    let (outcome, taken) = address_of(bytes, modrm, x, b);
    assert_eq!(rt; outcome, Ok(address), "ModRM {modrm}, then {bytes:?}");
    assert_eq!(rt; taken, bytes.len() as u64, "ModRM {modrm}, then {bytes:?}");
    for cut in 0..bytes.len() {
        let (outcome, taken) = address_of(&bytes[..cut], modrm, x, b);
        assert_eq!(rt;
            outcome,
            Err(DecodeError::ExhaustedInput),
            "ModRM {modrm}, then {bytes:?} up to {cut}"
        );
        assert_eq!(rt;
            taken,
            cut as u64,
            "ModRM {modrm}, then {bytes:?} up to {cut}"
        );
    }
}

/// With each field reg and each X and B, the bytes give the address that the fields say.
fn reads_as_the_fields_say(rt: &impl Abort, mode: u8, rm: u8, sib: Sib, disp: Disp)
    requires mode { mode < 3 }
    requires rm { rm < 8 }
{
    let [lowest, second, third, highest] = disp.bytes;
    let bytes = if rm == 4 {
        [sib.byte, lowest, second, third, highest]
    } else {
        [lowest, second, third, highest, 0]
    };
    for reg in 0..8 {
        let modrm = 64 * mode + 8 * reg + rm;
        for bits in 0..4 {
            let (x, b) = (bits / 2 == 1, bits % 2 == 1);
            let (address, length) = expected(mode, rm, sib, disp, x, b);
            reads_whole_only(rt, &bytes[..length], modrm, x, b, address);
        }
    }
}

#[test]
fn each_modrm_reads_as_its_fields_say_and_no_beginning_does(rt: HostRuntime) {
    let sibs = [
        sib_byte(0x00, 1, 0, 0),
        sib_byte(0x20, 1, 4, 0),
        sib_byte(0x24, 1, 4, 4),
        sib_byte(0x25, 1, 4, 5),
        sib_byte(0x4d, 2, 1, 5),
        sib_byte(0x88, 4, 1, 0),
        sib_byte(0xe5, 8, 4, 5),
        sib_byte(0xff, 8, 7, 7),
    ];
    let disps = [
        four_bytes([0x00, 0x00, 0x00, 0x00], 0, 0),
        four_bytes([0x80, 0xff, 0xff, 0xff], -128, -128),
        four_bytes([0x7f, 0x34, 0x12, 0x80], 127, -2_146_290_561),
        four_bytes([0x78, 0x56, 0x34, 0x12], 120, 305_419_896),
    ];
    for sib in sibs {
        for disp in disps {
            for mode in 0..3 {
                for rm in 0..8 {
                    reads_as_the_fields_say(&rt, mode, rm, sib, disp);
                }
            }
        }
    }
}

/// Address bytes with the prefix bit B that they stand with, the address that they spell with X 0, and its shortest
/// bytes with their bit B.
#[derive(Drop)]
struct Case<'a> {
    modrm: u8,
    after: &'a [u8],
    b: bool,
    address: Address,
    shortest: &'a [u8],
    shortest_b: bool,
}

fn is_read_and_written(rt: &impl Abort, case: &Case)
    requires { case.now.modrm < 0xC0 }
{
    let (outcome, taken) = address_of(case.after, case.modrm, false, case.b);
    assert_eq!(rt; outcome, Ok(case.address));
    assert_eq!(rt; taken, case.after.len() as u64);
    let found = shortest_address(&case.address).expect(rt, "no bytes spell the address");
    assert_eq!(rt; (found.x, found.b), (false, case.shortest_b));
    assert_eq!(rt; found.bytes.as_slice(), case.shortest);
}

#[test]
fn addresses_are_read_and_written_in_their_shortest_bytes(rt: HostRuntime) {
    let cases = [
        // A displacement 0 is none, but base 5 needs it; SIB without an index.
        Case {
            modrm: 0x80,
            after: &[0, 0, 0, 0],
            b: false,
            address: address(general(0), None, 0),
            shortest: &[0x00],
            shortest_b: false,
        },
        Case {
            modrm: 0x45,
            after: &[0],
            b: false,
            address: address(general(5), None, 0),
            shortest: &[0x45, 0],
            shortest_b: false,
        },
        Case {
            modrm: 0x04,
            after: &[0x20],
            b: false,
            address: address(general(0), None, 0),
            shortest: &[0x00],
            shortest_b: false,
        },
        // B plays no part beside the instruction pointer; the longest address.
        Case {
            modrm: 0x05,
            after: &[0x10, 0, 0, 0],
            b: true,
            address: address(instruction_pointer(), None, 16),
            shortest: &[0x05, 0x10, 0, 0, 0],
            shortest_b: false,
        },
        Case {
            modrm: 0x84,
            after: &[0x88, 0x78, 0x56, 0x34, 0x12],
            b: false,
            address: address(general(0), index(1, 4), 305_419_896),
            shortest: &[0x84, 0x88, 0x78, 0x56, 0x34, 0x12],
            shortest_b: false,
        },
        // The ends of 8 bits.
        Case {
            modrm: 0x80,
            after: &[0x80, 0xff, 0xff, 0xff],
            b: false,
            address: address(general(0), None, -128),
            shortest: &[0x40, 0x80],
            shortest_b: false,
        },
        Case {
            modrm: 0x80,
            after: &[0x80, 0, 0, 0],
            b: false,
            address: address(general(0), None, 128),
            shortest: &[0x80, 0x80, 0, 0, 0],
            shortest_b: false,
        },
        // Base 12, and no base.
        Case {
            modrm: 0x04,
            after: &[0x24],
            b: true,
            address: address(general(12), None, 0),
            shortest: &[0x04, 0x24],
            shortest_b: true,
        },
        Case {
            modrm: 0x04,
            after: &[0x25, 0, 0x10, 0, 0],
            b: false,
            address: address(None, None, 4096),
            shortest: &[0x04, 0x25, 0, 0x10, 0, 0],
            shortest_b: false,
        },
    ];
    for case in &cases {
        is_read_and_written(&rt, case);
    }
}

#[test]
fn no_bytes_spell_what_has_no_place_in_modrm_and_sib(rt: HostRuntime) {
    let vector = RegSpec::of(RegisterBank::X, 1);
    let vector_index = match vector {
        Some(reg) => Some(Index { reg, scale: 1 }),
        None => None,
    };
    let addresses = [
        address(instruction_pointer(), index(1, 1), 0),
        address(vector, None, 0),
        address(general(0), vector_index, 0),
        address(general(0), index(4, 1), 0),
        address(general(0), index(1, 3), 0),
    ];
    for address in addresses {
        assert_eq!(rt; shortest_address(&address), None, "{address:?}");
    }
}

/// Bytes from SIB on with the field mod and the prefix bits that they stand with, the address that they spell with a
/// vector register as its index, and its shortest bytes with their bit B.
#[derive(Drop)]
struct VectorCase<'a> {
    mode: u8,
    after: &'a [u8],
    x: bool,
    b: bool,
    address: Address,
    shortest: &'a [u8],
    shortest_b: bool,
}

/// The answer over the bytes of a slice, where ModRM has the field mod of the case and SIB follows.
fn vector_address_of(case: &VectorCase, bytes: &[u8]) -> (Result<Address, DecodeError>, u64)
    requires { case.now.mode < 3 }
{
    let mut words = U8Reader::new(bytes);
    let outcome = read_vector_address(&mut words, 64 * case.mode + 4, case.x, case.b);
    (outcome, words.total_offset())
}

/// The bytes give the address, no beginning of them gives one, and the address has its shortest bytes.
fn is_read_and_written_with_a_vector(rt: &impl Abort, case: &VectorCase)
    requires { case.now.mode < 3 }
{
    let bytes = case.after;
    let (outcome, taken) = vector_address_of(case, bytes);
    assert_eq!(rt; outcome, Ok(case.address), "{bytes:?}");
    assert_eq!(rt; taken, bytes.len() as u64, "{bytes:?}");
    for cut in 0..bytes.len() {
        let (outcome, taken) = vector_address_of(case, &bytes[..cut]);
        assert_eq!(rt;
            outcome,
            Err(DecodeError::ExhaustedInput),
            "{bytes:?} up to {cut}"
        );
        assert_eq!(rt; taken, cut as u64, "{bytes:?} up to {cut}");
    }
    let found = shortest_vector_address(&case.address).expect(rt, "no bytes spell the address");
    assert_eq!(rt; (found.x, found.b), (case.x, case.shortest_b), "{bytes:?}");
    assert_eq!(rt; found.bytes.as_slice(), case.shortest);
}

#[test]
fn a_vector_register_with_the_number_4_is_an_index(rt: HostRuntime) {
    let cases = [
        // Without and with X.
        VectorCase {
            mode: 0,
            after: &[0x20],
            x: false,
            b: false,
            address: address(general(0), index(4, 1), 0),
            shortest: &[0x04, 0x20],
            shortest_b: false,
        },
        VectorCase {
            mode: 0,
            after: &[0x20],
            x: true,
            b: false,
            address: address(general(0), index(12, 1), 0),
            shortest: &[0x04, 0x20],
            shortest_b: false,
        },
        // Base 13 with its displacement, and a displacement 0 of four bytes.
        VectorCase {
            mode: 1,
            after: &[0x65, 0x80],
            x: false,
            b: true,
            address: address(general(13), index(4, 2), -128),
            shortest: &[0x44, 0x65, 0x80],
            shortest_b: true,
        },
        VectorCase {
            mode: 2,
            after: &[0xa5, 0, 0, 0, 0],
            x: false,
            b: true,
            address: address(general(13), index(4, 4), 0),
            shortest: &[0x44, 0xa5, 0],
            shortest_b: true,
        },
        // No base, where B plays no part.
        VectorCase {
            mode: 0,
            after: &[0xe5, 0, 0, 0, 0],
            x: false,
            b: true,
            address: address(None, index(4, 8), 0),
            shortest: &[0x04, 0xe5, 0, 0, 0, 0],
            shortest_b: false,
        },
        // Another index.
        VectorCase {
            mode: 2,
            after: &[0x88, 0x78, 0x56, 0x34, 0x12],
            x: true,
            b: false,
            address: address(general(0), index(9, 4), 305_419_896),
            shortest: &[0x84, 0x88, 0x78, 0x56, 0x34, 0x12],
            shortest_b: false,
        },
    ];
    for case in &cases {
        is_read_and_written_with_a_vector(&rt, case);
    }
}

#[test]
fn no_bytes_spell_a_vector_index_that_is_not_there_or_has_no_place(rt: HostRuntime) {
    let vector_index = match RegSpec::of(RegisterBank::X, 1) {
        Some(reg) => Some(Index { reg, scale: 1 }),
        None => None,
    };
    let addresses = [
        address(general(0), None, 0),
        address(None, None, 0),
        address(instruction_pointer(), index(1, 1), 0),
        address(general(0), index(4, 3), 0),
        // A caller hands the register's number in as one of bank Q.
        address(general(0), vector_index, 0),
    ];
    for address in addresses {
        assert_eq!(rt; shortest_vector_address(&address), None, "{address:?}");
    }
}

/// An address from `rax` with this displacement, and its shortest bytes where a byte counts in units of this factor.
#[derive(Drop)]
struct ScaledCase<'a> {
    factor: u8,
    disp: i32,
    shortest: &'a [u8],
}

fn scaled<'a>(factor: u8, disp: i32, shortest: &'a [u8]) -> ScaledCase<'a> {
    ScaledCase {
        factor,
        disp,
        shortest,
    }
}

/// The shortest bytes of an address in units of so many bytes, where there are such units.
fn shortest_in_units(from: &Address, factor: u8) -> Option<AddressBytes> {
    match factor {
        1 => shortest_scaled_address(from, 1),
        16 => shortest_scaled_address(from, 16),
        32 => shortest_scaled_address(from, 32),
        64 => shortest_scaled_address(from, 64),
        _ => None,
    }
}

fn is_written_in_units(rt: &impl Abort, case: &ScaledCase) {
    let from_rax = address(general(0), None, case.disp);
    let found = shortest_in_units(&from_rax, case.factor).expect(rt, "no bytes spell it");
    assert_eq!(rt;
        found.bytes.as_slice(),
        case.shortest,
        "{} in units of {}",
        case.disp,
        case.factor
    );
    assert_eq!(rt;
        (found.x, found.b),
        (false, false),
        "{} in units of {}",
        case.disp,
        case.factor
    );
}

#[test]
fn a_displacement_of_one_byte_counts_in_units(rt: HostRuntime) {
    // The ends of -128 to 127 units, one unit past each, and what is no multiple.
    let cases = [
        scaled(1, -128, &[0x40, 0x80]),
        scaled(1, 128, &[0x80, 0x80, 0, 0, 0]),
        scaled(16, 0, &[0x00]),
        scaled(16, 16, &[0x40, 0x01]),
        scaled(16, -16, &[0x40, 0xff]),
        scaled(16, 8, &[0x80, 0x08, 0, 0, 0]),
        scaled(16, 2032, &[0x40, 0x7f]),
        scaled(16, 2048, &[0x80, 0, 0x08, 0, 0]),
        scaled(16, -2048, &[0x40, 0x80]),
        scaled(16, -2064, &[0x80, 0xf0, 0xf7, 0xff, 0xff]),
        scaled(32, 4064, &[0x40, 0x7f]),
        scaled(32, 4096, &[0x80, 0, 0x10, 0, 0]),
        scaled(32, -4096, &[0x40, 0x80]),
        scaled(32, -4128, &[0x80, 0xe0, 0xef, 0xff, 0xff]),
        scaled(32, 48, &[0x80, 0x30, 0, 0, 0]),
        scaled(64, 64, &[0x40, 0x01]),
        scaled(64, 65, &[0x80, 0x41, 0, 0, 0]),
        scaled(64, -1, &[0x80, 0xff, 0xff, 0xff, 0xff]),
        scaled(64, 8128, &[0x40, 0x7f]),
        scaled(64, 8192, &[0x80, 0, 0x20, 0, 0]),
        scaled(64, -8192, &[0x40, 0x80]),
        scaled(64, -8256, &[0x80, 0xc0, 0xdf, 0xff, 0xff]),
        scaled(64, i32::MIN, &[0x80, 0, 0, 0, 0x80]),
    ];
    for case in &cases {
        is_written_in_units(&rt, case);
    }
    // Base 13 with SIB and a displacement 0; what has no place has none in any units.
    let found = shortest_scaled_address(&address(general(13), index(9, 8), 0), 64);
    let found = found.expect(&rt, "no bytes spell it");
    assert_eq!(rt; found.bytes.as_slice(), [0x44, 0xcd, 0].as_slice());
    assert_eq!(rt; (found.x, found.b), (true, true));
    let unspellable = address(instruction_pointer(), index(1, 1), 64);
    assert_eq!(rt; shortest_scaled_address(&unspellable, 64), None);
}

#[test]
fn a_byte_that_a_reader_refuses_is_an_error_in_mid_stream(rt: HostRuntime) {
    // ModRM 44, SIB 24, displacement 10, immediate 7; the calls 0 and 3 fail.
    let bytes = [0x44, 0x24, 0x10, 0x07];
    let exhausted = DecodeError::ExhaustedInput;
    let mut words = FailReader::new(&bytes, &[0, 3]);
    assert_eq!(rt; read_modrm(&mut words), Err(exhausted));
    assert_eq!(rt; read_modrm(&mut words), Ok(0x44));
    words.mark();
    assert_eq!(rt;
        read_address(&mut words, 0x44, false, false),
        Err(exhausted)
    );
    assert_eq!(rt; (words.offset(), words.total_offset()), (1, 2));
    assert_eq!(rt;
        read_address(&mut words, 0x40, false, true),
        Ok(address(general(8), None, 16))
    );
    assert_eq!(rt; read_imm(&mut words), Ok(7));
    assert_eq!(rt; read_imm(&mut words), Err(exhausted));
    assert_eq!(rt; (words.offset(), words.total_offset()), (3, 4));
}

/// At each byte of the address that the reader refuses, the call fails, and reads no byte after it.
fn stops_at_each_byte(rt: &impl Abort, modrm: u8, sib: Sib)
    requires { modrm < 0xC0 }
{
    // More bytes follow than an address has, for a call that would read on.
    let bytes = if modrm % 8 == 4 {
        [sib.byte, 0x78, 0x56, 0x34, 0x12, 0x24, 0x25, 0x26]
    } else {
        [0x78, 0x56, 0x34, 0x12, 0x24, 0x25, 0x26, 0x27]
    };
    let disp = four_bytes([0x78, 0x56, 0x34, 0x12], 120, 305_419_896);
    let (_, length) = expected(modrm / 64, modrm % 8, sib, disp, false, false);
    for refused in 0..length as u64 {
        let failing = [refused];
        let mut words = FailReader::new(&bytes, &failing);
        assert_eq!(rt;
            read_address(&mut words, modrm, false, false),
            Err(DecodeError::ExhaustedInput),
            "ModRM {modrm}, then {bytes:?} without the byte {refused}"
        );
        assert_eq!(rt;
            words.total_offset(),
            refused,
            "ModRM {modrm}, then {bytes:?} without the byte {refused}"
        );
    }
}

#[test]
fn nothing_is_read_after_a_refusal(rt: HostRuntime) {
    let sibs = [
        sib_byte(0x00, 1, 0, 0),
        sib_byte(0x24, 1, 4, 4),
        sib_byte(0x4d, 2, 1, 5),
        sib_byte(0xe5, 8, 4, 5),
        sib_byte(0xff, 8, 7, 7),
    ];
    for sib in sibs {
        for modrm in 0..0xC0 {
            stops_at_each_byte(&rt, modrm, sib);
        }
    }
}
