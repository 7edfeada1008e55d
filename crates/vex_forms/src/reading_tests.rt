//! What no clause says of reading a form: chosen instructions as the manual has them, and how many bytes are taken.

ghost use Rattle.std.specs.Prelude.{◌≡◌, ◌<◌};

use crate::read_form;
use std::marker::Brand;
use std::sync::ledger::{Blank, Ledger};
use step_counter::Steps;
use vex_rows::{Key, Map, Pp, Prefix, lookup};
use x86_operand::DecodeError::{ExhaustedInput, InvalidOpcode, InvalidOperand};
use x86_operand::{
    Address, DecodeError, Index, Instruction, MemoryAccessSize, Opcode, Operand, RegSpec,
    RegisterBank,
};
use x86_reader::{Reader, U8Reader};

/// The base of an address.
#[derive(Clone, Copy)]
enum Base {
    Nothing,
    Rip,
    Q(u8),
}

/// An operand that is wanted.
#[derive(Clone, Copy)]
enum Wanted {
    D(u8),
    X(u8),
    Y(u8),
    /// An address without an index.
    Memory(Base, i32),
    /// An address with an index of that bank and number, and its scale.
    Indexed(Base, RegisterBank, u8, u8, i32),
    U8(u8),
    I8(i8),
}

use Wanted::{D, I8, Indexed, Memory, U8, X, Y};

/// An instruction by its prefix, its opcode byte and the bytes after it, all of which are taken.
struct Worked {
    prefix: Prefix,
    byte: u8,
    bytes: &'static [u8],
    opcode: Opcode,
    operands: &'static [Wanted],
    size: Option<u8>,
}

/// Bytes that a form refuses: the error, and how many of them are taken.
struct Refused {
    prefix: Prefix,
    byte: u8,
    bytes: &'static [u8],
    error: DecodeError,
    taken: u64,
}

const PLAIN: Prefix = Prefix {
    map: Map::Map0F,
    pp: Pp::Plain,
    w: false,
    l: false,
    r: false,
    x: false,
    b: false,
    vvvv: 0,
};

const PREFIX_66: Prefix = Prefix {
    pp: Pp::Prefix66,
    ..PLAIN
};

const PREFIX_F3: Prefix = Prefix {
    pp: Pp::PrefixF3,
    ..PLAIN
};

const MAP_0F38: Prefix = Prefix {
    map: Map::Map0F38,
    ..PREFIX_66
};

const MAP_0F3A: Prefix = Prefix {
    map: Map::Map0F3A,
    ..PREFIX_66
};

static WORKED: [Worked; 13] = [
    Worked {
        prefix: PLAIN,
        byte: 0x77,
        bytes: &[],
        opcode: Opcode::VZEROUPPER,
        operands: &[],
        size: None,
    },
    // The base rip, with which B plays no part.
    Worked {
        prefix: Prefix { b: true, ..PLAIN },
        byte: 0x28,
        bytes: &[0x05, 0x10, 0x00, 0x00, 0x00],
        opcode: Opcode::VMOVAPS,
        operands: &[X(0), Memory(Base::Rip, 16)],
        size: Some(16),
    },
    // R above reg, vvvv as it is, B above rm.
    Worked {
        prefix: Prefix {
            r: true,
            b: true,
            vvvv: 9,
            ..PREFIX_F3
        },
        byte: 0x10,
        bytes: &[0xC1],
        opcode: Opcode::VMOVSS,
        operands: &[X(8), X(9), X(9)],
        size: None,
    },
    Worked {
        prefix: PREFIX_F3,
        byte: 0x10,
        bytes: &[0x07],
        opcode: Opcode::VMOVSS,
        operands: &[X(0), Memory(Base::Q(7), 0)],
        size: Some(4),
    },
    Worked {
        prefix: MAP_0F3A,
        byte: 0x14,
        bytes: &[0x84, 0x88, 0x78, 0x56, 0x34, 0x12, 0x07],
        opcode: Opcode::VPEXTRB,
        operands: &[
            Indexed(Base::Q(0), RegisterBank::Q, 1, 4, 305_419_896),
            X(0),
            U8(7),
        ],
        size: Some(1),
    },
    // The low four bits of the immediate play no part.
    Worked {
        prefix: Prefix {
            vvvv: 1,
            ..MAP_0F3A
        },
        byte: 0x4A,
        bytes: &[0xC2, 0x35],
        opcode: Opcode::VBLENDVPS,
        operands: &[X(0), X(1), X(2), X(3)],
        size: None,
    },
    // The field vvvv plays no part.
    Worked {
        prefix: Prefix {
            pp: Pp::PrefixF2,
            vvvv: 15,
            ..MAP_0F3A
        },
        byte: 0xF0,
        bytes: &[0xC1, 0x05],
        opcode: Opcode::RORX,
        operands: &[D(0), D(1), I8(5)],
        size: None,
    },
    // The field reg is the group 1, and R plays no part.
    Worked {
        prefix: Prefix {
            pp: Pp::Plain,
            r: true,
            vvvv: 1,
            ..MAP_0F38
        },
        byte: 0xF3,
        bytes: &[0xC9],
        opcode: Opcode::BLSR,
        operands: &[D(1), D(1)],
        size: None,
    },
    // The group 3, and a signed immediate.
    Worked {
        prefix: Prefix {
            l: true,
            vvvv: 3,
            ..PREFIX_66
        },
        byte: 0x73,
        bytes: &[0xD9, 0x85],
        opcode: Opcode::VPSRLDQ,
        operands: &[Y(3), Y(1), I8(-123)],
        size: None,
    },
    // The index 4 of a vector register.
    Worked {
        prefix: Prefix {
            l: true,
            vvvv: 1,
            ..MAP_0F38
        },
        byte: 0x91,
        bytes: &[0x04, 0x20],
        opcode: Opcode::VPGATHERQD,
        operands: &[X(0), Indexed(Base::Q(0), RegisterBank::Y, 4, 1, 0), X(1)],
        size: Some(4),
    },
    // X above the index, and no base.
    Worked {
        prefix: Prefix {
            x: true,
            vvvv: 1,
            ..MAP_0F38
        },
        byte: 0x92,
        bytes: &[0x14, 0xE5, 0x00, 0x00, 0x00, 0x00],
        opcode: Opcode::VGATHERDPS,
        operands: &[
            X(2),
            Indexed(Base::Nothing, RegisterBank::X, 12, 8, 0),
            X(1),
        ],
        size: Some(4),
    },
    Worked {
        prefix: Prefix {
            l: true,
            ..MAP_0F38
        },
        byte: 0x13,
        bytes: &[0x00],
        opcode: Opcode::VCVTPH2PS,
        operands: &[Y(0), Memory(Base::Q(0), 0)],
        size: Some(16),
    },
    Worked {
        prefix: Prefix {
            l: true,
            ..PREFIX_66
        },
        byte: 0x70,
        bytes: &[0x00, 0x1B],
        opcode: Opcode::VPSHUFD,
        operands: &[Y(0), Memory(Base::Q(0), 0), U8(27)],
        size: Some(32),
    },
];

static REFUSED: [Refused; 11] = [
    // A check before ModRM comes before the byte is read.
    Refused {
        prefix: Prefix { vvvv: 2, ..PLAIN },
        byte: 0x77,
        bytes: &[],
        error: InvalidOperand,
        taken: 0,
    },
    Refused {
        prefix: Prefix { vvvv: 1, ..PLAIN },
        byte: 0x28,
        bytes: &[],
        error: InvalidOperand,
        taken: 0,
    },
    Refused {
        prefix: PLAIN,
        byte: 0x28,
        bytes: &[],
        error: ExhaustedInput,
        taken: 0,
    },
    Refused {
        prefix: Prefix {
            l: true,
            ..MAP_0F3A
        },
        byte: 0x61,
        bytes: &[0xC1, 0x0C],
        error: InvalidOperand,
        taken: 0,
    },
    // Checks after ModRM come before the address is read.
    Refused {
        prefix: PLAIN,
        byte: 0xAE,
        bytes: &[0xD0],
        error: InvalidOperand,
        taken: 1,
    },
    Refused {
        prefix: Prefix {
            vvvv: 1,
            ..PREFIX_66
        },
        byte: 0x71,
        bytes: &[0xCA, 0x04],
        error: InvalidOpcode,
        taken: 1,
    },
    // A gather wants SIB.
    Refused {
        prefix: Prefix {
            vvvv: 1,
            ..MAP_0F38
        },
        byte: 0x90,
        bytes: &[0x00],
        error: InvalidOperand,
        taken: 1,
    },
    Refused {
        prefix: Prefix {
            vvvv: 1,
            ..MAP_0F38
        },
        byte: 0x92,
        bytes: &[0x04],
        error: ExhaustedInput,
        taken: 1,
    },
    // Checks after the address.
    Refused {
        prefix: PLAIN,
        byte: 0x50,
        bytes: &[0x80, 0x00],
        error: ExhaustedInput,
        taken: 2,
    },
    Refused {
        prefix: PLAIN,
        byte: 0x50,
        bytes: &[0x00],
        error: InvalidOperand,
        taken: 1,
    },
    Refused {
        prefix: Prefix {
            vvvv: 1,
            ..PREFIX_F3
        },
        byte: 0x10,
        bytes: &[0x40, 0x00],
        error: InvalidOperand,
        taken: 2,
    },
];

fn all_worked() -> &'static [Worked] {
    &WORKED
}

fn all_refused() -> &'static [Refused] {
    &REFUSED
}

fn register(bank: RegisterBank, num: u8) -> Operand {
    match RegSpec::of(bank, num) {
        Some(reg) => Operand::Register { reg },
        None => Operand::Nothing,
    }
}

fn register_of(base: Base) -> Option<RegSpec> {
    match base {
        Base::Nothing => None,
        Base::Rip => RegSpec::of(RegisterBank::RIP, 0),
        Base::Q(num) => RegSpec::of(RegisterBank::Q, num),
    }
}

fn index_of(bank: RegisterBank, num: u8, scale: u8) -> Option<Index> {
    let reg = RegSpec::of(bank, num)?;
    Some(Index { reg, scale })
}

fn memory(base: Base, index: Option<Index>, disp: i32) -> Operand {
    let base = register_of(base);
    Operand::Memory {
        address: Address { base, index, disp },
    }
}

fn operand(wanted: Wanted) -> Operand {
    match wanted {
        D(num) => register(RegisterBank::D, num),
        X(num) => register(RegisterBank::X, num),
        Y(num) => register(RegisterBank::Y, num),
        Memory(base, disp) => memory(base, None, disp),
        Indexed(base, bank, num, scale, disp) => memory(base, index_of(bank, num, scale), disp),
        U8(imm) => Operand::ImmediateU8 { imm },
        I8(imm) => Operand::ImmediateI8 { imm },
    }
}

/// The instruction that is wanted, and `None` where it has more than four operands.
fn instruction(worked: &Worked) -> Option<Instruction> {
    let mut operands = [Operand::Nothing; 4];
    for (i, wanted) in worked.operands.iter().enumerate() {
        match operands.get_mut(i) {
            Some(place) => *place = operand(*wanted),
            None => return None,
        }
    }
    let operands = operands.get(..worked.operands.len())?;
    let size = match worked.size {
        Some(bytes) => MemoryAccessSize::of(bytes),
        None => None,
    };
    Instruction::from_parts(false, worked.opcode, operands, size)
}

/// What is read by an entry.
#[derive(Drop)]
struct Reading {
    answer: Result<Instruction, DecodeError>,
    taken: u64,
}

/// What is read by the entry that the prefix and the opcode byte choose, where there is one and the field vvvv is below
/// 16.
#[tactic(auto, using(crate::specs::Reads::Lemmas::has_prefix))]
fn read_by<L: Ledger>(prefix: &Prefix, byte: u8, bytes: &[u8], blank: Blank) -> Option<Reading>
    requires name { blank.name ≡ L.name }
    requires parts { blank.parts ≡ L.parts }
    requires some { 0 < blank.parts }
{
    let key = Key {
        map: prefix.map,
        pp: prefix.pp,
        byte,
        w: prefix.w,
        l: prefix.l,
    };
    let entry = lookup(&key, &mut Steps::<L>::new(blank))?;
    if prefix.vvvv > 15 {
        return None;
    }
    let mut words = U8Reader::new(bytes);
    let answer = read_form(&entry, prefix, &mut words);
    let taken = words.total_offset();
    Some(Reading { answer, taken })
}

fn read(prefix: &Prefix, byte: u8, bytes: &[u8]) -> Option<Reading> {
    read_by::<Brand>(prefix, byte, bytes, Blank::new(1))
}

#[test]
fn chosen_instructions_are_read(rt: HostRuntime) {
    for worked in all_worked() {
        let name = worked.opcode.name();
        let wanted = instruction(worked);
        assert!(rt; wanted.is_some(), "{name}");
        match read(&worked.prefix, worked.byte, worked.bytes) {
            Some(reading) => {
                assert_eq!(rt; reading.answer.ok(), wanted, "{name}");
                assert_eq!(rt; reading.taken, worked.bytes.len() as u64, "{name}");
            }
            None => assert!(rt; false, "{name} has no entry"),
        }
    }
}

#[test]
fn the_first_step_that_fails_gives_the_error(rt: HostRuntime) {
    for refused in all_refused() {
        let byte = refused.byte;
        match read(&refused.prefix, byte, refused.bytes) {
            Some(reading) => {
                assert_eq!(rt; reading.answer.err(), Some(refused.error), "{byte}");
                assert_eq!(rt; reading.taken, refused.taken, "{byte}");
            }
            None => assert!(rt; false, "{byte} has no entry"),
        }
    }
}
