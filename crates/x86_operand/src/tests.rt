use crate::{
    Address, DecodeError, EncodeError, FieldDescription, Index, InnerDescription, Instruction,
    MemoryAccessSize, Note, Opcode, Operand, RegSpec, RegisterBank,
};
use std::process::Abort;
use std::test::Fail;

#[test]
fn a_register_lies_in_its_bank(rt: HostRuntime) -> Result<(), Fail> {
    for (bank, num, is_there) in [
        (RegisterBank::X, 31, true),
        (RegisterBank::X, 32, false),
        (RegisterBank::Q, 15, true),
        (RegisterBank::Q, 16, false),
        (RegisterBank::RIP, 0, true),
        (RegisterBank::RIP, 1, false),
    ] {
        let reg = RegSpec::of(bank, num);
        assert_eq!(rt; reg.is_some(), is_there, "{bank:?} {num}");
        if let Some(reg) = reg {
            assert_eq!(rt; reg.bank(), bank);
            assert_eq!(rt; reg.num(), num);
        }
    }
    for (reg, bank, num) in [
        (RegSpec::rax(), RegisterBank::Q, 0),
        (RegSpec::rcx(), RegisterBank::Q, 1),
        (RegSpec::eax(), RegisterBank::D, 0),
    ] {
        assert_eq!(rt; Some(reg), RegSpec::of(bank, num));
    }
    Ok(())
}

/// The sizes that have names.
const NAMED_SIZES: [(u8, &str); 12] = [
    (1, "byte"),
    (2, "word"),
    (4, "dword"),
    (5, "ptr"),
    (6, "far"),
    (8, "qword"),
    (10, "mword"),
    (16, "xmmword"),
    (32, "ymmword"),
    (48, "m384b"),
    (63, "ptr"),
    (64, "zmmword"),
];

#[test]
fn all_sizes_have_names(rt: HostRuntime) -> Result<(), Fail> {
    for n in 1..65 {
        let size = MemoryAccessSize::of(n).ok_or("a size from 1 to 64")?;
        let mut name = "BUG";
        for (named, its_name) in NAMED_SIZES {
            if named == n {
                name = its_name;
            }
        }
        assert_eq!(rt; size.size_name(), name, "{n}");
        assert_eq!(rt;
            size.bytes_size(),
            if n == 63 { None } else { Some(n) },
            "{n}"
        );
        assert_eq!(rt; format!(in rt.alloc(); "{size}")?.as_str(), name, "{n}");
        assert_eq!(rt; format!(in rt.alloc(); "{size:?}")?.as_str(), name, "{n}");
        assert_eq!(rt; size.clone()?, size, "{n}");
    }
    for n in [0, 65] {
        assert_eq!(rt; MemoryAccessSize::of(n), None, "{n}");
    }
    Ok(())
}

#[test]
fn errors_have_numbers_and_texts(rt: HostRuntime) -> Result<(), Fail> {
    for (error, number, name) in [
        (DecodeError::ExhaustedInput, 1, "ExhaustedInput"),
        (DecodeError::InvalidOpcode, 2, "InvalidOpcode"),
        (DecodeError::InvalidOperand, 3, "InvalidOperand"),
        (DecodeError::Outside, 4, "Outside"),
    ] {
        assert_eq!(rt; error as u8, number);
        assert_eq!(rt; error.name(), name);
        assert_eq!(rt; format!(in rt.alloc(); "{error}")?.as_str(), name);
    }
    let error = EncodeError::NoSpelling;
    assert_eq!(rt; error.name(), "NoSpelling");
    assert_eq!(rt; format!(in rt.alloc(); "{error}")?.as_str(), "NoSpelling");
    Ok(())
}

#[test]
fn an_instruction_has_four_operands_at_most(rt: HostRuntime) -> Result<(), Fail> {
    let operands = [Operand::ImmediateU8 { imm: 7 }; 5];
    for count in 0..6 {
        let made = Instruction::from_parts(false, Opcode::VADDPS, &operands[..count], None);
        assert_eq!(rt; made.is_some(), count <= 4, "{count}");
        if let Some(made) = made {
            assert_eq!(rt; usize::from(made.operand_count()), count);
        }
    }
    Ok(())
}

fn unsigned(imm: u8) -> Operand {
    Operand::ImmediateU8 { imm }
}

#[test]
fn operands_are_added_one_by_one(rt: HostRuntime) -> Result<(), Fail> {
    let mut made = Instruction::of(Opcode::VADDPS, true);
    made.set_mem_size(MemoryAccessSize::of(16));
    let added = [
        made.push(unsigned(1)),
        made.push(unsigned(2)),
        made.push(unsigned(3)),
        made.push(unsigned(4)),
        made.push(unsigned(5)),
    ];
    assert_eq!(rt; added, [true, true, true, true, false]);
    let operands = [unsigned(1), unsigned(2), unsigned(3), unsigned(4)];
    let wanted = Instruction::from_parts(
        true,
        Opcode::VADDPS,
        &operands,
        MemoryAccessSize::of(16),
    ).ok_or("four operands")?;
    assert_eq!(rt; made, wanted);
    Ok(())
}

#[test]
fn nothing_is_left_after_a_reset(rt: HostRuntime) -> Result<(), Fail> {
    let reg = RegSpec::rcx();
    let address = Address {
        base: None,
        index: Some(Index { reg, scale: 8 }),
        disp: -1,
    };
    let operands = [
        Operand::Register { reg },
        unsigned(2),
        Operand::Memory { address },
        Operand::ImmediateI8 { imm: -4 },
    ];
    let size = MemoryAccessSize::of(64);
    let mut made = Instruction::from_parts(true, Opcode::VPAND, &operands, size).ok_or(
        "four operands",
    )?;
    made.set_len(15);
    made.reset(Opcode::VADDPS, false);
    assert_eq!(rt; made, Instruction::of(Opcode::VADDPS, false));
    for place in 0..5 {
        assert_eq!(rt; made.operand(place), Operand::Nothing);
    }
    made.reset(Opcode::VMULPS, true);
    assert_eq!(rt; made, Instruction::of(Opcode::VMULPS, true));
    Ok(())
}

#[test]
fn an_address_is_kept_in_one_form(rt: HostRuntime) -> Result<(), Fail> {
    let base = RegSpec::rax();
    let plain = Address {
        base: Some(base),
        index: None,
        disp: 0,
    };
    let scaled = Index {
        reg: RegSpec::rcx(),
        scale: 4,
    };
    for (address, is_deref) in [
        (plain, true),
        (Address { disp: 8, ..plain }, false),
        (
            Address {
                base: None,
                ..plain
            },
            false,
        ),
        (
            Address {
                index: Some(scaled),
                ..plain
            },
            false,
        ),
    ] {
        let given = Operand::Memory { address };
        let made = Instruction::from_parts(false, Opcode::VMOVAPS, &[given], None).ok_or(
            "one operand",
        )?;
        let deref = Operand::MemDeref { base };
        assert_eq!(rt; made.operand(0), given);
        assert_eq!(rt; made.operand(0) == deref, is_deref, "{address:?}");
        assert_eq!(rt;
            matches!(made.operand(0), Operand::MemDeref { .. }),
            is_deref,
            "{address:?}"
        );
        assert_eq!(rt; made.operand(1), Operand::Nothing);
    }
    Ok(())
}

/// The address with a base and a displacement.
fn based(base: RegSpec, disp: i32) -> Address {
    Address {
        base: Some(base),
        index: None,
        disp,
    }
}

/// Tests the number and the address of an operand.
fn has_parts(rt: &impl Abort, operand: &Operand, number: u8, address: Option<Address>) {
    assert_eq!(rt; operand.number(), number, "{operand:?}");
    assert_eq!(rt; operand.address(), address, "{operand:?}");
}

#[test]
fn an_operand_has_a_number_or_an_address(rt: HostRuntime) -> Result<(), Fail> {
    let reg = RegSpec::of(RegisterBank::X, 13).ok_or("there are 32 of them")?;
    let base = RegSpec::rcx();
    let address = based(base, 8);
    has_parts(&rt, &Operand::Register { reg }, 13, None);
    has_parts(&rt, &Operand::ImmediateI8 { imm: 7 }, 0, None);
    has_parts(&rt, &Operand::ImmediateU8 { imm: 7 }, 0, None);
    has_parts(&rt, &Operand::MemDeref { base }, 0, Some(based(base, 0)));
    has_parts(&rt, &Operand::Memory { address }, 0, Some(based(base, 8)));
    has_parts(&rt, &Operand::Nothing, 0, None);
    Ok(())
}

#[test]
fn instructions_are_equal_by_meaning_and_length(rt: HostRuntime) -> Result<(), Fail> {
    let reg = Operand::Register {
        reg: RegSpec::eax(),
    };
    let imm = Operand::ImmediateI8 { imm: -4 };
    let size = MemoryAccessSize::of(16);
    let made = Instruction::from_parts(true, Opcode::VADDPS, &[reg, imm], size).ok_or(
        "two operands",
    )?;
    assert!(rt; made.is_evex());
    assert_eq!(rt; made.opcode(), Opcode::VADDPS);
    assert_eq!(rt; made.operand_count(), 2);
    assert_eq!(rt; made.operand(1), imm);
    assert_eq!(rt; made.mem_size(), size);
    assert_eq!(rt; made.len(), 0);

    let mut longer = made;
    longer.set_len(6);
    assert_eq!(rt; longer.len(), 6);
    assert!(rt; longer.has_same_meaning(&made));
    assert_ne!(rt; longer, made);

    let mut other = made;
    other.set_opcode(Opcode::VMULPS);
    assert!(rt; !other.has_same_meaning(&made));
    other.set_opcode(Opcode::VADDPS);
    assert_eq!(rt; other, made);

    assert_eq!(rt;
        Instruction::default(),
        Instruction::of(Opcode::Invalid, false)
    );
    assert_ne!(rt;
        Instruction::default(),
        Instruction::of(Opcode::Invalid, true)
    );
    Ok(())
}

#[test]
fn clones_are_equal(rt: HostRuntime) -> Result<(), Fail> {
    for (bank, num) in [
        (RegisterBank::Q, 15),
        (RegisterBank::D, 7),
        (RegisterBank::X, 31),
        (RegisterBank::Y, 16),
        (RegisterBank::Z, 1),
        (RegisterBank::RIP, 0),
    ] {
        let reg = RegSpec::of(bank, num).ok_or("a register")?;
        assert_eq!(rt; reg.clone()?, reg, "{bank:?}");
        let index = Index { reg, scale: num };
        assert_eq!(rt; index.clone()?, index);
        let address = Address {
            base: Some(reg),
            index: Some(index),
            disp: -3,
        };
        assert_eq!(rt; address.clone()?, address);
        let operands = [
            Operand::Register { reg },
            Operand::MemDeref { base: reg },
            Operand::Memory { address },
            Operand::ImmediateI8 { imm: -5 },
        ];
        for operand in &operands {
            assert_eq!(rt; operand.clone()?, *operand);
        }
        let mut made = Instruction::from_parts(
            true,
            Opcode::VPAND,
            &operands[..],
            MemoryAccessSize::of(32),
        ).ok_or("four operands")?;
        made.set_len(9);
        assert_eq!(rt; made.clone()?, made);
    }
    Ok(())
}

#[test]
fn notes_have_texts(rt: HostRuntime) {
    let rows = [
        (Note::P0, "vex.p indicates no opcode prefix"),
        (Note::P1, "vex.p indicates opcode prefix 66"),
        (Note::P2, "vex.p indicates opcode prefix f3"),
        (Note::P3, "vex.p indicates opcode prefix f2"),
        (Note::M1, "vex.mmmmm indicates opcode escape of 0f"),
        (Note::M2, "vex.mmmmm indicates opcode escape of 0f38"),
        (Note::M3, "vex.mmmmm indicates opcode escape of 0f3a"),
        (
            Note::MOther,
            "vex.mmmmm indicates illegal opcode escape and is invalid",
        ),
        (Note::R0, "vex.r extends extends rrr by 0b1000"),
        (Note::R1, "vex.r does not alter rrr"),
        (
            Note::X0,
            "vex.x extends extends index reg (if used) by 0b1000",
        ),
        (Note::X1, "vex.x does not alter index reg"),
        (
            Note::B0,
            "vex.b extends extends base reg (if used) by 0b1000",
        ),
        (Note::B1, "vex.b does not alter base reg"),
        (Note::L0, "vex.l selects 128-bit vector sizes"),
        (Note::L1, "vex.l selects 256-bit vector sizes"),
        (Note::W1, "vex.w selects 64-bit operand size"),
        (Note::W0, "vex.w leaves default operand size"),
        (Note::PrefixEnd, "vex prefix ends/opcode begins"),
        (Note::OpcodeEnd, "vex opcode ends/operands begin"),
    ];
    for (place, (note, text)) in rows.iter().enumerate() {
        assert_eq!(rt; note.text(), *text);
        assert_eq!(rt; *note as usize, place);
        let field = InnerDescription::Misc(*note).with_id(31);
        assert!(rt; field.desc == InnerDescription::Misc(*note) && field.id == 31);
    }
    let default = FieldDescription::default();
    assert!(rt; default == InnerDescription::Boundary(Note::P0).with_id(0));
    let register = InnerDescription::RegisterNumber(1, RegSpec::rcx());
    assert!(rt; register != InnerDescription::Misc(Note::P0));
    assert!(rt; register.with_id(10) != register.with_id(9));
}
