//! What no clause says: the slots, sizes and banks of every form, as the manual has them but for what
//! docs/DIFFERENCES.md names.

use crate::wanted::{Asked, lines, wanted};
use crate::{Choice, Kind, OperandE, OperandFields, instruction_of, layout};
use std::process::Abort;
use std::test::Fail;
use vex_rows::{Entry, Form, Map, Pp, Rule};
use x86_operand::{Opcode, Operand, RegSpec, RegisterBank};

/// An entry of that form and opcode, which every W and L allow. Where it stands plays no part in its layout.
fn entry(form: Form, opcode: Opcode) -> Entry {
    Entry {
        map: Map::Map0F,
        pp: Pp::Plain,
        byte: 0,
        w: Rule::Any,
        l: Rule::Any,
        form,
        opcode,
    }
}

/// The layout of a row is that of the second copy.
fn is_laid_out(rt: &impl Abort, asked: &Asked) {
    let entry = entry(asked.form, asked.opcode);
    let row = layout(&entry, asked.w, asked.l, asked.memory, asked.group);
    assert_eq!(rt; row, wanted(asked), "{asked:?}");
}

/// The rows of a form, an opcode and a reg field, at each W, L and kind of the operand E.
fn rows_are_laid_out(rt: &impl Abort, form: Form, opcode: Opcode, group: u8) {
    for (w, l) in [(false, false), (false, true), (true, false), (true, true)] {
        for memory in [false, true] {
            let asked = Asked {
                form,
                opcode,
                w,
                l,
                memory,
                group,
            };
            is_laid_out(rt, &asked);
        }
    }
}

/// The rows of a form with each opcode, and with each reg field.
fn form_is_laid_out(rt: &impl Abort, form: Form) {
    // Each form that has groups has the group 2.
    for opcode in Opcode::all() {
        rows_are_laid_out(rt, form, *opcode, 2);
    }
    for group in 0..8 {
        rows_are_laid_out(rt, form, Opcode::Invalid, group);
    }
}

#[test]
fn every_form_is_laid_out_as_the_manual_has_it(rt: HostRuntime) {
    let mut seen = [false; 69];
    for line in lines() {
        seen[line.form as usize] = true;
        form_is_laid_out(&rt, line.form);
    }
    assert!(rt; seen.iter().all(|form| *form));
}

#[test]
fn rows_and_modrm_bytes_have_kinds(rt: HostRuntime) {
    let sum = entry(Form::G_V_E_xyLmm, Opcode::VADDPS);
    let gather = entry(Form::G_ExyL_V_xyLmm, Opcode::VPGATHERDD);
    let nothing = entry(Form::Nothing, Opcode::VZEROUPPER);
    // A SIB byte comes where mod isn't 3 and rm is 4.
    for (entry, modrm, kind) in [
        (&sum, 0xC4, Kind::Register),
        (&sum, 0x04, Kind::Memory),
        (&gather, 0xC4, Kind::Register),
        (&gather, 0x84, Kind::Vector),
        (&gather, 0x05, Kind::Memory),
    ] {
        assert_eq!(rt; Kind::of_modrm(entry, modrm), kind, "{modrm}");
    }
    for (entry, memory, kind) in [
        (&sum, false, Kind::Register),
        (&sum, true, Kind::Memory),
        (&gather, true, Kind::Vector),
        (&nothing, false, Kind::WithoutModRM),
    ] {
        let choice = Choice::of(entry, false, false, memory, 0);
        assert_eq!(rt; Kind::of(&choice), kind);
        assert_eq!(rt; kind.is_memory(), memory);
        assert_eq!(rt; kind.is_vector(), kind == Kind::Vector);
    }
}

#[test]
fn an_instruction_is_made_of_a_layout(rt: HostRuntime) -> Result<(), Fail> {
    let sum = entry(Form::G_V_E_xyLmm, Opcode::VADDPS);
    let row = layout(&sum, false, true, false, 0).ok_or("a row")?;
    let fields = OperandFields {
        r: true,
        vvvv: 9,
        reg: 2,
        e: OperandE::Register(3),
        imm: 0,
    };
    let made = instruction_of(&row, &fields);
    assert_eq!(rt; (made.opcode(), made.len()), (Opcode::VADDPS, 0));
    for (i, num) in [(0, 10), (1, 9), (2, 3)] {
        let reg = RegSpec::of(RegisterBank::Y, num).ok_or("a register")?;
        assert_eq!(rt; made.operand(i), Operand::Register { reg });
    }
    Ok(())
}
