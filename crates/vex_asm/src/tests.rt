//! What texts of meanings are printed and read, and what is no text.

use crate::laws::{texts_are_words, texts_differ};
use crate::{AsmError, MAX_TEXT, append, append_name, append_number, append_register, print, read};
use arrayvec::ArrayString;
use std::process::Abort;
use std::test::Fail;
use x86_operand::{
    Address, Index, Instruction, MemoryAccessSize, Opcode, Operand, RegSpec, RegisterBank,
};

#[test]
fn a_text_is_printed_as_it_was_read(rt: HostRuntime) {
    for text in [
        "VADDPS x0 x1 x2 0",
        "VMOVAPS y0 mq5/-/0 32",
        "EVEX.VADDPS z0 z1 z2 0",
        "VZEROUPPER 0",
        "VPSHUFD x1 x2 u255 0",
        "Invalid 0",
        "EVEX.BSF nothing nothing nothing nothing 64",
        "VADDPS x0 0",
        "VADDPS d15 q15 x31 y31 0",
        "VADDPS rip i-128 i127 u0 1",
        "VADDPS i-1 i0 u128 z31 63",
        "VMOVAPS y0 mq0/-/0 16",
        "VMOVAPS x0 mq0/q1*4/-8 16",
        "VMOVAPS x0 mrip/-/16 16",
        "VMOVAPS x0 m-/-/4096 16",
        "VMOVAPS mx0/rip*0/2147483647 md1/q4*255/-2147483648 0",
        "VGATHERDPS x3 mq0/x1*4/-8 x2 4",
        "VGATHERDPS y3 m-/y31*8/0 y2 4",
        "EVEX.VGATHERDPS z3 mq15/z0*1/2147483647 4",
    ] {
        let found = read(text.as_bytes());
        assert!(rt; found.is_ok());
        let instruction = found.unwrap_or(Instruction::default());
        assert_eq!(rt; print(&instruction).as_str(), text);
    }
}

#[test]
fn a_text_means_what_its_words_say(rt: HostRuntime) {
    let x = |n| RegSpec::of(RegisterBank::X, n).unwrap_or(RegSpec::rax());
    let operands = [
        Operand::Register { reg: x(3) },
        Operand::Memory {
            address: Address {
                base: Some(RegSpec::rcx()),
                index: Some(Index {
                    reg: x(1),
                    scale: 4,
                }),
                disp: -8,
            },
        },
        Operand::ImmediateI8 { imm: -4 },
        Operand::ImmediateU8 { imm: 53 },
    ];
    let want = Instruction::from_parts(
        true,
        Opcode::VGATHERDPS,
        &operands,
        MemoryAccessSize::of(4),
    );
    let text = "EVEX.VGATHERDPS x3 mq1/x1*4/-8 i-4 u53 4";
    assert_eq!(rt; read(text.as_bytes()).ok(), want);
    assert_eq!(rt;
        print(&want.unwrap_or(Instruction::default())).as_str(),
        text
    );
    texts_differ();
    texts_are_words();
}

#[test]
fn text_is_appended_behind_what_is_there(rt: HostRuntime) {
    let mut text = ArrayString::<MAX_TEXT>::new();
    append_number(&mut text, 18446744073709551615);
    append_name(&mut text, Opcode::VADDPS);
    append_register(&mut text, RegSpec::rcx());
    append(&mut text, &Instruction::default());
    assert_eq!(rt; text.as_str(), "18446744073709551615VADDPSq1Invalid 0");
}

#[test]
fn blanks_around_words_mean_nothing(rt: HostRuntime) {
    let want = read(b"VMOVAPS y0 mq5/-/0 32");
    assert!(rt; want.is_ok());
    assert!(rt; read(b" VMOVAPS  y0 mq5/-/0 32") == want);
    assert!(rt; read(b"\t VMOVAPS\r\ty0 \r mq5/-/0\t32 \r") == want);
}

/// That each text is refused.
fn refused(rt: &impl Abort, texts: &[&str]) {
    for text in texts {
        assert_eq!(rt;
            read(text.as_bytes()).err(),
            Some(AsmError::BadText),
            "{text}"
        );
    }
}

#[test]
fn a_word_that_names_no_opcode_is_refused(rt: HostRuntime) {
    refused(
        &rt,
        &[
            "",
            " \t\r",
            "0",
            "VADDPS",
            "VFOO 0",
            "vaddps 0",
            "evex.VADDPS 0",
            "EVEX.VFOO 0",
            "EVEX. VADDPS 0",
            "EVEX.EVEX.VADDPS 0",
        ],
    );
}

#[test]
fn a_wrong_size_and_a_fifth_operand_are_refused(rt: HostRuntime) {
    refused(
        &rt,
        &[
            "VADDPS x0 x1 x2",
            "VADDPS x0 x1 x2 00",
            "VADDPS x0 x1 x2 -0",
            "VADDPS x0 x1 x2 65",
            "VADDPS x0 x1 x2 18446744073709551616",
            "VADDPS x0 x1 x2 x3 x4 0",
            "VADDPS x0,x1 0",
        ],
    );
}

#[test]
fn a_register_that_no_bank_has_is_refused(rt: HostRuntime) {
    refused(
        &rt,
        &[
            "VADDPS x32 0",
            "VADDPS q16 0",
            "VADDPS d16 0",
            "VADDPS x01 0",
            "VADDPS x 0",
            "VADDPS x-1 0",
            "VADDPS x256 0",
            "VADDPS X1 0",
            "VADDPS rip0 0",
            "VADDPS Nothing 0",
        ],
    );
}

#[test]
fn an_immediate_out_of_range_is_refused(rt: HostRuntime) {
    refused(
        &rt,
        &[
            "VADDPS i 0",
            "VADDPS i-0 0",
            "VADDPS i+1 0",
            "VADDPS i128 0",
            "VADDPS i-129 0",
            "VADDPS u256 0",
            "VADDPS u-1 0",
            "VADDPS u00 0",
        ],
    );
}

#[test]
fn an_address_in_another_form_is_refused(rt: HostRuntime) {
    refused(
        &rt,
        &[
            "VMOVAPS y0 mq5/-/00 32",
            "VADDPS m 0",
            "VADDPS mq0 0",
            "VADDPS mq0/- 0",
            "VADDPS mq0/-/ 0",
            "VADDPS mq0/-/-0 0",
            "VADDPS mq0/-/01 0",
            "VADDPS mq0/-/0/0 0",
            "VADDPS mq0/-*1/0 0",
            "VADDPS mq0/q1/0 0",
            "VADDPS mq0/q1*/0 0",
            "VADDPS mq0/q1*256/0 0",
            "VADDPS mq0/q1*1*1/0 0",
            "VADDPS m/-/0 0",
            "VADDPS mq16/-/0 0",
            "VADDPS mq0/-/2147483648 0",
            "VADDPS mq0/-/-2147483649 0",
            "VADDPS mq0/-/18446744073709551616 0",
        ],
    );
}

#[test]
fn bytes_that_no_text_has_are_refused(rt: HostRuntime) {
    refused(&rt, &["VADDPS\u{a0}0", "\u{e9} 0"]);
    assert!(rt; read(b"\xff 0").is_err());
}

#[test]
fn an_error_is_printed_by_its_name(rt: HostRuntime) -> Result<(), Fail> {
    for (error, want) in [
        (AsmError::BadText, "BadText"),
        (AsmError::NoSpelling, "NoSpelling"),
    ] {
        assert_eq!(rt; error.name(), want);
        let printed = format!(in rt.alloc(); "{error}")?;
        assert_eq!(rt; printed.as_str(), want);
    }
    Ok(())
}
