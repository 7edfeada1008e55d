//! Lines of code and what `recode` answers, one for each rule of decoding and encoding, texts and what `asm` answers,
//! and runs of instructions and what `least` and `emulate` answer.

use crate::laws::{assembled_lines, result_line_assembles};
use crate::memory_ends::{MemSink, MemSource};
use crate::status::Status;
use crate::tests::words_of;
use crate::{LineCommand, LineRoom, MEMORY_BYTES, answer_line, run};
use std::alloc::Global;
use std::process::Abort;
use x86_settings::InstDecoder;

/// A profile, a line, and its answer: lengths and prefixes, operands in memory, another entry that is shorter, the
/// order of the steps that refuse, groups, gathers, W and L, bits that play no part, and profiles.
#[rattlefmt::skip]
static LINES: [(&str, &[u8], &[u8]); 59] = [
    ("default", b"C5 F8 77", b"3 VZEROUPPER 0 c5f877\n"),
    ("default", b"C5 F8 77 FF FF", b"3 VZEROUPPER 0 c5f877\n"),
    ("default", b"C5 E8 77", b"error InvalidOperand\n"),
    ("default", b"C5 F8", b"error ExhaustedInput\n"),
    ("minimal", b"C5 F8", b"error ExhaustedInput\n"),
    ("default", b"C4 E1 70 58 C2", b"5 VADDPS x0 x1 x2 0 c5f058c2\n"),
    ("default", b"C4 C1 78 28 C0", b"5 VMOVAPS x0 x8 0 c57829c0\n"),
    ("default", b"C4 E1 F9 6E 00", b"5 VMOVQ x0 mq0/-/0 8 c5fa7e00\n"),
    ("default", b"C5 FC 28 80 00 00 00 00", b"8 VMOVAPS y0 mq0/-/0 32 c5fc2800\n"),
    ("default", b"C5 FC 28 45 00", b"5 VMOVAPS y0 mq5/-/0 32 c5fc284500\n"),
    ("default", b"C5 F8 28 04 20", b"5 VMOVAPS x0 mq0/-/0 16 c5f82800\n"),
    ("default", b"C4 C1 78 28 05 10 00 00 00", b"9 VMOVAPS x0 mrip/-/16 16 c5f8280510000000\n"),
    ("default", b"C4 E3 79 14 84 88 78 56 34 12 07", b"11 VPEXTRB mq0/q1*4/305419896 x0 u7 1 c4e3791484887856341207\n"),
    ("default", b"C5 F8 28 40 80", b"5 VMOVAPS x0 mq0/-/-128 16 c5f8284080\n"),
    ("default", b"C5 F8 28 80 80 FF FF FF", b"8 VMOVAPS x0 mq0/-/-128 16 c5f8284080\n"),
    ("default", b"C5 F8 28 80 80 00 00 00", b"8 VMOVAPS x0 mq0/-/128 16 c5f8288080000000\n"),
    ("default", b"C4 C1 78 28 04 24", b"6 VMOVAPS x0 mq12/-/0 16 c4c178280424\n"),
    ("default", b"C5 F8 28 04 25 00 10 00 00", b"9 VMOVAPS x0 m-/-/4096 16 c5f828042500100000\n"),
    ("default", b"C5 F8 50 80 00", b"error ExhaustedInput\n"),
    ("default", b"C5 F8 50 00", b"error InvalidOperand\n"),
    ("default", b"C5 F0 28", b"error InvalidOperand\n"),
    ("default", b"C5 F2 10 40", b"error ExhaustedInput\n"),
    ("default", b"C5 F2 10 00", b"error InvalidOperand\n"),
    ("default", b"C5 F1 71 CA 04", b"error InvalidOpcode\n"),
    ("default", b"C5 F5 71 CA 04", b"error InvalidOpcode\n"),
    ("default", b"C4 E2 7D 13 00", b"5 VCVTPH2PS y0 mq0/-/0 16 c4e27d1300\n"),
    ("default", b"C4 E2 7D 13 C1", b"5 VCVTPH2PS y0 x1 0 c4e27d13c1\n"),
    ("default", b"C5 FD 70 00 1B", b"5 VPSHUFD y0 mq0/-/0 u27 32 c5fd70001b\n"),
    ("default", b"C4 E2 79 22 00", b"5 VPMOVSXBQ x0 mq0/-/0 2 c4e2792200\n"),
    ("default", b"C4 E2 F1 A9 C2", b"5 VFMADD213SD x0 x1 x2 0 c4e2f1a9c2\n"),
    ("default", b"C4 E2 75 91 04 20", b"6 VPGATHERQD x0 mq0/y4*1/0 x1 4 c4e275910420\n"),
    ("default", b"C4 A2 71 92 14 E5 00 00 00 00", b"10 VGATHERDPS x2 m-/x12*8/0 x1 4 c4a2719214e500000000\n"),
    ("default", b"C4 E2 71 90 C2", b"error InvalidOperand\n"),
    ("default", b"C4 E2 71 90 00", b"error InvalidOperand\n"),
    ("default", b"C4 E2 71 92 04", b"error ExhaustedInput\n"),
    ("default", b"C4 E3 79 15 C8 02", b"6 VPEXTRW d0 x1 u2 0 c5f9c5c102\n"),
    ("default", b"C4 E3 71 4A C2 35", b"6 VBLENDVPS x0 x1 x2 x3 0 c4e3714ac230\n"),
    ("default", b"C4 E3 03 F0 C1 05", b"6 RORX d0 d1 i5 0 c4e37bf0c105\n"),
    ("default", b"C4 62 70 F3 C9", b"5 BLSR d1 d1 0 c4e270f3c9\n"),
    ("default", b"C5 F8 AE D0", b"error InvalidOperand\n"),
    ("default", b"C4 E3 7D 61 C1 0C", b"error InvalidOperand\n"),
    ("default", b"C4 E0 78 58 C0", b"error InvalidOpcode\n"),
    ("default", b"C4 E3 78 0F C0 00", b"error InvalidOpcode\n"),
    ("default", b"C4 00", b"error ExhaustedInput\n"),
    ("default", b"33 C0", b"error Outside\n"),
    ("default", b"C4 E2 F9 45 C0", b"5 VPSRLVQ x0 x0 x0 0 c4e2f945c0\n"),
    ("default", b"C4 E2 79 45 C0", b"5 VPSRLVD x0 x0 x0 0 c4e27945c0\n"),
    ("default", b"C5 FE 58 C1", b"4 VADDSS x0 x0 x1 0 c5fa58c1\n"),
    ("nehalem", b"C5 F8 77", b"error InvalidOpcode\n"),
    ("sandybridge", b"C5 F8 77", b"3 VZEROUPPER 0 c5f877\n"),
    ("sandybridge", b"C4 E2 79 13 C1", b"error InvalidOpcode\n"),
    ("ivybridge", b"C4 E2 79 13 C1", b"5 VCVTPH2PS x0 x1 0 c4e27913c1\n"),
    ("sandybridge", b"C4 E2 7D 58 C1", b"5 VPBROADCASTD y0 x1 0 c4e27d58c1\n"),
    ("default", b"C4 A1 78 28 C1", b"5 VMOVAPS x0 x1 0 c5f828c1\n"),
    ("default", b"C4 E1 F0 58 C2", b"5 VADDPS x0 x1 x2 0 c5f058c2\n"),
    ("default", b"C4 C1 78 28 04 25 00 10 00 00", b"10 VMOVAPS x0 m-/-/4096 16 c5f828042500100000\n"),
    ("default", b"C5 F8 28 04 E4", b"5 VMOVAPS x0 mq4/-/0 16 c5f8280424\n"),
    ("default", b"C5 80 AE 10", b"4 VLDMXCSR mq0/-/0 4 c5f8ae10\n"),
    ("default", b"C5 00 AE 10", b"4 VLDMXCSR mq0/-/0 4 c5f8ae10\n"),
];

/// A profile, a line of words, and what `asm` answers: canonical bytes, what is no text, what no bytes spell, what the
/// settings don't permit, and that these are tested in this order.
#[rattlefmt::skip]
static TEXTS: [(&str, &[u8], &[u8]); 19] = [
    ("default", b"VADDPS x0 x1 x2 0", b"c5f058c2\n"),
    ("default", b" VMOVAPS  y0 mq5/-/0 32", b"c5fc284500\n"),
    ("default", b"\tVPEXTRB mq0/q1*4/305419896 x0 u7 1 \r", b"c4e3791484887856341207\n"),
    ("default", b"VMOVAPS y0 mq5/-/00 32", b"error BadText\n"),
    ("default", b"VFOO 0", b"error BadText\n"),
    ("default", b"\n", b"error BadText\n"),
    ("default", b"c5f058c2", b"error BadText\n"),
    ("default", b"VADDPS x0 0", b"error NoSpelling\n"),
    ("default", b"VMOVAPS y0 mq0/-/0 16", b"error NoSpelling\n"),
    ("default", b"EVEX.VADDPS z0 z1 z2 0", b"error NoSpelling\n"),
    ("default", b"TZCNT d0 d1 0", b"error NoSpelling\n"),
    ("minimal", b"VADDPS x0 x1 x2 0", b"error InvalidOpcode\n"),
    ("minimal", b"VADDPS x0 0", b"error NoSpelling\n"),
    ("minimal", b"VADDPS x0 00", b"error BadText\n"),
    ("nehalem", b"VZEROUPPER 0", b"error InvalidOpcode\n"),
    ("sandybridge", b"VZEROUPPER 0", b"c5f877\n"),
    ("sandybridge", b"VCVTPH2PS x0 x1 0", b"error InvalidOpcode\n"),
    ("ivybridge", b"VCVTPH2PS x0 x1 0", b"c4e27913c1\n"),
    ("haswell", b"VFMADD213SD x0 x1 x2 0", b"c4e2f1a9c2\n"),
];

/// A line, and what `least` answers: the bits that its instructions need, each with the first that does, and the
/// profiles that have them all; or where it stops.
#[rattlefmt::skip]
static RUNS: [(&[u8], &[u8]); 8] = [
    (b"C5 FA 10 07 C5 FA 58 06 C4 E3 7B F0 C1 05",
        b"need avx 0 VMOVSS\nneed bmi2 8 RORX\n\
        profiles excavator zen zen2 zen3 zen4 zen5 haswell haswell_ex broadwell skylake kabylake\n"),
    (b"C4 E2 79 DC C1 C4 E2 79 13 C1",
        b"need aesni 0 VAESENC\nneed avx 0 VAESENC\nneed f16c 5 VCVTPH2PS\n\
        profiles bulldozer piledriver steamroller excavator zen zen2 zen3 zen4 zen5 \
        ivybridge haswell haswell_ex broadwell skylake kabylake\n"),
    (b"C4 E2 70 F2 C2",
        b"need bmi1 0 ANDN\n\
        profiles bulldozer piledriver steamroller excavator zen zen2 zen3 zen4 zen5 \
        haswell haswell_ex broadwell skylake kabylake\n"),
    (b"C5 F8 77 33", b"stopped 3 Outside\n"),
    (b"C4 E2 70 F2 C2 C5 F8", b"stopped 5 ExhaustedInput\n"),
    (b"C5 F1 71 CA 04", b"stopped 0 InvalidOpcode\n"),
    (b"\n",
        b"profiles k8 k10 bulldozer piledriver steamroller excavator zen zen2 zen3 zen4 zen5 \
        netburst core penryn nehalem westmere sandybridge ivybridge haswell haswell_ex broadwell skylake kabylake\n"),
    (b"c5f", b"error BadHex\n"),
];

/// A profile, a line of code, and what `emulate` answers: what it changes of the vectors and of the memory, in this
/// order, how it ends, and that it starts anew for each line.
#[rattlefmt::skip]
static MACHINES: [(&str, &[u8], &[u8]); 17] = [
    ("default", b"C5 F1 FC C2",
        b"y0 30323436383a3c3e40424446484a4c4e00000000000000000000000000000000\n\
        end 1\n"),
    ("default", b"C5 FE 7F 06",
        b"m192 000102030405060708090a0b0c0d0e0f101112131415161718191a1b1c1d1e1f\n\
        end 1\n"),
    ("default", b"C5 FA 6F 85 50 03 00 00",
        b"y0 f0f1f2f3f4f5f6f7f8f9fafbfcfdfeff00000000000000000000000000000000\n\
        end 1\n"),
    ("default", b"C5 FA 6F 85 51 03 00 00", b"stopped 0 BadAddress\n"),
    ("default", b"C5 FA 58 C1", b"stopped 0 Unsupported\n"),
    ("default", b"\n", b"end 0\n"),
    ("default", b"C5 FD DB C0", b"end 1\n"),
    ("default", b"C5 FD DB C0 33", b"stopped 4 Outside\n"),
    ("default", b"C5 FD DB C0 C5 FD DB C0 C5 FA 6F 05 00 00 00 00", b"stopped 8 Unsupported\n"),
    ("minimal", b"C5 F8 77", b"stopped 0 InvalidOpcode\n"),
    ("default", b"C4 41 29 EF D2 C5 F1 EF C9",
        b"y1 0000000000000000000000000000000000000000000000000000000000000000\n\
        y10 0000000000000000000000000000000000000000000000000000000000000000\n\
        end 2\n"),
    ("default", b"C5 FE 7F 45 10",
        b"m160 a0a1a2a3a4a5a6a7a8a9aaabacadaeaf000102030405060708090a0b0c0d0e0f\n\
        m192 101112131415161718191a1b1c1d1e1fd0d1d2d3d4d5d6d7d8d9dadbdcdddedf\n\
        end 1\n"),
    ("default", b"C5 FE 7F 06\nC5 FE 6F 06",
        b"m192 000102030405060708090a0b0c0d0e0f101112131415161718191a1b1c1d1e1f\n\
        end 1\n\
        y0 c0c1c2c3c4c5c6c7c8c9cacbcccdcecfd0d1d2d3d4d5d6d7d8d9dadbdcdddedf\n\
        end 1\n"),
    ("default", b"C5 F1 FC C2\nC5 FD DB C0",
        b"y0 30323436383a3c3e40424446484a4c4e00000000000000000000000000000000\n\
        end 1\n\
        end 1\n"),
    ("default", b"C5 FE 7F 06 33\n\n",
        b"m192 000102030405060708090a0b0c0d0e0f101112131415161718191a1b1c1d1e1f\n\
        stopped 4 Outside\n\
        end 0\n"),
    ("default", b"C5 FE 7F 85 40 03 00 00 C5 F8 77 C5 FA 6F 45",
        b"y0 000102030405060708090a0b0c0d0e0f00000000000000000000000000000000\n\
        y1 101112131415161718191a1b1c1d1e1f00000000000000000000000000000000\n\
        y2 202122232425262728292a2b2c2d2e2f00000000000000000000000000000000\n\
        y3 303132333435363738393a3b3c3d3e3f00000000000000000000000000000000\n\
        y4 404142434445464748494a4b4c4d4e4f00000000000000000000000000000000\n\
        y5 505152535455565758595a5b5c5d5e5f00000000000000000000000000000000\n\
        y6 606162636465666768696a6b6c6d6e6f00000000000000000000000000000000\n\
        y7 707172737475767778797a7b7c7d7e7f00000000000000000000000000000000\n\
        y8 808182838485868788898a8b8c8d8e8f00000000000000000000000000000000\n\
        y9 909192939495969798999a9b9c9d9e9f00000000000000000000000000000000\n\
        y10 a0a1a2a3a4a5a6a7a8a9aaabacadaeaf00000000000000000000000000000000\n\
        y11 b0b1b2b3b4b5b6b7b8b9babbbcbdbebf00000000000000000000000000000000\n\
        y12 c0c1c2c3c4c5c6c7c8c9cacbcccdcecf00000000000000000000000000000000\n\
        y13 d0d1d2d3d4d5d6d7d8d9dadbdcdddedf00000000000000000000000000000000\n\
        y14 e0e1e2e3e4e5e6e7e8e9eaebecedeeef00000000000000000000000000000000\n\
        y15 f0f1f2f3f4f5f6f7f8f9fafbfcfdfeff00000000000000000000000000000000\n\
        m992 000102030405060708090a0b0c0d0e0f101112131415161718191a1b1c1d1e1f\n\
        stopped 11 ExhaustedInput\n"),
    ("default", b"c5f", b"error BadHex\n"),
];

/// Runs the command that these words ask for over a line, and wants this text.
pub fn check(rt: &impl Abort, alloc: Global, list: &[&str], line: &[u8], text: &[u8]) {
    let mut source = MemSource::new(line, 4096, &[]);
    let mut room = [0u8; 1280];
    let mut sink = MemSink::new(&mut room, &[]);
    let status = run(alloc, &words_of(list), &mut source, &mut sink);
    assert_eq!(rt; status, Status::Done);
    assert_eq!(rt; sink.written(), text);
}

#[test]
fn lines_have_their_answers(rt: HostRuntime) {
    for (profile, line, text) in LINES.iter() {
        check(&rt, rt.alloc(), &["recode", profile], line, text);
    }
}

#[test]
fn one_line_is_answered_alone(rt: HostRuntime) {
    let mut memory = [0; MEMORY_BYTES];
    let mut room = LineRoom::new(&mut memory);
    let commands = [
        LineCommand::under("recode", InstDecoder::default()),
        LineCommand::under("asm", InstDecoder::minimal()),
        LineCommand::under("sweep", InstDecoder::default()),
    ];
    // A line, and what these answer; the last is no such command.
    let long = [b'c'; 8193];
    let cases: [(&[u8], [&str; 3]); 3] = [
        (
            b"C5 F8 77",
            ["3 VZEROUPPER 0 c5f877\n", "error BadText\n", ""],
        ),
        (
            b"VZEROUPPER 0",
            ["error BadHex\n", "error InvalidOpcode\n", ""],
        ),
        (&long, ["error LongLine\n", "error LongLine\n", ""]),
    ];
    for (line, texts) in cases {
        for (command, text) in commands.iter().zip(texts.iter()) {
            let mut bytes = [0u8; 64];
            let mut sink = MemSink::new(&mut bytes, &[]);
            if let Some(command) = command {
                assert!(rt; answer_line(command, line, &mut room, &mut sink).is_ok());
            }
            assert_eq!(rt; sink.written(), text.as_bytes());
        }
    }
}

#[test]
fn texts_are_assembled(rt: HostRuntime) {
    for (profile, line, text) in TEXTS.iter() {
        check(&rt, rt.alloc(), &["asm", profile], line, text);
    }
    assembled_lines();
    result_line_assembles(&InstDecoder::default(), b"\xc5\xf8\x77");
}

#[test]
fn runs_need_the_bits_of_their_instructions(rt: HostRuntime) {
    for (line, text) in RUNS.iter() {
        check(&rt, rt.alloc(), &["least"], line, text);
    }
}

#[test]
fn emulate_answers_what_code_changes(rt: HostRuntime) {
    for (profile, line, text) in MACHINES.iter() {
        check(&rt, rt.alloc(), &["emulate", profile], line, text);
    }
}
