use super::laws::setter_and_getter;
use super::*;
use std::process::Abort;
use std::test::Fail;

/// A setting's name and bit, the settings after its setter alone, and what its getter answers then.
type Row = (&'static str, u8, InstDecoder, bool);

#[test]
fn each_setter_sets_its_one_bit(rt: HostRuntime) {
    check(&rt, &amd());
    check(&rt, &quirks());
    check(&rt, &sse());
    check(&rt, &avx());
    check(&rt, &avx512());
    check(&rt, &amx());
    check(&rt, &crypto());
    check(&rt, &integer());
    check(&rt, &cache());
    check(&rt, &system());
}

#[test]
fn a_composite_has_its_members(rt: HostRuntime) {
    let none = InstDecoder::minimal();
    let rows = [
        (none.with_sse4(), [55, 56].as_slice()),
        (
            none.with_avx512(),
            [10, 11, 12, 13, 14, 15, 16, 17, 18, 19, 20, 21, 22, 23].as_slice(),
        ),
        (
            none.with_avx10_1(),
            [
                12, 13, 14, 15, 17, 20, 21, 23, 104, 105, 106, 107, 108, 109, 110,
            ]
            .as_slice(),
        ),
    ];
    for (settings, members) in rows {
        for i in 0..128 {
            assert_eq!(rt; settings.bit(i), members.contains(&i), "at {i}");
        }
    }
}

#[test]
fn bits_are_shared_and_members_joined(rt: HostRuntime) {
    let none = InstDecoder::minimal();
    let all = InstDecoder::default();
    let rows = [
        ("wbnoinvd, clzero", none.with_wbnoinvd().clzero(), true),
        ("clzero, wbnoinvd", none.with_clzero().wbnoinvd(), true),
        (
            "vnni_int8, complex",
            none.with_amx_vnni_int8().amx_complex(),
            true,
        ),
        (
            "complex, vnni_int16",
            none.with_amx_complex().amx_vnni_int16(),
            true,
        ),
        (
            "vnni_int16, vnni_int8",
            none.with_amx_vnni_int16().amx_vnni_int8(),
            true,
        ),
        (
            "vnni_int8, vnni_int16",
            none.with_amx_vnni_int8().amx_vnni_int16(),
            true,
        ),
        (
            "complex, vnni_int8",
            none.with_amx_complex().amx_vnni_int8(),
            true,
        ),
        (
            "vnni_int16, complex",
            none.with_amx_vnni_int16().amx_complex(),
            true,
        ),
        ("uwrmsr, fred", none.with_uwrmsr().fred(), true),
        ("fred, urdmsr", none.with_fred().urdmsr(), true),
        ("sse4_1, sse4", none.with_sse4_1().sse4(), false),
        ("both, sse4", none.with_sse4_1().with_sse4_2().sse4(), true),
        ("avx512, avx512", none.with_avx512().avx512(), true),
        ("avx512, avx10_1", none.with_avx512().avx10_1(), false),
        ("avx10_1, avx10_1", none.with_avx10_1().avx10_1(), true),
        ("avx10_1, avx512", none.with_avx10_1().avx512(), false),
        ("all, amd_quirks", all.amd_quirks(), true),
        ("all, intel_quirks", all.intel_quirks(), true),
        (
            "sse4 == both",
            none.with_sse4() == none.with_sse4_2().with_sse4_1(),
            true,
        ),
        (
            "sse4 == sse4_1",
            none.with_sse4() == none.with_sse4_1(),
            false,
        ),
        ("hreset == none", none.with_hreset() == none, false),
    ];
    setter_and_getter();
    for (what, got, want) in rows {
        assert_eq!(rt; got, want, "{what}");
    }
}

fn check(rt: &impl Abort, rows: &[Row]) {
    for (name, place, settings, is_true) in rows {
        assert!(rt; *is_true, "{name}");
        for i in 0..128 {
            assert_eq!(rt; settings.bit(i), i == *place, "{name} at {i}");
        }
    }
}

fn amd() -> [Row; 11] {
    let none = InstDecoder::minimal();
    [
        ("_3dnow", 1, none.with_3dnow(), none.with_3dnow()._3dnow()),
        (
            "_3dnowprefetch",
            2,
            none.with_3dnowprefetch(),
            none.with_3dnowprefetch()._3dnowprefetch(),
        ),
        ("abm", 3, none.with_abm(), none.with_abm().abm()),
        ("fma4", 34, none.with_fma4(), none.with_fma4().fma4()),
        (
            "skinit",
            53,
            none.with_skinit(),
            none.with_skinit().skinit(),
        ),
        ("sse4a", 57, none.with_sse4a(), none.with_sse4a().sse4a()),
        ("svm", 59, none.with_svm(), none.with_svm().svm()),
        ("tbm", 61, none.with_tbm(), none.with_tbm().tbm()),
        ("xop", 65, none.with_xop(), none.with_xop().xop()),
        (
            "monitorx",
            71,
            none.with_monitorx(),
            none.with_monitorx().monitorx(),
        ),
        (
            "clzero",
            72,
            none.with_clzero(),
            none.with_clzero().clzero(),
        ),
    ]
}

fn quirks() -> [Row; 2] {
    let none = InstDecoder::minimal();
    [
        (
            "amd_quirks",
            6,
            none.with_amd_quirks(),
            none.with_amd_quirks().amd_quirks(),
        ),
        (
            "intel_quirks",
            36,
            none.with_intel_quirks(),
            none.with_intel_quirks().intel_quirks(),
        ),
    ]
}

fn sse() -> [Row; 4] {
    let none = InstDecoder::minimal();
    [
        ("sse3", 54, none.with_sse3(), none.with_sse3().sse3()),
        (
            "sse4_1",
            55,
            none.with_sse4_1(),
            none.with_sse4_1().sse4_1(),
        ),
        (
            "sse4_2",
            56,
            none.with_sse4_2(),
            none.with_sse4_2().sse4_2(),
        ),
        ("ssse3", 58, none.with_ssse3(), none.with_ssse3().ssse3()),
    ]
}

fn avx() -> [Row; 5] {
    let none = InstDecoder::minimal();
    [
        ("avx", 7, none.with_avx(), none.with_avx().avx()),
        ("avx2", 8, none.with_avx2(), none.with_avx2().avx2()),
        (
            "avx_vnni",
            24,
            none.with_avx_vnni(),
            none.with_avx_vnni().avx_vnni(),
        ),
        ("f16c", 32, none.with_f16c(), none.with_f16c().f16c()),
        ("fma3", 33, none.with_fma3(), none.with_fma3().fma3()),
    ]
}

fn avx512() -> [Row; 21] {
    let none = InstDecoder::minimal();
    [
        (
            "avx512_4fmaps",
            10,
            none.with_avx512_4fmaps(),
            none.with_avx512_4fmaps().avx512_4fmaps(),
        ),
        (
            "avx512_4vnniw",
            11,
            none.with_avx512_4vnniw(),
            none.with_avx512_4vnniw().avx512_4vnniw(),
        ),
        (
            "avx512_bitalg",
            12,
            none.with_avx512_bitalg(),
            none.with_avx512_bitalg().avx512_bitalg(),
        ),
        (
            "avx512_bw",
            13,
            none.with_avx512_bw(),
            none.with_avx512_bw().avx512_bw(),
        ),
        (
            "avx512_cd",
            14,
            none.with_avx512_cd(),
            none.with_avx512_cd().avx512_cd(),
        ),
        (
            "avx512_dq",
            15,
            none.with_avx512_dq(),
            none.with_avx512_dq().avx512_dq(),
        ),
        (
            "avx512_er",
            16,
            none.with_avx512_er(),
            none.with_avx512_er().avx512_er(),
        ),
        (
            "avx512_f",
            17,
            none.with_avx512_f(),
            none.with_avx512_f().avx512_f(),
        ),
        (
            "avx512_fma",
            18,
            none.with_avx512_fma(),
            none.with_avx512_fma().avx512_fma(),
        ),
        (
            "avx512_pf",
            19,
            none.with_avx512_pf(),
            none.with_avx512_pf().avx512_pf(),
        ),
        (
            "avx512_vbmi",
            20,
            none.with_avx512_vbmi(),
            none.with_avx512_vbmi().avx512_vbmi(),
        ),
        (
            "avx512_vbmi2",
            21,
            none.with_avx512_vbmi2(),
            none.with_avx512_vbmi2().avx512_vbmi2(),
        ),
        (
            "avx512_vl",
            22,
            none.with_avx512_vl(),
            none.with_avx512_vl().avx512_vl(),
        ),
        (
            "avx512_vpopcntdq",
            23,
            none.with_avx512_vpopcntdq(),
            none.with_avx512_vpopcntdq().avx512_vpopcntdq(),
        ),
        (
            "avx512_fp16",
            104,
            none.with_avx512_fp16(),
            none.with_avx512_fp16().avx512_fp16(),
        ),
        (
            "avx512_vaes",
            105,
            none.with_avx512_vaes(),
            none.with_avx512_vaes().avx512_vaes(),
        ),
        (
            "avx512_gfni",
            106,
            none.with_avx512_gfni(),
            none.with_avx512_gfni().avx512_gfni(),
        ),
        (
            "avx512_vpclmulqdq",
            107,
            none.with_avx512_vpclmulqdq(),
            none.with_avx512_vpclmulqdq().avx512_vpclmulqdq(),
        ),
        (
            "avx512_bf16",
            108,
            none.with_avx512_bf16(),
            none.with_avx512_bf16().avx512_bf16(),
        ),
        (
            "avx512_vnni",
            109,
            none.with_avx512_vnni(),
            none.with_avx512_vnni().avx512_vnni(),
        ),
        (
            "avx512_ifma",
            110,
            none.with_avx512_ifma(),
            none.with_avx512_ifma().avx512_ifma(),
        ),
    ]
}

fn amx() -> [Row; 13] {
    let none = InstDecoder::minimal();
    [
        ("amx", 77, none.with_amx(), none.with_amx().amx()),
        (
            "amx_bf16",
            78,
            none.with_amx_bf16(),
            none.with_amx_bf16().amx_bf16(),
        ),
        (
            "amx_tile",
            79,
            none.with_amx_tile(),
            none.with_amx_tile().amx_tile(),
        ),
        (
            "amx_int8",
            80,
            none.with_amx_int8(),
            none.with_amx_int8().amx_int8(),
        ),
        (
            "amx_fp16",
            81,
            none.with_amx_fp16(),
            none.with_amx_fp16().amx_fp16(),
        ),
        (
            "amx_ifma",
            82,
            none.with_amx_ifma(),
            none.with_amx_ifma().amx_ifma(),
        ),
        (
            "amx_ne_convert",
            83,
            none.with_amx_ne_convert(),
            none.with_amx_ne_convert().amx_ne_convert(),
        ),
        (
            "amx_vnni_int8",
            84,
            none.with_amx_vnni_int8(),
            none.with_amx_vnni_int8().amx_vnni_int8(),
        ),
        (
            "amx_complex",
            84,
            none.with_amx_complex(),
            none.with_amx_complex().amx_complex(),
        ),
        (
            "amx_vnni_int16",
            84,
            none.with_amx_vnni_int16(),
            none.with_amx_vnni_int16().amx_vnni_int16(),
        ),
        (
            "amx_movrs",
            85,
            none.with_avx_movrs(),
            none.with_avx_movrs().amx_movrs(),
        ),
        (
            "amx_fp8",
            86,
            none.with_amx_fp8(),
            none.with_amx_fp8().amx_fp8(),
        ),
        (
            "amx_tf32",
            87,
            none.with_amx_tf32(),
            none.with_amx_tf32().amx_tf32(),
        ),
    ]
}

fn crypto() -> [Row; 10] {
    let none = InstDecoder::minimal();
    [
        ("aesni", 5, none.with_aesni(), none.with_aesni().aesni()),
        ("gfni", 35, none.with_gfni(), none.with_gfni().gfni()),
        (
            "pclmulqdq",
            43,
            none.with_pclmulqdq(),
            none.with_pclmulqdq().pclmulqdq(),
        ),
        ("sha", 52, none.with_sha(), none.with_sha().sha()),
        ("vaes", 63, none.with_vaes(), none.with_vaes().vaes()),
        (
            "vpclmulqdq",
            74,
            none.with_vpclmulqdq(),
            none.with_vpclmulqdq().vpclmulqdq(),
        ),
        ("sm3", 90, none.with_sm3(), none.with_sm3().sm3()),
        ("sm4", 91, none.with_sm4(), none.with_sm4().sm4()),
        (
            "sm4_evex",
            92,
            none.with_sm4_evex(),
            none.with_sm4_evex().sm4_evex(),
        ),
        (
            "keylocker",
            111,
            none.with_keylocker(),
            none.with_keylocker().keylocker(),
        ),
    ]
}

fn integer() -> [Row; 16] {
    let none = InstDecoder::minimal();
    [
        ("adx", 4, none.with_adx(), none.with_adx().adx()),
        ("bmi1", 25, none.with_bmi1(), none.with_bmi1().bmi1()),
        ("bmi2", 26, none.with_bmi2(), none.with_bmi2().bmi2()),
        ("cmov", 29, none.with_cmov(), none.with_cmov().cmov()),
        (
            "cmpxchg16b",
            30,
            none.with_cmpxchg16b(),
            none.with_cmpxchg16b().cmpxchg16b(),
        ),
        ("cx8", 31, none.with_cx8(), none.with_cx8().cx8()),
        (
            "lahfsahf",
            38,
            none.with_lahfsahf(),
            none.with_lahfsahf().lahfsahf(),
        ),
        ("lzcnt", 39, none.with_lzcnt(), none.with_lzcnt().lzcnt()),
        ("movbe", 41, none.with_movbe(), none.with_movbe().movbe()),
        (
            "popcnt",
            45,
            none.with_popcnt(),
            none.with_popcnt().popcnt(),
        ),
        (
            "rdrand",
            48,
            none.with_rdrand(),
            none.with_rdrand().rdrand(),
        ),
        (
            "rdseed",
            49,
            none.with_rdseed(),
            none.with_rdseed().rdseed(),
        ),
        (
            "movdir64b",
            75,
            none.with_movdir64b(),
            none.with_movdir64b().movdir64b(),
        ),
        (
            "enqcmd",
            76,
            none.with_enqcmd(),
            none.with_enqcmd().enqcmd(),
        ),
        ("apx", 99, none.with_apx(), none.with_apx().apx()),
        ("movrs", 103, none.with_movrs(), none.with_movrs().movrs()),
    ]
}

fn cache() -> [Row; 6] {
    let none = InstDecoder::minimal();
    [
        (
            "clflushopt",
            27,
            none.with_clflushopt(),
            none.with_clflushopt().clflushopt(),
        ),
        ("clwb", 28, none.with_clwb(), none.with_clwb().clwb()),
        (
            "pcommit",
            44,
            none.with_pcommit(),
            none.with_pcommit().pcommit(),
        ),
        (
            "prefetchw",
            46,
            none.with_prefetchw(),
            none.with_prefetchw().prefetchw(),
        ),
        (
            "prefetchwt1",
            47,
            none.with_prefetchwt1(),
            none.with_prefetchwt1().prefetchwt1(),
        ),
        (
            "wbnoinvd",
            72,
            none.with_wbnoinvd(),
            none.with_wbnoinvd().wbnoinvd(),
        ),
    ]
}

fn system() -> [Row; 18] {
    let none = InstDecoder::minimal();
    [
        (
            "invpcid",
            37,
            none.with_invpcid(),
            none.with_invpcid().invpcid(),
        ),
        (
            "monitor",
            40,
            none.with_monitor(),
            none.with_monitor().monitor(),
        ),
        ("mpx", 42, none.with_mpx(), none.with_mpx().mpx()),
        (
            "rdtscp",
            50,
            none.with_rdtscp(),
            none.with_rdtscp().rdtscp(),
        ),
        ("sgx", 51, none.with_sgx(), none.with_sgx().sgx()),
        (
            "syscall",
            60,
            none.with_syscall(),
            none.with_syscall().syscall(),
        ),
        ("tsx", 62, none.with_tsx(), none.with_tsx().tsx()),
        ("vmx", 64, none.with_vmx(), none.with_vmx().vmx()),
        ("xsave", 66, none.with_xsave(), none.with_xsave().xsave()),
        (
            "xsavec",
            67,
            none.with_xsavec(),
            none.with_xsavec().xsavec(),
        ),
        (
            "xsaves",
            68,
            none.with_xsaves(),
            none.with_xsaves().xsaves(),
        ),
        (
            "xsaveopt",
            69,
            none.with_xsaveopt(),
            none.with_xsaveopt().xsaveopt(),
        ),
        (
            "fsgsbase",
            70,
            none.with_fsgsbase(),
            none.with_fsgsbase().fsgsbase(),
        ),
        ("rdpid", 73, none.with_rdpid(), none.with_rdpid().rdpid()),
        ("fred", 101, none.with_fred(), none.with_fred().fred()),
        (
            "urdmsr",
            101,
            none.with_uwrmsr(),
            none.with_uwrmsr().urdmsr(),
        ),
        (
            "immediate_rdmsr",
            102,
            none.with_immediate_rdmsr(),
            none.with_immediate_rdmsr().immediate_rdmsr(),
        ),
        (
            "hreset",
            112,
            none.with_hreset(),
            none.with_hreset().hreset(),
        ),
    ]
}

#[test]
fn clones_are_equal(rt: HostRuntime) -> Result<(), Fail> {
    for bit in 0..128 {
        let settings = InstDecoder::minimal().with_bit(bit);
        assert!(rt; settings.clone()? == settings, "{bit}");
        assert!(rt; settings.clone()? != InstDecoder::minimal(), "{bit}");
    }
    Ok(())
}
