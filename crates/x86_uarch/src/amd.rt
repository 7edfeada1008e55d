//! The settings of AMD's microarchitectures.

ghost use Rattle.std.specs.Prelude.{◌≡◌};
ghost use Rattle.x86_settings.specs.Sets.{exactly};
ghost use Rattle.x86_uarch.specs.Amd.{k8, k10, bulldozer, piledriver, steamroller, excavator, zen, zen2, zen3, zen4};
ghost use Rattle.x86_uarch.specs.Amd.{zen5};

use x86_settings::InstDecoder;

/// AMD's K8: 3DNow! with its prefetches, and CMOV.
pub fn k8() -> InstDecoder
    ensures { result ≡ exactly k8 }
{
    InstDecoder::minimal()
        .with_3dnow()
        .with_3dnowprefetch()
        .with_cmov()
}

/// AMD's K10: K8 with ABM, CMPXCHG16B, LAHF and SAHF, SSE3, SSE4a and SVM.
pub fn k10() -> InstDecoder
    ensures { result ≡ exactly k10 }
{
    k8().with_abm()
        .with_cmpxchg16b()
        .with_lahfsahf()
        .with_sse3()
        .with_sse4a()
        .with_svm()
}

/// AMD's Bulldozer. It has BMI1 without BMI2, and not CMOV.
pub fn bulldozer() -> InstDecoder
    ensures { result ≡ exactly bulldozer }
{
    InstDecoder::minimal()
        .with_abm()
        .with_aesni()
        .with_avx()
        .with_bmi1()
        .with_cmpxchg16b()
        .with_f16c()
        .with_fma4()
        .with_lahfsahf()
        .with_pclmulqdq()
        .with_skinit()
        .with_sse3()
        .with_sse4_1()
        .with_sse4_2()
        .with_sse4a()
        .with_ssse3()
        .with_svm()
        .with_xop()
        .with_xsave()
}

/// AMD's Piledriver: Bulldozer with FMA3 and TBM.
pub fn piledriver() -> InstDecoder
    ensures { result ≡ exactly piledriver }
{
    bulldozer().with_fma3().with_tbm()
}

/// AMD's Steamroller: the settings of Bulldozer.
pub fn steamroller() -> InstDecoder
    ensures { result ≡ exactly steamroller }
{
    bulldozer()
}

/// AMD's Excavator: Bulldozer with AVX2, BMI2, MOVBE, RDRAND and SHA.
pub fn excavator() -> InstDecoder
    ensures { result ≡ exactly excavator }
{
    bulldozer()
        .with_avx2()
        .with_bmi2()
        .with_movbe()
        .with_rdrand()
        .with_sha()
}

/// AMD's Zen. It has CLWB, and not CMOV.
pub fn zen() -> InstDecoder
    ensures { result ≡ exactly zen }
{
    InstDecoder::minimal()
        .with_abm()
        .with_adx()
        .with_aesni()
        .with_avx()
        .with_avx2()
        .with_bmi1()
        .with_bmi2()
        .with_clflushopt()
        .with_clwb()
        .with_cmpxchg16b()
        .with_f16c()
        .with_fma3()
        .with_lahfsahf()
        .with_movbe()
        .with_pclmulqdq()
        .with_rdrand()
        .with_rdseed()
        .with_sha()
        .with_skinit()
        .with_sse3()
        .with_sse4_1()
        .with_sse4_2()
        .with_sse4a()
        .with_ssse3()
        .with_svm()
        .with_xsave()
        .with_xsavec()
        .with_xsaves()
        .with_xsaveopt()
        .with_fsgsbase()
        .with_monitorx()
}

/// AMD's Zen 2: Zen with WBNOINVD, whose bit is CLZERO's too, and RDPID.
pub fn zen2() -> InstDecoder
    ensures { result ≡ exactly zen2 }
{
    zen().with_wbnoinvd().with_rdpid()
}

/// AMD's Zen 3: Zen 2 with INVPCID, VAES and VPCLMULQDQ.
pub fn zen3() -> InstDecoder
    ensures { result ≡ exactly zen3 }
{
    zen2().with_invpcid().with_vaes().with_vpclmulqdq()
}

/// AMD's Zen 4: Zen 3 with GFNI and seven parts of AVX-512.
pub fn zen4() -> InstDecoder
    ensures { result ≡ exactly zen4 }
{
    zen3()
        .with_avx512_bw()
        .with_avx512_cd()
        .with_avx512_f()
        .with_avx512_vbmi()
        .with_avx512_vbmi2()
        .with_avx512_vl()
        .with_avx512_vpopcntdq()
        .with_gfni()
}

/// AMD's Zen 5: Zen 4 with MOVDIR64B, ENQCMD and four more parts of AVX-512.
pub fn zen5() -> InstDecoder
    ensures { result ≡ exactly zen5 }
{
    zen4()
        .with_avx512_bitalg()
        .with_avx512_dq()
        .with_avx512_fma()
        .with_movdir64b()
        .with_enqcmd()
        .with_avx512_vnni()
}
