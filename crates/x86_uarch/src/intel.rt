//! The settings of Intel's microarchitectures.

ghost use Rattle.std.specs.Prelude.{◌≡◌};
ghost use Rattle.x86_settings.specs.Sets.{exactly};
ghost use Rattle.x86_uarch.specs.Intel.{netburst, core, penryn, nehalem, westmere, sandybridge, ivybridge, haswell};
ghost use Rattle.x86_uarch.specs.Intel.{haswell_ex, broadwell, skylake, kabylake};

use x86_settings::InstDecoder;

/// Intel's NetBurst: CMOV, CMPXCHG16B and SSE3.
pub fn netburst() -> InstDecoder
    ensures { result ≡ exactly netburst }
{
    InstDecoder::minimal()
        .with_cmov()
        .with_cmpxchg16b()
        .with_sse3()
}

/// Intel's Core: NetBurst with SSSE3, SSE4.1 and SSE4.2.
pub fn core() -> InstDecoder
    ensures { result ≡ exactly core }
{
    netburst().with_sse4_1().with_sse4_2().with_ssse3()
}

/// Intel's Penryn: the settings of Core.
pub fn penryn() -> InstDecoder
    ensures { result ≡ exactly penryn }
{
    core()
}

/// Intel's Nehalem: Core with POPCNT.
pub fn nehalem() -> InstDecoder
    ensures { result ≡ exactly nehalem }
{
    core().with_popcnt()
}

/// Intel's Westmere: Nehalem with AES-NI and PCLMULQDQ.
pub fn westmere() -> InstDecoder
    ensures { result ≡ exactly westmere }
{
    nehalem().with_aesni().with_pclmulqdq()
}

/// Intel's Sandy Bridge: Westmere with AVX.
pub fn sandybridge() -> InstDecoder
    ensures { result ≡ exactly sandybridge }
{
    westmere().with_avx()
}

/// Intel's Ivy Bridge: Sandy Bridge with F16C and RDRAND.
pub fn ivybridge() -> InstDecoder
    ensures { result ≡ exactly ivybridge }
{
    sandybridge().with_f16c().with_rdrand()
}

/// Intel's Haswell: Ivy Bridge with ABM, AVX2, BMI1, BMI2 and FMA3.
pub fn haswell() -> InstDecoder
    ensures { result ≡ exactly haswell }
{
    ivybridge()
        .with_abm()
        .with_avx2()
        .with_bmi1()
        .with_bmi2()
        .with_fma3()
}

/// Intel's Haswell-EX: Haswell with TSX.
pub fn haswell_ex() -> InstDecoder
    ensures { result ≡ exactly haswell_ex }
{
    haswell().with_tsx()
}

/// Intel's Broadwell: Haswell-EX with ADX, PREFETCHW and RDSEED.
pub fn broadwell() -> InstDecoder
    ensures { result ≡ exactly broadwell }
{
    haswell_ex().with_adx().with_prefetchw().with_rdseed()
}

/// Intel's Skylake: Broadwell with MPX and SGX, and no part of AVX-512.
pub fn skylake() -> InstDecoder
    ensures { result ≡ exactly skylake }
{
    broadwell().with_mpx().with_sgx()
}

/// Intel's Kaby Lake: the settings of Skylake.
pub fn kabylake() -> InstDecoder
    ensures { result ≡ exactly kabylake }
{
    skylake()
}
