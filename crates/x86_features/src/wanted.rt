//! A second copy of both tables, to compare the crate's answers with: the opcodes by what the manual's column "CPUID
//! Feature Flag" says of them, in the order of its headings, and the processors by feature. Nothing here is made from
//! the tables.

use crate::Feature;

/// Opcodes whose lines name the same features.
pub struct Heading {
    /// What the lines of 128 bits name without an operand in memory, and with one.
    pub short: [&'static [Feature]; 2],
    /// What the lines of 256 bits name without an operand in memory, and with one.
    pub long: [&'static [Feature]; 2],
    /// The opcodes.
    pub names: &'static [&'static str],
}

const AVX: &[Feature] = &[Feature::Avx];

const AVX2: &[Feature] = &[Feature::Avx2];

const FMA: &[Feature] = &[Feature::Fma];

const F16C: &[Feature] = &[Feature::F16c];

const BMI1: &[Feature] = &[Feature::Bmi1];

const BMI2: &[Feature] = &[Feature::Bmi2];

const VAES: &[Feature] = &[Feature::Vaes];

const AES_AND_AVX: &[Feature] = &[Feature::Aes, Feature::Avx];

const PCLMULQDQ_AND_AVX: &[Feature] = &[Feature::Pclmulqdq, Feature::Avx];

/// The headings, with what they have in common.
#[rattlefmt::skip]
pub static HEADINGS: [Heading; 11] = [
    // ADDPD to XORPS, with a VEX prefix at both lengths or at 128 bits alone, and what came with AVX.
    Heading { short: [AVX, AVX], long: [AVX, AVX], names: &[
        "VADDPD", "VADDPS", "VADDSD", "VADDSS", "VADDSUBPD", "VADDSUBPS", "VANDPD", "VANDPS", "VANDNPD", "VANDNPS",
        "VBLENDPD", "VBLENDPS", "VBLENDVPD", "VBLENDVPS", "VBROADCASTF128", "VCMPPD", "VCMPPS", "VCMPSD", "VCMPSS",
        "VCOMISD", "VCOMISS", "VCVTDQ2PD", "VCVTDQ2PS", "VCVTPD2DQ", "VCVTPD2PS", "VCVTPS2DQ", "VCVTPS2PD",
        "VCVTSD2SI", "VCVTSD2SS", "VCVTSI2SD", "VCVTSI2SS", "VCVTSS2SD", "VCVTSS2SI", "VCVTTPD2DQ", "VCVTTPS2DQ",
        "VCVTTSD2SI", "VCVTTSS2SI", "VDIVPD", "VDIVPS", "VDIVSD", "VDIVSS", "VDPPD", "VDPPS", "VEXTRACTF128",
        "VEXTRACTPS", "VHADDPD", "VHADDPS", "VHSUBPD", "VHSUBPS", "VINSERTF128", "VINSERTPS", "VLDDQU", "VLDMXCSR",
        "VMASKMOVDQU", "VMASKMOVPD", "VMASKMOVPS", "VMAXPD", "VMAXPS", "VMAXSD", "VMAXSS", "VMINPD", "VMINPS",
        "VMINSD", "VMINSS", "VMOVAPD", "VMOVAPS", "VMOVD", "VMOVQ", "VMOVDDUP", "VMOVDQA", "VMOVDQU", "VMOVHLPS",
        "VMOVHPD", "VMOVHPS", "VMOVLHPS", "VMOVLPD", "VMOVLPS", "VMOVMSKPD", "VMOVMSKPS", "VMOVNTDQ", "VMOVNTPD",
        "VMOVNTPS", "VMOVSD", "VMOVSHDUP", "VMOVSLDUP", "VMOVSS", "VMOVUPD", "VMOVUPS", "VMULPD", "VMULPS", "VMULSD",
        "VMULSS", "VORPD", "VORPS", "VPCMPESTRI", "VPCMPESTRM", "VPCMPISTRI", "VPCMPISTRM", "VPERM2F128",
        "VPERMILPD", "VPERMILPS", "VPEXTRB", "VPEXTRD", "VPEXTRQ", "VPEXTRW", "VPHMINPOSUW", "VPINSRB", "VPINSRD",
        "VPINSRQ", "VPINSRW", "VPTEST", "VRCPPS", "VRCPSS", "VROUNDPD", "VROUNDPS", "VROUNDSD", "VROUNDSS",
        "VRSQRTPS", "VRSQRTSS", "VSHUFPD", "VSHUFPS", "VSQRTPD", "VSQRTPS", "VSQRTSD", "VSQRTSS", "VSTMXCSR",
        "VSUBPD", "VSUBPS", "VSUBSD", "VSUBSS", "VTESTPD", "VTESTPS", "VUCOMISD", "VUCOMISS", "VUNPCKHPD",
        "VUNPCKHPS", "VUNPCKLPD", "VUNPCKLPS", "VXORPD", "VXORPS", "VZEROALL", "VZEROUPPER",
    ] },
    // MOVNTDQA to PXOR with a VEX prefix: AVX2 gave them 256 bits.
    Heading { short: [AVX, AVX], long: [AVX2, AVX2], names: &[
        "VMOVNTDQA", "VMPSADBW", "VPABSB", "VPABSW", "VPABSD", "VPACKSSWB", "VPACKSSDW", "VPACKUSDW", "VPACKUSWB",
        "VPADDB", "VPADDW", "VPADDD", "VPADDQ", "VPADDSB", "VPADDSW", "VPADDUSB", "VPADDUSW", "VPALIGNR", "VPAND",
        "VPANDN", "VPAVGB", "VPAVGW", "VPBLENDVB", "VPBLENDW", "VPCMPEQB", "VPCMPEQW", "VPCMPEQD", "VPCMPEQQ",
        "VPCMPGTB", "VPCMPGTW", "VPCMPGTD", "VPCMPGTQ", "VPHADDW", "VPHADDD", "VPHADDSW", "VPHSUBW", "VPHSUBD",
        "VPHSUBSW", "VPMADDUBSW", "VPMADDWD", "VPMAXSB", "VPMAXSW", "VPMAXSD", "VPMAXUB", "VPMAXUW", "VPMAXUD",
        "VPMINSB", "VPMINSW", "VPMINSD", "VPMINUB", "VPMINUW", "VPMINUD", "VPMOVMSKB", "VPMOVSXBW", "VPMOVSXBD",
        "VPMOVSXBQ", "VPMOVSXWD", "VPMOVSXWQ", "VPMOVSXDQ", "VPMOVZXBW", "VPMOVZXBD", "VPMOVZXBQ", "VPMOVZXWD",
        "VPMOVZXWQ", "VPMOVZXDQ", "VPMULDQ", "VPMULHRSW", "VPMULHUW", "VPMULHW", "VPMULLD", "VPMULLW", "VPMULUDQ",
        "VPOR", "VPSADBW", "VPSHUFB", "VPSHUFD", "VPSHUFHW", "VPSHUFLW", "VPSIGNB", "VPSIGNW", "VPSIGND", "VPSLLDQ",
        "VPSLLW", "VPSLLD", "VPSLLQ", "VPSRAW", "VPSRAD", "VPSRLDQ", "VPSRLW", "VPSRLD", "VPSRLQ", "VPSUBB",
        "VPSUBW", "VPSUBD", "VPSUBQ", "VPSUBSB", "VPSUBSW", "VPSUBUSB", "VPSUBUSW", "VPUNPCKHBW", "VPUNPCKHWD",
        "VPUNPCKHDQ", "VPUNPCKHQDQ", "VPUNPCKLBW", "VPUNPCKLWD", "VPUNPCKLDQ", "VPUNPCKLQDQ", "VPXOR",
    ] },
    // VBROADCAST.
    Heading { short: [AVX2, AVX], long: [AVX2, AVX], names: &["VBROADCASTSS", "VBROADCASTSD"] },
    // What came with AVX2.
    Heading { short: [AVX2, AVX2], long: [AVX2, AVX2], names: &[
        "VBROADCASTI128", "VEXTRACTI128", "VGATHERDPD", "VGATHERQPD", "VGATHERDPS", "VGATHERQPS", "VINSERTI128",
        "VPBLENDD", "VPBROADCASTB", "VPBROADCASTW", "VPBROADCASTD", "VPBROADCASTQ", "VPERM2I128", "VPERMD", "VPERMPD",
        "VPERMPS", "VPERMQ", "VPGATHERDD", "VPGATHERQD", "VPGATHERDQ", "VPGATHERQQ", "VPMASKMOVD", "VPMASKMOVQ",
        "VPSLLVD", "VPSLLVQ", "VPSRAVD", "VPSRLVD", "VPSRLVQ",
    ] },
    // VFMADD132PD to VFNMSUB231SS.
    Heading { short: [FMA, FMA], long: [FMA, FMA], names: &[
        "VFMADD132PD", "VFMADD213PD", "VFMADD231PD", "VFMADD132PS", "VFMADD213PS", "VFMADD231PS", "VFMADD132SD",
        "VFMADD213SD", "VFMADD231SD", "VFMADD132SS", "VFMADD213SS", "VFMADD231SS", "VFMADDSUB132PD",
        "VFMADDSUB213PD", "VFMADDSUB231PD", "VFMADDSUB132PS", "VFMADDSUB213PS", "VFMADDSUB231PS", "VFMSUB132PD",
        "VFMSUB213PD", "VFMSUB231PD", "VFMSUB132PS", "VFMSUB213PS", "VFMSUB231PS", "VFMSUB132SD", "VFMSUB213SD",
        "VFMSUB231SD", "VFMSUB132SS", "VFMSUB213SS", "VFMSUB231SS", "VFMSUBADD132PD", "VFMSUBADD213PD",
        "VFMSUBADD231PD", "VFMSUBADD132PS", "VFMSUBADD213PS", "VFMSUBADD231PS", "VFNMADD132PD", "VFNMADD213PD",
        "VFNMADD231PD", "VFNMADD132PS", "VFNMADD213PS", "VFNMADD231PS", "VFNMADD132SD", "VFNMADD213SD",
        "VFNMADD231SD", "VFNMADD132SS", "VFNMADD213SS", "VFNMADD231SS", "VFNMSUB132PD", "VFNMSUB213PD",
        "VFNMSUB231PD", "VFNMSUB132PS", "VFNMSUB213PS", "VFNMSUB231PS", "VFNMSUB132SD", "VFNMSUB213SD",
        "VFNMSUB231SD", "VFNMSUB132SS", "VFNMSUB213SS", "VFNMSUB231SS",
    ] },
    // VCVTPH2PS, VCVTPS2PH.
    Heading { short: [F16C, F16C], long: [F16C, F16C], names: &["VCVTPH2PS", "VCVTPS2PH"] },
    // ANDN to BLSR.
    Heading { short: [BMI1, BMI1], long: [BMI1, BMI1], names: &["ANDN", "BEXTR", "BLSI", "BLSMSK", "BLSR"] },
    // BZHI to SARX, SHLX, SHRX.
    Heading { short: [BMI2, BMI2], long: [BMI2, BMI2], names: &[
        "BZHI", "MULX", "PDEP", "PEXT", "RORX", "SARX", "SHLX", "SHRX",
    ] },
    // AESDEC to AESENCLAST with a VEX prefix.
    Heading { short: [AES_AND_AVX, AES_AND_AVX], long: [VAES, VAES], names: &[
        "VAESDEC", "VAESDECLAST", "VAESENC", "VAESENCLAST",
    ] },
    // AESIMC, AESKEYGENASSIST with a VEX prefix.
    Heading { short: [AES_AND_AVX, AES_AND_AVX], long: [AES_AND_AVX, AES_AND_AVX], names: &[
        "VAESIMC", "VAESKEYGENASSIST",
    ] },
    // PCLMULQDQ with a VEX prefix.
    Heading { short: [PCLMULQDQ_AND_AVX, PCLMULQDQ_AND_AVX], long: [PCLMULQDQ_AND_AVX, PCLMULQDQ_AND_AVX], names: &[
        "VPCLMULQDQ",
    ] },
];

/// Each feature with the processors that have it, by their names.
#[rattlefmt::skip]
pub static HOLDERS: [(Feature, &[&str]); 11] = [
    (Feature::Avx, &[
        "sandybridge", "ivybridge", "haswell", "haswell_ex", "broadwell", "skylake", "kabylake", "bulldozer",
        "piledriver", "steamroller", "excavator", "zen", "zen2", "zen3", "zen4", "zen5",
    ]),
    (Feature::Avx2, &[
        "haswell", "haswell_ex", "broadwell", "skylake", "kabylake", "excavator", "zen", "zen2", "zen3", "zen4", "zen5",
    ]),
    (Feature::Fma, &[
        "haswell", "haswell_ex", "broadwell", "skylake", "kabylake", "piledriver", "steamroller", "excavator", "zen",
        "zen2", "zen3", "zen4", "zen5",
    ]),
    (Feature::F16c, &[
        "ivybridge", "haswell", "haswell_ex", "broadwell", "skylake", "kabylake", "piledriver", "steamroller",
        "excavator", "zen", "zen2", "zen3", "zen4", "zen5",
    ]),
    (Feature::Bmi1, &[
        "haswell", "haswell_ex", "broadwell", "skylake", "kabylake", "piledriver", "steamroller", "excavator", "zen",
        "zen2", "zen3", "zen4", "zen5",
    ]),
    (Feature::Bmi2, &[
        "haswell", "haswell_ex", "broadwell", "skylake", "kabylake", "excavator", "zen", "zen2", "zen3", "zen4", "zen5",
    ]),
    (Feature::Aes, &[
        "westmere", "sandybridge", "ivybridge", "haswell", "haswell_ex", "broadwell", "skylake", "kabylake",
        "bulldozer", "piledriver", "steamroller", "excavator", "zen", "zen2", "zen3", "zen4", "zen5",
    ]),
    (Feature::Vaes, &["zen3", "zen4", "zen5"]),
    (Feature::Pclmulqdq, &[
        "westmere", "sandybridge", "ivybridge", "haswell", "haswell_ex", "broadwell", "skylake", "kabylake",
        "bulldozer", "piledriver", "steamroller", "excavator", "zen", "zen2", "zen3", "zen4", "zen5",
    ]),
    (Feature::Avx512F, &["zen4", "zen5"]),
    (Feature::Avx512Vl, &["zen4", "zen5"]),
];
