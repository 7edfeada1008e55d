//! The place of each setting's bit. Where several have the same place, each of them is set with the others.

/// 3DNow!
pub const _3DNOW: u8 = 1;

/// 3DNow! prefetch.
pub const _3DNOWPREFETCH: u8 = 2;

/// ABM.
pub const ABM: u8 = 3;

/// ADX.
pub const ADX: u8 = 4;

/// AES-NI.
pub const AESNI: u8 = 5;

/// AMD's quirks.
pub const AMD_QUIRKS: u8 = 6;

/// AVX.
pub const AVX: u8 = 7;

/// AVX2.
pub const AVX2: u8 = 8;

/// AVX512_4FMAPS.
pub const AVX512_4FMAPS: u8 = 10;

/// AVX512_4VNNIW.
pub const AVX512_4VNNIW: u8 = 11;

/// AVX512_BITALG.
pub const AVX512_BITALG: u8 = 12;

/// AVX512BW.
pub const AVX512_BW: u8 = 13;

/// AVX512CD.
pub const AVX512_CD: u8 = 14;

/// AVX512DQ.
pub const AVX512_DQ: u8 = 15;

/// AVX512ER.
pub const AVX512_ER: u8 = 16;

/// AVX512F.
pub const AVX512_F: u8 = 17;

/// AVX512_FMA.
pub const AVX512_FMA: u8 = 18;

/// AVX512PF.
pub const AVX512_PF: u8 = 19;

/// AVX512_VBMI.
pub const AVX512_VBMI: u8 = 20;

/// AVX512_VBMI2.
pub const AVX512_VBMI2: u8 = 21;

/// AVX512VL.
pub const AVX512_VL: u8 = 22;

/// AVX512_VPOPCNTDQ.
pub const AVX512_VPOPCNTDQ: u8 = 23;

/// AVX-VNNI.
pub const AVX_VNNI: u8 = 24;

/// BMI1.
pub const BMI1: u8 = 25;

/// BMI2.
pub const BMI2: u8 = 26;

/// CLFLUSHOPT.
pub const CLFLUSHOPT: u8 = 27;

/// CLWB.
pub const CLWB: u8 = 28;

/// CMOV.
pub const CMOV: u8 = 29;

/// CMPXCHG16B.
pub const CMPXCHG16B: u8 = 30;

/// CX8.
pub const CX8: u8 = 31;

/// F16C.
pub const F16C: u8 = 32;

/// FMA3.
pub const FMA3: u8 = 33;

/// FMA4.
pub const FMA4: u8 = 34;

/// GFNI.
pub const GFNI: u8 = 35;

/// Intel's quirks.
pub const INTEL_QUIRKS: u8 = 36;

/// INVPCID.
pub const INVPCID: u8 = 37;

/// LAHFSAHF.
pub const LAHFSAHF: u8 = 38;

/// LZCNT.
pub const LZCNT: u8 = 39;

/// MONITOR.
pub const MONITOR: u8 = 40;

/// MOVBE.
pub const MOVBE: u8 = 41;

/// MPX.
pub const MPX: u8 = 42;

/// PCLMULQDQ.
pub const PCLMULQDQ: u8 = 43;

/// PCOMMIT.
pub const PCOMMIT: u8 = 44;

/// POPCNT.
pub const POPCNT: u8 = 45;

/// PREFETCHW.
pub const PREFETCHW: u8 = 46;

/// PREFETCHWT1.
pub const PREFETCHWT1: u8 = 47;

/// RDRAND.
pub const RDRAND: u8 = 48;

/// RDSEED.
pub const RDSEED: u8 = 49;

/// RDTSCP.
pub const RDTSCP: u8 = 50;

/// SGX.
pub const SGX: u8 = 51;

/// SHA.
pub const SHA: u8 = 52;

/// SKINIT.
pub const SKINIT: u8 = 53;

/// SSE3.
pub const SSE3: u8 = 54;

/// SSE4.1.
pub const SSE4_1: u8 = 55;

/// SSE4.2.
pub const SSE4_2: u8 = 56;

/// SSE4a.
pub const SSE4A: u8 = 57;

/// SSSE3.
pub const SSSE3: u8 = 58;

/// SVM.
pub const SVM: u8 = 59;

/// SYSCALL.
pub const SYSCALL: u8 = 60;

/// TBM.
pub const TBM: u8 = 61;

/// TSX.
pub const TSX: u8 = 62;

/// VAES.
pub const VAES: u8 = 63;

/// VMX.
pub const VMX: u8 = 64;

/// XOP.
pub const XOP: u8 = 65;

/// XSAVE.
pub const XSAVE: u8 = 66;

/// XSAVEC.
pub const XSAVEC: u8 = 67;

/// XSAVES.
pub const XSAVES: u8 = 68;

/// XSAVEOPT.
pub const XSAVEOPT: u8 = 69;

/// FSGSBASE.
pub const FSGSBASE: u8 = 70;

/// MONITORX.
pub const MONITORX: u8 = 71;

/// WBNOINVD.
pub const WBNOINVD: u8 = 72;

/// CLZERO.
pub const CLZERO: u8 = 72;

/// RDPID.
pub const RDPID: u8 = 73;

/// VPCLMULQDQ.
pub const VPCLMULQDQ: u8 = 74;

/// MOVDIR64B.
pub const MOVDIR64B: u8 = 75;

/// ENQCMD.
pub const ENQCMD: u8 = 76;

/// AMX.
pub const AMX: u8 = 77;

/// AMX-BF16.
pub const AMX_BF16: u8 = 78;

/// AMX-TILE.
pub const AMX_TILE: u8 = 79;

/// AMX-INT8.
pub const AMX_INT8: u8 = 80;

/// AMX-FP16.
pub const AMX_FP16: u8 = 81;

/// AMX-IFMA.
pub const AMX_IFMA: u8 = 82;

/// AMX-NE-CONVERT.
pub const AMX_NE_CONVERT: u8 = 83;

/// AMX-VNNI-INT8.
pub const AMX_VNNI_INT8: u8 = 84;

/// AMX-COMPLEX.
pub const AMX_COMPLEX: u8 = 84;

/// AMX-VNNI-INT16.
pub const AMX_VNNI_INT16: u8 = 84;

/// AMX-MOVRS.
pub const AMX_MOVRS: u8 = 85;

/// AMX-FP8.
pub const AMX_FP8: u8 = 86;

/// AMX-TF32.
pub const AMX_TF32: u8 = 87;

/// SM3.
pub const SM3: u8 = 90;

/// SM4.
pub const SM4: u8 = 91;

/// SM4 with an EVEX prefix.
pub const SM4_EVEX: u8 = 92;

/// APX.
pub const APX: u8 = 99;

/// FRED.
pub const FRED: u8 = 101;

/// USER_MSR.
pub const URDMSR: u8 = 101;

/// MSR_IMM.
pub const IMMEDIATE_RDMSR: u8 = 102;

/// MOVRS.
pub const MOVRS: u8 = 103;

/// AVX512_FP16.
pub const AVX512_FP16: u8 = 104;

/// VAES under AVX-512.
pub const AVX512_VAES: u8 = 105;

/// GFNI under AVX-512.
pub const AVX512_GFNI: u8 = 106;

/// VPCLMULQDQ under AVX-512.
pub const AVX512_VPCLMULQDQ: u8 = 107;

/// AVX512_BF16.
pub const AVX512_BF16: u8 = 108;

/// AVX512_VNNI.
pub const AVX512_VNNI: u8 = 109;

/// AVX512_IFMA.
pub const AVX512_IFMA: u8 = 110;

/// Key Locker.
pub const KEYLOCKER: u8 = 111;

/// HRESET.
pub const HRESET: u8 = 112;
