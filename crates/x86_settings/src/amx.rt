//! AMX: matrices in tile registers.

ghost use Rattle.std.specs.Prelude.{◌≡◌, length};
ghost use Rattle.x86_settings.specs.Bits.{is_set, with_set};
ghost use Rattle.x86_settings.specs.Settings.{amx, amx_bf16, amx_tile, amx_int8, amx_fp16, amx_ifma, amx_ne_convert};
ghost use Rattle.x86_settings.specs.Settings.{amx_vnni_int8, amx_complex, amx_vnni_int16, amx_movrs, amx_fp8, amx_tf32};

use crate::bits;
use crate::decoder::InstDecoder;

impl InstDecoder {
    /// AMX: matrices in tile registers.
    pub fn amx(&self) -> bool
        ensures { result ≡ is_set self.now amx }
    {
        self.bit(bits::AMX)
    }

    /// These settings with AMX.
    pub fn with_amx(self) -> InstDecoder
        ensures set { result ≡ with_set self amx }
        ensures long { length result ≡ 128 }
    {
        self.with_bit(bits::AMX)
    }

    /// AMX-BF16: TDPBF16PS.
    pub fn amx_bf16(&self) -> bool
        ensures { result ≡ is_set self.now amx_bf16 }
    {
        self.bit(bits::AMX_BF16)
    }

    /// These settings with AMX-BF16.
    pub fn with_amx_bf16(self) -> InstDecoder
        ensures set { result ≡ with_set self amx_bf16 }
        ensures long { length result ≡ 128 }
    {
        self.with_bit(bits::AMX_BF16)
    }

    /// AMX-TILE: LDTILECFG, STTILECFG, TILELOADD, TILESTORED, TILEZERO and their like.
    pub fn amx_tile(&self) -> bool
        ensures { result ≡ is_set self.now amx_tile }
    {
        self.bit(bits::AMX_TILE)
    }

    /// These settings with AMX-TILE.
    pub fn with_amx_tile(self) -> InstDecoder
        ensures set { result ≡ with_set self amx_tile }
        ensures long { length result ≡ 128 }
    {
        self.with_bit(bits::AMX_TILE)
    }

    /// AMX-INT8: TDPBSSD, TDPBSUD, TDPBUSD and TDPBUUD.
    pub fn amx_int8(&self) -> bool
        ensures { result ≡ is_set self.now amx_int8 }
    {
        self.bit(bits::AMX_INT8)
    }

    /// These settings with AMX-INT8.
    pub fn with_amx_int8(self) -> InstDecoder
        ensures set { result ≡ with_set self amx_int8 }
        ensures long { length result ≡ 128 }
    {
        self.with_bit(bits::AMX_INT8)
    }

    /// AMX-FP16: TDPFP16PS.
    pub fn amx_fp16(&self) -> bool
        ensures { result ≡ is_set self.now amx_fp16 }
    {
        self.bit(bits::AMX_FP16)
    }

    /// These settings with AMX-FP16.
    pub fn with_amx_fp16(self) -> InstDecoder
        ensures set { result ≡ with_set self amx_fp16 }
        ensures long { length result ≡ 128 }
    {
        self.with_bit(bits::AMX_FP16)
    }

    /// AMX-IFMA: fused multiply and add of integers.
    pub fn amx_ifma(&self) -> bool
        ensures { result ≡ is_set self.now amx_ifma }
    {
        self.bit(bits::AMX_IFMA)
    }

    /// These settings with AMX-IFMA.
    pub fn with_amx_ifma(self) -> InstDecoder
        ensures set { result ≡ with_set self amx_ifma }
        ensures long { length result ≡ 128 }
    {
        self.with_bit(bits::AMX_IFMA)
    }

    /// AMX-NE-CONVERT: conversions that raise no exception.
    pub fn amx_ne_convert(&self) -> bool
        ensures { result ≡ is_set self.now amx_ne_convert }
    {
        self.bit(bits::AMX_NE_CONVERT)
    }

    /// These settings with AMX-NE-CONVERT.
    pub fn with_amx_ne_convert(self) -> InstDecoder
        ensures set { result ≡ with_set self amx_ne_convert }
        ensures long { length result ≡ 128 }
    {
        self.with_bit(bits::AMX_NE_CONVERT)
    }

    /// AMX-VNNI-INT8: dot products of bytes.
    /// Shares its bit with `amx_complex` and `amx_vnni_int16`.
    pub fn amx_vnni_int8(&self) -> bool
        ensures { result ≡ is_set self.now amx_vnni_int8 }
    {
        self.bit(bits::AMX_VNNI_INT8)
    }

    /// These settings with AMX-VNNI-INT8, and so with `amx_complex` and `amx_vnni_int16`.
    pub fn with_amx_vnni_int8(self) -> InstDecoder
        ensures set { result ≡ with_set self amx_vnni_int8 }
        ensures long { length result ≡ 128 }
    {
        self.with_bit(bits::AMX_VNNI_INT8)
    }

    /// AMX-COMPLEX: TCMMIMFP16PS and TCMMRLFP16PS.
    /// Shares its bit with `amx_vnni_int8` and `amx_vnni_int16`.
    pub fn amx_complex(&self) -> bool
        ensures { result ≡ is_set self.now amx_complex }
    {
        self.bit(bits::AMX_COMPLEX)
    }

    /// These settings with AMX-COMPLEX, and so with `amx_vnni_int8` and `amx_vnni_int16`.
    pub fn with_amx_complex(self) -> InstDecoder
        ensures set { result ≡ with_set self amx_complex }
        ensures long { length result ≡ 128 }
    {
        self.with_bit(bits::AMX_COMPLEX)
    }

    /// AMX-VNNI-INT16: dot products of words.
    /// Shares its bit with `amx_vnni_int8` and `amx_complex`.
    pub fn amx_vnni_int16(&self) -> bool
        ensures { result ≡ is_set self.now amx_vnni_int16 }
    {
        self.bit(bits::AMX_VNNI_INT16)
    }

    /// These settings with AMX-VNNI-INT16, and so with `amx_vnni_int8` and `amx_complex`.
    pub fn with_amx_vnni_int16(self) -> InstDecoder
        ensures set { result ≡ with_set self amx_vnni_int16 }
        ensures long { length result ≡ 128 }
    {
        self.with_bit(bits::AMX_VNNI_INT16)
    }

    /// AMX-MOVRS: TILELOADDRS and TILELOADDRST1.
    pub fn amx_movrs(&self) -> bool
        ensures { result ≡ is_set self.now amx_movrs }
    {
        self.bit(bits::AMX_MOVRS)
    }

    /// These settings with AMX-MOVRS, the setter of `amx_movrs`.
    pub fn with_avx_movrs(self) -> InstDecoder
        ensures set { result ≡ with_set self amx_movrs }
        ensures long { length result ≡ 128 }
    {
        self.with_bit(bits::AMX_MOVRS)
    }

    /// AMX-FP8: TDPBF8PS, TDPBHF8PS, TDPHBF8PS and TDPHF8PS.
    pub fn amx_fp8(&self) -> bool
        ensures { result ≡ is_set self.now amx_fp8 }
    {
        self.bit(bits::AMX_FP8)
    }

    /// These settings with AMX-FP8.
    pub fn with_amx_fp8(self) -> InstDecoder
        ensures set { result ≡ with_set self amx_fp8 }
        ensures long { length result ≡ 128 }
    {
        self.with_bit(bits::AMX_FP8)
    }

    /// AMX-TF32: TMMULTF32PS.
    pub fn amx_tf32(&self) -> bool
        ensures { result ≡ is_set self.now amx_tf32 }
    {
        self.bit(bits::AMX_TF32)
    }

    /// These settings with AMX-TF32.
    pub fn with_amx_tf32(self) -> InstDecoder
        ensures set { result ≡ with_set self amx_tf32 }
        ensures long { length result ≡ 128 }
    {
        self.with_bit(bits::AMX_TF32)
    }
}
