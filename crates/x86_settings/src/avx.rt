//! AVX and what came with it on 128 and 256 bits.

ghost use Rattle.std.specs.Prelude.{◌≡◌, length};
ghost use Rattle.x86_settings.specs.Bits.{is_set, with_set};
ghost use Rattle.x86_settings.specs.Settings.{avx, avx2, avx_vnni, f16c, fma3};

use crate::bits;
use crate::decoder::InstDecoder;

impl InstDecoder {
    /// AVX: the VEX instructions on vectors of 128 and 256 bits.
    pub fn avx(&self) -> bool
        ensures { result ≡ is_set self.now avx }
    {
        self.bit(bits::AVX)
    }

    /// These settings with AVX.
    pub fn with_avx(self) -> InstDecoder
        ensures set { result ≡ with_set self avx }
        ensures long { length result ≡ 128 }
    {
        self.with_bit(bits::AVX)
    }

    /// AVX2: integers in vectors of 256 bits, and gathers. No condition reads it: these opcodes need `avx` alone.
    pub fn avx2(&self) -> bool
        ensures { result ≡ is_set self.now avx2 }
    {
        self.bit(bits::AVX2)
    }

    /// These settings with AVX2.
    pub fn with_avx2(self) -> InstDecoder
        ensures set { result ≡ with_set self avx2 }
        ensures long { length result ≡ 128 }
    {
        self.with_bit(bits::AVX2)
    }

    /// AVX-VNNI: VPDPBUSD, VPDPBUSDS, VPDPWSSD and VPDPWSSDS with a VEX prefix.
    pub fn avx_vnni(&self) -> bool
        ensures { result ≡ is_set self.now avx_vnni }
    {
        self.bit(bits::AVX_VNNI)
    }

    /// These settings with AVX-VNNI.
    pub fn with_avx_vnni(self) -> InstDecoder
        ensures set { result ≡ with_set self avx_vnni }
        ensures long { length result ≡ 128 }
    {
        self.with_bit(bits::AVX_VNNI)
    }

    /// F16C: VCVTPH2PS and VCVTPS2PH.
    pub fn f16c(&self) -> bool
        ensures { result ≡ is_set self.now f16c }
    {
        self.bit(bits::F16C)
    }

    /// These settings with F16C.
    pub fn with_f16c(self) -> InstDecoder
        ensures set { result ≡ with_set self f16c }
        ensures long { length result ≡ 128 }
    {
        self.with_bit(bits::F16C)
    }

    /// FMA3: fused multiply and add of three operands, as VFMADD132PS. No condition reads it: these opcodes need `avx`
    /// alone.
    pub fn fma3(&self) -> bool
        ensures { result ≡ is_set self.now fma3 }
    {
        self.bit(bits::FMA3)
    }

    /// These settings with FMA3.
    pub fn with_fma3(self) -> InstDecoder
        ensures set { result ≡ with_set self fma3 }
        ensures long { length result ≡ 128 }
    {
        self.with_bit(bits::FMA3)
    }
}
