//! AVX-512, its parts, and AVX10.1.

ghost use Rattle.std.specs.Prelude.{◌≡◌, length};
ghost use Rattle.x86_settings.specs.Bits.{is_set, with_set};
ghost use Rattle.x86_settings.specs.Settings.{avx512_4fmaps, avx512_4vnniw, avx512_bitalg, avx512_bw, avx512_cd};
ghost use Rattle.x86_settings.specs.Settings.{avx512_dq, avx512_er, avx512_f, avx512_fma, avx512_pf, avx512_vbmi};
ghost use Rattle.x86_settings.specs.Settings.{avx512_vbmi2, avx512_vl, avx512_vpopcntdq, avx512_fp16, avx512_vaes};
ghost use Rattle.x86_settings.specs.Settings.{avx512_gfni, avx512_vpclmulqdq, avx512_bf16, avx512_vnni, avx512_ifma};
ghost use Rattle.x86_settings.specs.Sets.{all_set, with_all_set};
ghost use Rattle.x86_settings.specs.Composites.{avx512, avx10_1};

use crate::bits;
use crate::decoder::InstDecoder;

impl InstDecoder {
    /// AVX512_4FMAPS: V4FMADDPS, V4FMADDSS, V4FNMADDPS and V4FNMADDSS.
    pub fn avx512_4fmaps(&self) -> bool
        ensures { result ≡ is_set self.now avx512_4fmaps }
    {
        self.bit(bits::AVX512_4FMAPS)
    }

    /// These settings with AVX512_4FMAPS.
    pub fn with_avx512_4fmaps(self) -> InstDecoder
        ensures set { result ≡ with_set self avx512_4fmaps }
        ensures long { length result ≡ 128 }
    {
        self.with_bit(bits::AVX512_4FMAPS)
    }

    /// AVX512_4VNNIW: VP4DPWSSD and VP4DPWSSDS.
    pub fn avx512_4vnniw(&self) -> bool
        ensures { result ≡ is_set self.now avx512_4vnniw }
    {
        self.bit(bits::AVX512_4VNNIW)
    }

    /// These settings with AVX512_4VNNIW.
    pub fn with_avx512_4vnniw(self) -> InstDecoder
        ensures set { result ≡ with_set self avx512_4vnniw }
        ensures long { length result ≡ 128 }
    {
        self.with_bit(bits::AVX512_4VNNIW)
    }

    /// AVX512_BITALG: VPOPCNTB, VPOPCNTW and VPSHUFBITQMB.
    pub fn avx512_bitalg(&self) -> bool
        ensures { result ≡ is_set self.now avx512_bitalg }
    {
        self.bit(bits::AVX512_BITALG)
    }

    /// These settings with AVX512_BITALG.
    pub fn with_avx512_bitalg(self) -> InstDecoder
        ensures set { result ≡ with_set self avx512_bitalg }
        ensures long { length result ≡ 128 }
    {
        self.with_bit(bits::AVX512_BITALG)
    }

    /// AVX512BW: bytes and words.
    pub fn avx512_bw(&self) -> bool
        ensures { result ≡ is_set self.now avx512_bw }
    {
        self.bit(bits::AVX512_BW)
    }

    /// These settings with AVX512BW.
    pub fn with_avx512_bw(self) -> InstDecoder
        ensures set { result ≡ with_set self avx512_bw }
        ensures long { length result ≡ 128 }
    {
        self.with_bit(bits::AVX512_BW)
    }

    /// AVX512CD: conflict detection, as VPCONFLICTD and VPLZCNTD.
    pub fn avx512_cd(&self) -> bool
        ensures { result ≡ is_set self.now avx512_cd }
    {
        self.bit(bits::AVX512_CD)
    }

    /// These settings with AVX512CD.
    pub fn with_avx512_cd(self) -> InstDecoder
        ensures set { result ≡ with_set self avx512_cd }
        ensures long { length result ≡ 128 }
    {
        self.with_bit(bits::AVX512_CD)
    }

    /// AVX512DQ: doublewords and quadwords.
    pub fn avx512_dq(&self) -> bool
        ensures { result ≡ is_set self.now avx512_dq }
    {
        self.bit(bits::AVX512_DQ)
    }

    /// These settings with AVX512DQ.
    pub fn with_avx512_dq(self) -> InstDecoder
        ensures set { result ≡ with_set self avx512_dq }
        ensures long { length result ≡ 128 }
    {
        self.with_bit(bits::AVX512_DQ)
    }

    /// AVX512ER: VEXP2PS, VRCP28PS, VRSQRT28PS and their like.
    pub fn avx512_er(&self) -> bool
        ensures { result ≡ is_set self.now avx512_er }
    {
        self.bit(bits::AVX512_ER)
    }

    /// These settings with AVX512ER.
    pub fn with_avx512_er(self) -> InstDecoder
        ensures set { result ≡ with_set self avx512_er }
        ensures long { length result ≡ 128 }
    {
        self.with_bit(bits::AVX512_ER)
    }

    /// AVX512F: the foundation of AVX-512.
    pub fn avx512_f(&self) -> bool
        ensures { result ≡ is_set self.now avx512_f }
    {
        self.bit(bits::AVX512_F)
    }

    /// These settings with AVX512F.
    pub fn with_avx512_f(self) -> InstDecoder
        ensures set { result ≡ with_set self avx512_f }
        ensures long { length result ≡ 128 }
    {
        self.with_bit(bits::AVX512_F)
    }

    /// AVX512_FMA: fused multiply and add.
    pub fn avx512_fma(&self) -> bool
        ensures { result ≡ is_set self.now avx512_fma }
    {
        self.bit(bits::AVX512_FMA)
    }

    /// These settings with AVX512_FMA.
    pub fn with_avx512_fma(self) -> InstDecoder
        ensures set { result ≡ with_set self avx512_fma }
        ensures long { length result ≡ 128 }
    {
        self.with_bit(bits::AVX512_FMA)
    }

    /// AVX512PF: prefetches by gather and scatter.
    pub fn avx512_pf(&self) -> bool
        ensures { result ≡ is_set self.now avx512_pf }
    {
        self.bit(bits::AVX512_PF)
    }

    /// These settings with AVX512PF.
    pub fn with_avx512_pf(self) -> InstDecoder
        ensures set { result ≡ with_set self avx512_pf }
        ensures long { length result ≡ 128 }
    {
        self.with_bit(bits::AVX512_PF)
    }

    /// AVX512_VBMI: VPERMB, VPERMI2B, VPERMT2B and VPMULTISHIFTQB.
    pub fn avx512_vbmi(&self) -> bool
        ensures { result ≡ is_set self.now avx512_vbmi }
    {
        self.bit(bits::AVX512_VBMI)
    }

    /// These settings with AVX512_VBMI.
    pub fn with_avx512_vbmi(self) -> InstDecoder
        ensures set { result ≡ with_set self avx512_vbmi }
        ensures long { length result ≡ 128 }
    {
        self.with_bit(bits::AVX512_VBMI)
    }

    /// AVX512_VBMI2: VPCOMPRESSB, VPEXPANDB, VPSHLDD, VPSHRDD and their like.
    pub fn avx512_vbmi2(&self) -> bool
        ensures { result ≡ is_set self.now avx512_vbmi2 }
    {
        self.bit(bits::AVX512_VBMI2)
    }

    /// These settings with AVX512_VBMI2.
    pub fn with_avx512_vbmi2(self) -> InstDecoder
        ensures set { result ≡ with_set self avx512_vbmi2 }
        ensures long { length result ≡ 128 }
    {
        self.with_bit(bits::AVX512_VBMI2)
    }

    /// AVX512VL: AVX-512 on vectors of 128 and 256 bits.
    pub fn avx512_vl(&self) -> bool
        ensures { result ≡ is_set self.now avx512_vl }
    {
        self.bit(bits::AVX512_VL)
    }

    /// These settings with AVX512VL.
    pub fn with_avx512_vl(self) -> InstDecoder
        ensures set { result ≡ with_set self avx512_vl }
        ensures long { length result ≡ 128 }
    {
        self.with_bit(bits::AVX512_VL)
    }

    /// AVX512_VPOPCNTDQ: VPOPCNTD and VPOPCNTQ.
    pub fn avx512_vpopcntdq(&self) -> bool
        ensures { result ≡ is_set self.now avx512_vpopcntdq }
    {
        self.bit(bits::AVX512_VPOPCNTDQ)
    }

    /// These settings with AVX512_VPOPCNTDQ.
    pub fn with_avx512_vpopcntdq(self) -> InstDecoder
        ensures set { result ≡ with_set self avx512_vpopcntdq }
        ensures long { length result ≡ 128 }
    {
        self.with_bit(bits::AVX512_VPOPCNTDQ)
    }

    /// AVX512_FP16: floats of 16 bits.
    pub fn avx512_fp16(&self) -> bool
        ensures { result ≡ is_set self.now avx512_fp16 }
    {
        self.bit(bits::AVX512_FP16)
    }

    /// These settings with AVX512_FP16.
    pub fn with_avx512_fp16(self) -> InstDecoder
        ensures set { result ≡ with_set self avx512_fp16 }
        ensures long { length result ≡ 128 }
    {
        self.with_bit(bits::AVX512_FP16)
    }

    /// VAES under AVX-512: VAESDEC, VAESENC and their like with an EVEX prefix.
    pub fn avx512_vaes(&self) -> bool
        ensures { result ≡ is_set self.now avx512_vaes }
    {
        self.bit(bits::AVX512_VAES)
    }

    /// These settings with VAES under AVX-512.
    pub fn with_avx512_vaes(self) -> InstDecoder
        ensures set { result ≡ with_set self avx512_vaes }
        ensures long { length result ≡ 128 }
    {
        self.with_bit(bits::AVX512_VAES)
    }

    /// GFNI under AVX-512: VGF2P8AFFINEQB, VGF2P8MULB and their like with an EVEX prefix.
    pub fn avx512_gfni(&self) -> bool
        ensures { result ≡ is_set self.now avx512_gfni }
    {
        self.bit(bits::AVX512_GFNI)
    }

    /// These settings with GFNI under AVX-512.
    pub fn with_avx512_gfni(self) -> InstDecoder
        ensures set { result ≡ with_set self avx512_gfni }
        ensures long { length result ≡ 128 }
    {
        self.with_bit(bits::AVX512_GFNI)
    }

    /// VPCLMULQDQ under AVX-512: VPCLMULQDQ with an EVEX prefix.
    pub fn avx512_vpclmulqdq(&self) -> bool
        ensures { result ≡ is_set self.now avx512_vpclmulqdq }
    {
        self.bit(bits::AVX512_VPCLMULQDQ)
    }

    /// These settings with VPCLMULQDQ under AVX-512.
    pub fn with_avx512_vpclmulqdq(self) -> InstDecoder
        ensures set { result ≡ with_set self avx512_vpclmulqdq }
        ensures long { length result ≡ 128 }
    {
        self.with_bit(bits::AVX512_VPCLMULQDQ)
    }

    /// AVX512_BF16: VCVTNE2PS2BF16, VCVTNEPS2BF16 and VDPBF16PS.
    pub fn avx512_bf16(&self) -> bool
        ensures { result ≡ is_set self.now avx512_bf16 }
    {
        self.bit(bits::AVX512_BF16)
    }

    /// These settings with AVX512_BF16.
    pub fn with_avx512_bf16(self) -> InstDecoder
        ensures set { result ≡ with_set self avx512_bf16 }
        ensures long { length result ≡ 128 }
    {
        self.with_bit(bits::AVX512_BF16)
    }

    /// AVX512_VNNI: VPDPBUSD, VPDPBUSDS, VPDPWSSD and VPDPWSSDS with an EVEX prefix.
    pub fn avx512_vnni(&self) -> bool
        ensures { result ≡ is_set self.now avx512_vnni }
    {
        self.bit(bits::AVX512_VNNI)
    }

    /// These settings with AVX512_VNNI.
    pub fn with_avx512_vnni(self) -> InstDecoder
        ensures set { result ≡ with_set self avx512_vnni }
        ensures long { length result ≡ 128 }
    {
        self.with_bit(bits::AVX512_VNNI)
    }

    /// AVX512_IFMA: VPMADD52HUQ and VPMADD52LUQ.
    pub fn avx512_ifma(&self) -> bool
        ensures { result ≡ is_set self.now avx512_ifma }
    {
        self.bit(bits::AVX512_IFMA)
    }

    /// These settings with AVX512_IFMA.
    pub fn with_avx512_ifma(self) -> InstDecoder
        ensures set { result ≡ with_set self avx512_ifma }
        ensures long { length result ≡ 128 }
    {
        self.with_bit(bits::AVX512_IFMA)
    }

    /// AVX-512: all parts from `avx512_4fmaps` to `avx512_vpopcntdq`. Those from `avx512_fp16` on
    /// aren't asked for.
    pub fn avx512(&self) -> bool
        ensures { result ≡ all_set self.now avx512 }
    {
        self.avx512_4fmaps()
            && self.avx512_4vnniw()
            && self.avx512_bitalg()
            && self.avx512_bw()
            && self.avx512_cd()
            && self.avx512_dq()
            && self.avx512_er()
            && self.avx512_f()
            && self.avx512_fma()
            && self.avx512_pf()
            && self.avx512_vbmi()
            && self.avx512_vbmi2()
            && self.avx512_vl()
            && self.avx512_vpopcntdq()
    }

    /// These settings with every member that `avx512` asks for.
    pub fn with_avx512(&self) -> InstDecoder
        ensures set { result ≡ with_all_set self.now avx512 }
        ensures long { length result ≡ 128 }
    {
        self.with_avx512_4fmaps()
            .with_avx512_4vnniw()
            .with_avx512_bitalg()
            .with_avx512_bw()
            .with_avx512_cd()
            .with_avx512_dq()
            .with_avx512_er()
            .with_avx512_f()
            .with_avx512_fma()
            .with_avx512_pf()
            .with_avx512_vbmi()
            .with_avx512_vbmi2()
            .with_avx512_vl()
            .with_avx512_vpopcntdq()
    }

    /// AVX10.1: `avx512_bitalg`, `avx512_bw`, `avx512_cd`, `avx512_dq`, `avx512_f`, `avx512_vbmi`,
    /// `avx512_vbmi2`, `avx512_vpopcntdq`, and the parts from `avx512_fp16` to `avx512_ifma`.
    pub fn avx10_1(&self) -> bool
        ensures { result ≡ all_set self.now avx10_1 }
    {
        self.avx512_bitalg()
            && self.avx512_bw()
            && self.avx512_cd()
            && self.avx512_dq()
            && self.avx512_f()
            && self.avx512_vbmi()
            && self.avx512_vbmi2()
            && self.avx512_vpopcntdq()
            && self.avx512_fp16()
            && self.avx512_vaes()
            && self.avx512_gfni()
            && self.avx512_vpclmulqdq()
            && self.avx512_bf16()
            && self.avx512_vnni()
            && self.avx512_ifma()
    }

    /// These settings with every member that `avx10_1` asks for.
    pub fn with_avx10_1(&self) -> InstDecoder
        ensures set { result ≡ with_all_set self.now avx10_1 }
        ensures long { length result ≡ 128 }
    {
        self.with_avx512_bitalg()
            .with_avx512_bw()
            .with_avx512_cd()
            .with_avx512_dq()
            .with_avx512_f()
            .with_avx512_vbmi()
            .with_avx512_vbmi2()
            .with_avx512_vpopcntdq()
            .with_avx512_fp16()
            .with_avx512_vaes()
            .with_avx512_gfni()
            .with_avx512_vpclmulqdq()
            .with_avx512_bf16()
            .with_avx512_vnni()
            .with_avx512_ifma()
    }
}
