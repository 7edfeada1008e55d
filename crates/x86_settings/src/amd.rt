//! Extensions that AMD alone has.

ghost use Rattle.std.specs.Prelude.{◌≡◌, length};
ghost use Rattle.x86_settings.specs.Bits.{is_set, with_set};
ghost use Rattle.x86_settings.specs.Settings.{_3dnow, _3dnowprefetch, abm, fma4, skinit, sse4a, svm, tbm, xop};
ghost use Rattle.x86_settings.specs.Settings.{monitorx, clzero};

use crate::bits;
use crate::decoder::InstDecoder;

impl InstDecoder {
    /// 3DNow!: AMD's packed floats in MMX registers, as PFADD and PFMUL.
    pub fn _3dnow(&self) -> bool
        ensures { result ≡ is_set self.now _3dnow }
    {
        self.bit(bits::_3DNOW)
    }

    /// These settings with 3DNow!, the setter of `_3dnow`.
    pub fn with_3dnow(self) -> InstDecoder
        ensures set { result ≡ with_set self _3dnow }
        ensures long { length result ≡ 128 }
    {
        self.with_bit(bits::_3DNOW)
    }

    /// 3DNow! prefetch: PREFETCH and PREFETCHW.
    pub fn _3dnowprefetch(&self) -> bool
        ensures { result ≡ is_set self.now _3dnowprefetch }
    {
        self.bit(bits::_3DNOWPREFETCH)
    }

    /// These settings with 3DNow! prefetch, the setter of `_3dnowprefetch`.
    pub fn with_3dnowprefetch(self) -> InstDecoder
        ensures set { result ≡ with_set self _3dnowprefetch }
        ensures long { length result ≡ 128 }
    {
        self.with_bit(bits::_3DNOWPREFETCH)
    }

    /// ABM, which LZCNT needs beside `lzcnt` where `amd_quirks` is set. POPCNT doesn't read it.
    pub fn abm(&self) -> bool
        ensures { result ≡ is_set self.now abm }
    {
        self.bit(bits::ABM)
    }

    /// These settings with ABM.
    pub fn with_abm(self) -> InstDecoder
        ensures set { result ≡ with_set self abm }
        ensures long { length result ≡ 128 }
    {
        self.with_bit(bits::ABM)
    }

    /// FMA4: AMD's fused multiply and add of four operands, as VFMADDPS.
    pub fn fma4(&self) -> bool
        ensures { result ≡ is_set self.now fma4 }
    {
        self.bit(bits::FMA4)
    }

    /// These settings with FMA4.
    pub fn with_fma4(self) -> InstDecoder
        ensures set { result ≡ with_set self fma4 }
        ensures long { length result ≡ 128 }
    {
        self.with_bit(bits::FMA4)
    }

    /// SKINIT: SKINIT and STGI.
    pub fn skinit(&self) -> bool
        ensures { result ≡ is_set self.now skinit }
    {
        self.bit(bits::SKINIT)
    }

    /// These settings with SKINIT.
    pub fn with_skinit(self) -> InstDecoder
        ensures set { result ≡ with_set self skinit }
        ensures long { length result ≡ 128 }
    {
        self.with_bit(bits::SKINIT)
    }

    /// SSE4a: AMD's EXTRQ, INSERTQ, MOVNTSD and MOVNTSS.
    pub fn sse4a(&self) -> bool
        ensures { result ≡ is_set self.now sse4a }
    {
        self.bit(bits::SSE4A)
    }

    /// These settings with SSE4a.
    pub fn with_sse4a(self) -> InstDecoder
        ensures set { result ≡ with_set self sse4a }
        ensures long { length result ≡ 128 }
    {
        self.with_bit(bits::SSE4A)
    }

    /// SVM: AMD's virtual machines, as VMRUN, VMLOAD, VMSAVE and CLGI.
    pub fn svm(&self) -> bool
        ensures { result ≡ is_set self.now svm }
    {
        self.bit(bits::SVM)
    }

    /// These settings with SVM.
    pub fn with_svm(self) -> InstDecoder
        ensures set { result ≡ with_set self svm }
        ensures long { length result ≡ 128 }
    {
        self.with_bit(bits::SVM)
    }

    /// TBM: AMD's trailing bits, as BLCFILL, BLSFILL and TZMSK.
    pub fn tbm(&self) -> bool
        ensures { result ≡ is_set self.now tbm }
    {
        self.bit(bits::TBM)
    }

    /// These settings with TBM.
    pub fn with_tbm(self) -> InstDecoder
        ensures set { result ≡ with_set self tbm }
        ensures long { length result ≡ 128 }
    {
        self.with_bit(bits::TBM)
    }

    /// XOP: AMD's vector instructions with an XOP prefix.
    pub fn xop(&self) -> bool
        ensures { result ≡ is_set self.now xop }
    {
        self.bit(bits::XOP)
    }

    /// These settings with XOP.
    pub fn with_xop(self) -> InstDecoder
        ensures set { result ≡ with_set self xop }
        ensures long { length result ≡ 128 }
    {
        self.with_bit(bits::XOP)
    }

    /// MONITORX. It decides nothing: MONITORX and MWAITX are permitted by `amd_quirks`.
    pub fn monitorx(&self) -> bool
        ensures { result ≡ is_set self.now monitorx }
    {
        self.bit(bits::MONITORX)
    }

    /// These settings with MONITORX.
    pub fn with_monitorx(self) -> InstDecoder
        ensures set { result ≡ with_set self monitorx }
        ensures long { length result ≡ 128 }
    {
        self.with_bit(bits::MONITORX)
    }

    /// CLZERO. It decides nothing: the instruction is permitted by `amd_quirks`. Shares its bit with `wbnoinvd`.
    pub fn clzero(&self) -> bool
        ensures { result ≡ is_set self.now clzero }
    {
        self.bit(bits::CLZERO)
    }

    /// These settings with CLZERO, and so with `wbnoinvd`.
    pub fn with_clzero(self) -> InstDecoder
        ensures set { result ≡ with_set self clzero }
        ensures long { length result ≡ 128 }
    {
        self.with_bit(bits::CLZERO)
    }
}
