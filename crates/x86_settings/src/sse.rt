//! SSE from SSE3 on.

ghost use Rattle.std.specs.Prelude.{◌≡◌, length};
ghost use Rattle.x86_settings.specs.Bits.{is_set, with_set};
ghost use Rattle.x86_settings.specs.Settings.{sse3, sse4_1, sse4_2, ssse3};
ghost use Rattle.x86_settings.specs.Sets.{all_set, with_all_set};
ghost use Rattle.x86_settings.specs.Composites.{sse4};

use crate::bits;
use crate::decoder::InstDecoder;

impl InstDecoder {
    /// SSE3: ADDSUBPS, HADDPS, HSUBPS, LDDQU, MOVDDUP, MOVSHDUP, MOVSLDUP and their like.
    pub fn sse3(&self) -> bool
        ensures { result ≡ is_set self.now sse3 }
    {
        self.bit(bits::SSE3)
    }

    /// These settings with SSE3.
    pub fn with_sse3(self) -> InstDecoder
        ensures set { result ≡ with_set self sse3 }
        ensures long { length result ≡ 128 }
    {
        self.with_bit(bits::SSE3)
    }

    /// SSE4.1: BLENDPS, DPPS, EXTRACTPS, INSERTPS, PMULLD, PTEST, ROUNDPS and their like.
    pub fn sse4_1(&self) -> bool
        ensures { result ≡ is_set self.now sse4_1 }
    {
        self.bit(bits::SSE4_1)
    }

    /// These settings with SSE4.1.
    pub fn with_sse4_1(self) -> InstDecoder
        ensures set { result ≡ with_set self sse4_1 }
        ensures long { length result ≡ 128 }
    {
        self.with_bit(bits::SSE4_1)
    }

    /// SSE4.2: CRC32, PCMPESTRI, PCMPESTRM, PCMPISTRI, PCMPISTRM and PCMPGTQ.
    pub fn sse4_2(&self) -> bool
        ensures { result ≡ is_set self.now sse4_2 }
    {
        self.bit(bits::SSE4_2)
    }

    /// These settings with SSE4.2.
    pub fn with_sse4_2(self) -> InstDecoder
        ensures set { result ≡ with_set self sse4_2 }
        ensures long { length result ≡ 128 }
    {
        self.with_bit(bits::SSE4_2)
    }

    /// SSSE3: PABSB, PALIGNR, PHADDW, PMADDUBSW, PMULHRSW, PSHUFB, PSIGNB and their like.
    pub fn ssse3(&self) -> bool
        ensures { result ≡ is_set self.now ssse3 }
    {
        self.bit(bits::SSSE3)
    }

    /// These settings with SSSE3.
    pub fn with_ssse3(self) -> InstDecoder
        ensures set { result ≡ with_set self ssse3 }
        ensures long { length result ≡ 128 }
    {
        self.with_bit(bits::SSSE3)
    }

    /// SSE4: both SSE4.1 and SSE4.2.
    pub fn sse4(&self) -> bool
        ensures { result ≡ all_set self.now sse4 }
    {
        self.sse4_1() && self.sse4_2()
    }

    /// These settings with every member that `sse4` asks for.
    pub fn with_sse4(&self) -> InstDecoder
        ensures set { result ≡ with_all_set self.now sse4 }
        ensures long { length result ≡ 128 }
    {
        self.with_sse4_1().with_sse4_2()
    }
}
