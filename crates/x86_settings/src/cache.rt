//! Lines of the cache: prefetches, and what writes lines back.

ghost use Rattle.std.specs.Prelude.{◌≡◌, length};
ghost use Rattle.x86_settings.specs.Bits.{is_set, with_set};
ghost use Rattle.x86_settings.specs.Settings.{clflushopt, clwb, pcommit, prefetchw, prefetchwt1, wbnoinvd};

use crate::bits;
use crate::decoder::InstDecoder;

impl InstDecoder {
    /// CLFLUSHOPT.
    pub fn clflushopt(&self) -> bool
        ensures { result ≡ is_set self.now clflushopt }
    {
        self.bit(bits::CLFLUSHOPT)
    }

    /// These settings with CLFLUSHOPT.
    pub fn with_clflushopt(self) -> InstDecoder
        ensures set { result ≡ with_set self clflushopt }
        ensures long { length result ≡ 128 }
    {
        self.with_bit(bits::CLFLUSHOPT)
    }

    /// CLWB.
    pub fn clwb(&self) -> bool
        ensures { result ≡ is_set self.now clwb }
    {
        self.bit(bits::CLWB)
    }

    /// These settings with CLWB.
    pub fn with_clwb(self) -> InstDecoder
        ensures set { result ≡ with_set self clwb }
        ensures long { length result ≡ 128 }
    {
        self.with_bit(bits::CLWB)
    }

    /// PCOMMIT.
    pub fn pcommit(&self) -> bool
        ensures { result ≡ is_set self.now pcommit }
    {
        self.bit(bits::PCOMMIT)
    }

    /// These settings with PCOMMIT.
    pub fn with_pcommit(self) -> InstDecoder
        ensures set { result ≡ with_set self pcommit }
        ensures long { length result ≡ 128 }
    {
        self.with_bit(bits::PCOMMIT)
    }

    /// PREFETCHW.
    pub fn prefetchw(&self) -> bool
        ensures { result ≡ is_set self.now prefetchw }
    {
        self.bit(bits::PREFETCHW)
    }

    /// These settings with PREFETCHW.
    pub fn with_prefetchw(self) -> InstDecoder
        ensures set { result ≡ with_set self prefetchw }
        ensures long { length result ≡ 128 }
    {
        self.with_bit(bits::PREFETCHW)
    }

    /// PREFETCHWT1.
    pub fn prefetchwt1(&self) -> bool
        ensures { result ≡ is_set self.now prefetchwt1 }
    {
        self.bit(bits::PREFETCHWT1)
    }

    /// These settings with PREFETCHWT1.
    pub fn with_prefetchwt1(self) -> InstDecoder
        ensures set { result ≡ with_set self prefetchwt1 }
        ensures long { length result ≡ 128 }
    {
        self.with_bit(bits::PREFETCHWT1)
    }

    /// WBNOINVD. Shares its bit with `clzero`.
    pub fn wbnoinvd(&self) -> bool
        ensures { result ≡ is_set self.now wbnoinvd }
    {
        self.bit(bits::WBNOINVD)
    }

    /// These settings with WBNOINVD, and so with `clzero`.
    pub fn with_wbnoinvd(self) -> InstDecoder
        ensures set { result ≡ with_set self wbnoinvd }
        ensures long { length result ≡ 128 }
    {
        self.with_bit(bits::WBNOINVD)
    }
}
