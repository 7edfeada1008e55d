//! What one maker's processors decode in their own way.

ghost use Rattle.std.specs.Prelude.{◌≡◌, length};
ghost use Rattle.x86_settings.specs.Bits.{is_set, with_set};
ghost use Rattle.x86_settings.specs.Settings.{amd_quirks, intel_quirks};

use crate::bits;
use crate::decoder::InstDecoder;

impl InstDecoder {
    /// AMD's quirks: what AMD's processors decode in their own way, as LZCNT, or alone, as RDPRU.
    pub fn amd_quirks(&self) -> bool
        ensures { result ≡ is_set self.now amd_quirks }
    {
        self.bit(bits::AMD_QUIRKS)
    }

    /// These settings with AMD's quirks.
    pub fn with_amd_quirks(self) -> InstDecoder
        ensures set { result ≡ with_set self amd_quirks }
        ensures long { length result ≡ 128 }
    {
        self.with_bit(bits::AMD_QUIRKS)
    }

    /// Intel's quirks: what Intel's processors decode in their own way, as POPCNT with SSE4.2.
    pub fn intel_quirks(&self) -> bool
        ensures { result ≡ is_set self.now intel_quirks }
    {
        self.bit(bits::INTEL_QUIRKS)
    }

    /// These settings with Intel's quirks.
    pub fn with_intel_quirks(self) -> InstDecoder
        ensures set { result ≡ with_set self intel_quirks }
        ensures long { length result ≡ 128 }
    {
        self.with_bit(bits::INTEL_QUIRKS)
    }
}
