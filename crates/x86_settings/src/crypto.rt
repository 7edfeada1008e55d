//! Ciphers, hashes and finite fields.

ghost use Rattle.std.specs.Prelude.{◌≡◌, length};
ghost use Rattle.x86_settings.specs.Bits.{is_set, with_set};
ghost use Rattle.x86_settings.specs.Settings.{aesni, gfni, pclmulqdq, sha, vaes, vpclmulqdq, sm3, sm4, sm4_evex};
ghost use Rattle.x86_settings.specs.Settings.{keylocker};

use crate::bits;
use crate::decoder::InstDecoder;

impl InstDecoder {
    /// AES-NI: AESDEC, AESENC, AESIMC, AESKEYGENASSIST and their like.
    pub fn aesni(&self) -> bool
        ensures { result ≡ is_set self.now aesni }
    {
        self.bit(bits::AESNI)
    }

    /// These settings with AES-NI.
    pub fn with_aesni(self) -> InstDecoder
        ensures set { result ≡ with_set self aesni }
        ensures long { length result ≡ 128 }
    {
        self.with_bit(bits::AESNI)
    }

    /// GFNI: GF2P8AFFINEINVQB, GF2P8AFFINEQB and GF2P8MULB.
    pub fn gfni(&self) -> bool
        ensures { result ≡ is_set self.now gfni }
    {
        self.bit(bits::GFNI)
    }

    /// These settings with GFNI.
    pub fn with_gfni(self) -> InstDecoder
        ensures set { result ≡ with_set self gfni }
        ensures long { length result ≡ 128 }
    {
        self.with_bit(bits::GFNI)
    }

    /// PCLMULQDQ: multiplication without carries.
    pub fn pclmulqdq(&self) -> bool
        ensures { result ≡ is_set self.now pclmulqdq }
    {
        self.bit(bits::PCLMULQDQ)
    }

    /// These settings with PCLMULQDQ.
    pub fn with_pclmulqdq(self) -> InstDecoder
        ensures set { result ≡ with_set self pclmulqdq }
        ensures long { length result ≡ 128 }
    {
        self.with_bit(bits::PCLMULQDQ)
    }

    /// SHA: SHA1RNDS4, SHA256RNDS2 and their like.
    pub fn sha(&self) -> bool
        ensures { result ≡ is_set self.now sha }
    {
        self.bit(bits::SHA)
    }

    /// These settings with SHA.
    pub fn with_sha(self) -> InstDecoder
        ensures set { result ≡ with_set self sha }
        ensures long { length result ≡ 128 }
    {
        self.with_bit(bits::SHA)
    }

    /// VAES: AES on vectors of 256 bits and more.
    pub fn vaes(&self) -> bool
        ensures { result ≡ is_set self.now vaes }
    {
        self.bit(bits::VAES)
    }

    /// These settings with VAES.
    pub fn with_vaes(self) -> InstDecoder
        ensures set { result ≡ with_set self vaes }
        ensures long { length result ≡ 128 }
    {
        self.with_bit(bits::VAES)
    }

    /// VPCLMULQDQ: PCLMULQDQ on vectors of 256 bits and more.
    pub fn vpclmulqdq(&self) -> bool
        ensures { result ≡ is_set self.now vpclmulqdq }
    {
        self.bit(bits::VPCLMULQDQ)
    }

    /// These settings with VPCLMULQDQ.
    pub fn with_vpclmulqdq(self) -> InstDecoder
        ensures set { result ≡ with_set self vpclmulqdq }
        ensures long { length result ≡ 128 }
    {
        self.with_bit(bits::VPCLMULQDQ)
    }

    /// SM3: VSM3MSG1, VSM3MSG2 and VSM3RNDS2.
    pub fn sm3(&self) -> bool
        ensures { result ≡ is_set self.now sm3 }
    {
        self.bit(bits::SM3)
    }

    /// These settings with SM3.
    pub fn with_sm3(self) -> InstDecoder
        ensures set { result ≡ with_set self sm3 }
        ensures long { length result ≡ 128 }
    {
        self.with_bit(bits::SM3)
    }

    /// SM4: VSM4KEY4 and VSM4RNDS4.
    pub fn sm4(&self) -> bool
        ensures { result ≡ is_set self.now sm4 }
    {
        self.bit(bits::SM4)
    }

    /// These settings with SM4.
    pub fn with_sm4(self) -> InstDecoder
        ensures set { result ≡ with_set self sm4 }
        ensures long { length result ≡ 128 }
    {
        self.with_bit(bits::SM4)
    }

    /// SM4 with an EVEX prefix.
    pub fn sm4_evex(&self) -> bool
        ensures { result ≡ is_set self.now sm4_evex }
    {
        self.bit(bits::SM4_EVEX)
    }

    /// These settings with SM4 with an EVEX prefix.
    pub fn with_sm4_evex(self) -> InstDecoder
        ensures set { result ≡ with_set self sm4_evex }
        ensures long { length result ≡ 128 }
    {
        self.with_bit(bits::SM4_EVEX)
    }

    /// Key Locker: AESENC128KL, ENCODEKEY128, LOADIWKEY and their like.
    pub fn keylocker(&self) -> bool
        ensures { result ≡ is_set self.now keylocker }
    {
        self.bit(bits::KEYLOCKER)
    }

    /// These settings with Key Locker.
    pub fn with_keylocker(self) -> InstDecoder
        ensures set { result ≡ with_set self keylocker }
        ensures long { length result ≡ 128 }
    {
        self.with_bit(bits::KEYLOCKER)
    }
}
