//! Instructions on general registers.

ghost use Rattle.std.specs.Prelude.{◌≡◌, length};
ghost use Rattle.x86_settings.specs.Bits.{is_set, with_set};
ghost use Rattle.x86_settings.specs.Settings.{adx, bmi1, bmi2, cmov, cmpxchg16b, cx8, lahfsahf, lzcnt, movbe, popcnt};
ghost use Rattle.x86_settings.specs.Settings.{rdrand, rdseed, movdir64b, enqcmd, apx, movrs};

use crate::bits;
use crate::decoder::InstDecoder;

impl InstDecoder {
    /// ADX: ADCX and ADOX.
    pub fn adx(&self) -> bool
        ensures { result ≡ is_set self.now adx }
    {
        self.bit(bits::ADX)
    }

    /// These settings with ADX.
    pub fn with_adx(self) -> InstDecoder
        ensures set { result ≡ with_set self adx }
        ensures long { length result ≡ 128 }
    {
        self.with_bit(bits::ADX)
    }

    /// BMI1: ANDN, BEXTR, BLSI, BLSMSK, BLSR and TZCNT.
    pub fn bmi1(&self) -> bool
        ensures { result ≡ is_set self.now bmi1 }
    {
        self.bit(bits::BMI1)
    }

    /// These settings with BMI1.
    pub fn with_bmi1(self) -> InstDecoder
        ensures set { result ≡ with_set self bmi1 }
        ensures long { length result ≡ 128 }
    {
        self.with_bit(bits::BMI1)
    }

    /// BMI2: BZHI, MULX, PDEP, PEXT, RORX, SARX, SHLX and SHRX.
    pub fn bmi2(&self) -> bool
        ensures { result ≡ is_set self.now bmi2 }
    {
        self.bit(bits::BMI2)
    }

    /// These settings with BMI2.
    pub fn with_bmi2(self) -> InstDecoder
        ensures set { result ≡ with_set self bmi2 }
        ensures long { length result ≡ 128 }
    {
        self.with_bit(bits::BMI2)
    }

    /// CMOV: CMOVcc and FCMOVcc.
    pub fn cmov(&self) -> bool
        ensures { result ≡ is_set self.now cmov }
    {
        self.bit(bits::CMOV)
    }

    /// These settings with CMOV.
    pub fn with_cmov(self) -> InstDecoder
        ensures set { result ≡ with_set self cmov }
        ensures long { length result ≡ 128 }
    {
        self.with_bit(bits::CMOV)
    }

    /// CMPXCHG16B.
    pub fn cmpxchg16b(&self) -> bool
        ensures { result ≡ is_set self.now cmpxchg16b }
    {
        self.bit(bits::CMPXCHG16B)
    }

    /// These settings with CMPXCHG16B.
    pub fn with_cmpxchg16b(self) -> InstDecoder
        ensures set { result ≡ with_set self cmpxchg16b }
        ensures long { length result ≡ 128 }
    {
        self.with_bit(bits::CMPXCHG16B)
    }

    /// CX8: CMPXCHG8B.
    pub fn cx8(&self) -> bool
        ensures { result ≡ is_set self.now cx8 }
    {
        self.bit(bits::CX8)
    }

    /// These settings with CX8.
    pub fn with_cx8(self) -> InstDecoder
        ensures set { result ≡ with_set self cx8 }
        ensures long { length result ≡ 128 }
    {
        self.with_bit(bits::CX8)
    }

    /// LAHFSAHF: LAHF and SAHF in 64-bit code.
    pub fn lahfsahf(&self) -> bool
        ensures { result ≡ is_set self.now lahfsahf }
    {
        self.bit(bits::LAHFSAHF)
    }

    /// These settings with LAHFSAHF.
    pub fn with_lahfsahf(self) -> InstDecoder
        ensures set { result ≡ with_set self lahfsahf }
        ensures long { length result ≡ 128 }
    {
        self.with_bit(bits::LAHFSAHF)
    }

    /// LZCNT.
    pub fn lzcnt(&self) -> bool
        ensures { result ≡ is_set self.now lzcnt }
    {
        self.bit(bits::LZCNT)
    }

    /// These settings with LZCNT.
    pub fn with_lzcnt(self) -> InstDecoder
        ensures set { result ≡ with_set self lzcnt }
        ensures long { length result ≡ 128 }
    {
        self.with_bit(bits::LZCNT)
    }

    /// MOVBE.
    pub fn movbe(&self) -> bool
        ensures { result ≡ is_set self.now movbe }
    {
        self.bit(bits::MOVBE)
    }

    /// These settings with MOVBE.
    pub fn with_movbe(self) -> InstDecoder
        ensures set { result ≡ with_set self movbe }
        ensures long { length result ≡ 128 }
    {
        self.with_bit(bits::MOVBE)
    }

    /// POPCNT.
    pub fn popcnt(&self) -> bool
        ensures { result ≡ is_set self.now popcnt }
    {
        self.bit(bits::POPCNT)
    }

    /// These settings with POPCNT.
    pub fn with_popcnt(self) -> InstDecoder
        ensures set { result ≡ with_set self popcnt }
        ensures long { length result ≡ 128 }
    {
        self.with_bit(bits::POPCNT)
    }

    /// RDRAND.
    pub fn rdrand(&self) -> bool
        ensures { result ≡ is_set self.now rdrand }
    {
        self.bit(bits::RDRAND)
    }

    /// These settings with RDRAND.
    pub fn with_rdrand(self) -> InstDecoder
        ensures set { result ≡ with_set self rdrand }
        ensures long { length result ≡ 128 }
    {
        self.with_bit(bits::RDRAND)
    }

    /// RDSEED.
    pub fn rdseed(&self) -> bool
        ensures { result ≡ is_set self.now rdseed }
    {
        self.bit(bits::RDSEED)
    }

    /// These settings with RDSEED.
    pub fn with_rdseed(self) -> InstDecoder
        ensures set { result ≡ with_set self rdseed }
        ensures long { length result ≡ 128 }
    {
        self.with_bit(bits::RDSEED)
    }

    /// MOVDIR64B.
    pub fn movdir64b(&self) -> bool
        ensures { result ≡ is_set self.now movdir64b }
    {
        self.bit(bits::MOVDIR64B)
    }

    /// These settings with MOVDIR64B.
    pub fn with_movdir64b(self) -> InstDecoder
        ensures set { result ≡ with_set self movdir64b }
        ensures long { length result ≡ 128 }
    {
        self.with_bit(bits::MOVDIR64B)
    }

    /// ENQCMD: ENQCMD and ENQCMDS.
    pub fn enqcmd(&self) -> bool
        ensures { result ≡ is_set self.now enqcmd }
    {
        self.bit(bits::ENQCMD)
    }

    /// These settings with ENQCMD.
    pub fn with_enqcmd(self) -> InstDecoder
        ensures set { result ≡ with_set self enqcmd }
        ensures long { length result ≡ 128 }
    {
        self.with_bit(bits::ENQCMD)
    }

    /// APX: 32 general registers, and three operands.
    pub fn apx(&self) -> bool
        ensures { result ≡ is_set self.now apx }
    {
        self.bit(bits::APX)
    }

    /// These settings with APX.
    pub fn with_apx(self) -> InstDecoder
        ensures set { result ≡ with_set self apx }
        ensures long { length result ≡ 128 }
    {
        self.with_bit(bits::APX)
    }

    /// MOVRS: MOVRS and PREFETCHRST2.
    pub fn movrs(&self) -> bool
        ensures { result ≡ is_set self.now movrs }
    {
        self.bit(bits::MOVRS)
    }

    /// These settings with MOVRS.
    pub fn with_movrs(self) -> InstDecoder
        ensures set { result ≡ with_set self movrs }
        ensures long { length result ≡ 128 }
    {
        self.with_bit(bits::MOVRS)
    }
}
