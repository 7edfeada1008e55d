// The constants, the names and the conditions of a part, written by tools/opcodes.py.
ghost use Rattle.std.specs.Prelude.{◌≡◌, Some};
ghost use Rattle.x86_opcode.specs.Condition.{opcode_condition};
ghost use Rattle.x86_opcode.specs.Name.{opcode_name};
ghost use Rattle.x86_opcode.specs.declared.Opcode.TheVariants.{Float};

use crate::{Condition, FloatOpcode, Opcode};
use std::fmt;

/// VEX instructions on packed and scalar floats.
impl Opcode {
    pub const VCVTPH2PS: Opcode = Opcode::Float(FloatOpcode::VCVTPH2PS);

    pub const VCVTPS2PH: Opcode = Opcode::Float(FloatOpcode::VCVTPS2PH);

    pub const VADDPD: Opcode = Opcode::Float(FloatOpcode::VADDPD);

    pub const VADDPS: Opcode = Opcode::Float(FloatOpcode::VADDPS);

    pub const VADDSD: Opcode = Opcode::Float(FloatOpcode::VADDSD);

    pub const VADDSS: Opcode = Opcode::Float(FloatOpcode::VADDSS);

    pub const VADDSUBPD: Opcode = Opcode::Float(FloatOpcode::VADDSUBPD);

    pub const VADDSUBPS: Opcode = Opcode::Float(FloatOpcode::VADDSUBPS);

    pub const VANDNPD: Opcode = Opcode::Float(FloatOpcode::VANDNPD);

    pub const VANDNPS: Opcode = Opcode::Float(FloatOpcode::VANDNPS);

    pub const VANDPD: Opcode = Opcode::Float(FloatOpcode::VANDPD);

    pub const VANDPS: Opcode = Opcode::Float(FloatOpcode::VANDPS);

    pub const VBLENDPD: Opcode = Opcode::Float(FloatOpcode::VBLENDPD);

    pub const VBLENDPS: Opcode = Opcode::Float(FloatOpcode::VBLENDPS);

    pub const VBLENDVPD: Opcode = Opcode::Float(FloatOpcode::VBLENDVPD);

    pub const VBLENDVPS: Opcode = Opcode::Float(FloatOpcode::VBLENDVPS);

    pub const VBROADCASTF128: Opcode = Opcode::Float(FloatOpcode::VBROADCASTF128);

    pub const VBROADCASTSD: Opcode = Opcode::Float(FloatOpcode::VBROADCASTSD);

    pub const VBROADCASTSS: Opcode = Opcode::Float(FloatOpcode::VBROADCASTSS);

    pub const VCMPPD: Opcode = Opcode::Float(FloatOpcode::VCMPPD);

    pub const VCMPPS: Opcode = Opcode::Float(FloatOpcode::VCMPPS);

    pub const VCMPSD: Opcode = Opcode::Float(FloatOpcode::VCMPSD);

    pub const VCMPSS: Opcode = Opcode::Float(FloatOpcode::VCMPSS);

    pub const VCOMISD: Opcode = Opcode::Float(FloatOpcode::VCOMISD);

    pub const VCOMISS: Opcode = Opcode::Float(FloatOpcode::VCOMISS);

    pub const VCVTDQ2PD: Opcode = Opcode::Float(FloatOpcode::VCVTDQ2PD);

    pub const VCVTDQ2PS: Opcode = Opcode::Float(FloatOpcode::VCVTDQ2PS);

    pub const VCVTPD2DQ: Opcode = Opcode::Float(FloatOpcode::VCVTPD2DQ);

    pub const VCVTPD2PS: Opcode = Opcode::Float(FloatOpcode::VCVTPD2PS);

    pub const VCVTPS2DQ: Opcode = Opcode::Float(FloatOpcode::VCVTPS2DQ);

    pub const VCVTPS2PD: Opcode = Opcode::Float(FloatOpcode::VCVTPS2PD);

    pub const VCVTSD2SI: Opcode = Opcode::Float(FloatOpcode::VCVTSD2SI);

    pub const VCVTSD2SS: Opcode = Opcode::Float(FloatOpcode::VCVTSD2SS);

    pub const VCVTSI2SD: Opcode = Opcode::Float(FloatOpcode::VCVTSI2SD);

    pub const VCVTSI2SS: Opcode = Opcode::Float(FloatOpcode::VCVTSI2SS);

    pub const VCVTSS2SD: Opcode = Opcode::Float(FloatOpcode::VCVTSS2SD);

    pub const VCVTSS2SI: Opcode = Opcode::Float(FloatOpcode::VCVTSS2SI);

    pub const VCVTTPD2DQ: Opcode = Opcode::Float(FloatOpcode::VCVTTPD2DQ);

    pub const VCVTTPS2DQ: Opcode = Opcode::Float(FloatOpcode::VCVTTPS2DQ);

    pub const VCVTTSD2SI: Opcode = Opcode::Float(FloatOpcode::VCVTTSD2SI);

    pub const VCVTTSS2SI: Opcode = Opcode::Float(FloatOpcode::VCVTTSS2SI);

    pub const VDIVPD: Opcode = Opcode::Float(FloatOpcode::VDIVPD);

    pub const VDIVPS: Opcode = Opcode::Float(FloatOpcode::VDIVPS);

    pub const VDIVSD: Opcode = Opcode::Float(FloatOpcode::VDIVSD);

    pub const VDIVSS: Opcode = Opcode::Float(FloatOpcode::VDIVSS);

    pub const VDPPD: Opcode = Opcode::Float(FloatOpcode::VDPPD);

    pub const VDPPS: Opcode = Opcode::Float(FloatOpcode::VDPPS);

    pub const VEXTRACTF128: Opcode = Opcode::Float(FloatOpcode::VEXTRACTF128);

    pub const VEXTRACTPS: Opcode = Opcode::Float(FloatOpcode::VEXTRACTPS);

    pub const VGATHERDPD: Opcode = Opcode::Float(FloatOpcode::VGATHERDPD);

    pub const VGATHERDPS: Opcode = Opcode::Float(FloatOpcode::VGATHERDPS);

    pub const VGATHERQPD: Opcode = Opcode::Float(FloatOpcode::VGATHERQPD);

    pub const VGATHERQPS: Opcode = Opcode::Float(FloatOpcode::VGATHERQPS);

    pub const VHADDPD: Opcode = Opcode::Float(FloatOpcode::VHADDPD);

    pub const VHADDPS: Opcode = Opcode::Float(FloatOpcode::VHADDPS);

    pub const VHSUBPD: Opcode = Opcode::Float(FloatOpcode::VHSUBPD);

    pub const VHSUBPS: Opcode = Opcode::Float(FloatOpcode::VHSUBPS);

    pub const VINSERTF128: Opcode = Opcode::Float(FloatOpcode::VINSERTF128);

    pub const VINSERTPS: Opcode = Opcode::Float(FloatOpcode::VINSERTPS);

    pub const VLDMXCSR: Opcode = Opcode::Float(FloatOpcode::VLDMXCSR);

    pub const VMASKMOVPD: Opcode = Opcode::Float(FloatOpcode::VMASKMOVPD);

    pub const VMASKMOVPS: Opcode = Opcode::Float(FloatOpcode::VMASKMOVPS);

    pub const VMAXPD: Opcode = Opcode::Float(FloatOpcode::VMAXPD);

    pub const VMAXPS: Opcode = Opcode::Float(FloatOpcode::VMAXPS);

    pub const VMAXSD: Opcode = Opcode::Float(FloatOpcode::VMAXSD);

    pub const VMAXSS: Opcode = Opcode::Float(FloatOpcode::VMAXSS);

    pub const VMINPD: Opcode = Opcode::Float(FloatOpcode::VMINPD);

    pub const VMINPS: Opcode = Opcode::Float(FloatOpcode::VMINPS);

    pub const VMINSD: Opcode = Opcode::Float(FloatOpcode::VMINSD);

    pub const VMINSS: Opcode = Opcode::Float(FloatOpcode::VMINSS);

    pub const VMOVAPD: Opcode = Opcode::Float(FloatOpcode::VMOVAPD);

    pub const VMOVAPS: Opcode = Opcode::Float(FloatOpcode::VMOVAPS);

    pub const VMOVDDUP: Opcode = Opcode::Float(FloatOpcode::VMOVDDUP);

    pub const VMOVHLPS: Opcode = Opcode::Float(FloatOpcode::VMOVHLPS);

    pub const VMOVHPD: Opcode = Opcode::Float(FloatOpcode::VMOVHPD);

    pub const VMOVHPS: Opcode = Opcode::Float(FloatOpcode::VMOVHPS);

    pub const VMOVLHPS: Opcode = Opcode::Float(FloatOpcode::VMOVLHPS);

    pub const VMOVLPD: Opcode = Opcode::Float(FloatOpcode::VMOVLPD);

    pub const VMOVLPS: Opcode = Opcode::Float(FloatOpcode::VMOVLPS);

    pub const VMOVMSKPD: Opcode = Opcode::Float(FloatOpcode::VMOVMSKPD);

    pub const VMOVMSKPS: Opcode = Opcode::Float(FloatOpcode::VMOVMSKPS);

    pub const VMOVNTPD: Opcode = Opcode::Float(FloatOpcode::VMOVNTPD);

    pub const VMOVNTPS: Opcode = Opcode::Float(FloatOpcode::VMOVNTPS);

    pub const VMOVSD: Opcode = Opcode::Float(FloatOpcode::VMOVSD);

    pub const VMOVSHDUP: Opcode = Opcode::Float(FloatOpcode::VMOVSHDUP);

    pub const VMOVSLDUP: Opcode = Opcode::Float(FloatOpcode::VMOVSLDUP);

    pub const VMOVSS: Opcode = Opcode::Float(FloatOpcode::VMOVSS);

    pub const VMOVUPD: Opcode = Opcode::Float(FloatOpcode::VMOVUPD);

    pub const VMOVUPS: Opcode = Opcode::Float(FloatOpcode::VMOVUPS);

    pub const VMULPD: Opcode = Opcode::Float(FloatOpcode::VMULPD);

    pub const VMULPS: Opcode = Opcode::Float(FloatOpcode::VMULPS);

    pub const VMULSD: Opcode = Opcode::Float(FloatOpcode::VMULSD);

    pub const VMULSS: Opcode = Opcode::Float(FloatOpcode::VMULSS);

    pub const VORPD: Opcode = Opcode::Float(FloatOpcode::VORPD);

    pub const VORPS: Opcode = Opcode::Float(FloatOpcode::VORPS);

    pub const VPERM2F128: Opcode = Opcode::Float(FloatOpcode::VPERM2F128);

    pub const VPERMILPD: Opcode = Opcode::Float(FloatOpcode::VPERMILPD);

    pub const VPERMILPS: Opcode = Opcode::Float(FloatOpcode::VPERMILPS);

    pub const VPERMPD: Opcode = Opcode::Float(FloatOpcode::VPERMPD);

    pub const VPERMPS: Opcode = Opcode::Float(FloatOpcode::VPERMPS);

    pub const VRCPPS: Opcode = Opcode::Float(FloatOpcode::VRCPPS);

    pub const VRCPSS: Opcode = Opcode::Float(FloatOpcode::VRCPSS);

    pub const VROUNDPD: Opcode = Opcode::Float(FloatOpcode::VROUNDPD);

    pub const VROUNDPS: Opcode = Opcode::Float(FloatOpcode::VROUNDPS);

    pub const VROUNDSD: Opcode = Opcode::Float(FloatOpcode::VROUNDSD);

    pub const VROUNDSS: Opcode = Opcode::Float(FloatOpcode::VROUNDSS);

    pub const VRSQRTPS: Opcode = Opcode::Float(FloatOpcode::VRSQRTPS);

    pub const VRSQRTSS: Opcode = Opcode::Float(FloatOpcode::VRSQRTSS);

    pub const VSHUFPD: Opcode = Opcode::Float(FloatOpcode::VSHUFPD);

    pub const VSHUFPS: Opcode = Opcode::Float(FloatOpcode::VSHUFPS);

    pub const VSQRTPD: Opcode = Opcode::Float(FloatOpcode::VSQRTPD);

    pub const VSQRTPS: Opcode = Opcode::Float(FloatOpcode::VSQRTPS);

    pub const VSQRTSD: Opcode = Opcode::Float(FloatOpcode::VSQRTSD);

    pub const VSQRTSS: Opcode = Opcode::Float(FloatOpcode::VSQRTSS);

    pub const VSTMXCSR: Opcode = Opcode::Float(FloatOpcode::VSTMXCSR);

    pub const VSUBPD: Opcode = Opcode::Float(FloatOpcode::VSUBPD);

    pub const VSUBPS: Opcode = Opcode::Float(FloatOpcode::VSUBPS);

    pub const VSUBSD: Opcode = Opcode::Float(FloatOpcode::VSUBSD);

    pub const VSUBSS: Opcode = Opcode::Float(FloatOpcode::VSUBSS);

    pub const VTESTPD: Opcode = Opcode::Float(FloatOpcode::VTESTPD);

    pub const VTESTPS: Opcode = Opcode::Float(FloatOpcode::VTESTPS);

    pub const VUCOMISD: Opcode = Opcode::Float(FloatOpcode::VUCOMISD);

    pub const VUCOMISS: Opcode = Opcode::Float(FloatOpcode::VUCOMISS);

    pub const VUNPCKHPD: Opcode = Opcode::Float(FloatOpcode::VUNPCKHPD);

    pub const VUNPCKHPS: Opcode = Opcode::Float(FloatOpcode::VUNPCKHPS);

    pub const VUNPCKLPD: Opcode = Opcode::Float(FloatOpcode::VUNPCKLPD);

    pub const VUNPCKLPS: Opcode = Opcode::Float(FloatOpcode::VUNPCKLPS);

    pub const VXORPD: Opcode = Opcode::Float(FloatOpcode::VXORPD);

    pub const VXORPS: Opcode = Opcode::Float(FloatOpcode::VXORPS);
}

impl FloatOpcode {
    /// The opcode's name, spelled as its variant.
    #[tactic(auto, unfolding(crate::specs::Name::opcode_name))]
    pub fn name(&self) -> &'static str
        ensures { result.now ≡ opcode_name (Float self.now) }
    {
        match self {
            FloatOpcode::VCVTPH2PS => "VCVTPH2PS",
            FloatOpcode::VCVTPS2PH => "VCVTPS2PH",
            FloatOpcode::VADDPD => "VADDPD",
            FloatOpcode::VADDPS => "VADDPS",
            FloatOpcode::VADDSD => "VADDSD",
            FloatOpcode::VADDSS => "VADDSS",
            FloatOpcode::VADDSUBPD => "VADDSUBPD",
            FloatOpcode::VADDSUBPS => "VADDSUBPS",
            FloatOpcode::VANDNPD => "VANDNPD",
            FloatOpcode::VANDNPS => "VANDNPS",
            FloatOpcode::VANDPD => "VANDPD",
            FloatOpcode::VANDPS => "VANDPS",
            FloatOpcode::VBLENDPD => "VBLENDPD",
            FloatOpcode::VBLENDPS => "VBLENDPS",
            FloatOpcode::VBLENDVPD => "VBLENDVPD",
            FloatOpcode::VBLENDVPS => "VBLENDVPS",
            FloatOpcode::VBROADCASTF128 => "VBROADCASTF128",
            FloatOpcode::VBROADCASTSD => "VBROADCASTSD",
            FloatOpcode::VBROADCASTSS => "VBROADCASTSS",
            FloatOpcode::VCMPPD => "VCMPPD",
            FloatOpcode::VCMPPS => "VCMPPS",
            FloatOpcode::VCMPSD => "VCMPSD",
            FloatOpcode::VCMPSS => "VCMPSS",
            FloatOpcode::VCOMISD => "VCOMISD",
            FloatOpcode::VCOMISS => "VCOMISS",
            FloatOpcode::VCVTDQ2PD => "VCVTDQ2PD",
            FloatOpcode::VCVTDQ2PS => "VCVTDQ2PS",
            FloatOpcode::VCVTPD2DQ => "VCVTPD2DQ",
            FloatOpcode::VCVTPD2PS => "VCVTPD2PS",
            FloatOpcode::VCVTPS2DQ => "VCVTPS2DQ",
            FloatOpcode::VCVTPS2PD => "VCVTPS2PD",
            FloatOpcode::VCVTSD2SI => "VCVTSD2SI",
            FloatOpcode::VCVTSD2SS => "VCVTSD2SS",
            FloatOpcode::VCVTSI2SD => "VCVTSI2SD",
            FloatOpcode::VCVTSI2SS => "VCVTSI2SS",
            FloatOpcode::VCVTSS2SD => "VCVTSS2SD",
            FloatOpcode::VCVTSS2SI => "VCVTSS2SI",
            FloatOpcode::VCVTTPD2DQ => "VCVTTPD2DQ",
            FloatOpcode::VCVTTPS2DQ => "VCVTTPS2DQ",
            FloatOpcode::VCVTTSD2SI => "VCVTTSD2SI",
            FloatOpcode::VCVTTSS2SI => "VCVTTSS2SI",
            FloatOpcode::VDIVPD => "VDIVPD",
            FloatOpcode::VDIVPS => "VDIVPS",
            FloatOpcode::VDIVSD => "VDIVSD",
            FloatOpcode::VDIVSS => "VDIVSS",
            FloatOpcode::VDPPD => "VDPPD",
            FloatOpcode::VDPPS => "VDPPS",
            FloatOpcode::VEXTRACTF128 => "VEXTRACTF128",
            FloatOpcode::VEXTRACTPS => "VEXTRACTPS",
            FloatOpcode::VGATHERDPD => "VGATHERDPD",
            FloatOpcode::VGATHERDPS => "VGATHERDPS",
            FloatOpcode::VGATHERQPD => "VGATHERQPD",
            FloatOpcode::VGATHERQPS => "VGATHERQPS",
            FloatOpcode::VHADDPD => "VHADDPD",
            FloatOpcode::VHADDPS => "VHADDPS",
            FloatOpcode::VHSUBPD => "VHSUBPD",
            FloatOpcode::VHSUBPS => "VHSUBPS",
            FloatOpcode::VINSERTF128 => "VINSERTF128",
            FloatOpcode::VINSERTPS => "VINSERTPS",
            FloatOpcode::VLDMXCSR => "VLDMXCSR",
            FloatOpcode::VMASKMOVPD => "VMASKMOVPD",
            FloatOpcode::VMASKMOVPS => "VMASKMOVPS",
            FloatOpcode::VMAXPD => "VMAXPD",
            FloatOpcode::VMAXPS => "VMAXPS",
            FloatOpcode::VMAXSD => "VMAXSD",
            FloatOpcode::VMAXSS => "VMAXSS",
            FloatOpcode::VMINPD => "VMINPD",
            FloatOpcode::VMINPS => "VMINPS",
            FloatOpcode::VMINSD => "VMINSD",
            FloatOpcode::VMINSS => "VMINSS",
            FloatOpcode::VMOVAPD => "VMOVAPD",
            FloatOpcode::VMOVAPS => "VMOVAPS",
            FloatOpcode::VMOVDDUP => "VMOVDDUP",
            FloatOpcode::VMOVHLPS => "VMOVHLPS",
            FloatOpcode::VMOVHPD => "VMOVHPD",
            FloatOpcode::VMOVHPS => "VMOVHPS",
            FloatOpcode::VMOVLHPS => "VMOVLHPS",
            FloatOpcode::VMOVLPD => "VMOVLPD",
            FloatOpcode::VMOVLPS => "VMOVLPS",
            FloatOpcode::VMOVMSKPD => "VMOVMSKPD",
            FloatOpcode::VMOVMSKPS => "VMOVMSKPS",
            FloatOpcode::VMOVNTPD => "VMOVNTPD",
            FloatOpcode::VMOVNTPS => "VMOVNTPS",
            FloatOpcode::VMOVSD => "VMOVSD",
            FloatOpcode::VMOVSHDUP => "VMOVSHDUP",
            FloatOpcode::VMOVSLDUP => "VMOVSLDUP",
            FloatOpcode::VMOVSS => "VMOVSS",
            FloatOpcode::VMOVUPD => "VMOVUPD",
            FloatOpcode::VMOVUPS => "VMOVUPS",
            FloatOpcode::VMULPD => "VMULPD",
            FloatOpcode::VMULPS => "VMULPS",
            FloatOpcode::VMULSD => "VMULSD",
            FloatOpcode::VMULSS => "VMULSS",
            FloatOpcode::VORPD => "VORPD",
            FloatOpcode::VORPS => "VORPS",
            FloatOpcode::VPERM2F128 => "VPERM2F128",
            FloatOpcode::VPERMILPD => "VPERMILPD",
            FloatOpcode::VPERMILPS => "VPERMILPS",
            FloatOpcode::VPERMPD => "VPERMPD",
            FloatOpcode::VPERMPS => "VPERMPS",
            FloatOpcode::VRCPPS => "VRCPPS",
            FloatOpcode::VRCPSS => "VRCPSS",
            FloatOpcode::VROUNDPD => "VROUNDPD",
            FloatOpcode::VROUNDPS => "VROUNDPS",
            FloatOpcode::VROUNDSD => "VROUNDSD",
            FloatOpcode::VROUNDSS => "VROUNDSS",
            FloatOpcode::VRSQRTPS => "VRSQRTPS",
            FloatOpcode::VRSQRTSS => "VRSQRTSS",
            FloatOpcode::VSHUFPD => "VSHUFPD",
            FloatOpcode::VSHUFPS => "VSHUFPS",
            FloatOpcode::VSQRTPD => "VSQRTPD",
            FloatOpcode::VSQRTPS => "VSQRTPS",
            FloatOpcode::VSQRTSD => "VSQRTSD",
            FloatOpcode::VSQRTSS => "VSQRTSS",
            FloatOpcode::VSTMXCSR => "VSTMXCSR",
            FloatOpcode::VSUBPD => "VSUBPD",
            FloatOpcode::VSUBPS => "VSUBPS",
            FloatOpcode::VSUBSD => "VSUBSD",
            FloatOpcode::VSUBSS => "VSUBSS",
            FloatOpcode::VTESTPD => "VTESTPD",
            FloatOpcode::VTESTPS => "VTESTPS",
            FloatOpcode::VUCOMISD => "VUCOMISD",
            FloatOpcode::VUCOMISS => "VUCOMISS",
            FloatOpcode::VUNPCKHPD => "VUNPCKHPD",
            FloatOpcode::VUNPCKHPS => "VUNPCKHPS",
            FloatOpcode::VUNPCKLPD => "VUNPCKLPD",
            FloatOpcode::VUNPCKLPS => "VUNPCKLPS",
            FloatOpcode::VXORPD => "VXORPD",
            FloatOpcode::VXORPS => "VXORPS",
        }
    }

    /// What the settings must say to permit the opcode without the EVEX mark.
    #[tactic(auto, unfolding(crate::specs::Condition::opcode_condition))]
    pub fn condition(self) -> Condition
        ensures { result ≡ opcode_condition (Float self) }
    {
        match self {
            FloatOpcode::VCVTPH2PS | FloatOpcode::VCVTPS2PH => Condition::AvxAndF16c,
            _ => Condition::Avx,
        }
    }
}

impl fmt::Debug for FloatOpcode {
    ghost debug_output = { λ opcode. Some (opcode_name (Float opcode)) };

    fn fmt<W: fmt::Write>(&self, f: &mut fmt::Formatter<W>) -> fmt::Result {
        f.write_str(self.name())
    }
}
