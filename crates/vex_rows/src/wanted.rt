//! A second copy of the entries, by the form of their operands, to compare `lookup` with.
//!
//! A line has the form, the opcode map, the implied prefix and the rules of W and of L, and after them each opcode byte
//! with its opcode, as the manual has them (Intel SDM volume 2, section 3.1.1.2) but for what docs/DIFFERENCES.md
//! names. Nothing here is made from the table.

use crate::{Form, Key, Map, Pp, Rule};
use x86_operand::Opcode;

/// The entries of one form, opcode map and implied prefix, with the same rules of W and of L: byte and opcode.
struct Line {
    form: Form,
    map: Map,
    pp: Pp,
    w: Rule,
    l: Rule,
    opcodes: &'static [(u8, Opcode)],
}

macro_rules! of_form {
    ($form:ident $map:ident $pp:ident $w:ident $l:ident: $($byte:literal $opcode:ident),+) => {
        Line {
            form: Form::$form,
            map: Map::$map,
            pp: Pp::$pp,
            w: Rule::$w,
            l: Rule::$l,
            opcodes: &[$(($byte, Opcode::$opcode)),+],
        }
    };
}

#[rattlefmt::skip]
static LINES: [Line; 134] = [
    of_form!(Nothing Map0F Plain Any Zero: 0x77 VZEROUPPER),
    of_form!(Nothing Map0F Plain Any One: 0x77 VZEROALL),
    of_form!(MXCSR Map0F Plain Any Zero: 0xAE Invalid),
    of_form!(VMOVLPS_12 Map0F Plain Any Zero: 0x12 Invalid),
    of_form!(VMOVHPS_16 Map0F Plain Any Zero: 0x16 Invalid),
    of_form!(VPS_71 Map0F Prefix66 Any Any: 0x71 Invalid),
    of_form!(VPS_72 Map0F Prefix66 Any Any: 0x72 Invalid),
    of_form!(VPS_73 Map0F Prefix66 Any Any: 0x73 Invalid),
    of_form!(VMOVSS_10 Map0F PrefixF3 Any Any: 0x10 VMOVSS),
    of_form!(VMOVSS_11 Map0F PrefixF3 Any Any: 0x11 VMOVSS),
    of_form!(VMOVSD_10 Map0F PrefixF2 Any Any: 0x10 VMOVSD),
    of_form!(VMOVSD_11 Map0F PrefixF2 Any Any: 0x11 VMOVSD),
    of_form!(G_E_xyLmm Map0F Plain Any Any:
        0x10 VMOVUPS, 0x28 VMOVAPS, 0x51 VSQRTPS, 0x52 VRSQRTPS, 0x53 VRCPPS, 0x5B VCVTDQ2PS),
    of_form!(G_E_xyLmm Map0F Prefix66 Any Any:
        0x10 VMOVUPD, 0x28 VMOVAPD, 0x51 VSQRTPD, 0x5B VCVTPS2DQ, 0x6F VMOVDQA),
    of_form!(G_E_xyLmm Map0F PrefixF2 Any Any: 0x12 VMOVDDUP),
    of_form!(G_E_xyLmm Map0F38 Prefix66 Zero Any: 0x0E VTESTPS, 0x0F VTESTPD),
    of_form!(G_E_xyLmm Map0F38 Prefix66 Any Any: 0x17 VPTEST, 0x1C VPABSB, 0x1D VPABSW, 0x1E VPABSD),
    of_form!(E_G_xyLmm Map0F Plain Any Any: 0x11 VMOVUPS, 0x29 VMOVAPS),
    of_form!(E_G_xyLmm Map0F Prefix66 Any Any: 0x11 VMOVUPD, 0x29 VMOVAPD, 0x7F VMOVDQA),
    of_form!(E_G_xyLmm Map0F Prefix66 Any Zero: 0xD6 VMOVQ),
    of_form!(E_G_xyLmm Map0F PrefixF3 Any Any: 0x7F VMOVDQU),
    of_form!(M_G_xmm Map0F Plain Any Zero: 0x13 VMOVLPS, 0x17 VMOVHPS, 0x2B VMOVNTPS),
    of_form!(M_G_xmm Map0F Prefix66 Any Zero: 0x13 VMOVLPD, 0x17 VMOVHPD),
    of_form!(M_G_ymm Map0F Plain Any One: 0x2B VMOVNTPS),
    of_form!(M_G_xyLmm Map0F Prefix66 Any Any: 0x2B VMOVNTPD, 0xE7 VMOVNTDQ),
    of_form!(G_E_xmm Map0F Plain Any Any: 0x2E VUCOMISS, 0x2F VCOMISS),
    of_form!(G_E_xmm Map0F Plain Any Zero: 0x5A VCVTPS2PD),
    of_form!(G_E_xmm Map0F Prefix66 Any Any: 0x2E VUCOMISD, 0x2F VCOMISD),
    of_form!(G_E_xmm Map0F Prefix66 Any Zero: 0xE6 VCVTTPD2DQ),
    of_form!(G_E_xmm Map0F PrefixF3 Any Zero: 0x12 VMOVSLDUP, 0x16 VMOVSHDUP, 0x6F VMOVDQU, 0x7E VMOVQ),
    of_form!(G_E_xmm Map0F38 Prefix66 Zero Zero: 0x18 VBROADCASTSS),
    of_form!(G_E_xmm Map0F38 Prefix66 Any Zero: 0x41 VPHMINPOSUW, 0xDB VAESIMC),
    of_form!(G_E_xmm Map0F38 Prefix66 Any Zero:
        0x20 VPMOVSXBW, 0x21 VPMOVSXBD, 0x22 VPMOVSXBQ, 0x23 VPMOVSXWD, 0x24 VPMOVSXWQ, 0x25 VPMOVSXDQ,
        0x30 VPMOVZXBW, 0x31 VPMOVZXBD, 0x32 VPMOVZXBQ, 0x33 VPMOVZXWD, 0x34 VPMOVZXWQ, 0x35 VPMOVZXDQ),
    of_form!(G_ymm_E_xmm Map0F38 Prefix66 Any One:
        0x20 VPMOVSXBW, 0x21 VPMOVSXBD, 0x22 VPMOVSXBQ, 0x23 VPMOVSXWD, 0x24 VPMOVSXWQ, 0x25 VPMOVSXDQ,
        0x30 VPMOVZXBW, 0x31 VPMOVZXBD, 0x32 VPMOVZXBQ, 0x33 VPMOVZXWD, 0x34 VPMOVZXWQ, 0x35 VPMOVZXDQ),
    of_form!(G_ymm_E_xmm Map0F Plain Any One: 0x5A VCVTPS2PD),
    of_form!(G_ymm_E_xmm Map0F PrefixF3 Any One: 0xE6 VCVTDQ2PD),
    of_form!(G_ymm_E_xmm Map0F38 Prefix66 Zero One: 0x18 VBROADCASTSS, 0x19 VBROADCASTSD),
    of_form!(G_xmm_E_xmm Map0F Prefix66 Any Zero: 0x5A VCVTPD2PS),
    of_form!(G_xmm_E_xmm Map0F PrefixF2 Any Zero: 0xE6 VCVTPD2DQ),
    of_form!(G_xmm_E_xmm Map0F PrefixF3 Any Zero: 0x5B VCVTTPS2DQ, 0xE6 VCVTDQ2PD),
    of_form!(G_xmm_E_ymm Map0F Prefix66 Any One: 0x5A VCVTPD2PS, 0xE6 VCVTTPD2DQ),
    of_form!(G_xmm_E_ymm Map0F PrefixF2 Any One: 0xE6 VCVTPD2DQ),
    of_form!(G_E_ymm Map0F PrefixF3 Any One: 0x12 VMOVSLDUP, 0x16 VMOVSHDUP, 0x6F VMOVDQU),
    of_form!(G_ymm_E_ymm Map0F PrefixF3 Any One: 0x5B VCVTTPS2DQ),
    of_form!(G_M_xmm Map0F PrefixF2 Any Zero: 0xF0 VLDDQU),
    of_form!(G_M_xmm Map0F38 Prefix66 Any Zero: 0x2A VMOVNTDQA),
    of_form!(G_M_ymm Map0F PrefixF2 Any One: 0xF0 VLDDQU),
    of_form!(G_M_ymm Map0F38 Prefix66 Any One: 0x2A VMOVNTDQA),
    of_form!(G_ymm_M_xmm Map0F38 Prefix66 Zero One: 0x1A VBROADCASTF128, 0x5A VBROADCASTI128),
    of_form!(Ud_G_xyLmm Map0F Plain Any Any: 0x50 VMOVMSKPS),
    of_form!(Ud_G_xyLmm Map0F Prefix66 Any Any: 0xD7 VPMOVMSKB),
    of_form!(Gd_U_xmm Map0F Prefix66 Any Zero: 0x50 VMOVMSKPD),
    of_form!(Gd_U_ymm Map0F Prefix66 Any One: 0x50 VMOVMSKPD),
    of_form!(Ud_G_xmm_imm8 Map0F Prefix66 Any Zero: 0xC5 VPEXTRW),
    of_form!(G_U_xmm_vmaskmovdqu Map0F Prefix66 Any Zero: 0xF7 VMASKMOVDQU),
    of_form!(G_xmm_Ed Map0F Prefix66 Zero Zero: 0x6E VMOVD),
    of_form!(G_xmm_Eq Map0F Prefix66 One Zero: 0x6E VMOVQ),
    of_form!(Ed_G_xmm Map0F Prefix66 Zero Zero: 0x7E VMOVD),
    of_form!(Eq_G_xmm Map0F Prefix66 One Zero: 0x7E VMOVQ),
    of_form!(G_V_E_xyLmm Map0F Plain Any Any:
        0x14 VUNPCKLPS, 0x15 VUNPCKHPS, 0x54 VANDPS, 0x55 VANDNPS, 0x56 VORPS, 0x57 VXORPS, 0x58 VADDPS, 0x59 VMULPS,
        0x5C VSUBPS, 0x5D VMINPS, 0x5E VDIVPS, 0x5F VMAXPS),
    of_form!(G_V_E_xyLmm Map0F Prefix66 Any Any:
        0x14 VUNPCKLPD, 0x15 VUNPCKHPD, 0x54 VANDPD, 0x55 VANDNPD, 0x56 VORPD, 0x57 VXORPD, 0x58 VADDPD, 0x59 VMULPD,
        0x5C VSUBPD, 0x5D VMINPD, 0x5E VDIVPD, 0x5F VMAXPD, 0x60 VPUNPCKLBW, 0x61 VPUNPCKLWD, 0x62 VPUNPCKLDQ,
        0x63 VPACKSSWB, 0x64 VPCMPGTB, 0x65 VPCMPGTW, 0x66 VPCMPGTD, 0x67 VPACKUSWB, 0x68 VPUNPCKHBW, 0x69 VPUNPCKHWD,
        0x6A VPUNPCKHDQ, 0x6B VPACKSSDW, 0x6C VPUNPCKLQDQ, 0x6D VPUNPCKHQDQ, 0x74 VPCMPEQB, 0x75 VPCMPEQW,
        0x76 VPCMPEQD, 0x7C VHADDPD, 0x7D VHSUBPD, 0xD0 VADDSUBPD, 0xD4 VPADDQ, 0xD5 VPMULLW, 0xD8 VPSUBUSB,
        0xD9 VPSUBUSW, 0xDA VPMINUB, 0xDB VPAND, 0xDC VPADDUSB, 0xDD VPADDUSW, 0xDE VPMAXUB, 0xDF VPANDN, 0xE0 VPAVGB,
        0xE3 VPAVGW, 0xE4 VPMULHUW, 0xE5 VPMULHW, 0xE8 VPSUBSB, 0xE9 VPSUBSW, 0xEA VPMINSW, 0xEB VPOR, 0xEC VPADDSB,
        0xED VPADDSW, 0xEE VPMAXSW, 0xEF VPXOR, 0xF4 VPMULUDQ, 0xF5 VPMADDWD, 0xF6 VPSADBW, 0xF8 VPSUBB, 0xF9 VPSUBW,
        0xFA VPSUBD, 0xFB VPSUBQ, 0xFC VPADDB, 0xFD VPADDW, 0xFE VPADDD),
    of_form!(G_V_E_xyLmm Map0F PrefixF2 Any Any: 0x7C VHADDPS, 0x7D VHSUBPS, 0xD0 VADDSUBPS),
    of_form!(G_V_E_xyLmm Map0F38 Prefix66 Any Any:
        0x00 VPSHUFB, 0x01 VPHADDW, 0x02 VPHADDD, 0x03 VPHADDSW, 0x04 VPMADDUBSW, 0x05 VPHSUBW, 0x06 VPHSUBD,
        0x07 VPHSUBSW, 0x08 VPSIGNB, 0x09 VPSIGNW, 0x0A VPSIGND, 0x0B VPMULHRSW, 0x28 VPMULDQ, 0x29 VPCMPEQQ,
        0x2B VPACKUSDW, 0x37 VPCMPGTQ, 0x38 VPMINSB, 0x39 VPMINSD, 0x3A VPMINUW, 0x3B VPMINUD, 0x3C VPMAXSB,
        0x3D VPMAXSD, 0x3E VPMAXUW, 0x3F VPMAXUD, 0x40 VPMULLD, 0xDC VAESENC, 0xDD VAESENCLAST, 0xDE VAESDEC,
        0xDF VAESDECLAST),
    of_form!(G_V_E_xyLmm Map0F38 Prefix66 Zero Any: 0x0C VPERMILPS, 0x0D VPERMILPD, 0x45 VPSRLVD, 0x47 VPSLLVD),
    of_form!(G_V_E_xyLmm Map0F38 Prefix66 One Any: 0x45 VPSRLVQ, 0x47 VPSLLVQ),
    of_form!(G_V_E_xyLmm Map0F38 Prefix66 Zero Any:
        0x96 VFMADDSUB132PS, 0x97 VFMSUBADD132PS, 0x98 VFMADD132PS, 0x9A VFMSUB132PS, 0x9C VFNMADD132PS,
        0x9E VFNMSUB132PS, 0xA6 VFMADDSUB213PS, 0xA7 VFMSUBADD213PS, 0xA8 VFMADD213PS, 0xAA VFMSUB213PS,
        0xAC VFNMADD213PS, 0xAE VFNMSUB213PS, 0xB6 VFMADDSUB231PS, 0xB7 VFMSUBADD231PS, 0xB8 VFMADD231PS,
        0xBA VFMSUB231PS, 0xBC VFNMADD231PS, 0xBE VFNMSUB231PS),
    of_form!(G_V_E_xyLmm Map0F38 Prefix66 One Any:
        0x96 VFMADDSUB132PD, 0x97 VFMSUBADD132PD, 0x98 VFMADD132PD, 0x9A VFMSUB132PD, 0x9C VFNMADD132PD,
        0x9E VFNMSUB132PD, 0xA6 VFMADDSUB213PD, 0xA7 VFMSUBADD213PD, 0xA8 VFMADD213PD, 0xAA VFMSUB213PD,
        0xAC VFNMADD213PD, 0xAE VFNMSUB213PD, 0xB6 VFMADDSUB231PD, 0xB7 VFMSUBADD231PD, 0xB8 VFMADD231PD,
        0xBA VFMSUB231PD, 0xBC VFNMADD231PD, 0xBE VFNMSUB231PD),
    of_form!(G_V_E_xmm Map0F38 Prefix66 Zero Any:
        0x99 VFMADD132SS, 0x9B VFMSUB132SS, 0x9D VFNMADD132SS, 0x9F VFNMSUB132SS, 0xA9 VFMADD213SS, 0xAB VFMSUB213SS,
        0xAD VFNMADD213SS, 0xAF VFNMSUB213SS, 0xB9 VFMADD231SS, 0xBB VFMSUB231SS, 0xBD VFNMADD231SS,
        0xBF VFNMSUB231SS),
    of_form!(G_V_E_xmm Map0F38 Prefix66 One Any:
        0x99 VFMADD132SD, 0x9B VFMSUB132SD, 0x9D VFNMADD132SD, 0x9F VFNMSUB132SD, 0xA9 VFMADD213SD, 0xAB VFMSUB213SD,
        0xAD VFNMADD213SD, 0xAF VFNMSUB213SD, 0xB9 VFMADD231SD, 0xBB VFMSUB231SD, 0xBD VFNMADD231SD,
        0xBF VFNMSUB231SD),
    of_form!(G_V_E_xmm Map0F PrefixF2 Any Any:
        0x51 VSQRTSD, 0x58 VADDSD, 0x59 VMULSD, 0x5C VSUBSD, 0x5D VMINSD, 0x5E VDIVSD, 0x5F VMAXSD),
    of_form!(G_V_E_xmm Map0F PrefixF3 Any Any:
        0x51 VSQRTSS, 0x52 VRSQRTSS, 0x53 VRCPSS, 0x58 VADDSS, 0x59 VMULSS, 0x5C VSUBSS, 0x5D VMINSS, 0x5E VDIVSS,
        0x5F VMAXSS),
    of_form!(G_V_E_xmm Map0F38 Prefix66 Zero Zero: 0x46 VPSRAVD),
    of_form!(G_V_E_xmm Map0F Prefix66 Any Zero:
        0xD1 VPSRLW, 0xD2 VPSRLD, 0xD3 VPSRLQ, 0xE1 VPSRAW, 0xE2 VPSRAD, 0xF1 VPSLLW, 0xF2 VPSLLD, 0xF3 VPSLLQ),
    of_form!(G_V_ymm_E_xmm Map0F Prefix66 Any One:
        0xD1 VPSRLW, 0xD2 VPSRLD, 0xD3 VPSRLQ, 0xE1 VPSRAW, 0xE2 VPSRAD, 0xF1 VPSLLW, 0xF2 VPSLLD, 0xF3 VPSLLQ),
    of_form!(G_V_E_ymm Map0F38 Prefix66 Zero One: 0x16 VPERMPS, 0x36 VPERMD, 0x46 VPSRAVD),
    of_form!(G_V_Eq_xmm Map0F PrefixF2 Any Any: 0x5A VCVTSD2SS),
    of_form!(G_V_Ed_xmm Map0F PrefixF3 Any Any: 0x5A VCVTSS2SD),
    of_form!(G_V_xmm_Ed Map0F PrefixF2 Zero Any: 0x2A VCVTSI2SD),
    of_form!(G_V_xmm_Ed Map0F PrefixF3 Zero Any: 0x2A VCVTSI2SS),
    of_form!(G_V_xmm_Eq Map0F PrefixF2 One Any: 0x2A VCVTSI2SD),
    of_form!(G_V_xmm_Eq Map0F PrefixF3 One Any: 0x2A VCVTSI2SS),
    of_form!(VCVT_Gd_Eq_xmm Map0F PrefixF2 Zero Any: 0x2C VCVTTSD2SI, 0x2D VCVTSD2SI),
    of_form!(VCVT_Gq_Eq_xmm Map0F PrefixF2 One Any: 0x2C VCVTTSD2SI, 0x2D VCVTSD2SI),
    of_form!(VCVT_Gd_Ed_xmm Map0F PrefixF3 Zero Any: 0x2C VCVTTSS2SI, 0x2D VCVTSS2SI),
    of_form!(VCVT_Gq_Ed_xmm Map0F PrefixF3 One Any: 0x2C VCVTTSS2SI, 0x2D VCVTSS2SI),
    of_form!(G_V_M_xmm Map0F Prefix66 Any Zero: 0x12 VMOVLPD, 0x16 VMOVHPD),
    of_form!(G_V_M_xmm Map0F38 Prefix66 Zero Zero: 0x2C VMASKMOVPS, 0x2D VMASKMOVPD, 0x8C VPMASKMOVD),
    of_form!(G_V_M_xmm Map0F38 Prefix66 One Zero: 0x8C VPMASKMOVQ),
    of_form!(G_V_M_ymm Map0F38 Prefix66 Zero One: 0x2C VMASKMOVPS, 0x2D VMASKMOVPD, 0x8C VPMASKMOVD),
    of_form!(G_V_M_ymm Map0F38 Prefix66 One One: 0x8C VPMASKMOVQ),
    of_form!(M_V_G_xmm Map0F38 Prefix66 Zero Zero: 0x2E VMASKMOVPS, 0x2F VMASKMOVPD, 0x8E VPMASKMOVD),
    of_form!(M_V_G_xmm Map0F38 Prefix66 One Zero: 0x8E VPMASKMOVQ),
    of_form!(M_V_G_ymm Map0F38 Prefix66 Zero One: 0x2E VMASKMOVPS, 0x2F VMASKMOVPD, 0x8E VPMASKMOVD),
    of_form!(M_V_G_ymm Map0F38 Prefix66 One One: 0x8E VPMASKMOVQ),
    of_form!(G_Lmm_E_xmm Map0F38 Prefix66 Zero Any:
        0x13 VCVTPH2PS, 0x58 VPBROADCASTD, 0x59 VPBROADCASTQ, 0x78 VPBROADCASTB, 0x79 VPBROADCASTW),
    of_form!(G_ExyL_V_xyLmm Map0F38 Prefix66 Zero Any:
        0x90 VPGATHERDD, 0x91 VPGATHERQD, 0x92 VGATHERDPS, 0x93 VGATHERQPS),
    of_form!(G_ExyL_V_xyLmm Map0F38 Prefix66 One Any:
        0x90 VPGATHERDQ, 0x91 VPGATHERQQ, 0x92 VGATHERDPD, 0x93 VGATHERQPD),
    of_form!(G_V_E Map0F38 Plain Any Zero: 0xF2 ANDN),
    of_form!(G_V_E Map0F38 PrefixF2 Any Zero: 0xF5 PDEP, 0xF6 MULX),
    of_form!(G_V_E Map0F38 PrefixF3 Any Zero: 0xF5 PEXT),
    of_form!(G_E_V Map0F38 Plain Any Zero: 0xF5 BZHI, 0xF7 BEXTR),
    of_form!(G_E_V Map0F38 Prefix66 Any Zero: 0xF7 SHLX),
    of_form!(G_E_V Map0F38 PrefixF2 Any Zero: 0xF7 SHRX),
    of_form!(G_E_V Map0F38 PrefixF3 Any Zero: 0xF7 SARX),
    of_form!(BMI1_F3 Map0F38 Plain Any Zero: 0xF3 Invalid),
    of_form!(G_E_Ib Map0F3A PrefixF2 Any Zero: 0xF0 RORX),
    of_form!(G_E_xyLmm_imm8 Map0F Prefix66 Any Any: 0x70 VPSHUFD),
    of_form!(G_E_xyLmm_imm8 Map0F PrefixF2 Any Any: 0x70 VPSHUFLW),
    of_form!(G_E_xyLmm_imm8 Map0F PrefixF3 Any Any: 0x70 VPSHUFHW),
    of_form!(G_E_xyLmm_imm8 Map0F3A Prefix66 Zero Any: 0x04 VPERMILPS, 0x05 VPERMILPD),
    of_form!(G_E_xyLmm_imm8 Map0F3A Prefix66 Any Any: 0x08 VROUNDPS, 0x09 VROUNDPD),
    of_form!(G_V_E_xyLmm_imm8 Map0F Plain Any Any: 0xC2 VCMPPS, 0xC6 VSHUFPS),
    of_form!(G_V_E_xyLmm_imm8 Map0F Prefix66 Any Any: 0xC2 VCMPPD, 0xC6 VSHUFPD),
    of_form!(G_V_E_xyLmm_imm8 Map0F3A Prefix66 Zero Any: 0x02 VPBLENDD),
    of_form!(G_V_E_xyLmm_imm8 Map0F3A Prefix66 Any Any:
        0x0C VBLENDPS, 0x0D VBLENDPD, 0x0E VPBLENDW, 0x0F VPALIGNR, 0x40 VDPPS, 0x42 VMPSADBW),
    of_form!(G_V_E_xmm_imm8 Map0F PrefixF2 Any Any: 0xC2 VCMPSD),
    of_form!(G_V_E_xmm_imm8 Map0F PrefixF3 Any Any: 0xC2 VCMPSS),
    of_form!(G_V_E_xmm_imm8 Map0F3A Prefix66 Any Any: 0x0A VROUNDSS, 0x0B VROUNDSD),
    of_form!(G_V_E_xmm_imm8 Map0F3A Prefix66 Any Zero: 0x21 VINSERTPS, 0x41 VDPPD, 0x44 VPCLMULQDQ),
    of_form!(G_V_xmm_Ev_imm8 Map0F Prefix66 Any Zero: 0xC4 VPINSRW),
    of_form!(G_V_xmm_Ev_imm8 Map0F3A Prefix66 Any Zero: 0x20 VPINSRB),
    of_form!(G_V_xmm_Ev_imm8 Map0F3A Prefix66 Zero Zero: 0x22 VPINSRD),
    of_form!(G_V_xmm_Ev_imm8 Map0F3A Prefix66 One Zero: 0x22 VPINSRQ),
    of_form!(G_E_ymm_imm8 Map0F3A Prefix66 One One: 0x00 VPERMQ, 0x01 VPERMPD),
    of_form!(G_V_E_ymm_imm8 Map0F3A Prefix66 Zero One: 0x06 VPERM2F128, 0x46 VPERM2I128),
    of_form!(G_ymm_V_ymm_E_xmm_imm8 Map0F3A Prefix66 Zero One: 0x18 VINSERTF128, 0x38 VINSERTI128),
    of_form!(E_xmm_G_ymm_imm8 Map0F3A Prefix66 Zero One: 0x19 VEXTRACTF128, 0x1D VCVTPS2PH, 0x39 VEXTRACTI128),
    of_form!(E_G_xmm_imm8 Map0F3A Prefix66 Zero Zero: 0x1D VCVTPS2PH),
    of_form!(Ev_G_xmm_imm8 Map0F3A Prefix66 Zero Zero: 0x14 VPEXTRB, 0x15 VPEXTRW, 0x16 VPEXTRD),
    of_form!(Ev_G_xmm_imm8 Map0F3A Prefix66 One Zero: 0x16 VPEXTRQ),
    of_form!(Ev_G_xmm_imm8 Map0F3A Prefix66 Any Zero: 0x17 VEXTRACTPS),
    of_form!(G_V_E_xmm_xmm4 Map0F3A Prefix66 Zero Zero: 0x4A VBLENDVPS, 0x4B VBLENDVPD, 0x4C VPBLENDVB),
    of_form!(G_V_E_ymm_ymm4 Map0F3A Prefix66 Zero One: 0x4A VBLENDVPS, 0x4B VBLENDVPD, 0x4C VPBLENDVB),
    of_form!(G_E_xmm_imm8 Map0F3A Prefix66 Any Any:
        0x60 VPCMPESTRM, 0x61 VPCMPESTRI, 0x62 VPCMPISTRM, 0x63 VPCMPISTRI, 0xDF VAESKEYGENASSIST),
];

fn lines() -> &'static [Line] {
    &LINES
}

/// The opcode of a byte among those of a line.
fn opcode_of(opcodes: &[(u8, Opcode)], byte: u8) -> Option<Opcode> {
    for (of_byte, opcode) in opcodes {
        if *of_byte == byte {
            return Some(*opcode);
        }
    }
    None
}

/// The form and the opcode of a key, by the first line that has it.
pub fn wanted(key: &Key) -> Option<(Form, Opcode)> {
    for line in lines() {
        if line.map == key.map
            && line.pp == key.pp
            && line.w.allows(key.w)
            && line.l.allows(key.l)
        {
            if let Some(opcode) = opcode_of(line.opcodes, key.byte) {
                return Some((line.form, opcode));
            }
        }
    }
    None
}
