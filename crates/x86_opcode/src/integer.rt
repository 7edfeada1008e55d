// The constants, the names and the conditions of a part, written by tools/opcodes.py.
ghost use Rattle.std.specs.Prelude.{◌≡◌, Some};
ghost use Rattle.x86_opcode.specs.Condition.{opcode_condition};
ghost use Rattle.x86_opcode.specs.Name.{opcode_name};
ghost use Rattle.x86_opcode.specs.declared.Opcode.TheVariants.{Integer};

use crate::{Condition, IntegerOpcode, Opcode};
use std::fmt;

/// VEX instructions on integers, on general registers, and on no operand.
impl Opcode {
    pub const ANDN: Opcode = Opcode::Integer(IntegerOpcode::ANDN);

    pub const BEXTR: Opcode = Opcode::Integer(IntegerOpcode::BEXTR);

    pub const BLSI: Opcode = Opcode::Integer(IntegerOpcode::BLSI);

    pub const BLSMSK: Opcode = Opcode::Integer(IntegerOpcode::BLSMSK);

    pub const BLSR: Opcode = Opcode::Integer(IntegerOpcode::BLSR);

    pub const BZHI: Opcode = Opcode::Integer(IntegerOpcode::BZHI);

    pub const MULX: Opcode = Opcode::Integer(IntegerOpcode::MULX);

    pub const PDEP: Opcode = Opcode::Integer(IntegerOpcode::PDEP);

    pub const PEXT: Opcode = Opcode::Integer(IntegerOpcode::PEXT);

    pub const RORX: Opcode = Opcode::Integer(IntegerOpcode::RORX);

    pub const SARX: Opcode = Opcode::Integer(IntegerOpcode::SARX);

    pub const SHLX: Opcode = Opcode::Integer(IntegerOpcode::SHLX);

    pub const SHRX: Opcode = Opcode::Integer(IntegerOpcode::SHRX);

    pub const VAESDEC: Opcode = Opcode::Integer(IntegerOpcode::VAESDEC);

    pub const VAESDECLAST: Opcode = Opcode::Integer(IntegerOpcode::VAESDECLAST);

    pub const VAESENC: Opcode = Opcode::Integer(IntegerOpcode::VAESENC);

    pub const VAESENCLAST: Opcode = Opcode::Integer(IntegerOpcode::VAESENCLAST);

    pub const VAESIMC: Opcode = Opcode::Integer(IntegerOpcode::VAESIMC);

    pub const VAESKEYGENASSIST: Opcode = Opcode::Integer(IntegerOpcode::VAESKEYGENASSIST);

    pub const VBROADCASTI128: Opcode = Opcode::Integer(IntegerOpcode::VBROADCASTI128);

    pub const VEXTRACTI128: Opcode = Opcode::Integer(IntegerOpcode::VEXTRACTI128);

    pub const VINSERTI128: Opcode = Opcode::Integer(IntegerOpcode::VINSERTI128);

    pub const VLDDQU: Opcode = Opcode::Integer(IntegerOpcode::VLDDQU);

    pub const VMASKMOVDQU: Opcode = Opcode::Integer(IntegerOpcode::VMASKMOVDQU);

    pub const VMOVD: Opcode = Opcode::Integer(IntegerOpcode::VMOVD);

    pub const VMOVDQA: Opcode = Opcode::Integer(IntegerOpcode::VMOVDQA);

    pub const VMOVDQU: Opcode = Opcode::Integer(IntegerOpcode::VMOVDQU);

    pub const VMOVNTDQ: Opcode = Opcode::Integer(IntegerOpcode::VMOVNTDQ);

    pub const VMOVNTDQA: Opcode = Opcode::Integer(IntegerOpcode::VMOVNTDQA);

    pub const VMOVQ: Opcode = Opcode::Integer(IntegerOpcode::VMOVQ);

    pub const VMPSADBW: Opcode = Opcode::Integer(IntegerOpcode::VMPSADBW);

    pub const VPABSB: Opcode = Opcode::Integer(IntegerOpcode::VPABSB);

    pub const VPABSD: Opcode = Opcode::Integer(IntegerOpcode::VPABSD);

    pub const VPABSW: Opcode = Opcode::Integer(IntegerOpcode::VPABSW);

    pub const VPACKSSDW: Opcode = Opcode::Integer(IntegerOpcode::VPACKSSDW);

    pub const VPACKSSWB: Opcode = Opcode::Integer(IntegerOpcode::VPACKSSWB);

    pub const VPACKUSDW: Opcode = Opcode::Integer(IntegerOpcode::VPACKUSDW);

    pub const VPACKUSWB: Opcode = Opcode::Integer(IntegerOpcode::VPACKUSWB);

    pub const VPADDB: Opcode = Opcode::Integer(IntegerOpcode::VPADDB);

    pub const VPADDD: Opcode = Opcode::Integer(IntegerOpcode::VPADDD);

    pub const VPADDQ: Opcode = Opcode::Integer(IntegerOpcode::VPADDQ);

    pub const VPADDSB: Opcode = Opcode::Integer(IntegerOpcode::VPADDSB);

    pub const VPADDSW: Opcode = Opcode::Integer(IntegerOpcode::VPADDSW);

    pub const VPADDUSB: Opcode = Opcode::Integer(IntegerOpcode::VPADDUSB);

    pub const VPADDUSW: Opcode = Opcode::Integer(IntegerOpcode::VPADDUSW);

    pub const VPADDW: Opcode = Opcode::Integer(IntegerOpcode::VPADDW);

    pub const VPALIGNR: Opcode = Opcode::Integer(IntegerOpcode::VPALIGNR);

    pub const VPAND: Opcode = Opcode::Integer(IntegerOpcode::VPAND);

    pub const VPANDN: Opcode = Opcode::Integer(IntegerOpcode::VPANDN);

    pub const VPAVGB: Opcode = Opcode::Integer(IntegerOpcode::VPAVGB);

    pub const VPAVGW: Opcode = Opcode::Integer(IntegerOpcode::VPAVGW);

    pub const VPBLENDD: Opcode = Opcode::Integer(IntegerOpcode::VPBLENDD);

    pub const VPBLENDVB: Opcode = Opcode::Integer(IntegerOpcode::VPBLENDVB);

    pub const VPBLENDW: Opcode = Opcode::Integer(IntegerOpcode::VPBLENDW);

    pub const VPBROADCASTB: Opcode = Opcode::Integer(IntegerOpcode::VPBROADCASTB);

    pub const VPBROADCASTD: Opcode = Opcode::Integer(IntegerOpcode::VPBROADCASTD);

    pub const VPBROADCASTQ: Opcode = Opcode::Integer(IntegerOpcode::VPBROADCASTQ);

    pub const VPBROADCASTW: Opcode = Opcode::Integer(IntegerOpcode::VPBROADCASTW);

    pub const VPCLMULQDQ: Opcode = Opcode::Integer(IntegerOpcode::VPCLMULQDQ);

    pub const VPCMPEQB: Opcode = Opcode::Integer(IntegerOpcode::VPCMPEQB);

    pub const VPCMPEQD: Opcode = Opcode::Integer(IntegerOpcode::VPCMPEQD);

    pub const VPCMPEQQ: Opcode = Opcode::Integer(IntegerOpcode::VPCMPEQQ);

    pub const VPCMPEQW: Opcode = Opcode::Integer(IntegerOpcode::VPCMPEQW);

    pub const VPCMPESTRI: Opcode = Opcode::Integer(IntegerOpcode::VPCMPESTRI);

    pub const VPCMPESTRM: Opcode = Opcode::Integer(IntegerOpcode::VPCMPESTRM);

    pub const VPCMPGTB: Opcode = Opcode::Integer(IntegerOpcode::VPCMPGTB);

    pub const VPCMPGTD: Opcode = Opcode::Integer(IntegerOpcode::VPCMPGTD);

    pub const VPCMPGTQ: Opcode = Opcode::Integer(IntegerOpcode::VPCMPGTQ);

    pub const VPCMPGTW: Opcode = Opcode::Integer(IntegerOpcode::VPCMPGTW);

    pub const VPCMPISTRI: Opcode = Opcode::Integer(IntegerOpcode::VPCMPISTRI);

    pub const VPCMPISTRM: Opcode = Opcode::Integer(IntegerOpcode::VPCMPISTRM);

    pub const VPERM2I128: Opcode = Opcode::Integer(IntegerOpcode::VPERM2I128);

    pub const VPERMD: Opcode = Opcode::Integer(IntegerOpcode::VPERMD);

    pub const VPERMQ: Opcode = Opcode::Integer(IntegerOpcode::VPERMQ);

    pub const VPEXTRB: Opcode = Opcode::Integer(IntegerOpcode::VPEXTRB);

    pub const VPEXTRD: Opcode = Opcode::Integer(IntegerOpcode::VPEXTRD);

    pub const VPEXTRQ: Opcode = Opcode::Integer(IntegerOpcode::VPEXTRQ);

    pub const VPEXTRW: Opcode = Opcode::Integer(IntegerOpcode::VPEXTRW);

    pub const VPGATHERDD: Opcode = Opcode::Integer(IntegerOpcode::VPGATHERDD);

    pub const VPGATHERDQ: Opcode = Opcode::Integer(IntegerOpcode::VPGATHERDQ);

    pub const VPGATHERQD: Opcode = Opcode::Integer(IntegerOpcode::VPGATHERQD);

    pub const VPGATHERQQ: Opcode = Opcode::Integer(IntegerOpcode::VPGATHERQQ);

    pub const VPHADDD: Opcode = Opcode::Integer(IntegerOpcode::VPHADDD);

    pub const VPHADDSW: Opcode = Opcode::Integer(IntegerOpcode::VPHADDSW);

    pub const VPHADDW: Opcode = Opcode::Integer(IntegerOpcode::VPHADDW);

    pub const VPHMINPOSUW: Opcode = Opcode::Integer(IntegerOpcode::VPHMINPOSUW);

    pub const VPHSUBD: Opcode = Opcode::Integer(IntegerOpcode::VPHSUBD);

    pub const VPHSUBSW: Opcode = Opcode::Integer(IntegerOpcode::VPHSUBSW);

    pub const VPHSUBW: Opcode = Opcode::Integer(IntegerOpcode::VPHSUBW);

    pub const VPINSRB: Opcode = Opcode::Integer(IntegerOpcode::VPINSRB);

    pub const VPINSRD: Opcode = Opcode::Integer(IntegerOpcode::VPINSRD);

    pub const VPINSRQ: Opcode = Opcode::Integer(IntegerOpcode::VPINSRQ);

    pub const VPINSRW: Opcode = Opcode::Integer(IntegerOpcode::VPINSRW);

    pub const VPMADDUBSW: Opcode = Opcode::Integer(IntegerOpcode::VPMADDUBSW);

    pub const VPMADDWD: Opcode = Opcode::Integer(IntegerOpcode::VPMADDWD);

    pub const VPMASKMOVD: Opcode = Opcode::Integer(IntegerOpcode::VPMASKMOVD);

    pub const VPMASKMOVQ: Opcode = Opcode::Integer(IntegerOpcode::VPMASKMOVQ);

    pub const VPMAXSB: Opcode = Opcode::Integer(IntegerOpcode::VPMAXSB);

    pub const VPMAXSD: Opcode = Opcode::Integer(IntegerOpcode::VPMAXSD);

    pub const VPMAXSW: Opcode = Opcode::Integer(IntegerOpcode::VPMAXSW);

    pub const VPMAXUB: Opcode = Opcode::Integer(IntegerOpcode::VPMAXUB);

    pub const VPMAXUD: Opcode = Opcode::Integer(IntegerOpcode::VPMAXUD);

    pub const VPMAXUW: Opcode = Opcode::Integer(IntegerOpcode::VPMAXUW);

    pub const VPMINSB: Opcode = Opcode::Integer(IntegerOpcode::VPMINSB);

    pub const VPMINSD: Opcode = Opcode::Integer(IntegerOpcode::VPMINSD);

    pub const VPMINSW: Opcode = Opcode::Integer(IntegerOpcode::VPMINSW);

    pub const VPMINUB: Opcode = Opcode::Integer(IntegerOpcode::VPMINUB);

    pub const VPMINUD: Opcode = Opcode::Integer(IntegerOpcode::VPMINUD);

    pub const VPMINUW: Opcode = Opcode::Integer(IntegerOpcode::VPMINUW);

    pub const VPMOVMSKB: Opcode = Opcode::Integer(IntegerOpcode::VPMOVMSKB);

    pub const VPMOVSXBD: Opcode = Opcode::Integer(IntegerOpcode::VPMOVSXBD);

    pub const VPMOVSXBQ: Opcode = Opcode::Integer(IntegerOpcode::VPMOVSXBQ);

    pub const VPMOVSXBW: Opcode = Opcode::Integer(IntegerOpcode::VPMOVSXBW);

    pub const VPMOVSXDQ: Opcode = Opcode::Integer(IntegerOpcode::VPMOVSXDQ);

    pub const VPMOVSXWD: Opcode = Opcode::Integer(IntegerOpcode::VPMOVSXWD);

    pub const VPMOVSXWQ: Opcode = Opcode::Integer(IntegerOpcode::VPMOVSXWQ);

    pub const VPMOVZXBD: Opcode = Opcode::Integer(IntegerOpcode::VPMOVZXBD);

    pub const VPMOVZXBQ: Opcode = Opcode::Integer(IntegerOpcode::VPMOVZXBQ);

    pub const VPMOVZXBW: Opcode = Opcode::Integer(IntegerOpcode::VPMOVZXBW);

    pub const VPMOVZXDQ: Opcode = Opcode::Integer(IntegerOpcode::VPMOVZXDQ);

    pub const VPMOVZXWD: Opcode = Opcode::Integer(IntegerOpcode::VPMOVZXWD);

    pub const VPMOVZXWQ: Opcode = Opcode::Integer(IntegerOpcode::VPMOVZXWQ);

    pub const VPMULDQ: Opcode = Opcode::Integer(IntegerOpcode::VPMULDQ);

    pub const VPMULHRSW: Opcode = Opcode::Integer(IntegerOpcode::VPMULHRSW);

    pub const VPMULHUW: Opcode = Opcode::Integer(IntegerOpcode::VPMULHUW);

    pub const VPMULHW: Opcode = Opcode::Integer(IntegerOpcode::VPMULHW);

    pub const VPMULLD: Opcode = Opcode::Integer(IntegerOpcode::VPMULLD);

    pub const VPMULLW: Opcode = Opcode::Integer(IntegerOpcode::VPMULLW);

    pub const VPMULUDQ: Opcode = Opcode::Integer(IntegerOpcode::VPMULUDQ);

    pub const VPOR: Opcode = Opcode::Integer(IntegerOpcode::VPOR);

    pub const VPSADBW: Opcode = Opcode::Integer(IntegerOpcode::VPSADBW);

    pub const VPSHUFB: Opcode = Opcode::Integer(IntegerOpcode::VPSHUFB);

    pub const VPSHUFD: Opcode = Opcode::Integer(IntegerOpcode::VPSHUFD);

    pub const VPSHUFHW: Opcode = Opcode::Integer(IntegerOpcode::VPSHUFHW);

    pub const VPSHUFLW: Opcode = Opcode::Integer(IntegerOpcode::VPSHUFLW);

    pub const VPSIGNB: Opcode = Opcode::Integer(IntegerOpcode::VPSIGNB);

    pub const VPSIGND: Opcode = Opcode::Integer(IntegerOpcode::VPSIGND);

    pub const VPSIGNW: Opcode = Opcode::Integer(IntegerOpcode::VPSIGNW);

    pub const VPSLLD: Opcode = Opcode::Integer(IntegerOpcode::VPSLLD);

    pub const VPSLLDQ: Opcode = Opcode::Integer(IntegerOpcode::VPSLLDQ);

    pub const VPSLLQ: Opcode = Opcode::Integer(IntegerOpcode::VPSLLQ);

    pub const VPSLLVD: Opcode = Opcode::Integer(IntegerOpcode::VPSLLVD);

    pub const VPSLLVQ: Opcode = Opcode::Integer(IntegerOpcode::VPSLLVQ);

    pub const VPSLLW: Opcode = Opcode::Integer(IntegerOpcode::VPSLLW);

    pub const VPSRAD: Opcode = Opcode::Integer(IntegerOpcode::VPSRAD);

    pub const VPSRAVD: Opcode = Opcode::Integer(IntegerOpcode::VPSRAVD);

    pub const VPSRAW: Opcode = Opcode::Integer(IntegerOpcode::VPSRAW);

    pub const VPSRLD: Opcode = Opcode::Integer(IntegerOpcode::VPSRLD);

    pub const VPSRLDQ: Opcode = Opcode::Integer(IntegerOpcode::VPSRLDQ);

    pub const VPSRLQ: Opcode = Opcode::Integer(IntegerOpcode::VPSRLQ);

    pub const VPSRLVD: Opcode = Opcode::Integer(IntegerOpcode::VPSRLVD);

    pub const VPSRLVQ: Opcode = Opcode::Integer(IntegerOpcode::VPSRLVQ);

    pub const VPSRLW: Opcode = Opcode::Integer(IntegerOpcode::VPSRLW);

    pub const VPSUBB: Opcode = Opcode::Integer(IntegerOpcode::VPSUBB);

    pub const VPSUBD: Opcode = Opcode::Integer(IntegerOpcode::VPSUBD);

    pub const VPSUBQ: Opcode = Opcode::Integer(IntegerOpcode::VPSUBQ);

    pub const VPSUBSB: Opcode = Opcode::Integer(IntegerOpcode::VPSUBSB);

    pub const VPSUBSW: Opcode = Opcode::Integer(IntegerOpcode::VPSUBSW);

    pub const VPSUBUSB: Opcode = Opcode::Integer(IntegerOpcode::VPSUBUSB);

    pub const VPSUBUSW: Opcode = Opcode::Integer(IntegerOpcode::VPSUBUSW);

    pub const VPSUBW: Opcode = Opcode::Integer(IntegerOpcode::VPSUBW);

    pub const VPTEST: Opcode = Opcode::Integer(IntegerOpcode::VPTEST);

    pub const VPUNPCKHBW: Opcode = Opcode::Integer(IntegerOpcode::VPUNPCKHBW);

    pub const VPUNPCKHDQ: Opcode = Opcode::Integer(IntegerOpcode::VPUNPCKHDQ);

    pub const VPUNPCKHQDQ: Opcode = Opcode::Integer(IntegerOpcode::VPUNPCKHQDQ);

    pub const VPUNPCKHWD: Opcode = Opcode::Integer(IntegerOpcode::VPUNPCKHWD);

    pub const VPUNPCKLBW: Opcode = Opcode::Integer(IntegerOpcode::VPUNPCKLBW);

    pub const VPUNPCKLDQ: Opcode = Opcode::Integer(IntegerOpcode::VPUNPCKLDQ);

    pub const VPUNPCKLQDQ: Opcode = Opcode::Integer(IntegerOpcode::VPUNPCKLQDQ);

    pub const VPUNPCKLWD: Opcode = Opcode::Integer(IntegerOpcode::VPUNPCKLWD);

    pub const VPXOR: Opcode = Opcode::Integer(IntegerOpcode::VPXOR);

    pub const VZEROALL: Opcode = Opcode::Integer(IntegerOpcode::VZEROALL);

    pub const VZEROUPPER: Opcode = Opcode::Integer(IntegerOpcode::VZEROUPPER);
}

impl IntegerOpcode {
    /// The opcode's name, spelled as its variant.
    #[tactic(auto, unfolding(crate::specs::Name::opcode_name))]
    pub fn name(&self) -> &'static str
        ensures { result.now ≡ opcode_name (Integer self.now) }
    {
        match self {
            IntegerOpcode::ANDN => "ANDN",
            IntegerOpcode::BEXTR => "BEXTR",
            IntegerOpcode::BLSI => "BLSI",
            IntegerOpcode::BLSMSK => "BLSMSK",
            IntegerOpcode::BLSR => "BLSR",
            IntegerOpcode::BZHI => "BZHI",
            IntegerOpcode::MULX => "MULX",
            IntegerOpcode::PDEP => "PDEP",
            IntegerOpcode::PEXT => "PEXT",
            IntegerOpcode::RORX => "RORX",
            IntegerOpcode::SARX => "SARX",
            IntegerOpcode::SHLX => "SHLX",
            IntegerOpcode::SHRX => "SHRX",
            IntegerOpcode::VAESDEC => "VAESDEC",
            IntegerOpcode::VAESDECLAST => "VAESDECLAST",
            IntegerOpcode::VAESENC => "VAESENC",
            IntegerOpcode::VAESENCLAST => "VAESENCLAST",
            IntegerOpcode::VAESIMC => "VAESIMC",
            IntegerOpcode::VAESKEYGENASSIST => "VAESKEYGENASSIST",
            IntegerOpcode::VBROADCASTI128 => "VBROADCASTI128",
            IntegerOpcode::VEXTRACTI128 => "VEXTRACTI128",
            IntegerOpcode::VINSERTI128 => "VINSERTI128",
            IntegerOpcode::VLDDQU => "VLDDQU",
            IntegerOpcode::VMASKMOVDQU => "VMASKMOVDQU",
            IntegerOpcode::VMOVD => "VMOVD",
            IntegerOpcode::VMOVDQA => "VMOVDQA",
            IntegerOpcode::VMOVDQU => "VMOVDQU",
            IntegerOpcode::VMOVNTDQ => "VMOVNTDQ",
            IntegerOpcode::VMOVNTDQA => "VMOVNTDQA",
            IntegerOpcode::VMOVQ => "VMOVQ",
            IntegerOpcode::VMPSADBW => "VMPSADBW",
            IntegerOpcode::VPABSB => "VPABSB",
            IntegerOpcode::VPABSD => "VPABSD",
            IntegerOpcode::VPABSW => "VPABSW",
            IntegerOpcode::VPACKSSDW => "VPACKSSDW",
            IntegerOpcode::VPACKSSWB => "VPACKSSWB",
            IntegerOpcode::VPACKUSDW => "VPACKUSDW",
            IntegerOpcode::VPACKUSWB => "VPACKUSWB",
            IntegerOpcode::VPADDB => "VPADDB",
            IntegerOpcode::VPADDD => "VPADDD",
            IntegerOpcode::VPADDQ => "VPADDQ",
            IntegerOpcode::VPADDSB => "VPADDSB",
            IntegerOpcode::VPADDSW => "VPADDSW",
            IntegerOpcode::VPADDUSB => "VPADDUSB",
            IntegerOpcode::VPADDUSW => "VPADDUSW",
            IntegerOpcode::VPADDW => "VPADDW",
            IntegerOpcode::VPALIGNR => "VPALIGNR",
            IntegerOpcode::VPAND => "VPAND",
            IntegerOpcode::VPANDN => "VPANDN",
            IntegerOpcode::VPAVGB => "VPAVGB",
            IntegerOpcode::VPAVGW => "VPAVGW",
            IntegerOpcode::VPBLENDD => "VPBLENDD",
            IntegerOpcode::VPBLENDVB => "VPBLENDVB",
            IntegerOpcode::VPBLENDW => "VPBLENDW",
            IntegerOpcode::VPBROADCASTB => "VPBROADCASTB",
            IntegerOpcode::VPBROADCASTD => "VPBROADCASTD",
            IntegerOpcode::VPBROADCASTQ => "VPBROADCASTQ",
            IntegerOpcode::VPBROADCASTW => "VPBROADCASTW",
            IntegerOpcode::VPCLMULQDQ => "VPCLMULQDQ",
            IntegerOpcode::VPCMPEQB => "VPCMPEQB",
            IntegerOpcode::VPCMPEQD => "VPCMPEQD",
            IntegerOpcode::VPCMPEQQ => "VPCMPEQQ",
            IntegerOpcode::VPCMPEQW => "VPCMPEQW",
            IntegerOpcode::VPCMPESTRI => "VPCMPESTRI",
            IntegerOpcode::VPCMPESTRM => "VPCMPESTRM",
            IntegerOpcode::VPCMPGTB => "VPCMPGTB",
            IntegerOpcode::VPCMPGTD => "VPCMPGTD",
            IntegerOpcode::VPCMPGTQ => "VPCMPGTQ",
            IntegerOpcode::VPCMPGTW => "VPCMPGTW",
            IntegerOpcode::VPCMPISTRI => "VPCMPISTRI",
            IntegerOpcode::VPCMPISTRM => "VPCMPISTRM",
            IntegerOpcode::VPERM2I128 => "VPERM2I128",
            IntegerOpcode::VPERMD => "VPERMD",
            IntegerOpcode::VPERMQ => "VPERMQ",
            IntegerOpcode::VPEXTRB => "VPEXTRB",
            IntegerOpcode::VPEXTRD => "VPEXTRD",
            IntegerOpcode::VPEXTRQ => "VPEXTRQ",
            IntegerOpcode::VPEXTRW => "VPEXTRW",
            IntegerOpcode::VPGATHERDD => "VPGATHERDD",
            IntegerOpcode::VPGATHERDQ => "VPGATHERDQ",
            IntegerOpcode::VPGATHERQD => "VPGATHERQD",
            IntegerOpcode::VPGATHERQQ => "VPGATHERQQ",
            IntegerOpcode::VPHADDD => "VPHADDD",
            IntegerOpcode::VPHADDSW => "VPHADDSW",
            IntegerOpcode::VPHADDW => "VPHADDW",
            IntegerOpcode::VPHMINPOSUW => "VPHMINPOSUW",
            IntegerOpcode::VPHSUBD => "VPHSUBD",
            IntegerOpcode::VPHSUBSW => "VPHSUBSW",
            IntegerOpcode::VPHSUBW => "VPHSUBW",
            IntegerOpcode::VPINSRB => "VPINSRB",
            IntegerOpcode::VPINSRD => "VPINSRD",
            IntegerOpcode::VPINSRQ => "VPINSRQ",
            IntegerOpcode::VPINSRW => "VPINSRW",
            IntegerOpcode::VPMADDUBSW => "VPMADDUBSW",
            IntegerOpcode::VPMADDWD => "VPMADDWD",
            IntegerOpcode::VPMASKMOVD => "VPMASKMOVD",
            IntegerOpcode::VPMASKMOVQ => "VPMASKMOVQ",
            IntegerOpcode::VPMAXSB => "VPMAXSB",
            IntegerOpcode::VPMAXSD => "VPMAXSD",
            IntegerOpcode::VPMAXSW => "VPMAXSW",
            IntegerOpcode::VPMAXUB => "VPMAXUB",
            IntegerOpcode::VPMAXUD => "VPMAXUD",
            IntegerOpcode::VPMAXUW => "VPMAXUW",
            IntegerOpcode::VPMINSB => "VPMINSB",
            IntegerOpcode::VPMINSD => "VPMINSD",
            IntegerOpcode::VPMINSW => "VPMINSW",
            IntegerOpcode::VPMINUB => "VPMINUB",
            IntegerOpcode::VPMINUD => "VPMINUD",
            IntegerOpcode::VPMINUW => "VPMINUW",
            IntegerOpcode::VPMOVMSKB => "VPMOVMSKB",
            IntegerOpcode::VPMOVSXBD => "VPMOVSXBD",
            IntegerOpcode::VPMOVSXBQ => "VPMOVSXBQ",
            IntegerOpcode::VPMOVSXBW => "VPMOVSXBW",
            IntegerOpcode::VPMOVSXDQ => "VPMOVSXDQ",
            IntegerOpcode::VPMOVSXWD => "VPMOVSXWD",
            IntegerOpcode::VPMOVSXWQ => "VPMOVSXWQ",
            IntegerOpcode::VPMOVZXBD => "VPMOVZXBD",
            IntegerOpcode::VPMOVZXBQ => "VPMOVZXBQ",
            IntegerOpcode::VPMOVZXBW => "VPMOVZXBW",
            IntegerOpcode::VPMOVZXDQ => "VPMOVZXDQ",
            IntegerOpcode::VPMOVZXWD => "VPMOVZXWD",
            IntegerOpcode::VPMOVZXWQ => "VPMOVZXWQ",
            IntegerOpcode::VPMULDQ => "VPMULDQ",
            IntegerOpcode::VPMULHRSW => "VPMULHRSW",
            IntegerOpcode::VPMULHUW => "VPMULHUW",
            IntegerOpcode::VPMULHW => "VPMULHW",
            IntegerOpcode::VPMULLD => "VPMULLD",
            IntegerOpcode::VPMULLW => "VPMULLW",
            IntegerOpcode::VPMULUDQ => "VPMULUDQ",
            IntegerOpcode::VPOR => "VPOR",
            IntegerOpcode::VPSADBW => "VPSADBW",
            IntegerOpcode::VPSHUFB => "VPSHUFB",
            IntegerOpcode::VPSHUFD => "VPSHUFD",
            IntegerOpcode::VPSHUFHW => "VPSHUFHW",
            IntegerOpcode::VPSHUFLW => "VPSHUFLW",
            IntegerOpcode::VPSIGNB => "VPSIGNB",
            IntegerOpcode::VPSIGND => "VPSIGND",
            IntegerOpcode::VPSIGNW => "VPSIGNW",
            IntegerOpcode::VPSLLD => "VPSLLD",
            IntegerOpcode::VPSLLDQ => "VPSLLDQ",
            IntegerOpcode::VPSLLQ => "VPSLLQ",
            IntegerOpcode::VPSLLVD => "VPSLLVD",
            IntegerOpcode::VPSLLVQ => "VPSLLVQ",
            IntegerOpcode::VPSLLW => "VPSLLW",
            IntegerOpcode::VPSRAD => "VPSRAD",
            IntegerOpcode::VPSRAVD => "VPSRAVD",
            IntegerOpcode::VPSRAW => "VPSRAW",
            IntegerOpcode::VPSRLD => "VPSRLD",
            IntegerOpcode::VPSRLDQ => "VPSRLDQ",
            IntegerOpcode::VPSRLQ => "VPSRLQ",
            IntegerOpcode::VPSRLVD => "VPSRLVD",
            IntegerOpcode::VPSRLVQ => "VPSRLVQ",
            IntegerOpcode::VPSRLW => "VPSRLW",
            IntegerOpcode::VPSUBB => "VPSUBB",
            IntegerOpcode::VPSUBD => "VPSUBD",
            IntegerOpcode::VPSUBQ => "VPSUBQ",
            IntegerOpcode::VPSUBSB => "VPSUBSB",
            IntegerOpcode::VPSUBSW => "VPSUBSW",
            IntegerOpcode::VPSUBUSB => "VPSUBUSB",
            IntegerOpcode::VPSUBUSW => "VPSUBUSW",
            IntegerOpcode::VPSUBW => "VPSUBW",
            IntegerOpcode::VPTEST => "VPTEST",
            IntegerOpcode::VPUNPCKHBW => "VPUNPCKHBW",
            IntegerOpcode::VPUNPCKHDQ => "VPUNPCKHDQ",
            IntegerOpcode::VPUNPCKHQDQ => "VPUNPCKHQDQ",
            IntegerOpcode::VPUNPCKHWD => "VPUNPCKHWD",
            IntegerOpcode::VPUNPCKLBW => "VPUNPCKLBW",
            IntegerOpcode::VPUNPCKLDQ => "VPUNPCKLDQ",
            IntegerOpcode::VPUNPCKLQDQ => "VPUNPCKLQDQ",
            IntegerOpcode::VPUNPCKLWD => "VPUNPCKLWD",
            IntegerOpcode::VPXOR => "VPXOR",
            IntegerOpcode::VZEROALL => "VZEROALL",
            IntegerOpcode::VZEROUPPER => "VZEROUPPER",
        }
    }

    /// What the settings must say to permit the opcode without the EVEX mark.
    #[tactic(auto, unfolding(crate::specs::Condition::opcode_condition))]
    pub fn condition(self) -> Condition
        ensures { result ≡ opcode_condition (Integer self) }
    {
        match self {
            IntegerOpcode::ANDN
            | IntegerOpcode::BEXTR
            | IntegerOpcode::BLSI
            | IntegerOpcode::BLSMSK
            | IntegerOpcode::BLSR => Condition::Bmi1,
            IntegerOpcode::BZHI
            | IntegerOpcode::MULX
            | IntegerOpcode::PDEP
            | IntegerOpcode::PEXT
            | IntegerOpcode::RORX
            | IntegerOpcode::SARX
            | IntegerOpcode::SHLX
            | IntegerOpcode::SHRX => Condition::Bmi2,
            IntegerOpcode::VAESDEC
            | IntegerOpcode::VAESDECLAST
            | IntegerOpcode::VAESENC
            | IntegerOpcode::VAESENCLAST
            | IntegerOpcode::VAESIMC
            | IntegerOpcode::VAESKEYGENASSIST => Condition::AvxAndAesni,
            _ => Condition::Avx,
        }
    }
}

impl fmt::Debug for IntegerOpcode {
    ghost debug_output = { λ opcode. Some (opcode_name (Integer opcode)) };

    fn fmt<W: fmt::Write>(&self, f: &mut fmt::Formatter<W>) -> fmt::Result {
        f.write_str(self.name())
    }
}
