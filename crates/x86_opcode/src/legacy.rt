// The constants, the names and the conditions of a part, written by tools/opcodes.py.
ghost use Rattle.std.specs.Prelude.{◌≡◌, Some};
ghost use Rattle.x86_opcode.specs.Condition.{opcode_condition};
ghost use Rattle.x86_opcode.specs.Name.{opcode_name};
ghost use Rattle.x86_opcode.specs.declared.Opcode.TheVariants.{Legacy};

use crate::{Condition, LegacyOpcode, Opcode};
use std::fmt;

/// Instructions that have no VEX or EVEX prefix.
impl Opcode {
    pub const FEMMS: Opcode = Opcode::Legacy(LegacyOpcode::FEMMS);

    pub const PAVGUSB: Opcode = Opcode::Legacy(LegacyOpcode::PAVGUSB);

    pub const PFADD: Opcode = Opcode::Legacy(LegacyOpcode::PFADD);

    pub const PFSUB: Opcode = Opcode::Legacy(LegacyOpcode::PFSUB);

    pub const PFSUBR: Opcode = Opcode::Legacy(LegacyOpcode::PFSUBR);

    pub const PFACC: Opcode = Opcode::Legacy(LegacyOpcode::PFACC);

    pub const PFCMPGE: Opcode = Opcode::Legacy(LegacyOpcode::PFCMPGE);

    pub const PFCMPGT: Opcode = Opcode::Legacy(LegacyOpcode::PFCMPGT);

    pub const PFCMPEQ: Opcode = Opcode::Legacy(LegacyOpcode::PFCMPEQ);

    pub const PFMAX: Opcode = Opcode::Legacy(LegacyOpcode::PFMAX);

    pub const PFMIN: Opcode = Opcode::Legacy(LegacyOpcode::PFMIN);

    pub const PI2FD: Opcode = Opcode::Legacy(LegacyOpcode::PI2FD);

    pub const PF2ID: Opcode = Opcode::Legacy(LegacyOpcode::PF2ID);

    pub const PFRCP: Opcode = Opcode::Legacy(LegacyOpcode::PFRCP);

    pub const PFRSQRT: Opcode = Opcode::Legacy(LegacyOpcode::PFRSQRT);

    pub const PFMUL: Opcode = Opcode::Legacy(LegacyOpcode::PFMUL);

    pub const PFRCPIT1: Opcode = Opcode::Legacy(LegacyOpcode::PFRCPIT1);

    pub const PFRCPIT2: Opcode = Opcode::Legacy(LegacyOpcode::PFRCPIT2);

    pub const PFRSQIT1: Opcode = Opcode::Legacy(LegacyOpcode::PFRSQIT1);

    pub const PMULHRW: Opcode = Opcode::Legacy(LegacyOpcode::PMULHRW);

    pub const PF2IW: Opcode = Opcode::Legacy(LegacyOpcode::PF2IW);

    pub const PFNACC: Opcode = Opcode::Legacy(LegacyOpcode::PFNACC);

    pub const PFPNACC: Opcode = Opcode::Legacy(LegacyOpcode::PFPNACC);

    pub const PI2FW: Opcode = Opcode::Legacy(LegacyOpcode::PI2FW);

    pub const PSWAPD: Opcode = Opcode::Legacy(LegacyOpcode::PSWAPD);

    pub const TZCNT: Opcode = Opcode::Legacy(LegacyOpcode::TZCNT);

    pub const LDDQU: Opcode = Opcode::Legacy(LegacyOpcode::LDDQU);

    pub const ADDSUBPS: Opcode = Opcode::Legacy(LegacyOpcode::ADDSUBPS);

    pub const ADDSUBPD: Opcode = Opcode::Legacy(LegacyOpcode::ADDSUBPD);

    pub const HADDPS: Opcode = Opcode::Legacy(LegacyOpcode::HADDPS);

    pub const HSUBPS: Opcode = Opcode::Legacy(LegacyOpcode::HSUBPS);

    pub const HADDPD: Opcode = Opcode::Legacy(LegacyOpcode::HADDPD);

    pub const HSUBPD: Opcode = Opcode::Legacy(LegacyOpcode::HSUBPD);

    pub const MOVSHDUP: Opcode = Opcode::Legacy(LegacyOpcode::MOVSHDUP);

    pub const MOVSLDUP: Opcode = Opcode::Legacy(LegacyOpcode::MOVSLDUP);

    pub const MOVDDUP: Opcode = Opcode::Legacy(LegacyOpcode::MOVDDUP);

    pub const MONITOR: Opcode = Opcode::Legacy(LegacyOpcode::MONITOR);

    pub const MWAIT: Opcode = Opcode::Legacy(LegacyOpcode::MWAIT);

    pub const PHADDW: Opcode = Opcode::Legacy(LegacyOpcode::PHADDW);

    pub const PHADDSW: Opcode = Opcode::Legacy(LegacyOpcode::PHADDSW);

    pub const PHADDD: Opcode = Opcode::Legacy(LegacyOpcode::PHADDD);

    pub const PHSUBW: Opcode = Opcode::Legacy(LegacyOpcode::PHSUBW);

    pub const PHSUBSW: Opcode = Opcode::Legacy(LegacyOpcode::PHSUBSW);

    pub const PHSUBD: Opcode = Opcode::Legacy(LegacyOpcode::PHSUBD);

    pub const PABSB: Opcode = Opcode::Legacy(LegacyOpcode::PABSB);

    pub const PABSW: Opcode = Opcode::Legacy(LegacyOpcode::PABSW);

    pub const PABSD: Opcode = Opcode::Legacy(LegacyOpcode::PABSD);

    pub const PMADDUBSW: Opcode = Opcode::Legacy(LegacyOpcode::PMADDUBSW);

    pub const PMULHRSW: Opcode = Opcode::Legacy(LegacyOpcode::PMULHRSW);

    pub const PSHUFB: Opcode = Opcode::Legacy(LegacyOpcode::PSHUFB);

    pub const PSIGNB: Opcode = Opcode::Legacy(LegacyOpcode::PSIGNB);

    pub const PSIGNW: Opcode = Opcode::Legacy(LegacyOpcode::PSIGNW);

    pub const PSIGND: Opcode = Opcode::Legacy(LegacyOpcode::PSIGND);

    pub const PALIGNR: Opcode = Opcode::Legacy(LegacyOpcode::PALIGNR);

    pub const PMULLD: Opcode = Opcode::Legacy(LegacyOpcode::PMULLD);

    pub const PMULDQ: Opcode = Opcode::Legacy(LegacyOpcode::PMULDQ);

    pub const MOVNTDQA: Opcode = Opcode::Legacy(LegacyOpcode::MOVNTDQA);

    pub const BLENDPD: Opcode = Opcode::Legacy(LegacyOpcode::BLENDPD);

    pub const BLENDPS: Opcode = Opcode::Legacy(LegacyOpcode::BLENDPS);

    pub const BLENDVPD: Opcode = Opcode::Legacy(LegacyOpcode::BLENDVPD);

    pub const BLENDVPS: Opcode = Opcode::Legacy(LegacyOpcode::BLENDVPS);

    pub const PBLENDVB: Opcode = Opcode::Legacy(LegacyOpcode::PBLENDVB);

    pub const BLENDW: Opcode = Opcode::Legacy(LegacyOpcode::BLENDW);

    pub const PMINUW: Opcode = Opcode::Legacy(LegacyOpcode::PMINUW);

    pub const PMINUD: Opcode = Opcode::Legacy(LegacyOpcode::PMINUD);

    pub const PMINSB: Opcode = Opcode::Legacy(LegacyOpcode::PMINSB);

    pub const PMINSD: Opcode = Opcode::Legacy(LegacyOpcode::PMINSD);

    pub const PMAXUW: Opcode = Opcode::Legacy(LegacyOpcode::PMAXUW);

    pub const PMAXUD: Opcode = Opcode::Legacy(LegacyOpcode::PMAXUD);

    pub const PMAXSB: Opcode = Opcode::Legacy(LegacyOpcode::PMAXSB);

    pub const PMAXSD: Opcode = Opcode::Legacy(LegacyOpcode::PMAXSD);

    pub const ROUNDPS: Opcode = Opcode::Legacy(LegacyOpcode::ROUNDPS);

    pub const ROUNDPD: Opcode = Opcode::Legacy(LegacyOpcode::ROUNDPD);

    pub const ROUNDSS: Opcode = Opcode::Legacy(LegacyOpcode::ROUNDSS);

    pub const ROUNDSD: Opcode = Opcode::Legacy(LegacyOpcode::ROUNDSD);

    pub const PBLENDW: Opcode = Opcode::Legacy(LegacyOpcode::PBLENDW);

    pub const EXTRACTPS: Opcode = Opcode::Legacy(LegacyOpcode::EXTRACTPS);

    pub const INSERTPS: Opcode = Opcode::Legacy(LegacyOpcode::INSERTPS);

    pub const PINSRB: Opcode = Opcode::Legacy(LegacyOpcode::PINSRB);

    pub const PINSRD: Opcode = Opcode::Legacy(LegacyOpcode::PINSRD);

    pub const PINSRQ: Opcode = Opcode::Legacy(LegacyOpcode::PINSRQ);

    pub const PMOVSXBW: Opcode = Opcode::Legacy(LegacyOpcode::PMOVSXBW);

    pub const PMOVZXBW: Opcode = Opcode::Legacy(LegacyOpcode::PMOVZXBW);

    pub const PMOVSXBD: Opcode = Opcode::Legacy(LegacyOpcode::PMOVSXBD);

    pub const PMOVZXBD: Opcode = Opcode::Legacy(LegacyOpcode::PMOVZXBD);

    pub const PMOVSXWD: Opcode = Opcode::Legacy(LegacyOpcode::PMOVSXWD);

    pub const PMOVZXWD: Opcode = Opcode::Legacy(LegacyOpcode::PMOVZXWD);

    pub const PMOVSXBQ: Opcode = Opcode::Legacy(LegacyOpcode::PMOVSXBQ);

    pub const PMOVZXBQ: Opcode = Opcode::Legacy(LegacyOpcode::PMOVZXBQ);

    pub const PMOVSXWQ: Opcode = Opcode::Legacy(LegacyOpcode::PMOVSXWQ);

    pub const PMOVZXWQ: Opcode = Opcode::Legacy(LegacyOpcode::PMOVZXWQ);

    pub const PMOVSXDQ: Opcode = Opcode::Legacy(LegacyOpcode::PMOVSXDQ);

    pub const PMOVZXDQ: Opcode = Opcode::Legacy(LegacyOpcode::PMOVZXDQ);

    pub const DPPS: Opcode = Opcode::Legacy(LegacyOpcode::DPPS);

    pub const DPPD: Opcode = Opcode::Legacy(LegacyOpcode::DPPD);

    pub const MPSADBW: Opcode = Opcode::Legacy(LegacyOpcode::MPSADBW);

    pub const PHMINPOSUW: Opcode = Opcode::Legacy(LegacyOpcode::PHMINPOSUW);

    pub const PTEST: Opcode = Opcode::Legacy(LegacyOpcode::PTEST);

    pub const PCMPEQQ: Opcode = Opcode::Legacy(LegacyOpcode::PCMPEQQ);

    pub const PEXTRB: Opcode = Opcode::Legacy(LegacyOpcode::PEXTRB);

    pub const PEXTRW: Opcode = Opcode::Legacy(LegacyOpcode::PEXTRW);

    pub const PEXTRD: Opcode = Opcode::Legacy(LegacyOpcode::PEXTRD);

    pub const PEXTRQ: Opcode = Opcode::Legacy(LegacyOpcode::PEXTRQ);

    pub const PACKUSDW: Opcode = Opcode::Legacy(LegacyOpcode::PACKUSDW);

    pub const EXTRQ: Opcode = Opcode::Legacy(LegacyOpcode::EXTRQ);

    pub const INSERTQ: Opcode = Opcode::Legacy(LegacyOpcode::INSERTQ);

    pub const MOVNTSS: Opcode = Opcode::Legacy(LegacyOpcode::MOVNTSS);

    pub const MOVNTSD: Opcode = Opcode::Legacy(LegacyOpcode::MOVNTSD);

    pub const CRC32: Opcode = Opcode::Legacy(LegacyOpcode::CRC32);

    pub const PCMPESTRI: Opcode = Opcode::Legacy(LegacyOpcode::PCMPESTRI);

    pub const PCMPESTRM: Opcode = Opcode::Legacy(LegacyOpcode::PCMPESTRM);

    pub const PCMPISTRI: Opcode = Opcode::Legacy(LegacyOpcode::PCMPISTRI);

    pub const PCMPISTRM: Opcode = Opcode::Legacy(LegacyOpcode::PCMPISTRM);

    pub const PCMPGTQ: Opcode = Opcode::Legacy(LegacyOpcode::PCMPGTQ);

    pub const AESDEC: Opcode = Opcode::Legacy(LegacyOpcode::AESDEC);

    pub const AESDECLAST: Opcode = Opcode::Legacy(LegacyOpcode::AESDECLAST);

    pub const AESENC: Opcode = Opcode::Legacy(LegacyOpcode::AESENC);

    pub const AESENCLAST: Opcode = Opcode::Legacy(LegacyOpcode::AESENCLAST);

    pub const AESIMC: Opcode = Opcode::Legacy(LegacyOpcode::AESIMC);

    pub const AESKEYGENASSIST: Opcode = Opcode::Legacy(LegacyOpcode::AESKEYGENASSIST);

    pub const PCLMULQDQ: Opcode = Opcode::Legacy(LegacyOpcode::PCLMULQDQ);

    pub const XABORT: Opcode = Opcode::Legacy(LegacyOpcode::XABORT);

    pub const XBEGIN: Opcode = Opcode::Legacy(LegacyOpcode::XBEGIN);

    pub const XEND: Opcode = Opcode::Legacy(LegacyOpcode::XEND);

    pub const XTEST: Opcode = Opcode::Legacy(LegacyOpcode::XTEST);

    pub const SHA1MSG1: Opcode = Opcode::Legacy(LegacyOpcode::SHA1MSG1);

    pub const SHA1MSG2: Opcode = Opcode::Legacy(LegacyOpcode::SHA1MSG2);

    pub const SHA1NEXTE: Opcode = Opcode::Legacy(LegacyOpcode::SHA1NEXTE);

    pub const SHA1RNDS4: Opcode = Opcode::Legacy(LegacyOpcode::SHA1RNDS4);

    pub const SHA256MSG1: Opcode = Opcode::Legacy(LegacyOpcode::SHA256MSG1);

    pub const SHA256MSG2: Opcode = Opcode::Legacy(LegacyOpcode::SHA256MSG2);

    pub const SHA256RNDS2: Opcode = Opcode::Legacy(LegacyOpcode::SHA256RNDS2);

    pub const ENCLV: Opcode = Opcode::Legacy(LegacyOpcode::ENCLV);

    pub const ENCLS: Opcode = Opcode::Legacy(LegacyOpcode::ENCLS);

    pub const ENCLU: Opcode = Opcode::Legacy(LegacyOpcode::ENCLU);

    pub const MOVBE: Opcode = Opcode::Legacy(LegacyOpcode::MOVBE);

    pub const POPCNT: Opcode = Opcode::Legacy(LegacyOpcode::POPCNT);

    pub const LZCNT: Opcode = Opcode::Legacy(LegacyOpcode::LZCNT);

    pub const ADCX: Opcode = Opcode::Legacy(LegacyOpcode::ADCX);

    pub const ADOX: Opcode = Opcode::Legacy(LegacyOpcode::ADOX);

    pub const VMRUN: Opcode = Opcode::Legacy(LegacyOpcode::VMRUN);

    pub const VMLOAD: Opcode = Opcode::Legacy(LegacyOpcode::VMLOAD);

    pub const VMSAVE: Opcode = Opcode::Legacy(LegacyOpcode::VMSAVE);

    pub const CLGI: Opcode = Opcode::Legacy(LegacyOpcode::CLGI);

    pub const VMMCALL: Opcode = Opcode::Legacy(LegacyOpcode::VMMCALL);

    pub const INVLPGA: Opcode = Opcode::Legacy(LegacyOpcode::INVLPGA);

    pub const STGI: Opcode = Opcode::Legacy(LegacyOpcode::STGI);

    pub const SKINIT: Opcode = Opcode::Legacy(LegacyOpcode::SKINIT);

    pub const LAHF: Opcode = Opcode::Legacy(LegacyOpcode::LAHF);

    pub const SAHF: Opcode = Opcode::Legacy(LegacyOpcode::SAHF);

    pub const RDRAND: Opcode = Opcode::Legacy(LegacyOpcode::RDRAND);

    pub const RDSEED: Opcode = Opcode::Legacy(LegacyOpcode::RDSEED);

    pub const AESDEC128KL: Opcode = Opcode::Legacy(LegacyOpcode::AESDEC128KL);

    pub const AESDEC256KL: Opcode = Opcode::Legacy(LegacyOpcode::AESDEC256KL);

    pub const AESDECWIDE128KL: Opcode = Opcode::Legacy(LegacyOpcode::AESDECWIDE128KL);

    pub const AESDECWIDE256KL: Opcode = Opcode::Legacy(LegacyOpcode::AESDECWIDE256KL);

    pub const AESENC128KL: Opcode = Opcode::Legacy(LegacyOpcode::AESENC128KL);

    pub const AESENC256KL: Opcode = Opcode::Legacy(LegacyOpcode::AESENC256KL);

    pub const AESENCWIDE128KL: Opcode = Opcode::Legacy(LegacyOpcode::AESENCWIDE128KL);

    pub const AESENCWIDE256KL: Opcode = Opcode::Legacy(LegacyOpcode::AESENCWIDE256KL);

    pub const ENCODEKEY128: Opcode = Opcode::Legacy(LegacyOpcode::ENCODEKEY128);

    pub const ENCODEKEY256: Opcode = Opcode::Legacy(LegacyOpcode::ENCODEKEY256);

    pub const LOADIWKEY: Opcode = Opcode::Legacy(LegacyOpcode::LOADIWKEY);

    pub const MONITORX: Opcode = Opcode::Legacy(LegacyOpcode::MONITORX);

    pub const MWAITX: Opcode = Opcode::Legacy(LegacyOpcode::MWAITX);

    pub const CLZERO: Opcode = Opcode::Legacy(LegacyOpcode::CLZERO);

    pub const RDPRU: Opcode = Opcode::Legacy(LegacyOpcode::RDPRU);

    pub const INVEPT: Opcode = Opcode::Legacy(LegacyOpcode::INVEPT);

    pub const INVVPID: Opcode = Opcode::Legacy(LegacyOpcode::INVVPID);

    pub const HRESET: Opcode = Opcode::Legacy(LegacyOpcode::HRESET);
}

impl LegacyOpcode {
    /// The opcode's name, spelled as its variant.
    #[tactic(auto, unfolding(crate::specs::Name::opcode_name))]
    pub fn name(&self) -> &'static str
        ensures { result.now ≡ opcode_name (Legacy self.now) }
    {
        match self {
            LegacyOpcode::FEMMS => "FEMMS",
            LegacyOpcode::PAVGUSB => "PAVGUSB",
            LegacyOpcode::PFADD => "PFADD",
            LegacyOpcode::PFSUB => "PFSUB",
            LegacyOpcode::PFSUBR => "PFSUBR",
            LegacyOpcode::PFACC => "PFACC",
            LegacyOpcode::PFCMPGE => "PFCMPGE",
            LegacyOpcode::PFCMPGT => "PFCMPGT",
            LegacyOpcode::PFCMPEQ => "PFCMPEQ",
            LegacyOpcode::PFMAX => "PFMAX",
            LegacyOpcode::PFMIN => "PFMIN",
            LegacyOpcode::PI2FD => "PI2FD",
            LegacyOpcode::PF2ID => "PF2ID",
            LegacyOpcode::PFRCP => "PFRCP",
            LegacyOpcode::PFRSQRT => "PFRSQRT",
            LegacyOpcode::PFMUL => "PFMUL",
            LegacyOpcode::PFRCPIT1 => "PFRCPIT1",
            LegacyOpcode::PFRCPIT2 => "PFRCPIT2",
            LegacyOpcode::PFRSQIT1 => "PFRSQIT1",
            LegacyOpcode::PMULHRW => "PMULHRW",
            LegacyOpcode::PF2IW => "PF2IW",
            LegacyOpcode::PFNACC => "PFNACC",
            LegacyOpcode::PFPNACC => "PFPNACC",
            LegacyOpcode::PI2FW => "PI2FW",
            LegacyOpcode::PSWAPD => "PSWAPD",
            LegacyOpcode::TZCNT => "TZCNT",
            LegacyOpcode::LDDQU => "LDDQU",
            LegacyOpcode::ADDSUBPS => "ADDSUBPS",
            LegacyOpcode::ADDSUBPD => "ADDSUBPD",
            LegacyOpcode::HADDPS => "HADDPS",
            LegacyOpcode::HSUBPS => "HSUBPS",
            LegacyOpcode::HADDPD => "HADDPD",
            LegacyOpcode::HSUBPD => "HSUBPD",
            LegacyOpcode::MOVSHDUP => "MOVSHDUP",
            LegacyOpcode::MOVSLDUP => "MOVSLDUP",
            LegacyOpcode::MOVDDUP => "MOVDDUP",
            LegacyOpcode::MONITOR => "MONITOR",
            LegacyOpcode::MWAIT => "MWAIT",
            LegacyOpcode::PHADDW => "PHADDW",
            LegacyOpcode::PHADDSW => "PHADDSW",
            LegacyOpcode::PHADDD => "PHADDD",
            LegacyOpcode::PHSUBW => "PHSUBW",
            LegacyOpcode::PHSUBSW => "PHSUBSW",
            LegacyOpcode::PHSUBD => "PHSUBD",
            LegacyOpcode::PABSB => "PABSB",
            LegacyOpcode::PABSW => "PABSW",
            LegacyOpcode::PABSD => "PABSD",
            LegacyOpcode::PMADDUBSW => "PMADDUBSW",
            LegacyOpcode::PMULHRSW => "PMULHRSW",
            LegacyOpcode::PSHUFB => "PSHUFB",
            LegacyOpcode::PSIGNB => "PSIGNB",
            LegacyOpcode::PSIGNW => "PSIGNW",
            LegacyOpcode::PSIGND => "PSIGND",
            LegacyOpcode::PALIGNR => "PALIGNR",
            LegacyOpcode::PMULLD => "PMULLD",
            LegacyOpcode::PMULDQ => "PMULDQ",
            LegacyOpcode::MOVNTDQA => "MOVNTDQA",
            LegacyOpcode::BLENDPD => "BLENDPD",
            LegacyOpcode::BLENDPS => "BLENDPS",
            LegacyOpcode::BLENDVPD => "BLENDVPD",
            LegacyOpcode::BLENDVPS => "BLENDVPS",
            LegacyOpcode::PBLENDVB => "PBLENDVB",
            LegacyOpcode::BLENDW => "BLENDW",
            LegacyOpcode::PMINUW => "PMINUW",
            LegacyOpcode::PMINUD => "PMINUD",
            LegacyOpcode::PMINSB => "PMINSB",
            LegacyOpcode::PMINSD => "PMINSD",
            LegacyOpcode::PMAXUW => "PMAXUW",
            LegacyOpcode::PMAXUD => "PMAXUD",
            LegacyOpcode::PMAXSB => "PMAXSB",
            LegacyOpcode::PMAXSD => "PMAXSD",
            LegacyOpcode::ROUNDPS => "ROUNDPS",
            LegacyOpcode::ROUNDPD => "ROUNDPD",
            LegacyOpcode::ROUNDSS => "ROUNDSS",
            LegacyOpcode::ROUNDSD => "ROUNDSD",
            LegacyOpcode::PBLENDW => "PBLENDW",
            LegacyOpcode::EXTRACTPS => "EXTRACTPS",
            LegacyOpcode::INSERTPS => "INSERTPS",
            LegacyOpcode::PINSRB => "PINSRB",
            LegacyOpcode::PINSRD => "PINSRD",
            LegacyOpcode::PINSRQ => "PINSRQ",
            LegacyOpcode::PMOVSXBW => "PMOVSXBW",
            LegacyOpcode::PMOVZXBW => "PMOVZXBW",
            LegacyOpcode::PMOVSXBD => "PMOVSXBD",
            LegacyOpcode::PMOVZXBD => "PMOVZXBD",
            LegacyOpcode::PMOVSXWD => "PMOVSXWD",
            LegacyOpcode::PMOVZXWD => "PMOVZXWD",
            LegacyOpcode::PMOVSXBQ => "PMOVSXBQ",
            LegacyOpcode::PMOVZXBQ => "PMOVZXBQ",
            LegacyOpcode::PMOVSXWQ => "PMOVSXWQ",
            LegacyOpcode::PMOVZXWQ => "PMOVZXWQ",
            LegacyOpcode::PMOVSXDQ => "PMOVSXDQ",
            LegacyOpcode::PMOVZXDQ => "PMOVZXDQ",
            LegacyOpcode::DPPS => "DPPS",
            LegacyOpcode::DPPD => "DPPD",
            LegacyOpcode::MPSADBW => "MPSADBW",
            LegacyOpcode::PHMINPOSUW => "PHMINPOSUW",
            LegacyOpcode::PTEST => "PTEST",
            LegacyOpcode::PCMPEQQ => "PCMPEQQ",
            LegacyOpcode::PEXTRB => "PEXTRB",
            LegacyOpcode::PEXTRW => "PEXTRW",
            LegacyOpcode::PEXTRD => "PEXTRD",
            LegacyOpcode::PEXTRQ => "PEXTRQ",
            LegacyOpcode::PACKUSDW => "PACKUSDW",
            LegacyOpcode::EXTRQ => "EXTRQ",
            LegacyOpcode::INSERTQ => "INSERTQ",
            LegacyOpcode::MOVNTSS => "MOVNTSS",
            LegacyOpcode::MOVNTSD => "MOVNTSD",
            LegacyOpcode::CRC32 => "CRC32",
            LegacyOpcode::PCMPESTRI => "PCMPESTRI",
            LegacyOpcode::PCMPESTRM => "PCMPESTRM",
            LegacyOpcode::PCMPISTRI => "PCMPISTRI",
            LegacyOpcode::PCMPISTRM => "PCMPISTRM",
            LegacyOpcode::PCMPGTQ => "PCMPGTQ",
            LegacyOpcode::AESDEC => "AESDEC",
            LegacyOpcode::AESDECLAST => "AESDECLAST",
            LegacyOpcode::AESENC => "AESENC",
            LegacyOpcode::AESENCLAST => "AESENCLAST",
            LegacyOpcode::AESIMC => "AESIMC",
            LegacyOpcode::AESKEYGENASSIST => "AESKEYGENASSIST",
            LegacyOpcode::PCLMULQDQ => "PCLMULQDQ",
            LegacyOpcode::XABORT => "XABORT",
            LegacyOpcode::XBEGIN => "XBEGIN",
            LegacyOpcode::XEND => "XEND",
            LegacyOpcode::XTEST => "XTEST",
            LegacyOpcode::SHA1MSG1 => "SHA1MSG1",
            LegacyOpcode::SHA1MSG2 => "SHA1MSG2",
            LegacyOpcode::SHA1NEXTE => "SHA1NEXTE",
            LegacyOpcode::SHA1RNDS4 => "SHA1RNDS4",
            LegacyOpcode::SHA256MSG1 => "SHA256MSG1",
            LegacyOpcode::SHA256MSG2 => "SHA256MSG2",
            LegacyOpcode::SHA256RNDS2 => "SHA256RNDS2",
            LegacyOpcode::ENCLV => "ENCLV",
            LegacyOpcode::ENCLS => "ENCLS",
            LegacyOpcode::ENCLU => "ENCLU",
            LegacyOpcode::MOVBE => "MOVBE",
            LegacyOpcode::POPCNT => "POPCNT",
            LegacyOpcode::LZCNT => "LZCNT",
            LegacyOpcode::ADCX => "ADCX",
            LegacyOpcode::ADOX => "ADOX",
            LegacyOpcode::VMRUN => "VMRUN",
            LegacyOpcode::VMLOAD => "VMLOAD",
            LegacyOpcode::VMSAVE => "VMSAVE",
            LegacyOpcode::CLGI => "CLGI",
            LegacyOpcode::VMMCALL => "VMMCALL",
            LegacyOpcode::INVLPGA => "INVLPGA",
            LegacyOpcode::STGI => "STGI",
            LegacyOpcode::SKINIT => "SKINIT",
            LegacyOpcode::LAHF => "LAHF",
            LegacyOpcode::SAHF => "SAHF",
            LegacyOpcode::RDRAND => "RDRAND",
            LegacyOpcode::RDSEED => "RDSEED",
            LegacyOpcode::AESDEC128KL => "AESDEC128KL",
            LegacyOpcode::AESDEC256KL => "AESDEC256KL",
            LegacyOpcode::AESDECWIDE128KL => "AESDECWIDE128KL",
            LegacyOpcode::AESDECWIDE256KL => "AESDECWIDE256KL",
            LegacyOpcode::AESENC128KL => "AESENC128KL",
            LegacyOpcode::AESENC256KL => "AESENC256KL",
            LegacyOpcode::AESENCWIDE128KL => "AESENCWIDE128KL",
            LegacyOpcode::AESENCWIDE256KL => "AESENCWIDE256KL",
            LegacyOpcode::ENCODEKEY128 => "ENCODEKEY128",
            LegacyOpcode::ENCODEKEY256 => "ENCODEKEY256",
            LegacyOpcode::LOADIWKEY => "LOADIWKEY",
            LegacyOpcode::MONITORX => "MONITORX",
            LegacyOpcode::MWAITX => "MWAITX",
            LegacyOpcode::CLZERO => "CLZERO",
            LegacyOpcode::RDPRU => "RDPRU",
            LegacyOpcode::INVEPT => "INVEPT",
            LegacyOpcode::INVVPID => "INVVPID",
            LegacyOpcode::HRESET => "HRESET",
        }
    }

    /// What the settings must say to permit the opcode without the EVEX mark.
    #[tactic(auto, unfolding(crate::specs::Condition::opcode_condition))]
    pub fn condition(self) -> Condition
        ensures { result ≡ opcode_condition (Legacy self) }
    {
        match self {
            LegacyOpcode::FEMMS
            | LegacyOpcode::PAVGUSB
            | LegacyOpcode::PFADD
            | LegacyOpcode::PFSUB
            | LegacyOpcode::PFSUBR
            | LegacyOpcode::PFACC
            | LegacyOpcode::PFCMPGE
            | LegacyOpcode::PFCMPGT
            | LegacyOpcode::PFCMPEQ
            | LegacyOpcode::PFMAX
            | LegacyOpcode::PFMIN
            | LegacyOpcode::PI2FD
            | LegacyOpcode::PF2ID
            | LegacyOpcode::PFRCP
            | LegacyOpcode::PFRSQRT
            | LegacyOpcode::PFMUL
            | LegacyOpcode::PFRCPIT1
            | LegacyOpcode::PFRCPIT2
            | LegacyOpcode::PFRSQIT1
            | LegacyOpcode::PMULHRW
            | LegacyOpcode::PF2IW
            | LegacyOpcode::PFNACC
            | LegacyOpcode::PFPNACC
            | LegacyOpcode::PI2FW
            | LegacyOpcode::PSWAPD => Condition::ThreeDNow,
            LegacyOpcode::TZCNT => Condition::Tzcnt,
            LegacyOpcode::LDDQU
            | LegacyOpcode::ADDSUBPS
            | LegacyOpcode::ADDSUBPD
            | LegacyOpcode::HADDPS
            | LegacyOpcode::HSUBPS
            | LegacyOpcode::HADDPD
            | LegacyOpcode::HSUBPD
            | LegacyOpcode::MOVSHDUP
            | LegacyOpcode::MOVSLDUP
            | LegacyOpcode::MOVDDUP
            | LegacyOpcode::MONITOR
            | LegacyOpcode::MWAIT => Condition::Sse3,
            LegacyOpcode::PHADDW
            | LegacyOpcode::PHADDSW
            | LegacyOpcode::PHADDD
            | LegacyOpcode::PHSUBW
            | LegacyOpcode::PHSUBSW
            | LegacyOpcode::PHSUBD
            | LegacyOpcode::PABSB
            | LegacyOpcode::PABSW
            | LegacyOpcode::PABSD
            | LegacyOpcode::PMADDUBSW
            | LegacyOpcode::PMULHRSW
            | LegacyOpcode::PSHUFB
            | LegacyOpcode::PSIGNB
            | LegacyOpcode::PSIGNW
            | LegacyOpcode::PSIGND
            | LegacyOpcode::PALIGNR => Condition::Ssse3,
            LegacyOpcode::PMULLD
            | LegacyOpcode::PMULDQ
            | LegacyOpcode::MOVNTDQA
            | LegacyOpcode::BLENDPD
            | LegacyOpcode::BLENDPS
            | LegacyOpcode::BLENDVPD
            | LegacyOpcode::BLENDVPS
            | LegacyOpcode::PBLENDVB
            | LegacyOpcode::BLENDW
            | LegacyOpcode::PMINUW
            | LegacyOpcode::PMINUD
            | LegacyOpcode::PMINSB
            | LegacyOpcode::PMINSD
            | LegacyOpcode::PMAXUW
            | LegacyOpcode::PMAXUD
            | LegacyOpcode::PMAXSB
            | LegacyOpcode::PMAXSD
            | LegacyOpcode::ROUNDPS
            | LegacyOpcode::ROUNDPD
            | LegacyOpcode::ROUNDSS
            | LegacyOpcode::ROUNDSD
            | LegacyOpcode::PBLENDW
            | LegacyOpcode::EXTRACTPS
            | LegacyOpcode::INSERTPS
            | LegacyOpcode::PINSRB => Condition::Sse41,
            LegacyOpcode::PINSRD
            | LegacyOpcode::PINSRQ
            | LegacyOpcode::PMOVSXBW
            | LegacyOpcode::PMOVZXBW
            | LegacyOpcode::PMOVSXBD
            | LegacyOpcode::PMOVZXBD
            | LegacyOpcode::PMOVSXWD
            | LegacyOpcode::PMOVZXWD
            | LegacyOpcode::PMOVSXBQ
            | LegacyOpcode::PMOVZXBQ
            | LegacyOpcode::PMOVSXWQ
            | LegacyOpcode::PMOVZXWQ
            | LegacyOpcode::PMOVSXDQ
            | LegacyOpcode::PMOVZXDQ
            | LegacyOpcode::DPPS
            | LegacyOpcode::DPPD
            | LegacyOpcode::MPSADBW
            | LegacyOpcode::PHMINPOSUW
            | LegacyOpcode::PTEST
            | LegacyOpcode::PCMPEQQ
            | LegacyOpcode::PEXTRB
            | LegacyOpcode::PEXTRW
            | LegacyOpcode::PEXTRD
            | LegacyOpcode::PEXTRQ
            | LegacyOpcode::PACKUSDW => Condition::Sse41,
            LegacyOpcode::EXTRQ
            | LegacyOpcode::INSERTQ
            | LegacyOpcode::MOVNTSS
            | LegacyOpcode::MOVNTSD => Condition::Sse4a,
            LegacyOpcode::CRC32
            | LegacyOpcode::PCMPESTRI
            | LegacyOpcode::PCMPESTRM
            | LegacyOpcode::PCMPISTRI
            | LegacyOpcode::PCMPISTRM
            | LegacyOpcode::PCMPGTQ => Condition::Sse42,
            LegacyOpcode::AESDEC
            | LegacyOpcode::AESDECLAST
            | LegacyOpcode::AESENC
            | LegacyOpcode::AESENCLAST
            | LegacyOpcode::AESIMC
            | LegacyOpcode::AESKEYGENASSIST => Condition::Aesni,
            LegacyOpcode::PCLMULQDQ => Condition::Pclmulqdq,
            LegacyOpcode::XABORT
            | LegacyOpcode::XBEGIN
            | LegacyOpcode::XEND
            | LegacyOpcode::XTEST => Condition::Tsx,
            LegacyOpcode::SHA1MSG1
            | LegacyOpcode::SHA1MSG2
            | LegacyOpcode::SHA1NEXTE
            | LegacyOpcode::SHA1RNDS4
            | LegacyOpcode::SHA256MSG1
            | LegacyOpcode::SHA256MSG2
            | LegacyOpcode::SHA256RNDS2 => Condition::Sha,
            LegacyOpcode::ENCLV | LegacyOpcode::ENCLS | LegacyOpcode::ENCLU => Condition::Sgx,
            LegacyOpcode::MOVBE => Condition::Movbe,
            LegacyOpcode::POPCNT => Condition::Popcnt,
            LegacyOpcode::LZCNT => Condition::Lzcnt,
            LegacyOpcode::ADCX | LegacyOpcode::ADOX => Condition::Adx,
            LegacyOpcode::VMRUN
            | LegacyOpcode::VMLOAD
            | LegacyOpcode::VMSAVE
            | LegacyOpcode::CLGI
            | LegacyOpcode::VMMCALL
            | LegacyOpcode::INVLPGA => Condition::Svm,
            LegacyOpcode::STGI | LegacyOpcode::SKINIT => Condition::SvmAndSkinit,
            LegacyOpcode::LAHF | LegacyOpcode::SAHF => Condition::Lahfsahf,
            LegacyOpcode::RDRAND => Condition::Rdrand,
            LegacyOpcode::RDSEED => Condition::Rdseed,
            LegacyOpcode::AESDEC128KL
            | LegacyOpcode::AESDEC256KL
            | LegacyOpcode::AESDECWIDE128KL
            | LegacyOpcode::AESDECWIDE256KL
            | LegacyOpcode::AESENC128KL
            | LegacyOpcode::AESENC256KL
            | LegacyOpcode::AESENCWIDE128KL
            | LegacyOpcode::AESENCWIDE256KL
            | LegacyOpcode::ENCODEKEY128
            | LegacyOpcode::ENCODEKEY256
            | LegacyOpcode::LOADIWKEY => Condition::Keylocker,
            LegacyOpcode::MONITORX
            | LegacyOpcode::MWAITX
            | LegacyOpcode::CLZERO
            | LegacyOpcode::RDPRU => Condition::AmdQuirks,
            LegacyOpcode::INVEPT | LegacyOpcode::INVVPID => Condition::Vmx,
            LegacyOpcode::HRESET => Condition::Hreset,
        }
    }
}

impl fmt::Debug for LegacyOpcode {
    ghost debug_output = { λ opcode. Some (opcode_name (Legacy opcode)) };

    fn fmt<W: fmt::Write>(&self, f: &mut fmt::Formatter<W>) -> fmt::Result {
        f.write_str(self.name())
    }
}
