// The constants, the names and the conditions of a part, written by tools/opcodes.py.
ghost use Rattle.std.specs.Prelude.{◌≡◌, Some};
ghost use Rattle.x86_opcode.specs.Condition.{opcode_condition};
ghost use Rattle.x86_opcode.specs.Name.{opcode_name};
ghost use Rattle.x86_opcode.specs.declared.Opcode.TheVariants.{Marked};

use crate::{Condition, MarkedOpcode, Opcode};
use std::fmt;

/// Instructions that have only an EVEX prefix.
impl Opcode {
    pub const VPMULLQ: Opcode = Opcode::Marked(MarkedOpcode::VPMULLQ);

    pub const VP4DPWSSDS: Opcode = Opcode::Marked(MarkedOpcode::VP4DPWSSDS);

    pub const VP4DPWSSD: Opcode = Opcode::Marked(MarkedOpcode::VP4DPWSSD);

    pub const V4FMADDPS: Opcode = Opcode::Marked(MarkedOpcode::V4FMADDPS);

    pub const V4FNMADDPS: Opcode = Opcode::Marked(MarkedOpcode::V4FNMADDPS);

    pub const V4FMADDSS: Opcode = Opcode::Marked(MarkedOpcode::V4FMADDSS);

    pub const V4FNMADDSS: Opcode = Opcode::Marked(MarkedOpcode::V4FNMADDSS);

    pub const VEXP2PD: Opcode = Opcode::Marked(MarkedOpcode::VEXP2PD);

    pub const VEXP2PS: Opcode = Opcode::Marked(MarkedOpcode::VEXP2PS);

    pub const VRCP28PD: Opcode = Opcode::Marked(MarkedOpcode::VRCP28PD);

    pub const VRCP28PS: Opcode = Opcode::Marked(MarkedOpcode::VRCP28PS);

    pub const VRCP28SD: Opcode = Opcode::Marked(MarkedOpcode::VRCP28SD);

    pub const VRCP28SS: Opcode = Opcode::Marked(MarkedOpcode::VRCP28SS);

    pub const VRSQRT28PD: Opcode = Opcode::Marked(MarkedOpcode::VRSQRT28PD);

    pub const VRSQRT28PS: Opcode = Opcode::Marked(MarkedOpcode::VRSQRT28PS);

    pub const VRSQRT28SD: Opcode = Opcode::Marked(MarkedOpcode::VRSQRT28SD);

    pub const VRSQRT28SS: Opcode = Opcode::Marked(MarkedOpcode::VRSQRT28SS);
}

impl MarkedOpcode {
    /// The opcode's name, spelled as its variant.
    #[tactic(auto, unfolding(crate::specs::Name::opcode_name))]
    pub fn name(&self) -> &'static str
        ensures { result.now ≡ opcode_name (Marked self.now) }
    {
        match self {
            MarkedOpcode::VPMULLQ => "VPMULLQ",
            MarkedOpcode::VP4DPWSSDS => "VP4DPWSSDS",
            MarkedOpcode::VP4DPWSSD => "VP4DPWSSD",
            MarkedOpcode::V4FMADDPS => "V4FMADDPS",
            MarkedOpcode::V4FNMADDPS => "V4FNMADDPS",
            MarkedOpcode::V4FMADDSS => "V4FMADDSS",
            MarkedOpcode::V4FNMADDSS => "V4FNMADDSS",
            MarkedOpcode::VEXP2PD => "VEXP2PD",
            MarkedOpcode::VEXP2PS => "VEXP2PS",
            MarkedOpcode::VRCP28PD => "VRCP28PD",
            MarkedOpcode::VRCP28PS => "VRCP28PS",
            MarkedOpcode::VRCP28SD => "VRCP28SD",
            MarkedOpcode::VRCP28SS => "VRCP28SS",
            MarkedOpcode::VRSQRT28PD => "VRSQRT28PD",
            MarkedOpcode::VRSQRT28PS => "VRSQRT28PS",
            MarkedOpcode::VRSQRT28SD => "VRSQRT28SD",
            MarkedOpcode::VRSQRT28SS => "VRSQRT28SS",
        }
    }

    /// What the settings must say to permit the opcode without the EVEX mark.
    #[tactic(auto, unfolding(crate::specs::Condition::opcode_condition))]
    pub fn condition(self) -> Condition
        ensures { result ≡ opcode_condition (Marked self) }
    {
        match self {
            MarkedOpcode::VPMULLQ => Condition::Avx,
            MarkedOpcode::VP4DPWSSDS
            | MarkedOpcode::VP4DPWSSD
            | MarkedOpcode::V4FMADDPS
            | MarkedOpcode::V4FNMADDPS
            | MarkedOpcode::V4FMADDSS
            | MarkedOpcode::V4FNMADDSS
            | MarkedOpcode::VEXP2PD
            | MarkedOpcode::VEXP2PS
            | MarkedOpcode::VRCP28PD
            | MarkedOpcode::VRCP28PS
            | MarkedOpcode::VRCP28SD
            | MarkedOpcode::VRCP28SS
            | MarkedOpcode::VRSQRT28PD
            | MarkedOpcode::VRSQRT28PS
            | MarkedOpcode::VRSQRT28SD
            | MarkedOpcode::VRSQRT28SS => Condition::Always,
        }
    }
}

impl fmt::Debug for MarkedOpcode {
    ghost debug_output = { λ opcode. Some (opcode_name (Marked opcode)) };

    fn fmt<W: fmt::Write>(&self, f: &mut fmt::Formatter<W>) -> fmt::Result {
        f.write_str(self.name())
    }
}
