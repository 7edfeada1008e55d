// The constants, the names and the conditions of a part, written by tools/opcodes.py.
ghost use Rattle.std.specs.Prelude.{◌≡◌, Some};
ghost use Rattle.x86_opcode.specs.Name.{opcode_name};
ghost use Rattle.x86_opcode.specs.declared.Opcode.TheVariants.{Fused};

use crate::{FusedOpcode, Opcode};
use std::fmt;

/// Fused multiply-add instructions.
impl Opcode {
    pub const VFMADD132PS: Opcode = Opcode::Fused(FusedOpcode::VFMADD132PS);

    pub const VFMADD132PD: Opcode = Opcode::Fused(FusedOpcode::VFMADD132PD);

    pub const VFMADD132SS: Opcode = Opcode::Fused(FusedOpcode::VFMADD132SS);

    pub const VFMADD132SD: Opcode = Opcode::Fused(FusedOpcode::VFMADD132SD);

    pub const VFMADD213PS: Opcode = Opcode::Fused(FusedOpcode::VFMADD213PS);

    pub const VFMADD213PD: Opcode = Opcode::Fused(FusedOpcode::VFMADD213PD);

    pub const VFMADD213SS: Opcode = Opcode::Fused(FusedOpcode::VFMADD213SS);

    pub const VFMADD213SD: Opcode = Opcode::Fused(FusedOpcode::VFMADD213SD);

    pub const VFMADD231PS: Opcode = Opcode::Fused(FusedOpcode::VFMADD231PS);

    pub const VFMADD231PD: Opcode = Opcode::Fused(FusedOpcode::VFMADD231PD);

    pub const VFMADD231SS: Opcode = Opcode::Fused(FusedOpcode::VFMADD231SS);

    pub const VFMADD231SD: Opcode = Opcode::Fused(FusedOpcode::VFMADD231SD);

    pub const VFMADDSUB132PS: Opcode = Opcode::Fused(FusedOpcode::VFMADDSUB132PS);

    pub const VFMADDSUB132PD: Opcode = Opcode::Fused(FusedOpcode::VFMADDSUB132PD);

    pub const VFMADDSUB213PS: Opcode = Opcode::Fused(FusedOpcode::VFMADDSUB213PS);

    pub const VFMADDSUB213PD: Opcode = Opcode::Fused(FusedOpcode::VFMADDSUB213PD);

    pub const VFMADDSUB231PS: Opcode = Opcode::Fused(FusedOpcode::VFMADDSUB231PS);

    pub const VFMADDSUB231PD: Opcode = Opcode::Fused(FusedOpcode::VFMADDSUB231PD);

    pub const VFMSUB132PS: Opcode = Opcode::Fused(FusedOpcode::VFMSUB132PS);

    pub const VFMSUB132PD: Opcode = Opcode::Fused(FusedOpcode::VFMSUB132PD);

    pub const VFMSUB132SS: Opcode = Opcode::Fused(FusedOpcode::VFMSUB132SS);

    pub const VFMSUB132SD: Opcode = Opcode::Fused(FusedOpcode::VFMSUB132SD);

    pub const VFMSUB213PS: Opcode = Opcode::Fused(FusedOpcode::VFMSUB213PS);

    pub const VFMSUB213PD: Opcode = Opcode::Fused(FusedOpcode::VFMSUB213PD);

    pub const VFMSUB213SS: Opcode = Opcode::Fused(FusedOpcode::VFMSUB213SS);

    pub const VFMSUB213SD: Opcode = Opcode::Fused(FusedOpcode::VFMSUB213SD);

    pub const VFMSUB231PS: Opcode = Opcode::Fused(FusedOpcode::VFMSUB231PS);

    pub const VFMSUB231PD: Opcode = Opcode::Fused(FusedOpcode::VFMSUB231PD);

    pub const VFMSUB231SS: Opcode = Opcode::Fused(FusedOpcode::VFMSUB231SS);

    pub const VFMSUB231SD: Opcode = Opcode::Fused(FusedOpcode::VFMSUB231SD);

    pub const VFMSUBADD132PS: Opcode = Opcode::Fused(FusedOpcode::VFMSUBADD132PS);

    pub const VFMSUBADD132PD: Opcode = Opcode::Fused(FusedOpcode::VFMSUBADD132PD);

    pub const VFMSUBADD213PS: Opcode = Opcode::Fused(FusedOpcode::VFMSUBADD213PS);

    pub const VFMSUBADD213PD: Opcode = Opcode::Fused(FusedOpcode::VFMSUBADD213PD);

    pub const VFMSUBADD231PS: Opcode = Opcode::Fused(FusedOpcode::VFMSUBADD231PS);

    pub const VFMSUBADD231PD: Opcode = Opcode::Fused(FusedOpcode::VFMSUBADD231PD);

    pub const VFNMADD132PS: Opcode = Opcode::Fused(FusedOpcode::VFNMADD132PS);

    pub const VFNMADD132PD: Opcode = Opcode::Fused(FusedOpcode::VFNMADD132PD);

    pub const VFNMADD132SS: Opcode = Opcode::Fused(FusedOpcode::VFNMADD132SS);

    pub const VFNMADD132SD: Opcode = Opcode::Fused(FusedOpcode::VFNMADD132SD);

    pub const VFNMADD213PS: Opcode = Opcode::Fused(FusedOpcode::VFNMADD213PS);

    pub const VFNMADD213PD: Opcode = Opcode::Fused(FusedOpcode::VFNMADD213PD);

    pub const VFNMADD213SS: Opcode = Opcode::Fused(FusedOpcode::VFNMADD213SS);

    pub const VFNMADD213SD: Opcode = Opcode::Fused(FusedOpcode::VFNMADD213SD);

    pub const VFNMADD231PS: Opcode = Opcode::Fused(FusedOpcode::VFNMADD231PS);

    pub const VFNMADD231PD: Opcode = Opcode::Fused(FusedOpcode::VFNMADD231PD);

    pub const VFNMADD231SS: Opcode = Opcode::Fused(FusedOpcode::VFNMADD231SS);

    pub const VFNMADD231SD: Opcode = Opcode::Fused(FusedOpcode::VFNMADD231SD);

    pub const VFNMSUB132PS: Opcode = Opcode::Fused(FusedOpcode::VFNMSUB132PS);

    pub const VFNMSUB132PD: Opcode = Opcode::Fused(FusedOpcode::VFNMSUB132PD);

    pub const VFNMSUB132SS: Opcode = Opcode::Fused(FusedOpcode::VFNMSUB132SS);

    pub const VFNMSUB132SD: Opcode = Opcode::Fused(FusedOpcode::VFNMSUB132SD);

    pub const VFNMSUB213PS: Opcode = Opcode::Fused(FusedOpcode::VFNMSUB213PS);

    pub const VFNMSUB213PD: Opcode = Opcode::Fused(FusedOpcode::VFNMSUB213PD);

    pub const VFNMSUB213SS: Opcode = Opcode::Fused(FusedOpcode::VFNMSUB213SS);

    pub const VFNMSUB213SD: Opcode = Opcode::Fused(FusedOpcode::VFNMSUB213SD);

    pub const VFNMSUB231PS: Opcode = Opcode::Fused(FusedOpcode::VFNMSUB231PS);

    pub const VFNMSUB231PD: Opcode = Opcode::Fused(FusedOpcode::VFNMSUB231PD);

    pub const VFNMSUB231SS: Opcode = Opcode::Fused(FusedOpcode::VFNMSUB231SS);

    pub const VFNMSUB231SD: Opcode = Opcode::Fused(FusedOpcode::VFNMSUB231SD);
}

impl FusedOpcode {
    /// The opcode's name, spelled as its variant.
    #[tactic(auto, unfolding(crate::specs::Name::opcode_name))]
    pub fn name(&self) -> &'static str
        ensures { result.now ≡ opcode_name (Fused self.now) }
    {
        match self {
            FusedOpcode::VFMADD132PS => "VFMADD132PS",
            FusedOpcode::VFMADD132PD => "VFMADD132PD",
            FusedOpcode::VFMADD132SS => "VFMADD132SS",
            FusedOpcode::VFMADD132SD => "VFMADD132SD",
            FusedOpcode::VFMADD213PS => "VFMADD213PS",
            FusedOpcode::VFMADD213PD => "VFMADD213PD",
            FusedOpcode::VFMADD213SS => "VFMADD213SS",
            FusedOpcode::VFMADD213SD => "VFMADD213SD",
            FusedOpcode::VFMADD231PS => "VFMADD231PS",
            FusedOpcode::VFMADD231PD => "VFMADD231PD",
            FusedOpcode::VFMADD231SS => "VFMADD231SS",
            FusedOpcode::VFMADD231SD => "VFMADD231SD",
            FusedOpcode::VFMADDSUB132PS => "VFMADDSUB132PS",
            FusedOpcode::VFMADDSUB132PD => "VFMADDSUB132PD",
            FusedOpcode::VFMADDSUB213PS => "VFMADDSUB213PS",
            FusedOpcode::VFMADDSUB213PD => "VFMADDSUB213PD",
            FusedOpcode::VFMADDSUB231PS => "VFMADDSUB231PS",
            FusedOpcode::VFMADDSUB231PD => "VFMADDSUB231PD",
            FusedOpcode::VFMSUB132PS => "VFMSUB132PS",
            FusedOpcode::VFMSUB132PD => "VFMSUB132PD",
            FusedOpcode::VFMSUB132SS => "VFMSUB132SS",
            FusedOpcode::VFMSUB132SD => "VFMSUB132SD",
            FusedOpcode::VFMSUB213PS => "VFMSUB213PS",
            FusedOpcode::VFMSUB213PD => "VFMSUB213PD",
            FusedOpcode::VFMSUB213SS => "VFMSUB213SS",
            FusedOpcode::VFMSUB213SD => "VFMSUB213SD",
            FusedOpcode::VFMSUB231PS => "VFMSUB231PS",
            FusedOpcode::VFMSUB231PD => "VFMSUB231PD",
            FusedOpcode::VFMSUB231SS => "VFMSUB231SS",
            FusedOpcode::VFMSUB231SD => "VFMSUB231SD",
            FusedOpcode::VFMSUBADD132PS => "VFMSUBADD132PS",
            FusedOpcode::VFMSUBADD132PD => "VFMSUBADD132PD",
            FusedOpcode::VFMSUBADD213PS => "VFMSUBADD213PS",
            FusedOpcode::VFMSUBADD213PD => "VFMSUBADD213PD",
            FusedOpcode::VFMSUBADD231PS => "VFMSUBADD231PS",
            FusedOpcode::VFMSUBADD231PD => "VFMSUBADD231PD",
            FusedOpcode::VFNMADD132PS => "VFNMADD132PS",
            FusedOpcode::VFNMADD132PD => "VFNMADD132PD",
            FusedOpcode::VFNMADD132SS => "VFNMADD132SS",
            FusedOpcode::VFNMADD132SD => "VFNMADD132SD",
            FusedOpcode::VFNMADD213PS => "VFNMADD213PS",
            FusedOpcode::VFNMADD213PD => "VFNMADD213PD",
            FusedOpcode::VFNMADD213SS => "VFNMADD213SS",
            FusedOpcode::VFNMADD213SD => "VFNMADD213SD",
            FusedOpcode::VFNMADD231PS => "VFNMADD231PS",
            FusedOpcode::VFNMADD231PD => "VFNMADD231PD",
            FusedOpcode::VFNMADD231SS => "VFNMADD231SS",
            FusedOpcode::VFNMADD231SD => "VFNMADD231SD",
            FusedOpcode::VFNMSUB132PS => "VFNMSUB132PS",
            FusedOpcode::VFNMSUB132PD => "VFNMSUB132PD",
            FusedOpcode::VFNMSUB132SS => "VFNMSUB132SS",
            FusedOpcode::VFNMSUB132SD => "VFNMSUB132SD",
            FusedOpcode::VFNMSUB213PS => "VFNMSUB213PS",
            FusedOpcode::VFNMSUB213PD => "VFNMSUB213PD",
            FusedOpcode::VFNMSUB213SS => "VFNMSUB213SS",
            FusedOpcode::VFNMSUB213SD => "VFNMSUB213SD",
            FusedOpcode::VFNMSUB231PS => "VFNMSUB231PS",
            FusedOpcode::VFNMSUB231PD => "VFNMSUB231PD",
            FusedOpcode::VFNMSUB231SS => "VFNMSUB231SS",
            FusedOpcode::VFNMSUB231SD => "VFNMSUB231SD",
        }
    }
}

impl fmt::Debug for FusedOpcode {
    ghost debug_output = { λ opcode. Some (opcode_name (Fused opcode)) };

    fn fmt<W: fmt::Write>(&self, f: &mut fmt::Formatter<W>) -> fmt::Result {
        f.write_str(self.name())
    }
}
