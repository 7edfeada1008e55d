//! What holds of all opcodes at once.

ghost use Rattle.std.specs.Prelude.{◌≡◌, All, length};
ghost use Rattle.x86_opcode.specs.Constants.{constants};
ghost use Rattle.x86_opcode.specs.Name.{opcode_name};

/// The law on constants: each names the opcode whose name it is called by, as `Opcode::VADDPS` is `VADDPS`. They are
/// all opcodes but `Invalid` and `BSF`, which are variants.
pub fn constants_have_their_names()
    ensures named { All (λ c. opcode_name c.0 ≡ c.1) constants }
    ensures count { length constants ≡ 549 }
{}
