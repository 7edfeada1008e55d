//! What holds between the profiles.

ghost use Rattle.std.specs.Prelude.{◌≡◌};
ghost use Rattle.x86_settings.specs.Sets.{exactly};
ghost use Rattle.x86_uarch.specs.Amd.{bulldozer, steamroller};
ghost use Rattle.x86_uarch.specs.Intel.{core, penryn, skylake, kabylake};

/// Steamroller has the settings of Bulldozer, Penryn those of Core, and Kaby Lake those of Skylake.
pub fn equal_profiles()
    ensures steamroller { exactly steamroller ≡ exactly bulldozer }
    ensures penryn { exactly penryn ≡ exactly core }
    ensures kabylake { exactly kabylake ≡ exactly skylake }
{}
