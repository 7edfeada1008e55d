//! The settings of microarchitectures, by maker and by name.
//!
//! ```
//! use x86_uarch::{intel, profile};
//!
//! let haswell = profile("haswell").ok_or("a profile")?;
//! assert!(rt; haswell == intel::haswell());
//! assert!(rt; haswell.avx2() && !haswell.avx512_f());
//! ```
#![tactic(auto)]

ghost use Rattle.std.specs.Prelude.{◌≡◌, map};
ghost use Rattle.x86_uarch.specs.Profiles.{microarchitectures, profile_of};

use x86_settings::InstDecoder;

pub mod amd;
#[cfg(test)]
mod example;
pub mod intel;
pub mod laws;

/// The profile of that name: the functions of `amd` and `intel` by their names, and `default` and
/// `minimal`. None for any other text; case counts.
#[tactic(auto, unfolding(crate::specs::Profiles::profiles, crate::specs::Profiles::profile_of))]
pub fn profile(name: &str) -> Option<InstDecoder>
    ensures { result ≡ profile_of name.now }
{
    match name {
        "default" => Some(InstDecoder::default()),
        "minimal" => Some(InstDecoder::minimal()),
        "k8" => Some(amd::k8()),
        "k10" => Some(amd::k10()),
        "bulldozer" => Some(amd::bulldozer()),
        "piledriver" => Some(amd::piledriver()),
        "steamroller" => Some(amd::steamroller()),
        "excavator" => Some(amd::excavator()),
        "zen" => Some(amd::zen()),
        "zen2" => Some(amd::zen2()),
        "zen3" => Some(amd::zen3()),
        "zen4" => Some(amd::zen4()),
        "zen5" => Some(amd::zen5()),
        "netburst" => Some(intel::netburst()),
        "core" => Some(intel::core()),
        "penryn" => Some(intel::penryn()),
        "nehalem" => Some(intel::nehalem()),
        "westmere" => Some(intel::westmere()),
        "sandybridge" => Some(intel::sandybridge()),
        "ivybridge" => Some(intel::ivybridge()),
        "haswell" => Some(intel::haswell()),
        "haswell_ex" => Some(intel::haswell_ex()),
        "broadwell" => Some(intel::broadwell()),
        "skylake" => Some(intel::skylake()),
        "kabylake" => Some(intel::kabylake()),
        _ => None,
    }
}

/// The names of the microarchitectures, AMD's before Intel's: each is a profile's.
#[tactic(auto, unfolding(crate::specs::Profiles::profiles, crate::specs::Profiles::microarchitectures))]
pub fn names() -> &'static [&'static str]
    ensures { map (λ name. name.now) result.now ≡ microarchitectures }
{
    &[
        "k8",
        "k10",
        "bulldozer",
        "piledriver",
        "steamroller",
        "excavator",
        "zen",
        "zen2",
        "zen3",
        "zen4",
        "zen5",
        "netburst",
        "core",
        "penryn",
        "nehalem",
        "westmere",
        "sandybridge",
        "ivybridge",
        "haswell",
        "haswell_ex",
        "broadwell",
        "skylake",
        "kabylake",
    ]
}

#[cfg(test)]
mod tests;
