//! The processors that have names, and the features of each.

ghost use Rattle.std.specs.Prelude.{◌≡◌, ◌↔◌, IsTrue, Some, true};
ghost use Rattle.x86_features.specs.declared.feature.Feature.{Feature};
ghost use Rattle.x86_features.specs.Features.{has};
ghost use Rattle.x86_features.specs.Processors.{all_processors, processor_features, processor_name, processor_named};

use crate::feature::{FeatureSet, NONE};
use std::fmt;

/// A microarchitecture, as the first processors that were sold under its name, AMD's before Intel's and each maker's in
/// the order in which they came.
#[derive(Clone, Copy, PartialEq, Eq, Debug)]
pub enum Processor {
    K8,
    K10,
    Bulldozer,
    Piledriver,
    Steamroller,
    Excavator,
    Zen,
    Zen2,
    Zen3,
    Zen4,
    Zen5,
    Netburst,
    Core,
    Penryn,
    Nehalem,
    Westmere,
    Sandybridge,
    Ivybridge,
    Haswell,
    HaswellEx,
    Broadwell,
    Skylake,
    Kabylake,
}

/// AES-NI on xmm registers, before AVX.
const WESTMERE: FeatureSet = FeatureSet {
    aes: true,
    pclmulqdq: true,
    ..NONE
};

const SANDYBRIDGE: FeatureSet = FeatureSet {
    avx: true,
    ..WESTMERE
};

const IVYBRIDGE: FeatureSet = FeatureSet {
    f16c: true,
    ..SANDYBRIDGE
};

const HASWELL: FeatureSet = FeatureSet {
    avx2: true,
    fma: true,
    bmi1: true,
    bmi2: true,
    ..IVYBRIDGE
};

const PILEDRIVER: FeatureSet = FeatureSet {
    fma: true,
    f16c: true,
    bmi1: true,
    ..SANDYBRIDGE
};

const EXCAVATOR: FeatureSet = FeatureSet {
    avx2: true,
    bmi2: true,
    ..PILEDRIVER
};

const ZEN_3: FeatureSet = FeatureSet {
    vaes: true,
    ..EXCAVATOR
};

const ZEN_4: FeatureSet = FeatureSet {
    avx512f: true,
    avx512vl: true,
    ..ZEN_3
};

/// A line of the table of processors.
#[derive(Clone, Copy, Debug)]
struct ProcessorLine {
    processor: Processor,
    features: FeatureSet,
}

macro_rules! has {
    ($processor:ident $features:ident) => {
        ProcessorLine {
            processor: Processor::$processor,
            features: $features,
        }
    };
}

/// The features of each processor, from its maker's manuals.
#[rattlefmt::skip]
static PROCESSORS: [ProcessorLine; 23] = [
    has!(K8 NONE),
    has!(K10 NONE),
    has!(Bulldozer SANDYBRIDGE),
    has!(Piledriver PILEDRIVER),
    has!(Steamroller PILEDRIVER),
    has!(Excavator EXCAVATOR),
    has!(Zen EXCAVATOR),
    has!(Zen2 EXCAVATOR),
    has!(Zen3 ZEN_3),
    has!(Zen4 ZEN_4),
    has!(Zen5 ZEN_4),
    has!(Netburst NONE),
    has!(Core NONE),
    has!(Penryn NONE),
    has!(Nehalem NONE),
    has!(Westmere WESTMERE),
    has!(Sandybridge SANDYBRIDGE),
    has!(Ivybridge IVYBRIDGE),
    has!(Haswell HASWELL),
    has!(HaswellEx HASWELL),
    has!(Broadwell HASWELL),
    has!(Skylake HASWELL),
    has!(Kabylake HASWELL),
];

impl Processor {
    /// All processors, each once, AMD's before Intel's.
    #[tactic(auto, unfolding(crate::specs::Processors::all_processors))]
    pub fn all() -> &'static [Processor]
        ensures { result.now ≡ all_processors }
    {
        &[
            Processor::K8,
            Processor::K10,
            Processor::Bulldozer,
            Processor::Piledriver,
            Processor::Steamroller,
            Processor::Excavator,
            Processor::Zen,
            Processor::Zen2,
            Processor::Zen3,
            Processor::Zen4,
            Processor::Zen5,
            Processor::Netburst,
            Processor::Core,
            Processor::Penryn,
            Processor::Nehalem,
            Processor::Westmere,
            Processor::Sandybridge,
            Processor::Ivybridge,
            Processor::Haswell,
            Processor::HaswellEx,
            Processor::Broadwell,
            Processor::Skylake,
            Processor::Kabylake,
        ]
    }

    /// The processor's name: that of its settings in `x86_uarch`.
    #[tactic(auto, unfolding(crate::specs::Processors::processor_name))]
    pub fn name(self) -> &'static str
        ensures { result.now ≡ processor_name self }
    {
        match self {
            Processor::K8 => "k8",
            Processor::K10 => "k10",
            Processor::Bulldozer => "bulldozer",
            Processor::Piledriver => "piledriver",
            Processor::Steamroller => "steamroller",
            Processor::Excavator => "excavator",
            Processor::Zen => "zen",
            Processor::Zen2 => "zen2",
            Processor::Zen3 => "zen3",
            Processor::Zen4 => "zen4",
            Processor::Zen5 => "zen5",
            Processor::Netburst => "netburst",
            Processor::Core => "core",
            Processor::Penryn => "penryn",
            Processor::Nehalem => "nehalem",
            Processor::Westmere => "westmere",
            Processor::Sandybridge => "sandybridge",
            Processor::Ivybridge => "ivybridge",
            Processor::Haswell => "haswell",
            Processor::HaswellEx => "haswell_ex",
            Processor::Broadwell => "broadwell",
            Processor::Skylake => "skylake",
            Processor::Kabylake => "kabylake",
        }
    }

    /// The processor of that name, and `None` for any other text; case counts.
    #[tactic(auto, unfolding(crate::specs::Processors::processor_named))]
    pub fn named(name: &str) -> Option<Processor>
        ensures { result ≡ processor_named name.now }
    {
        for processor in Processor::all() {
            if processor.name() == name {
                return Some(*processor);
            }
        }
        None
    }

    /// The features that the processor has.
    #[tactic(auto, unfolding(crate::specs::Processors::processor_features, crate::specs::Processors::processor_line))]
    pub fn features(self) -> FeatureSet
        ensures { result ≡ processor_features self }
    {
        PROCESSORS[self as usize].features
    }

    /// Whether the processor has all these features, and so runs each instruction that needs no others.
    pub fn has_all(self, needed: &FeatureSet) -> bool
        ensures { IsTrue result
            ↔ ((feature : Feature) → has needed.now feature ≡ true → has (processor_features self) feature ≡ true) }
    {
        self.features().includes(needed)
    }
}

/// Writes the name.
impl fmt::Display for Processor {
    ghost output = { λ processor. Some (processor_name processor) };

    ghost styled_output = { λ processor _. Some (processor_name processor) };

    fn fmt<W: fmt::Write>(&self, f: &mut fmt::Formatter<W>) -> fmt::Result {
        f.write_str(self.name())
    }
}
