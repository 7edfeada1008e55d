//! CPUID features, and sets of them.

ghost use Rattle.std.specs.Prelude.{◌≡◌, ◌↔◌, IsTrue, Some, true, false};
ghost use Rattle.x86_features.specs.Features.{all_features, feature_name, has, union};

use std::fmt;

/// A feature that CPUID reports, as the manual's column "CPUID Feature Flag" names it (Intel SDM volume 2, section
/// 3.1.1.4), in the order in which lists of features stand.
#[derive(Clone, Copy, PartialEq, Eq, Debug)]
pub enum Feature {
    Avx,
    Avx2,
    Fma,
    F16c,
    Bmi1,
    Bmi2,
    Aes,
    Vaes,
    Pclmulqdq,
    Avx512F,
    Avx512Vl,
}

impl Feature {
    /// All features, each once, in order.
    pub fn all() -> &'static [Feature]
        ensures { result.now ≡ all_features }
    {
        &[
            Feature::Avx,
            Feature::Avx2,
            Feature::Fma,
            Feature::F16c,
            Feature::Bmi1,
            Feature::Bmi2,
            Feature::Aes,
            Feature::Vaes,
            Feature::Pclmulqdq,
            Feature::Avx512F,
            Feature::Avx512Vl,
        ]
    }

    /// The feature's name in the manual, as `AVX2`.
    pub fn name(self) -> &'static str
        ensures { result.now ≡ feature_name self }
    {
        match self {
            Feature::Avx => "AVX",
            Feature::Avx2 => "AVX2",
            Feature::Fma => "FMA",
            Feature::F16c => "F16C",
            Feature::Bmi1 => "BMI1",
            Feature::Bmi2 => "BMI2",
            Feature::Aes => "AES",
            Feature::Vaes => "VAES",
            Feature::Pclmulqdq => "PCLMULQDQ",
            Feature::Avx512F => "AVX512F",
            Feature::Avx512Vl => "AVX512VL",
        }
    }
}

/// Writes the name.
impl fmt::Display for Feature {
    ghost output = { λ feature. Some (feature_name feature) };

    ghost styled_output = { λ feature _. Some (feature_name feature) };

    fn fmt<W: fmt::Write>(&self, f: &mut fmt::Formatter<W>) -> fmt::Result {
        f.write_str(self.name())
    }
}

/// A set of features: each field is true where its feature is in the set.
#[derive(Clone, Copy, PartialEq, Eq, Debug)]
pub struct FeatureSet {
    pub avx: bool,
    pub avx2: bool,
    pub fma: bool,
    pub f16c: bool,
    pub bmi1: bool,
    pub bmi2: bool,
    pub aes: bool,
    pub vaes: bool,
    pub pclmulqdq: bool,
    pub avx512f: bool,
    pub avx512vl: bool,
}

/// No feature.
pub(crate) const NONE: FeatureSet = FeatureSet {
    avx: false,
    avx2: false,
    fma: false,
    f16c: false,
    bmi1: false,
    bmi2: false,
    aes: false,
    vaes: false,
    pclmulqdq: false,
    avx512f: false,
    avx512vl: false,
};

// The sets that lines of the manual name.
pub(crate) const AVX: FeatureSet = FeatureSet { avx: true, ..NONE };

pub(crate) const AVX2: FeatureSet = FeatureSet { avx2: true, ..NONE };

pub(crate) const FMA: FeatureSet = FeatureSet { fma: true, ..NONE };

pub(crate) const F16C: FeatureSet = FeatureSet { f16c: true, ..NONE };

pub(crate) const BMI1: FeatureSet = FeatureSet { bmi1: true, ..NONE };

pub(crate) const BMI2: FeatureSet = FeatureSet { bmi2: true, ..NONE };

pub(crate) const VAES: FeatureSet = FeatureSet { vaes: true, ..NONE };

pub(crate) const AVX_AND_AES: FeatureSet = FeatureSet {
    avx: true,
    aes: true,
    ..NONE
};

pub(crate) const AVX_AND_PCLMULQDQ: FeatureSet = FeatureSet {
    avx: true,
    pclmulqdq: true,
    ..NONE
};

pub(crate) const AVX512F: FeatureSet = FeatureSet {
    avx512f: true,
    ..NONE
};

pub(crate) const AVX512F_AND_AVX512VL: FeatureSet = FeatureSet {
    avx512f: true,
    avx512vl: true,
    ..NONE
};

impl FeatureSet {
    /// The set without a feature.
    pub fn none() -> FeatureSet
        ensures { (feature : Feature) → has result feature ≡ false }
    {
        NONE
    }

    /// Whether the feature is in the set.
    pub fn has(&self, feature: Feature) -> bool
        ensures { result ≡ has self.now feature }
    {
        match feature {
            Feature::Avx => self.avx,
            Feature::Avx2 => self.avx2,
            Feature::Fma => self.fma,
            Feature::F16c => self.f16c,
            Feature::Bmi1 => self.bmi1,
            Feature::Bmi2 => self.bmi2,
            Feature::Aes => self.aes,
            Feature::Vaes => self.vaes,
            Feature::Pclmulqdq => self.pclmulqdq,
            Feature::Avx512F => self.avx512f,
            Feature::Avx512Vl => self.avx512vl,
        }
    }

    /// The features of both sets together.
    pub fn union(&self, other: &FeatureSet) -> FeatureSet
        ensures { result ≡ union self.now other.now }
    {
        FeatureSet {
            avx: self.avx | other.avx,
            avx2: self.avx2 | other.avx2,
            fma: self.fma | other.fma,
            f16c: self.f16c | other.f16c,
            bmi1: self.bmi1 | other.bmi1,
            bmi2: self.bmi2 | other.bmi2,
            aes: self.aes | other.aes,
            vaes: self.vaes | other.vaes,
            pclmulqdq: self.pclmulqdq | other.pclmulqdq,
            avx512f: self.avx512f | other.avx512f,
            avx512vl: self.avx512vl | other.avx512vl,
        }
    }

    /// Whether the two sets are one.
    fn is(&self, other: &FeatureSet) -> bool
        ensures { IsTrue result ↔ (self.now ≡ other.now) }
    {
        *self == *other
    }

    /// Whether each feature of the other set is in this one too.
    pub fn includes(&self, other: &FeatureSet) -> bool
        ensures { IsTrue result ↔ ((feature : Feature) → has other.now feature ≡ true → has self.now feature ≡ true) }
    {
        self.union(other).is(self)
    }
}
