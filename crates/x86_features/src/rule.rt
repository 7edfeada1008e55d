//! What the manual's column of CPUID features says of the lines of an opcode.

ghost use Rattle.std.specs.Prelude.{◌≡◌};
ghost use Rattle.x86_features.specs.Needs.{longest, rule_features};

use crate::feature::{
    AVX, AVX_AND_AES, AVX_AND_PCLMULQDQ, AVX2, BMI1, BMI2, F16C, FMA, FeatureSet, VAES,
};

/// A vector length: the width of the widest vector register of an instruction, and 128 bits where it has none.
#[derive(Clone, Copy, PartialEq, Eq, Debug)]
pub(crate) enum VectorLength {
    Bits128,
    Bits256,
    Bits512,
}

/// What the lines of an opcode name, and what decides between lines that name different features.
#[derive(Clone, Copy, PartialEq, Eq, Debug)]
pub(crate) enum Rule {
    Avx,
    Avx2,
    Fma,
    F16c,
    Bmi1,
    Bmi2,
    /// AVX and AES.
    AvxAndAes,
    /// AVX and PCLMULQDQ.
    AvxAndPclmulqdq,
    /// AVX at 128 bits; the line of 256 bits came with AVX2.
    ByLength,
    /// AVX and AES at 128 bits; the line of 256 bits came with VAES.
    AesByLength,
    /// AVX from memory; the line with a register as its source came with AVX2.
    Broadcast,
}

impl VectorLength {
    /// The longer of the two.
    pub(crate) fn longest(self, other: VectorLength) -> VectorLength
        ensures { result ≡ longest self other }
    {
        match self {
            VectorLength::Bits128 => other,
            VectorLength::Bits512 => VectorLength::Bits512,
            VectorLength::Bits256 => match other {
                VectorLength::Bits128 => VectorLength::Bits256,
                VectorLength::Bits256 => VectorLength::Bits256,
                VectorLength::Bits512 => VectorLength::Bits512,
            },
        }
    }
}

impl Rule {
    /// The features that the line of that vector length names, with an operand in memory or without one.
    pub(crate) fn features(self, length: VectorLength, in_memory: bool) -> FeatureSet
        ensures { result ≡ rule_features self length in_memory }
    {
        match self {
            Rule::Avx => AVX,
            Rule::Avx2 => AVX2,
            Rule::Fma => FMA,
            Rule::F16c => F16C,
            Rule::Bmi1 => BMI1,
            Rule::Bmi2 => BMI2,
            Rule::AvxAndAes => AVX_AND_AES,
            Rule::AvxAndPclmulqdq => AVX_AND_PCLMULQDQ,
            Rule::ByLength => match length {
                VectorLength::Bits128 => AVX,
                VectorLength::Bits256 | VectorLength::Bits512 => AVX2,
            },
            Rule::AesByLength => match length {
                VectorLength::Bits128 => AVX_AND_AES,
                VectorLength::Bits256 | VectorLength::Bits512 => VAES,
            },
            Rule::Broadcast if in_memory => AVX,
            Rule::Broadcast => AVX2,
        }
    }
}
