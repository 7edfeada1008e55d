//! The settings as two words, and their bits.

ghost use Rattle.std.specs.Prelude.{◌≡◌, ◌<◌, ◌↔◌, ◌++◌, length, IsTrue};
ghost use Rattle.std.specs.Bool.{beq};
ghost use Rattle.std.specs.Cmp.Lexicographic.{pointwise};
ghost use Rattle.std.specs.Cmp.Rules.{comparing};
ghost use Rattle.std.proofs.Common.{rules};
ghost use Rattle.x86_settings.specs.Bits.{is_set, with_set, no_bits, all_bits};
ghost use Rattle.x86_settings.specs.Words.{bits};

use std::marker::Model;

/// The settings that an instruction is decoded by: 128 bits, of which 102 are for extensions of x86 or for quirks.
/// Contracts see them as the list of 128 truth values, bit 0 first. Which of them permit an opcode is stated in
/// `x86_permit`; the others change no answer.
#[derive(Clone, Copy, Debug)]
pub struct InstDecoder {
    low: u64,
    high: u64,
}

impl Model for InstDecoder {
    ghost use Rattle.std.specs.Prelude.{ℕ, ◌^◌, ◌<◌, Bool, List, ◌++◌, take, drop};
    ghost use Rattle.std.proofs.Common.{ap, ◌∙◌};
    ghost use Rattle.x86_settings.specs.Words.{bits, word, word-take, word-drop};

    ghost Value = { List Bool };

    ghost view = { λ d. bits 64 d.low ++ bits 64 d.high };

    ghost invariant = { λ d. (d.low < 2 ^ 64) × (d.high < 2 ^ 64) };

    ghost inverse = { λ s. record { low = word (take 64 s); high = word (drop 64 s) } };

    ghost inverse_ok = { λ d h.
        let back = drop 64 (bits 64 d.low ++ bits 64 d.high) in
        ap (λ (w : ℕ). record { low = w; high = word back }) (word-take d.low d.high h.0)
        ∙ ap (λ (w : ℕ). record { low = d.low; high = w }) (word-drop d.low d.high h.1) };
}

impl InstDecoder {
    /// The settings without any extension: no bit is set.
    #[tactic(auto, unfolding(crate::specs::Words::bits))]
    pub fn minimal() -> InstDecoder
        ensures { result ≡ no_bits }
    {
        InstDecoder { low: 0, high: 0 }
    }

    /// The settings with every extension: all 128 bits are set, those of no extension too.
    #[tactic(auto, unfolding(crate::specs::Words::bits))]
    pub fn default() -> InstDecoder
        ensures { result ≡ all_bits }
    {
        InstDecoder {
            low: u64::MAX,
            high: u64::MAX,
        }
    }

    /// The settings whose bits 0 to 63 are those of the low word and whose bits 64 to 127 are those of the high one,
    /// the lowest first. Each pair of words is one of settings.
    pub fn from_words(low: u64, high: u64) -> InstDecoder
        ensures { result ≡ bits 64 low ++ bits 64 high }
    {
        InstDecoder { low, high }
    }

    /// The words that `from_words` makes these settings of: bits 0 to 63 and bits 64 to 127.
    pub fn words(&self) -> (u64, u64)
        ensures { self.now ≡ bits 64 result.0 ++ bits 64 result.1 }
    {
        (self.low, self.high)
    }

    /// Whether bit `i` is set, 0 to 127.
    pub fn bit(&self, i: u8) -> bool
        requires { i < 128 }
        ensures set { result ≡ is_set self.now i }
        ensures long { length self.now ≡ 128 }
    {
        if i < 64 {
            has_bit(self.low, i)
        } else {
            has_bit(self.high, i - 64)
        }
    }

    /// These settings with bit `i` set, 0 to 127.
    pub fn with_bit(self, i: u8) -> InstDecoder
        requires { i < 128 }
        ensures set { result ≡ with_set self i }
        ensures long { length result ≡ 128 }
    {
        if i < 64 {
            InstDecoder {
                low: with_bit_set(self.low, i),
                high: self.high,
            }
        } else {
            InstDecoder {
                low: self.low,
                high: with_bit_set(self.high, i - 64),
            }
        }
    }
}

impl PartialEq for InstDecoder {
    ghost eq = { pointwise beq };

    ghost laws = { Prim.search (comparing, rules) };

    fn eq(&self, other: &InstDecoder) -> bool
        ensures same { IsTrue result ↔ (self.now ≡ other.now) }
        ensures bits { result ≡ pointwise beq self.now other.now }
    {
        self.low == other.low && self.high == other.high
    }
}

impl Eq for InstDecoder {
    ghost laws = { Prim.search (comparing, rules) };
}

/// Whether bit `i` of a word is set.
fn has_bit(word: u64, i: u8) -> bool
    requires { i < 64 }
    ensures { result ≡ is_set (bits 64 word) i }
{
    (word >> i) & 1 == 1
}

/// The word with bit `i` set.
fn with_bit_set(word: u64, i: u8) -> u64
    requires { i < 64 }
    ensures { bits 64 result ≡ with_set (bits 64 word) i }
{
    word | (1 << i)
}
