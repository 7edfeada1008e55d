//! The first places of a run that need each of the five bits that instructions in VEX form need.

ghost use Rattle.std.specs.Prelude.{◌≡◌, ◌<◌, ◌≤◌, ◌+◌, ◌++◌, Some, None, if◌then◌else◌};
ghost use Rattle.std.specs.Option.{option_or};
ghost use Rattle.arrayvec.specs.ArrayVec.{array_vec_len};
ghost use Rattle.x86_settings.specs.Bits.{is_set};
ghost use Rattle.vex_check.specs.FirstPlaces.{all_there, bits_there, noted, to_list};

use crate::needs::First;
use arrayvec::ArrayVec;
use x86_opcode::Opcode;
use x86_settings::{InstDecoder, bits};

/// The first place that needs each bit, where some place does.
#[derive(Drop)]
pub struct FirstPlaces {
    /// The first instruction that needs `aesni`.
    pub aesni: Option<First>,
    /// The first instruction that needs `avx`.
    pub avx: Option<First>,
    /// The first instruction that needs `bmi1`.
    pub bmi1: Option<First>,
    /// The first instruction that needs `bmi2`.
    pub bmi2: Option<First>,
    /// The first instruction that needs `f16c`.
    pub f16c: Option<First>,
}

/// Keeps a place as the first, where it needs the bit and none came before it.
fn keep_first(first: &mut Option<First>, needed: bool, bit: u8, place: usize, opcode: Opcode)
    ensures { first.new ≡ option_or first.old
        (if needed then Some (record { bit = bit; place = place; opcode = opcode }) else None) }
{
    if needed && first.is_none() {
        *first = Some(First { bit, place, opcode });
    }
}

/// Appends a first place, where there is one.
fn push_there(firsts: &mut ArrayVec<First, 5>, first: Option<First>)
    requires { array_vec_len firsts.old < 5 }
    ensures items { firsts.new.items ≡ firsts.old.items ++ to_list first }
    ensures at_most_one { array_vec_len firsts.new ≤ array_vec_len firsts.old + 1 }
{
    if let Some(first) = first {
        firsts.push(first);
    }
}

impl FirstPlaces {
    /// Before the first instruction.
    pub fn none() -> FirstPlaces
        ensures { result ≡ record { aesni = None; avx = None; bmi1 = None; bmi2 = None; f16c = None } }
    {
        FirstPlaces {
            aesni: None,
            avx: None,
            bmi1: None,
            bmi2: None,
            f16c: None,
        }
    }

    /// After an instruction with this opcode and these least settings, which stands at a place.
    pub fn note(&mut self, least: &InstDecoder, place: usize, opcode: Opcode)
        ensures { self.new ≡ noted (is_set least.now) place opcode self.old }
    {
        keep_first(&mut self.aesni, least.aesni(), bits::AESNI, place, opcode);
        keep_first(&mut self.avx, least.avx(), bits::AVX, place, opcode);
        keep_first(&mut self.bmi1, least.bmi1(), bits::BMI1, place, opcode);
        keep_first(&mut self.bmi2, least.bmi2(), bits::BMI2, place, opcode);
        keep_first(&mut self.f16c, least.f16c(), bits::F16C, place, opcode);
    }

    /// The places that are there, in ascending order of their bits.
    pub fn firsts(&self) -> ArrayVec<First, 5>
        ensures { result.items ≡ all_there self.now }
    {
        let mut firsts = ArrayVec::new();
        push_there(&mut firsts, self.aesni);
        push_there(&mut firsts, self.avx);
        push_there(&mut firsts, self.bmi1);
        push_there(&mut firsts, self.bmi2);
        push_there(&mut firsts, self.f16c);
        firsts
    }

    /// The settings with the bits that some place needs.
    pub fn least(&self) -> InstDecoder
        ensures { result ≡ bits_there self.now }
    {
        let mut least = InstDecoder::minimal();
        if self.aesni.is_some() {
            least = least.with_aesni();
        }
        if self.avx.is_some() {
            least = least.with_avx();
        }
        if self.bmi1.is_some() {
            least = least.with_bmi1();
        }
        if self.bmi2.is_some() {
            least = least.with_bmi2();
        }
        if self.f16c.is_some() {
            least = least.with_f16c();
        }
        least
    }
}
