//! An instruction: its meaning, and the number of bytes that spelled it.

ghost use Rattle.std.specs.Prelude.{◌≡◌, ◌<◌, ◌≤◌, ◌↔◌, IsTrue, IsSome, IfSome, [], ◌∷◌, ◌++◌, length, map, None};
ghost use Rattle.std.specs.Prelude.{false};
ghost use Rattle.std.specs.Bool.{OnTrue, OnFalse};
ghost use Rattle.x86_operand.specs.Instruction.{four_places, kept_operand, operand_at};
ghost use Rattle.x86_operand.specs.Meaning.{operand_meaning};

use crate::address::Operand;
use crate::size::MemoryAccessSize;
use std::marker::Model;
use x86_opcode::Opcode;

/// The number of operands that an instruction has at most.
pub const MAX_OPERANDS: usize = 4;

/// An instruction: an EVEX mark, an opcode, up to four operands, the size of its memory operand,
/// and the number of bytes that spelled it.
#[derive(Clone, Copy, Debug)]
pub struct Instruction {
    evex: bool,
    opcode: Opcode,
    operands: [Operand; MAX_OPERANDS],
    operand_count: u8,
    mem_size: Option<MemoryAccessSize>,
    len: u8,
}

impl Model for Instruction {
    ghost use Rattle.std.specs.Prelude.{◌≡◌, ◌≤◌, length, map, take};
    ghost use Rattle.x86_operand.specs.Meaning.{operand_meaning, Decoded};
    ghost use Rattle.x86_operand.specs.Instruction.{four_places};
    ghost use Rattle.std.proofs.Common.{sym};
    ghost use Rattle.x86_operand.specs.Instruction.Lemmas.{length-kept};

    ghost Value = { Decoded };

    ghost view = { λ a. record {
      meaning = record {
        evex = a.evex;
        opcode = a.opcode;
        operands = map operand_meaning (take a.operand_count a.operands);
        size = a.mem_size;
      };
      len = a.len;
    } };

    ghost invariant = { λ a. (a.operand_count ≤ 4)
        × (a.operands ≡ four_places (map operand_meaning (take a.operand_count a.operands))) };

    ghost inverse = { λ d. record {
      evex = d.meaning.evex;
      opcode = d.meaning.opcode;
      operands = four_places d.meaning.operands;
      operand_count = length d.meaning.operands;
      mem_size = d.meaning.size;
      len = d.len;
    } };

    ghost inverse_ok = { λ a h i. record {
      evex = a.evex;
      opcode = a.opcode;
      operands = sym h.1 i;
      operand_count = length-kept a.operand_count a.operands h.0 h.1 i;
      mem_size = a.mem_size;
      len = a.len;
    } };
}

impl Instruction {
    /// No mark, the opcode `Invalid`, no operands, no memory size, and length 0.
    pub fn default() -> Instruction
        ensures { result ≡ record {
          meaning = record { evex = false; opcode = Opcode.Invalid; operands = []; size = None };
          len = 0;
        } }
    {
        Instruction::of(Opcode::Invalid, false)
    }

    /// That opcode and mark, no operands, no memory size, and length 0.
    #[tactic(auto, unfolding(crate::specs::Instruction::four_places))]
    pub fn of(opcode: Opcode, evex: bool) -> Instruction
        ensures { result ≡ record {
          meaning = record { evex = evex; opcode = opcode; operands = []; size = None };
          len = 0;
        } }
    {
        Instruction {
            evex,
            opcode,
            operands: [Operand::Nothing; MAX_OPERANDS],
            operand_count: 0,
            mem_size: None,
            len: 0,
        }
    }

    /// Puts the instruction back, in place, to what `of` makes: that opcode and mark, no operands, no
    /// memory size, and length 0, whatever it held.
    pub fn reset(&mut self, opcode: Opcode, evex: bool)
        ensures { self.new ≡ record {
          meaning = record { evex = evex; opcode = opcode; operands = []; size = None };
          len = 0;
        } }
    {
        self.evex = evex;
        self.set_opcode(opcode);
        self.clear_operands();
        self.set_mem_size(None);
        self.set_len(0);
    }

    /// Takes all operands away. Where there are none, each place holds `Nothing` already.
    #[tactic(auto, unfolding(crate::specs::Instruction::four_places))]
    fn clear_operands(&mut self)
        ensures { self.new ≡ record self.old { meaning = record self.old.meaning { operands = [] } } }
    {
        if self.operand_count > 0 {
            self.operands[0] = Operand::Nothing;
            self.operands[1] = Operand::Nothing;
            self.operands[2] = Operand::Nothing;
            self.operands[3] = Operand::Nothing;
            self.operand_count = 0;
        }
    }

    /// The instruction of that meaning with length 0, or `None` where there are more than four
    /// operands.
    #[tactic(auto, using(crate::specs::Instruction::Lemmas::places))]
    pub fn from_parts(
        evex: bool,
        opcode: Opcode,
        operands: &[Operand],
        mem_size: Option<MemoryAccessSize>,
    ) -> Option<Instruction>
        ensures within { IsSome result ↔ (length operands.now ≤ 4) }
        ensures value { IfSome result (λ made. made ≡ record {
          meaning = record {
            evex = evex;
            opcode = opcode;
            operands = map operand_meaning operands.now;
            size = mem_size;
          };
          len = 0;
        }) }
    {
        if operands.len() > MAX_OPERANDS {
            return None;
        }
        Some(Instruction {
            evex,
            opcode,
            operands: kept(operands),
            operand_count: operands.len() as u8,
            mem_size,
            len: 0,
        })
    }

    /// The opcode.
    pub fn opcode(&self) -> Opcode
        ensures { result ≡ self.now.meaning.opcode }
    {
        self.opcode
    }

    /// The number of operands, at most 4.
    #[tactic(auto, using(crate::specs::Instruction::Lemmas::places))]
    pub fn operand_count(&self) -> u8
        ensures value { result ≡ length self.now.meaning.operands }
        ensures within { result ≤ 4 }
    {
        self.operand_count
    }

    /// The operand at place `i`, counted from 0, and `Nothing` from the count on. An address is a
    /// `MemDeref` exactly where it has a base, no index and displacement 0, and a `Memory`
    /// otherwise.
    #[tactic(auto, using(crate::specs::Instruction::Lemmas::places))]
    pub fn operand(&self, i: u8) -> Operand
        ensures meaning { operand_meaning result ≡ operand_at self.now.meaning.operands i }
        ensures form { result ≡ kept_operand (operand_at self.now.meaning.operands i) }
    {
        self.operands
            .get(usize::from(i))
            .copied()
            .unwrap_or(Operand::Nothing)
    }

    /// The size of the memory operand, or `None` where there is none.
    pub fn mem_size(&self) -> Option<MemoryAccessSize>
        ensures { result ≡ self.now.meaning.size }
    {
        self.mem_size
    }

    /// The number of bytes that spelled the instruction.
    pub fn len(&self) -> u8
        ensures { result ≡ self.now.len }
    {
        self.len
    }

    /// Whether the instruction has the EVEX mark.
    pub fn is_evex(&self) -> bool
        ensures { result ≡ self.now.meaning.evex }
    {
        self.evex
    }

    /// Changes the opcode alone.
    pub fn set_opcode(&mut self, opcode: Opcode)
        ensures { self.new ≡ record self.old { meaning = record self.old.meaning { opcode = opcode } } }
    {
        self.opcode = opcode;
    }

    /// Changes the length alone.
    pub fn set_len(&mut self, len: u8)
        ensures { self.new ≡ record self.old { len = len } }
    {
        self.len = len;
    }

    /// Changes the size of the memory operand alone.
    pub fn set_mem_size(&mut self, mem_size: Option<MemoryAccessSize>)
        ensures { self.new ≡ record self.old { meaning = record self.old.meaning { size = mem_size } } }
    {
        self.mem_size = mem_size;
    }

    /// Adds an operand after the others, and answers whether there was room for it: an instruction
    /// has at most four. Where there was none, nothing changes.
    #[tactic(auto, using(crate::specs::Instruction::Lemmas::places))]
    pub fn push(&mut self, operand: Operand) -> bool
        ensures within { IsTrue result ↔ (length self.old.meaning.operands < 4) }
        ensures added { OnTrue result (self.new ≡ record self.old {
          meaning = record self.old.meaning {
            operands = self.old.meaning.operands ++ operand_meaning operand ∷ [];
          };
        }) }
        ensures full { OnFalse result (self.new ≡ self.old) }
    {
        let place = usize::from(self.operand_count);
        if place == MAX_OPERANDS {
            return false;
        }
        self.operands[place] = operand.kept();
        self.operand_count += 1;
        true
    }

    /// Whether the two have one meaning: the same mark, opcode, operands and memory size, whatever
    /// their lengths.
    #[tactic(auto, using(crate::specs::Same::Lemmas::meaning_parts))]
    pub fn has_same_meaning(&self, other: &Instruction) -> bool
        ensures { IsTrue result ↔ (self.now.meaning ≡ other.now.meaning) }
    {
        self.evex == other.evex
            && self.opcode.is(other.opcode)
            && self.operands() == other.operands()
            && self.mem_size == other.mem_size
    }

    /// The operands, up to the count.
    fn operands(&self) -> &[Operand]
        ensures { map operand_meaning result.now ≡ self.now.meaning.operands }
    {
        &self.operands[..usize::from(self.operand_count)]
    }
}

/// Two instructions are equal where their meanings and their lengths are.
impl PartialEq for Instruction {
    ghost use Rattle.std.specs.Cmp.{decided, partial_equiv_from_equiv};
    ghost use Rattle.x86_operand.specs.Same.{same_decoded};
    ghost use Rattle.x86_operand.specs.Same.Lemmas.{same_decoded_decides};

    ghost eq = { same_decoded };

    ghost laws = { partial_equiv_from_equiv (decided same_decoded same_decoded_decides) };

    fn eq(&self, other: &Instruction) -> bool
        ensures same { IsTrue result ↔ (self.now ≡ other.now) }
    {
        self.has_same_meaning(other) && self.len == other.len
    }
}

impl Eq for Instruction {
    ghost use Rattle.std.specs.Cmp.{decided};
    ghost use Rattle.x86_operand.specs.Same.{same_decoded};
    ghost use Rattle.x86_operand.specs.Same.Lemmas.{same_decoded_decides};

    ghost laws = { decided same_decoded same_decoded_decides };
}

/// The four places of an instruction with these operands, each in the form in which it is kept.
#[tactic(auto, unfolding(crate::specs::Instruction::four_places))]
fn kept(operands: &[Operand]) -> [Operand; MAX_OPERANDS]
    ensures { result ≡ four_places (map operand_meaning operands.now) }
{
    [
        kept_at(operands, 0),
        kept_at(operands, 1),
        kept_at(operands, 2),
        kept_at(operands, 3),
    ]
}

/// The operand at place `i` in the form in which it is kept, or `Nothing` past the end.
fn kept_at(operands: &[Operand], i: usize) -> Operand
    ensures { result ≡ kept_operand (operand_at (map operand_meaning operands.now) i) }
{
    operands.get(i).map_or(Operand::Nothing, Operand::kept)
}
