//! The features that an instruction needs.

ghost use Rattle.std.specs.Prelude.{◌≡◌, ◌<◌};
ghost use denote.Enum.Declared.{tag_of};
ghost use Rattle.x86_opcode.specs.contracts.IntegerOpcode as the_integer;
ghost use Rattle.x86_operand.specs.Meaning.{operand_meaning};
ghost use Rattle.x86_features.specs.Needs.{features, has_memory, is_memory, length_of, opcode_rule, vector_length};
ghost use Rattle.x86_features.specs.Needs.{marked_features, integer_line_at, float_line};

use crate::feature::{AVX512F, AVX512F_AND_AVX512VL, FeatureSet, NONE};
use crate::rule::{Rule, VectorLength};
use crate::rules::{FLOAT_RULES, INTEGER_RULES, OpcodeLine};
use x86_opcode::{FloatOpcode, IntegerOpcode};
use x86_operand::laws::instruction_in_range;
use x86_operand::{Instruction, Opcode, Operand, RegisterBank};

/// The line at a place of the table of opcodes on integers, on general registers, or on no operand.
#[tactic(auto, unfolding(crate::specs::Needs::integer_line_at))]
fn integer_line_at(place: usize) -> &'static OpcodeLine
    requires { place < 173 }
    ensures { result.now ≡ integer_line_at place }
{
    &INTEGER_RULES[place]
}

/// The place of such an opcode.
fn integer_place(part: IntegerOpcode) -> usize
    ensures place { result ≡ tag_of the_integer.the_type part }
    ensures below { result < 173 }
{
    part as usize
}

/// The line of an opcode on floats.
#[tactic(auto, unfolding(crate::specs::Needs::float_line))]
fn float_line(part: FloatOpcode) -> &'static OpcodeLine
    ensures { result.now ≡ float_line part }
{
    &FLOAT_RULES[part as usize]
}

/// What the table says of an opcode without the EVEX mark, and `None` for one that no VEX instruction has.
#[tactic(auto, unfolding(crate::specs::Needs::opcode_rule, crate::specs::Needs::integer_line))]
fn rule_of(opcode: Opcode) -> Option<Rule>
    ensures { result ≡ opcode_rule opcode }
{
    match opcode {
        Opcode::Integer(part) => Some(integer_line_at(integer_place(part)).rule),
        Opcode::Float(part) => Some(float_line(part).rule),
        Opcode::Fused(_) => Some(Rule::Fma),
        Opcode::Invalid | Opcode::BSF | Opcode::Legacy(_) | Opcode::Marked(_) => None,
    }
}

/// The vector length that an operand has as a register.
fn length_of(operand: Operand) -> VectorLength
    ensures { result ≡ length_of (operand_meaning operand) }
{
    match operand {
        Operand::Register { reg } => match reg.bank() {
            RegisterBank::Z => VectorLength::Bits512,
            RegisterBank::Y => VectorLength::Bits256,
            RegisterBank::Q | RegisterBank::D | RegisterBank::X | RegisterBank::RIP => {
                VectorLength::Bits128
            }
        },
        _ => VectorLength::Bits128,
    }
}

/// Whether an operand lies in memory.
fn is_memory(operand: Operand) -> bool
    ensures { result ≡ is_memory (operand_meaning operand) }
{
    matches!(operand, Operand::MemDeref { .. } | Operand::Memory { .. })
}

/// The vector length of an instruction.
#[tactic(auto, using(crate::proofs::Operands::vector_length_places))]
fn vector_length(inst: &Instruction) -> VectorLength
    ensures { result ≡ vector_length inst.now.meaning.operands }
{
    instruction_in_range(*inst);
    length_of(inst.operand(0))
        .longest(length_of(inst.operand(1)))
        .longest(length_of(inst.operand(2)))
        .longest(length_of(inst.operand(3)))
}

/// Whether an operand of the instruction lies in memory.
#[tactic(auto, using(crate::proofs::Operands::has_memory_places))]
fn has_memory(inst: &Instruction) -> bool
    ensures { result ≡ has_memory inst.now.meaning.operands }
{
    instruction_in_range(*inst);
    is_memory(inst.operand(0))
        | is_memory(inst.operand(1))
        | is_memory(inst.operand(2))
        | is_memory(inst.operand(3))
}

/// The features of an instruction with the EVEX mark.
fn marked_features(length: VectorLength) -> FeatureSet
    ensures { result ≡ marked_features length }
{
    match length {
        VectorLength::Bits512 => AVX512F,
        VectorLength::Bits128 | VectorLength::Bits256 => AVX512F_AND_AVX512VL,
    }
}

/// The features that the manual names for an instruction (Intel SDM volume 2, the column "CPUID Feature Flag"), and no
/// others: `VPADDD` on ymm registers needs AVX2 and doesn't list the AVX that comes with it. They go by the opcode, and
/// where its lines differ by the vector length, or by whether an operand lies in memory.
///
/// With the EVEX mark these are AVX512F, and AVX512VL too where no operand is a zmm register. The set is empty exactly
/// where an instruction has neither the mark nor a VEX opcode.
#[tactic(auto, unfolding(crate::specs::Needs::features))]
pub fn features_of(inst: &Instruction) -> FeatureSet
    ensures { result ≡ features inst.now.meaning }
{
    if inst.is_evex() {
        return marked_features(vector_length(inst));
    }
    match rule_of(inst.opcode()) {
        Some(rule) => rule.features(vector_length(inst), has_memory(inst)),
        None => NONE,
    }
}
