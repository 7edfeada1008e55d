//! Going through a run of instructions for what it needs.

ghost use Rattle.std.specs.Prelude.{◌≡◌, ◌≤◌, false, length, IsOk, IfOk, IfErr, Some, None, Ok};
ghost use Rattle.x86_settings.specs.Bits.{all_bits};
ghost use Rattle.x86_settings.specs.Sets.{exactly};
ghost use Rattle.x86_permit.specs.LeastSettings.{least};
ghost use Rattle.vex_decode.specs.Decode.{decode};
ghost use Rattle.vex_check.specs.FirstPlaces.{cause_of};
ghost use Rattle.vex_check.specs.Needs.{all_needed, fault, firsts, run};
ghost use Rattle.vex_check.specs.Accepted.{EndsWhereCovered, StopsAtLeastLack};

use crate::first_places::FirstPlaces;
use crate::laws::needs_say_who_accepts;
use crate::needs::{Needs, RunCause, RunFault};
use vex_decode::Decoder;
use vex_decode::laws::{prefix_free, vex_opcodes};
use x86_operand::Instruction;
use x86_permit::least_settings;
use x86_settings::InstDecoder;

/// The instruction at the front of bytes and its least settings, or why it has none.
fn first_needs(bytes: &[u8]) -> Result<(Instruction, InstDecoder), RunCause>
    ensures first { IfOk result (λ found. decode all_bits bytes.now ≡ Ok found.0) }
    ensures unmarked { IfOk result (λ found. found.0.meaning.evex ≡ false) }
    ensures least { IfOk result (λ found. found.1 ≡ exactly (least found.0.meaning.opcode)) }
    ensures some { IfOk result (λ found. 1 ≤ found.0.len) }
    ensures within { IfOk result (λ found. found.0.len ≤ length bytes.now) }
    ensures fault { IfErr result (λ cause. cause_of (decode all_bits bytes.now) ≡ Some cause) }
{
    // Laws: a spelling has bytes, and has a VEX opcode.
    prefix_free();
    vex_opcodes();
    let instruction = match InstDecoder::default().decode_slice(bytes) {
        Ok(instruction) => instruction,
        Err(error) => return Err(RunCause::Blocked(error)),
    };
    match least_settings(&instruction) {
        Some(least) => Ok((instruction, least)),
        None => Err(RunCause::Marked),
    }
}

/// What a run of instructions needs: bytes that are decoded one instruction after another under all settings, until
/// none is left. It takes no memory.
///
/// The fault is the first place where the rest is refused (`Blocked`, with the error), or where the instruction has the
/// EVEX mark (`Marked`).
pub fn check(bytes: &[u8]) -> Result<Needs, RunFault>
    // What its instructions need, where each bit is first needed, and their number.
    ensures least { IfOk result (λ needs. needs.least ≡ all_needed (run bytes.now).items) }
    ensures firsts { IfOk result (λ needs. needs.firsts.items ≡ firsts (run bytes.now).items) }
    ensures count { IfOk result (λ needs. needs.count ≡ length (run bytes.now).items) }

    // Exactly where the run has a fault, that is the answer.
    ensures sound { IsOk result → fault (run bytes.now) ≡ None }
    ensures fault { IfErr result (λ error. fault (run bytes.now) ≡ Some error) }

    // Under any settings a sweep of the bytes ends after all of them exactly where the settings have every bit that is
    // needed, and else it is stopped at the first place that needs a bit which they lack.
    ensures ends { IfOk result (λ needs. EndsWhereCovered bytes.now needs.least) }
    ensures stops { IfOk result (λ needs. StopsAtLeastLack bytes.now needs.least needs.firsts.items) }
{
    // A law: which settings accept a run without a fault.
    needs_say_who_accepts();
    let mut found = FirstPlaces::none();
    let mut place = 0;
    let mut count = 0;
    while place < bytes.len() {
        let (instruction, least) = match first_needs(&bytes[place..]) {
            Ok(first) => first,
            Err(cause) => return Err(RunFault { place, cause }),
        };
        found.note(&least, place, instruction.opcode());
        place += usize::from(instruction.len());
        count += 1;
    }
    Ok(Needs {
        least: found.least(),
        firsts: found.firsts(),
        count,
    })
}
