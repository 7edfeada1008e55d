//! What holds of the subset and of one instruction, each law as the contract of a function that does nothing.

ghost use Rattle.vex_emul.specs.Laws.{SubsetExactly, StepOfSpelling, StepOfError};
ghost use Rattle.vex_emul.specs.Repeated.{RunOfNothing, RunOfStep, RunOfHalt, RunOfTwo, MeaningDecides};

use vex_decode::laws::{blocked_or_begun, decode_answers, prefix_free};

/// An instruction that bytes spell has something that it does, so that a run never answers `Unsupported` at it, exactly
/// where it is unmarked, has one of the eighteen opcodes and no base rip.
pub fn subset_exactly()
    ensures { SubsetExactly }
{}

/// The instruction that a run finds at the front of bytes is that of the permitted spelling that begins them, with its
/// length, and a run halts there by the error that blocks them, where there is one.
pub fn steps()
    ensures spelling { StepOfSpelling }
    ensures error { StepOfError }
{
    decode_answers();
}

/// A run is its instructions, one after another: over nothing it changes nothing, where the instruction at the front
/// runs it goes on behind it, and where that halts it halts there. So where the run of code comes to its end, more code
/// behind it does what it does from where that left the machine.
pub fn runs()
    ensures nothing { RunOfNothing }
    ensures step { RunOfStep }
    ensures halt { RunOfHalt }
    ensures two { RunOfTwo }
{
    steps();
    prefix_free();
    blocked_or_begun();
}

/// Byte strings that spell one meaning leave one state, whatever follows them, or halt by one cause.
pub fn meaning_decides()
    ensures { MeaningDecides }
{
    steps();
}
