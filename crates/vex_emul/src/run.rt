//! A run of code from its front to its end.

ghost use Rattle.std.specs.Prelude.{◌≡◌, ◌<◌, ◌≤◌, length, drop, IfOk, IfErr, OnErr, Ok, Err};
ghost use Rattle.vex_emul.specs.Run.{ran, step};

use crate::machine::Machine;
use vex_decode::Decoder;
use vex_decode::laws::prefix_free;
use x86_operand::DecodeError;
use x86_settings::InstDecoder;

/// Why a run halts at an instruction. The causes are tested in this order.
#[derive(Clone, Copy, PartialEq, Eq, Debug)]
pub enum HaltCause {
    /// The rest of the code begins with no permitted instruction: the error of the decoder.
    Blocked(DecodeError),
    /// The instruction isn't of the subset.
    Unsupported,
    /// An operand in memory doesn't lie wholly there.
    BadAddress,
}

impl HaltCause {
    ghost use Rattle.vex_emul.specs.Run.{cause_name};

    /// The name of the decoder's error, or else the variant's own spelling.
    pub fn name(&self) -> &'static str
        ensures { result.now ≡ cause_name self.now }
    {
        match self {
            HaltCause::Blocked(error) => error.name(),
            HaltCause::Unsupported => "Unsupported",
            HaltCause::BadAddress => "BadAddress",
        }
    }
}

/// Where and why a run halts.
#[derive(Clone, Copy, PartialEq, Eq, Debug)]
pub struct Halt {
    /// How many bytes of the code stand before the instruction.
    pub place: usize,
    /// How many instructions ran before it.
    pub count: usize,
    /// Why it didn't run.
    pub cause: HaltCause,
}

/// Runs the instruction at the front of the bytes under the settings, and answers the number of its bytes, from 3 to
/// 11. A run of code is the repetition of this. Where it halts, by the causes that `run_code` names, nothing is
/// changed.
pub fn step(machine: &mut Machine, decoder: &InstDecoder, bytes: &[u8]) -> Result<usize, HaltCause>
    ensures done { IfOk result (λ len. step decoder.now machine.old bytes.now ≡ Ok (machine.new, len)) }
    ensures some { IfOk result (λ len. 1 ≤ len) }
    ensures within { IfOk result (λ len. len ≤ length bytes.now) }
    ensures halted { IfErr result (λ cause. step decoder.now machine.old bytes.now ≡ Err cause) }
    ensures unchanged { OnErr result (machine.new ≡ machine.old) }
    ensures room { length machine.new.memory ≡ length machine.old.memory }
{
    // A law: a spelling has bytes.
    prefix_free();
    let instruction = match decoder.decode_slice(bytes) {
        Ok(instruction) => instruction,
        Err(error) => return Err(HaltCause::Blocked(error)),
    };
    let Some(work) = machine.work_of(&instruction) else {
        return Err(HaltCause::Unsupported);
    };
    if !machine.work(work) {
        return Err(HaltCause::BadAddress);
    }
    Ok(usize::from(instruction.len()))
}

/// Runs the code from its front to its end under the settings, one instruction after another, and answers how many it
/// ran.
///
/// It halts at the first instruction that isn't permitted (`Blocked`), isn't of the subset (`Unsupported`) or has an
/// operand that doesn't lie wholly in the memory (`BadAddress`), and leaves the machine as that instruction found it.
/// The subset is VPADDB, VPADDW, VPADDD, VPADDQ, VPSUBB, VPSUBW, VPSUBD, VPSUBQ, VPAND, VPANDN, VPOR, VPXOR, VPCMPEQB,
/// VPCMPEQW, VPCMPEQD, VMOVDQU, VZEROUPPER and VZEROALL, unmarked and with no base rip. The place of an operand in
/// memory is the sum of base, scaled index and displacement modulo 2^64.
pub fn run_code(machine: &mut Machine, decoder: &InstDecoder, code: &[u8]) -> Result<usize, Halt>
    ensures ran { ran decoder.now machine.old code.now ≡ (machine.new, result) }
    ensures room { length machine.new.memory ≡ length machine.old.memory }

    // The instruction at which it halts is there, and does so on the machine as it was left.
    ensures within { IfErr result (λ halt. halt.place < length code.now) }
    ensures halted { IfErr result (λ halt. step decoder.now machine.new (drop halt.place code.now) ≡ Err halt.cause) }
{
    let mut place = 0;
    let mut count = 0;
    while place < code.len() {
        match step(machine, decoder, &code[place..]) {
            Ok(len) => place += len,
            Err(cause) => {
                return Err(Halt {
                    place,
                    count,
                    cause,
                });
            }
        }
        count += 1;
    }
    Ok(count)
}
