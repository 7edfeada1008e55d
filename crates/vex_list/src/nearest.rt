//! The nearest spelling so far.

ghost use Rattle.std.specs.Prelude.{◌≡◌, ◌↔◌, ◌≤◌, length, IsTrue};
ghost use Rattle.vex_decode.specs.Spelling.{Spells};
ghost use Rattle.vex_list.specs.Order.{AtMost, Before};
ghost use Rattle.vex_list.specs.Next.{Covers};

use vex_decode::Decoder;
use vex_decode::laws::decode_answers;
use vex_encode::Spelling;
use x86_operand::Instruction;
use x86_permit::laws::all_settings_permit_all;
use x86_settings::InstDecoder;

/// What is looked for: the nearest spelling of an instruction's meaning after some bytes.
#[derive(Clone, Copy)]
pub struct Wanted<'a> {
    /// The instruction.
    pub instruction: &'a Instruction,
    /// What the spelling comes after.
    pub previous: &'a [u8],
}

/// Whether bytes spell the instruction's meaning: a decode under all settings takes them all and answers it.
fn spells(bytes: &[u8], instruction: &Instruction) -> bool
    ensures { IsTrue result ↔ Spells bytes.now instruction.now.meaning }
{
    // Laws: a decode answers a permitted spelling, and these settings permit every opcode.
    decode_answers();
    all_settings_permit_all();
    match InstDecoder::default().decode_slice(bytes) {
        Ok(decoded) => {
            usize::from(decoded.len()) == bytes.len() && decoded.has_same_meaning(instruction)
        }
        Err(_) => false,
    }
}

/// Whether one byte string comes before another.
fn is_before(a: &[u8], b: &[u8]) -> bool
    ensures { IsTrue result ↔ Before a.now b.now }
{
    a.cmp(b).is_lt()
}

/// Whether the nearest so far comes no later than some bytes.
fn is_at_most(nearest: &Option<Spelling>, bytes: &[u8]) -> bool
    ensures { IsTrue result ↔ AtMost nearest.now bytes.now }
{
    match nearest {
        None => false,
        Some(nearest) => !is_before(bytes, nearest.as_slice()),
    }
}

/// The nearer of the nearest so far and further bytes, where those are wanted.
pub fn nearer(nearest: Option<Spelling>, bytes: &[u8], wanted: &Wanted<'_>) -> Option<Spelling>
    requires { length bytes.now ≤ 11 }
    ensures { Covers wanted.now.instruction.now.meaning wanted.now.previous.now (λ b. b ≡ bytes.now) nearest result }
{
    if is_before(wanted.previous, bytes)
        && !is_at_most(&nearest, bytes)
        && spells(bytes, wanted.instruction)
    {
        Spelling::of(bytes)
    } else {
        nearest
    }
}
