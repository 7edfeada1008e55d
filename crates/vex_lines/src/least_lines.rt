//! The settings that a run of instructions needs, and the profiles that have them.

ghost use Rattle.std.specs.Prelude.{◌≡◌, ◌≤◌, ◌+◌, ◌++◌, [], codes, flat_map, if◌then◌else◌, length, nat_eq};
ghost use Rattle.arrayvec.specs.ArrayString.{array_string_len};
ghost use Rattle.vex_lines.specs.Ends.{Writes};
ghost use Rattle.vex_lines.specs.LeastLines.{accepted_by, bit_name, cause_name, fault_line, least_lines, need_line};
ghost use Rattle.vex_lines.specs.LeastLines.{profile_word, profiles_line};
ghost use Rattle.x86_uarch.specs.Profiles.{profile_of};

use crate::ends::{Failed, Sink};
use crate::line_text::{LineText, push_stopped};
use vex_asm::{MAX_TEXT, append_name, append_number};
use vex_check::{First, Needs, RunCause, RunFault, accepts, check};
use x86_settings::bits;
use x86_uarch::{names, profile};

/// What the line of profiles begins with.
const HEAD: &str = "profiles";

/// The name of a bit, of the five that instructions in VEX form need.
fn bit_name(bit: u8) -> &'static str
    ensures is { result.now ≡ bit_name bit }
    ensures short { length result.now ≤ 5 }
{
    match bit {
        bits::AESNI => "aesni",
        bits::AVX => "avx",
        bits::BMI1 => "bmi1",
        bits::BMI2 => "bmi2",
        // The bit `F16C`: no run needs any other.
        _ => "f16c",
    }
}

/// Makes the text the line of the first instruction that needs a bit: the bit's name, the place and the opcode.
fn need_text(text: &mut LineText, first: &First)
    ensures { text.new.bytes ≡ need_line first.now }
{
    text.clear();
    text.push_str("need ");
    text.push_str(bit_name(first.bit));
    text.push_str(" ");
    append_number(text, first.place);
    text.push_str(" ");
    append_name(text, first.opcode);
    text.push_str("\n");
}

/// The name of the cause of a fault.
fn cause_name(cause: RunCause) -> &'static str
    ensures is { result.now ≡ cause_name cause }
    ensures short { length result.now ≤ 14 }
{
    match cause {
        RunCause::Blocked(error) => error.name(),
        RunCause::Marked => "Marked",
    }
}

/// Makes the text the line of a fault: its place and its cause.
fn fault_text(text: &mut LineText, fault: &RunFault)
    ensures { text.new.bytes ≡ fault_line fault.now }
{
    text.clear();
    push_stopped(text, fault.place, cause_name(fault.cause));
    text.push_str("\n");
}

/// Whether the profile of that name has every bit that a run needs.
fn is_accepting(name: &str, needs: &Needs) -> bool
    ensures { result ≡ accepted_by needs.now.least (profile_of name.now) }
{
    match profile(name) {
        Some(settings) => accepts(&settings, needs),
        None => false,
    }
}

/// Appends the name of a profile behind a space, where the profile has every bit that a run needs.
fn push_accepting(text: &mut LineText, name: &str, needs: &Needs)
    requires { array_string_len text.old + 1 + length name.now ≤ MAX_TEXT }
    ensures written { text.new.bytes ≡ text.old.bytes ++ profile_word needs.now.least name.now }
    ensures short { array_string_len text.new ≤ array_string_len text.old + 1 + length name.now }
{
    if is_accepting(name, needs) {
        text.push_str(" ");
        text.push_str(name);
    }
}

/// Appends a dash, where nothing stands behind the head of the line of profiles.
fn push_dash(text: &mut LineText)
    requires { array_string_len text.old + 2 ≤ MAX_TEXT }
    ensures written { text.new.bytes ≡ text.old.bytes ++ (if nat_eq (length text.old.bytes) 8 then codes " -" else []) }
    ensures short { array_string_len text.new ≤ array_string_len text.old + 2 }
{
    if text.len() == HEAD.len() {
        text.push_str(" -");
    }
}

/// Writes the line of the profiles that have every bit that a run needs, in one write. With all 23 names, and a space
/// before each, it has 189 bytes.
fn write_profiles<K: Sink>(needs: &Needs, text: &mut LineText, sink: &mut K) -> Result<(), Failed>
    ensures { Writes result (K.text sink.old) (K.text sink.new) (K.faults sink.old) (K.faults sink.new)
        (profiles_line needs.now.least) }
{
    text.clear();
    text.push_str(HEAD);
    let list = names();
    for name in list {
        push_accepting(text, name, needs);
    }
    push_dash(text);
    text.push_str("\n");
    sink.write_all(text.as_str().as_bytes())
}

/// Writes a line for each bit that is needed, in one write each.
fn write_firsts<K: Sink>(firsts: &[First], text: &mut LineText, sink: &mut K) -> Result<(), Failed>
    ensures { Writes result (K.text sink.old) (K.text sink.new) (K.faults sink.old) (K.faults sink.new)
        (flat_map need_line firsts.now) }
{
    for first in firsts {
        need_text(text, first);
        sink.write_all(text.as_str().as_bytes())?;
    }
    Ok(())
}

/// Writes what the run of instructions that these bytes are needs, a line for each bit and one for the profiles that
/// have them all, or the line of its fault, in one write each. `Failed` where a write of the sink fails.
pub fn write_least<K: Sink>(bytes: &[u8], text: &mut LineText, sink: &mut K) -> Result<(), Failed>
    ensures { Writes result (K.text sink.old) (K.text sink.new) (K.faults sink.old) (K.faults sink.new)
        (least_lines bytes.now) }
{
    match check(bytes) {
        Ok(needs) => {
            write_firsts(needs.firsts.as_slice(), text, sink)?;
            write_profiles(&needs, text, sink)
        }
        Err(fault) => {
            fault_text(text, &fault);
            sink.write_all(text.as_str().as_bytes())
        }
    }
}
