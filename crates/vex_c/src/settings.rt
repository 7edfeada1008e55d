//! Settings by name, and those that code needs.

ghost use Rattle.std.specs.Prelude.{◌≡◌, ◌≢◌, ◌↔◌, Some, None, option_map, IfOk, IfErr};
ghost use Rattle.x86_uarch.specs.Profiles.{profile_of};
ghost use Rattle.vex_calls.specs.declared.call_error.CallError.TheVariants.{NoSuchName};
ghost use Rattle.vex_calls.specs.Errors.{error_number};
ghost use Rattle.vex_calls.specs.Settings.{settings_of};
ghost use Rattle.vex_c.specs.Runs.{AnswersFault, HoldsNeeded};

use crate::answer::put;
use vex_calls::{CallError, FlatSettings};
use vex_check::{RunCause, check};
use x86_settings::InstDecoder;
use x86_uarch::profile;

/// The settings of a name.
fn named(name: &[u8]) -> Option<InstDecoder>
    ensures { result ≡ profile_of name.now }
{
    match str::from_utf8(name) {
        Ok(name) => profile(name),
        Err(_) => None,
    }
}

/// Writes the settings of `default`, `minimal` or a microarchitecture to `settings`: 0, or the number of `NoSuchName`
/// exactly where there are none of that name, and `settings` is as it was. Case counts.
#[unsafe(no_mangle)]
pub extern "C" fn vex_settings_named(name: &[u8], settings: &mut FlatSettings) -> u32
    ensures named { result ≡ 0 → profile_of name.now ≡ Some (settings_of settings.new) }
    ensures refused { result ≢ 0 → (profile_of name.now ≡ None) × (result ≡ error_number NoSuchName) }
    ensures kept { result ≢ 0 → settings.new ≡ settings.old }
{
    match named(name) {
        Some(found) => {
            *settings = FlatSettings::of(&found);
            0
        }
        None => CallError::NoSuchName.number(),
    }
}

/// The least settings of a run.
fn needed(bytes: &[u8]) -> Result<FlatSettings, CallError>
    ensures holds { IfOk result (HoldsNeeded bytes.now) }
    ensures fault { IfErr result (λ error. AnswersFault bytes.now (error_number error)) }
{
    match check(bytes) {
        Ok(needs) => Ok(FlatSettings::of(&needs.least)),
        Err(fault) => match fault.cause {
            RunCause::Blocked(error) => Err(CallError::of_decode(error)),
            RunCause::Marked => Err(CallError::Marked),
        },
    }
}

/// Writes the least settings that permit each instruction of a run of bytes to `settings`: 0, or the number of the
/// error at the first place that has one, and `settings` is as it was.
#[unsafe(no_mangle)]
pub extern "C" fn vex_settings_needed(bytes: &[u8], settings: &mut FlatSettings) -> u32
    ensures holds { result ≡ 0 → HoldsNeeded bytes.now settings.new }
    ensures fault { result ≢ 0 → AnswersFault bytes.now result }
    ensures kept { result ≢ 0 → settings.new ≡ settings.old }
{
    put(needed(bytes), settings)
}
