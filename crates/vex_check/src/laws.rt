//! What holds of all runs of instructions, as the contract of a function that does nothing but name the laws that it
//! follows from.

ghost use Rattle.vex_check.specs.Accepted.{NeedsSayWhereOthersStop, NeedsSayWhoAccepts};

use vex_decode::laws::{decode_answers, vex_opcodes};
use x86_permit::laws::all_settings_permit_all;

/// Where a run has no fault under all settings: under any settings its sweep ends after all bytes exactly where they
/// have every bit that the run needs, and else it is stopped, by `InvalidOpcode`, at the least place that needs a bit
/// which they lack.
pub fn needs_say_who_accepts()
    ensures ends { NeedsSayWhoAccepts }
    ensures stops { NeedsSayWhereOthersStop }
{
    all_settings_permit_all();
    decode_answers();
    vex_opcodes();
}
