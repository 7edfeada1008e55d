//! What holds of all canonical bytes, each law as the contract of a function that does nothing, but for
//! naming the laws that it follows from.

ghost use Rattle.vex_encode.specs.Laws.{CanonicalAgain, CanonicalDecodes, CanonicalNotBlocked, CanonicalSpells};
ghost use Rattle.vex_encode.specs.Laws.{CanonicalTellsApart, Shortest, StandardIsNone, StandardIsSome};

use vex_decode::laws::{blocked_or_begun, one_meaning, prefix_free};

/// Meanings that have a spelling have equal canonical bytes exactly where they are equal.
pub fn canonical_tells_apart()
    ensures { CanonicalTellsApart }
{
    one_meaning();
}

/// Whatever bytes spell a meaning, its canonical bytes are there, spell it too, and are no longer.
pub fn shortest()
    ensures { Shortest }
{}

/// The canonical bytes of a meaning whose opcode is permitted are not blocked, and spell that meaning. A decode of them
/// answers it with their number, so that they are their own canonical bytes.
pub fn recode_again()
    ensures not_blocked { CanonicalNotBlocked }
    ensures spells { CanonicalSpells }
    ensures decodes { CanonicalDecodes }
    ensures again { CanonicalAgain }
{
    prefix_free();
    one_meaning();
    blocked_or_begun();
}

/// A meaning has standard bytes by a row exactly where it has the row's opcode and size, isn't marked as EVEX and its
/// operands fit the row's slots, and has none exactly where no bytes of that row spell it.
pub fn conditions()
    ensures there { StandardIsSome }
    ensures none { StandardIsNone }
{}
