//! Laws of addresses, over the definitions alone: each function's contract is a law, and its body is empty.

ghost use Rattle.x86_address.specs.Laws.{OnlySpellable, ShortestSpells, ShortestIsLeast, XIsFixed, BIsFixed};
ghost use Rattle.x86_address.specs.Laws.{DemandedIsSet, OnePlace, OneReading, ReadingIsSpelling, ReadingFails};

/// What bytes can name, the bytes of its shortest place name, and no bytes name anything else.
pub fn shortest_spells()
    ensures only { OnlySpellable }
    ensures spells { ShortestSpells }
{}

/// No bytes that name what the shortest place names, with whatever reg field and bits X and B, are fewer.
pub fn shortest_is_least()
    ensures { ShortestIsLeast }
{}

/// The bits X and B of a prefix are fixed by what is named, or play no part in it; so where some bytes name it with
/// both 0, the shortest place does too.
pub fn prefix_bits_are_fixed()
    ensures x { XIsFixed }
    ensures b { BIsFixed }
    ensures set { DemandedIsSet }
{}

/// Bytes are an address in at most one way, and no address goes on from where another ends.
pub fn one_reading()
    ensures place { OnePlace }
    ensures target { OneReading }
{}

/// What is read after a ModRM byte is what the bytes spell, and reading fails only where no byte is left.
pub fn reading_is_spelling()
    ensures spelled { ReadingIsSpelling }
    ensures exhausted { ReadingFails }
{}
