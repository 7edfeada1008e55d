//! What holds of all spellings and of all decodes, each law as the contract of a function that does nothing.

ghost use Rattle.vex_decode.specs.Laws.{PrefixFree, SpellingLength, SpellingBytes, OneMeaning, ReadingIsSpelling};
ghost use Rattle.vex_decode.specs.Laws.{SpellingIsRead, BlockedOrBegun, MoreBytes, ExhaustedAtEnd, MoreSettings};
ghost use Rattle.vex_decode.specs.Laws.{SameAnswer, FirstBytes, AtMostEleven, SettingsLast, OutsideExactly};
ghost use Rattle.vex_decode.specs.Laws.{SettingsAlone, VexOpcodes, NotesChangeNothing, DecodeOfSpelling};
ghost use Rattle.vex_decode.specs.Laws.{DecodeIsSpelling, DecodeIsBlocked};

/// If one spelling begins another they are equal, and every spelling is a string of 3 to 11 bytes.
pub fn prefix_free()
    ensures equal { PrefixFree }
    ensures length { SpellingLength }
    ensures bytes { SpellingBytes }
{}

/// A byte string spells at most one meaning.
pub fn one_meaning()
    ensures { OneMeaning }
{}

/// What a decode takes out of bytes, the row, the parts of the spelling and the bytes that are left, is exactly what a
/// row writes at their front.
pub fn reading_is_spelling()
    ensures { ReadingIsSpelling }
{}

/// Where a spelling stands first, a decode takes its row and its parts, and leaves whatever follows.
pub fn spelling_is_read()
    ensures { SpellingIsRead }
{}

/// No step of a decode fails exactly where some beginning of the bytes spells a meaning whose opcode is permitted, and
/// further bytes at the end change no answer other than that the input, all of it taken, is exhausted.
pub fn blocked_or_begun()
    ensures begun { BlockedOrBegun }
    ensures more { MoreBytes }
    ensures exhausted { ExhaustedAtEnd }
{}

/// A decode answers the meaning and the length of the permitted spelling that begins the bytes, whatever follows it, or
/// the error that blocks them, each exactly where there is such a spelling or error.
pub fn decode_answers()
    ensures first { DecodeOfSpelling }
    ensures spelling { DecodeIsSpelling }
    ensures error { DecodeIsBlocked }
{}

/// Where bytes are blocked after n of them, n is at most 11, and those n bytes alone are blocked by the same error,
/// after all of them.
pub fn blocked_by_first_bytes()
    ensures alone { FirstBytes }
    ensures most { AtMostEleven }
{}

/// `Outside` comes exactly where the first byte is there and is neither C4 nor C5. The settings are tested last, and no
/// step fails but they exactly where the bytes begin with a spelling whose opcode they don't permit.
pub fn causes_of_refusals()
    ensures outside { OutsideExactly }
    ensures last { SettingsLast }
    ensures settings { SettingsAlone }
{}

/// Setting further bits never turns an answer into an error, and no bit changes the meaning or the length.
pub fn more_settings()
    ensures kept { MoreSettings }
    ensures same { SameAnswer }
{}

/// An opcode is a VEX opcode exactly where some row gives it.
pub fn vex_opcodes()
    ensures { VexOpcodes }
{}

/// Over a `U8Reader`, `decode_with_annotation` gives the answer and the instruction that `decode_into` gives on the
/// same bytes and settings, and takes the same bytes, whatever the sink is.
pub fn notes_change_nothing()
    ensures { NotesChangeNothing }
{}
