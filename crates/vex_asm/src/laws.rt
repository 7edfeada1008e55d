//! What holds of the texts of all meanings, each law as the contract of a function that does nothing, but for calls
//! that what it says follows from.

ghost use Rattle.vex_asm.specs.Assembly.{TextAssembles};
ghost use Rattle.vex_asm.specs.Laws.{MeaningOfLine, TextsAreWords, TextsDiffer};

use vex_decode::laws::more_settings;
use vex_encode::recode;
use x86_operand::laws::instruction_in_range;
use x86_settings::InstDecoder;

/// The texts of different meanings differ.
pub fn texts_differ()
    ensures { TextsDiffer }
{}

/// The text of a meaning is a line with that text as its words.
pub fn texts_are_words()
    ensures { TextsAreWords }
{}

/// What the definitions take for the meaning of a line is exactly the meaning in range of which its words are the text.
pub fn meaning_of_line()
    ensures { MeaningOfLine }
{}

/// The text of the meaning that a decode of these bytes answers assembles to the canonical bytes of that meaning,
/// whatever blanks stand between its words.
pub fn text_assembles(decoder: &InstDecoder, bytes: &[u8])
    ensures { TextAssembles decoder.now bytes.now }
{
    // A law: a decode has one answer.
    more_settings();
    match recode(decoder, bytes) {
        Ok((instruction, _)) => instruction_in_range(instruction),
        Err(_) => {}
    }
}
