//! What holds of all spellings of a meaning, each law as the contract of a function that does nothing, but for
//! naming the laws that it follows from.

ghost use Rattle.vex_list.specs.Laws.{AllAreListed, ListIsOne, NextIsListed, NoneMissing, TheseAreAll};

use vex_decode::laws::{prefix_free, reading_is_spelling, spelling_is_read};

/// Whatever parts of a row mean a meaning are made by some choice of what the row and the meaning leave open.
pub fn none_missing()
    ensures { NoneMissing }
{}

/// All spellings of a meaning stand in one list, in ascending order, each once and none missing. What `spelling_after`
/// answers is the first in it that comes after the bytes; so `first_spelling`, and `spelling_after` of each spelling in
/// turn, go through the list from its first to its last, and end.
pub fn all_are_listed()
    ensures listed { AllAreListed }
    // That list is the only one, and it is the one of the definition.
    ensures one { ListIsOne }
    ensures these { TheseAreAll }
    ensures next { NextIsListed }
{
    prefix_free();
    reading_is_spelling();
    spelling_is_read();
}
