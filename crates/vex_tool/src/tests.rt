//! What tests of several subjects are made of.

use vex_lines::Words;

mod arguments;
mod ends;

/// The words of `recode default`.
pub fn recode_words() -> Words {
    let mut words = Words::new();
    words.push("recode");
    words.push("default");
    words
}
