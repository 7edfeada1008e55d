//! What tests of several subjects are made of: words, and a source that is to be left alone.

ghost use Rattle.std.specs.Prelude.{None};

use crate::{Failed, Source, Words};

mod held_back;
mod lines;
mod making;
mod runs;
mod spellings;

/// These words, of which those that are refused are left out.
pub fn words_of(list: &[&str]) -> Words {
    let mut words = Words::new();
    for word in list {
        words.push(word);
    }
    words
}

/// A source that gives nothing, and counts how often it is asked.
#[derive(Drop)]
pub struct Asked {
    pub calls: u64,
}

impl Source for Asked {
    ghost left = { λ _. None };

    ghost given = { λ _. 0 };

    ghost faults = { λ _. 0 };

    fn read(&mut self, _into: &mut [u8]) -> Result<usize, Failed> {
        self.calls = self.calls.saturating_add(1);
        Ok(0)
    }
}
