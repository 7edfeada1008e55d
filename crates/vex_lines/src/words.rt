//! The words of the command line, in fixed buffers.

ghost use Rattle.std.specs.Prelude.{◌≡◌, ◌<◌, ◌≤◌, ◌↔◌, ◌∷◌, ◌++◌, [], true, false, length, IsTrue, option_copied};
ghost use Rattle.std.specs.Prelude.{slice_get};
ghost use Rattle.std.specs.Bool.{OnTrue, OnFalse};

use arrayvec::{ArrayString, ArrayVec};
use std::marker::Model;

/// How many words are kept, at most.
pub const MAX_WORDS: usize = 4;

/// How many bytes a word has, at most.
pub const MAX_WORD_LEN: usize = 64;

/// The words of the command line: at most 4, each of at most 64 bytes, and whether one was refused.
#[derive(Drop)]
pub struct Words {
    kept: ArrayVec<ArrayString<MAX_WORD_LEN>, MAX_WORDS>,
    over: bool,
}

impl Model for Words {
    ghost use Rattle.std.specs.Prelude.{List, ℕ, Bool, map};
    ghost use Rattle.arrayvec.specs.ArrayString.{ArrayString};

    ghost Value = { List (List ℕ) × Bool };

    ghost view = { λ w. (map (λ (s : ArrayString). s.bytes) w.kept.items, w.over) };
}

impl Words {
    /// No words, and none was refused.
    pub fn new() -> Words
        ensures { result ≡ ([], false) }
    {
        Words {
            kept: ArrayVec::new(),
            over: false,
        }
    }

    /// Appends a word, and answers whether it is kept. It is refused, and the words stay as they
    /// were, exactly where four words are kept already or it has more than 64 bytes.
    pub fn push(&mut self, word: &str) -> bool
        ensures accepts { IsTrue result ↔ ((length self.old.0 < 4) × (length word.now ≤ 64)) }
        ensures accepted { OnTrue result (self.new ≡ (self.old.0 ++ word.now ∷ [], self.old.1)) }
        ensures refused { OnFalse result (self.new ≡ (self.old.0, true)) }
    {
        let Ok(word) = ArrayString::from(word) else {
            self.over = true;
            return false;
        };
        let is_kept = self.kept.try_push(word).is_ok();
        if !is_kept {
            self.over = true;
        }
        is_kept
    }

    /// Whether a word was refused.
    pub fn over(&self) -> bool
        ensures { result ≡ self.now.1 }
    {
        self.over
    }

    /// The word at this place, counted from 0.
    pub fn get(&self, index: usize) -> Option<&str>
        ensures { option_copied result ≡ slice_get self.now.0 index }
    {
        self.kept.get(index).map(|word| word.as_str())
    }
}
