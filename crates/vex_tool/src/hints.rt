//! What is said of words that are no command: the word that was not understood, and the names that come near to it.

use arrayvec::ArrayString;
use std::alloc::{AllocError, Global};
use strsim::levenshtein;
use vex_lines::{MAX_WORD_LEN, Words};
use x86_uarch::{names, profile};

/// The word that comes after a command.
#[derive(Clone, Copy, PartialEq, Eq, Debug)]
enum Wanted {
    Nothing,
    Settings,
    Count,
}

/// The commands, in the order of the help.
const COMMANDS: [(&str, Wanted); 8] = [
    ("recode", Wanted::Settings),
    ("sweep", Wanted::Settings),
    ("asm", Wanted::Settings),
    ("spellings", Wanted::Settings),
    ("emulate", Wanted::Settings),
    ("least", Wanted::Nothing),
    ("make", Wanted::Count),
    ("notes", Wanted::Settings),
];

/// A word as it can be shown: its bytes, each that is no printable character of ASCII as `?`.
type Shown = ArrayString<MAX_WORD_LEN>;

fn shown(word: &str) -> Shown {
    let mut text = Shown::new();
    for byte in word.bytes() {
        let is_printable = byte == b' ' || byte.is_ascii_graphic();
        // A word has at most as many bytes as there is room for.
        let _ = text.try_push(if is_printable { byte as char } else { '?' });
    }
    text
}

/// Whether a name comes near to a word, letters of either case alike: one begins with the other, or they differ in one
/// edit, or in edits of at most a third of the longer one.
fn is_near(alloc: Global, word: &str, name: &str) -> Result<bool, AllocError> {
    let mut lowered = Shown::new();
    for byte in word.bytes() {
        let _ = lowered.try_push(byte.to_ascii_lowercase() as char);
    }
    let word = lowered.as_str();
    if word.is_empty() {
        return Ok(false);
    }
    if name.starts_with(word) || word.starts_with(name) {
        return Ok(true);
    }
    let edits = levenshtein(alloc, word, name)?;
    Ok(edits <= 1 || edits <= word.len().max(name.len()) / 3)
}

/// Appends a name that comes near to the word.
fn push_near(alloc: Global, near: &mut String, word: &str, name: &str) -> Result<(), AllocError> {
    if is_near(alloc, word, name)? {
        near.push_str(if near.is_empty() {
            "; near to it: "
        } else {
            ", "
        })?;
        near.push_str(name)?;
    }
    Ok(())
}

/// The commands that come near to the word.
fn near_commands(alloc: Global, word: &str) -> Result<String, AllocError> {
    let mut near = String::new(alloc);
    for (name, _) in &COMMANDS {
        push_near(alloc, &mut near, word, name)?;
    }
    Ok(near)
}

/// The names of settings that come near to the word.
fn near_settings(alloc: Global, word: &str) -> Result<String, AllocError> {
    let mut near = String::new(alloc);
    push_near(alloc, &mut near, word, "default")?;
    push_near(alloc, &mut near, word, "minimal")?;
    for name in names() {
        push_near(alloc, &mut near, word, name)?;
    }
    Ok(near)
}

/// What comes after a command of this name.
fn wanted_after(verb: &str) -> Option<Wanted> {
    for (name, wanted) in &COMMANDS {
        if *name == verb {
            return Some(*wanted);
        }
    }
    None
}

/// What is said where a word of more than 64 bytes, a fifth word, or one that isn't UTF-8 was refused.
const REFUSED: &str =
    "a word is not UTF-8, has more than 64 bytes, or is the fifth; vex_tool --help lists the commands";

/// Says what is wrong with words that are no command, or of which one was refused: the first word that doesn't fit.
pub fn hint(alloc: Global, words: &Words) -> Result<String, AllocError> {
    let Some(verb) = words.get(0) else {
        return match words.over() {
            true => format!(in alloc; "{REFUSED}"),
            false => format!(in alloc; "a command is missing; vex_tool --help lists the commands"),
        };
    };
    let Some(wanted) = wanted_after(verb) else {
        let verb = shown(verb);
        let near = near_commands(alloc, verb.as_str())?;
        return format!(in alloc;
            "'{verb}' is no command{near}; vex_tool --help lists the commands"
        );
    };
    let place = if wanted == Wanted::Nothing { 1 } else { 2 };
    match (words.get(1), words.get(place)) {
        (None, _) if words.over() => format!(in alloc; "{REFUSED}"),
        (None, _) => hint_of_missing(alloc, verb, wanted),
        (Some(name), _) if wanted == Wanted::Settings && profile(name).is_none() =>
            hint_of_settings(alloc, name),
        (_, Some(more)) => {
            let more = shown(more);
            format!(in alloc; "'{more}' is one word too many; vex_tool --help lists the commands")
        }
        (Some(_), None) if words.over() => format!(in alloc; "{REFUSED}"),
        (Some(count), None) => {
            let count = shown(count);
            format!(in alloc;
                "'{count}' is no number from 1 to 1,000,000; vex_tool --help lists the commands"
            )
        }
    }
}

/// Says which word is missing after a command.
fn hint_of_missing(alloc: Global, verb: &str, wanted: Wanted) -> Result<String, AllocError> {
    match wanted {
        Wanted::Count => {
            format!(in alloc;
                "a number is missing after '{verb}'; vex_tool --help lists the commands"
            )
        }
        _ => format!(in alloc;
            "a name of settings is missing after '{verb}'; vex_tool --help lists them"
        ),
    }
}

/// Says that a word names no settings.
fn hint_of_settings(alloc: Global, word: &str) -> Result<String, AllocError> {
    let word = shown(word);
    let near = near_settings(alloc, word.as_str())?;
    format!(in alloc;
        "'{word}' names no settings{near}; vex_tool --help lists the microarchitectures"
    )
}
