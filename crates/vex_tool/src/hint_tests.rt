//! What is said of words that are no command.

use crate::help::text_asked;
use crate::hints::hint;
use vex_lines::Words;

/// Words, and what is said of them.
const SAID: [(&[&str], &str); 14] = [
    (
        &[],
        "a command is missing; vex_tool --help lists the commands",
    ),
    (
        &["recod"],
        "'recod' is no command; near to it: recode; vex_tool --help lists the commands",
    ),
    (
        &["S"],
        "'S' is no command; near to it: sweep, spellings; vex_tool --help lists the commands",
    ),
    (
        &["quux"],
        "'quux' is no command; vex_tool --help lists the commands",
    ),
    (
        &["a\nb\u{7f}ö"],
        "'a?b???' is no command; vex_tool --help lists the commands",
    ),
    (
        &["recode"],
        "a name of settings is missing after 'recode'; vex_tool --help lists them",
    ),
    (
        &["recode", "Haswel"],
        "'Haswel' names no settings; near to it: haswell, haswell_ex; vex_tool --help lists the microarchitectures",
    ),
    (
        &["sweep", "zen6", "x"],
        "'zen6' names no settings; near to it: zen, zen2, zen3, zen4, zen5; vex_tool --help lists the microarchitectures",
    ),
    (
        &["least", "default"],
        "'default' is one word too many; vex_tool --help lists the commands",
    ),
    (
        &["notes", "zen", "zen2"],
        "'zen2' is one word too many; vex_tool --help lists the commands",
    ),
    (
        &["make"],
        "a number is missing after 'make'; vex_tool --help lists the commands",
    ),
    (
        &["make", "01"],
        "'01' is no number from 1 to 1,000,000; vex_tool --help lists the commands",
    ),
    (
        &["make", "1", "2"],
        "'2' is one word too many; vex_tool --help lists the commands",
    ),
    (
        &[
            "recode",
            "xxxxxxxxxxxxxxxxxxxxxxxxxxxxxxxxxxxxxxxxxxxxxxxxxxxxxxxxxxxxxxxxx",
        ],
        "a word is not UTF-8, has more than 64 bytes, or is the fifth; vex_tool --help lists the commands",
    ),
];

/// The words as the program keeps them.
fn kept(words: &[&str]) -> Words {
    let mut kept = Words::new();
    for word in words {
        kept.push(word);
    }
    kept
}

#[test]
fn a_hint_names_the_word_and_what_comes_near(rt: HostRuntime) {
    for (words, said) in &SAID {
        let hint = hint(rt.alloc(), &kept(words)).ok();
        assert_eq!(rt; hint.as_deref(), Some(*said));
    }
}

#[test]
fn help_and_version_are_asked_for_alone(rt: HostRuntime) {
    assert!(rt; text_asked(&kept(&["--help"])).is_some_and(|text| text.contains("kabylake")));
    assert!(rt; text_asked(&kept(&["-h"])) == text_asked(&kept(&["--help"])));
    assert!(rt;
        text_asked(&kept(&["--version"])).is_some_and(|text| text.starts_with("vex_tool "))
    );
    for words in [&["recode", "--help"], &["--help", "recode"]] {
        assert_eq!(rt; text_asked(&kept(words)), None);
    }
}
