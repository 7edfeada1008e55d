//! The commands, and how the words of the command line ask for one.

ghost use Rattle.std.specs.Prelude.{◌≡◌};
ghost use Rattle.vex_lines.specs.Command.{command, command_of_one, command_of_two, command_under, count_made, count_of};
ghost use Rattle.vex_lines.specs.Command.{count_written, line_command, reads_text};

use crate::words::Words;
use itoa::Buffer;
use x86_settings::InstDecoder;
use x86_uarch::profile;

/// What the program is asked to do.
#[derive(Clone, Copy, PartialEq, Eq, Debug)]
pub enum Command {
    /// Answer each line by itself, without memory.
    EachLine(LineCommand),
    /// `sweep P`: a line for each instruction of the line's code under these settings, and one for the end. It alone
    /// takes memory.
    Sweep(InstDecoder),
    /// `make N`: one line, which sums up how so many spellings are recoded, 1 to 1,000,000, that it generates. It reads
    /// no lines.
    Make(u32),
}

/// What is written for each line by itself, under the settings of the profile `P`. A line that is longer than 8,192
/// bytes, or isn't hex digits where these are asked for, gets one line that names the error.
#[derive(Clone, Copy, PartialEq, Eq, Debug)]
pub enum LineCommand {
    /// `recode P`: one line, of the instruction that begins the line's code and its canonical bytes.
    Recode(InstDecoder),
    /// `notes P`: a line for each note on the bytes that a decode takes, and then that of `recode P`.
    Notes(InstDecoder),
    /// `asm P`: one line, of the canonical bytes of the meaning that the line writes as a text.
    Asm(InstDecoder),
    /// `emulate P`: a line for each vector and each block of memory that the line's code changes, and one for the end.
    Emulate(InstDecoder),
    /// `spellings P`: a line for each spelling of the meaning of the instruction that begins the line's code, and one
    /// for the end.
    Spellings(InstDecoder),
    /// `least`: a line for each bit of settings that the instructions of the line's code need, and one for the profiles
    /// that have them all.
    Least,
}

/// The greatest number of spellings to make.
const MAX_MADE: u32 = 1_000_000;

/// The number, where it is one of spellings to make and the word writes it as such: `parse` reads a sign and leading
/// zeros too.
fn count_written(word: &str, count: u32) -> Option<u32>
    ensures { result ≡ count_written word.now count }
{
    let mut buffer = Buffer::new();
    let is_plain = word.as_bytes() == buffer.format(count).as_bytes();
    if 1 <= count && count <= MAX_MADE && is_plain {
        Some(count)
    } else {
        None
    }
}

/// The number of spellings to make that a word writes, `None` where it isn't one from 1 to 1,000,000 in decimal,
/// without a sign or a leading zero.
fn count_of(word: &str) -> Option<u32>
    ensures { result ≡ count_of word.now }
{
    match word.parse::<u32>() {
        Ok(count) => count_written(word, count),
        Err(_) => None,
    }
}

impl Command {
    /// The command that the words ask for, `None` where they are none: a verb that answers lines and what it asks for,
    /// or `make` and a number. Whether a word was refused plays no part.
    pub fn of(words: &Words) -> Option<Command>
        ensures { result ≡ command words.now.0 }
    {
        match (words.get(0), words.get(1), words.get(2)) {
            (Some(verb), None, None) => Command::of_one(verb),
            (Some(verb), Some(word), None) => Command::of_two(verb, word),
            _ => None,
        }
    }

    /// The command of one word.
    fn of_one(verb: &str) -> Option<Command>
        ensures { result ≡ command_of_one verb.now }
    {
        match verb {
            "least" => Some(Command::EachLine(LineCommand::Least)),
            _ => None,
        }
    }

    /// The command of a verb and the word after it.
    fn of_two(verb: &str, word: &str) -> Option<Command>
        ensures { result ≡ command_of_two verb.now word.now }
    {
        match verb {
            "make" => count_of(word).map(Command::Make),
            _ => match profile(word) {
                Some(settings) => Command::under(verb, settings),
                None => None,
            },
        }
    }

    /// The command of a verb under settings.
    fn under(verb: &str, settings: InstDecoder) -> Option<Command>
        ensures { result ≡ command_under verb.now settings }
    {
        match verb {
            "sweep" => Some(Command::Sweep(settings)),
            _ => LineCommand::under(verb, settings).map(Command::EachLine),
        }
    }

    /// How many spellings the command makes, `None` where it reads lines.
    pub fn count_made(&self) -> Option<u32>
        ensures { result ≡ count_made self.now }
    {
        match self {
            Command::Make(count) => Some(*count),
            _ => None,
        }
    }
}

impl LineCommand {
    /// The command of a verb under settings, `None` where it isn't one that answers each line by itself.
    pub fn under(verb: &str, settings: InstDecoder) -> Option<LineCommand>
        ensures { result ≡ line_command verb.now settings }
    {
        match verb {
            "recode" => Some(LineCommand::Recode(settings)),
            "notes" => Some(LineCommand::Notes(settings)),
            "asm" => Some(LineCommand::Asm(settings)),
            "emulate" => Some(LineCommand::Emulate(settings)),
            "spellings" => Some(LineCommand::Spellings(settings)),
            _ => None,
        }
    }

    /// Whether the command reads the line itself, as a text, and not the bytes that it writes in hex digits.
    pub fn reads_text(&self) -> bool
        ensures { result ≡ reads_text self.now }
    {
        matches!(self, LineCommand::Asm(_))
    }
}
