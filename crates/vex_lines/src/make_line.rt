//! The line that sums up how the generated spellings are recoded.

ghost use Rattle.std.specs.Prelude.{◌≡◌, ◌+◌, ◌<◌, ◌≤◌, ◌++◌, length, decimal, IfSome};
ghost use Rattle.std.specs.List.{sum};
ghost use Rattle.arrayvec.specs.ArrayString.{array_string_len};
ghost use Rattle.vex_lines.specs.Ends.{Writes};
ghost use Rattle.vex_lines.specs.Generator.{made, recoding};
ghost use Rattle.vex_lines.specs.Internal.Totals.{IsTotals, line_of};

use crate::ends::{Failed, Sink};
use crate::generator::generated;
use crate::line_text::LineText;
use vex_asm::{MAX_TEXT, append_number};
use vex_encode::{Spelling, recode};
use x86_settings::InstDecoder;

/// What the recodings of generated spellings come to: how many there are, the lengths read, the lengths of the
/// canonical bytes, and these bytes themselves, each added up.
#[derive(Clone, Copy)]
struct Totals {
    recoded: u64,
    read: u64,
    short: u64,
    sum: u64,
}

/// The length and the canonical bytes of the spelling that begins these bytes, where there is one.
fn recoding(bytes: &[u8]) -> Option<(u8, Spelling)>
    ensures found { result ≡ recoding bytes.now }
    ensures within { IfSome result (λ found. found.0 ≤ length bytes.now) }
{
    match recode(&InstDecoder::default(), bytes) {
        Ok((instruction, spelling)) => Some((instruction.len(), spelling)),
        Err(_) => None,
    }
}

/// The sum of the bytes of a spelling.
fn sum_of(bytes: &[u8]) -> u64
    requires { length bytes.now ≤ 11 }
    ensures value { result ≡ sum bytes.now }
    ensures most { result ≤ 2805 }
{
    let mut sum = 0;
    for &byte in bytes {
        sum += u64::from(byte);
    }
    sum
}

impl Totals {
    /// Adds the recoding of the next generated spelling, whose number is `i`.
    fn add(&mut self, i: usize)
        requires few { i < 4294967296 }
        requires before { IsTotals self.old i }
        ensures { IsTotals self.new (i + 1) }
    {
        if let Some((len, spelling)) = recoding(generated(i).as_slice()) {
            let short = spelling.as_slice();
            self.recoded += 1;
            self.read += u64::from(len);
            self.short += short.len() as u64;
            self.sum += sum_of(short);
        }
    }
}

/// What the first generated spellings come to.
fn add_up(count: u32) -> Totals
    ensures { IsTotals result count }
{
    let mut totals = Totals {
        recoded: 0,
        read: 0,
        short: 0,
        sum: 0,
    };
    for i in 0..count {
        totals.add(i as usize);
    }
    totals
}

/// Appends a word and a number in decimal.
fn push_count(text: &mut LineText, word: &str, number: u64)
    requires word { length word.now ≤ 7 }
    requires room { array_string_len text.old + 27 ≤ MAX_TEXT }
    ensures written { text.new.bytes ≡ text.old.bytes ++ word.now ++ decimal number }
    ensures short { array_string_len text.new ≤ array_string_len text.old + 27 }
{
    text.push_str(word);
    append_number(text, number as usize);
}

/// Makes the text the line of these totals over so many spellings.
fn made_text(text: &mut LineText, count: u32, totals: &Totals)
    ensures { text.new.bytes ≡ line_of count totals.now }
{
    text.clear();
    push_count(text, "made ", u64::from(count));
    push_count(text, " ok ", totals.recoded);
    push_count(text, " read ", totals.read);
    push_count(text, " short ", totals.short);
    push_count(text, " sum ", totals.sum);
    text.push_str("\n");
}

/// Generates so many spellings, recodes each under all settings, and writes the line that sums this up, in one write,
/// which is then handed on. `Failed` where a call of the sink fails.
pub fn write_made<K: Sink>(count: u32, sink: &mut K) -> Result<(), Failed>
    ensures { Writes result (K.text sink.old) (K.text sink.new) (K.faults sink.old) (K.faults sink.new) (made count) }
{
    let mut text = LineText::new();
    made_text(&mut text, count, &add_up(count));
    sink.write_all(text.as_str().as_bytes())?;
    sink.flush()
}
