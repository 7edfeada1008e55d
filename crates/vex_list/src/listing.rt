//! All spellings of an instruction, one after another.

ghost use Rattle.std.specs.Prelude.{◌≡◌, ◌↔◌, ◌<◌, ℕ, [], List, IsNone, IfSome, IsTrue, None};
ghost use Rattle.vex_decode.specs.Spelling.{Spells};
ghost use Rattle.vex_rows.specs.declared.entry.Entry.{Entry};
ghost use Rattle.vex_rows.specs.Entries.{entries_with};
ghost use Rattle.vex_rows.specs.Row.{Among};
ghost use Rattle.vex_rows.specs.Table.{table};
ghost use Rattle.vex_list.specs.AllSpellings.{all_spellings, spellings_after, spellings_from};
ghost use Rattle.vex_list.specs.Order.{Before, IsNext, UpTo};
ghost use Rattle.vex_list.specs.Next.{Covers};
ghost use Rattle.vex_list.specs.Sets.{ByEntries};

use crate::laws::all_are_listed;
use crate::nearest::Wanted;
use crate::rows::by_entry;
use arrayvec::ArrayVec;
use std::marker::Brand;
use std::sync::ledger::{Blank, Ledger};
use step_counter::Steps;
use vex_decode::laws::prefix_free;
use vex_encode::{Spelling, encode_shortest};
use vex_forms::laws::rows_are_choices;
use vex_rows::laws::rows_have_entries;
use vex_rows::{Entry, entries_of};
use x86_operand::{Instruction, Opcode};

/// The entries of an opcode, with a counter of their own.
fn counted_entries<L: Ledger>(opcode: Opcode, blank: Blank) -> ArrayVec<Entry, 4>
    requires name { blank.name ≡ L.name }
    requires parts { blank.parts ≡ L.parts }
    requires some { 0 < blank.parts }
    ensures { result.items ≡ entries_with opcode }
{
    entries_of(opcode, &mut Steps::<L>::new(blank))
}

/// Whether no bytes spell the instruction's meaning.
fn has_none<L: Ledger>(instruction: &Instruction, blank: Blank) -> bool
    requires name { blank.name ≡ L.name }
    requires parts { blank.parts ≡ L.parts }
    requires some { 0 < blank.parts }
    ensures { IsTrue result → (bytes : List ℕ) → Spells bytes instruction.now.meaning → ⊥ }
{
    encode_shortest(instruction, &mut Steps::<L>::new(blank)).is_err()
}

/// The nearest wanted spelling by the rows of some entries.
fn by_entries(entries: &[Entry], wanted: &Wanted<'_>) -> Option<Spelling>
    requires { (entry : Entry) → Among entry entries.now → Among entry table }
    ensures { Covers wanted.now.instruction.now.meaning wanted.now.previous.now
        (ByEntries wanted.now.instruction.now.meaning entries.now) None result }
{
    let mut nearest = None;
    for entry in entries {
        nearest = by_entry(entry, wanted, nearest);
    }
    nearest
}

/// The next spelling, with all that is known of it at once.
fn next_spelling(instruction: &Instruction, previous: &[u8]) -> Option<Spelling>
    ensures { IsNext instruction.now.meaning previous.now result }
{
    // Laws: a row is that of an entry of its opcode, at some choice.
    rows_have_entries();
    rows_are_choices();
    // Else each choice would be decoded, since none is ever the nearest.
    if has_none::<Brand>(instruction, Blank::new(1)) {
        return None;
    }
    let entries = counted_entries::<Brand>(instruction.opcode(), Blank::new(1));
    let wanted = Wanted {
        instruction,
        previous,
    };
    by_entries(entries.as_slice(), &wanted)
}

/// The least spelling of the instruction's meaning that comes after `previous`, which is any byte string. `None` comes
/// exactly where there is none. Byte strings are ordered byte by byte from the front, and a proper prefix comes first.
/// The length that the instruction holds plays no part.
///
/// No memory is taken. All that the rows of the opcode leave open is gone through in each call.
pub fn spelling_after(instruction: &Instruction, previous: &[u8]) -> Option<Spelling>
    ensures spells { IfSome result (λ next. Spells next instruction.now.meaning) }
    ensures after { IfSome result (λ next. Before previous.now next) }
    // No other spelling stands between.
    ensures least { IfSome result (λ next. (bytes : List ℕ) → Spells bytes instruction.now.meaning
        → Before previous.now bytes → UpTo next bytes) }
    ensures none { IsNone result ↔ ((bytes : List ℕ) → Spells bytes instruction.now.meaning → Before previous.now bytes
        → ⊥) }
    // In the list of all spellings, what comes after `previous` is the answer and what comes after that.
    ensures listed { spellings_after instruction.now.meaning previous.now
        ≡ spellings_from instruction.now.meaning result }
{
    // A law: the list has all.
    all_are_listed();
    next_spelling(instruction, previous)
}

/// The least spelling of the instruction's meaning, in the order of `spelling_after`. `None` comes exactly where no
/// byte string spells it.
pub fn first_spelling(instruction: &Instruction) -> Option<Spelling>
    ensures spells { IfSome result (λ first. Spells first instruction.now.meaning) }
    ensures least { IfSome result (λ first. (bytes : List ℕ) → Spells bytes instruction.now.meaning
        → UpTo first bytes) }
    ensures none { IsNone result ↔ ((bytes : List ℕ) → Spells bytes instruction.now.meaning → ⊥) }
    // The list of all spellings is the answer and what comes after that.
    ensures listed { all_spellings instruction.now.meaning ≡ spellings_from instruction.now.meaning result }
{
    // Laws: a spelling isn't empty, and the list has all.
    prefix_free();
    all_are_listed();
    next_spelling(instruction, &[])
}
