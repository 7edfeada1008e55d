//! The look-up of the one entry of a key, the entries by their place, and those of an opcode.

ghost use Rattle.std.specs.Prelude.{◌≡◌, ◌≢◌, ◌+◌, ◌<◌, ◌≤◌, IfSome, IfNone, Some, true, false};
ghost use Rattle.std.specs.Prelude.{length, slice_get, find, map};
ghost use Rattle.vex_rows.specs.declared.entry.Entry.{Entry};
ghost use Rattle.vex_rows.specs.Entries.{entries_with};
ghost use Rattle.vex_rows.specs.Index.{place_list, start_list};
ghost use Rattle.vex_rows.specs.Row.{Among};
ghost use Rattle.vex_rows.specs.Rules.{has_key};
ghost use Rattle.vex_rows.specs.Table.{table};

use crate::cells::cells_at;
use crate::entry::Entry;
use crate::key::Key;
use crate::places::{PLACES, STARTS};
use crate::table::TABLE;
use arrayvec::ArrayVec;
use std::sync::ledger::Ledger;
use step_counter::Steps;
use x86_operand::Opcode;

/// What a cell holds where no entry has the key.
const NO_ENTRY: u16 = 65535;

/// All entries, in table order.
#[tactic(auto, unfolding(crate::specs::Table::table))]
fn all() -> &'static [Entry]
    ensures { result.now ≡ table }
{
    &TABLE
}

/// What the key's cell holds: the place in table order of the entry that has the key, or that there is none.
fn cell(key: &Key) -> u16
    ensures filled { result ≢ 65535 → (entry : Entry) × (slice_get table result ≡ Some entry)
        × (has_key entry key.now ≡ true) }
    ensures empty { result ≡ 65535 → (entry : Entry) → Among entry table → has_key entry key.now ≡ false }
{
    let at = 4 * key.byte as usize + 2 * key.w as usize + key.l as usize;
    match cells_at(key.map, key.pp).get(at) {
        Some(cell) => *cell,
        None => NO_ENTRY,
    }
}

/// The one entry that has the key, and `None` exactly where no entry has it. Counts one probe.
pub fn lookup<L: Ledger>(key: &Key, steps: &mut Steps<L>) -> Option<Entry>
    ensures found { IfSome result (λ entry. Among entry table × (has_key entry key.now ≡ true)
        × ((other : Entry) → Among other table → has_key other key.now ≡ true → other ≡ entry)) }
    ensures none { IfNone result ((entry : Entry) → Among entry table → has_key entry key.now ≡ false) }
    ensures exact { result ≡ find (λ entry. has_key entry key.now) table }
    ensures counted { steps.new ≡ steps.old + 1 }
{
    let cell = cell(key);
    if cell == NO_ENTRY {
        steps.tick();
        None
    } else {
        Some(entry_at(cell as usize, steps))
    }
}

/// How many entries there are.
pub fn entry_count() -> usize
    ensures { result ≡ length table }
{
    all().len()
}

/// The entry at place `i` in table order, counted from 0. Counts one probe.
pub fn entry_at<L: Ledger>(i: usize, steps: &mut Steps<L>) -> Entry
    requires { i < length table }
    ensures entry { slice_get table i ≡ Some result }
    ensures counted { steps.new ≡ steps.old + 1 }
{
    steps.tick();
    all()[i]
}

/// The places of all opcodes' entries, opcode by opcode.
#[tactic(auto, unfolding(crate::specs::Index::place_list))]
fn all_places() -> &'static [u16]
    ensures { result.now ≡ place_list }
{
    &PLACES
}

/// Where the places of each opcode's entries begin and end.
#[tactic(auto, unfolding(crate::specs::Index::start_list))]
fn all_starts() -> &'static [u16]
    ensures { result.now ≡ start_list }
{
    &STARTS
}

/// The places in table order of the entries of which some row gives the opcode.
fn places_of(opcode: Opcode) -> &'static [u16]
    ensures entries { map (slice_get table) result.now ≡ map Some (entries_with opcode) }
    ensures few { length result.now ≤ 4 }
{
    let number = opcode.number() as usize;
    let starts = all_starts();
    &all_places()[starts[number] as usize..starts[number + 1] as usize]
}

/// The entries of which some row gives the opcode, in table order. Counts one probe for each of them.
pub fn entries_of<L: Ledger>(opcode: Opcode, steps: &mut Steps<L>) -> ArrayVec<Entry, 4>
    ensures entries { result.items ≡ entries_with opcode }
    ensures few { length (entries_with opcode) ≤ 4 }
    ensures counted { steps.new ≡ steps.old + length result.items }
{
    let mut entries = ArrayVec::new();
    for place in places_of(opcode) {
        entries.push(entry_at(*place as usize, steps));
    }
    entries
}
