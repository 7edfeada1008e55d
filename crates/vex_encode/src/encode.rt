//! The shortest spelling of an instruction.

ghost use Rattle.std.specs.Prelude.{ℕ, ◌≡◌, ◌+◌, ◌<◌, ◌≤◌, ◌==◌, ◌||◌, not, false, true, length, flat_map};
ghost use Rattle.std.specs.Prelude.{if◌then◌else◌};
ghost use Rattle.std.specs.List.{list_any};
ghost use Rattle.std.specs.Option.{ForSome};
ghost use Rattle.x86_operand.specs.Instruction.{operand_at};
ghost use Rattle.x86_operand.specs.Meaning.{operand_meaning};
ghost use Rattle.vex_rows.specs.declared.entry.Entry.{Entry};
ghost use Rattle.vex_rows.specs.Row.{Among, choices, choices_of_l, choices_of_w};
ghost use Rattle.vex_rows.specs.Groups.{groups};
ghost use Rattle.vex_rows.specs.Rules.{allows};
ghost use Rattle.vex_rows.specs.Table.{table};
ghost use Rattle.vex_forms.specs.Layout.{chosen, row_for, rules_allow};
ghost use Rattle.vex_forms.specs.Slots.{goes_by_w, slots};
ghost use Rattle.vex_decode.specs.Spelling.{bytes_of};
ghost use Rattle.vex_encode.specs.Assembly.{IsAsked, IsPlaced};
ghost use Rattle.vex_encode.specs.Canon.{canon};
ghost use Rattle.vex_encode.specs.Conditions.{first_bank};
ghost use Rattle.vex_encode.specs.Encode.{best, first, is_address, shorter_of, standard_of};
ghost use Rattle.vex_forms.specs.Reads.{kind_seen};
ghost use Rattle.vex_encode.specs.Standard.{candidate};

use crate::assembly::operand_fields;
use crate::fits::{first_bank, given, may_begin};
use crate::operand_walk::Asked;
use crate::place::place_of;
use crate::spell::spell;
use crate::spelling::Spelling;
use arrayvec::ArrayVec;
use std::sync::ledger::Ledger;
use step_counter::Steps;
use vex_forms::laws::rows_are_choices;
use vex_forms::{Choice, Kind, first_slot, goes_by_w, is_row, rules_allow};
use vex_rows::{Entry, Few, Form, Prefix, entries_of, row_of_form};
use x86_operand::{Instruction, Opcode, Operand, RegisterBank};

/// Whether an operand is an address.
fn is_address(operand: Operand) -> bool
    ensures { result ≡ is_address (operand_meaning operand) }
{
    matches!(operand, Operand::MemDeref { .. } | Operand::Memory { .. })
}

/// Whether an operand of an instruction is an address.
fn has_address(instruction: &Instruction) -> bool
    ensures { result ≡ list_any is_address instruction.now.meaning.operands }
{
    for i in 0..instruction.operand_count() {
        if is_address(instruction.operand(i)) {
            return true;
        }
    }
    false
}

/// The spelling of an instruction by a row that can give it, where its operands ask for this.
#[inline(never)]
fn spelling_by(choice: &Choice, kind: Kind, asked: Asked, instruction: &Instruction) -> Spelling
    requires kind { (chosen choice.now).kind ≡ kind_seen kind }
    requires group { ForSome choice.now.group (λ group. group < 8) }
    requires e { (bank : RegisterBank)
        × IsPlaced (kind_seen kind) bank (operand_at instruction.now.meaning.operands asked.e) }
    ensures { IsAsked instruction.now.meaning.operands (slots (chosen choice.now)) instruction.now.meaning.operands
        asked → result ≡ bytes_of (chosen choice.now) (candidate (chosen choice.now) instruction.now.meaning) }
{
    let e = instruction.operand(asked.e);
    let numbers = operand_fields(kind, choice.group, asked, e);
    let place = place_of(kind.is_vector(), numbers.e);
    let prefix = Prefix {
        map: choice.entry.map,
        pp: choice.entry.pp,
        w: choice.w,
        l: choice.l,
        r: numbers.r,
        x: place.x,
        b: place.b,
        vvvv: numbers.vvvv,
    };
    spell(
        &prefix,
        choice.entry.byte,
        &numbers,
        &place,
        choice.has_imm(),
    )
}

/// The standard spelling of an instruction by the row of an entry at that W, L, kind of the operand E and reg field,
/// where the row exists and can give it. It is a call of its own, so that rows which don't exist cost little.
#[inline(never)]
fn standard(
    entry: &Entry,
    w: bool,
    l: bool,
    memory: bool,
    group: u8,
    instruction: &Instruction,
) -> Option<Spelling>
    requires listed { Among entry.now table }
    requires rules { rules_allow entry.now w l ≡ true }
    requires group { group < 8 }
    requires memory { memory ≡ list_any is_address instruction.now.meaning.operands }
    ensures { result ≡ standard_of (row_for entry.now w l memory group) instruction.now.meaning }
{
    // A law: what an entry has here is a row where it can be and exists.
    rows_are_choices();
    if !is_row(entry, w, l, memory, group) {
        return None;
    }
    let choice = Choice::of(entry, w, l, memory, group);
    let kind = Kind::of(&choice);
    match given(kind, &choice, instruction) {
        Some(asked) => Some(spelling_by(&choice, kind, asked, instruction)),
        None => None,
    }
}

/// Whether a form has no groups.
#[tactic(auto, unfolding(vex_rows::specs::Groups::groups))]
#[inline(always)]
fn is_alone(form: Form) -> bool
    ensures { (l : ℕ) → result ≡ (length (groups form l) == 0) }
{
    matches!(row_of_form(form).groups, Few::Zero)
}

/// The reg fields that a form allows where it has groups, each with its opcode, and none where it has no groups.
#[tactic(auto, unfolding(vex_rows::specs::Groups::groups))]
fn groups_of(form: Form) -> ArrayVec<(u8, Opcode), 4>
    ensures { (l : ℕ) → result.items ≡ groups form l }
{
    row_of_form(form).groups.items()
}

/// The standard spelling by the row of a group of an entry, at that W and L, where the group is of the instruction's
/// opcode, and the row exists and can give it.
fn standard_of_group(
    entry: &Entry,
    w: bool,
    l: bool,
    memory: bool,
    group: (u8, Opcode),
    instruction: &Instruction,
) -> Option<Spelling>
    requires listed { Among entry.now table }
    requires rules { rules_allow entry.now w l ≡ true }
    requires group { Among group (groups entry.now.form (if l then 1 else 0)) }
    requires memory { memory ≡ list_any is_address instruction.now.meaning.operands }
    ensures { result ≡ standard_of (row_for entry.now w l memory group.0) instruction.now.meaning }
{
    if !instruction.opcode().is(group.1) {
        return None;
    }
    standard(entry, w, l, memory, group.0, instruction)
}

/// The standard spelling by the first row of an entry with groups, at that W and L, that can give an instruction.
#[inline(never)]
fn standard_by_group(
    entry: &Entry,
    w: bool,
    l: bool,
    memory: bool,
    instruction: &Instruction,
) -> Option<Spelling>
    requires listed { Among entry.now table }
    requires rules { rules_allow entry.now w l ≡ true }
    requires grouped { (l : ℕ) → (length (groups entry.now.form l) == 0) ≡ false }
    requires memory { memory ≡ list_any is_address instruction.now.meaning.operands }
    ensures { result ≡ first instruction.now.meaning (choices_of_l entry.now w (if l then 1 else 0)) }
{
    let reg_groups = groups_of(entry.form);
    for group in reg_groups.as_slice() {
        let found = standard_of_group(entry, w, l, memory, *group, instruction);
        if found.is_some() {
            return found;
        }
    }
    None
}

/// The standard spelling by the first row of an entry at that W and L that can give an instruction. There is none where
/// the first operand can't stand at the first slot.
#[inline(always)]
fn standard_at(
    entry: &Entry,
    w: bool,
    l: bool,
    memory: bool,
    bank: Option<RegisterBank>,
    instruction: &Instruction,
) -> Option<Spelling>
    requires listed { Among entry.now table }
    requires memory { memory ≡ list_any is_address instruction.now.meaning.operands }
    requires bank { bank ≡ first_bank instruction.now.meaning.operands }
    ensures { result ≡ first instruction.now.meaning (choices_of_l entry.now w (if l then 1 else 0)) }
{
    if !rules_allow(entry, w, l) {
        return None;
    }
    if !may_begin(first_slot(entry, w, l, memory), memory, bank) {
        return None;
    }
    if !is_alone(entry.form) {
        return standard_by_group(entry, w, l, memory, instruction);
    }
    standard(entry, w, l, memory, 0, instruction)
}

/// The standard spelling by the first row of an entry at that W that can give an instruction.
#[inline(always)]
fn standard_by_l(
    entry: &Entry,
    w: bool,
    memory: bool,
    bank: Option<RegisterBank>,
    instruction: &Instruction,
) -> Option<Spelling>
    requires listed { Among entry.now table }
    requires memory { memory ≡ list_any is_address instruction.now.meaning.operands }
    requires bank { bank ≡ first_bank instruction.now.meaning.operands }
    ensures { result ≡ first instruction.now.meaning (choices_of_w entry.now w) }
{
    let found = standard_at(entry, w, false, memory, bank, instruction);
    if found.is_some() {
        return found;
    }
    standard_at(entry, w, true, memory, bank, instruction)
}

/// Whether a row of an entry with W 1 may give an instruction that none with W 0 can: W 0 isn't allowed, or the form
/// goes by W.
#[inline(always)]
fn wants_w(entry: &Entry) -> bool
    ensures { result ≡ (not (allows entry.now.w false) || goes_by_w entry.now.form) }
{
    !entry.w.allows(false) || goes_by_w(entry.form)
}

/// The shortest standard spelling of an instruction by the rows of an entry, where there is one. That is the one of the
/// first row that can give it: the rows differ in length by W alone, and those with W 0 come first.
#[inline(always)]
fn standard_by_entry(
    entry: &Entry,
    memory: bool,
    bank: Option<RegisterBank>,
    instruction: &Instruction,
) -> Option<Spelling>
    requires listed { Among entry.now table }
    requires memory { memory ≡ list_any is_address instruction.now.meaning.operands }
    requires bank { bank ≡ first_bank instruction.now.meaning.operands }
    ensures { result ≡ best instruction.now.meaning (choices entry.now) }
{
    let found = standard_by_l(entry, false, memory, bank, instruction);
    if found.is_some() {
        return found;
    }
    if !wants_w(entry) {
        return None;
    }
    standard_by_l(entry, true, memory, bank, instruction)
}

/// Whether a spelling is there, and another isn't or is longer.
fn is_shorter(spelling: &Option<Spelling>, other: &Option<Spelling>) -> bool
    ensures { (if result then spelling.now else other.now) ≡ shorter_of other.now spelling.now }
{
    match (spelling, other) {
        (None, _) => false,
        (Some(_), None) => true,
        (Some(spelling), Some(other)) => spelling.as_slice().len() < other.as_slice().len(),
    }
}

/// The shortest standard spelling of an instruction by the rows of some entries, where there is one: the first of
/// least length.
fn standard_by_entries(entries: &[Entry], instruction: &Instruction) -> Option<Spelling>
    requires { (entry : Entry) → Among entry entries.now → Among entry table }
    ensures { result ≡ best instruction.now.meaning (flat_map choices entries.now) }
{
    let memory = has_address(instruction);
    let bank = first_bank(instruction);
    let mut shortest = None;
    for entry in entries {
        let found = standard_by_entry(entry, memory, bank, instruction);
        if is_shorter(&found, &shortest) {
            shortest = found;
        }
    }
    shortest
}

/// The canonical bytes of an instruction's meaning, `None` exactly where no bytes spell it. The length that the
/// instruction holds plays no part. Counts a probe for each entry of the opcode, at most four.
pub fn canonical<L: Ledger>(instruction: &Instruction, steps: &mut Steps<L>) -> Option<Spelling>
    ensures canonical { result ≡ canon instruction.now.meaning }
    ensures counted { steps.new ≤ steps.old + 4 }
{
    let entries = entries_of(instruction.opcode(), steps);
    standard_by_entries(entries.as_slice(), instruction)
}
