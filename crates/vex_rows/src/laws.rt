//! Laws of the entries and of the forms, over the definitions alone: each function's contract is a law, and its body is
//! empty.

ghost use Rattle.vex_rows.specs.Laws.{KeysAreApart, TableIsInOrder, RowsHaveEntries, EntriesHaveRows};
ghost use Rattle.vex_rows.specs.Laws.{FormsAreInOrder, FormsAreOrderly, GathersAreChecked, GroupsAreFields};

/// Of all entries at most one has a key.
pub fn keys_are_apart()
    ensures { KeysAreApart }
{}

/// The entries stand in table order: by map, implied prefix, byte, W rule and L rule.
pub fn table_is_in_order()
    ensures { TableIsInOrder }
{}

/// The entry of a row is one of the entries of the row's opcode, which `entries_of` answers.
pub fn rows_have_entries()
    ensures { RowsHaveEntries }
{}

/// An entry of an opcode stands in the table, and has a row that gives the opcode.
pub fn entries_have_rows()
    ensures { EntriesHaveRows }
{}

/// Each row of the table of forms is that of the form which it names.
pub fn forms_are_in_order()
    ensures { FormsAreInOrder }
{}

/// The steps of every form are in order: checks of prefix fields, ModRM, checks of ModRM, the address, and late checks.
/// A form without ModRM checks and reads nothing of it, and one that reads no address checks that its operand is a
/// register.
pub fn forms_are_orderly()
    ensures { FormsAreOrderly }
{}

/// Every form that gathers has ModRM and reads an address, and checks first that ModRM names one.
pub fn gathers_are_checked()
    ensures { GathersAreChecked }
{}

/// Every group of every form is a value of the field reg: it is below 8.
pub fn groups_are_fields()
    ensures { GroupsAreFields }
{}
