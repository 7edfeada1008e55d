//! Laws of the slots, over the definitions alone: each function's contract is a law, and its body is empty.

ghost use Rattle.vex_forms.specs.Laws.{ChoicesAreRows, RowsAreChoices, SlotsAreFew, SlotsFitSteps};

/// A row has at most four operands.
pub fn slots_are_few()
    ensures { SlotsAreFew }
{}

/// The slots of a row fit the steps of its form: at most one reads the immediate byte, and none where there is none;
/// vvvv isn't demanded to be 0 where a slot names it; without ModRM no slot names the field reg.
pub fn slots_fit_steps()
    ensures { SlotsFitSteps }
{}

/// The rows are what entries of the table have at a W, an L, a kind of the operand E and a reg field, where they can be
/// and exist.
pub fn rows_are_choices()
    ensures rows { RowsAreChoices }
    ensures choices { ChoicesAreRows }
{}
