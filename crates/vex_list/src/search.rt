//! The nearest spelling of an instruction by a row, over all that the row leaves open.
//!
//! The bytes of the choices come in ascending order but for few, so that most are passed over without a decode.

ghost use Rattle.std.specs.Prelude.{◌<◌};
ghost use Rattle.vex_decode.specs.Spelling.{SpellsBy};
ghost use Rattle.vex_rows.specs.Row.{IsRow, Row};
ghost use Rattle.vex_list.specs.Choices.{IsChoices};
ghost use Rattle.vex_list.specs.Next.{Covers};
ghost use Rattle.vex_list.specs.Sets.{ByAddress, ByLow, ByVvvv, IsRowParts};

use crate::candidate::candidate;
use crate::choices::{Choices, RowParts};
use crate::nearest::{Wanted, nearer};
use crate::numbered::{address_form, address_forms, inverted_vvvv, is_open, prefix_choice};
use vex_encode::Spelling;

/// The nearest of the nearest so far and of the spellings that these choices give with each immediate byte.
fn by_low(
    parts: &RowParts,
    choices: Choices,
    wanted: &Wanted<'_>,
    nearest: Option<Spelling>,
) -> Option<Spelling>
    requires { IsChoices choices }
    ensures { (row : Row) → IsRowParts row wanted.now.instruction.now.meaning parts.now
        → Covers wanted.now.instruction.now.meaning wanted.now.previous.now
        (ByLow row wanted.now.instruction.now.meaning parts.now choices) nearest result }
{
    let mut nearest = nearest;
    for low in 0..parts.lows {
        let bytes = candidate(parts, &Choices { low, ..choices });
        nearest = nearer(nearest, bytes.as_slice(), wanted);
    }
    nearest
}

/// The nearest of the nearest so far and of the spellings that these choices give with each form of the address, where
/// there is one, and each immediate byte.
fn by_address(
    parts: &RowParts,
    choices: Choices,
    wanted: &Wanted<'_>,
    nearest: Option<Spelling>,
) -> Option<Spelling>
    requires { IsChoices choices }
    ensures { (row : Row) → IsRowParts row wanted.now.instruction.now.meaning parts.now
        → Covers wanted.now.instruction.now.meaning wanted.now.previous.now
        (ByAddress row wanted.now.instruction.now.meaning parts.now choices) nearest result }
{
    let mut nearest = nearest;
    for number in 0..address_forms(&parts.e) {
        let address = address_form(number);
        nearest = by_low(parts, Choices { address, ..choices }, wanted, nearest);
    }
    nearest
}

/// The nearest of the nearest so far and of the spellings that these choices give with each value of vvvv that the row
/// leaves open, each form of the address and each immediate byte. The values go from the last to the first, since they
/// stand inverted.
fn by_vvvv(
    parts: &RowParts,
    choices: Choices,
    wanted: &Wanted<'_>,
    nearest: Option<Spelling>,
) -> Option<Spelling>
    requires { IsChoices choices }
    ensures { (row : Row) → IsRowParts row wanted.now.instruction.now.meaning parts.now
        → Covers wanted.now.instruction.now.meaning wanted.now.previous.now
        (ByVvvv row wanted.now.instruction.now.meaning parts.now choices) nearest result }
{
    let (first, end) = inverted_vvvv(parts.vvvv);
    let mut nearest = nearest;
    for inverted in first..end {
        let vvvv = 15 - inverted;
        nearest = by_address(parts, Choices { vvvv, ..choices }, wanted, nearest);
    }
    nearest
}

/// The nearest of the nearest so far and of all spellings by the row with these parts: with each form of a prefix and
/// its bits R, X and B, where the row leaves them open.
pub fn by_row(parts: &RowParts, wanted: &Wanted<'_>, nearest: Option<Spelling>) -> Option<Spelling>
    ensures { (row : Row) → IsRow row → IsRowParts row wanted.now.instruction.now.meaning parts.now
        → Covers wanted.now.instruction.now.meaning wanted.now.previous.now
        (λ b. SpellsBy b wanted.now.instruction.now.meaning row) nearest result }
{
    let mut nearest = nearest;
    for number in 0..16 {
        let choices = prefix_choice(number);
        if is_open(parts, &choices) {
            nearest = by_vvvv(parts, choices, wanted, nearest);
        }
    }
    nearest
}
