//! The checks of a form, which stand between the steps that read.

ghost use Rattle.std.specs.Prelude.{◌≡◌, [], ◌∷◌};
ghost use Rattle.x86_address.specs.Follows.{Any, Decides};
ghost use Rattle.vex_rows.specs.Few.{items};
ghost use Rattle.vex_forms.specs.Fields.{fields_of};
ghost use Rattle.vex_forms.specs.FormWalk.{check_all, passes, refusal};
ghost use Rattle.vex_forms.specs.Reads.{kind_seen};

use crate::kind::Kind;
use vex_rows::{Check, Entry, Few, Prefix, row_of_form};
use x86_operand::DecodeError;

/// Whether a check passes, by the prefix, the kind of the operand E and the field reg.
#[tactic(auto, unfolding(vex_rows::specs::Groups::groups))]
fn passes(check: Check, entry: &Entry, prefix: &Prefix, kind: Kind, reg: u8) -> bool
    ensures { result ≡ passes entry.now (fields_of prefix.now) (kind_seen kind) reg check }
{
    match check {
        Check::V0 => prefix.vvvv == 0,
        Check::L0 => !prefix.l,
        Check::Reg => kind == Kind::Register,
        Check::Mem => kind.is_memory_of(row_of_form(entry.form).gathers),
        Check::Group => row_of_form(entry.form).is_group(reg),
        Check::VifMem => !kind.is_memory() || prefix.vvvv == 0,
    }
}

/// The error of a check that doesn't pass.
fn refusal(check: Check) -> DecodeError
    ensures { result ≡ refusal check }
{
    match check {
        Check::Group => DecodeError::InvalidOpcode,
        Check::V0 | Check::L0 | Check::Reg | Check::Mem | Check::VifMem => {
            DecodeError::InvalidOperand
        }
    }
}

/// Does a check.
#[inline(always)]
fn do_check(
    check: Check,
    entry: &Entry,
    prefix: &Prefix,
    kind: Kind,
    reg: u8,
) -> Result<(), DecodeError>
    ensures { Decides (check_all entry.now (fields_of prefix.now) (kind_seen kind) reg (check ∷ [])) Any result }
{
    if passes(check, entry, prefix, kind, reg) {
        Ok(())
    } else {
        Err(refusal(check))
    }
}

/// Does the checks of a slice in order.
fn check_each(
    checks: &[Check],
    entry: &Entry,
    prefix: &Prefix,
    kind: Kind,
    reg: u8,
) -> Result<(), DecodeError>
    ensures { Decides (check_all entry.now (fields_of prefix.now) (kind_seen kind) reg checks.now) Any result }
{
    for check in checks {
        if !passes(*check, entry, prefix, kind, reg) {
            return Err(refusal(*check));
        }
    }
    Ok(())
}

/// Does several checks in order.
#[inline(never)]
fn do_several(
    checks: &Few<Check>,
    entry: &Entry,
    prefix: &Prefix,
    kind: Kind,
    reg: u8,
) -> Result<(), DecodeError>
    ensures { Decides (check_all entry.now (fields_of prefix.now) (kind_seen kind) reg (items checks.now)) Any result }
{
    check_each(checks.items().as_slice(), entry, prefix, kind, reg)
}

/// Does the checks in order. The first that doesn't pass gives the error. Most lists have no check or one.
#[inline(always)]
pub fn do_checks(
    checks: &Few<Check>,
    entry: &Entry,
    prefix: &Prefix,
    kind: Kind,
    reg: u8,
) -> Result<(), DecodeError>
    ensures { Decides (check_all entry.now (fields_of prefix.now) (kind_seen kind) reg (items checks.now)) Any result }
{
    match checks {
        Few::Zero => Ok(()),
        Few::One(check) => do_check(*check, entry, prefix, kind, reg),
        Few::Two(_, _) | Few::Three(_, _, _) | Few::Four(_, _, _, _) => {
            do_several(checks, entry, prefix, kind, reg)
        }
    }
}
