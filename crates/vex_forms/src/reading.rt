//! Reading what the form of an entry asks for.

ghost use Rattle.std.specs.Prelude.{◌≡◌, ◌≢◌, ◌<◌, ◌/◌, ◌%◌, true, IfOk, IfErr, OnErr};
ghost use Rattle.x86_operand.specs.Kind.{is_vector};
ghost use Rattle.x86_address.specs.Reading.{take_place};
ghost use Rattle.x86_address.specs.Reads.{NamesAddress};
ghost use Rattle.x86_address.specs.Follows.{Same, Follows, OverSlice};
ghost use Rattle.vex_rows.specs.Steps.{steps_seen};
ghost use Rattle.vex_rows.specs.Row.{Among, is_memory};
ghost use Rattle.vex_rows.specs.Table.{table};
ghost use Rattle.vex_forms.specs.Fields.{fields_of};
ghost use Rattle.vex_forms.specs.FormWalk.{place_by, take_imm, walk_alone, walk_form, walk_modrm};
ghost use Rattle.vex_forms.specs.Operands.{made};
ghost use Rattle.vex_forms.specs.Reads.{FailsForm, HasPrefix, IsInstruction, IsOperandE, IsOperands, TakesForm};
ghost use Rattle.vex_forms.specs.Reads.{kind_of_e, kind_seen};

use crate::checks::do_checks;
use crate::choice::Choice;
use crate::kind::Kind;
use crate::operand_e::OperandE;
use crate::operand_fields::OperandFields;
use vex_rows::{Entry, FormRow, Prefix, row_of_form};
use x86_address::laws::reading_is_spelling;
use x86_address::{read_address, read_imm, read_modrm, read_vector_address};
use x86_operand::{Address, DecodeError, Instruction};
use x86_reader::Reader;

/// Reads SIB and displacement after ModRM, of an address of that kind.
fn read_address_of<R: Reader>(
    kind: Kind,
    modrm: u8,
    prefix: &Prefix,
    words: &mut R,
) -> Result<Address, DecodeError>
    requires memory { modrm < 0xC0 }
    requires sib { is_vector (kind_seen kind) ≡ true → modrm % 8 ≡ 4 }
    ensures { Follows (take_place (modrm / 64) (modrm % 8))
        (NamesAddress (is_vector (kind_seen kind)) prefix.now.x prefix.now.b)
        (R.state words.old) (R.state words.new) result }
{
    match kind {
        Kind::Vector => read_vector_address(words, modrm, prefix.x, prefix.b),
        Kind::WithoutModRM | Kind::Register | Kind::Memory => {
            read_address(words, modrm, prefix.x, prefix.b)
        }
    }
}

/// Reads the operand E after ModRM: SIB and displacement, where the form reads an address and ModRM names one.
fn read_e<R: Reader>(
    has_address: bool,
    kind: Kind,
    modrm: u8,
    prefix: &Prefix,
    words: &mut R,
) -> Result<OperandE, DecodeError>
    requires { is_vector (kind_seen kind) ≡ true → modrm % 8 ≡ 4 }
    ensures { Follows (place_by has_address (modrm / 64) (modrm % 8))
        (IsOperandE (is_vector (kind_seen kind)) prefix.now.x prefix.now.b)
        (R.state words.old) (R.state words.new) result }
{
    if !has_address || modrm / 64 == 3 {
        return Ok(OperandE::Register(modrm % 8 + 8 * u8::from(prefix.b)));
    }
    let address = read_address_of(kind, modrm, prefix, words)?;
    Ok(OperandE::Memory(address))
}

/// Reads the immediate byte where there is one, and answers 0 where there is none.
fn read_imm_if<R: Reader>(has_imm: bool, words: &mut R) -> Result<u8, DecodeError>
    ensures { Follows (take_imm has_imm) Same (R.state words.old) (R.state words.new) result }
{
    if has_imm { read_imm(words) } else { Ok(0) }
}

/// Does the steps of a form from ModRM on.
fn read_from_modrm<R: Reader>(
    form: &FormRow,
    entry: &Entry,
    prefix: &Prefix,
    words: &mut R,
) -> Result<OperandFields, DecodeError>
    requires { prefix.now.vvvv < 16 }
    ensures { Follows (walk_modrm entry.now (fields_of prefix.now) (steps_seen form.now)) (IsOperands prefix.now)
        (R.state words.old) (R.state words.new) result }
{
    let modrm = read_modrm(words)?;
    let reg = modrm / 8 % 8;
    let kind = Kind::of_modrm(entry, modrm);
    do_checks(&form.after_modrm, entry, prefix, kind, reg)?;
    let e = read_e(form.address, kind, modrm, prefix, words)?;
    do_checks(&form.after_address, entry, prefix, kind, reg)?;
    let imm = read_imm_if(form.imm, words)?;
    Ok(OperandFields {
        r: prefix.r,
        vvvv: prefix.vvvv,
        reg,
        e,
        imm,
    })
}

/// Does the steps of a form without ModRM.
fn read_alone<R: Reader>(
    form: &FormRow,
    prefix: &Prefix,
    words: &mut R,
) -> Result<OperandFields, DecodeError>
    requires { prefix.now.vvvv < 16 }
    ensures { Follows (walk_alone (steps_seen form.now)) (IsOperands prefix.now)
        (R.state words.old) (R.state words.new) result }
{
    let imm = read_imm_if(form.imm, words)?;
    Ok(OperandFields {
        r: prefix.r,
        vvvv: prefix.vvvv,
        reg: 0,
        e: OperandE::Absent,
        imm,
    })
}

/// Does the steps of an entry's form.
#[tactic(auto, unfolding(crate::specs::FormWalk::walk_form))]
fn read_operands<R: Reader>(
    entry: &Entry,
    prefix: &Prefix,
    words: &mut R,
) -> Result<OperandFields, DecodeError>
    requires { prefix.now.vvvv < 16 }
    ensures { Follows (walk_form entry.now (fields_of prefix.now)) (IsOperands prefix.now)
        (R.state words.old) (R.state words.new) result }
{
    let form = row_of_form(entry.form);
    do_checks(&form.before_modrm, entry, prefix, Kind::WithoutModRM, 0)?;
    if form.modrm {
        read_from_modrm(form, entry, prefix, words)
    } else {
        read_alone(form, prefix, words)
    }
}

/// Whether the operand E is in memory.
fn is_memory(e: OperandE) -> bool
    ensures { result ≡ is_memory (kind_of_e e) }
{
    matches!(e, OperandE::Memory(_))
}

/// Does the steps of an entry's form as `read_form` does, and writes the instruction that they mean, whatever the
/// caller's held. After an error that stays as it was.
pub fn read_form_into<R: Reader>(
    entry: &Entry,
    prefix: &Prefix,
    words: &mut R,
    instruction: &mut Instruction,
) -> Result<(), DecodeError>
    requires prefix { HasPrefix entry.now (fields_of prefix.now) }
    requires vvvv { prefix.now.vvvv < 16 }
    ensures follows { Follows (walk_form entry.now (fields_of prefix.now))
        (IsInstruction entry.now (fields_of prefix.now))
        (R.state words.old) (R.state words.new) (made result instruction.new) }
    ensures unchanged { OnErr result (instruction.new ≡ instruction.old) }
{
    let fields = read_operands(entry, prefix, words)?;
    // The steps have passed, so that the choice is a row.
    let choice = Choice::of(entry, prefix.w, prefix.l, is_memory(fields.e), fields.reg);
    choice.write_instruction(&fields, instruction);
    Ok(())
}

/// Does the steps of an entry's form over the bytes after the opcode byte, and answers the instruction that they mean
/// with the fields of the prefix (Intel SDM volume 2, sections 2.1.3 to 2.1.5, 2.3.5 and 2.3.8). Its length is 0.
///
/// The first step that fails gives the error: `InvalidOpcode` where the field reg is none of the form's groups,
/// `InvalidOperand` where another check doesn't pass, and `ExhaustedInput` where the reader refuses a byte, which comes
/// only where its count of refusals rose in this call or stands at its last value. No other error comes. Both numbers
/// of the reader rise by the number of bytes taken, which is at most 7.
pub fn read_form<R: Reader>(
    entry: &Entry,
    prefix: &Prefix,
    words: &mut R,
) -> Result<Instruction, DecodeError>
    requires listed { Among entry.now table }
    requires prefix { HasPrefix entry.now (fields_of prefix.now) }
    requires vvvv { prefix.now.vvvv < 16 }
    ensures follows { Follows (walk_form entry.now (fields_of prefix.now))
        (IsInstruction entry.now (fields_of prefix.now))
        (R.state words.old) (R.state words.new) result }

    // No step fails over the bytes taken, and they are those of a spelling by the row that was chosen.
    ensures spells { IfOk result (TakesForm entry.now (fields_of prefix.now) (R.state words.old) (R.state words.new)) }

    // A step fails at the end of the bytes taken, with this error.
    ensures fails { IfErr result (FailsForm entry.now (fields_of prefix.now) (R.state words.old) (R.state words.new)) }
    ensures inside { IfErr result (λ error. error ≢ DecodeError.Outside) }
    ensures slice { OverSlice (walk_form entry.now (fields_of prefix.now))
        (IsInstruction entry.now (fields_of prefix.now))
        (R.state words.old) (R.state words.new) result }
{
    // By this law the bytes that were read are those that spell what was read.
    reading_is_spelling();
    let mut instruction = Instruction::default();
    match read_form_into(entry, prefix, words, &mut instruction) {
        Ok(()) => Ok(instruction),
        Err(error) => Err(error),
    }
}
