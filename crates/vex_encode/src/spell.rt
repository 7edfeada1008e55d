//! Writing the bytes of a spelling (Intel SDM volume 2, sections 2.3.5 to 2.3.9).

ghost use Rattle.std.specs.Prelude.{◌≡◌, ◌<◌, ◌≤◌, ◌+◌, ◌++◌, ◌∷◌, length};
ghost use Rattle.vex_forms.specs.Fields.{fields_of};
ghost use Rattle.vex_decode.specs.Fields.{prefix_bytes, shortest_form};
ghost use Rattle.vex_decode.specs.Spelling.{imm_bytes};
ghost use Rattle.vex_encode.specs.Assembly.{HeadFits, with_reg};

use crate::spelling::Spelling;
use vex_decode::shortest_prefix;
use vex_forms::OperandFields;
use vex_rows::Prefix;
use x86_address::AddressBytes;

/// Appends the bytes of a prefix. A call that copies so few costs more than to push them.
fn push_prefix(spelling: &mut Spelling, prefix: &[u8])
    requires { length spelling.old + length prefix.now ≤ 11 }
    ensures { spelling.new ≡ spelling.old ++ prefix.now }
{
    match prefix {
        [first, second] => {
            spelling.push(*first);
            spelling.push(*second);
        }
        [first, second, third] => {
            spelling.push(*first);
            spelling.push(*second);
            spelling.push(*third);
        }
        _ => spelling.extend(prefix),
    }
}

/// Appends the bytes from ModRM on, with the field reg in it.
fn push_place(spelling: &mut Spelling, reg: u8, place: &[u8])
    requires reg { reg < 8 }
    requires head { HeadFits place.now }
    requires room { length spelling.old + length place.now ≤ 11 }
    ensures { spelling.new ≡ spelling.old ++ with_reg reg place.now }
{
    if let [modrm, rest @ ..] = place {
        spelling.push(*modrm + 8 * reg);
        // A call that copies nothing costs more than this test.
        if !rest.is_empty() {
            spelling.extend(rest);
        }
    }
}

/// The bytes of a spelling: prefix, opcode byte, those of the operand E with the field reg in ModRM, and the immediate
/// where there is one.
pub fn spell(
    prefix: &Prefix,
    byte: u8,
    numbers: &OperandFields,
    place: &AddressBytes,
    has_imm: bool,
) -> Spelling
    requires vvvv { prefix.now.vvvv < 16 }
    requires head { HeadFits place.now.bytes.items }
    requires most { length place.now.bytes.items ≤ 6 }
    ensures { result ≡ prefix_bytes (shortest_form (fields_of prefix.now)) (fields_of prefix.now)
        ++ byte ∷ (with_reg numbers.now.reg place.now.bytes.items ++ imm_bytes has_imm numbers.now.imm) }
{
    let mut spelling = Spelling::new();
    push_prefix(&mut spelling, shortest_prefix(prefix).as_slice());
    spelling.push(byte);
    push_place(&mut spelling, numbers.reg, place.bytes.as_slice());
    if has_imm {
        spelling.push(numbers.imm);
    }
    spelling
}
