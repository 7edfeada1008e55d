//! The forms of operands as data: one row for each form.

ghost use Rattle.std.specs.Prelude.{◌≡◌};
ghost use Rattle.vex_rows.specs.FormRows.{form_row, gathers};
ghost use Rattle.vex_rows.specs.Steps.{steps, steps_seen};

use crate::few::Few;
use crate::few::Few::{Four, One, Three, Two, Zero};
use crate::form::Form;
use crate::form_row::BankRule::{ByL, ByW, D, Element, Gather, Q, X, Y};
use crate::form_row::ByteCount::{ByL as CountByL, ByW as CountByW, Is, Nothing};
use crate::form_row::SizeRule::{Always, ByOpcode};
use crate::form_row::SlotRule::{E, G, I8, R4, U8, V, VInRegister};
use crate::form_row::{FormRow, SizeList, SizeRule};
use crate::steps::Check::{Group, L0, Mem, Reg, V0, VifMem};
use x86_operand::Opcode;

// The sizes that are one for all opcodes, and those that go by the opcode, with the size of every other opcode.
const BYTES_4: SizeRule = Always(Is(4));

const BYTES_8: SizeRule = Always(Is(8));

const BYTES_16: SizeRule = Always(Is(16));

const BYTES_32: SizeRule = Always(Is(32));

const BY_L: SizeRule = Always(CountByL(16, 32));

const BY_W: SizeRule = Always(CountByW(4, 8));

const EXTRACTED: SizeRule = ByOpcode(SizeList::Extract, Is(4));

const INSERTED: SizeRule = ByOpcode(SizeList::Insert, Is(4));

const STORED: SizeRule = ByOpcode(SizeList::Store, Is(16));

const LOADED: SizeRule = ByOpcode(SizeList::Load, Is(16));

const CONVERTED: SizeRule = ByOpcode(SizeList::Convert, Is(16));

const WIDENED: SizeRule = ByOpcode(SizeList::Widen, Is(16));

const BROADCAST: SizeRule = ByOpcode(SizeList::Broadcast, Is(8));

const SCALAR: SizeRule = ByOpcode(SizeList::Scalar, Is(16));

const SCALAR_IMM: SizeRule = ByOpcode(SizeList::ScalarImmediate, Is(16));

const HALF: SizeRule = ByOpcode(SizeList::Half, Is(16));

const MOVED: SizeRule = ByOpcode(SizeList::Move, CountByL(16, 32));

const GATHERED: SizeRule = ByOpcode(SizeList::Gather, Is(8));

// The groups of the forms that have them.
const WORD_SHIFTS: Few<(u8, Opcode)> = Three(
    (2, Opcode::VPSRLW),
    (4, Opcode::VPSRAW),
    (6, Opcode::VPSLLW),
);

const DOUBLEWORD_SHIFTS: Few<(u8, Opcode)> = Three(
    (2, Opcode::VPSRLD),
    (4, Opcode::VPSRAD),
    (6, Opcode::VPSLLD),
);

const QUADWORD_SHIFTS: Few<(u8, Opcode)> = Four(
    (2, Opcode::VPSRLQ),
    (3, Opcode::VPSRLDQ),
    (6, Opcode::VPSLLQ),
    (7, Opcode::VPSLLDQ),
);

const LOWEST_BITS: Few<(u8, Opcode)> = Three(
    (1, Opcode::BLSR),
    (2, Opcode::BLSMSK),
    (3, Opcode::BLSI),
);

const CONTROL_REGISTER: Few<(u8, Opcode)> = Two((2, Opcode::VLDMXCSR), (3, Opcode::VSTMXCSR));

// The opcodes with the operand E in a register and in memory.
const LOW_HALF: Option<(Opcode, Opcode)> = Some((Opcode::VMOVHLPS, Opcode::VMOVLPS));

const HIGH_HALF: Option<(Opcode, Opcode)> = Some((Opcode::VMOVLHPS, Opcode::VMOVHPS));

/// A form without ModRM and without a check.
pub const ALONE: FormRow = FormRow {
    form: Form::Nothing,
    before_modrm: Zero,
    modrm: false,
    after_modrm: Zero,
    address: false,
    after_address: Zero,
    imm: false,
    slots: Zero,
    gathers: false,
    size: Always(Nothing),
    register_size: Nothing,
    groups: Zero,
    opcodes: None,
};

// The steps of forms that read no address: their ModRM byte names a register.
const REG: FormRow = FormRow {
    modrm: true,
    after_modrm: One(Reg),
    ..ALONE
};

const V0_REG: FormRow = FormRow {
    before_modrm: One(V0),
    ..REG
};

const REG_GROUP_IMM: FormRow = FormRow {
    after_modrm: Two(Reg, Group),
    imm: true,
    ..REG
};

// The steps of forms that read an address.
const ADDR: FormRow = FormRow {
    modrm: true,
    address: true,
    ..ALONE
};

const ADDR_IMM: FormRow = FormRow { imm: true, ..ADDR };

const ADDR_VIFMEM: FormRow = FormRow {
    after_address: One(VifMem),
    ..ADDR
};

const MEM_ADDR: FormRow = FormRow {
    after_modrm: One(Mem),
    ..ADDR
};

const GATHER: FormRow = FormRow {
    gathers: true,
    ..MEM_ADDR
};

const GROUP_ADDR: FormRow = FormRow {
    after_modrm: One(Group),
    ..ADDR
};

const GROUP_MEM_ADDR: FormRow = FormRow {
    after_modrm: Two(Group, Mem),
    ..ADDR
};

const V0_ADDR: FormRow = FormRow {
    before_modrm: One(V0),
    ..ADDR
};

const V0_ADDR_IMM: FormRow = FormRow {
    imm: true,
    ..V0_ADDR
};

const V0_ADDR_REG: FormRow = FormRow {
    after_address: One(Reg),
    ..V0_ADDR
};

const V0_ADDR_REG_IMM: FormRow = FormRow {
    imm: true,
    ..V0_ADDR_REG
};

const V0_MEM_ADDR: FormRow = FormRow {
    before_modrm: One(V0),
    ..MEM_ADDR
};

const V0_L0_ADDR_IMM: FormRow = FormRow {
    before_modrm: Two(V0, L0),
    imm: true,
    ..ADDR
};

/// The row of each form, in the order of `Form`. The constant at the end of a row names its steps.
#[rattlefmt::skip]
pub static FORMS: [FormRow; 69] = [
    FormRow { form: Form::Nothing, before_modrm: One(V0), ..ALONE },
    FormRow { form: Form::VPS_71, slots: Three(V(ByL), E(ByL), I8), groups: WORD_SHIFTS, ..REG_GROUP_IMM },
    FormRow { form: Form::VPS_72, slots: Three(V(ByL), E(ByL), I8), groups: DOUBLEWORD_SHIFTS, ..REG_GROUP_IMM },
    FormRow { form: Form::VPS_73, slots: Three(V(ByL), E(ByL), I8), groups: QUADWORD_SHIFTS, ..REG_GROUP_IMM },
    FormRow { form: Form::VMOVSS_10, slots: Three(G(X), VInRegister(X), E(X)), size: BYTES_4, ..ADDR_VIFMEM },
    FormRow { form: Form::VMOVSD_10, slots: Three(G(X), VInRegister(X), E(X)), size: BYTES_8, ..ADDR_VIFMEM },
    FormRow { form: Form::VMOVSS_11, slots: Three(E(X), VInRegister(X), G(X)), size: BYTES_4, ..ADDR_VIFMEM },
    FormRow { form: Form::VMOVSD_11, slots: Three(E(X), VInRegister(X), G(X)), size: BYTES_8, ..ADDR_VIFMEM },
    FormRow { form: Form::VMOVLPS_12, slots: Three(G(X), V(X), E(X)), size: BYTES_8, opcodes: LOW_HALF, ..ADDR },
    FormRow { form: Form::VMOVHPS_16, slots: Three(G(X), V(X), E(X)), size: BYTES_8, opcodes: HIGH_HALF, ..ADDR },
    FormRow { form: Form::Ev_G_xmm_imm8, slots: Three(E(Element), G(X), U8), size: EXTRACTED, ..V0_ADDR_IMM },
    FormRow { form: Form::G_xmm_Ed, slots: Two(G(X), E(D)), size: BYTES_4, ..V0_ADDR },
    FormRow { form: Form::G_xmm_Eq, slots: Two(G(X), E(Q)), size: BYTES_8, ..V0_ADDR },
    FormRow { form: Form::Ed_G_xmm, slots: Two(E(D), G(X)), size: BYTES_4, ..V0_ADDR },
    FormRow { form: Form::Eq_G_xmm, slots: Two(E(Q), G(X)), size: BYTES_8, ..V0_ADDR },
    FormRow { form: Form::VCVT_Gd_Ed_xmm, slots: Two(G(D), E(X)), size: BYTES_4, ..V0_ADDR },
    FormRow { form: Form::VCVT_Gd_Eq_xmm, slots: Two(G(D), E(X)), size: BYTES_8, ..V0_ADDR },
    FormRow { form: Form::VCVT_Gq_Ed_xmm, slots: Two(G(Q), E(X)), size: BYTES_4, ..V0_ADDR },
    FormRow { form: Form::VCVT_Gq_Eq_xmm, slots: Two(G(Q), E(X)), size: BYTES_8, ..V0_ADDR },
    FormRow { form: Form::M_G_xmm, slots: Two(E(X), G(X)), size: STORED, ..V0_MEM_ADDR },
    FormRow { form: Form::M_G_xyLmm, slots: Two(E(ByL), G(ByL)), size: BY_L, ..V0_MEM_ADDR },
    FormRow { form: Form::M_G_ymm, slots: Two(E(Y), G(Y)), size: BYTES_32, ..V0_MEM_ADDR },
    FormRow { form: Form::Ud_G_xyLmm, slots: Two(G(D), E(ByL)), ..V0_ADDR_REG },
    FormRow { form: Form::Gd_U_xmm, slots: Two(G(D), E(X)), ..V0_ADDR_REG },
    FormRow { form: Form::Gd_U_ymm, slots: Two(G(D), E(Y)), ..V0_ADDR_REG },
    FormRow { form: Form::Ud_G_xmm_imm8, slots: Three(G(D), E(X), U8), ..V0_ADDR_REG_IMM },
    FormRow { form: Form::E_G_xmm_imm8, slots: Three(E(X), G(X), U8), size: BYTES_8, ..V0_ADDR_IMM },
    FormRow { form: Form::E_xmm_G_ymm_imm8, slots: Three(E(X), G(Y), U8), size: BYTES_16, ..V0_ADDR_IMM },
    FormRow { form: Form::G_M_xmm, slots: Two(G(X), E(X)), size: BYTES_16, ..V0_MEM_ADDR },
    FormRow { form: Form::G_M_ymm, slots: Two(G(Y), E(Y)), size: BYTES_32, ..V0_MEM_ADDR },
    FormRow { form: Form::G_ymm_M_xmm, slots: Two(G(Y), E(X)), size: BYTES_16, ..V0_MEM_ADDR },
    FormRow { form: Form::G_E_xmm, slots: Two(G(X), E(X)), size: LOADED, ..V0_ADDR },
    FormRow { form: Form::G_U_xmm_vmaskmovdqu, slots: Two(G(X), E(X)), register_size: Is(16), ..V0_REG },
    FormRow { form: Form::G_xmm_E_xmm, slots: Two(G(X), E(X)), size: CONVERTED, ..V0_ADDR },
    FormRow { form: Form::G_xmm_E_ymm, slots: Two(G(X), E(Y)), size: BYTES_32, ..V0_ADDR },
    FormRow { form: Form::G_E_ymm, slots: Two(G(Y), E(Y)), size: BYTES_32, ..V0_ADDR },
    FormRow { form: Form::G_ymm_E_ymm, slots: Two(G(Y), E(Y)), size: BYTES_32, ..V0_ADDR },
    FormRow { form: Form::G_ymm_E_xmm, slots: Two(G(Y), E(X)), size: WIDENED, ..V0_ADDR },
    FormRow { form: Form::G_E_xyLmm, slots: Two(G(ByL), E(ByL)), size: MOVED, ..V0_ADDR },
    FormRow { form: Form::E_G_xyLmm, slots: Two(E(ByL), G(ByL)), size: MOVED, ..V0_ADDR },
    FormRow { form: Form::G_Lmm_E_xmm, slots: Two(G(ByL), E(X)), size: BROADCAST, ..V0_ADDR },
    FormRow { form: Form::G_E_xyLmm_imm8, slots: Three(G(ByL), E(ByL), U8), size: BY_L, ..V0_ADDR_IMM },
    FormRow { form: Form::G_E_xmm_imm8, slots: Three(G(X), E(X), U8), size: BYTES_16, ..V0_L0_ADDR_IMM },
    FormRow { form: Form::G_E_ymm_imm8, slots: Three(G(Y), E(Y), U8), size: BYTES_32, ..V0_ADDR_IMM },
    FormRow { form: Form::G_V_E_xyLmm, slots: Three(G(ByL), V(ByL), E(ByL)), size: BY_L, ..ADDR },
    FormRow { form: Form::G_V_E_ymm, slots: Three(G(Y), V(Y), E(Y)), size: BYTES_32, ..ADDR },
    FormRow { form: Form::G_V_ymm_E_xmm, slots: Three(G(Y), V(Y), E(X)), size: BYTES_16, ..ADDR },
    FormRow { form: Form::G_V_E_xmm, slots: Three(G(X), V(X), E(X)), size: SCALAR, ..ADDR },
    FormRow { form: Form::G_V_Ed_xmm, slots: Three(G(X), V(X), E(X)), size: BYTES_4, ..ADDR },
    FormRow { form: Form::G_V_Eq_xmm, slots: Three(G(X), V(X), E(X)), size: BYTES_8, ..ADDR },
    FormRow { form: Form::G_V_xmm_Ed, slots: Three(G(X), V(X), E(D)), size: BYTES_4, ..ADDR },
    FormRow { form: Form::G_V_xmm_Eq, slots: Three(G(X), V(X), E(Q)), size: BYTES_8, ..ADDR },
    FormRow { form: Form::G_V_M_xmm, slots: Three(G(X), V(X), E(X)), size: HALF, ..MEM_ADDR },
    FormRow { form: Form::G_V_M_ymm, slots: Three(G(Y), V(Y), E(Y)), size: BYTES_32, ..MEM_ADDR },
    FormRow { form: Form::M_V_G_xmm, slots: Three(E(X), V(X), G(X)), size: BYTES_16, ..MEM_ADDR },
    FormRow { form: Form::M_V_G_ymm, slots: Three(E(Y), V(Y), G(Y)), size: BYTES_32, ..MEM_ADDR },
    FormRow { form: Form::G_V_E_xyLmm_imm8, slots: Four(G(ByL), V(ByL), E(ByL), U8), size: BY_L, ..ADDR_IMM },
    FormRow { form: Form::G_V_E_xmm_imm8, slots: Four(G(X), V(X), E(X), U8), size: SCALAR_IMM, ..ADDR_IMM },
    FormRow { form: Form::G_V_E_ymm_imm8, slots: Four(G(Y), V(Y), E(Y), U8), size: BYTES_32, ..ADDR_IMM },
    FormRow { form: Form::G_ymm_V_ymm_E_xmm_imm8, slots: Four(G(Y), V(Y), E(X), U8), size: BYTES_16, ..ADDR_IMM },
    FormRow { form: Form::G_V_E_xmm_xmm4, slots: Four(G(X), V(X), E(X), R4(X)), size: BYTES_16, ..ADDR_IMM },
    FormRow { form: Form::G_V_E_ymm_ymm4, slots: Four(G(Y), V(Y), E(Y), R4(Y)), size: BYTES_32, ..ADDR_IMM },
    FormRow { form: Form::G_V_xmm_Ev_imm8, slots: Four(G(X), V(X), E(Element), I8), size: INSERTED, ..ADDR_IMM },
    FormRow { form: Form::G_V_E, slots: Three(G(ByW), V(ByW), E(ByW)), size: BY_W, ..ADDR },
    FormRow { form: Form::G_E_V, slots: Three(G(ByW), E(ByW), V(ByW)), size: BY_W, ..ADDR },
    FormRow { form: Form::G_E_Ib, slots: Three(G(ByW), E(ByW), I8), size: BY_W, ..ADDR_IMM },
    FormRow { form: Form::BMI1_F3, slots: Two(V(ByW), E(ByW)), size: BY_W, groups: LOWEST_BITS, ..GROUP_ADDR },
    FormRow { form: Form::MXCSR, slots: One(E(D)), size: BYTES_4, groups: CONTROL_REGISTER, ..GROUP_MEM_ADDR },
    FormRow { form: Form::G_ExyL_V_xyLmm, slots: Three(G(Gather), E(Gather), V(Gather)), size: GATHERED, ..GATHER },
];

/// What the table says of a form.
#[tactic(auto, unfolding(crate::specs::FormRows::form_row, crate::specs::FormRows::gathers, crate::specs::Steps::steps))]
pub fn row_of_form(form: Form) -> &'static FormRow
    ensures row { result.now ≡ form_row form }
    ensures steps { steps_seen result.now ≡ steps form }
    ensures gathers { result.now.gathers ≡ gathers form }
{
    &FORMS[form as usize]
}
