//! A second copy of the table of forms, to compare `layout` with.
//!
//! A line has a form, in which rows it stands, what these ask of the field vvvv, the slots, and the size of the memory
//! operand, as the manual has them in the encodings of the operands (Intel SDM volume 2, section 3.1.1.4) but for what
//! docs/DIFFERENCES.md names. Nothing here is made from the table of forms. With an opcode that no entry of the form
//! has, the size of the line counts.

use crate::VvvvRule::{Free, Named, Zero};
use crate::{RowLayout, Slot, VvvvRule};
use arrayvec::ArrayVec;
use vex_rows::Form;
use x86_operand::{MemoryAccessSize, Opcode, RegisterBank};

/// In which rows a line stands.
#[derive(Clone, Copy, PartialEq, Eq, Debug)]
enum Rows {
    /// Those without ModRM.
    Alone,
    /// Those with the operand E in a register.
    Register,
    /// Those with the operand E in memory.
    Memory,
    /// Those with either. Where it is a register there is no size.
    Both,
    /// Those with either, and with L 0.
    BothNarrow,
}

/// The bank of a slot.
#[derive(Clone, Copy)]
enum Bank {
    X,
    Y,
    D,
    Q,
    /// x with L 0, y with L 1.
    ByL,
    /// d with W 0, q with W 1.
    ByW,
    /// q for an element of 64 bits, else d.
    OfElement,
    /// x where the indices are twice as wide as what is gathered, else by L.
    OfGather,
}

/// The slot of an operand. In memory the bank of the operand E plays no part.
#[derive(Clone, Copy)]
enum Operand {
    G(Bank),
    V(Bank),
    E(Bank),
    U8,
    I8,
    R4(Bank),
}

/// The size of the memory operand in bytes.
#[derive(Clone, Copy)]
enum Size {
    Nothing,
    Is(u8),
    /// 16 with L 0, 32 with L 1.
    ByL,
    /// 4 with W 0, 8 with W 1.
    ByW,
}

/// Opcodes with a size that isn't that of their line: with L 0, and with L 1.
struct OtherSize {
    narrow: u8,
    wide: u8,
    opcodes: &'static [Opcode],
}

/// The rows of a form.
pub struct Line {
    pub form: Form,
    rows: Rows,
    vvvv: VvvvRule,
    operands: &'static [Operand],
    size: Size,
    others: &'static [OtherSize],
}

/// The groups of a form: the reg field and the opcode.
struct Groups {
    form: Form,
    opcodes: &'static [(u8, Opcode)],
}

/// What a row is asked for by.
#[derive(Clone, Copy, Debug)]
pub struct Asked {
    pub form: Form,
    pub opcode: Opcode,
    pub w: bool,
    pub l: bool,
    pub memory: bool,
    pub group: u8,
}

macro_rules! size {
    ($bytes:literal: $($opcode:ident)+) => { size!($bytes $bytes: $($opcode)+) };
    ($narrow:literal $wide:literal: $($opcode:ident)+) => {
        OtherSize {
            narrow: $narrow,
            wide: $wide,
            opcodes: &[$(Opcode::$opcode),+],
        }
    };
}

macro_rules! of_form {
    ($form:ident $rows:ident $vvvv:ident [$($operand:ident $(($bank:ident))?),*] $size:ident $(($bytes:literal))?) => {
        of_form!($form $rows $vvvv [$($operand $(($bank))?),*] $size $(($bytes))?, NONE)
    };
    ($form:ident $rows:ident $vvvv:ident [$($operand:ident $(($bank:ident))?),*] $size:ident $(($bytes:literal))?,
        $others:ident) => {
        Line {
            form: Form::$form,
            rows: Rows::$rows,
            vvvv: $vvvv,
            operands: &[$(Operand::$operand $((Bank::$bank))?),*],
            size: Size::$size $(($bytes))?,
            others: $others,
        }
    };
}

const NONE: &'static [OtherSize] = &[];

const EXTRACTED: &'static [OtherSize] = &[
    size!(1: VPEXTRB),
    size!(2: VPEXTRW),
    size!(4: VPEXTRD VEXTRACTPS),
    size!(8: VPEXTRQ),
];

const INSERTED: &'static [OtherSize] = &[
    size!(1: VPINSRB),
    size!(2: VPINSRW),
    size!(4: VPINSRD),
    size!(8: VPINSRQ),
];

const STORED: &'static [OtherSize] = &[size!(8: VMOVLPS VMOVLPD VMOVHPD VMOVHPS)];

#[rattlefmt::skip]
const LOADED: &'static [OtherSize] = &[
    size!(2: VPMOVSXBQ VPMOVZXBQ),
    size!(4: VBROADCASTSS VUCOMISS VCOMISS VPMOVSXBD VPMOVZXBD VPMOVSXWQ VPMOVZXWQ),
    size!(8: VUCOMISD VCOMISD VCVTPS2PD VMOVQ VPMOVSXBW VPMOVZXBW VPMOVSXWD VPMOVZXWD VPMOVSXDQ VPMOVZXDQ),
];

const CONVERTED: &'static [OtherSize] = &[size!(8: VCVTDQ2PD)];

const WIDENED: &'static [OtherSize] = &[
    size!(4: VBROADCASTSS VPMOVSXBQ VPMOVZXBQ),
    size!(8: VBROADCASTSD VPMOVSXBD VPMOVZXBD VPMOVSXWQ VPMOVZXWQ),
];

const MOVED: &'static [OtherSize] = &[size!(8 32: VMOVDDUP), size!(8: VMOVQ)];

const BROADCAST: &'static [OtherSize] = &[
    size!(1: VPBROADCASTB),
    size!(2: VPBROADCASTW),
    size!(4: VPBROADCASTD),
    size!(8: VPBROADCASTQ),
    size!(8 16: VCVTPH2PS),
];

#[rattlefmt::skip]
const SCALAR: &'static [OtherSize] = &[
    size!(4: VSQRTSS VADDSS VMULSS VSUBSS VMINSS VDIVSS VMAXSS VRSQRTSS VRCPSS
        VFMADD132SS VFMADD213SS VFMADD231SS VFMSUB132SS VFMSUB213SS VFMSUB231SS
        VFNMADD132SS VFNMADD213SS VFNMADD231SS VFNMSUB132SS VFNMSUB213SS VFNMSUB231SS),
    size!(8: VSQRTSD VADDSD VMULSD VSUBSD VMINSD VDIVSD VMAXSD
        VFMADD132SD VFMADD213SD VFMADD231SD VFMSUB132SD VFMSUB213SD VFMSUB231SD
        VFNMADD132SD VFNMADD213SD VFNMADD231SD VFNMSUB132SD VFNMSUB213SD VFNMSUB231SD),
];

const HALF: &'static [OtherSize] = &[size!(8: VMOVLPD VMOVHPD)];

const SCALAR_IMMEDIATE: &'static [OtherSize] = &[
    size!(4: VCMPSS VROUNDSS VINSERTPS),
    size!(8: VCMPSD VROUNDSD),
];

const GATHERED: &'static [OtherSize] = &[size!(4: VPGATHERDD VPGATHERQD VGATHERDPS VGATHERQPS)];

#[rattlefmt::skip]
static LINES: [Line; 73] = [
    of_form!(Nothing Alone Zero [] Nothing),
    of_form!(VPS_71 Register Named [V(ByL), E(ByL), I8] Nothing),
    of_form!(VPS_72 Register Named [V(ByL), E(ByL), I8] Nothing),
    of_form!(VPS_73 Register Named [V(ByL), E(ByL), I8] Nothing),
    of_form!(VMOVSS_10 Register Named [G(X), V(X), E(X)] Nothing),
    of_form!(VMOVSS_10 Memory Zero [G(X), E(X)] Is(4)),
    of_form!(VMOVSD_10 Register Named [G(X), V(X), E(X)] Nothing),
    of_form!(VMOVSD_10 Memory Zero [G(X), E(X)] Is(8)),
    of_form!(VMOVSS_11 Register Named [E(X), V(X), G(X)] Nothing),
    of_form!(VMOVSS_11 Memory Zero [E(X), G(X)] Is(4)),
    of_form!(VMOVSD_11 Register Named [E(X), V(X), G(X)] Nothing),
    of_form!(VMOVSD_11 Memory Zero [E(X), G(X)] Is(8)),
    of_form!(VMOVLPS_12 Both Named [G(X), V(X), E(X)] Is(8)),
    of_form!(VMOVHPS_16 Both Named [G(X), V(X), E(X)] Is(8)),
    of_form!(Ev_G_xmm_imm8 Both Zero [E(OfElement), G(X), U8] Is(4), EXTRACTED),
    of_form!(G_xmm_Ed Both Zero [G(X), E(D)] Is(4)),
    of_form!(G_xmm_Eq Both Zero [G(X), E(Q)] Is(8)),
    of_form!(Ed_G_xmm Both Zero [E(D), G(X)] Is(4)),
    of_form!(Eq_G_xmm Both Zero [E(Q), G(X)] Is(8)),
    of_form!(VCVT_Gd_Ed_xmm Both Zero [G(D), E(X)] Is(4)),
    of_form!(VCVT_Gd_Eq_xmm Both Zero [G(D), E(X)] Is(8)),
    of_form!(VCVT_Gq_Ed_xmm Both Zero [G(Q), E(X)] Is(4)),
    of_form!(VCVT_Gq_Eq_xmm Both Zero [G(Q), E(X)] Is(8)),
    of_form!(M_G_xmm Memory Zero [E(X), G(X)] Is(16), STORED),
    of_form!(M_G_xyLmm Memory Zero [E(ByL), G(ByL)] ByL),
    of_form!(M_G_ymm Memory Zero [E(Y), G(Y)] Is(32)),
    of_form!(Ud_G_xyLmm Register Zero [G(D), E(ByL)] Nothing),
    of_form!(Gd_U_xmm Register Zero [G(D), E(X)] Nothing),
    of_form!(Gd_U_ymm Register Zero [G(D), E(Y)] Nothing),
    of_form!(Ud_G_xmm_imm8 Register Zero [G(D), E(X), U8] Nothing),
    of_form!(E_G_xmm_imm8 Both Zero [E(X), G(X), U8] Is(8)),
    of_form!(E_xmm_G_ymm_imm8 Both Zero [E(X), G(Y), U8] Is(16)),
    of_form!(G_M_xmm Memory Zero [G(X), E(X)] Is(16)),
    of_form!(G_M_ymm Memory Zero [G(Y), E(Y)] Is(32)),
    of_form!(G_ymm_M_xmm Memory Zero [G(Y), E(X)] Is(16)),
    of_form!(G_E_xmm Both Zero [G(X), E(X)] Is(16), LOADED),
    of_form!(G_U_xmm_vmaskmovdqu Register Zero [G(X), E(X)] Is(16)),
    of_form!(G_xmm_E_xmm Both Zero [G(X), E(X)] Is(16), CONVERTED),
    of_form!(G_xmm_E_ymm Both Zero [G(X), E(Y)] Is(32)),
    of_form!(G_E_ymm Both Zero [G(Y), E(Y)] Is(32)),
    of_form!(G_ymm_E_ymm Both Zero [G(Y), E(Y)] Is(32)),
    of_form!(G_ymm_E_xmm Both Zero [G(Y), E(X)] Is(16), WIDENED),
    of_form!(G_E_xyLmm Both Zero [G(ByL), E(ByL)] ByL, MOVED),
    of_form!(E_G_xyLmm Both Zero [E(ByL), G(ByL)] ByL, MOVED),
    of_form!(G_Lmm_E_xmm Both Zero [G(ByL), E(X)] Is(8), BROADCAST),
    of_form!(G_E_xyLmm_imm8 Both Zero [G(ByL), E(ByL), U8] ByL),
    of_form!(G_E_xmm_imm8 BothNarrow Zero [G(X), E(X), U8] Is(16)),
    of_form!(G_E_ymm_imm8 Both Zero [G(Y), E(Y), U8] Is(32)),
    of_form!(G_V_E_xyLmm Both Named [G(ByL), V(ByL), E(ByL)] ByL),
    of_form!(G_V_E_ymm Both Named [G(Y), V(Y), E(Y)] Is(32)),
    of_form!(G_V_ymm_E_xmm Both Named [G(Y), V(Y), E(X)] Is(16)),
    of_form!(G_V_E_xmm Both Named [G(X), V(X), E(X)] Is(16), SCALAR),
    of_form!(G_V_Ed_xmm Both Named [G(X), V(X), E(X)] Is(4)),
    of_form!(G_V_Eq_xmm Both Named [G(X), V(X), E(X)] Is(8)),
    of_form!(G_V_xmm_Ed Both Named [G(X), V(X), E(D)] Is(4)),
    of_form!(G_V_xmm_Eq Both Named [G(X), V(X), E(Q)] Is(8)),
    of_form!(G_V_M_xmm Memory Named [G(X), V(X), E(X)] Is(16), HALF),
    of_form!(G_V_M_ymm Memory Named [G(Y), V(Y), E(Y)] Is(32)),
    of_form!(M_V_G_xmm Memory Named [E(X), V(X), G(X)] Is(16)),
    of_form!(M_V_G_ymm Memory Named [E(Y), V(Y), G(Y)] Is(32)),
    of_form!(G_V_E_xyLmm_imm8 Both Named [G(ByL), V(ByL), E(ByL), U8] ByL),
    of_form!(G_V_E_xmm_imm8 Both Named [G(X), V(X), E(X), U8] Is(16), SCALAR_IMMEDIATE),
    of_form!(G_V_E_ymm_imm8 Both Named [G(Y), V(Y), E(Y), U8] Is(32)),
    of_form!(G_ymm_V_ymm_E_xmm_imm8 Both Named [G(Y), V(Y), E(X), U8] Is(16)),
    of_form!(G_V_E_xmm_xmm4 Both Named [G(X), V(X), E(X), R4(X)] Is(16)),
    of_form!(G_V_E_ymm_ymm4 Both Named [G(Y), V(Y), E(Y), R4(Y)] Is(32)),
    of_form!(G_V_xmm_Ev_imm8 Both Named [G(X), V(X), E(OfElement), I8] Is(4), INSERTED),
    of_form!(G_V_E Both Named [G(ByW), V(ByW), E(ByW)] ByW),
    of_form!(G_E_V Both Named [G(ByW), E(ByW), V(ByW)] ByW),
    of_form!(G_E_Ib Both Free [G(ByW), E(ByW), I8] ByW),
    of_form!(BMI1_F3 Both Named [V(ByW), E(ByW)] ByW),
    of_form!(MXCSR Memory Free [E(D)] Is(4)),
    of_form!(G_ExyL_V_xyLmm Memory Named [G(OfGather), E(OfGather), V(OfGather)] Is(8), GATHERED),
];

static GROUPS: [Groups; 5] = [
    Groups {
        form: Form::VPS_71,
        opcodes: &[
            (2, Opcode::VPSRLW),
            (4, Opcode::VPSRAW),
            (6, Opcode::VPSLLW),
        ],
    },
    Groups {
        form: Form::VPS_72,
        opcodes: &[
            (2, Opcode::VPSRLD),
            (4, Opcode::VPSRAD),
            (6, Opcode::VPSLLD),
        ],
    },
    Groups {
        form: Form::VPS_73,
        opcodes: &[
            (2, Opcode::VPSRLQ),
            (3, Opcode::VPSRLDQ),
            (6, Opcode::VPSLLQ),
            (7, Opcode::VPSLLDQ),
        ],
    },
    Groups {
        form: Form::BMI1_F3,
        opcodes: &[(1, Opcode::BLSR), (2, Opcode::BLSMSK), (3, Opcode::BLSI)],
    },
    Groups {
        form: Form::MXCSR,
        opcodes: &[(2, Opcode::VLDMXCSR), (3, Opcode::VSTMXCSR)],
    },
];

/// All lines. Four forms have two.
pub fn lines() -> &'static [Line] {
    &LINES
}

fn all_groups() -> &'static [Groups] {
    &GROUPS
}

/// Whether a line stands for the row that is asked for.
fn stands(rows: Rows, asked: &Asked) -> bool {
    match rows {
        Rows::Alone | Rows::Register => !asked.memory,
        Rows::Memory => asked.memory,
        Rows::Both => true,
        Rows::BothNarrow => !asked.l,
    }
}

/// The line of the row that is asked for.
fn line_of(asked: &Asked) -> Option<&'static Line> {
    for line in lines() {
        if line.form == asked.form && stands(line.rows, asked) {
            return Some(line);
        }
    }
    None
}

/// The vector bank of an L.
fn by_l(l: bool) -> RegisterBank {
    if l { RegisterBank::Y } else { RegisterBank::X }
}

fn bank_of(bank: Bank, asked: &Asked) -> RegisterBank {
    match bank {
        Bank::X => RegisterBank::X,
        Bank::Y => RegisterBank::Y,
        Bank::D => RegisterBank::D,
        Bank::Q => RegisterBank::Q,
        Bank::ByL => by_l(asked.l),
        Bank::ByW if asked.w => RegisterBank::Q,
        Bank::ByW => RegisterBank::D,
        Bank::OfElement => match asked.opcode {
            Opcode::VPEXTRQ | Opcode::VPINSRQ => RegisterBank::Q,
            _ => RegisterBank::D,
        },
        Bank::OfGather => match asked.opcode {
            Opcode::VPGATHERQD | Opcode::VGATHERQPS => RegisterBank::X,
            _ => by_l(asked.l),
        },
    }
}

fn slot_of(operand: Operand, asked: &Asked) -> Slot {
    match operand {
        Operand::G(bank) => Slot::G(bank_of(bank, asked)),
        Operand::V(bank) => Slot::V(bank_of(bank, asked)),
        Operand::E(bank) => Slot::E(bank_of(bank, asked)),
        Operand::U8 => Slot::U8,
        Operand::I8 => Slot::I8,
        Operand::R4(bank) => Slot::R4(bank_of(bank, asked)),
    }
}

/// The slots of a line, the first four.
fn slots_of(line: &Line, asked: &Asked) -> ArrayVec<Slot, 4> {
    let mut slots = ArrayVec::new();
    for operand in line.operands {
        if slots.try_push(slot_of(*operand, asked)).is_err() {
            break;
        }
    }
    slots
}

/// Whether one of the operands is made from the immediate byte.
fn has_imm(operands: &[Operand]) -> bool {
    for operand in operands {
        if matches!(operand, Operand::U8 | Operand::I8 | Operand::R4(_)) {
            return true;
        }
    }
    false
}

fn is_among(opcode: Opcode, opcodes: &[Opcode]) -> bool {
    for other in opcodes {
        if *other == opcode {
            return true;
        }
    }
    false
}

/// How many bytes the memory operand has by a line.
fn bytes_of(line: &Line, asked: &Asked) -> u8 {
    for other in line.others {
        if is_among(asked.opcode, other.opcodes) {
            return if asked.l { other.wide } else { other.narrow };
        }
    }
    match line.size {
        Size::Nothing => 0,
        Size::Is(bytes) => bytes,
        Size::ByL if asked.l => 32,
        Size::ByL => 16,
        Size::ByW if asked.w => 8,
        Size::ByW => 4,
    }
}

/// The size of the memory operand of a row of a line.
fn size_of(line: &Line, asked: &Asked) -> Option<MemoryAccessSize> {
    match line.rows {
        Rows::Both | Rows::BothNarrow if !asked.memory => None,
        _ => MemoryAccessSize::of(bytes_of(line, asked)),
    }
}

/// The bank of the index of an address.
fn index_bank_of(asked: &Asked) -> RegisterBank {
    match (asked.form, asked.opcode) {
        (Form::G_ExyL_V_xyLmm, Opcode::VPGATHERDQ | Opcode::VGATHERDPD) => RegisterBank::X,
        (Form::G_ExyL_V_xyLmm, _) => by_l(asked.l),
        _ => RegisterBank::Q,
    }
}

/// The groups of a form that has them.
fn groups_of(form: Form) -> Option<&'static Groups> {
    for groups in all_groups() {
        if groups.form == form {
            return Some(groups);
        }
    }
    None
}

/// The opcode of a reg field.
fn opcode_of(groups: &Groups, reg: u8) -> Option<Opcode> {
    for (of_reg, opcode) in groups.opcodes {
        if *of_reg == reg {
            return Some(*opcode);
        }
    }
    None
}

/// The opcode of a row without groups. Two forms go by the kind of the operand E.
fn opcode_by_kind(asked: &Asked) -> Opcode {
    match asked.form {
        Form::VMOVLPS_12 if asked.memory => Opcode::VMOVLPS,
        Form::VMOVLPS_12 => Opcode::VMOVHLPS,
        Form::VMOVHPS_16 if asked.memory => Opcode::VMOVHPS,
        Form::VMOVHPS_16 => Opcode::VMOVLHPS,
        _ => asked.opcode,
    }
}

/// The opcode of a row and its reg field where it has groups, and `None` where no group has that reg field.
fn opcode_and_group(asked: &Asked) -> Option<(Opcode, Option<u8>)> {
    match groups_of(asked.form) {
        Some(groups) => Some((opcode_of(groups, asked.group)?, Some(asked.group))),
        None => Some((opcode_by_kind(asked), None)),
    }
}

/// The layout of the row that is asked for, and `None` where there is none.
pub fn wanted(asked: &Asked) -> Option<RowLayout> {
    let line = line_of(asked)?;
    let (opcode, group) = opcode_and_group(asked)?;
    Some(RowLayout {
        opcode,
        slots: slots_of(line, asked),
        vvvv: line.vvvv,
        mem_size: size_of(line, asked),
        vector: line.form == Form::G_ExyL_V_xyLmm,
        index_bank: index_bank_of(asked),
        has_modrm: line.rows != Rows::Alone,
        group,
        has_imm: has_imm(line.operands),
    })
}
