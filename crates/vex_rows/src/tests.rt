//! What no clause says: chosen keys, steps and groups, as the manual has them but for what docs/DIFFERENCES.md names.

ghost use Rattle.std.specs.Prelude.{◌≡◌, ◌<◌, length};
ghost use Rattle.vex_rows.specs.Table.{table};

use crate::Check::{Group, L0, Mem, Reg, V0, VifMem};
use crate::wanted::wanted;
use crate::{
    Check, Entry, Form, Key, Map, Pp, entries_of, entry_at, entry_count, lookup, row_of_form,
};
use arrayvec::ArrayVec;
use std::marker::Brand;
use std::sync::ledger::{Blank, Ledger};
use std::test::Fail;
use step_counter::Steps;
use x86_operand::Opcode;

/// `lookup` with a counter of its own.
fn look_up_by<L: Ledger>(key: &Key, blank: Blank) -> Option<Entry>
    requires name { blank.name ≡ L.name }
    requires parts { blank.parts ≡ L.parts }
    requires some { 0 < blank.parts }
{
    lookup(key, &mut Steps::<L>::new(blank))
}

fn look_up(key: &Key) -> Option<Entry> {
    look_up_by::<Brand>(key, Blank::new(1))
}

/// `entry_at` with a counter of its own.
fn entry_by<L: Ledger>(i: usize, blank: Blank) -> Entry
    requires name { blank.name ≡ L.name }
    requires parts { blank.parts ≡ L.parts }
    requires some { 0 < blank.parts }
    requires place { i < length table }
{
    entry_at(i, &mut Steps::<L>::new(blank))
}

fn entry(i: usize) -> Entry
    requires { i < length table }
{
    entry_by::<Brand>(i, Blank::new(1))
}

/// `entries_of` with a counter of its own.
fn entries_by<L: Ledger>(opcode: Opcode, blank: Blank) -> ArrayVec<Entry, 4>
    requires name { blank.name ≡ L.name }
    requires parts { blank.parts ≡ L.parts }
    requires some { 0 < blank.parts }
{
    entries_of(opcode, &mut Steps::<L>::new(blank))
}

fn entries(opcode: Opcode) -> ArrayVec<Entry, 4> {
    entries_by::<Brand>(opcode, Blank::new(1))
}

#[test]
fn keys_have_their_entries(rt: HostRuntime) -> Result<(), Fail> {
    let moves = Some((Form::G_E_xyLmm, Opcode::VMOVAPS));
    let stores = Some((Form::E_G_xyLmm, Opcode::VMOVAPS));
    let adds = Some((Form::G_V_E_xyLmm, Opcode::VADDPS));
    let multiplies = Some((Form::G_V_E_xyLmm, Opcode::VMULPS));
    let zeroes_upper = Some((Form::Nothing, Opcode::VZEROUPPER));
    let zeroes_all = Some((Form::Nothing, Opcode::VZEROALL));
    // The entry with L 0, and that with L 1.
    for (map, pp, byte, with_l0, with_l1) in [
        (Map::Map0F, Pp::Plain, 0x28, moves, moves),
        (Map::Map0F, Pp::Plain, 0x29, stores, stores),
        (Map::Map0F, Pp::Plain, 0x58, adds, adds),
        (Map::Map0F, Pp::Plain, 0x59, multiplies, multiplies),
        (Map::Map0F, Pp::Plain, 0x77, zeroes_upper, zeroes_all),
        (Map::Map0F, Pp::Plain, 0x27, None, None),
        (Map::Map0F, Pp::PrefixF3, 0x28, None, None),
        (Map::Map0F38, Pp::Plain, 0x29, None, None),
    ] {
        for (w, l, wanted) in [
            (false, false, with_l0),
            (false, true, with_l1),
            (true, false, with_l0),
            (true, true, with_l1),
        ] {
            let key = Key {
                map,
                pp,
                byte,
                w,
                l,
            };
            let found = look_up(&key).map(|entry| (entry.form, entry.opcode));
            assert_eq!(rt; found, wanted, "{key:?}");
        }
    }
    assert_eq!(rt; entry_count(), 434);
    Ok(())
}

/// Every key of every opcode map and implied prefix, by byte, W and L, against the second copy.
#[test]
fn every_key_has_the_entry_of_the_manual(rt: HostRuntime) -> Result<(), Fail> {
    for map in [Map::Map0F, Map::Map0F38, Map::Map0F3A] {
        for pp in [Pp::Plain, Pp::Prefix66, Pp::PrefixF3, Pp::PrefixF2] {
            for byte in 0..=255 {
                for (w, l) in [(false, false), (false, true), (true, false), (true, true)] {
                    let key = Key {
                        map,
                        pp,
                        byte,
                        w,
                        l,
                    };
                    let found = look_up(&key).map(|entry| (entry.form, entry.opcode));
                    assert_eq!(rt; found, wanted(&key), "{key:?}");
                }
            }
        }
    }
    Ok(())
}

#[test]
fn each_entry_is_found_by_its_keys(rt: HostRuntime) -> Result<(), Fail> {
    assert!(rt; entry_count() > 0);
    for i in 0..entry_count() {
        let entry = entry(i);
        for (w, l) in [(false, false), (false, true), (true, false), (true, true)] {
            let key = Key {
                map: entry.map,
                pp: entry.pp,
                byte: entry.byte,
                w,
                l,
            };
            if entry.w.allows(w) && entry.l.allows(l) {
                assert!(rt; entry.has_key(&key));
                assert_eq!(rt; look_up(&key), Some(entry));
            }
        }
    }
    Ok(())
}

#[test]
fn opcodes_have_their_entries(rt: HostRuntime) -> Result<(), Fail> {
    let wanted: [(Opcode, &[u8]); 4] = [
        (Opcode::VMOVAPS, &[0x28, 0x29]),
        (Opcode::VADDPS, &[0x58]),
        (Opcode::VZEROALL, &[0x77]),
        (Opcode::BSF, &[]),
    ];
    for (opcode, bytes) in wanted {
        let found = entries(opcode);
        assert_eq!(rt; found.len(), bytes.len());
        for (entry, byte) in found.iter().zip(bytes) {
            assert_eq!(rt; entry.byte, *byte);
            assert_eq!(rt; entry.opcode, opcode);
        }
    }
    Ok(())
}

/// The steps of each form: the checks before ModRM, whether there is a ModRM byte, the checks after it, whether an
/// address is read, the checks after it, and whether there is an immediate byte.
static STEPS: [(&[Form], &[Check], bool, &[Check], bool, &[Check], bool); 17] = [
    (&[Form::Nothing], &[V0], false, &[], false, &[], false),
    (
        &[Form::VPS_71, Form::VPS_72, Form::VPS_73],
        &[],
        true,
        &[Reg, Group],
        false,
        &[],
        true,
    ),
    (
        &[
            Form::VMOVSS_10,
            Form::VMOVSD_10,
            Form::VMOVSS_11,
            Form::VMOVSD_11,
        ],
        &[],
        true,
        &[],
        true,
        &[VifMem],
        false,
    ),
    (
        &[
            Form::VMOVLPS_12,
            Form::VMOVHPS_16,
            Form::G_V_E_ymm,
            Form::G_V_ymm_E_xmm,
            Form::G_V_E_xmm,
            Form::G_V_Ed_xmm,
            Form::G_V_Eq_xmm,
            Form::G_V_xmm_Ed,
            Form::G_V_xmm_Eq,
            Form::G_V_E,
            Form::G_E_V,
        ],
        &[],
        true,
        &[],
        true,
        &[],
        false,
    ),
    (
        &[
            Form::Ev_G_xmm_imm8,
            Form::E_G_xmm_imm8,
            Form::E_xmm_G_ymm_imm8,
            Form::G_E_xyLmm_imm8,
            Form::G_E_ymm_imm8,
        ],
        &[V0],
        true,
        &[],
        true,
        &[],
        true,
    ),
    (
        &[
            Form::G_xmm_Ed,
            Form::G_xmm_Eq,
            Form::Ed_G_xmm,
            Form::Eq_G_xmm,
            Form::VCVT_Gd_Ed_xmm,
            Form::VCVT_Gd_Eq_xmm,
            Form::VCVT_Gq_Ed_xmm,
            Form::VCVT_Gq_Eq_xmm,
            Form::G_E_xmm,
            Form::G_xmm_E_xmm,
            Form::G_xmm_E_ymm,
            Form::G_E_ymm,
            Form::G_ymm_E_ymm,
            Form::G_ymm_E_xmm,
            Form::G_Lmm_E_xmm,
        ],
        &[V0],
        true,
        &[],
        true,
        &[],
        false,
    ),
    (
        &[
            Form::M_G_xmm,
            Form::M_G_xyLmm,
            Form::M_G_ymm,
            Form::G_M_xmm,
            Form::G_M_ymm,
            Form::G_ymm_M_xmm,
        ],
        &[V0],
        true,
        &[Mem],
        true,
        &[],
        false,
    ),
    (
        &[Form::Ud_G_xyLmm, Form::Gd_U_xmm, Form::Gd_U_ymm],
        &[V0],
        true,
        &[],
        true,
        &[Reg],
        false,
    ),
    (&[Form::Ud_G_xmm_imm8], &[V0], true, &[], true, &[Reg], true),
    (
        &[Form::G_U_xmm_vmaskmovdqu],
        &[V0],
        true,
        &[Reg],
        false,
        &[],
        false,
    ),
    (
        &[Form::G_E_xyLmm, Form::E_G_xyLmm],
        &[V0],
        true,
        &[],
        true,
        &[],
        false,
    ),
    (&[Form::G_V_E_xyLmm], &[], true, &[], true, &[], false),
    (&[Form::G_E_xmm_imm8], &[V0, L0], true, &[], true, &[], true),
    (
        &[
            Form::G_V_M_xmm,
            Form::G_V_M_ymm,
            Form::M_V_G_xmm,
            Form::M_V_G_ymm,
            Form::G_ExyL_V_xyLmm,
        ],
        &[],
        true,
        &[Mem],
        true,
        &[],
        false,
    ),
    (
        &[
            Form::G_V_E_xyLmm_imm8,
            Form::G_V_E_xmm_imm8,
            Form::G_V_E_ymm_imm8,
            Form::G_ymm_V_ymm_E_xmm_imm8,
            Form::G_V_E_xmm_xmm4,
            Form::G_V_E_ymm_ymm4,
            Form::G_V_xmm_Ev_imm8,
            Form::G_E_Ib,
        ],
        &[],
        true,
        &[],
        true,
        &[],
        true,
    ),
    (&[Form::BMI1_F3], &[], true, &[Group], true, &[], false),
    (&[Form::MXCSR], &[], true, &[Group, Mem], true, &[], false),
];

#[test]
fn forms_have_their_steps(rt: HostRuntime) -> Result<(), Fail> {
    let mut seen = [false; 69];
    for (of_forms, before_modrm, modrm, after_modrm, address, after_address, imm) in STEPS {
        for form in of_forms {
            let row = row_of_form(*form);
            seen[*form as usize] = true;
            assert_eq!(rt; row.form, *form);
            assert_eq!(rt;
                row.before_modrm.items().as_slice(),
                before_modrm,
                "{form:?}"
            );
            assert_eq!(rt; row.modrm, modrm, "{form:?}");
            assert_eq!(rt; row.after_modrm.items().as_slice(), after_modrm, "{form:?}");
            assert_eq!(rt; row.address, address, "{form:?}");
            assert_eq!(rt;
                row.after_address.items().as_slice(),
                after_address,
                "{form:?}"
            );
            assert_eq!(rt; row.imm, imm, "{form:?}");
            assert_eq!(rt; row.gathers, *form == Form::G_ExyL_V_xyLmm, "{form:?}");
        }
    }
    assert!(rt; seen.iter().all(|form| *form));
    Ok(())
}

/// The reg fields of each form that has groups, with their opcodes.
static GROUPS: [(Form, &[(u8, Opcode)]); 5] = [
    (
        Form::VPS_71,
        &[
            (2, Opcode::VPSRLW),
            (4, Opcode::VPSRAW),
            (6, Opcode::VPSLLW),
        ],
    ),
    (
        Form::VPS_72,
        &[
            (2, Opcode::VPSRLD),
            (4, Opcode::VPSRAD),
            (6, Opcode::VPSLLD),
        ],
    ),
    (
        Form::VPS_73,
        &[
            (2, Opcode::VPSRLQ),
            (3, Opcode::VPSRLDQ),
            (6, Opcode::VPSLLQ),
            (7, Opcode::VPSLLDQ),
        ],
    ),
    (
        Form::BMI1_F3,
        &[(1, Opcode::BLSR), (2, Opcode::BLSMSK), (3, Opcode::BLSI)],
    ),
    (Form::MXCSR, &[(2, Opcode::VLDMXCSR), (3, Opcode::VSTMXCSR)]),
];

#[test]
fn forms_have_their_groups(rt: HostRuntime) -> Result<(), Fail> {
    for (form, groups) in GROUPS {
        let row = row_of_form(form);
        assert!(rt; row.has_groups(), "{form:?}");
        for reg in 0..8 {
            let found = groups
                .iter()
                .find(|group| group.0 == reg)
                .map(|group| group.1);
            assert_eq!(rt; row.is_group(reg), found.is_some(), "{form:?} {reg}");
            assert_eq!(rt;
                row.group_opcode(reg, Opcode::BSF),
                found.unwrap_or(Opcode::BSF),
                "{form:?} {reg}"
            );
        }
    }
    assert!(rt; !row_of_form(Form::G_V_E).has_groups());
    assert!(rt; !row_of_form(Form::G_V_E).is_group(1));
    Ok(())
}
