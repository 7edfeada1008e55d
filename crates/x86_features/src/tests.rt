use crate::wanted::{HEADINGS, HOLDERS, Heading};
use crate::{Feature, FeatureSet, Processor, features_of};
use std::process::Abort;
use std::test::Fail;
use x86_operand::{Instruction, Opcode, Operand, RegSpec, RegisterBank};

/// The set has these features and no other.
fn check_set(rt: &impl Abort, what: &str, set: &FeatureSet, wanted: &[Feature]) {
    for feature in Feature::all() {
        assert_eq!(rt;
            set.has(*feature),
            wanted.contains(feature),
            "{what} {feature}"
        );
    }
}

/// An instruction with a register of that bank, and another of it or an address beside.
fn with_operands(opcode: Opcode, evex: bool, bank: RegisterBank, memory: bool) -> Instruction {
    let reg = RegSpec::of(bank, 1).unwrap_or(RegSpec::rax());
    let last = if memory {
        Operand::MemDeref {
            base: RegSpec::rcx(),
        }
    } else {
        Operand::Register { reg }
    };
    let mut inst = Instruction::of(opcode, evex);
    inst.push(Operand::Register { reg });
    inst.push(last);
    inst
}

/// The instruction needs these features and no other.
fn check_needs(rt: &impl Abort, inst: &Instruction, wanted: &[Feature]) {
    check_set(rt, inst.opcode().name(), &features_of(inst), wanted);
}

/// The opcode of a name, which was in no heading before.
fn listed(rt: &impl Abort, name: &str, seen: &mut [bool]) -> Opcode {
    let found = Opcode::named(name);
    assert!(rt; found.is_some(), "{name}");
    let opcode = found.unwrap_or_default();
    match seen.get_mut(usize::from(opcode.number())) {
        Some(place) => {
            assert!(rt; !*place, "{name} twice");
            *place = true;
        }
        None => assert!(rt; false, "{name} has no place"),
    }
    opcode
}

/// An instruction of the opcode needs what its heading says, at both lengths and with and without an address.
fn check_heading(rt: &impl Abort, opcode: Opcode, heading: &Heading) {
    for (memory, place) in [(false, 0), (true, 1)] {
        let short = with_operands(opcode, false, RegisterBank::X, memory);
        check_needs(rt, &short, heading.short[place]);
        let long = with_operands(opcode, false, RegisterBank::Y, memory);
        check_needs(rt, &long, heading.long[place]);
    }
}

#[test]
fn opcodes_need_what_their_headings_say(rt: HostRuntime) {
    let mut seen = [false; 551];
    let seen = &mut seen[..];
    for heading in &HEADINGS {
        for name in heading.names {
            check_heading(&rt, listed(&rt, name, seen), heading);
        }
    }
    for opcode in Opcode::all() {
        let was_seen = seen.get(usize::from(opcode.number())) == Some(&true);
        assert_eq!(rt; was_seen, opcode.is_vex(), "{opcode}");
        if !was_seen {
            check_needs(&rt, &Instruction::of(*opcode, false), &[]);
        }
    }
}

#[test]
fn the_mark_needs_avx512(rt: HostRuntime) {
    for (bank, wanted) in [
        (RegisterBank::X, &[Feature::Avx512F, Feature::Avx512Vl][..]),
        (RegisterBank::Y, &[Feature::Avx512F, Feature::Avx512Vl]),
        (RegisterBank::Z, &[Feature::Avx512F]),
    ] {
        for memory in [false, true] {
            check_needs(
                &rt,
                &with_operands(Opcode::VADDPS, true, bank, memory),
                wanted,
            );
        }
    }
}

#[test]
fn processors_have_what_the_manuals_say(rt: HostRuntime) {
    for (feature, holders) in &HOLDERS {
        for name in *holders {
            assert!(rt; Processor::named(name).is_some(), "{name}");
        }
        for processor in Processor::all() {
            let has = processor.features().has(*feature);
            assert_eq!(rt;
                has,
                holders.contains(&processor.name()),
                "{processor} {feature}"
            );
        }
    }
    assert!(rt; Processor::named("zen4") == Some(Processor::Zen4));
    for other in ["", "Haswell", "default", "haswell-ex", "zen1"] {
        assert!(rt; Processor::named(other).is_none(), "{other}");
    }
}
