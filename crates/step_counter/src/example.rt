//! The example at the head of the crate.

ghost use Rattle.std.specs.Prelude.{◌≡◌, ◌+◌, ◌<◌, length};

use crate::Steps;
use std::marker::Brand;
use std::sync::ledger::{Blank, Ledger};

// Takes as many steps as there are bytes, and its contract says so.
fn sum<L: Ledger>(bytes: &[u8], steps: &mut Steps<L>) -> u64
    ensures { steps.new ≡ steps.old + length bytes.now }
{
    let mut sum: u64 = 0;
    for byte in bytes {
        steps.tick();
        sum = sum.wrapping_add(u64::from(*byte));
    }
    sum
}

// What a caller does that counts nothing.
fn sum_alone<L: Ledger>(bytes: &[u8], blank: Blank) -> u64
    requires name { blank.name ≡ L.name }
    requires parts { blank.parts ≡ L.parts }
    requires some { 0 < blank.parts }
{
    sum(bytes, &mut Steps::<L>::new(blank))
}

#[test]
fn a_caller_without_a_counter_makes_one(rt: HostRuntime) {
    assert_eq!(rt; sum_alone::<Brand>(b"abc", Blank::new(1)), 294);
    // A counter takes no room.
    assert_eq!(rt; size_of::<Steps<Brand>>(), 0);
}
