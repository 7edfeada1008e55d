//! A counter of steps for contracts: it is told by clauses alone, takes no bytes, and a step runs no code.
//!
//! A function whose contract bounds its steps takes the counter last, for any ledger. A caller that counts nothing
//! makes a counter of its own.
//!
//! ```
//! use step_counter::Steps;
//! use std::marker::Brand;
//! use std::sync::ledger::{Blank, Ledger};
//!
//! // Takes as many steps as there are bytes, and its contract says so.
//! fn sum<L: Ledger>(bytes: &[u8], steps: &mut Steps<L>) -> u64
//!     ensures { steps.new ≡ steps.old + length bytes.now }
//! {
//!     let mut sum: u64 = 0;
//!     for byte in bytes {
//!         steps.tick();
//!         sum = sum.wrapping_add(u64::from(*byte));
//!     }
//!     sum
//! }
//!
//! // What a caller does that counts nothing.
//! fn sum_alone<L: Ledger>(bytes: &[u8], blank: Blank) -> u64
//!     requires name { blank.name ≡ L.name }
//!     requires parts { blank.parts ≡ L.parts }
//!     requires some { 0 < blank.parts }
//! {
//!     sum(bytes, &mut Steps::<L>::new(blank))
//! }
//!
//! assert_eq!(rt; sum_alone::<Brand>(b"abc", Blank::new(1)), 294);
//! // A counter takes no room.
//! assert_eq!(rt; size_of::<Steps<Brand>>(), 0);
//! ```
#![tactic(auto)]

ghost use Rattle.std.specs.Prelude.{◌≡◌, ℕ, ◌+◌, ◌<◌};

use std::marker::Model;
use std::sync::ledger::{Blank, Book, Ledger, Share};

#[cfg(test)]
mod example;

/// How many steps were taken. What a step is, the function says that takes the counter.
///
/// The ledger `L` only tells counters apart. A function that has no counter passes `Blank::new(1)` to one that is
/// generic in the ledger, called with `Brand` for it, and that makes its counter of the blank.
#[derive(Drop)]
pub struct Steps<L: Ledger> {
    book: Book<L>,
    share: Share<L>,
}

impl<L: Ledger> Model for Steps<L> {
    ghost Value = { ℕ };

    ghost view = { λ steps. steps.book.total };

    ghost invariant = { λ steps. 0 < steps.share.parts };
}

impl<L: Ledger> Steps<L> {
    /// A counter that stands at 0. The blank has the name and the number of parts of the ledger, and has a part.
    pub fn new(blank: Blank) -> Self
        requires name { blank.name ≡ L.name }
        requires parts { blank.parts ≡ L.parts }
        requires some { 0 < blank.parts }
        ensures { result ≡ 0 }
    {
        let (book, share) = blank.open();
        Steps { book, share }
    }

    /// Counts one step.
    pub fn tick(&mut self)
        ensures { self.new ≡ self.old + 1 }
    {
        self.book.add(&mut self.share, 1);
    }
}
