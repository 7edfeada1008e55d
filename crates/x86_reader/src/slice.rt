//! A reader of a slice.
ghost use Rattle.std.specs.Prelude.{◌≡◌, ◌↔◌, ◌+◌, min, if◌then◌else◌, [], ◌∷◌, is_ok, IsErr, IfOk, OnErr};
ghost use Rattle.x86_reader.specs.Reader.{Takes, ChangesOnlyCount, CountsRefusal, last_count};
ghost use Rattle.x86_reader.specs.SliceReader.{slice_state, RefusesAtEnd, StopsAtEnd};

use crate::{ReadError, Reader};
use std::marker::Model;

/// Reads a borrowed slice from its beginning to its end, and refuses exactly where no byte is left.
///
/// It tells the bytes left. Its count of refusals is 0 as long as there are any.
#[derive(Drop)]
pub struct U8Reader<'a> {
    bytes: &'a [u8],
    taken: usize,
    mark: usize,
    refusals: u64,
}

impl<'a> Model for U8Reader<'a> {
    ghost use Rattle.std.specs.Prelude.{◌≡◌, ◌-◌, ◌<◌, ◌≤◌, length, drop};
    ghost use Rattle.x86_reader.specs.SliceReader.{SliceReader};

    ghost Value = { SliceReader };

    ghost view = { λ r. record {
      left = drop r.taken r.bytes.now;
      total = r.taken;
      since_mark = r.taken - r.mark;
      refusals = r.refusals;
    } };

    ghost invariant = { λ r. (r.mark ≤ r.taken) × (r.taken ≤ length r.bytes.now)
        × (0 < r.refusals → r.taken ≡ length r.bytes.now) };
}

impl<'a> U8Reader<'a> {
    /// A reader of these bytes that has taken and refused none.
    pub fn new(bytes: &'a [u8]) -> U8Reader<'a>
        ensures left { result.left ≡ bytes.now }
        ensures total { result.total ≡ 0 }
        ensures since_mark { result.since_mark ≡ 0 }
        ensures refusals { result.refusals ≡ 0 }

        // Of every reader of a slice: a count of refusals that isn't 0 says that no byte is left.
        ensures refuses_at_end { RefusesAtEnd }
        ensures stops_at_end { StopsAtEnd }
    {
        U8Reader {
            bytes,
            taken: 0,
            mark: 0,
            refusals: 0,
        }
    }
}

impl Reader for U8Reader<'_> {
    ghost state = { slice_state };

    fn next(&mut self) -> Result<u8, ReadError>
        ensures refused { IsErr result ↔ (self.old.left ≡ []) }
        ensures taken { IfOk result (λ byte.
            Takes (slice_state self.old) (slice_state self.new) (byte ∷ [])) }
        ensures unchanged { OnErr result
            (ChangesOnlyCount (slice_state self.old) (slice_state self.new)) }
        ensures counted { OnErr result
            (CountsRefusal (slice_state self.old) (slice_state self.new)) }
        ensures refusals { self.new.refusals
            ≡ (if is_ok result then self.old.refusals else min (self.old.refusals + 1) last_count) }
    {
        match self.bytes.get(self.taken) {
            Some(byte) => {
                self.taken += 1;
                Ok(*byte)
            }
            None => {
                self.refusals = self.refusals.saturating_add(1);
                Err(ReadError::ExhaustedInput)
            }
        }
    }

    fn mark(&mut self)
        ensures { self.new ≡ record self.old { since_mark = 0 } }
    {
        self.mark = self.taken;
    }

    fn offset(&self) -> u64 {
        (self.taken - self.mark) as u64
    }

    fn total_offset(&self) -> u64 {
        self.taken as u64
    }
}
