//! A reader of a slice that also refuses where it is told to.
ghost use Rattle.std.specs.Prelude.{◌≡◌, ◌↔◌, ◌+◌, min, if◌then◌else◌, [], ◌∷◌, is_ok, IsErr, IfOk, OnErr};
ghost use Rattle.x86_reader.specs.Reader.{Takes, ChangesOnlyCount, CountsRefusal, last_count};
ghost use Rattle.x86_reader.specs.SliceReader.{failing_state, RefusesNext};

use crate::{ReadError, Reader, U8Reader};
use std::marker::Model;

/// Reads a borrowed slice, and refuses exactly at the calls of `next` that it was told and where no
/// byte is left.
///
/// It tells the bytes left. Calls are counted from 0, refused ones too; the number of a call stands
/// still at the greatest `u64`, and so does the count of refusals.
#[derive(Drop)]
pub struct FailReader<'a> {
    words: U8Reader<'a>,
    failing: &'a [u64],
    calls: u64,
    refusals: u64,
}

impl<'a> Model for FailReader<'a> {
    ghost use Rattle.x86_reader.specs.SliceReader.{FailingReader};

    ghost Value = { FailingReader };

    ghost view = { λ r. record {
      left = r.words.left;
      total = r.words.total;
      since_mark = r.words.since_mark;
      refusals = r.refusals;
      calls = r.calls;
      failing = r.failing.now;
    } };
}

impl<'a> FailReader<'a> {
    /// A reader of `bytes` that is to refuse the calls whose numbers are in `failing`.
    pub fn new(bytes: &'a [u8], failing: &'a [u64]) -> FailReader<'a>
        ensures left { result.left ≡ bytes.now }
        ensures total { result.total ≡ 0 }
        ensures since_mark { result.since_mark ≡ 0 }
        ensures refusals { result.refusals ≡ 0 }
        ensures calls { result.calls ≡ 0 }
        ensures failing { result.failing ≡ failing.now }
    {
        FailReader {
            words: U8Reader::new(bytes),
            failing,
            calls: 0,
            refusals: 0,
        }
    }
}

impl Reader for FailReader<'_> {
    ghost state = { failing_state };

    fn next(&mut self) -> Result<u8, ReadError>
        ensures refused { IsErr result ↔ RefusesNext self.old }
        ensures taken { IfOk result (λ byte.
            Takes (failing_state self.old) (failing_state self.new) (byte ∷ [])) }
        ensures unchanged { OnErr result
            (ChangesOnlyCount (failing_state self.old) (failing_state self.new)) }
        ensures counted { OnErr result
            (CountsRefusal (failing_state self.old) (failing_state self.new)) }
        ensures refusals { self.new.refusals
            ≡ (if is_ok result then self.old.refusals else min (self.old.refusals + 1) last_count) }
        ensures calls { self.new.calls ≡ min (self.old.calls + 1) last_count }
        ensures failing { self.new.failing ≡ self.old.failing }
    {
        let call = self.calls;
        self.calls = call.saturating_add(1);
        let outcome = if self.failing.contains(&call) {
            Err(ReadError::ExhaustedInput)
        } else {
            self.words.next()
        };
        if outcome.is_err() {
            self.refusals = self.refusals.saturating_add(1);
        }
        outcome
    }

    fn mark(&mut self)
        ensures { self.new ≡ record self.old { since_mark = 0 } }
    {
        self.words.mark();
    }

    fn offset(&self) -> u64 {
        self.words.offset()
    }

    fn total_offset(&self) -> u64 {
        self.words.total_offset()
    }
}
