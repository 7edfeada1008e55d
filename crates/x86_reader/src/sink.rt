//! Where notes on an instruction's bits go.
ghost use Rattle.std.specs.Prelude.{◌≡◌, ◌<◌, ◌≤◌, ◌↔◌, IsTrue, IsNone, List, [], ◌∷◌, ◌++◌, length, slice_get};
ghost use Rattle.std.specs.Option.{option_copied};
ghost use Rattle.x86_reader.specs.Sink.{SinkState, Triple, Records, HoldsFirst, null_state, most_kept};

use arrayvec::ArrayVec;
use std::marker::Model;

/// How many triples a `ListSink` keeps.
const MOST_KEPT: usize = 16;

/// Takes triples: the numbers of a first and a last bit, as the caller counts them, and what stands there.
///
/// A sink that tells its triples after a call told them before. One that tells and has room still
/// tells after it, and its room is one less.
pub trait DescriptionSink<D> {
    /// The sink's triples, where it tells them, and its room: how many more it is sure to keep.
    ghost state: { Self → SinkState D };

    /// Appends one triple at the end.
    fn record(&mut self, start: u32, end: u32, description: D)
        ensures { Records (state self.old) (state self.new) ((start, end, description) ∷ []) };
}

/// Drops all that it is given. It tells nothing, and has no room.
#[derive(Drop)]
pub struct NullSink;

impl<D: Drop> DescriptionSink<D> for NullSink {
    ghost state = { λ _. null_state };

    fn record(&mut self, _start: u32, _end: u32, _description: D) {}
}

/// Keeps the first 16 triples that it is given, drops the others, and says whether there were any.
///
/// It tells its triples while it has dropped none. Its room is 16 less its length.
#[derive(Drop)]
pub struct ListSink<D> {
    kept: ArrayVec<(u32, u32, D), MOST_KEPT>,
    whole: bool,
}

impl<D> Model for ListSink<D> {
    ghost use Rattle.x86_reader.specs.Sink.{TripleList};

    ghost Value = { TripleList D };

    ghost view = { λ s. record { kept = s.kept.items; whole = s.whole } };
}

impl<D: Copy + Default> ListSink<D> {
    /// An empty sink.
    pub fn new() -> ListSink<D>
        ensures kept { result.kept ≡ [] }
        ensures whole { IsTrue result.whole }
        ensures first { HoldsFirst {D = D} [] result }
    {
        ListSink {
            kept: ArrayVec::new(),
            whole: true,
        }
    }

    /// Takes all triples away, so that the sink is as a new one.
    pub fn clear(&mut self)
        ensures kept { self.new.kept ≡ [] }
        ensures whole { IsTrue self.new.whole }
        ensures first { HoldsFirst {D = D} [] self.new }
    {
        self.kept.clear();
        self.whole = true;
    }

    /// How many triples are kept, at most 16.
    pub fn len(&self) -> usize
        ensures { result ≡ length self.now.kept }
    {
        self.kept.len()
    }

    /// The triple at place `i`, counted from 0, and None exactly where `i` is at least `len`.
    pub fn get(&self, i: usize) -> Option<&(u32, u32, D)>
        ensures found { option_copied result ≡ slice_get self.now.kept i }
        ensures none { IsNone result ↔ (length self.now.kept ≤ i) }
    {
        self.kept.get(i)
    }

    /// Whether no triple was dropped since the sink was made or cleared. Once false, it stays so whatever is recorded.
    pub fn whole(&self) -> bool
        ensures { result ≡ self.now.whole }
    {
        self.whole
    }
}

impl<D: Copy + Default> DescriptionSink<D> for ListSink<D> {
    ghost use Rattle.x86_reader.specs.Sink.{list_state};

    ghost state = { list_state };

    fn record(&mut self, start: u32, end: u32, description: D)
        ensures records { Records (list_state self.old) (list_state self.new) ((start, end, description) ∷ []) }
        ensures kept { length self.old.kept < most_kept
            → self.new.kept ≡ self.old.kept ++ (start, end, description) ∷ [] }
        ensures dropped { most_kept ≤ length self.old.kept → self.new.kept ≡ self.old.kept }
        ensures first { (given : List (Triple D)) → HoldsFirst given self.old
            → HoldsFirst (given ++ (start, end, description) ∷ []) self.new }
        ensures whole { IsTrue self.new.whole
            ↔ (IsTrue self.old.whole × (length self.old.kept < most_kept)) }
    {
        if self.kept.is_full() {
            self.whole = false;
        } else {
            self.kept.push((start, end, description));
        }
    }
}
