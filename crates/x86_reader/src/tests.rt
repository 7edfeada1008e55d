//! What no clause shows: the calls in a row, at each type, and through the bounds.
ghost use Rattle.std.specs.Prelude.{◌≡◌, ℕ, ◌+◌, ◌<◌, ◌↔◌, List, [], ◌∷◌, length, IsErr, IfOk, OnOk, OnErr, Some, None};
ghost use Rattle.x86_reader.specs.Reader.{Takes, Stops, CountsRefusal};
ghost use Rattle.x86_reader.specs.SliceReader.{slice_state};
ghost use Rattle.x86_reader.specs.Sink.{Records};

use crate::{DescriptionSink, FailReader, ListSink, NullSink, ReadError, Reader, U8Reader};
use std::process::Abort;

/// Gives the bytes of another reader, and tells none of them.
#[derive(Drop)]
struct SilentReader<'a> {
    words: U8Reader<'a>,
}

impl Reader for SilentReader<'_> {
    ghost state = { λ r. record (slice_state r.words) { left = None } };

    fn next(&mut self) -> Result<u8, ReadError> {
        self.words.next()
    }

    fn mark(&mut self) {
        self.words.mark();
    }

    fn offset(&self) -> u64 {
        self.words.offset()
    }

    fn total_offset(&self) -> u64 {
        self.words.total_offset()
    }
}

/// Two bytes, the first of them first: what generic code over a reader can say of itself.
fn read_two<R: Reader>(words: &mut R) -> Result<(u8, u8), ReadError>
    ensures taken { IfOk result (λ pair.
        Takes (R.state words.old) (R.state words.new) (pair.0 ∷ pair.1 ∷ [])) }
    ensures stopped { OnErr result ((bytes : List ℕ)
        × Stops (R.state words.old) (R.state words.new) bytes × (length bytes < 2)) }
    ensures counted { OnErr result (CountsRefusal (R.state words.old) (R.state words.new)) }
    ensures total { OnOk result ((R.state words.new).total ≡ (R.state words.old).total + 2) }
    ensures since_mark { OnOk result
        ((R.state words.new).since_mark ≡ (R.state words.old).since_mark + 2) }
    ensures told { IfOk result (λ pair. (left : List ℕ) → (R.state words.old).left ≡ Some left
        → (rest : List ℕ) × (left ≡ pair.0 ∷ pair.1 ∷ rest)
        × ((R.state words.new).left ≡ Some rest)) }
{
    let first = words.next()?;
    let second = words.next()?;
    Ok((first, second))
}

/// The same over a slice, where a refusal means that the bytes aren't there.
fn two_of(bytes: &[u8]) -> Result<(u8, u8), ReadError>
    ensures taken { IfOk result (λ pair. (rest : List ℕ) × (bytes.now ≡ pair.0 ∷ pair.1 ∷ rest)) }
    ensures short { IsErr result ↔ (length bytes.now < 2) }
{
    read_two(&mut U8Reader::new(bytes))
}

/// Two triples, one after the other.
fn record_two<S: DescriptionSink<u8>>(sink: &mut S)
    ensures { Records (S.state sink.old) (S.state sink.new) ((0, 7, 1) ∷ (8, 15, 2) ∷ []) }
{
    sink.record(0, 7, 1);
    sink.record(8, 15, 2);
}

fn reads_seven_eight_nine<R: Reader>(rt: &impl Abort, words: &mut R) {
    assert_eq!(rt; words.next(), Ok(7));
    assert_eq!(rt; (words.offset(), words.total_offset()), (1, 1));
    words.mark();
    assert_eq!(rt; (words.offset(), words.total_offset()), (0, 1));
    assert_eq!(rt; read_two(words), Ok((8, 9)));
    assert_eq!(rt; (words.offset(), words.total_offset()), (2, 3));
    assert_eq!(rt; words.next(), Err(ReadError::ExhaustedInput));
    assert_eq!(rt; read_two(words), Err(ReadError::ExhaustedInput));
    assert_eq!(rt; (words.offset(), words.total_offset()), (2, 3));
}

#[test]
fn each_reader_gives_the_bytes_in_order(rt: HostRuntime) {
    let bytes = [7, 8, 9];
    reads_seven_eight_nine(&rt, &mut U8Reader::new(&bytes));
    reads_seven_eight_nine(&rt, &mut FailReader::new(&bytes, &[]));
    reads_seven_eight_nine(
        &rt,
        &mut SilentReader {
            words: U8Reader::new(&bytes),
        },
    );
    assert_eq!(rt; two_of(&bytes), Ok((7, 8)));
    assert_eq!(rt; two_of(&bytes[..1]), Err(ReadError::ExhaustedInput));
}

#[test]
fn a_fail_reader_refuses_at_the_calls_told_and_at_the_end(rt: HostRuntime) {
    let refused = Err(ReadError::ExhaustedInput);
    let outcomes = [
        refused,
        Ok(7),
        Ok(8),
        refused,
        refused,
        Ok(9),
        refused,
        refused,
    ];
    let mut words = FailReader::new(&[7, 8, 9], &[4, 0, 3, 0]);
    for (call, outcome) in outcomes.into_iter().enumerate() {
        assert_eq!(rt; words.next(), outcome, "at call {call}");
    }
    assert_eq!(rt; (words.offset(), words.total_offset()), (3, 3));
}

#[test]
fn a_list_sink_keeps_sixteen_triples(rt: HostRuntime) {
    let mut sink = ListSink::new();
    for i in 0..16 {
        assert_eq!(rt; sink.len(), i as usize);
        sink.record(i, i + 1, 2 * i);
    }
    assert!(rt; sink.whole());
    sink.record(16, 17, 32);
    assert_eq!(rt; (sink.len(), sink.whole()), (16, false));
    assert_eq!(rt; sink.get(0), Some(&(0, 1, 0)));
    assert_eq!(rt; sink.get(15), Some(&(15, 16, 30)));
    assert_eq!(rt; sink.get(16), None);
    sink.clear();
    assert_eq!(rt; (sink.len(), sink.whole()), (0, true));
    sink.record(3, 4, 5);
    assert_eq!(rt; (sink.len(), sink.get(0)), (1, Some(&(3, 4, 5))));
}

#[test]
fn each_sink_takes_two_triples(rt: HostRuntime) {
    let mut list = ListSink::new();
    record_two(&mut list);
    assert_eq!(rt;
        (list.get(0), list.get(1), list.get(2)),
        (Some(&(0, 7, 1)), Some(&(8, 15, 2)), None)
    );
    record_two(&mut NullSink);
}
