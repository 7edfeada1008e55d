//! The whole of a run, from the words to the status.

ghost use Rattle.std.specs.Prelude.{◌≡◌, ◌+◌, ◌<◌, ◌≤◌, ◌↔◌, ◌⊎◌, length, take, [], Some, IfSome, IsSome, IsSomeAnd};
ghost use Rattle.std.specs.Prelude.{IsNone, IsTrue, IsFalse};
ghost use Rattle.std.specs.Io.KnownBytes.{Appends};
ghost use Rattle.vex_lines.specs.Command.{command, count_made};
ghost use Rattle.vex_lines.specs.Ends.{RoseOrIsLast, RoseByMoreThan, IsQuiet, AppendsFront, WhereTaken};
ghost use Rattle.vex_lines.specs.Generator.{made};
ghost use Rattle.vex_lines.specs.Lines.{input_limit, whole};
ghost use Rattle.vex_lines.specs.Report.{output, takes_memory, LackedMemory};

use crate::command::Command;
use crate::ends::{Failed, Sink, Source};
use crate::input::answer_input;
use crate::make_line::write_made;
use crate::status::Status;
use crate::words::Words;
use std::alloc::Global;

/// Runs the command that the words ask for, over all that the source has left.
///
/// What is written for each line of the input, and by `make`, which reads none, is said at `Command` and `LineCommand`.
///
/// The status is `Usage` where the words are no command or one was refused. Else it is that of the first of these
/// events: a read failed, a write failed, there was no memory for the sweep of a line, the source gave a byte after
/// 2^26 bytes, or all is written and the input has ended.
pub fn run<S: Source, K: Sink>(alloc: Global, words: &Words, source: &mut S, sink: &mut K) -> Status
    // `Usage` comes exactly where the words are no command or one was refused, and changes nothing.
    ensures usage { (result ≡ Status.Usage) ↔ (IsNone (command words.now.0) ⊎ IsTrue words.now.1) }
    ensures untouched { result ≡ Status.Usage → (source.new ≡ source.old) × (sink.new ≡ sink.old) }

    // After `Done` the whole input is read, and its output is written.
    ensures done_read { result ≡ Status.Done → IfSome (command words.now.0) (λ c. IsNone (count_made c)
        → IfSome (S.left source.old) (λ _. S.left source.new ≡ Some [])) }
    ensures done_written { result ≡ Status.Done
        → IfSome (command words.now.0) (λ c. IfSome (S.left source.old) (λ input.
        Appends (K.text sink.old) (K.text sink.new) (output c input))) }
    ensures done_quiet { result ≡ Status.Done
        → (S.faults source.new ≡ S.faults source.old) × (K.faults sink.new ≡ K.faults sink.old) }

    // `make` reads nothing, needs no source that tells, and ends with `Done` where the sink doesn't fail.
    ensures made_untouched { IfSome (command words.now.0) (λ c. IsSome (count_made c) → source.new ≡ source.old) }
    ensures made_written { result ≡ Status.Done → IfSome (command words.now.0) (λ c. IfSome (count_made c) (λ count.
        Appends (K.text sink.old) (K.text sink.new) (made count))) }
    ensures made_completes { IsSomeAnd (command words.now.0) (λ c. IsSome (count_made c)) → IsFalse words.now.1
        → IsQuiet (K.faults sink.old) (K.faults sink.new) → result ≡ Status.Done }

    // The causes of the other statuses.
    ensures read_fault { result ≡ Status.ReadFault → RoseOrIsLast (S.faults source.old) (S.faults source.new) }
    ensures write_fault { result ≡ Status.WriteFault → RoseOrIsLast (K.faults sink.old) (K.faults sink.new) }
    ensures too_long { result ≡ Status.TooLong → RoseByMoreThan input_limit (S.given source.old) (S.given source.new) }
    ensures too_long_by_number { S.given source.old + input_limit < S.given source.new → result ≡ Status.TooLong }
    ensures too_long_exactly { WhereTaken (S.left source.old) (S.left source.new) (λ taken.
        (result ≡ Status.TooLong) ↔ (input_limit < length taken)) }
    ensures no_memory { result ≡ Status.NoMemory → IfSome (command words.now.0) (λ c. IsTrue (takes_memory c)) }

    // What is written then, of the bytes that were taken.
    ensures after_read_fault { result ≡ Status.ReadFault → IfSome (command words.now.0) (λ c.
        WhereTaken (S.left source.old) (S.left source.new) (λ taken.
        Appends (K.text sink.old) (K.text sink.new) (output c (whole taken)))) }
    ensures after_write_fault { result ≡ Status.WriteFault → IfSome (command words.now.0) (λ c.
        WhereTaken (S.left source.old) (S.left source.new) (λ taken.
        AppendsFront (K.text sink.old) (K.text sink.new) (output c taken))) }
    ensures after_too_long { result ≡ Status.TooLong → IfSome (command words.now.0) (λ c.
        WhereTaken (S.left source.old) (S.left source.new) (λ taken.
        Appends (K.text sink.old) (K.text sink.new) (output c (whole (take input_limit taken))))) }
    ensures after_no_memory { result ≡ Status.NoMemory → IfSome (command words.now.0) (λ c.
        WhereTaken (S.left source.old) (S.left source.new)
        (λ taken. LackedMemory c taken (K.text sink.old) (K.text sink.new))) }

    // A command over ends that do not fail, with at most 2^26 bytes of input, ends with `Done`, or with `NoMemory`
    // where it takes memory.
    ensures completes_or_lacks { IsSome (command words.now.0) → IsFalse words.now.1
        → IsQuiet (S.faults source.old) (S.faults source.new) → IsQuiet (K.faults sink.old) (K.faults sink.new)
        → IsSomeAnd (S.left source.old) (λ input. length input ≤ input_limit)
        → (result ≡ Status.Done) ⊎ (result ≡ Status.NoMemory) }
    ensures completes { IsSomeAnd (command words.now.0) (λ c. IsFalse (takes_memory c)) → IsFalse words.now.1
        → IsQuiet (S.faults source.old) (S.faults source.new) → IsQuiet (K.faults sink.old) (K.faults sink.new)
        → IsSomeAnd (S.left source.old) (λ input. length input ≤ input_limit) → result ≡ Status.Done }
    ensures completes_by_number { IsSomeAnd (command words.now.0) (λ c. IsFalse (takes_memory c)) → IsFalse words.now.1
        → IsQuiet (S.faults source.old) (S.faults source.new) → IsQuiet (K.faults sink.old) (K.faults sink.new)
        → (RoseByMoreThan input_limit (S.given source.old) (S.given source.new) → ⊥) → result ≡ Status.Done }
    ensures completes_or_lacks_by_number { IsSome (command words.now.0) → IsFalse words.now.1
        → IsQuiet (S.faults source.old) (S.faults source.new) → IsQuiet (K.faults sink.old) (K.faults sink.new)
        → (RoseByMoreThan input_limit (S.given source.old) (S.given source.new) → ⊥)
        → (result ≡ Status.Done) ⊎ (result ≡ Status.NoMemory) }
{
    if words.over() {
        return Status::Usage;
    }
    let Some(command) = Command::of(words) else {
        return Status::Usage;
    };
    match command.count_made() {
        Some(count) => match write_made(count, sink) {
            Ok(()) => Status::Done,
            Err(Failed) => Status::WriteFault,
        },
        None => answer_input(alloc, &command, source, sink),
    }
}
