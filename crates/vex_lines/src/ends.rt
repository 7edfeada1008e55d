//! The ends of a run: what its input comes from, and what its output goes to.

ghost use Rattle.std.specs.Prelude.{◌≡◌, ℕ, ◌<◌, ◌≤◌, List, length, take, drop, Option, Ok, IfOk, OnOk, OnErr};
ghost use Rattle.std.specs.Io.KnownBytes.{Appends, Consumes, Keeps, IsAtEnd};
ghost use Rattle.vex_lines.specs.Ends.{RoseOrIsLast, AppendsFront, counted};

/// How many bytes a read asks for, at most.
pub const PIECE: usize = 4096;

/// A read or a write failed.
#[derive(Clone, Copy, PartialEq, Eq, Debug)]
pub struct Failed;

/// What the input comes from.
pub trait Source {
    // The bytes that are left, where the source tells them.
    ghost left: { Self → Option (List ℕ) };

    // The number of bytes that were given since the source was made: a `u64`.
    ghost given: { Self → ℕ };

    // How many reads failed: a `u64`.
    ghost faults: { Self → ℕ };

    /// Puts the next bytes into the first places of `into`, and answers how many: `Ok(0)` where
    /// nothing is left. A failed read has taken nothing, and may be tried again. `Failed` comes only
    /// where the count of faults rises in this call or stands at the greatest `u64`.
    fn read(&mut self, into: &mut [u8]) -> Result<usize, Failed>
        requires { 0 < length into.old }

        // The first bytes left are taken, and the other places stay as they were.
        ensures fits { IfOk result (λ n. n ≤ length into.old) }
        ensures takes { IfOk result (λ n. Consumes (left self.old) (left self.new) (take n into.new)) }
        ensures others { IfOk result (λ n. drop n into.new ≡ drop n into.old) }
        ensures end { result ≡ Ok 0 → IsAtEnd (left self.new) }
        ensures counts { IfOk result (λ n. given self.new ≡ counted (given self.old) n) }
        ensures quiet { OnOk result (faults self.new ≡ faults self.old) }

        // A failed read is seen in the count of faults, and in nothing else.
        ensures cause { OnErr result (RoseOrIsLast (faults self.old) (faults self.new)) }
        ensures keeps { OnErr result (Keeps (left self.old) (left self.new)) }
        ensures keeps_places { OnErr result (into.new ≡ into.old) }
        ensures keeps_number { OnErr result (given self.new ≡ given self.old) }
        ensures never_falls { faults self.old ≤ faults self.new };
}

/// What the output goes to.
pub trait Sink {
    // The bytes that were written, where the sink tells them. Those that it holds back are among them.
    ghost text: { Self → Option (List ℕ) };

    // How many calls failed: a `u64`.
    ghost faults: { Self → ℕ };

    /// Writes the whole piece. A failed write has written a front of it, which may be empty. `Failed`
    /// comes only where the count of faults rises in this call or stands at the greatest `u64`.
    fn write_all(&mut self, piece: &[u8]) -> Result<(), Failed>
        ensures appends { OnOk result (Appends (text self.old) (text self.new) piece.now) }
        ensures quiet { OnOk result (faults self.new ≡ faults self.old) }
        ensures front { OnErr result (AppendsFront (text self.old) (text self.new) piece.now) }
        ensures cause { OnErr result (RoseOrIsLast (faults self.old) (faults self.new)) }
        ensures never_falls { faults self.old ≤ faults self.new };

    /// Hands on what the sink holds back of the pieces that it took. What it tells stays, also where this fails.
    /// `Failed` comes only where the count of faults rises in this call or stands at the greatest `u64`.
    fn flush(&mut self) -> Result<(), Failed>
        ensures keeps { Keeps (text self.old) (text self.new) }
        ensures quiet { OnOk result (faults self.new ≡ faults self.old) }
        ensures cause { OnErr result (RoseOrIsLast (faults self.old) (faults self.new)) }
        ensures never_falls { faults self.old ≤ faults self.new };
}
