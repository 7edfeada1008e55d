//! What a reader of bytes is.
ghost use Rattle.std.specs.Prelude.{◌≡◌, [], ◌∷◌, IfOk, OnErr};
ghost use Rattle.x86_reader.specs.Reader.{ReaderState, Takes, ChangesOnlyCount, CountsRefusal, marked};

/// Why a reader gave no byte.
#[derive(Clone, Copy, PartialEq, Eq, Debug)]
pub enum ReadError {
    /// No byte is left, or the reader can't give it.
    ExhaustedInput,
}

/// Gives bytes one by one, and counts them.
///
/// Both numbers of bytes are exact over every reader: one that has taken as many as a `u64` can count
/// refuses the next. The count of refusals never falls, and stands still at the greatest `u64`.
/// A reader that tells its bytes always does.
pub trait Reader {
    /// The bytes left, where the reader tells them; how many it has taken since it was made, and since
    /// its last mark; its count of refusals.
    ghost state: { Self → ReaderState };

    /// Takes the first byte left, and answers it.
    ///
    /// `ExhaustedInput` comes only where the count of refusals rises in this call, or stands at the
    /// greatest `u64`. Nothing else has changed then.
    fn next(&mut self) -> Result<u8, ReadError>
        ensures taken { IfOk result (λ byte. Takes (state self.old) (state self.new) (byte ∷ [])) }
        ensures unchanged { OnErr result (ChangesOnlyCount (state self.old) (state self.new)) }
        ensures counted { OnErr result (CountsRefusal (state self.old) (state self.new)) };

    /// Sets the number of bytes taken since the mark to 0.
    fn mark(&mut self)
        ensures { state self.new ≡ marked (state self.old) };

    /// How many bytes were taken since the last mark, or since the reader was made.
    fn offset(&self) -> u64
        ensures { result ≡ (state self.now).since_mark };

    /// How many bytes were taken since the reader was made.
    fn total_offset(&self) -> u64
        ensures { result ≡ (state self.now).total };
}
