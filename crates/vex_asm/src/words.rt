//! The words of a line.

ghost use Rattle.std.specs.Prelude.{◌≡◌, ◌≤◌, ◌<◌, ◌∷◌, [], IfSome, length, get_or, false, ◌⊎◌};
ghost use Rattle.std.specs.Option.{MatchOption};
ghost use Rattle.vex_asm.specs.Text.{is_blank, line_parts};

/// Whether a byte is a space, a tab or a carriage return, which no word holds.
pub fn is_blank(byte: u8) -> bool
    ensures { result ≡ is_blank byte }
{
    matches!(byte, b' ' | b'\t' | b'\r')
}

/// The line from its first word on.
fn skip_blanks(bytes: &[u8]) -> &[u8]
    ensures parts { line_parts result.now ≡ line_parts bytes.now }
    ensures short { length result.now ≤ length bytes.now }
    ensures filled { result.now ≡ [] ⊎ (is_blank (get_or result.now 0 0) ≡ false) }
{
    for i in 0..bytes.len() {
        if !is_blank(bytes[i]) {
            return &bytes[i..];
        }
    }
    &bytes[bytes.len()..]
}

/// The word at the front, and what follows it.
fn first_word(bytes: &[u8]) -> (&[u8], &[u8])
    requires filled { 0 < length bytes.now }
    requires first { is_blank (get_or bytes.now 0 0) ≡ false }
    ensures parts { line_parts bytes.now ≡ result.0.now ∷ line_parts result.1.now }
    ensures short { length result.1.now < length bytes.now }
{
    for i in 1..bytes.len() {
        if is_blank(bytes[i]) {
            return (&bytes[..i], &bytes[i + 1..]);
        }
    }
    (bytes, &bytes[bytes.len()..])
}

/// The first word of a line, and what follows it, or `None` where there is no word.
pub fn next_word(bytes: &[u8]) -> Option<(&[u8], &[u8])>
    ensures parts { MatchOption result (line_parts bytes.now ≡ [])
        (λ found. line_parts bytes.now ≡ found.0.now ∷ line_parts found.1.now) }
    ensures short { IfSome result (λ found. length found.1.now < length bytes.now) }
{
    let bytes = skip_blanks(bytes);
    if bytes.is_empty() {
        return None;
    }
    Some(first_word(bytes))
}
