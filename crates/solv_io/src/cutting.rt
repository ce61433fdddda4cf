//! Texts cut at a separator byte.
ghost use Rattle.std.specs.Prelude.{◌≡◌, ◌==◌, ◌∷◌, [], ◌≤◌, ◌<◌, length, not, IfSome, IfNone, ℕ};
ghost use Rattle.std.specs.List.{prefix_len};
ghost use Rattle.solv_io.specs.Words.{between};

/// How many bytes stand before the first separator.
fn place_of(separator: u8, text: &[u8]) -> usize
    ensures run { result ≡ prefix_len (λ byte. not (byte == separator)) text.now }
    ensures within { result ≤ length text.now }
{
    for (i, byte) in text.iter().enumerate() {
        if *byte == separator {
            return i;
        }
    }
    text.len()
}

/// What stands before the first separator, and what comes after it, if there is one. Either may be empty.
pub fn cut_at(separator: u8, text: &[u8]) -> (&[u8], Option<&[u8]>)
    ensures last { IfNone result.1 (between separator text.now ≡ result.0.now ∷ []) }
    ensures more { IfSome result.1 (λ behind. between separator text.now ≡ result.0.now ∷ between separator behind.now) }
    ensures shorter { IfSome result.1 (λ behind. length behind.now < length text.now) }
{
    let n = place_of(separator, text);
    if n < text.len() {
        (&text[..n], Some(&text[n + 1..]))
    } else {
        (text, None)
    }
}
