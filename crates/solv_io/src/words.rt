ghost use Rattle.std.specs.Prelude.{◌≡◌, ◌∷◌, [], ◌<◌, ◌≤◌, length, slice_index, not, false, IfSome, IfNone, codes, ℕ, List};
ghost use Rattle.std.specs.List.{prefix_len};
ghost use Rattle.solv_io.specs.Words.{is_blank, words_of};

/// Whether a byte is a blank: a space, a tab or a carriage return.
pub fn is_blank(byte: u8) -> bool
    ensures { result ≡ is_blank byte }
{
    byte == b' ' || byte == b'\t' || byte == b'\r'
}

/// The line without the blanks at its start.
fn skip_blanks(line: &[u8]) -> &[u8]
    ensures same { words_of result.now ≡ words_of line.now }
    ensures at_word { 0 < length result.now → is_blank (slice_index result.now 0) ≡ false }
    ensures no_longer { length result.now ≤ length line.now }
{
    for (i, byte) in line.iter().enumerate() {
        if !is_blank(*byte) {
            return &line[i..];
        }
    }
    &line[line.len()..]
}

/// How many bytes stand before the first blank.
fn word_len(line: &[u8]) -> usize
    ensures run { result ≡ prefix_len (λ byte. not (is_blank byte)) line.now }
    ensures within { result ≤ length line.now }
{
    for (i, byte) in line.iter().enumerate() {
        if is_blank(*byte) {
            return i;
        }
    }
    line.len()
}

/// The first word of a line and what comes after it, or none where the line has no word. Words stand between blanks:
/// spaces, tabs and carriage returns.
pub fn split_word(line: &[u8]) -> Option<(&[u8], &[u8])>
    ensures word { IfSome result (λ cut. words_of line.now ≡ cut.0.now ∷ words_of cut.1.now) }
    ensures shorter { IfSome result (λ cut. length cut.1.now < length line.now) }
    ensures blank { IfNone result (words_of line.now ≡ []) }
{
    let line = skip_blanks(line);
    if line.is_empty() {
        return None;
    }
    let n = word_len(line);
    Some((&line[..n], &line[n..]))
}
