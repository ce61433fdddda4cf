//! The words of a text, one at a time.
ghost use Rattle.std.specs.Prelude.{◌≡◌, ◌+◌, ◌<◌, ◌≤◌, ◌∷◌, [], length, drop, take, IfSome, IfNone, IsTrue, ℕ, false};
ghost use Rattle.solv_deps.specs.Words.{is_open, is_close, words, word_rest};
ghost use Rattle.solv_deps.specs.Inner.Words.{word_length, blanks};

use solv_io::is_blank;

/// How many blanks a text begins with.
fn count_blanks(text: &[u8]) -> usize
    ensures { result ≡ blanks text.now }
{
    let mut i = 0;
    while i < text.len() && is_blank(text[i]) {
        i += 1;
    }
    i
}

/// How many bytes a text begins with that are above `)` and so neither blanks nor parentheses.
fn count_plain(text: &[u8]) -> usize
    ensures rest { (unpaired : ℕ) → word_rest unpaired text.now ≡ result + word_rest unpaired (drop result text.now) }
    ensures within { result ≤ length text.now }
{
    let mut i = 0;
    while i < text.len() && text[i] > b')' {
        i += 1;
    }
    i
}

/// How many bytes a word goes on for.
fn count_rest(text: &[u8]) -> usize
    ensures rest { result ≡ word_rest 0 text.now }
    ensures within { result ≤ length text.now }
{
    let mut unpaired: usize = 0;
    let mut i = count_plain(text);
    while i < text.len() {
        let c = text[i];
        if is_blank(c) {
            break;
        }
        if c == b')' {
            if unpaired == 0 {
                break;
            }
            unpaired -= 1;
        } else if c == b'(' {
            unpaired += 1;
        }
        i += 1;
    }
    i
}

/// How long the word is that a text begins with.
fn count_word(text: &[u8]) -> usize
    requires { 0 < length text.now }
    ensures length { result ≡ word_length text.now }
    ensures within { result ≤ length text.now }
    ensures some { 0 < result }
{
    if text[0] == b'(' || text[0] == b')' {
        return 1;
    }
    count_rest(&text[1..]) + 1
}

/// The first word of a text, and what follows it.
pub(crate) fn next_word(text: &[u8]) -> Option<(&[u8], &[u8])>
    ensures found { IfSome result (λ r. words text.now ≡ r.0.now ∷ words r.1.now) }
    ensures shorter { IfSome result (λ r. length r.1.now < length text.now) }
    ensures none { IfNone result (words text.now ≡ []) }
{
    let start = count_blanks(text);
    if start >= text.len() {
        return None;
    }
    let rest = &text[start..];
    let end = count_word(rest);
    Some(rest.split_at(end))
}
