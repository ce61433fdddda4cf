ghost use Rattle.std.specs.Prelude.{◌≡◌, ◌<◌, ◌∷◌, ◌++◌, length, IfSome, IfNone};
ghost use Rattle.std.specs.Iterator.{YieldsFirstBy, item_count};
ghost use Rattle.solv_io.specs.Lines.{lines_of, numbered_lines, IsLine};

use memchr::memchr;
use std::marker::Model;

/// The lines of a text that are left, each with its number. Contracts see it as their list.
#[derive(Drop)]
pub struct Lines<'a> {
    given: u64,
    rest: &'a [u8],
}

impl<'a> Model for Lines<'a> {
    ghost use Rattle.std.specs.Prelude.{ℕ, ◌+◌, ◌<◌, ◌^◌, List, length};
    ghost use Rattle.std.specs.List.{enumerate_from};
    ghost use Rattle.solv_io.specs.Lines.{lines_of};

    ghost Value = { List (ℕ × List ℕ) };

    ghost view = { λ l. enumerate_from (l.given + 1) (lines_of l.rest.now) };

    ghost invariant = { λ l. l.given + length l.rest.now < 2 ^ 64 };
}

impl<'a> Lines<'a> {
    // All lines of a text.
    pub(crate) fn over(bytes: &'a [u8]) -> Lines<'a>
        ensures { result ≡ numbered_lines bytes.now }
    {
        Lines {
            given: 0,
            rest: bytes,
        }
    }
}

/// The first line of a text that is not empty, and the text after its line feed.
pub fn split_line(text: &[u8]) -> (&[u8], &[u8])
    requires { 0 < length text.now }
    ensures first { lines_of text.now ≡ result.0.now ∷ lines_of result.1.now }
    ensures shorter { length result.1.now < length text.now }
{
    match memchr(b'\n', text) {
        Some(end) => (&text[..end], &text[end + 1..]),
        None => (text, &text[text.len()..]),
    }
}

/// The first line of a text that a line feed ends, and the text after it, where there is a line feed.
pub fn cut_line(text: &[u8]) -> Option<(&[u8], &[u8])>
    ensures cut { IfSome result (λ cut. text.now ≡ cut.0.now ++ 10 ∷ cut.1.now) }
    ensures line { IfSome result (λ cut. IsLine cut.0.now) }
    ensures none { IfNone result (IsLine text.now) }
{
    match memchr(b'\n', text) {
        Some(end) => Some((&text[..end], &text[end + 1..])),
        None => None,
    }
}

impl<'a> Iterator for Lines<'a> {
    type Item = (u64, &'a [u8]);

    ghost next_gives = { YieldsFirstBy (λ item. (item.0, item.1.now)) (λ left. left) };

    ghost remaining = { item_count (λ left. left) };

    fn next(&mut self) -> Option<(u64, &'a [u8])> {
        if self.rest.is_empty() {
            return None;
        }
        let (line, others) = split_line(self.rest);
        self.rest = others;
        self.given += 1;
        Some((self.given, line))
    }
}
