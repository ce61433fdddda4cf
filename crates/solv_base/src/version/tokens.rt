//! Comparing two texts token by token, without a copy of either.
ghost use Rattle.std.specs.Prelude.{◌≡◌, ◌≢◌, ◌⊎◌, ◌<◌, ◌≤◌, length, slice_index, IsTrue};
ghost use Rattle.std.specs.Char.{is_ascii_digit, is_ascii_alphabetic};
ghost use Rattle.std.specs.List.{prefix_len};
ghost use Rattle.std.specs.Ordering.{nat_cmp};
ghost use Rattle.std.specs.Str.Parse.{digits_value, AllDigits};
ghost use Rattle.solv_base.specs.Tokens.{tokens, rank, version_cmp};
ghost use Rattle.solv_base.specs.Inner.Heads.{head_token, tokens_from, heads_cmp, stands_in_token, HasDigits};

use std::cmp::Ordering;

/// The token at the start of a text, or the end of the text.
#[derive(Clone, Copy)]
enum Head<'a> {
    Tilde,
    End,
    Caret,
    Letters(&'a [u8]),
    Digits(&'a [u8]),
}

/// The first token of a text, and the text after it.
#[derive(Clone, Copy)]
struct Cut<'a> {
    head: Head<'a>,
    rest: &'a [u8],
}

/// Compares two texts by their tokens, without a walk where they are the same.
pub fn compare_tokens(a: &[u8], b: &[u8]) -> Ordering
    ensures { result ≡ version_cmp a.now b.now }
{
    if a == b {
        return Ordering::Equal;
    }
    let mut a = a;
    let mut b = b;
    loop {
        let x = first_token(a);
        let y = first_token(b);
        match compare_heads(&x.head, &y.head) {
            Ordering::Equal => {
                if let Head::End = x.head {
                    return Ordering::Equal;
                }
                a = x.rest;
                b = y.rest;
            }
            unequal => return unequal,
        }
    }
}

/// The first token, or the end.
fn first_token(text: &[u8]) -> Cut<'_>
    ensures first { tokens text.now ≡ tokens_from (head_token result.head) (tokens result.rest.now) }
    ensures shorter { length result.rest.now < length text.now ⊎ (result.head ≡ Head.End) }
    ensures digits { HasDigits result.head }
{
    let text = skip_separators(text);
    match text {
        [] => Cut {
            head: Head::End,
            rest: text,
        },
        [b'~', rest @ ..] => Cut {
            head: Head::Tilde,
            rest,
        },
        [b'^', rest @ ..] => Cut {
            head: Head::Caret,
            rest,
        },
        [first, ..] => {
            if first.is_ascii_digit() {
                let n = digits_len(text);
                Cut {
                    head: Head::Digits(&text[..n]),
                    rest: &text[n..],
                }
            } else {
                let n = letters_len(text);
                Cut {
                    head: Head::Letters(&text[..n]),
                    rest: &text[n..],
                }
            }
        }
    }
}

/// The text without the separators at its start.
fn skip_separators(text: &[u8]) -> &[u8]
    ensures same { tokens result.now ≡ tokens text.now }
    ensures no_longer { length result.now ≤ length text.now }
    ensures at_token { 0 < length result.now → IsTrue (stands_in_token (slice_index result.now 0)) }
{
    for (i, b) in text.iter().enumerate() {
        if *b == b'~' || *b == b'^' || b.is_ascii_alphanumeric() {
            return &text[i..];
        }
    }
    &text[text.len()..]
}

/// How many digits stand at the start.
pub fn digits_len(text: &[u8]) -> usize
    ensures length { result ≡ prefix_len is_ascii_digit text.now }
    ensures within { result ≤ length text.now }
{
    for (i, b) in text.iter().enumerate() {
        if !b.is_ascii_digit() {
            return i;
        }
    }
    text.len()
}

/// How many letters stand at the start.
fn letters_len(text: &[u8]) -> usize
    ensures length { result ≡ prefix_len is_ascii_alphabetic text.now }
    ensures within { result ≤ length text.now }
{
    for (i, b) in text.iter().enumerate() {
        if !b.is_ascii_alphabetic() {
            return i;
        }
    }
    text.len()
}

/// Compares two tokens, or a token with the end.
fn compare_heads(a: &Head<'_>, b: &Head<'_>) -> Ordering
    requires a_digits { HasDigits a.now }
    requires b_digits { HasDigits b.now }
    ensures { result ≡ heads_cmp (head_token a.now) (head_token b.now) }
{
    match (a, b) {
        (Head::Letters(x), Head::Letters(y)) => x.cmp(y),
        (Head::Digits(x), Head::Digits(y)) => compare_numbers(x, y),
        _ => rank_of(a).cmp(&rank_of(b)),
    }
}

/// The place of a token in the order of kinds.
fn rank_of(head: &Head<'_>) -> u8
    ensures { result ≡ rank (head_token head.now) }
{
    match head {
        Head::Tilde => 0,
        Head::End => 1,
        Head::Caret => 2,
        Head::Letters(_) => 3,
        Head::Digits(_) => 4,
    }
}

/// Compares two numbers in decimal digits, however long.
fn compare_numbers(a: &[u8], b: &[u8]) -> Ordering
    requires a_digits { AllDigits 10 a.now }
    requires b_digits { AllDigits 10 b.now }
    ensures { result ≡ nat_cmp (digits_value 10 a.now) (digits_value 10 b.now) }
{
    let a = skip_zeros(a);
    let b = skip_zeros(b);
    match a.len().cmp(&b.len()) {
        Ordering::Equal => a.cmp(b),
        unequal => unequal,
    }
}

/// The digits without the zeros at their start.
fn skip_zeros(digits: &[u8]) -> &[u8]
    ensures same { digits_value 10 result.now ≡ digits_value 10 digits.now }
    ensures digits { AllDigits 10 digits.now → AllDigits 10 result.now }
    ensures no_zero { 0 < length result.now → 48 ≢ slice_index result.now 0 }
{
    for (i, b) in digits.iter().enumerate() {
        if *b != b'0' {
            return &digits[i..];
        }
    }
    &digits[digits.len()..]
}
