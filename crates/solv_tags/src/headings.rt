//! The headings of testtags lines, and the texts after them.
ghost use Rattle.std.specs.Prelude.{◌≡◌, ◌≤◌, length};
ghost use Rattle.solv_tags.specs.Headings.{is_heading, letters, without_front_blanks, trimmed};
ghost use Rattle.solv_tags.specs.Inner.Tags.{after_heading, tag, place_of, without_back_blanks};

use crate::tag::Tag;
use solv_deps::Place;
use solv_io::is_blank;

/// Whether a line begins with this sign, three letters and `:`.
pub(crate) fn is_heading(sign: u8, line: &[u8]) -> bool
    ensures { result ≡ is_heading sign line.now }
{
    line.len() >= 5
        && line[0] == sign
        && line[1].is_ascii_alphabetic()
        && line[2].is_ascii_alphabetic()
        && line[3].is_ascii_alphabetic()
        && line[4] == b':'
}

/// The letters of a heading.
pub(crate) fn letters(line: &[u8]) -> &[u8]
    requires { 4 ≤ length line.now }
    ensures { result.now ≡ letters line.now }
{
    &line[1..4]
}

/// What follows a heading.
pub(crate) fn after_heading(line: &[u8]) -> &[u8]
    requires { 5 ≤ length line.now }
    ensures { result.now ≡ after_heading line.now }
{
    &line[5..]
}

/// The tag that letters name, if any.
pub(crate) fn tag_of(name: &[u8]) -> Option<Tag>
    ensures { result ≡ tag name.now }
{
    if name == b"Pkg".as_slice() {
        Some(Tag::Pkg)
    } else if name == b"Prv".as_slice() {
        Some(Tag::Prv)
    } else if name == b"Req".as_slice() {
        Some(Tag::Req)
    } else if name == b"Prq".as_slice() {
        Some(Tag::Prq)
    } else if name == b"Con".as_slice() {
        Some(Tag::Con)
    } else if name == b"Obs".as_slice() {
        Some(Tag::Obs)
    } else if name == b"Rec".as_slice() {
        Some(Tag::Rec)
    } else if name == b"Sug".as_slice() {
        Some(Tag::Sug)
    } else if name == b"Sup".as_slice() {
        Some(Tag::Sup)
    } else if name == b"Enh".as_slice() {
        Some(Tag::Enh)
    } else if name == b"Vnd".as_slice() {
        Some(Tag::Vnd)
    } else if name == b"Fls".as_slice() {
        Some(Tag::Fls)
    } else {
        None
    }
}

/// Where the dependency of a tag stands.
pub(crate) fn place_of(tag: Tag) -> Place
    ensures { result ≡ place_of tag }
{
    match tag {
        Tag::Prv | Tag::Obs => Place::Plain,
        Tag::Con => Place::Conflicts,
        _ => Place::Requires,
    }
}

/// A text without the blanks at its front.
fn skip_front(text: &[u8]) -> &[u8]
    ensures { result.now ≡ without_front_blanks text.now }
{
    let mut n = 0;
    while n < text.len() && is_blank(text[n]) {
        n += 1;
    }
    &text[n..]
}

/// A text without the blanks at its end.
fn skip_back(text: &[u8]) -> &[u8]
    ensures { result.now ≡ without_back_blanks text.now }
{
    let mut n = text.len();
    while n > 0 && is_blank(text[n - 1]) {
        n -= 1;
    }
    &text[..n]
}

/// A text without the blanks round it: spaces, tabs and carriage returns.
pub fn trimmed(text: &[u8]) -> &[u8]
    ensures { result.now ≡ trimmed text.now }
{
    skip_back(skip_front(text))
}
