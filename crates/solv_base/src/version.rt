//! The order of versions, and which provided ones meet which wanted ones.
//!
//! The order is a profile of rpm-version(7): that page leaves some places open, and the profile settles them. `~` stands below the end of a text and `^` above it, but below every letter and digit; other signs only separate; the release is what follows the last `-`; a missing release is below any.
ghost use Rattle.std.specs.Prelude.{◌≡◌, List, ℕ, ◌+◌, ◌<◌, is_some, IfSome, length, take, drop};
ghost use Rattle.std.specs.List.{list_any, before_last, after_last};
ghost use Rattle.std.specs.Cmp.{IsTotalOrder};
ghost use Rattle.std.specs.Option.{option_cmp, option_copied};
ghost use Rattle.solv_base.specs.Tokens.{version_cmp};
ghost use Rattle.solv_base.specs.Evr.{parts, parts_after, stem_cmp, parts_cmp, evr_cmp, is_dash};
ghost use Rattle.solv_base.specs.Inner.Evr.{parts_of};
ghost use Rattle.solv_base.specs.Matching.{meets, same_side, meets_by_table, meets_by_order};
ghost use Rattle.solv_base.specs.Inner.VersionLaws.{IsReflexive, HasEqualsAlike, MeetsBothWays, ExactMeetsByOrder, MeetsByOverlap};

use crate::comparison::Cmp;
use crate::version::tokens::{compare_tokens, digits_len};
use std::cmp::Ordering;

mod placing;
mod tokens;

pub use placing::{Standing, evr_standing, standing_follows_the_order, standing_meets};

/// The parts of an EVR text `[epoch:]version[-release]`.
///
/// The epoch is `0` where the text has none, and the release is what follows the last `-`.
#[derive(Clone, Copy, PartialEq, Eq, Debug)]
pub struct Evr<'a> {
    pub epoch: &'a [u8],
    pub version: &'a [u8],
    pub release: Option<&'a [u8]>,
}

/// Splits an EVR text into its parts.
///
/// Only digits before a `:` are an epoch, so `a:1` is a version as a whole. `1-` has an empty release, which is not a missing one.
pub fn evr_split(text: &[u8]) -> Evr<'_>
    ensures epoch { result.epoch.now ≡ (parts text.now).epoch }
    ensures version { result.version.now ≡ (parts text.now).version }
    ensures release { option_copied result.release ≡ (parts text.now).release }
{
    let n = digits_len(text);
    if n > 0 && n < text.len() && text[n] == b':' {
        split_release(&text[..n], &text[n + 1..])
    } else {
        split_release(b"0", text)
    }
}

/// Splits what follows the epoch at its last `-`.
fn split_release<'a>(epoch: &'a [u8], rest: &'a [u8]) -> Evr<'a>
    ensures epoch { result.epoch.now ≡ (parts_after epoch.now rest.now).epoch }
    ensures version { result.version.now ≡ (parts_after epoch.now rest.now).version }
    ensures release { option_copied result.release ≡ (parts_after epoch.now rest.now).release }
{
    match last_dash(rest) {
        Some(i) => Evr {
            epoch,
            version: &rest[..i],
            release: Some(&rest[i + 1..]),
        },
        None => Evr {
            epoch,
            version: rest,
            release: None,
        },
    }
}

/// The place of the last `-`.
fn last_dash(text: &[u8]) -> Option<usize>
    ensures found { is_some result ≡ list_any is_dash text.now }
    ensures before { IfSome result (λ i. take i text.now ≡ before_last is_dash text.now) }
    ensures after { IfSome result (λ i. drop (i + 1) text.now ≡ after_last is_dash text.now) }
    ensures within { IfSome result (λ i. i < length text.now) }
{
    let mut n = text.len();
    while n > 0 {
        if text[n - 1] == b'-' {
            return Some(n - 1);
        }
        n -= 1;
    }
    None
}

/// Compares two EVR texts: by epoch, then by version, then by release.
///
/// Texts that compare equal need not be equal, as `1.05` and `1.5`. A text without a release is below the same text with one, so `1` is below `1-0` and `1-`.
pub fn evr_compare(a: &[u8], b: &[u8]) -> Ordering
    ensures { result ≡ evr_cmp a.now b.now }
{
    compare_parts(&evr_split(a), &evr_split(b))
}

/// Compares by epoch, version and release.
fn compare_parts(a: &Evr<'_>, b: &Evr<'_>) -> Ordering
    ensures { result ≡ parts_cmp (parts_of a.now) (parts_of b.now) }
{
    match compare_stems(a, b) {
        Ordering::Equal => compare_releases(a.release, b.release),
        unequal => unequal,
    }
}

/// Compares by epoch and version.
fn compare_stems(a: &Evr<'_>, b: &Evr<'_>) -> Ordering
    ensures { result ≡ stem_cmp (parts_of a.now) (parts_of b.now) }
{
    match compare_tokens(a.epoch, b.epoch) {
        Ordering::Equal => compare_tokens(a.version, b.version),
        unequal => unequal,
    }
}

/// Compares by release, a missing one being below any.
fn compare_releases(a: Option<&[u8]>, b: Option<&[u8]>) -> Ordering
    ensures { result ≡ option_cmp version_cmp (option_copied a.entry) (option_copied b.entry) }
{
    match (a, b) {
        (None, None) => Ordering::Equal,
        (None, Some(_)) => Ordering::Less,
        (Some(_), None) => Ordering::Greater,
        (Some(a), Some(b)) => compare_tokens(a, b),
    }
}

/// Whether a provide with an EVR meets a dependency that wants one, both of one name.
///
/// Two ranges that are unbounded on the same side always meet. Otherwise the order decides, except that where epoch and version are equal and one side alone has no release, that side stands for every release: it meets where its own comparison has equal.
pub fn evr_meets(provide: Cmp, have: &[u8], wanted: Cmp, want: &[u8]) -> bool
    ensures { result ≡ meets provide have.now wanted want.now }
{
    same_side(provide, wanted)
        || meets_by_table(provide, &evr_split(have), wanted, &evr_split(want))
}

/// Whether both are unbounded below or both above.
fn same_side(provide: Cmp, wanted: Cmp) -> bool
    ensures { result ≡ same_side provide wanted }
{
    provide.less && wanted.less || provide.greater && wanted.greater
}

/// Whether they meet by the order, or by the one missing release.
fn meets_by_table(provide: Cmp, have: &Evr<'_>, wanted: Cmp, want: &Evr<'_>) -> bool
    ensures { result ≡ meets_by_table provide (parts_of have.now) wanted (parts_of want.now) }
{
    match compare_stems(have, want) {
        Ordering::Equal => match (have.release, want.release) {
            (None, None) => meets_by_order(provide, wanted, Ordering::Equal),
            (None, Some(_)) => provide.equal,
            (Some(_), None) => wanted.equal,
            (Some(have), Some(want)) => meets_by_order(provide, wanted, compare_tokens(have, want)),
        },
        unequal => meets_by_order(provide, wanted, unequal),
    }
}

/// Whether they meet, where the provided EVR compares with the wanted one in this way.
fn meets_by_order(provide: Cmp, wanted: Cmp, place: Ordering) -> bool
    ensures { result ≡ meets_by_order provide wanted place }
{
    match place {
        Ordering::Less => wanted.less || provide.greater,
        Ordering::Equal => provide.equal && wanted.equal,
        Ordering::Greater => wanted.greater || provide.less,
    }
}

/// The order is total on the classes of EVRs that compare equal: each compares equal with itself, the two directions mirror each other, and less and equal go on from EVR to EVR, alone and mixed.
pub fn evr_order_is_total()
    ensures total { IsTotalOrder evr_cmp }
    ensures reflexive { IsReflexive }
    ensures equals_alike { HasEqualsAlike }
{}

/// Matching is the same both ways; a provide `= e` meets what holds of e; and two comparisons meet exactly where some EVR is in both ranges.
///
/// The last two leave out the lines on a release that one side alone lacks, which follow no order: `= 1.2` meets both `= 1.2-1` and `= 1.2-2`, and `> 1.2` does not meet `= 1.2-1`.
pub fn matching_follows_the_order()
    ensures both_ways { MeetsBothWays }
    ensures exact { ExactMeetsByOrder }
    ensures overlap { MeetsByOverlap }
{}
