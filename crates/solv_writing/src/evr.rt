//! The two words of an EVR on a package line.
ghost use Rattle.std.specs.Prelude.{◌≡◌, ◌++◌, ◌∷◌, ◌<◌, ◌+◌, length, take, drop, flat_map, is_some, IfSome, OnOk};
ghost use Rattle.std.specs.List.{list_any, before_last, after_last};
ghost use Rattle.solv_base.specs.Evr.{is_dash};
ghost use Rattle.solv_writing.specs.TagLines.{evr_words};
ghost use Rattle.solv_writing.specs.Inner.LineNames.{is_parted};

use std::alloc::AllocError;

/// The place of the last `-`.
fn last_dash(text: &[u8]) -> Option<usize>
    ensures found { is_some result ≡ list_any is_dash text.now }
    ensures before { IfSome result (λ i. take i text.now ≡ before_last is_dash text.now) }
    ensures after { IfSome result (λ i. drop (i + 1) text.now ≡ after_last is_dash text.now) }
    ensures within { IfSome result (λ i. i < length text.now) }
{
    let mut n = text.len();
    while n > 0 {
        if text[n - 1] == b'-' {
            return Some(n - 1);
        }
        n -= 1;
    }
    None
}

/// What stands before this `-` and after it, where something stands on both sides.
fn sides(evr: &[u8], place: usize) -> Option<(&[u8], &[u8])>
    requires within { place < length evr.now }
    requires before { take place evr.now ≡ before_last is_dash evr.now }
    requires after { drop (place + 1) evr.now ≡ after_last is_dash evr.now }
    ensures both { IfSome result (λ sides. (sides.0.now ≡ before_last is_dash evr.now) × (sides.1.now ≡ after_last is_dash evr.now)) }
    ensures parted { is_some result ≡ is_parted evr.now }
{
    let before = &evr[..place];
    let behind = &evr[place + 1..];
    if before.is_empty() || behind.is_empty() {
        return None;
    }
    Some((before, behind))
}

/// What stands before the last `-` and after it, where something stands on both sides.
#[tactic(auto, using(crate::proofs::EvrWords::unparted))]
fn parted(evr: &[u8]) -> Option<(&[u8], &[u8])>
    ensures both { IfSome result (λ sides. (sides.0.now ≡ before_last is_dash evr.now) × (sides.1.now ≡ after_last is_dash evr.now)) }
    ensures parted { is_some result ≡ is_parted evr.now }
{
    match last_dash(evr) {
        Some(place) => sides(evr, place),
        None => None,
    }
}

/// Appends the version and the release of an EVR, with a space before each.
pub(crate) fn append_evr(line: &mut Vec<u8>, evr: &[u8]) -> Result<(), AllocError>
    ensures { OnOk result (line.new.items ≡ line.old.items ++ flat_map (λ word. 32 ∷ word) (evr_words evr.now)) }
{
    match parted(evr) {
        Some((version, release)) => {
            line.push(b' ')?;
            line.extend_from_slice(version)?;
            line.push(b' ')?;
            line.extend_from_slice(release)
        }
        None => {
            line.push(b' ')?;
            line.extend_from_slice(evr)?;
            line.extend_from_slice(b" -")
        }
    }
}
