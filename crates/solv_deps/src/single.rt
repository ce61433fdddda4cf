//! Texts of one name, and of a name with a comparison and an EVR, and of two of these with `|` between. They are most texts,
//! and need no draft.
ghost use Rattle.std.specs.Prelude.{◌≡◌, ◌∷◌, [], Ok, IfSome, true, false, Some, None, ℕ, List};
ghost use Rattle.solv_base.specs.Dependency.{one, or, joined};
ghost use Rattle.solv_deps.specs.Grammar.{comparison, is_plain, is_namespace};
ghost use Rattle.solv_deps.specs.Inner.Signs.{operator};
ghost use Rattle.solv_deps.specs.declared.sign.Joint.TheVariants.{Either};
ghost use Rattle.solv_deps.specs.declared.sign.Operator.TheVariants.{Link};
ghost use Rattle.solv_deps.specs.Inner.Reading.{Hand, reading_by_rules, reading_from, whole};
ghost use Rattle.solv_deps.specs.Reading.{reading};
ghost use Rattle.solv_deps.specs.Inner.Singles.{capability_of, operand_at, behind_either};
ghost use Rattle.solv_deps.specs.Words.{words};

use crate::lexer::next_word;
use crate::sign::{comparison_of, is_either, is_namespace_name, is_plain_word};
use solv_base::Cmp;

/// A name, or a name with a comparison and an EVR.
#[derive(Clone, Copy)]
pub(crate) enum Single<'a> {
    Name(&'a [u8]),
    Versioned(&'a [u8], Cmp, &'a [u8]),
}

/// The word of a text that has one.
fn only_word(text: &[u8]) -> Option<&[u8]>
    ensures { IfSome result (λ word. words text.now ≡ word.now ∷ []) }
{
    let (word, behind) = next_word(text)?;
    match next_word(behind) {
        None => Some(word),
        Some(_) => None,
    }
}

/// A name with a comparison and an EVR, where nothing else follows.
fn versioned<'a>(name: &'a [u8], sign: &[u8], behind: &'a [u8]) -> Option<Single<'a>>
    requires plain_name { is_plain name.now ≡ true }
    requires no_namespace { is_namespace name.now ≡ false }
    ensures { IfSome result (λ single. (n : ℕ) (hand : Hand) → reading_from (operand_at n hand) (name.now ∷ sign.now ∷ words behind.now) ≡ Ok (whole hand (one (capability_of single)))) }
{
    let cmp = comparison_of(sign)?;
    let evr = only_word(behind)?;
    if !is_plain_word(evr) {
        return None;
    }
    Some(Single::Versioned(name, cmp, evr))
}

/// What a text says that is one name, or a name with a comparison and an EVR.
#[tactic(auto, using(crate::proofs::SameReading::same_reading))]
pub(crate) fn single_of(text: &[u8]) -> Option<Single<'_>>
    ensures operand { IfSome result (λ single. (n : ℕ) (hand : Hand) → reading_from (operand_at n hand) (words text.now) ≡ Ok (whole hand (one (capability_of single)))) }
    ensures alone { IfSome result (λ single. reading (words text.now) ≡ Ok (one (capability_of single))) }
{
    let (name, behind) = next_word(text)?;
    if !is_plain_word(name) {
        return None;
    }
    if is_namespace_name(name) {
        return None;
    }
    match next_word(behind) {
        None => Some(Single::Name(name)),
        Some((sign, behind)) => versioned(name, sign, behind),
    }
}

/// The EVR after a name and a comparison, where `|` follows, and what comes after that.
fn evr_before_either(text: &[u8]) -> Option<(&[u8], &[u8])>
    ensures words { IfSome result (λ cut. (sign : List ℕ) × (words text.now ≡ cut.0.now ∷ sign ∷ words cut.1.now) × (operator sign ≡ Some (Link Either)) × (comparison sign ≡ None)) }
    ensures plain { IfSome result (λ cut. is_plain cut.0.now ≡ true) }
{
    let (evr, behind) = next_word(text)?;
    if !is_plain_word(evr) {
        return None;
    }
    let (sign, behind) = next_word(behind)?;
    if is_either(sign) {
        Some((evr, behind))
    } else {
        None
    }
}

/// What stands before the first `|` of a text, and what comes after it.
fn cut_at_either(text: &[u8]) -> Option<(Single<'_>, &[u8])>
    ensures { IfSome result (λ cut. reading_by_rules (words text.now) ≡ reading_from (behind_either (one (capability_of cut.0))) (words cut.1.now)) }
{
    let (name, behind) = next_word(text)?;
    if !is_plain_word(name) {
        return None;
    }
    if is_namespace_name(name) {
        return None;
    }
    let (sign, behind) = next_word(behind)?;
    if is_either(sign) {
        return Some((Single::Name(name), behind));
    }
    let cmp = comparison_of(sign)?;
    let (evr, behind) = evr_before_either(behind)?;
    Some((Single::Versioned(name, cmp, evr), behind))
}

/// What a text says that is two of them with `|` between.
#[tactic(auto, using(crate::proofs::SameReading::same_reading))]
pub(crate) fn pair_of(text: &[u8]) -> Option<(Single<'_>, Single<'_>)>
    ensures { IfSome result (λ pair. reading (words text.now) ≡ Ok (joined or (one (capability_of pair.0)) (one (capability_of pair.1)))) }
{
    let (left, behind) = cut_at_either(text)?;
    let right = single_of(behind)?;
    Some((left, right))
}
