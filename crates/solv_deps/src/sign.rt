//! Operators and comparisons.

ghost use Rattle.std.specs.Prelude.{◌≡◌, Some, None, IsTrue};
ghost use Rattle.solv_deps.specs.declared.sign.Joint.TheVariants.{Either};
ghost use Rattle.solv_deps.specs.declared.sign.Operator.TheVariants.{Link};
ghost use Rattle.solv_deps.specs.Inner.Signs.{begins_as_sign};
ghost use Rattle.solv_deps.specs.Inner.Signs.{operator, operator_spelled, sign, rpm_word, word_is, opens, closes};
ghost use Rattle.solv_deps.specs.Grammar.{comparison, is_plain, is_namespace};

use solv_base::Cmp;

/// An operator that joins the operands of a chain.
#[derive(Clone, Copy, PartialEq, Eq, Debug)]
pub enum Joint {
    Both,
    Either,
    Jointly,
}

/// How an operand depends on a condition: it is wanted only where this holds, or only where it does not.
#[derive(Clone, Copy, PartialEq, Eq, Debug)]
pub enum Conditional {
    If,
    Unless,
}

/// An operator between dependencies.
#[derive(Clone, Copy, PartialEq, Eq, Debug)]
pub enum Operator {
    Link(Joint),
    Minus,
    Condition(Conditional),
    Else,
}

/// Whether a word is this text.
fn is_word(word: &[u8], text: &[u8]) -> bool
    ensures { result ≡ word_is text.now word.now }
{
    text == word
}

/// The operator whose sign a word is.
fn signed_operator(word: &[u8]) -> Option<Operator>
    ensures { result ≡ operator_spelled sign word.now }
{
    if is_word(word, b"&") {
        return Some(Operator::Link(Joint::Both));
    }
    if is_word(word, b"|") {
        return Some(Operator::Link(Joint::Either));
    }
    if is_word(word, b"+") {
        return Some(Operator::Link(Joint::Jointly));
    }
    if is_word(word, b"-") {
        return Some(Operator::Minus);
    }
    if is_word(word, b"<IF>") {
        return Some(Operator::Condition(Conditional::If));
    }
    if is_word(word, b"<UNLESS>") {
        return Some(Operator::Condition(Conditional::Unless));
    }
    if is_word(word, b"<ELSE>") {
        return Some(Operator::Else);
    }
    None
}

/// The operator for which rpm has this word.
fn worded_operator(word: &[u8]) -> Option<Operator>
    ensures { result ≡ operator_spelled rpm_word word.now }
{
    if is_word(word, b"and") {
        return Some(Operator::Link(Joint::Both));
    }
    if is_word(word, b"or") {
        return Some(Operator::Link(Joint::Either));
    }
    if is_word(word, b"with") {
        return Some(Operator::Link(Joint::Jointly));
    }
    if is_word(word, b"without") {
        return Some(Operator::Minus);
    }
    if is_word(word, b"if") {
        return Some(Operator::Condition(Conditional::If));
    }
    if is_word(word, b"unless") {
        return Some(Operator::Condition(Conditional::Unless));
    }
    if is_word(word, b"else") {
        return Some(Operator::Else);
    }
    None
}

/// The operator that a word is where one may stand, by its sign or by rpm's word.
pub(crate) fn operator_of(word: &[u8]) -> Option<Operator>
    ensures { result ≡ operator word.now }
{
    let signed = signed_operator(word);
    if signed.is_some() {
        return signed;
    }
    worded_operator(word)
}

fn cmp(less: bool, equal: bool, greater: bool) -> Option<Cmp>
    ensures { result ≡ Some (record { less = less; equal = equal; greater = greater }) }
{
    Some(Cmp {
        less,
        equal,
        greater,
    })
}

/// The comparison that a word is: `<`, `<=`, `=`, `>=`, `>` or `<>`.
pub fn comparison_of(word: &[u8]) -> Option<Cmp>
    ensures { result ≡ comparison word.now }
{
    if is_word(word, b"<") {
        return cmp(true, false, false);
    }
    if is_word(word, b"<=") {
        return cmp(true, true, false);
    }
    if is_word(word, b"=") {
        return cmp(false, true, false);
    }
    if is_word(word, b">=") {
        return cmp(false, true, true);
    }
    if is_word(word, b">") {
        return cmp(false, false, true);
    }
    if is_word(word, b"<>") {
        return cmp(true, false, true);
    }
    None
}

/// Whether a word is `|`.
pub(crate) fn is_either(word: &[u8]) -> bool
    ensures operator { IsTrue result → operator word.now ≡ Some (Link Either) }
    ensures no_comparison { IsTrue result → comparison word.now ≡ None }
{
    is_word(word, b"|")
}

/// Whether a word opens a parenthesis.
pub(crate) fn opens_one(word: &[u8]) -> bool
    ensures { result ≡ opens word.now }
{
    is_word(word, b"(")
}

/// Whether a word closes a parenthesis.
pub(crate) fn closes_one(word: &[u8]) -> bool
    ensures { result ≡ closes word.now }
{
    is_word(word, b")")
}

/// Whether a word begins as the parentheses, the operators' signs and the comparisons do.
fn begins_as_sign(word: &[u8]) -> bool
    ensures { result ≡ begins_as_sign word.now }
{
    match word.first() {
        None => false,
        Some(c) => {
            matches!(
                *c,
                b'(' | b')' | b'&' | b'|' | b'+' | b'-' | b'<' | b'=' | b'>'
            )
        }
    }
}

/// Whether a word is a name or an EVR where one is due. There rpm's words for operators are names and EVRs like others.
#[tactic(auto, using(crate::proofs::SameReading::unsigned_seen))]
pub(crate) fn is_plain_word(word: &[u8]) -> bool
    ensures { result ≡ is_plain word.now }
{
    if !begins_as_sign(word) {
        return true;
    }
    if opens_one(word) || closes_one(word) {
        return false;
    }
    signed_operator(word).is_none() && comparison_of(word).is_none()
}

/// Whether a name is a namespace, as `namespace:language(de)`.
pub fn is_namespace_name(word: &[u8]) -> bool
    ensures { result ≡ is_namespace word.now }
{
    let Some((last, _)) = word.split_last() else {
        return false;
    };
    *last == b')' && word.len() >= 10 && word.starts_with(b"namespace:") && word.contains(&b'(')
}
