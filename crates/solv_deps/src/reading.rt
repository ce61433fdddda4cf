//! Reading a dependency's text into a draft, word by word.
ghost use Rattle.std.specs.Prelude.{ℕ, List, ◌≡◌, ◌<◌, ◌≤◌, ◌+◌, ◌∷◌, [], length, IfOk, IfErr, true, Some, None, Err, option_map, ◌&&◌, nat_lt};
ghost use Rattle.solv_base.specs.Dependency.{Dep, one, plain};
ghost use Rattle.solv_deps.specs.Inner.Drafts.{said, Extends, Enters};
ghost use Rattle.solv_deps.specs.Inner.Points.{option_in, Ends, Leads, GoesOn, Stands, rule_hand, hands, due_seen, seen, rule_in, rules_in, due_in, pending, option_pending, rules_pending, due_pending, due_entered};
ghost use Rattle.solv_deps.specs.Inner.Reading.{whole, goes_on, nothing, inner_else, at_operand, at_evr, at_other, closed, comparison_due, at_operator, end_due, refused_operator};
ghost use Rattle.solv_deps.specs.Reading.{reading};
ghost use Rattle.solv_deps.specs.Inner.Reading.{go_on as go_on_by, step as step_by};
ghost use Rattle.solv_deps.specs.Inner.Signs.{operator};
ghost use Rattle.solv_deps.specs.Grammar.{comparison};
ghost use Rattle.solv_deps.specs.Words.{words};

use crate::draft::{Draft, Written};
use crate::fault::DepFault;
use crate::lexer::next_word;
use crate::outer::{Outer, Rule};
use crate::sign::{
    Operator, closes_one, comparison_of, is_namespace_name, is_plain_word, opens_one, operator_of,
};
use solv_base::Cmp;

/// What the next word has to be.
#[derive(Clone, Copy)]
pub(crate) enum Due<'a> {
    /// An operand.
    Operand(Rule),
    /// The EVR after a name and a comparison.
    Evr(Rule, &'a [u8], Cmp),
    /// An operator or a closing parenthesis, or a comparison after this name, which is not in the draft yet.
    Named(Rule, &'a [u8]),
    /// An operator or a closing parenthesis.
    Operator(Rule, u8),
}

/// The dependency that the rule in hand makes with its last operand.
fn finish_rule(draft: &mut Draft<'_>, rule: Rule, id: u8) -> u8
    requires within { (rule_in (length draft.old) rule && nat_lt id (length draft.old)) ≡ true }
    requires room { length draft.old + pending rule ≤ 129 }
    ensures entered { Enters draft.old draft.new result (whole (rule_hand (said draft.old) rule) (said draft.old id)) }
    ensures longer { length draft.new ≡ length draft.old + pending rule }
{
    match rule {
        Rule::Nothing => id,
        Rule::Chain(joint, left) => draft.push(&Written::Joined(joint, left, id)),
        Rule::Difference(left) => draft.push(&Written::Without(left, id)),
        Rule::Condition(kind, left) => draft.push(&Written::Under(kind, left, id)),
        Rule::Else(kind, left, condition) => {
            draft.push(&Written::UnderElse(kind, left, condition, id))
        }
        Rule::InnerElse(kind, left, condition) => {
            draft.push(&Written::UnderElse(kind, left, condition, id))
        }
    }
}

/// The rule after `<ELSE>` where this rule stands before the parentheses.
fn else_inside(rule: Rule, id: u8) -> Option<Rule>
    ensures goes { (at : ℕ → Dep (List ℕ)) → option_map (rule_hand at) result ≡ inner_else (rule_hand at rule ∷ []) (at id) }
    ensures inside { (n : ℕ) → (rule_in n rule && nat_lt id n) ≡ true → option_in n result ≡ true }
    ensures pending { option_pending result ≤ 1 }
{
    match rule {
        Rule::Condition(kind, left) => Some(Rule::InnerElse(kind, left, id)),
        Rule::Nothing => None,
        Rule::Chain(_, _) => None,
        Rule::Difference(_) => None,
        Rule::Else(_, _, _) => None,
        Rule::InnerElse(_, _, _) => None,
    }
}

/// The rule after the first operand in parentheses and `<ELSE>`.
fn else_here(outer: &Outer, id: u8) -> Option<Rule>
    ensures goes { (at : ℕ → Dep (List ℕ)) → option_map (rule_hand at) result ≡ inner_else (hands at outer.now) (at id) }
    ensures inside { (n : ℕ) → (rules_in n outer.now && nat_lt id n) ≡ true → option_in n result ≡ true }
    ensures pending { option_pending result ≤ 1 }
{
    match outer.top() {
        Some(rule) => else_inside(rule, id),
        None => None,
    }
}

/// The rule that begins with an operand and an operator.
fn begin_rule(outer: &Outer, id: u8, op: Operator) -> Option<Rule>
    ensures goes { (at : ℕ → Dep (List ℕ)) → option_map (rule_hand at) result ≡ goes_on (hands at outer.now) nothing (at id) op }
    ensures inside { (n : ℕ) → (rules_in n outer.now && nat_lt id n) ≡ true → option_in n result ≡ true }
    ensures pending { option_pending result ≤ 1 }
{
    match op {
        Operator::Link(joint) => Some(Rule::Chain(joint, id)),
        Operator::Minus => Some(Rule::Difference(id)),
        Operator::Condition(kind) => Some(Rule::Condition(kind, id)),
        Operator::Else => else_here(outer, id),
    }
}

/// The rule in hand after an operand and an operator, where it goes on with this one.
fn go_on(draft: &mut Draft<'_>, outer: &Outer, rule: Rule, id: u8, op: Operator) -> Option<Rule>
    requires within { (rules_in (length draft.old) outer.now && (rule_in (length draft.old) rule && nat_lt id (length draft.old))) ≡ true }
    requires room { length draft.old + pending rule ≤ 129 }
    ensures goes { GoesOn draft.new result (goes_on (hands (said draft.old) outer.now) (rule_hand (said draft.old) rule) (said draft.old id) op) }
    ensures extends { Extends draft.old draft.new }
    ensures longer { length draft.new + option_pending result ≤ length draft.old + pending rule + 1 }
{
    match rule {
        Rule::Nothing => begin_rule(outer, id, op),
        Rule::Chain(joint, left) => {
            if let Operator::Link(next) = op {
                if joint == next {
                    let both = draft.push(&Written::Joined(joint, left, id));
                    return Some(Rule::Chain(joint, both));
                }
            }
            None
        }
        Rule::Condition(kind, left) => match op {
            Operator::Else => Some(Rule::Else(kind, left, id)),
            _ => None,
        },
        Rule::Difference(_) => None,
        Rule::Else(_, _, _) => None,
        Rule::InnerElse(_, _, _) => None,
    }
}

/// The cause where the rule in hand does not go on with an operator.
fn refuse(op: Operator) -> DepFault
    ensures { result ≡ refused_operator op }
{
    match op {
        Operator::Else => DepFault::BadOperator,
        _ => DepFault::MixedOperators,
    }
}

/// A word where an operand is due.
fn take_operand<'a>(
    draft: &mut Draft<'a>,
    outer: &mut Outer,
    count: usize,
    rule: Rule,
    word: &'a [u8],
) -> Result<Due<'a>, DepFault>
    requires within { (rules_in (length draft.old) outer.old && rule_in (length draft.old) rule) ≡ true }
    requires room { length draft.old + rules_pending outer.old + pending rule ≤ count + count }
    requires few { count ≤ 64 }
    ensures ok { IfOk result (λ due. Stands draft.new outer.new count due (at_operand (hands (said draft.old) outer.old) count (rule_hand (said draft.old) rule) word.now)) }
    ensures err { IfErr result (λ e. at_operand (hands (said draft.old) outer.old) count (rule_hand (said draft.old) rule) word.now ≡ Err e) }
{
    if opens_one(word) {
        if outer.depth() >= 64 {
            return Err(DepFault::TooDeep);
        }
        outer.push(rule);
        return Ok(Due::Operand(Rule::Nothing));
    }
    if is_plain_word(word) {
        if is_namespace_name(word) {
            let id = draft.push(&Written::Namespace(word));
            return Ok(Due::Operator(rule, id));
        }
        return Ok(Due::Named(rule, word));
    }
    Err(DepFault::MissingOperand)
}

/// A word where an EVR is due.
fn take_evr<'a>(
    draft: &mut Draft<'a>,
    outer: &Outer,
    count: usize,
    rule: Rule,
    name: &'a [u8],
    cmp: Cmp,
    word: &'a [u8],
) -> Result<Due<'a>, DepFault>
    requires within { (rules_in (length draft.old) outer.now && rule_in (length draft.old) rule) ≡ true }
    requires room { length draft.old + rules_pending outer.now + pending rule ≤ count + count }
    requires few { count ≤ 64 }
    ensures ok { IfOk result (λ due. Stands draft.new outer.now count due (at_evr (hands (said draft.old) outer.now) count (rule_hand (said draft.old) rule) name.now cmp word.now)) }
    ensures err { IfErr result (λ e. at_evr (hands (said draft.old) outer.now) count (rule_hand (said draft.old) rule) name.now cmp word.now ≡ Err e) }
{
    if is_plain_word(word) {
        let id = draft.push(&Written::Versioned(name, cmp, word));
        return Ok(Due::Operator(rule, id));
    }
    Err(DepFault::MissingOperand)
}

/// What is due after a parenthesis that closes.
fn close_rule<'a>(draft: &mut Draft<'a>, rule: Rule, before: Rule, id: u8) -> Due<'a>
    requires within { (rule_in (length draft.old) before && (rule_in (length draft.old) rule && nat_lt id (length draft.old))) ≡ true }
    requires room { length draft.old + pending rule ≤ 129 }
    ensures leads { Leads draft.new result (closed (rule_hand (said draft.old) rule) (rule_hand (said draft.old) before) (said draft.old id)) }
    ensures extends { Extends draft.old draft.new }
    ensures longer { length draft.new + due_pending result ≤ length draft.old + pending rule + pending before }
    ensures entered { due_entered result ≡ 1 }
{
    if let Rule::InnerElse(kind, left, condition) = rule {
        return Due::Operator(Rule::Else(kind, left, condition), id);
    }
    let whole = finish_rule(draft, rule, id);
    Due::Operator(before, whole)
}

/// A word that is no operator and no comparison, after an operand.
fn take_other<'a>(
    draft: &mut Draft<'a>,
    outer: &mut Outer,
    count: usize,
    rule: Rule,
    id: u8,
    word: &[u8],
) -> Result<Due<'a>, DepFault>
    requires within { (rules_in (length draft.old) outer.old && (rule_in (length draft.old) rule && nat_lt id (length draft.old))) ≡ true }
    requires room { length draft.old + rules_pending outer.old + pending rule ≤ count + count + 1 }
    requires few { count ≤ 64 }
    ensures ok { IfOk result (λ due. Stands draft.new outer.new count due (at_other (hands (said draft.old) outer.old) count (rule_hand (said draft.old) rule) (said draft.old id) word.now)) }
    ensures err { IfErr result (λ e. at_other (hands (said draft.old) outer.old) count (rule_hand (said draft.old) rule) (said draft.old id) word.now ≡ Err e) }
{
    if closes_one(word) {
        return match outer.pop() {
            Some(before) => Ok(close_rule(draft, rule, before, id)),
            None => Err(DepFault::BadOperator),
        };
    }
    Err(DepFault::BadOperator)
}

/// An operator after an operand.
fn take_sign<'a>(
    draft: &mut Draft<'a>,
    outer: &Outer,
    count: &mut usize,
    rule: Rule,
    id: u8,
    op: Operator,
) -> Result<Due<'a>, DepFault>
    requires within { (rules_in (length draft.old) outer.now && (rule_in (length draft.old) rule && nat_lt id (length draft.old))) ≡ true }
    requires room { length draft.old + rules_pending outer.now + pending rule ≤ count.old + count.old + 1 }
    requires few { count.old ≤ 64 }
    ensures ok { IfOk result (λ due. Stands draft.new outer.now count.new due (go_on_by (hands (said draft.old) outer.now) count.old op (goes_on (hands (said draft.old) outer.now) (rule_hand (said draft.old) rule) (said draft.old id) op))) }
    ensures err { IfErr result (λ e. go_on_by (hands (said draft.old) outer.now) count.old op (goes_on (hands (said draft.old) outer.now) (rule_hand (said draft.old) rule) (said draft.old id) op) ≡ Err e) }
{
    match go_on(draft, outer, rule, id, op) {
        Some(next) => {
            if *count >= 64 {
                return Err(DepFault::TooDeep);
            }
            *count += 1;
            Ok(Due::Operand(next))
        }
        None => Err(refuse(op)),
    }
}

/// A word after an operand, where no comparison is due.
fn take_operator<'a>(
    draft: &mut Draft<'a>,
    outer: &mut Outer,
    count: &mut usize,
    rule: Rule,
    id: u8,
    word: &[u8],
) -> Result<Due<'a>, DepFault>
    requires within { (rules_in (length draft.old) outer.old && (rule_in (length draft.old) rule && nat_lt id (length draft.old))) ≡ true }
    requires room { length draft.old + rules_pending outer.old + pending rule ≤ count.old + count.old + 1 }
    requires few { count.old ≤ 64 }
    ensures ok { IfOk result (λ due. Stands draft.new outer.new count.new due (at_operator (hands (said draft.old) outer.old) count.old (rule_hand (said draft.old) rule) (said draft.old id) word.now None (operator word.now))) }
    ensures err { IfErr result (λ e. at_operator (hands (said draft.old) outer.old) count.old (rule_hand (said draft.old) rule) (said draft.old id) word.now None (operator word.now) ≡ Err e) }
{
    match operator_of(word) {
        Some(op) => take_sign(draft, outer, count, rule, id, op),
        None => take_other(draft, outer, *count, rule, id, word),
    }
}

/// A word after a bare name.
fn take_named<'a>(
    draft: &mut Draft<'a>,
    outer: &mut Outer,
    count: &mut usize,
    rule: Rule,
    name: &'a [u8],
    word: &'a [u8],
) -> Result<Due<'a>, DepFault>
    requires within { (rules_in (length draft.old) outer.old && rule_in (length draft.old) rule) ≡ true }
    requires room { length draft.old + rules_pending outer.old + pending rule ≤ count.old + count.old }
    requires few { count.old ≤ 64 }
    ensures ok { IfOk result (λ due. Stands draft.new outer.new count.new due (at_operator (hands (said draft.old) outer.old) count.old (rule_hand (said draft.old) rule) (one (plain name.now)) word.now (comparison_due (comparison word.now) (Some name.now)) (operator word.now))) }
    ensures err { IfErr result (λ e. at_operator (hands (said draft.old) outer.old) count.old (rule_hand (said draft.old) rule) (one (plain name.now)) word.now (comparison_due (comparison word.now) (Some name.now)) (operator word.now) ≡ Err e) }
{
    match comparison_of(word) {
        Some(cmp) => Ok(Due::Evr(rule, name, cmp)),
        None => {
            let id = draft.push(&Written::Simple(name));
            take_operator(draft, outer, count, rule, id, word)
        }
    }
}

/// The next word.
#[tactic(auto, unfolding(crate::specs::Inner::Points::seen))]
fn step<'a>(
    draft: &mut Draft<'a>,
    outer: &mut Outer,
    count: &mut usize,
    due: &Due<'a>,
    word: &'a [u8],
) -> Result<Due<'a>, DepFault>
    requires within { (rules_in (length draft.old) outer.old && due_in (length draft.old) due.now) ≡ true }
    requires room { length draft.old + rules_pending outer.old + due_pending due.now ≤ count.old + count.old + due_entered due.now }
    requires few { count.old ≤ 64 }
    ensures ok { IfOk result (λ next. Stands draft.new outer.new count.new next (step_by (seen draft.old outer.old count.old due.now) word.now)) }
    ensures err { IfErr result (λ e. step_by (seen draft.old outer.old count.old due.now) word.now ≡ Err e) }
{
    match due {
        Due::Operand(rule) => take_operand(draft, outer, *count, *rule, word),
        Due::Evr(rule, name, cmp) => take_evr(draft, outer, *count, *rule, name, *cmp, word),
        Due::Named(rule, name) => take_named(draft, outer, count, *rule, name, word),
        Due::Operator(rule, id) => take_operator(draft, outer, count, *rule, *id, word),
    }
}

/// The dependency where the text ends.
fn finish<'a>(
    draft: &mut Draft<'a>,
    outer: &Outer,
    count: usize,
    due: &Due<'a>,
) -> Result<u8, DepFault>
    requires within { (rules_in (length draft.old) outer.now && due_in (length draft.old) due.now) ≡ true }
    requires room { length draft.old + rules_pending outer.now + due_pending due.now ≤ count + count + due_entered due.now }
    requires few { count ≤ 64 }
    ensures ok { IfOk result (λ id. Ends draft.new id (end_due (hands (said draft.old) outer.now) (due_seen (said draft.old) due.now))) }
    ensures err { IfErr result (λ e. end_due (hands (said draft.old) outer.now) (due_seen (said draft.old) due.now) ≡ Err e) }
{
    match due {
        Due::Operand(_) => Err(DepFault::MissingOperand),
        Due::Evr(_, _, _) => Err(DepFault::MissingOperand),
        Due::Named(rule, name) => {
            if outer.depth() > 0 {
                return Err(DepFault::UnclosedParenthesis);
            }
            let id = draft.push(&Written::Simple(name));
            Ok(finish_rule(draft, *rule, id))
        }
        Due::Operator(rule, id) => {
            if outer.depth() > 0 {
                return Err(DepFault::UnclosedParenthesis);
            }
            Ok(finish_rule(draft, *rule, *id))
        }
    }
}

/// The dependency that a text spells, wherever it stands: its number in the draft, or the text's first cause.
pub(crate) fn read_tree<'a>(draft: &mut Draft<'a>, text: &'a [u8]) -> Result<u8, DepFault>
    requires { draft.old ≡ [] }
    ensures ok { IfOk result (λ id. Ends draft.new id (reading (words text.now))) }
    ensures err { IfErr result (λ e. reading (words text.now) ≡ Err e) }
{
    let mut outer = Outer::new();
    let mut count = 0;
    let mut due = Due::Operand(Rule::Nothing);
    let mut rest = text;
    while let Some((word, behind)) = next_word(rest) {
        due = match step(draft, &mut outer, &mut count, &due, word) {
            Ok(next) => next,
            Err(fault) => return Err(fault),
        };
        rest = behind;
    }
    finish(draft, &outer, count, &due)
}
