//! The rules that open parentheses interrupt.

use crate::sign::{Conditional, Joint};
use std::marker::Model;

/// What stands before the operand in hand, in its parentheses.
#[derive(Clone, Copy, PartialEq, Eq, Debug)]
pub(crate) enum Rule {
    /// Nothing: the operand is the first.
    Nothing,
    /// `A &`, or the same with `|` or `+`.
    Chain(Joint, u8),
    /// `A -`
    Difference(u8),
    /// `A <IF>`, or the same with `<UNLESS>`.
    Condition(Conditional, u8),
    /// `A <IF> B <ELSE>`, or the same with `<UNLESS>`.
    Else(Conditional, u8, u8),
    /// `B <ELSE>`, in the parentheses after `A <IF>` or `A <UNLESS>`.
    InnerElse(Conditional, u8, u8),
}

/// At most 64 rules, the innermost first.
#[derive(Drop)]
pub(crate) struct Outer {
    rules: [Rule; 64],
    top: usize,
}

impl Model for Outer {
    ghost use Rattle.std.specs.Prelude.{List, drop, ◌≤◌};
    ghost use Rattle.solv_deps.specs.declared.outer.Rule.{Rule};

    ghost Value = { List Rule };

    ghost view = { λ o. drop o.top o.rules };

    ghost invariant = { λ o. o.top ≤ 64 };
}

impl Outer {
    ghost use Rattle.std.specs.Prelude.{slice_get, ◌≡◌, ◌<◌, ◌∷◌, [], length, List, IfSome, IfNone, option_map};

    pub(crate) fn new() -> Outer
        ensures { result ≡ [] }
    {
        Outer {
            rules: [Rule::Nothing; 64],
            top: 64,
        }
    }

    pub(crate) fn depth(&self) -> usize
        ensures { result ≡ length self.now }
    {
        let rules = &self.rules[..];
        rules[self.top..].len()
    }

    pub(crate) fn top(&self) -> Option<Rule>
        ensures { result ≡ slice_get self.now 0 }
    {
        let rules = &self.rules[..];
        rules[self.top..].first().copied()
    }

    pub(crate) fn push(&mut self, rule: Rule)
        requires { length self.old < 64 }
        ensures { self.new ≡ rule ∷ self.old }
    {
        self.top -= 1;
        self.rules[self.top] = rule;
    }

    pub(crate) fn pop(&mut self) -> Option<Rule>
        ensures some { IfSome result (λ rule. self.old ≡ rule ∷ self.new) }
        ensures none { IfNone result ((self.old ≡ []) × (self.new ≡ [])) }
    {
        if self.top >= 64 {
            return None;
        }
        let rule = self.rules[self.top];
        self.top += 1;
        Some(rule)
    }
}
