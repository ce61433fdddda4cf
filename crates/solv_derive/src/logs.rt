//! Derivations.
use solv_list::Items;
use solv_pack::{Lit, RuleNo};

/// What a step rests on: a rule of the book, or an earlier step, by its place in the log.
#[derive(Clone, Copy, PartialEq, Eq, Debug)]
pub enum Hint {
    Book(RuleNo),
    Step(usize),
}

/// A clause, and the hints along which its negation leads to a conflict, in order.
#[derive(Drop, PartialEq, Debug)]
pub struct Step {
    pub clause: Items<Lit>,
    pub hints: Items<Hint>,
}

/// Steps, each of which may rest on those before it.
#[derive(Drop, PartialEq, Debug)]
pub struct Log {
    pub steps: Items<Step>,
}

/// What a check answers.
#[derive(Clone, Copy, PartialEq, Eq, Debug)]
pub enum Checked {
    /// The log is good.
    Yes,
    /// The step of this number is the first that is not good. The number of steps: each is good, and no empty clause ends them.
    No(usize),
}
