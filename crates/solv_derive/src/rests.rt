//! What a log rests on.
ghost use Rattle.std.specs.Prelude.{◌≡◌, ◌++◌, IfOk, OnOk};
ghost use Rattle.solv_derive.specs.Leaves.{leaves as leaves_of, named_rules as names_of};
ghost use Rattle.solv_derive.specs.Inner.Leaves.{rules_of};

use crate::logs::{Hint, Log, Step};
use solv_pack::RuleNo;
use std::alloc::{AllocError, Global};

/// Appends the rules that hints name.
fn add_rules(rules: &mut Vec<RuleNo>, hints: &[Hint]) -> Result<(), AllocError>
    ensures { OnOk result (rules.new.items ≡ rules.old.items ++ rules_of hints.now) }
{
    for hint in hints {
        if let Hint::Book(rule) = hint {
            rules.push(*rule)?;
        }
    }
    Ok(())
}

/// The rules that the hints of steps name, step by step.
fn named_rules(alloc: Global, steps: &[Step]) -> Result<Vec<RuleNo>, AllocError>
    ensures { IfOk result (λ rules. rules.items ≡ names_of steps.now) }
{
    let mut rules = Vec::new(alloc);
    for step in steps {
        add_rules(&mut rules, step.hints.held())?;
    }
    Ok(rules)
}

/// The rules of the book that the hints of a log name, ascending, each once.
pub fn leaves(alloc: Global, log: &Log) -> Result<Vec<RuleNo>, AllocError>
    ensures { IfOk result (λ rules. rules.items ≡ leaves_of log.now.steps) }
{
    let mut rules = named_rules(alloc, log.steps.held())?;
    rules.sort_unstable();
    rules.dedup();
    Ok(rules)
}
