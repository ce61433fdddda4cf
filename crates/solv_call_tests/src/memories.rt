//! Packed rules of numbers.
use solv_pack::{Lit, RuleMem, RuleNo};
use std::alloc::{AllocError, Global};

/// The literals of these numbers, which name packages.
pub(crate) fn literals(alloc: Global, numbers: &[i32]) -> Result<Vec<Lit>, AllocError> {
    let mut lits = Vec::new(alloc);
    for number in numbers {
        if *number != 0 && number.unsigned_abs() < 1_048_576 {
            lits.push(Lit::new(*number))?;
        }
    }
    Ok(lits)
}

/// Puts a rule of these literals. One that is refused counts as running out of memory, which fails a test.
pub(crate) fn push(memory: &mut RuleMem, lits: &[Lit]) -> Result<RuleNo, AllocError> {
    if lits.len() > 1_000_000 {
        return Err(AllocError);
    }
    match memory.push(lits) {
        Ok(rule) => Ok(rule),
        Err(_) => Err(AllocError),
    }
}

/// A memory of these rules.
pub(crate) fn memory_of(alloc: Global, rules: &[&[i32]]) -> Result<RuleMem, AllocError> {
    let mut memory = RuleMem::new(alloc);
    for numbers in rules {
        let lits = literals(alloc, numbers)?;
        push(&mut memory, &lits)?;
    }
    Ok(memory)
}

/// Whether a rule has these literals.
fn is_rule(memory: &RuleMem, rule: usize, numbers: &[i32]) -> bool {
    if rule >= memory.len() || rule > 1_000_000 {
        return false;
    }
    let lits = memory.lits(RuleNo(rule as u32));
    lits.len() == numbers.len()
        && lits
            .iter()
            .zip(numbers)
            .all(|(lit, number)| lit.number() == *number)
}

/// Whether a memory has these rules at these places.
pub(crate) fn has_rules(memory: &RuleMem, rules: &[(usize, &[i32])]) -> bool {
    rules
        .iter()
        .all(|(rule, numbers)| is_rule(memory, *rule, numbers))
}
