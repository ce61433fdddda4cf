//! What a run reports besides the set: the trail, and what was learnt by the numbers of all hard rules' clauses, also of packages that nothing asks for.
use crate::run_tests::reported;
use crate::stage::{NONE, make_stage};
use solv_answers::Answer;
use solv_core::{Entry, Event};
use solv_derive::Hint;
use std::alloc::{AllocError, Global};
use std::test::Fail;

/// A script, the packages that the reported trail tells to be in, in order, and what was learnt: a clause, with the clauses of the hard rules that it follows by.
struct Case {
    script: &'static [u8],
    inside: &'static [i32],
    learnt: &'static [(&'static [i32], &'static [u32])],
}

/// What b (1) requires nothing provides, and nobody asks for b. The trail over all hard rules knows that it is out, which need not be told.
const OUT: Case = Case {
    script: b"repo a 0 testtags <inline>
#>=Pkg: b 1 1 x86_64
#>=Req: nosuch
system x86_64 rpm
",
    inside: &[],
    learnt: &[],
};

/// The same beside two of one name, the newer of which (2) is chosen.
const BESIDE: Case = Case {
    script: b"repo a 0 testtags <inline>
#>=Pkg: a 1 1 x86_64
#>=Pkg: a 2 1 x86_64
#>=Pkg: b 1 1 x86_64
#>=Req: nosuch
system x86_64 rpm
job install name a
",
    inside: &[2],
    learnt: &[],
};

/// A 2 conflicts with what provides v, so it is learnt that it is out: by its conflicts, clauses 1 and 2, and by the job for v, which is clause 7 among all hard rules, where clause
/// 3 says that b (5) is out.
const QUARRELS: Case = Case {
    script: b"repo available 0 testtags <inline>
#>=Pkg: A 1 1 noarch
#>=Pkg: A 2 1 noarch
#>=Con: x
#>=Con: y
#>=Pkg: x 1 1 noarch
#>=Prv: v
#>=Pkg: y 1 1 noarch
#>=Prv: v
#>=Pkg: b 1 1 noarch
#>=Con: x
#>=Con: y
#>=Req: nosuch
system x86_64 rpm
job install name A
job install provides v
",
    inside: &[1, 3],
    learnt: &[(&[-2], &[1, 2, 7])],
};

/// The literal that an event tells.
fn literal_of(event: &Event) -> i64 {
    match event {
        Event::Known(lit) => lit.number() as i64,
        Event::Took(_, pack) => pack.0 as i64,
    }
}

/// The packages that events tell to be in, in order.
fn told_in(alloc: Global, events: &[Event]) -> Result<Vec<i64>, AllocError> {
    let mut inside = Vec::new(alloc);
    for event in events {
        let literal = literal_of(event);
        if literal > 0 {
            inside.push(literal)?;
        }
    }
    Ok(inside)
}

/// Whether events tell these packages to be in.
fn are_told(alloc: Global, events: &[Event], packs: &[i32]) -> Result<bool, AllocError> {
    let inside = told_in(alloc, events)?;
    Ok(
        inside.len() == packs.len()
            && inside
                .iter()
                .zip(packs)
                .all(|(literal, pack)| *literal == *pack as i64),
    )
}

/// Whether a hint is at one of these clauses of the hard rules.
fn is_at(hint: &Hint, rules: &[u32]) -> bool {
    match hint {
        Hint::Book(number) => rules.contains(&number.0),
        Hint::Step(_) => false,
    }
}

/// Whether an entry has these literals, and follows by these clauses of the hard rules, whatever their order.
fn is_learnt(entry: &Entry, clause: &[i32], rules: &[u32]) -> bool {
    let (lits, hints) = (entry.clause.held(), entry.hints.held());
    lits.len() == clause.len()
        && lits
            .iter()
            .zip(clause)
            .all(|(lit, number)| lit.number() == *number)
        && hints.len() == rules.len()
        && hints.iter().all(|hint| is_at(hint, rules))
}

/// Whether a run reports this trail, and that this was learnt.
fn is_reported(alloc: Global, case: &Case) -> Result<bool, AllocError> {
    let mut on = make_stage(alloc, &[("case.t", case.script)], NONE)?;
    let report = reported(alloc, &["testsolv", "case.t"], &mut on)?;
    match (report.answers.held(), report.ledgers.held()) {
        ([Answer::Transaction { trail, .. }], [ledger]) => {
            let entries = ledger.entries.held();
            Ok(
                are_told(alloc, trail.events.held(), case.inside)?
                    && entries.len() == case.learnt.len()
                    && entries
                        .iter()
                        .zip(case.learnt)
                        .all(|(entry, (clause, rules))| is_learnt(entry, clause, rules)),
            )
        }
        _ => Ok(false),
    }
}

#[test]
fn trails_and_ledgers_are_of_all_hard_rules(rt: HostRuntime) -> Result<(), Fail> {
    for (place, case) in [OUT, BESIDE, QUARRELS].iter().enumerate() {
        assert!(rt; is_reported(rt.alloc(), case)?, "at {place}");
    }
    Ok(())
}
