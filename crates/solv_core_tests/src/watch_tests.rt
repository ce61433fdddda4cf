ghost use Rattle.std.specs.Prelude.{◌≡◌, ⊤, length, IfOk};
ghost use Rattle.solv_core_tests.specs.FollowedByHand.{chain, four, asks_for_one, IsNone};

use solv_pack::{Lit, PackFault, RuleMem};
use solv_pool::PackNo;
use solv_trail::{Ask, Guide, Known, Question, Remembering};
use solv_watch::*;
use std::alloc::Global;
use std::test::Fail;

fn book_of_chain(alloc: Global) -> Result<RuleMem, PackFault>
    ensures { IfOk result (λ book. book.rules ≡ chain) }
{
    let mut book = RuleMem::new(alloc);
    book.push(&[Lit::new(1)])?;
    book.push(&[Lit::new(-1), Lit::new(2)])?;
    book.push(&[Lit::new(-2), Lit::new(3)])?;
    book.push(&[Lit::new(-3), Lit::new(-1)])?;
    Ok(book)
}

fn book_of_four(alloc: Global) -> Result<RuleMem, PackFault>
    ensures { IfOk result (λ book. book.rules ≡ four) }
{
    let mut book = RuleMem::new(alloc);
    book.push(&[Lit::new(1), Lit::new(2)])?;
    book.push(&[Lit::new(1), Lit::new(-2)])?;
    book.push(&[Lit::new(-1), Lit::new(3)])?;
    book.push(&[Lit::new(-1), Lit::new(-3)])?;
    Ok(book)
}

/// Whether these literals are known and no other.
fn knows(known: &Known, numbers: &[i32]) -> bool {
    known.len() == numbers.len()
        && numbers.iter().all(|number| {
            let pack = PackNo(number.unsigned_abs());
            if *number > 0 {
                known.is_in(pack)
            } else {
                known.is_out(pack)
            }
        })
}

/// What the chain forces, and whether a rule of it is falsified.
fn propagated(alloc: Global, enabled: &[bool]) -> Result<(Known, bool), Fail>
    requires { length enabled.now ≡ 4 }
{
    let book = book_of_chain(alloc)?;
    let mut watches = Watches::over(alloc, &book, 3)?;
    let learnt = RuleMem::new(alloc);
    let mut known = Known::new(alloc, 3)?;
    let owners = [0, 1, 2, 3];
    let clash = propagate(&mut known, &book, &learnt, &mut watches, &owners, enabled);
    Ok((known, clash.is_some()))
}

#[test]
fn literals_are_forced(rt: HostRuntime) -> Result<(), Fail> {
    let table: [(&[bool], &[i32]); 4] = [
        (&[true, true, true, false], &[1, 2, 3]),
        (&[false, true, true, true], &[]),
        (&[true, false, true, true], &[1, -3, -2]),
        (&[true, true, false, true], &[1, 2, -3]),
    ];
    for (enabled, wanted) in table {
        assert!(rt; enabled.len() == 4);
        let (known, clash) = propagated(rt.alloc(), enabled)?;
        assert!(rt; !clash && knows(&known, wanted));
    }
    let (_, clash) = propagated(rt.alloc(), &[true, true, true, true])?;
    assert!(rt; clash);
    Ok(())
}

/// Asks for package 1, and then for nothing. It is for no number of packages, so its law says nothing.
struct OnePackage;

impl Guide for OnePackage {
    ghost is_for = { λ guide clauses owners. IsNone clauses };

    ghost is_for_packages = { λ guide count. ⊥ };

    ghost asks = { λ guide known enabled. asks_for_one known };

    fn next(&self, known: &Known, enabled: &[bool]) -> Option<Ask> {
        let _ = enabled;
        let pack = PackNo(1);
        if known.is_in(pack) || known.is_out(pack) {
            return None;
        }
        Some(Ask {
            pack,
            question: Question::Keep(pack),
        })
    }

    ghost keeps_law = { λ guide count clauses owners enabled none some. absurd some };
}

impl Remembering for OnePackage {
    type Memory = ();

    ghost serves = { λ guide memory lits. ⊤ };

    fn begin(&self, known: &Known) {
        let _ = known;
    }

    fn next_remembering(&self, memory: &mut (), known: &Known, enabled: &[bool]) -> Option<Ask> {
        let _ = memory;
        self.next(known, enabled)
    }

    fn end(&self, memory: ()) {
        memory
    }

    ghost keeps_serving = { λ guide memory before after grown serves. tt };
}

/// What is known where package 1 is taken, and whether a rule is falsified.
fn descended(alloc: Global, enabled: &[bool]) -> Result<(Known, bool), Fail>
    requires { length enabled.now ≡ 4 }
{
    let book = book_of_four(alloc)?;
    let mut watches = Watches::over(alloc, &book, 3)?;
    let learnt = RuleMem::new(alloc);
    let mut known = Known::new(alloc, 3)?;
    let owners = [0, 1, 2, 3];
    let clash = descend(
        &mut known,
        &book,
        &learnt,
        &mut watches,
        &owners,
        enabled,
        &OnePackage,
    );
    Ok((known, clash.is_some()))
}

/// Where the first choice stands, and what was asked.
fn first_choice(known: &Known) -> Option<(usize, Question)> {
    if known.choices() == 0 {
        return None;
    }
    Some((known.mark_at(0), known.question_at(0)))
}

#[test]
fn one_package_is_taken(rt: HostRuntime) -> Result<(), Fail> {
    let table: [(&[bool], bool, &[i32]); 4] = [
        (&[true, true, true, true], true, &[]),
        (&[false, false, true, true], true, &[]),
        (&[true, true, true, false], false, &[1, 3]),
        (&[false, true, false, false], false, &[1]),
    ];
    for (enabled, wanted, literals) in table {
        assert!(rt; enabled.len() == 4);
        let (known, clash) = descended(rt.alloc(), enabled)?;
        assert_eq!(rt; clash, wanted);
        assert!(rt; clash || knows(&known, literals));
        assert!(rt; known.is_in(PackNo(1)));
        assert_eq!(rt; first_choice(&known), Some((0, Question::Keep(PackNo(1)))));
    }
    Ok(())
}

/// Two learnt rules are added, the second with fewer than two literals, and forgotten.
#[test]
fn learnt_rules_are_hung_and_forgotten(rt: HostRuntime) -> Result<(), Fail> {
    let book = RuleMem::new(rt.alloc());
    let mut watches = Watches::over(rt.alloc(), &book, 3)?;
    let chains = &mut watches.learnt;
    chains.links.reserve(2)?;
    chains.watched.reserve(4)?;
    chains.link_next();
    chains.add(0, Lit::new(1), Lit::new(-2));
    chains.pass();
    assert_eq!(rt;
        (chains.heads[2], chains.heads[5], chains.watched.len()),
        (0, 1, 4)
    );
    chains.forget();
    let nowhere = chains.heads.iter().all(|head| *head == u32::MAX);
    assert_eq!(rt; (nowhere, chains.watched.len()), (true, 0));
    Ok(())
}
