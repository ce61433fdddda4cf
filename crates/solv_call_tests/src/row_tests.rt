//! Calls on texts and tasks that are written out: a dependency read and written, packages read, the index, rules and clauses of a small task, and what
//! may take the place of a package.
ghost use Rattle.std.specs.Prelude.{◌≡◌, ◌<◌, length, IfOk};
ghost use Rattle.std.specs.List.{list_all};
ghost use Rattle.solv_pool.specs.Prelude.{catalog_of, IsClosed, is_pack};
ghost use Rattle.solv_prov.specs.Index.{IsIndexOf};
ghost use Rattle.solv_answers.specs.Answers.{IsPrepared};

use crate::budget_tests::is_clause;
use crate::fixture::{are, make_ready, read};
use crate::memories::has_rules;
use solv_answers::Prepared;
use solv_list::Items;
use solv_pack::Lit;
use solv_policy::{Asked, policy_sort};
use solv_pool::{DepId, PackNo, Pool, Rule, Rules, SetNo, Task, Universe};
use solv_prov::Providers;
use solv_rich::clauses;
use solv_rules::Book;
use solv_tags::{DepFault, Place, dep_text, read_dep, read_testtags};
use solv_updates::{feature, infarch_rules, legal, update_rules};
use std::alloc::{AllocError, Global};
use std::test::Fail;

/// Texts of dependencies at their places, and what each is written as.
const WRITTEN: &[(Place, &str, &str)] = &[
    (Place::Requires, "(A & B) & (C | D)", "A & B & (C | D)"),
    (Place::Requires, "A & (B & C)", "A & (B & C)"),
    (Place::Requires, "lib.so.6()(64bit)", "lib.so.6()(64bit)"),
    (Place::Requires, "A <IF> (B <ELSE> C)", "A <IF> B <ELSE> C"),
    (Place::Requires, "(A & f(x ) | B", "(A & f(x ) | B"),
    (Place::Requires, "((A and B) or C)", "(A & B) | C"),
    (Place::Requires, "and and or", "and & or"),
    (
        Place::Conflicts,
        "A unless (B else C)",
        "A <UNLESS> B <ELSE> C",
    ),
    (
        Place::Requires,
        "((((((((((((((((((((((((((((((((((((((((((((((((((((((((((((((((A))))))))))))))))))))))))))))))))))))))))))))))))))))))))))))))))",
        "A",
    ),
    (
        Place::Requires,
        "A | A | A | A | A | A | A | A | A | A | A | A | A | A | A | A | A | A | A | A | A | A | A | A | A | A | A | A | A | A | A | A | A | A | A | A | A | A | A | A | A | A | A | A | A | A | A | A | A | A | A | A | A | A | A | A | A | A | A | A | A | A | A | A | A",
        "A | A | A | A | A | A | A | A | A | A | A | A | A | A | A | A | A | A | A | A | A | A | A | A | A | A | A | A | A | A | A | A | A | A | A | A | A | A | A | A | A | A | A | A | A | A | A | A | A | A | A | A | A | A | A | A | A | A | A | A | A | A | A | A | A",
    ),
];

/// Texts that are refused, each with its first cause.
const REFUSED: &[(Place, &str, DepFault)] = &[
    (Place::Requires, "A & B | C", DepFault::MixedOperators),
    (Place::Requires, "A >=", DepFault::MissingOperand),
    (Place::Requires, "(A", DepFault::UnclosedParenthesis),
    (Place::Requires, "A B", DepFault::BadOperator),
    (
        Place::Requires,
        "A | (B + (C & D))",
        DepFault::OperatorNotHere,
    ),
    (Place::Requires, "A unless B", DepFault::OperatorNotHere),
    (Place::Conflicts, "A if B", DepFault::OperatorNotHere),
    (
        Place::Requires,
        "(((((((((((((((((((((((((((((((((((((((((((((((((((((((((((((((((A)))))))))))))))))))))))))))))))))))))))))))))))))))))))))))))))))",
        DepFault::TooDeep,
    ),
    (
        Place::Requires,
        "A | A | A | A | A | A | A | A | A | A | A | A | A | A | A | A | A | A | A | A | A | A | A | A | A | A | A | A | A | A | A | A | A | A | A | A | A | A | A | A | A | A | A | A | A | A | A | A | A | A | A | A | A | A | A | A | A | A | A | A | A | A | A | A | A | A",
        DepFault::TooDeep,
    ),
];

/// What a text at a place is written as, or why it is refused.
fn written(
    alloc: Global,
    place: Place,
    text: &str,
) -> Result<Result<Vec<u8>, DepFault>, AllocError> {
    let mut pool = Pool::new(alloc);
    match read_dep(&mut pool, text.as_bytes(), place) {
        Ok(dep) => {
            let mut into = Vec::new(alloc);
            dep_text(&pool, dep, &mut into)?;
            Ok(Ok(into))
        }
        Err(fault) => Ok(Err(fault)),
    }
}

/// Whether a text is read, and written so.
fn is_written(alloc: Global, place: Place, text: &str, want: &str) -> Result<bool, AllocError> {
    match written(alloc, place, text)? {
        Ok(bytes) => Ok(bytes.as_slice() == want.as_bytes()),
        Err(_) => Ok(false),
    }
}

/// Whether a text is refused so.
fn is_refused(alloc: Global, place: Place, text: &str, want: DepFault) -> Result<bool, AllocError> {
    match written(alloc, place, text)? {
        Ok(_) => Ok(false),
        Err(fault) => Ok(fault == want),
    }
}

#[test]
fn dependencies_are_read_and_written(rt: HostRuntime) -> Result<(), Fail> {
    for (place, text, want) in WRITTEN {
        assert!(rt; is_written(rt.alloc(), *place, text, want)?, "{text}");
    }
    for (place, text, want) in REFUSED {
        assert!(rt; is_refused(rt.alloc(), *place, text, *want)?, "{text}");
    }
    Ok(())
}

/// Whether the one package has this text, and requires b beforehand and nothing else.
fn is_package_a(alloc: Global, pool: &Pool, universe: &Universe) -> Result<bool, AllocError> {
    if universe.count() != 1 {
        return Ok(false);
    }
    let needs = universe.package(PackNo(1)).requires_();
    match needs {
        [need] => {
            let mut text = Vec::new(alloc);
            if need.dep.0 as usize >= pool.relation_count() {
                return Ok(false);
            }
            dep_text(pool, need.dep, &mut text)?;
            Ok(need.pre && text.as_slice() == b"b".as_slice())
        }
        _ => Ok(false),
    }
}

/// Whether a package with `=Req:` and `=Prq:` of one name is read so.
fn reads_package_a(alloc: Global) -> Result<bool, AllocError> {
    let mut pool = Pool::new(alloc);
    let mut universe = Universe::new(alloc);
    let Ok(name) = pool.intern(b"r") else {
        return Err(AllocError);
    };
    let Ok(repo) = universe.add_repo(name, 0) else {
        return Err(AllocError);
    };
    let lines = b"=Pkg: A 1 - noarch\n=Req: b\n=Prq: b\n";
    if read_testtags(&mut pool, &mut universe, lines, repo).is_err() {
        return Ok(false);
    }
    let mut text = Vec::new(alloc);
    if universe.count() == 1 {
        universe.package_text(&pool, PackNo(1), &mut text)?;
    }
    Ok(text.as_slice() == b"A-1.noarch@r".as_slice() && is_package_a(alloc, &pool, &universe)?)
}

#[test]
fn a_requirement_that_is_once_pre_is_pre(rt: HostRuntime) -> Result<(), Fail> {
    assert!(rt; reads_package_a(rt.alloc())?);
    Ok(())
}

/// A (1) requires lib >= 2, which lib 2-1 (3) and an unversioned provide (4) meet, and lib 1-1 (2) does not.
const LIBRARIES: &str = "repo system 0 empty
repo available 0 testtags <inline>
#>=Pkg: A 1 1 noarch
#>=Req: lib >= 2
#>=Pkg: lib 1 1 noarch
#>=Pkg: lib 2 1 noarch
#>=Pkg: other 1 1 noarch
#>=Prv: lib
system x86_64 rpm system
";

/// A package that conflicts with what it provides itself.
const AGAINST_ITSELF: &str = "repo system 0 empty
repo available 0 testtags <inline>
#>=Pkg: P 1 1 noarch
#>=Prv: x
#>=Con: x
system x86_64 rpm system
";

/// Whether the index and the book of the libraries are these.
fn has_libraries(task: &Task, prepared: &Prepared<'_>) -> bool
    requires { IsPrepared task.now prepared.now }
{
    if task.pool.relation_count() == 0 {
        return false;
    }
    let dep = DepId(0);
    let rules = [Rule::Req(PackNo(1), dep), Rule::Same(PackNo(2), PackNo(3))];
    are(prepared.prov.of(dep), &[3, 4])
        && prepared.book.rules().list.held() == rules.as_slice()
        && prepared.book.owners() == [0, 1].as_slice()
        && prepared.book.words() == 13
        && has_rules(prepared.book.memory(), &[(0, &[-1, 3, 4]), (1, &[-2, -3])])
}

/// Whether a book has no rule, and no clause.
fn is_empty(book: &Book) -> bool {
    book.rules().list.held().is_empty() && book.owners().is_empty() && book.words() == 0
}

#[test]
fn a_requirement_and_a_name_in_common_are_two_rules(rt: HostRuntime) -> Result<(), Fail> {
    let task = read(rt.alloc(), LIBRARIES)?;
    let prov = Providers::build(rt.alloc(), &task)?;
    let prepared = make_ready(rt.alloc(), &task, &prov)?;
    assert!(rt; has_libraries(&task, &prepared));
    Ok(())
}

#[test]
fn what_conflicts_with_itself_is_no_rule(rt: HostRuntime) -> Result<(), Fail> {
    let task = read(rt.alloc(), AGAINST_ITSELF)?;
    let prov = Providers::build(rt.alloc(), &task)?;
    let prepared = make_ready(rt.alloc(), &task, &prov)?;
    assert!(rt; is_empty(&prepared.book));
    Ok(())
}

/// Whether these are packages of the task, and none is the system.
fn are_in_repositories(task: &Task, packs: &[PackNo]) -> bool
    ensures { result ≡ list_all (is_pack (length task.now.universe.packages)) packs.now }
{
    let count = task.universe.count();
    packs.iter().all(|pack| 0 < pack.0 && pack.0 <= count)
}

/// Whether two candidates of a question other than that of keeping a package are put in this order.
fn are_sorted(
    alloc: Global,
    task: &Task,
    prepared: &Prepared<'_>,
    given: [u32; 2],
    want: &[u32],
) -> Result<bool, AllocError>
    requires closed { IsClosed task.now }
    requires prepared { IsPrepared task.now prepared.now }
{
    let mut packs = [PackNo(given[0]), PackNo(given[1])];
    if !are_in_repositories(task, &packs) {
        return Ok(false);
    }
    let (prov, marks) = (prepared.prov, &prepared.marks);
    policy_sort(alloc, task, prov, marks, Asked::Other, &mut packs)?;
    Ok(are(&packs, want))
}

/// The name that comes first wins, also where a package of another one stands first.
#[test]
fn names_are_sorted_as_they_come(rt: HostRuntime) -> Result<(), Fail> {
    let task = read(rt.alloc(), LIBRARIES)?;
    let prov = Providers::build(rt.alloc(), &task)?;
    let prepared = make_ready(rt.alloc(), &task, &prov)?;
    assert!(rt; are_sorted(rt.alloc(), &task, &prepared, [4, 3], &[3, 4])?);
    Ok(())
}

/// R (1) requires A and B in one package: p1 (2) provides A, p2 (3) B, and p3 (4) both.
const BOTH: &str = "repo system 0 empty
repo available 0 testtags <inline>
#>=Pkg: R 1 1 noarch
#>=Req: A + B
#>=Pkg: p1 1 1 noarch
#>=Prv: A
#>=Pkg: p2 1 1 noarch
#>=Prv: B
#>=Pkg: p3 1 1 noarch
#>=Prv: A
#>=Prv: B
system x86_64 rpm system
job install name R
";

/// Whether literals stand in clauses that end so.
fn are_clauses(lits: &[Lit], ends: &[usize], numbers: &[i32], want: &[usize]) -> bool {
    is_clause(lits, numbers) && ends == want
}

/// Whether the clauses of a dependency, or of its negation, have these literals and end so, with no package left out.
fn becomes(
    alloc: Global,
    task: &Task,
    prov: &Providers,
    dep: DepId,
    positive: bool,
    numbers: &[i32],
    want: &[usize],
) -> Result<bool, AllocError>
    requires index { IsIndexOf prov.now (catalog_of task.now) }
    requires held { dep < length task.now.pool.nodes }
{
    let mut lits = Vec::new(alloc);
    let mut ends = Vec::new(alloc);
    match clauses(task, prov, dep, positive, None, &mut lits, &mut ends) {
        Ok(()) => Ok(are_clauses(&lits, &ends, numbers, want)),
        Err(_) => Ok(false),
    }
}

/// The relation of a requirement, which is entered where it is new. One that is refused counts as running out of memory, which fails a test.
fn relation_of(pool: &mut Pool, text: &[u8]) -> Result<DepId, AllocError>
    ensures { IfOk result (λ id. id < length pool.new.nodes) }
{
    match read_dep(pool, text, Place::Requires) {
        Ok(dep) => Ok(dep),
        Err(_) => Err(AllocError),
    }
}

/// Which packages meet `A + B` alone.
#[test]
fn one_package_has_both(rt: HostRuntime) -> Result<(), Fail> {
    let mut task = read(rt.alloc(), BOTH)?;
    let dep = relation_of(&mut task.pool, b"A + B")?;
    let prov = Providers::build(rt.alloc(), &task)?;
    assert!(rt; are(prov.of(dep), &[4]));
    Ok(())
}

/// The clauses of `A & B`, and of its negation: a literal that stands twice in a clause is there once.
#[test]
fn two_dependencies_become_clauses(rt: HostRuntime) -> Result<(), Fail> {
    let mut task = read(rt.alloc(), BOTH)?;
    let dep = relation_of(&mut task.pool, b"A & B")?;
    let prov = Providers::build(rt.alloc(), &task)?;
    let held = [2, 4, 3, 4].as_slice();
    assert!(rt; becomes(rt.alloc(), &task, &prov, dep, true, held, &[2, 4])?);
    let not_held = [-2, -3, -2, -4, -4, -3, -4].as_slice();
    assert!(rt;
        becomes(
            rt.alloc(),
            &task,
            &prov,
            dep,
            false,
            not_held,
            &[2, 4, 6, 7]
        )?
    );
    Ok(())
}

/// A 2-1 (1) is installed, and a job asks for A 1-1 (2) by its version.
const ASKED_DOWNGRADE: &str = "repo system 0 testtags <inline>
#>=Pkg: A 2 1 noarch
repo available 0 testtags <inline>
#>=Pkg: A 1 1 noarch
system x86_64 rpm system
job install name A = 1
";

const FREE_DOWNGRADE: &str = "repo system 0 testtags <inline>
#>=Pkg: A 2 1 noarch
repo available 0 testtags <inline>
#>=Pkg: A 1 1 noarch
system x86_64 rpm system
solverflags allowdowngrade
job install name A = 1
";

/// No rule yet.
fn no_rules(alloc: Global) -> Rules {
    Rules {
        list: Items::wrap(Vec::new(alloc)),
        sets: Items::wrap(Vec::new(alloc)),
    }
}

/// Whether these packages may take the place of the installed one by the flags, and its one rule is that it stays or the older one comes.
fn may_be_replaced(
    alloc: Global,
    task: &Task,
    prepared: &Prepared<'_>,
    by_flags: &[u32],
) -> Result<bool, AllocError>
    requires closed { IsClosed task.now }
    requires prepared { IsPrepared task.now prepared.now }
{
    if task.universe.count() != 2 {
        return Ok(false);
    }
    let (prov, marks) = (prepared.prov, &prepared.marks);
    let all = feature(alloc, task, prov, marks, PackNo(1))?;
    let allowed = legal(alloc, task, prov, marks, PackNo(1))?;
    let mut rules = no_rules(alloc);
    update_rules(alloc, task, prov, marks, &mut rules)?;
    let is_feature = rules.list.held() == [Rule::Feature(PackNo(1), SetNo(0))].as_slice();
    let has_both = match rules.sets.held() {
        [set] => are(set.held(), &[1, 2]),
        _ => false,
    };
    Ok(are(&all, &[2]) && are(&allowed, by_flags) && is_feature && has_both)
}

#[test]
fn flags_let_packages_take_a_place(rt: HostRuntime) -> Result<(), Fail> {
    for (script, by_flags) in [
        (ASKED_DOWNGRADE, [].as_slice()),
        (FREE_DOWNGRADE, [2].as_slice()),
    ] {
        let task = read(rt.alloc(), script)?;
        let prov = Providers::build(rt.alloc(), &task)?;
        let prepared = make_ready(rt.alloc(), &task, &prov)?;
        assert!(rt; may_be_replaced(rt.alloc(), &task, &prepared, by_flags)?);
    }
    Ok(())
}

/// A of i686 (1) and of x86_64 (2), and whether architectures count.
const INFERIOR: &str = "repo system 0 empty
repo available 0 testtags <inline>
#>=Pkg: A 1 1 i686
#>=Pkg: A 1 1 x86_64
system x86_64 rpm system
";

const NOT_LOOKED_AT: &str = "repo system 0 empty
repo available 0 testtags <inline>
#>=Pkg: A 1 1 i686
#>=Pkg: A 1 1 x86_64
system x86_64 rpm system
solverflags noinfarchcheck
";

/// Whether these are the rules on inferior architectures.
fn has_inferior(
    alloc: Global,
    task: &Task,
    prepared: &Prepared<'_>,
    want: &[Rule],
) -> Result<bool, AllocError>
    requires closed { IsClosed task.now }
    requires prepared { IsPrepared task.now prepared.now }
{
    let mut rules = no_rules(alloc);
    infarch_rules(alloc, task, prepared.prov, &prepared.marks, &mut rules)?;
    Ok(rules.list.held() == want)
}

/// Whether these are the rules on inferior architectures of a script.
fn are_inferior(alloc: Global, script: &str, want: &[Rule]) -> Result<bool, Fail> {
    let task = read(alloc, script)?;
    let prov = Providers::build(alloc, &task)?;
    let prepared = make_ready(alloc, &task, &prov)?;
    Ok(has_inferior(alloc, &task, &prepared, want)?)
}

#[test]
fn inferior_architectures_are_rules(rt: HostRuntime) -> Result<(), Fail> {
    let lower = [Rule::Infarch(PackNo(1))];
    let want = lower.as_slice();
    assert!(rt; are_inferior(rt.alloc(), INFERIOR, want)?);
    assert!(rt; are_inferior(rt.alloc(), NOT_LOOKED_AT, &want[..0])?);
    Ok(())
}
