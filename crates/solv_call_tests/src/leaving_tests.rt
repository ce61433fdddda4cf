//! Which packages are left out of an answer, since nothing can ask for them.
use crate::fixture::read;
use solv_clean::clean_marks;
use solv_jobs::read_marks;
use solv_leaving::left_out;
use solv_prov::Providers;
use std::alloc::{AllocError, Global};
use std::test::Fail;

/// A script, and the numbers of the packages that are left out.
type Case = (&'static str, &'static [u32]);

/// Nothing asks for b (1).
const UNASKED: Case = (
    "repo a 0 testtags <inline>
#>=Pkg: b 1 1 noarch
#>=Req: nosuch
system x86_64 rpm
",
    &[1],
);

/// What a job selects (1), and what this requires (2, 3) or recommends (4), stays, and what nothing asks for (5) does not.
const ASKED: Case = (
    "repo a 0 testtags <inline>
#>=Pkg: a 1 1 noarch
#>=Req: v
#>=Rec: r
#>=Pkg: c 1 1 noarch
#>=Prv: v
#>=Pkg: d 1 1 noarch
#>=Prv: v
#>=Pkg: r 1 1 noarch
#>=Pkg: o 1 1 noarch
#>=Req: a
system x86_64 rpm
job install name a
",
    &[5],
);

/// An erase job asks for nothing.
const ERASED: Case = (
    "repo a 0 testtags <inline>
#>=Pkg: a 1 1 noarch
#>=Pkg: b 1 1 noarch
system x86_64 rpm
job erase name a
",
    &[1, 2],
);

/// What is installed (1), of its name (2), or obsoletes it (3) stays, and what these require (4).
const INSTALLED: Case = (
    "repo s 0 testtags <inline>
#>=Pkg: p 1 1 noarch
repo a 0 testtags <inline>
#>=Pkg: p 2 1 noarch
#>=Pkg: q 1 1 noarch
#>=Obs: p
#>=Req: t
#>=Pkg: t 1 1 noarch
#>=Pkg: o 1 1 noarch
system x86_64 rpm s
",
    &[5],
);

/// What supplements something (2) stays, and what it requires (3).
const SUPPLEMENTED: Case = (
    "repo a 0 testtags <inline>
#>=Pkg: a 1 1 noarch
#>=Pkg: s 1 1 noarch
#>=Sup: a
#>=Req: t
#>=Pkg: t 1 1 noarch
system x86_64 rpm
",
    &[1],
);

/// A condition may ask for each of its parts (2, 3, 4), and for no other package (5).
const UNDER_ELSE: Case = (
    "repo a 0 testtags <inline>
#>=Pkg: a 1 1 noarch
#>=Req: b <IF> c <ELSE> d
#>=Pkg: b 1 1 noarch
#>=Pkg: c 1 1 noarch
#>=Pkg: d 1 1 noarch
#>=Pkg: o 1 1 noarch
system x86_64 rpm
job install name a
",
    &[5],
);

/// One that nothing asks for has such a condition (2), and all others are left out but what it may ask for (3, 4, 5).
const FAR_AWAY: Case = (
    "repo a 0 testtags <inline>
#>=Pkg: a 1 1 noarch
#>=Pkg: lone 1 1 noarch
#>=Req: b <IF> c <ELSE> d
#>=Pkg: b 1 1 noarch
#>=Pkg: c 1 1 noarch
#>=Pkg: d 1 1 noarch
#>=Pkg: o 1 1 noarch
#>=Pkg: u 1 1 noarch
system x86_64 rpm
job install name a
",
    &[6, 7],
);

/// A conflict with several packages together asks that one of them goes, so both stay (2, 3); a conflict with one does not (4).
const QUARRELLING: Case = (
    "repo a 0 testtags <inline>
#>=Pkg: a 1 1 noarch
#>=Con: b & c
#>=Con: d
#>=Pkg: b 1 1 noarch
#>=Pkg: c 1 1 noarch
#>=Pkg: d 1 1 noarch
system x86_64 rpm
job install name a
",
    &[4],
);

/// So does what is required of what stays, over several packages.
const FOLLOWED: Case = (
    "repo a 0 testtags <inline>
#>=Pkg: a 1 1 noarch
#>=Req: b
#>=Pkg: b 1 1 noarch
#>=Req: c
#>=Pkg: c 1 1 noarch
#>=Req: d | e
#>=Pkg: d 1 1 noarch
#>=Pkg: e 1 1 noarch
#>=Pkg: f 1 1 noarch
#>=Req: g
#>=Pkg: g 1 1 noarch
system x86_64 rpm
job install name a
",
    &[6, 7],
);

/// An install job by what packages provide asks for each of them (1, 2).
const PROVIDED: Case = (
    "repo a 0 testtags <inline>
#>=Pkg: a 1 1 noarch
#>=Prv: v
#>=Pkg: b 1 1 noarch
#>=Prv: v
#>=Pkg: c 1 1 noarch
system x86_64 rpm
job install provides v
",
    &[3],
);

const CASES: &[Case] = &[
    UNASKED,
    ASKED,
    ERASED,
    INSTALLED,
    SUPPLEMENTED,
    UNDER_ELSE,
    FAR_AWAY,
    QUARRELLING,
    FOLLOWED,
    PROVIDED,
];

/// Whether a package is marked in a table.
fn is_marked(table: &[bool], pack: u32) -> bool {
    match table.get(pack as usize) {
        Some(marked) => *marked,
        None => false,
    }
}

/// Whether just these of so many packages are marked in a table.
fn are_marked(table: &[bool], packs: &[u32], count: u32) -> bool {
    for before in 0..count {
        let pack = before + 1;
        if is_marked(table, pack) != packs.contains(&pack) {
            return false;
        }
    }
    !is_marked(table, 0)
}

/// Whether just these packages are left out of the answer to a script.
fn leaves_out(alloc: Global, script: &str, packs: &[u32]) -> Result<bool, AllocError> {
    let task = read(alloc, script)?;
    let prov = Providers::build(alloc, &task)?;
    let mut marks = read_marks(alloc, &task, &prov)?;
    clean_marks(alloc, &task, &prov, &mut marks)?;
    let left = left_out(alloc, &task, &prov, &marks)?;
    Ok(are_marked(&left, packs, task.universe.count()))
}

#[test]
fn what_nothing_can_ask_for_is_left_out(rt: HostRuntime) -> Result<(), Fail> {
    for (place, (script, packs)) in CASES.iter().enumerate() {
        assert!(rt; leaves_out(rt.alloc(), script, packs)?, "at {place}");
    }
    Ok(())
}
