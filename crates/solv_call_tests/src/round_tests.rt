//! Calls on the rounds of a script.
use crate::fixture::{make_ready, read_rounds};
use solv_list::{Bytes, Items};
use solv_pool::{Flags, Job};
use solv_prov::Providers;
use solv_rounds::{prepare_in_turn, prepare_round, to_front};
use solv_rules::BookFault;
use solv_script::{Kinds, Round, Script};
use std::alloc::{AllocError, Global};
use std::test::Fail;

/// A (1) is installed, and B (2) is not. The first round has a job and expects a line; the second one sets a flag and has two jobs; the third keeps
/// the flag, has no job, asks for the order, and expects no line.
const THREE_ROUNDS: &str = "repo system 0 testtags <inline>
#>=Pkg: A 1 1 noarch
repo available 0 testtags <inline>
#>=Pkg: B 1 1 noarch
system x86_64 rpm system
job install name B
result transaction <inline>
#>install B-1-1.noarch@available
nextjob
solverflags allowdowngrade
job erase name A
job noop
nextjob
result order <inline>
";

/// What distinguishes these rounds: how many jobs there are, whether the flag is set, whether the order is asked for, and how many lines are
/// expected.
#[derive(Clone, Copy, PartialEq, Eq)]
struct Face {
    jobs: usize,
    downgrades: bool,
    orders: bool,
    wanted: Option<usize>,
}

const ONE: Face = Face {
    jobs: 1,
    downgrades: false,
    orders: false,
    wanted: Some(1),
};

const TWO: Face = Face {
    jobs: 2,
    downgrades: true,
    orders: false,
    wanted: None,
};

const THREE: Face = Face {
    jobs: 0,
    downgrades: true,
    orders: true,
    wanted: Some(0),
};

/// The face of a round.
fn face_of(flags: &Flags, jobs: &Items<Job>, kinds: &Kinds, wanted: &Option<Items<Bytes>>) -> Face {
    let wanted = match wanted {
        Some(lines) => Some(lines.len()),
        None => None,
    };
    Face {
        jobs: jobs.len(),
        downgrades: flags.allow_downgrade,
        orders: kinds.order,
        wanted,
    }
}

/// Whether a round has this face.
fn is_round(round: &Round, want: Face) -> bool {
    face_of(&round.flags, &round.jobs, &round.kinds, &round.wanted) == want
}

/// Whether the rounds of a script have these faces, in order.
fn are_rounds(script: &Script, first: Face, second: Face, third: Face) -> bool {
    let front = face_of(
        &script.task.flags,
        &script.task.jobs,
        &script.kinds,
        &script.wanted,
    );
    match script.later.held() {
        [one, other] => front == first && is_round(one, second) && is_round(other, third),
        _ => false,
    }
}

/// Exchanges the first round with a later one, where it is there.
fn turn(script: &mut Script, place: usize) {
    if place < script.later.len() {
        script.turn(place);
    }
}

/// What belongs to a round goes with it.
#[test]
fn rounds_change_places(rt: HostRuntime) -> Result<(), Fail> {
    let mut script = read_rounds(rt.alloc(), THREE_ROUNDS)?;
    assert!(rt; are_rounds(&script, ONE, TWO, THREE));
    turn(&mut script, 0);
    assert!(rt; are_rounds(&script, TWO, ONE, THREE));
    turn(&mut script, 1);
    assert!(rt; are_rounds(&script, THREE, ONE, TWO));
    Ok(())
}

/// Brings the round at a place to the front, where it is there.
fn bring(script: &mut Script, place: usize) {
    if place <= script.later.len() {
        to_front(script, place);
    }
}

/// Places count from the first round, which is in front already.
#[test]
fn rounds_come_to_the_front(rt: HostRuntime) -> Result<(), Fail> {
    let mut script = read_rounds(rt.alloc(), THREE_ROUNDS)?;
    bring(&mut script, 0);
    assert!(rt; are_rounds(&script, ONE, TWO, THREE));
    bring(&mut script, 2);
    assert!(rt; are_rounds(&script, THREE, TWO, ONE));
    bring(&mut script, 2);
    assert!(rt; are_rounds(&script, ONE, TWO, THREE));
    Ok(())
}

/// Places of rounds, each with whether its jobs erase the system, A and B.
const ERASED: &[(usize, [bool; 3])] = &[
    (0, [false, false, false]),
    (1, [false, true, false]),
    (2, [false, false, false]),
];

/// Whether they do, by what the round at a place is prepared with; and the rounds are in order afterwards.
fn erases(alloc: Global, place: usize, want: [bool; 3]) -> Result<bool, AllocError> {
    let mut script = read_rounds(alloc, THREE_ROUNDS)?;
    if place > script.later.len() {
        return Ok(false);
    }
    let prov = Providers::build(alloc, &script.task)?;
    let first = make_ready(alloc, &script.task, &prov)?;
    match prepare_round(alloc, &mut script, first, place) {
        Ok(prepared) => Ok(
            prepared.marks.erased.held() == want.as_slice() && are_rounds(&script, ONE, TWO, THREE),
        ),
        Err(_) => Err(AllocError),
    }
}

#[test]
fn each_round_is_prepared_for_itself(rt: HostRuntime) -> Result<(), Fail> {
    for (place, want) in ERASED {
        assert!(rt; erases(rt.alloc(), *place, *want)?, "{place}");
    }
    Ok(())
}

/// The requirement of P (1), which is installed, is broken, and has more clauses than a dependency may have. The third round verifies P.
const RICH_LAST: &str = "repo system 0 testtags <inline>
#>=Pkg: P 1 1 noarch
#>=Req: (a & b) | (a & b) | (a & b) | (a & b) | (a & b) | (a & b) | (a & b) | (a & b) | (a & b) | (a & b) | (a & b) | (a & b) | (a & b) | (a & b) | (a & b) | (a & b) | (a & b)
system x86_64 rpm system
nextjob
nextjob
job verify name P
";

/// Scripts, each with whether a round after the first one passes a limit.
const LIMITS: &[(&str, bool)] = &[(THREE_ROUNDS, false), (RICH_LAST, true)];

/// Whether a fault is that a dependency has too many clauses.
fn is_too_rich(fault: &BookFault) -> bool {
    matches!(fault, BookFault::TooRich { .. })
}

/// The limit is that of the requirement, where there is one.
fn passes(alloc: Global, text: &str, want: bool) -> Result<bool, AllocError> {
    let mut script = read_rounds(alloc, text)?;
    let prov = Providers::build(alloc, &script.task)?;
    let first = make_ready(alloc, &script.task, &prov)?;
    match prepare_in_turn(alloc, &mut script, first) {
        Ok(_last) => Ok(!want),
        Err(fault) => Ok(want && is_too_rich(&fault)),
    }
}

#[test]
fn limits_of_later_rounds_are_told(rt: HostRuntime) -> Result<(), Fail> {
    for (place, (text, want)) in LIMITS.iter().enumerate() {
        assert!(rt; passes(rt.alloc(), text, *want)?, "at {place}");
    }
    Ok(())
}
