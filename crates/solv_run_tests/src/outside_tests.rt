//! What the outside may do to a run: an output stream that fails at any call, a script that ends anywhere, and one of the greatest length.
use crate::run_tests::{answers, command_line};
use crate::script_tests::last_lines;
use crate::stage::{NONE, held, make_stage};
use solv_io::{AllFiles, PlainSink, Status, cut_at};
use solv_list::Bytes;
use solv_run::run;
use std::alloc::{AllocError, Global};
use std::test::Fail;

/// Three jobs, of whose packages one conflicts with the other two together.
const CLASHING: &[u8] =
    b"repo system 0 empty\nrepo available 0 testtags <inline>\n#>=Pkg: A 1 1 noarch\n#>=Pkg: B 1 1 noarch\n#>=Pkg: C 1 1 noarch\n#>=Con: A & B\nsystem x86_64 rpm system\njob install name A\njob install name B\njob install name C\n";

/// What is printed of them.
const TOLD: &[u8] =
    b"problem 1 info conflicting requests\nproblem 1 info package C-1-1.noarch@available conflicts with A & B\nproblem 1 solution 1 deljob install name A\nproblem 1 solution 2 deljob install name B\nproblem 1 solution 3 deljob install name C\n";

/// The first bytes of a text.
fn front(text: &[u8], count: usize) -> &[u8] {
    text.get(..count).unwrap_or(text)
}

/// Whether a run of which this call of the output stream fails has written eight bytes by each call before it, and nothing else; or all, where it has
/// written all by then.
fn is_cut_off(alloc: Global, call: usize) -> Result<bool, AllocError> {
    let mut on = make_stage(alloc, &[("case.t", CLASHING)], NONE)?;
    on.out.fails.push(call as u64)?;
    let (status, told) = answers(alloc, &["testsolv", "-r", "case.t"], &mut on)?;
    let before = call.saturating_sub(1).saturating_mul(8);
    let ended = if before < TOLD.len() {
        Status::WriteFault
    } else {
        Status::Done
    };
    Ok(
        status == ended
            && told == 1
            && on.out.taken.held() == front(TOLD, before)
            && on.err.taken.is_empty(),
    )
}

/// Each call that is made, and one more.
#[test]
fn output_is_cut_off_at_any_call(rt: HostRuntime) -> Result<(), Fail> {
    for call in 1..TOLD.len().div_ceil(8) + 2 {
        assert!(rt; is_cut_off(rt.alloc(), call)?, "{call}");
    }
    Ok(())
}

/// How `testsolv` ends for a script, where all files that it may name are empty, and what it says is wrong.
fn ended(alloc: Global, script: &[u8]) -> Result<(Status, Bytes), AllocError> {
    let words = command_line(alloc, &["testsolv", "-r", "case.t"])?;
    let held = held(alloc, &[("case.t", script)])?;
    let mut files = AllFiles { held };
    let mut out = PlainSink {
        taken: Bytes::wrap(Vec::new(alloc)),
    };
    let mut err = PlainSink {
        taken: Bytes::wrap(Vec::new(alloc)),
    };
    let report = run(alloc, &words, &mut files, &mut out, &mut err)?;
    Ok((report.status, err.taken))
}

/// The number of the line that is reported of a script.
fn line_told(told: &[u8]) -> Option<u64> {
    let (_, file) = cut_at(b':', told);
    let (_, line) = cut_at(b':', file?);
    let (number, _) = cut_at(b':', line?);
    std::str::from_utf8(number).ok()?.parse::<u64>().ok()
}

/// Whether a script is answered, or one of its lines is refused.
fn is_answered_or_refused(alloc: Global, script: &[u8]) -> Result<bool, AllocError> {
    let (status, told) = ended(alloc, script)?;
    let (last, _) = last_lines(script);
    Ok(match status {
        Status::Done | Status::Spent => true,
        Status::Refused => line_told(told.held()).is_some_and(|line| 1 <= line && line <= last),
        _ => false,
    })
}

/// A system that is to be brought up to date, and two packages that it is to have.
const UPDATED: &str = "repo system 0 testtags <inline>
#>=Pkg: filesystem 3.18 6.fc39 x86_64
#>=Pkg: glibc 2.38 7.fc39 x86_64
#>=Prv: libc.so.6()(64bit)
#>=Prq: filesystem
#>=Pkg: bash 5.2.15 5.fc39 x86_64
#>=Prv: /bin/sh
#>=Fls: /usr/bin/bash
#>=Req: libc.so.6()(64bit)
#>=Pkg: openssl-libs 1:3.0.9 2.fc39 x86_64
#>=Prv: libcrypto.so.3()(64bit)
#>=Req: libc.so.6()(64bit)
#>=Pkg: coreutils 9.3 4.fc39 x86_64
#>=Req: libcrypto.so.3()(64bit)
#>=Pkg: zlib 1.2.13 4.fc39 x86_64
#>=Prv: libz.so.1()(64bit)
#>=Req: libc.so.6()(64bit)
repo fedora -99 testtags <inline>
#>=Ver: 3.0
#>=Pkg: git 2.41.0 2.fc39 x86_64
#>+Req:
#>git-core = 2.41.0-2.fc39
#>git-subtree <IF> perl
#>-Req:
#>=Rec: less
#>=Pkg: curl 8.2.1 3.fc39 x86_64
#>=Req: libcurl >= 8.2
#>=Req: libc.so.6()(64bit)
#>=Req: rpmlib(CompressedFileNames) <= 3.0.4-1
#>=Pkg: glibc 2.38 14.fc39 x86_64
#>=Prv: libc.so.6()(64bit)
#>=Prq: filesystem
#>=Req: glibc-common = 2.38-14.fc39
#>=Pkg: glibc-common 2.38 14.fc39 x86_64
#>=Req: glibc = 2.38-14.fc39
#>=Req: /usr/bin/bash
#>=Pkg: openssl-libs 1:3.1.1 4.fc39 x86_64
#>=Prv: libcrypto.so.3()(64bit)
#>=Req: libc.so.6()(64bit)
#>=Req: glibc >= 2.38-10
#>=Rec: ca-certificates
#>=Pkg: ca-certificates 2023.2.60 3.fc39 noarch
#>=Prq: /bin/sh
#>=Prq: coreutils
#>=Pkg: zlib-ng-compat 2.1.3 1.fc39 x86_64
#>=Prv: zlib = 1.2.13
#>=Prv: libz.so.1()(64bit)
#>=Obs: zlib < 1.3
#>=Req: libc.so.6()(64bit)
#>=Pkg: libcurl 8.2.1 3.fc39 i686
#>=Pkg: libcurl 8.2.1 3.fc39 x86_64
#>=Req: libcrypto.so.3()(64bit)
#>=Req: libz.so.1()(64bit)
#>=Pkg: git-core 2.41.0 2.fc39 x86_64
#>=Req: libz.so.1()(64bit)
#>=Pkg: less 608 1.fc39 x86_64
#>=Pkg: less 633 2.fc39 x86_64
#>=Req: libc.so.6()(64bit)
#>=Pkg: bash-completion 2.11 11.fc39 noarch
#>=Req: bash
#>=Sup: bash & git
#>=Pkg: git-subtree 2.41.0 2.fc39 x86_64
system x86_64 rpm system
job install name git
job install name curl
job update name openssl-libs
job update name zlib
";

#[test]
fn each_front_of_a_script_is_answered_or_refused(rt: HostRuntime) -> Result<(), Fail> {
    for end in 0..UPDATED.len() + 1 {
        let script = front(UPDATED.as_bytes(), end);
        assert!(rt; is_answered_or_refused(rt.alloc(), script)?, "{end}");
    }
    Ok(())
}

/// Whether a run ends so for a script of so many blanks.
fn is_ended_by_blanks(
    alloc: Global,
    count: usize,
    status: Status,
    told: &[u8],
) -> Result<bool, AllocError> {
    let script = vec![in alloc; b' '; count]?;
    let (got, err) = ended(alloc, &script)?;
    Ok(got == status && err.held() == told)
}

/// How many blanks a script has, and how its run ends.
const LENGTHS: &[(usize, Status, &[u8])] = &[
    (67_108_864, Status::Done, b""),
    (
        67_108_865,
        Status::Refused,
        b"testsolv: case.t:1: FileTooLong\n",
    ),
];

#[test]
fn scripts_have_a_greatest_length(rt: HostRuntime) -> Result<(), Fail> {
    for (count, status, told) in LENGTHS {
        let is_so = is_ended_by_blanks(rt.alloc(), *count, *status, told)?;
        assert!(rt; is_so, "{count}");
    }
    Ok(())
}
