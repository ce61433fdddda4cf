//! Scripts and the packages of repositories, written.
ghost use Rattle.std.specs.List.{All};
ghost use Rattle.std.specs.Prelude.{IfOk};
ghost use Rattle.solv_pool.specs.Prelude.{IsClosed};
ghost use Rattle.solv_script.specs.Rounds.{tasks};

use crate::stage::files_of;
use solv_list::{Bytes, Items};
use solv_pool::RepoNo;
use solv_script::{Script, read_script};
use solv_writing::{write_script, write_testtags};
use std::alloc::{AllocError, Global};
use std::test::Fail;

/// A script with two repositories, whose packages stand in files, and two rounds.
const NAMED: &str =
    "repo system 0 empty\nrepo a -007 testtags a.repo\nrepo b 0 testtags b.repo\nsystem x86_64 rpm system\ndisable pkg B-1-.noarch@b\njob install oneof A-2:1-1.noarch@a  B-1-.noarch@b\nnextjob\njob noop all packages\nresult problems <inline>\n#> job install name A \n";

/// The files that it names.
const FILES: &[(&str, &[u8])] = &[
    (
        "a.repo",
        b"=Pkg: A 2:1 1 noarch\n=Prq: x>=1\n=Req: C\n=Vnd: two  words \n+Fls:\n/bin/a\n-Fls:\n",
    ),
    ("b.repo", b"=Pkg: B 1- - noarch\n=Con: A < 2\n"),
];

/// What is written of it.
const WRITTEN: &str =
    "repo system 0 empty\nrepo a -7 testtags <inline>\n#>=Pkg: A 2:1 1 noarch\n#>=Vnd: two  words\n#>=Prq: x>=1\n#>=Req: C\n#>=Fls: /bin/a\nrepo b 0 testtags <inline>\n#>=Pkg: B 1- - noarch\n#>=Con: A < 2\nsystem x86_64 rpm system\ndisable pkg B-1-.noarch@b\nsolverflags !allowdowngrade allownamechange !allowarchchange !allowvendorchange !allowuninstall !ignorerecommended !noinfarchcheck\njob install oneof A-2:1-1.noarch@a B-1-.noarch@b\nnextjob\nsolverflags !allowdowngrade allownamechange !allowarchchange !allowvendorchange !allowuninstall !ignorerecommended !noinfarchcheck\njob noop all packages\nresult problems <inline>\n#>job install name A\n";

/// The script of this text.
fn script_of(alloc: Global, text: &[u8]) -> Result<Script, AllocError>
    ensures { IfOk result (λ script. All IsClosed (tasks script)) }
{
    let mut files = files_of(alloc, FILES, &[])?;
    match read_script(alloc, "case.t", text, &mut files) {
        Ok(script) => Ok(script),
        Err(_) => Err(AllocError),
    }
}

/// The text of the script of this text.
fn written(alloc: Global, text: &[u8]) -> Result<Bytes, AllocError> {
    write_script(alloc, &script_of(alloc, text)?)
}

#[test]
fn a_script_is_written_as_one_text(rt: HostRuntime) -> Result<(), Fail> {
    let once = written(rt.alloc(), NAMED.as_bytes())?;
    assert!(rt; once.held() == WRITTEN.as_bytes());
    let again = written(rt.alloc(), once.held())?;
    assert!(rt; again.held() == once.held());
    Ok(())
}

/// Repositories by their numbers, each with the lines of its packages. One that is not there has none.
const LINES: &[(usize, &[&str])] = &[
    (0, &[]),
    (
        1,
        &[
            "=Pkg: A 2:1 1 noarch",
            "=Vnd: two  words",
            "=Prq: x>=1",
            "=Req: C",
            "=Fls: /bin/a",
        ],
    ),
    (2, &["=Pkg: B 1- - noarch", "=Con: A < 2"]),
    (3, &[]),
];

/// Whether these are the lines.
fn are_lines(lines: &Items<Bytes>, want: &[&str]) -> bool {
    let lines = lines.held();
    lines.len() == want.len()
        && lines
            .iter()
            .zip(want)
            .all(|(line, text)| line.held() == text.as_bytes())
}

/// The lines of a repository's packages.
fn lines_of(alloc: Global, repo: usize) -> Result<Items<Bytes>, AllocError> {
    let script = script_of(alloc, NAMED.as_bytes())?;
    let task = &script.task;
    write_testtags(alloc, &task.pool, &task.universe, RepoNo(repo))
}

#[test]
fn packages_of_a_repository_are_written(rt: HostRuntime) -> Result<(), Fail> {
    for (repo, want) in LINES {
        assert!(rt; are_lines(&lines_of(rt.alloc(), *repo)?, want), "{repo}");
    }
    Ok(())
}
