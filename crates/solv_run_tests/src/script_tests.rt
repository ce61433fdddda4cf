//! Whole scripts over files in memory: the first bad line, and what is asked for.
ghost use Rattle.std.specs.Prelude.{IfOk};
ghost use Rattle.solv_pool.specs.Prelude.{IsClosed};

use crate::breaking::BreakingFiles;
use crate::stage::{files_of, held};
use solv_io::{AllFiles, MemFiles, lines};
use solv_pool::{PackNo, Task};
use solv_script::{Script, ScriptFault, read_script};
use std::alloc::{AllocError, Global};
use std::test::Fail;

/// `FILE:LINE: CAUSE`, `cannot read NAME`, or `read`.
fn said(alloc: Global, read: Result<Script, ScriptFault>) -> Result<String, AllocError> {
    match read {
        Ok(_) => String::from_str(alloc, "read"),
        Err(ScriptFault::Refused { file, line, cause }) => {
            let (file, cause) = (file.held(), cause.name());
            format!(in alloc; "{file}:{line}: {cause}")
        }
        Err(ScriptFault::ReadFault { name }) => {
            let name = name.held();
            format!(in alloc; "cannot read {name}")
        }
        Err(ScriptFault::Memory) => Err(AllocError),
    }
}

/// What is said of a script in the folder `d`.
fn said_of(alloc: Global, script: &[u8], files: &mut MemFiles) -> Result<String, AllocError> {
    said(alloc, read_script(alloc, "d/case.t", script, files))
}

/// The files that scripts name.
const FILES: &[(&str, &[u8])] = &[
    ("d/a.repo", b"=Pkg: A 1 1 noarch\n"),
    ("/b.repo", b"=Pkg: B 1 1 noarch\r\n=Req:\r\n"),
    ("d/c.repo", b"+Pkg:"),
    ("/d.repo", b"=Pkg: A 1 1 noarch"),
];

/// A script with three files among other lines, and a bad last line.
const THREE_FILES: &str =
    "repo a 0 testtags a.repo\nrepo b 0 testtags <inline>\n#>=Pkg: B 1 1 noarch\nrepo c 0 testtags /d.repo\nevrcmp 1 < 2\nrepo d 0 testtags a.repo\nfoo\n";

/// Whether this is said of a script in the folder `d`, where the fetch of one number fails, and whether so many files were asked for. That it is
/// said of what could not be read counts as a fault.
fn is_said(
    alloc: Global,
    script: &[u8],
    fails: u64,
    want: &str,
    calls: u64,
) -> Result<bool, AllocError> {
    let mut files = files_of(alloc, FILES, &[fails])?;
    let got = said_of(alloc, script, &mut files)?;
    let faults = want.starts_with("cannot read") as u64;
    Ok(
        got.as_str() == want
            && files.calls == calls
            && files.asked.len() as u64 == calls
            && files.faults == faults,
    )
}

/// Scripts, each with the fetch that fails, what is said, and how many files are asked for.
const FETCHES: &[(&str, u64, &str, u64)] = &[
    ("repo a 0 testtags a.repo", 0, "read", 1),
    (
        "repo a 0 testtags ../d/a.repo",
        0,
        "cannot read d/../d/a.repo",
        1,
    ),
    (
        "repo a 0 testtags a.repo\nrepo b 0 testtags a.repo",
        0,
        "read",
        2,
    ),
    (
        "repo a 0 testtags no.repo\nfoo",
        0,
        "cannot read d/no.repo",
        1,
    ),
    (
        "repo a 0 testtags a.repo.gz",
        0,
        "d/case.t:1: Compressed",
        0,
    ),
    (
        "foo\nrepo a 0 testtags no.repo",
        0,
        "d/case.t:1: UnknownLine",
        0,
    ),
    (
        "repo a 0 testtags /b.repo\nfoo",
        0,
        "/b.repo:2: MissingOperand",
        1,
    ),
    (
        "repo a 0 testtags a.repo\nfoo",
        0,
        "d/case.t:2: UnknownLine",
        1,
    ),
    (
        "repo a 0 testtags c.repo",
        0,
        "d/c.repo:1: UnclosedBlock",
        1,
    ),
    (
        "repo a 0 testtags a.repo\nrepo a 0 testtags a.repo",
        0,
        "d/case.t:2: DuplicateRepo",
        1,
    ),
    (THREE_FILES, 1, "cannot read d/a.repo", 1),
    (THREE_FILES, 2, "cannot read /d.repo", 2),
    (THREE_FILES, 3, "cannot read d/a.repo", 3),
    (THREE_FILES, 4, "d/case.t:7: UnknownLine", 3),
];

#[test]
fn files_are_fetched_at_their_line(rt: HostRuntime) -> Result<(), Fail> {
    for (script, fails, want, calls) in FETCHES {
        let is_so = is_said(rt.alloc(), script.as_bytes(), *fails, want, *calls)?;
        assert!(rt; is_so, "{script}");
    }
    let bad_name = b"repo a 0 testtags \xff".as_slice();
    assert!(rt; is_said(rt.alloc(), bad_name, 0, "d/case.t:1: BadFileName", 0)?);
    Ok(())
}

/// A script of all kinds of lines.
const ALL_KINDS: &str =
    "repo a -1 testtags <inline>\n#>=Ver: 3.0\r\n#>=Pkg: A 1 - noarch\n#>+Req:\n#>b >= 1\n#>-Req:\nrepo b 2 testtags b.repo\n# comment\nrepo c 0 empty\nsystem i686 rpm a\nsolverflags !allownamechange,allowdowngrade noinfarchcheck\nnamespace namespace:x(y) @SYSTEM B-1-1.noarch@b\ndisable pkg B-1-1.noarch@b\nevrcmp 1.0~rc1 < 1.0\njob install pkg B-1-1.noarch@b [forcebest]\n \t\njob erase name A < 2\njob favor oneof A-1.noarch@a B-1-1.noarch@b\njob verify all packages\njob noop\n";

/// Whether the flags are those of `ALL_KINDS`, and its jobs.
fn has_flags_and_jobs(task: &Task) -> bool {
    let flags = &task.flags;
    let jobs = match task.jobs.held() {
        [best, erased, ..] => best.forcebest
            && erased.text.held() == b"erase name A < 2".as_slice(),
        _ => false,
    };
    !flags.allow_name_change
        && flags.allow_downgrade
        && flags.no_infarch_check
        && !flags.allow_uninstall
        && jobs
}

/// Whether a task has two packages, of which the second is disabled.
fn has_one_disabled(task: &Task) -> bool
    requires { IsClosed task.now }
{
    if task.universe.count() != 2 {
        return false;
    }
    let (universe, pool) = (&task.universe, &task.pool);
    universe.installable(pool, PackNo(1)) && !universe.installable(pool, PackNo(2))
}

/// Whether a script says what `ALL_KINDS` does.
fn is_of_all_kinds(script: &Script) -> bool
    requires { IsClosed script.now.task }
{
    let task = &script.task;
    let counts = (task.jobs.len(), task.namespaces.len(), script.checks.len());
    counts == (5, 1, 1) && has_flags_and_jobs(task) && has_one_disabled(task)
}

/// Whether a script is read, and says what `ALL_KINDS` does.
fn is_read(read: Result<Script, ScriptFault>) -> bool
    requires { IfOk read (λ script. IsClosed script.task) }
{
    match read {
        Ok(script) => is_of_all_kinds(&script),
        Err(_) => false,
    }
}

/// The file that `ALL_KINDS` names; any other is empty.
fn one_repository(alloc: Global) -> Result<AllFiles, AllocError> {
    let held = held(alloc, &[("b.repo", b"=Pkg: B 1 1 noarch".as_slice())])?;
    Ok(AllFiles { held })
}

#[test]
fn scripts_of_all_kinds_are_read(rt: HostRuntime) -> Result<(), Fail> {
    let mut files = one_repository(rt.alloc())?;
    let read = read_script(rt.alloc(), "case.t", ALL_KINDS.as_bytes(), &mut files);
    assert!(rt; is_read(read));
    Ok(())
}

/// The numbers of the last line and of the one before.
pub(crate) fn last_lines(text: &[u8]) -> (u64, u64) {
    let mut last = 0;
    let mut before = 0;
    for (number, _) in lines(text) {
        before = last;
        last = number;
    }
    (last, before)
}

/// The line that was refused, or 0 where a script was read.
fn refused_line(read: Result<Script, ScriptFault>) -> Result<u64, AllocError> {
    match read {
        Ok(_) => Ok(0),
        Err(ScriptFault::Refused { line, .. }) => Ok(line),
        Err(_) => Err(AllocError),
    }
}

/// Whether a front of a script is read or refused at one of its last two lines.
fn is_front(alloc: Global, front: &[u8], files: &mut AllFiles) -> Result<bool, AllocError> {
    let (last, before) = last_lines(front);
    let line = refused_line(read_script(alloc, "case.t", front, files))?;
    Ok(line == 0 || line == last || line == before)
}

#[test]
fn each_front_of_a_script_is_read_or_refused(rt: HostRuntime) -> Result<(), Fail> {
    let mut files = one_repository(rt.alloc())?;
    for end in 0..ALL_KINDS.len() {
        let front = &ALL_KINDS.as_bytes()[..end];
        assert!(rt; is_front(rt.alloc(), front, &mut files)?, "{end}");
    }
    Ok(())
}

/// Whether this is said of a script that names a file with these bytes.
fn is_said_of_long(
    alloc: Global,
    script: &[u8],
    long: &[u8],
    want: &str,
) -> Result<bool, AllocError> {
    let mut files = files_of(alloc, &[("d/f", long)], &[])?;
    let got = said_of(alloc, script, &mut files)?;
    Ok(got.as_str() == want)
}

/// A script that names one file four times.
const FOUR_FILES: &[u8] =
    b"repo a 0 testtags f\nrepo b 0 testtags f\nrepo c 0 testtags f\nrepo d 0 testtags f\n";

#[test]
fn long_files_are_refused(rt: HostRuntime) -> Result<(), Fail> {
    let alloc = rt.alloc();
    let long = vec![in alloc; b'x'; 67_108_865]?;
    let most = &long[1..];
    assert!(rt; is_said_of_long(alloc, FOUR_FILES, most, "d/case.t:4: ScriptTooLong")?);
    assert!(rt; is_said_of_long(alloc, FOUR_FILES, &long, "d/case.t:1: FileTooLong")?);
    Ok(())
}

/// The lines of a package that requires one thing 6,000 times, 72,019 bytes.
fn repeated_lines(alloc: Global) -> Result<Vec<u8>, AllocError> {
    let mut text = Vec::new(alloc);
    text.extend_from_slice(b"=Pkg: A 1 1 noarch\n")?;
    for _ in 0..6000 {
        text.extend_from_slice(b"=Req: B | C\n")?;
    }
    Ok(text)
}

#[test]
fn lines_that_come_again_are_read_at_their_place(rt: HostRuntime) -> Result<(), Fail> {
    let alloc = rt.alloc();
    let script = b"repo a 0 testtags f\n".as_slice();
    let mut text = repeated_lines(alloc)?;
    assert!(rt; is_said_of_long(alloc, script, &text, "read")?);
    text.extend_from_slice(b"=Prv: B | C\n")?;
    assert!(rt; is_said_of_long(alloc, script, &text, "d/f:6002: OperatorNotHere")?);
    Ok(())
}

/// A repository of four lines, of which the second has so many bytes besides six, and the last is bad.
fn long_repository(alloc: Global, vendor: usize) -> Result<Vec<u8>, AllocError> {
    let mut text = Vec::from_slice(alloc, b"=Pkg: A 1 1 noarch\n=Vnd: ")?;
    for _ in 0..vendor {
        text.push(b'v')?;
    }
    text.extend_from_slice(b"\n=Pkg: B 1 1 noarch\n=Req:")?;
    Ok(text)
}

/// The line feed after the vendor is one of the bytes where the first piece ends, or comes long after it.
#[test]
fn lines_may_end_where_a_piece_of_a_file_does(rt: HostRuntime) -> Result<(), Fail> {
    let alloc = rt.alloc();
    let script = b"repo a 0 testtags f\n".as_slice();
    for vendor in [65_509, 65_510, 65_511, 65_512, 200_000] {
        let text = long_repository(alloc, vendor)?;
        let is_so = is_said_of_long(alloc, script, &text, "d/f:4: MissingOperand")?;
        assert!(rt; is_so, "{vendor}");
    }
    Ok(())
}

/// A repository that is read by two pieces, whose last line is bad.
const TWO_PIECES: usize = 65_600;

/// Whether this is said of a script that names a file with these bytes, where this read fails.
fn is_said_of_broken(
    alloc: Global,
    bytes: &[u8],
    breaks: u64,
    want: &str,
) -> Result<bool, AllocError> {
    let mut files = BreakingFiles {
        files: files_of(alloc, &[("d/f", bytes)], &[])?,
        reads: 0,
        breaks,
    };
    let script = b"repo a 0 testtags f\n";
    let got = said(alloc, read_script(alloc, "d/case.t", script, &mut files))?;
    let faults = want.starts_with("cannot read") as u64;
    Ok(got.as_str() == want && files.files.faults == faults)
}

/// Reads that fail, and what is said then: where none does, the bad line is.
const BROKEN: &[(u64, &str)] = &[
    (0, "d/f:4: MissingOperand"),
    (1, "cannot read d/f"),
    (2, "cannot read d/f"),
];

#[test]
fn a_read_may_fail_in_the_middle_of_a_file(rt: HostRuntime) -> Result<(), Fail> {
    let bytes = long_repository(rt.alloc(), TWO_PIECES)?;
    for (breaks, want) in BROKEN {
        assert!(rt;
            is_said_of_broken(rt.alloc(), &bytes, *breaks, want)?,
            "{breaks}"
        );
    }
    Ok(())
}
