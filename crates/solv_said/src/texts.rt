//! The lines on `err` that programs share.
ghost use Rattle.std.specs.Prelude.{◌≡◌, ◌++◌, codes, IfOk, OnOk, string_bytes};
ghost use Rattle.std.specs.Fmt.{decimal};
ghost use Rattle.solv_pool.specs.Prelude.{IsOver};
ghost use Rattle.solv_pool.specs.PackageText.{package_text};
ghost use Rattle.solv_said.specs.Dues.{line_at, limit_line};
ghost use Rattle.solv_said.specs.Inner.Dues.{read_fault_line};

use solv_pool::{PackNo, Task};
use solv_rules::BookFault;
use std::alloc::{AllocError, Global};

/// The line on a file that cannot be read.
pub(crate) fn read_fault_text(
    alloc: Global,
    program: &str,
    file: &str,
) -> Result<String, AllocError>
    ensures { IfOk result (λ text. string_bytes text ≡ read_fault_line program.now file.now) }
{
    format!(in alloc; "{program}: cannot read {file}\n")
}

/// The line on a bad line of a file, whose number is from 1, with the name of its cause.
pub fn bad_line_text(
    alloc: Global,
    program: &str,
    file: &str,
    line: u64,
    cause: &str,
) -> Result<String, AllocError>
    ensures { IfOk result (λ text. string_bytes text ≡ line_at program.now file.now line cause.now) }
{
    format!(in alloc; "{program}: {file}:{line}: {cause}\n")
}

/// The words after the package of a dependency that gives too many clauses.
fn too_rich_text(alloc: Global, count: u64) -> Result<String, AllocError>
    ensures { IfOk result (λ text. string_bytes text ≡ codes ": TooRich " ++ (decimal count ++ codes "\n")) }
{
    format!(in alloc; ": TooRich {count}\n")
}

/// The line on too many words of clauses.
fn too_many_words_text(alloc: Global, program: &str, words: u64) -> Result<String, AllocError>
    ensures { IfOk result (λ text. string_bytes text ≡ program.now ++ (codes ": TooManyWords " ++ (decimal words ++ codes "\n"))) }
{
    format!(in alloc; "{program}: TooManyWords {words}\n")
}

/// The name of a program, as it stands before a line.
fn begun_text(alloc: Global, program: &str) -> Result<String, AllocError>
    ensures { IfOk result (λ text. string_bytes text ≡ program.now ++ codes ": ") }
{
    format!(in alloc; "{program}: ")
}

/// A line that begins with the name of a program.
fn begun_line(alloc: Global, program: &str) -> Result<Vec<u8>, AllocError>
    ensures { IfOk result (λ line. line.items ≡ program.now ++ codes ": ") }
{
    Ok(begun_text(alloc, program)?.into_bytes())
}

/// Appends the text of a package; a package that is not there has none.
fn append_package(task: &Task, pack: PackNo, line: &mut Vec<u8>) -> Result<(), AllocError>
    requires { IsOver task.now.pool task.now.universe }
    ensures { OnOk result (line.new.items ≡ line.old.items ++ package_text task.now.pool task.now.universe pack) }
{
    if pack.0 <= task.universe.count() {
        task.universe.package_text(&task.pool, pack, line)?;
    }
    Ok(())
}

/// The line on a dependency that gives too many clauses.
fn too_rich_line(
    alloc: Global,
    program: &str,
    task: &Task,
    pack: PackNo,
    count: u64,
) -> Result<Vec<u8>, AllocError>
    requires { IsOver task.now.pool task.now.universe }
    ensures { IfOk result (λ line. line.items ≡ program.now ++ (codes ": " ++ (package_text task.now.pool task.now.universe pack ++ (codes ": TooRich " ++ (decimal count ++ codes "\n"))))) }
{
    let mut line = begun_line(alloc, program)?;
    append_package(task, pack, &mut line)?;
    let rest = too_rich_text(alloc, count)?;
    line.extend_from_slice(rest.as_bytes())?;
    Ok(line)
}

/// The line on a limit that clauses pass. Running out of memory is none, and has no line.
pub(crate) fn limit_text(
    alloc: Global,
    program: &str,
    task: &Task,
    fault: BookFault,
) -> Result<Vec<u8>, AllocError>
    requires { IsOver task.now.pool task.now.universe }
    ensures { IfOk result (λ line. line.items ≡ limit_line program.now task.now fault) }
{
    match fault {
        BookFault::TooRich { pack, count, .. } => too_rich_line(alloc, program, task, pack, count),
        BookFault::TooManyWords { words } => {
            let line = too_many_words_text(alloc, program, words)?;
            line.as_bytes().to_vec(alloc)
        }
        BookFault::Memory => Ok(Vec::new(alloc)),
    }
}
