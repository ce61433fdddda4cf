//! The line of the system.
ghost use Rattle.std.specs.Prelude.{◌≡◌, ◌++◌, ◌∷◌, [], codes, flat_map, OnOk};
ghost use Rattle.solv_io.specs.JoinedWords.{joined};
ghost use Rattle.solv_io.specs.Lines.{ended_lines};
ghost use Rattle.solv_pool.specs.Prelude.{IsOver};
ghost use Rattle.solv_pool.specs.PackageText.{repo_text};
ghost use Rattle.solv_writing.specs.Inner.ByIds.{installed_texts, system_text};
ghost use Rattle.solv_script.specs.Rows.{arch_text};

use crate::line_words::add_word;
use solv_base::Pool;
use solv_pool::{Arch, RepoNo, Universe};
use std::alloc::AllocError;

/// The name of an architecture.
fn arch_name(arch: Arch) -> &'static [u8]
    ensures { result.now ≡ arch_text arch }
{
    match arch {
        Arch::X86_64 => b"x86_64",
        Arch::I686 => b"i686",
        Arch::Aarch64 => b"aarch64",
    }
}

/// The name of a repository. That of one that is not there is empty.
#[tactic(auto, using(crate::proofs::RepositoryLines::name_there, crate::proofs::ByTexts::no_repo_text))]
fn repo_name<'a>(pool: &'a Pool, universe: &Universe, repo: RepoNo) -> &'a [u8]
    requires { IsOver pool.now universe.now }
    ensures { result.now ≡ repo_text pool.now universe.now repo }
{
    if repo.0 < universe.repos() {
        return pool.name(universe.repo(repo).name);
    }
    &[]
}

/// Appends a space and the name of the installed repository, if there is one.
fn add_installed(pool: &Pool, universe: &Universe, line: &mut Vec<u8>) -> Result<(), AllocError>
    requires { IsOver pool.now universe.now }
    ensures { OnOk result (line.new.items ≡ line.old.items ++ flat_map (λ word. 32 ∷ word) (installed_texts pool.now universe.now universe.now.installed)) }
{
    match universe.installed_repo() {
        Some(repo) => add_word(line, repo_name(pool, universe, repo)),
        None => Ok(()),
    }
}

/// Appends the line of a system with this architecture.
fn put_arch(
    pool: &Pool,
    universe: &Universe,
    arch: Arch,
    into: &mut Vec<u8>,
) -> Result<(), AllocError>
    requires { IsOver pool.now universe.now }
    ensures { OnOk result (into.new.items ≡ into.old.items ++ (joined (codes "system" ∷ arch_text arch ∷ codes "rpm" ∷ installed_texts pool.now universe.now universe.now.installed) ++ 10 ∷ [])) }
{
    into.extend_from_slice(b"system")?;
    add_word(into, arch_name(arch))?;
    into.extend_from_slice(b" rpm")?;
    add_installed(pool, universe, into)?;
    into.push(b'\n')?;
    Ok(())
}

/// Appends the line of the system, if there is one.
pub(crate) fn put_system(
    pool: &Pool,
    universe: &Universe,
    into: &mut Vec<u8>,
) -> Result<(), AllocError>
    requires { IsOver pool.now universe.now }
    ensures { OnOk result (into.new.items ≡ into.old.items ++ ended_lines (system_text pool.now universe.now universe.now.arch)) }
{
    match universe.arch() {
        Some(arch) => put_arch(pool, universe, arch, into),
        None => Ok(()),
    }
}
