//! The line of a repository.
ghost use Rattle.std.specs.Prelude.{◌≡◌, ◌++◌, ◌∷◌, ◌<◌, [], codes, length, flat_map, IfOk, OnOk, if◌then◌else◌};
ghost use Rattle.std.specs.Fmt.{signed_decimal};
ghost use Rattle.solv_base.specs.Pool.{text_at};
ghost use Rattle.solv_script.specs.Grammar.{inline};
ghost use Rattle.solv_io.specs.JoinedWords.{joined};

use crate::line_words::add_word;
use solv_base::Pool;
use solv_pool::Repo;
use std::alloc::{AllocError, Global};

/// Appends a space and a number.
fn add_number(alloc: Global, line: &mut Vec<u8>, number: i32) -> Result<(), AllocError>
    ensures { OnOk result (line.new.items ≡ line.old.items ++ 32 ∷ signed_decimal number) }
{
    let text = format!(in alloc; "{number}")?;
    add_word(line, text.as_bytes())
}

/// Appends what a repository is made of.
fn add_content(line: &mut Vec<u8>, empty: bool) -> Result<(), AllocError>
    ensures { OnOk result (line.new.items ≡ line.old.items ++ flat_map (λ word. 32 ∷ word) (if empty then codes "empty" ∷ [] else codes "testtags" ∷ inline ∷ [])) }
{
    if empty {
        return line.extend_from_slice(b" empty");
    }
    line.extend_from_slice(b" testtags <inline>")
}

/// `repo NAME PRIORITY empty`, or `testtags <inline>` in its place.
pub(crate) fn repository_head(
    alloc: Global,
    pool: &Pool,
    repo: &Repo,
    empty: bool,
) -> Result<Vec<u8>, AllocError>
    requires { repo.now.name < length pool.now.names }
    ensures { IfOk result (λ line. line.items ≡ joined (codes "repo" ∷ text_at pool.now repo.now.name ∷ signed_decimal repo.now.priority ∷ (if empty then codes "empty" ∷ [] else codes "testtags" ∷ inline ∷ []))) }
{
    let mut line = Vec::from_slice(alloc, b"repo")?;
    add_word(&mut line, pool.name(repo.name))?;
    add_number(alloc, &mut line, repo.priority)?;
    add_content(&mut line, empty)?;
    Ok(line)
}
