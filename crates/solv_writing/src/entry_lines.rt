//! Entries of packages as lines.
ghost use Rattle.std.specs.Prelude.{◌≡◌, ◌++◌, ◌∷◌, ◌<◌, [], true, map, codes, length, nat_lt, IfOk, OnOk, if◌then◌else◌};
ghost use Rattle.std.specs.List.{list_all};
ghost use Rattle.solv_base.specs.Pool.{text_at, text_tree};
ghost use Rattle.solv_deps.specs.Canonical.{text};
ghost use Rattle.solv_writing.specs.Inner.TagParts.{tag_line};

use solv_base::{DepId, NameId, Pool};
use solv_deps::dep_text;
use solv_list::{Bytes, Items};
use solv_pool::Need;
use std::alloc::{AllocError, Global};

/// Most lines are no longer than this.
const LINE_ROOM: usize = 64;

/// The beginning of a line: a sign, three letters, and a colon with a space after it.
pub(crate) fn heading(alloc: Global, letters: &[u8]) -> Result<Vec<u8>, AllocError>
    ensures { IfOk result (λ line. line.items ≡ codes "=" ++ (letters.now ++ codes ": ")) }
{
    let mut line = Vec::with_capacity(alloc, LINE_ROOM)?;
    line.push(b'=')?;
    line.extend_from_slice(letters)?;
    line.extend_from_slice(b": ")?;
    Ok(line)
}

/// Appends the line of an entry with a text.
pub(crate) fn push_text(
    alloc: Global,
    letters: &[u8],
    entry: &[u8],
    lines: &mut Items<Bytes>,
) -> Result<(), AllocError>
    ensures { OnOk result (lines.new ≡ lines.old ++ tag_line letters.now entry.now ∷ []) }
{
    let mut line = heading(alloc, letters)?;
    line.extend_from_slice(entry)?;
    lines.push(Bytes::wrap(line))
}

/// Appends the line of an entry with a dependency.
pub(crate) fn push_dep(
    alloc: Global,
    pool: &Pool,
    letters: &[u8],
    dep: DepId,
    lines: &mut Items<Bytes>,
) -> Result<(), AllocError>
    requires { dep < length pool.now.nodes }
    ensures { OnOk result (lines.new ≡ lines.old ++ tag_line letters.now (text (text_tree pool.now dep)) ∷ []) }
{
    let mut line = heading(alloc, letters)?;
    dep_text(pool, dep, &mut line)?;
    lines.push(Bytes::wrap(line))
}

/// Appends the lines of entries with dependencies.
pub(crate) fn push_deps(
    alloc: Global,
    pool: &Pool,
    letters: &[u8],
    deps: &[DepId],
    lines: &mut Items<Bytes>,
) -> Result<(), AllocError>
    requires { list_all (λ d. nat_lt d (length pool.now.nodes)) deps.now ≡ true }
    ensures { OnOk result (lines.new ≡ lines.old ++ map (λ d. tag_line letters.now (text (text_tree pool.now d))) deps.now) }
{
    for dep in deps {
        push_dep(alloc, pool, letters, *dep, lines)?;
    }
    Ok(())
}

/// Appends the lines of requirements.
pub(crate) fn push_needs(
    alloc: Global,
    pool: &Pool,
    needs: &[Need],
    lines: &mut Items<Bytes>,
) -> Result<(), AllocError>
    requires { list_all (λ need. nat_lt need.dep (length pool.now.nodes)) needs.now ≡ true }
    ensures { OnOk result (lines.new ≡ lines.old ++ map (λ need. tag_line (if need.pre then codes "Prq" else codes "Req") (text (text_tree pool.now need.dep))) needs.now) }
{
    for need in needs {
        let letters = if need.pre {
            b"Prq".as_slice()
        } else {
            b"Req".as_slice()
        };
        push_dep(alloc, pool, letters, need.dep, lines)?;
    }
    Ok(())
}

/// Appends the lines of entries with names.
pub(crate) fn push_names(
    alloc: Global,
    pool: &Pool,
    letters: &[u8],
    names: &[NameId],
    lines: &mut Items<Bytes>,
) -> Result<(), AllocError>
    requires { list_all (λ n. nat_lt n (length pool.now.names)) names.now ≡ true }
    ensures { OnOk result (lines.new ≡ lines.old ++ map (λ n. tag_line letters.now (text_at pool.now n)) names.now) }
{
    for name in names {
        push_text(alloc, letters, pool.name(*name), lines)?;
    }
    Ok(())
}
