//! Namespaces as lines.
ghost use Rattle.std.specs.Prelude.{◌≡◌, ◌++◌, ◌∷◌, ◌<◌, [], true, length, map, nat_le, OnOk};
ghost use Rattle.std.specs.List.{list_all};
ghost use Rattle.solv_io.specs.Lines.{ended_lines};
ghost use Rattle.solv_pool.specs.Prelude.{IsOver, line_fits};
ghost use Rattle.solv_writing.specs.Inner.ByIds.{namespace_text};

use crate::line_words::add_word;
use crate::package_words::add_packages;
use solv_base::{NameId, Pool};
use solv_list::Items;
use solv_pool::{PackNo, Universe};
use std::alloc::AllocError;

/// Appends the line of a namespace with its packages.
fn put_namespace(
    pool: &Pool,
    universe: &Universe,
    name: NameId,
    packs: &[PackNo],
    into: &mut Vec<u8>,
) -> Result<(), AllocError>
    requires over { IsOver pool.now universe.now }
    requires name { name < length pool.now.names }
    requires there { list_all (λ p. nat_le p (length universe.now.packages)) packs.now ≡ true }
    ensures { OnOk result (into.new.items ≡ into.old.items ++ (namespace_text pool.now universe.now (name, packs.now) ++ 10 ∷ [])) }
{
    into.extend_from_slice(b"namespace")?;
    add_word(into, pool.name(name))?;
    add_packages(pool, universe, packs, into)?;
    into.push(b'\n')?;
    Ok(())
}

/// Appends the lines of namespaces.
pub(crate) fn put_namespaces(
    pool: &Pool,
    universe: &Universe,
    namespaces: &[(NameId, Items<PackNo>)],
    into: &mut Vec<u8>,
) -> Result<(), AllocError>
    requires over { IsOver pool.now universe.now }
    requires there { list_all (line_fits (length pool.now.names) (length universe.now.packages)) namespaces.now ≡ true }
    ensures { OnOk result (into.new.items ≡ into.old.items ++ ended_lines (map (namespace_text pool.now universe.now) namespaces.now)) }
{
    for line in namespaces {
        put_namespace(pool, universe, line.0, line.1.held(), into)?;
    }
    Ok(())
}
