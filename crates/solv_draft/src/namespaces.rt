//! Namespaces.
ghost use Rattle.std.specs.Prelude.{◌≡◌, ◌++◌, nat_le, IfOk, IfErr, OnOk, OnErr};
ghost use Rattle.std.specs.List.{list_all};
ghost use Rattle.solv_draft.specs.Drafts.{drawn, namespace_given};
ghost use Rattle.solv_draft.specs.Inner.Faults.{IsFault};
ghost use Rattle.solv_draft.specs.Inner.Drafts.{HasDrawn, IsDraft, IsKept};
ghost use Rattle.solv_script.specs.Inner.Namespaces.{with_packages};

use crate::draft_fault::{DraftFault, fault_of_text};
use solv_base::NameId;
use solv_deps::enter_text;
use solv_list::Items;
use solv_pool::{PackNo, Task};
use std::alloc::{AllocError, Global};

/// A namespace's name, and its packages.
type Namespace = (NameId, Items<PackNo>);

/// Whether all numbers are of so many packages, or of the system.
fn are_there(count: u32, packs: &[u32]) -> bool
    ensures { result ≡ list_all (λ p. nat_le p count) packs.now }
{
    packs.iter().all(|pack| *pack <= count)
}

/// Packages with more after them.
fn with_more(alloc: Global, first: &[PackNo], packs: &[u32]) -> Result<Items<PackNo>, AllocError>
    ensures { IfOk result (λ all. all ≡ first.now ++ packs.now) }
{
    let mut all = first.to_vec(alloc)?;
    for pack in packs {
        all.push(PackNo(*pack))?;
    }
    Ok(Items::wrap(all))
}

/// Adds packages to those of a namespace, or a new one after the others.
fn put_packages(
    alloc: Global,
    namespaces: &mut Vec<Namespace>,
    name: NameId,
    packs: &[u32],
) -> Result<(), AllocError>
    ensures ok { OnOk result (namespaces.new.items ≡ with_packages name packs.now namespaces.old.items) }
    ensures err { OnErr result (namespaces.new.items ≡ namespaces.old.items) }
{
    let mut place = 0;
    while place < namespaces.len() {
        if namespaces[place].0 == name {
            let all = with_more(alloc, namespaces[place].1.held(), packs)?;
            namespaces[place].1 = all;
            return Ok(());
        }
        place += 1;
    }
    let own = with_more(alloc, &[], packs)?;
    namespaces.push((name, own))?;
    Ok(())
}

/// Adds packages to those of a namespace of a task.
fn put_in(
    alloc: Global,
    namespaces: &mut Items<Namespace>,
    name: NameId,
    packs: &[u32],
) -> Result<(), AllocError>
    ensures ok { OnOk result (namespaces.new ≡ with_packages name packs.now namespaces.old) }
    ensures err { OnErr result (namespaces.new ≡ namespaces.old) }
{
    let none = Items::wrap(Vec::new(alloc));
    let mut all = std::mem::replace(namespaces, none).into_vec();
    let put = put_packages(alloc, &mut all, name, packs);
    *namespaces = Items::wrap(all);
    put
}

/// Adds packages to those of a namespace.
pub(crate) fn add_namespace(task: &mut Task, name: &[u8], packs: &[u32]) -> Result<(), DraftFault>
    requires { IsDraft task.old }
    ensures done { OnOk result (HasDrawn task.new (namespace_given name.now packs.now (drawn task.old))) }
    ensures refused { IfErr result (λ fault. IsFault fault (namespace_given name.now packs.now (drawn task.old))) }
    ensures kept { OnErr result (IsKept task.old task.new) }
{
    if !are_there(task.universe.count(), packs) {
        return Err(DraftFault::Misused);
    }
    let id = match enter_text(&mut task.pool, name) {
        Ok(id) => id,
        Err(fault) => return Err(fault_of_text(1, fault)),
    };
    task.pool.holds_each_once();
    let alloc = task.pool.alloc();
    match put_in(alloc, &mut task.namespaces, id, packs) {
        Ok(()) => Ok(()),
        Err(_) => Err(DraftFault::Memory),
    }
}
