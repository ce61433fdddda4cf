//! The clauses of a dependency appended.
ghost use Rattle.std.specs.Prelude.{◌≡◌, ◌≤◌, ◌<◌, ◌∷◌, [], length, take, slice_get, Some, OnOk, true};
ghost use Rattle.std.specs.List.{list_all};
ghost use Rattle.solv_pool.specs.Prelude.{catalog_of, dependency, Clause, clause_count, dependency_clauses, kept, in_numbers};
ghost use Rattle.solv_prov.specs.Index.{IsIndexOf};
ghost use Rattle.solv_rich.specs.Inner.Counts.{HasAppended};
ghost use Rattle.solv_rich.specs.Inner.Expansions.{are_counted, clauses_in};
ghost use Rattle.solv_rich.specs.Inner.Shortening.{has_number};

use crate::expanding::expand;
use crate::expansion::{Expansion, Literals, count_in, put_clause};
use crate::shortening::append_clause;
use solv_pack::Lit;
use solv_pool::{DepId, PackNo, Task};
use solv_prov::Providers;
use std::alloc::AllocError;

/// Appends the clause of a number.
fn append_numbered(
    expansion: &Expansion<'_>,
    number: u64,
    said: &mut Literals,
    lits: &mut Vec<Lit>,
    ends: &mut Vec<usize>,
) -> Result<(), AllocError>
    requires counted { are_counted expansion.now ≡ true }
    requires few { length (clauses_in expansion.now) ≤ 65536 }
    requires there { number < length (clauses_in expansion.now) }
    requires numbers { list_all (list_all has_number) (clauses_in expansion.now) ≡ true }
    ensures appended { (c : Clause) → slice_get (clauses_in expansion.now) number ≡ Some c → OnOk result (HasAppended (in_numbers (kept (c ∷ []))) lits.old.items lits.new.items ends.old.items ends.new.items) }
    ensures kept_literals { take (length lits.old.items) lits.new.items ≡ lits.old.items }
    ensures kept_ends { take (length ends.old.items) ends.new.items ≡ ends.old.items }
{
    said.clear();
    put_clause(expansion, number, said)?;
    append_clause(said, lits, ends)
}

/// Appends all clauses.
fn append_all(
    expansion: &Expansion<'_>,
    said: &mut Literals,
    lits: &mut Vec<Lit>,
    ends: &mut Vec<usize>,
) -> Result<(), AllocError>
    requires counted { are_counted expansion.now ≡ true }
    requires few { length (clauses_in expansion.now) ≤ 65536 }
    requires numbers { list_all (list_all has_number) (clauses_in expansion.now) ≡ true }
    ensures appended { OnOk result (HasAppended (in_numbers (kept (clauses_in expansion.now))) lits.old.items lits.new.items ends.old.items ends.new.items) }
    ensures kept_literals { take (length lits.old.items) lits.new.items ≡ lits.old.items }
    ensures kept_ends { take (length ends.old.items) ends.new.items ≡ ends.old.items }
{
    for number in 0..count_in(expansion) {
        append_numbered(expansion, number, said, lits, ends)?;
    }
    Ok(())
}

/// Appends the clauses of a dependency.
pub(crate) fn append_rich(
    task: &Task,
    prov: &Providers,
    dep: DepId,
    positive: bool,
    except: &Option<PackNo>,
    lits: &mut Vec<Lit>,
    ends: &mut Vec<usize>,
) -> Result<(), AllocError>
    requires index { IsIndexOf prov.now (catalog_of task.now) }
    requires held { dep < length task.now.pool.nodes }
    requires few { clause_count (catalog_of task.now) except.now positive (dependency (catalog_of task.now) dep) ≤ 65536 }
    ensures appended { OnOk result (HasAppended (dependency_clauses (catalog_of task.now) except.now positive (dependency (catalog_of task.now) dep)) lits.old.items lits.new.items ends.old.items ends.new.items) }
    ensures kept_literals { take (length lits.old.items) lits.new.items ≡ lits.old.items }
    ensures kept_ends { take (length ends.old.items) ends.new.items ≡ ends.old.items }
{
    task.universe.marks_each();
    let alloc = *lits.allocator();
    let expansion = expand(alloc, task, prov, dep, positive, except)?;
    let mut said = Literals::new(alloc);
    append_all(&expansion, &mut said, lits, ends)
}
