//! Relations that were visited.
ghost use Rattle.std.specs.Prelude.{ℕ, ◌≡◌, ◌<◌, ◌||◌, ◌==◌, length};
ghost use Rattle.solv_clean.specs.Inner.Tables.{is_marked};

use solv_pool::DepId;

/// Whether a relation was visited. One without an entry was not.
pub(crate) fn was_passed(passed: &[bool], dep: DepId) -> bool
    ensures { result ≡ is_marked passed.now dep }
{
    let place = dep.0 as usize;
    place < passed.len() && passed[place]
}

/// Records that a relation was visited. One that has no entry is left out.
pub(crate) fn note_passed(passed: &mut [bool], dep: DepId)
    ensures size { length passed.new ≡ length passed.old }
    ensures noted { (id : ℕ) → id < length passed.old → is_marked passed.new id ≡ (is_marked passed.old id || (dep == id)) }
{
    let place = dep.0 as usize;
    if place < passed.len() {
        passed[place] = true;
    }
}
