//! Questions that ask for nothing because of what is in and out, whichever rules are enabled.
ghost use Rattle.std.specs.Prelude.{◌≡◌, ◌<◌, ◌==◌, ◌||◌, ◌&&◌, not, ℕ, true, false};
ghost use Rattle.std.specs.List.{list_all};
ghost use Rattle.solv_pool.specs.Prelude.{is_fact};
ghost use Rattle.solv_trail.specs.Inner.Numbers.{has};
ghost use Rattle.solv_plan.specs.Inside.{some_inside};
ghost use Rattle.solv_plan.specs.Inner.Settling.{all_outside, demand_quiet, keep_quiet};

use crate::asking::is_some_in;
use crate::plans::{Demand, Keep};
use solv_pool::PackNo;
use solv_trail::{Known, NumberSet};

/// Whether all of these packages are known out.
fn are_out(known: &Known, packs: &[PackNo]) -> bool
    ensures { result ≡ all_outside (is_fact known.now.lits) packs.now }
{
    packs.iter().all(|pack| known.is_out(*pack))
}

/// Whether a demand asks for nothing, be its rule enabled or not.
pub(crate) fn is_demand_quiet(known: &Known, demand: &Demand) -> bool
    ensures { result ≡ demand_quiet (is_fact known.now.lits) demand.now }
{
    is_some_in(known, demand.candidates.held()) || are_out(known, demand.candidates.held())
}

/// Whether none of these demands asks for anything.
fn are_demands_quiet(known: &Known, demands: &[Demand]) -> bool
    ensures { result ≡ list_all (demand_quiet (is_fact known.now.lits)) demands.now }
{
    demands.iter().all(|demand| is_demand_quiet(known, demand))
}

/// Whether what is close to an installed package is in, or neither that nor the rest of what may take its place may be taken.
fn is_decided(known: &Known, keep: &Keep) -> bool
    ensures { result ≡ (some_inside (is_fact known.now.lits) keep.now.close || (all_outside (is_fact known.now.lits) keep.now.close && all_outside (is_fact known.now.lits) keep.now.far)) }
{
    if is_some_in(known, keep.close.held()) {
        return true;
    }
    if !are_out(known, keep.close.held()) {
        return false;
    }
    are_out(known, keep.far.held())
}

/// Whether nothing is asked for of an installed package, whichever rules are enabled.
pub(crate) fn is_keep_quiet(known: &Known, keep: &Keep) -> bool
    ensures { result ≡ keep_quiet (is_fact known.now.lits) keep.now }
{
    if !are_demands_quiet(known, keep.best.held()) {
        return false;
    }
    if !keep.is_asked {
        return true;
    }
    is_decided(known, keep)
}

/// Whether a place is among these.
pub(crate) fn has_place(places: &NumberSet, place: usize) -> bool
    ensures { result ≡ true → has places.now place ≡ true }
{
    if place >= places.room() as usize {
        return false;
    }
    places.has(place as u32)
}

/// Adds a place, where there is room.
pub(crate) fn put_place(places: &mut NumberSet, place: usize)
    ensures { (k : ℕ) → has places.new k ≡ true → ((k == place) || has places.old k) ≡ true }
{
    if place < places.room() as usize {
        places.insert(place as u32);
    }
}

/// Removes all places.
pub(crate) fn empty(places: &mut NumberSet)
    ensures { (k : ℕ) → has places.new k ≡ false }
{
    let mut from = 0;
    while let Some(place) = places.next(from) {
        places.remove(place);
        from = place + 1;
    }
}
