//! A wanted EVR among the provides of a name in order.
ghost use Rattle.std.specs.Prelude.{ℕ, ◌≡◌, ◌≤◌, ◌<◌, length, true, slice_get, Some, IfOk, OnOk, IfSome};
ghost use Rattle.solv_pool.specs.Prelude.{text_at, is_among};
ghost use Rattle.solv_prov.specs.Inner.Ranking.{IsRanked, AreCuts};
ghost use Rattle.solv_prov.specs.declared.capability.Provide.{Provide as Offered};
ghost use Rattle.solv_prov.specs.Inner.Seeking.{is_met, offered, first_of, end_of, IsSought, AreCandidates};
ghost use Rattle.solv_prov.specs.declared.ranking.Placed.{Placed as PlacedEvr};

use crate::capability::text;
use crate::ranking::{Cuts, Placed, Ranks, cuts_of, meets_ranked, standing_at};
use solv_base::standing_follows_the_order;
use solv_pool::{Cmp, NameId, Pool};
use std::alloc::{AllocError, Global};

/// A wanted EVR, and where it stands among the provides of a name.
#[derive(Clone, Copy)]
pub(crate) struct Sought<'a> {
    pub ranks: &'a Ranks,
    pub wanted: Cmp,
    pub evr: NameId,
    pub cuts: Cuts,
}

/// Finds where a wanted EVR stands.
pub(crate) fn seek<'a>(pool: &Pool, ranks: &'a Ranks, wanted: Cmp, evr: NameId) -> Sought<'a>
    requires { IsRanked pool.now ranks.now }
    ensures sought { IsSought pool.now result }
    ensures ranks { result.ranks.now ≡ ranks.now }
    ensures wanted { result.wanted ≡ wanted }
    ensures evr { result.evr ≡ evr }
{
    let cuts = cuts_of(pool, &ranks.order, text(pool, evr));
    Sought {
        ranks,
        wanted,
        evr,
        cuts,
    }
}

/// Whether the provide at a place meets the wanted EVR. No text is read.
pub(crate) fn is_met(pool: &Pool, sought: &Sought<'_>, place: usize) -> bool
    requires sought { IsSought pool.now sought.now }
    requires within { place < length (offered sought.now) }
    ensures { (x : Offered) → slice_get (offered sought.now) place ≡ Some x → result ≡ is_met pool.now sought.now x }
{
    standing_follows_the_order();
    let version = &sought.ranks.provides[place].version;
    let at = sought.ranks.ranks[place] as usize;
    if at >= sought.ranks.order.len() {
        return true;
    }
    meets_ranked(version, sought.wanted, standing_at(&sought.cuts, at))
}

/// Where in order the provides begin that meet the wanted EVR, if none is a range, but for those that alone have no release.
fn first_met(sought: &Sought<'_>) -> usize
    ensures { result ≡ first_of sought.now }
{
    if sought.wanted.less {
        0
    } else if sought.wanted.equal {
        sought.cuts.alike
    } else {
        sought.cuts.above
    }
}

/// Where they end.
fn end_met(sought: &Sought<'_>) -> usize
    ensures { result ≡ end_of sought.now }
{
    if sought.wanted.greater {
        sought.ranks.order.len()
    } else if sought.wanted.equal {
        sought.cuts.above
    } else {
        sought.cuts.alike
    }
}

/// How many places are from one to another.
fn distance(from: usize, to: usize) -> usize {
    if from < to { to - from } else { 0 }
}

/// Whether those that may meet the wanted EVR are more than a sixteenth of all.
fn are_many(sought: &Sought<'_>) -> bool {
    let few = sought.ranks.provides.len() / 16;
    let bare = distance(sought.cuts.bare, sought.cuts.earlier);
    let run = distance(first_met(sought), end_met(sought));
    sought.ranks.unranked.len() > few || bare > few || run > few
}

/// Appends the places of the provides that stand in order from one to another.
fn put_run(
    order: &[Placed],
    from: usize,
    to: usize,
    places: &mut Vec<u32>,
) -> Result<(), AllocError>
    ensures kept { OnOk result ((p : ℕ) → is_among places.old.items p ≡ true → is_among places.new.items p ≡ true) }
    ensures put { OnOk result ((k : ℕ) (y : PlacedEvr) → from ≤ k → k < to → slice_get order.now k ≡ Some y → is_among places.new.items y.place ≡ true) }
{
    for at in from..to {
        if at < order.len() {
            places.push(order[at].place)?;
        }
    }
    Ok(())
}

/// Appends the places of those that meet the wanted EVR, if none is a range, but for those that alone have no release.
fn put_met(sought: &Sought<'_>, places: &mut Vec<u32>) -> Result<(), AllocError>
    ensures kept { OnOk result ((p : ℕ) → is_among places.old.items p ≡ true → is_among places.new.items p ≡ true) }
    ensures put { OnOk result ((k : ℕ) (y : PlacedEvr) → first_of sought.now ≤ k → k < end_of sought.now → slice_get sought.now.ranks.now.order.items k ≡ Some y → is_among places.new.items y.place ≡ true) }
{
    let (from, to) = (first_met(sought), end_met(sought));
    put_run(&sought.ranks.order, from, to, places)
}

/// The same places.
fn copied(alloc: Global, places: &[u32]) -> Result<Vec<u32>, AllocError>
    ensures { IfOk result (λ copy. copy.items ≡ places.now) }
{
    let mut copy = Vec::new(alloc);
    copy.extend_from_slice(places)?;
    Ok(copy)
}

/// The places of some provides, among them all that meet the wanted EVR, where no provide is a range.
fn gather(pool: &Pool, sought: &Sought<'_>) -> Result<Vec<u32>, AllocError>
    requires sought { IsSought pool.now sought.now }
    requires exact { sought.now.ranks.now.exact ≡ true }
    ensures { IfOk result (λ places. (p : ℕ) (x : Offered) → slice_get (offered sought.now) p ≡ Some x → is_met pool.now sought.now x ≡ true → is_among places.items p ≡ true) }
{
    standing_follows_the_order();
    let mut places = copied(pool.alloc(), &sought.ranks.unranked)?;
    let cuts = sought.cuts;
    put_run(&sought.ranks.order, cuts.bare, cuts.earlier, &mut places)?;
    put_met(sought, &mut places)?;
    Ok(places)
}

/// The same, ascending.
fn gather_ascending(pool: &Pool, sought: &Sought<'_>) -> Result<Vec<u32>, AllocError>
    requires sought { IsSought pool.now sought.now }
    requires exact { sought.now.ranks.now.exact ≡ true }
    ensures { IfOk result (λ places. AreCandidates pool.now sought.now places.items) }
{
    let mut places = gather(pool, sought)?;
    places.sort_unstable();
    Ok(places)
}

/// The same, or nothing where they are many or some provide is a range.
pub(crate) fn candidates(pool: &Pool, sought: &Sought<'_>) -> Result<Option<Vec<u32>>, AllocError>
    requires { IsSought pool.now sought.now }
    ensures { IfOk result (λ found. IfSome found (λ places. AreCandidates pool.now sought.now places.items)) }
{
    if !sought.ranks.exact || are_many(sought) {
        return Ok(None);
    }
    let places = gather_ascending(pool, sought)?;
    Ok(Some(places))
}
