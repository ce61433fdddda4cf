//! The provides of a name in the order of their EVRs, for names of many: a wanted EVR is found by halves.
ghost use Rattle.std.specs.Prelude.{ℕ, ◌≡◌, ◌≤◌, ◌<◌, ◌==◌, length, true, false, slice_get, slice_index, nat_eq, Some, IfOk, OnOk, IfSome, if◌then◌else◌};
ghost use Rattle.std.specs.List.{list_all};
ghost use Rattle.std.specs.List.Sorted.{IsSortedBy};
ghost use Rattle.solv_pool.specs.Prelude.{is_among};
ghost use Rattle.solv_base.specs.Inner.Standings.{level};
ghost use Rattle.solv_prov.specs.declared.capability.Version.TheVariants.{Any};
ghost use Rattle.solv_prov.specs.declared.ranking.Placed.{Placed as PlacedEvr};
ghost use Rattle.indexmap.specs.IndexMap.{get};
ghost use Rattle.solv_prov.specs.Inner.Groups.{group_at};
ghost use Rattle.solv_prov.specs.Inner.Ranking.{has_evr, is_exact, standing_by, meets_ranked, stands_before, height, AreRanksIn, AreOthersAny, IsCut, IsCutBelow, AreCuts, IsRanked, AreRanked};

use crate::capability::{Provide, Version, text};
use crate::groups::Groups;
use indexmap::IndexMap;
use solv_base::{Standing, evr_standing, standing_follows_the_order, standing_meets};
use solv_pool::{Cmp, NameId, Pool, evr_compare, evr_order_is_total};
use std::alloc::{AllocError, Global};

/// An EVR at which a name is provided, and the place of the provide among those of the name.
#[derive(Clone, Copy)]
pub(crate) struct Placed {
    pub evr: NameId,
    pub place: u32,
}

/// The provides of a name, and the order of their EVRs.
#[derive(Drop)]
pub(crate) struct Ranks {
    /// The provides in order of packages.
    pub provides: Vec<Provide>,
    /// Those with an EVR, in its order.
    pub order: Vec<Placed>,
    /// Where each provide stands in that order. One that has no EVR stands behind its end.
    pub ranks: Vec<u32>,
    /// The places of those that do not stand in it, having no EVR.
    pub unranked: Vec<u32>,
    /// Is the comparison of all others `=`?
    pub exact: bool,
}

/// Of how many provides in order the EVR stands lower to a wanted one than each standing.
#[derive(Clone, Copy)]
pub(crate) struct Cuts {
    pub bare: usize,
    pub earlier: usize,
    pub alike: usize,
    pub released: usize,
    pub above: usize,
}

/// Those with an EVR, in order of packages.
fn with_evrs(alloc: Global, provides: &[Provide], count: u32) -> Result<Vec<Placed>, AllocError>
    requires { count ≤ length provides.now }
{
    let mut order = Vec::new(alloc);
    for place in 0..count {
        if let Version::Within(_, evr) = provides[place as usize].version {
            order.push(Placed { evr, place })?;
        }
    }
    Ok(order)
}

/// Sorts by EVRs.
fn sort(pool: &Pool, order: &mut Vec<Placed>)
    ensures { IsSortedBy (stands_before pool.now) order.new.items }
{
    evr_order_is_total();
    order.sort_unstable_by(|a, b| evr_compare(text(pool, a.evr), text(pool, b.evr)));
}

/// Whether a provide has this EVR.
fn is_at(provide: &Provide, evr: NameId) -> bool
    ensures { result ≡ has_evr provide.now.version evr }
{
    match provide.version {
        Version::Any => false,
        Version::Within(_, have) => have == evr,
    }
}

/// Notes where the provide stands that has this place in the order.
fn put_rank(provides: &[Provide], order: &[Placed], ranks: &mut Vec<u32>, at: u32)
    requires { AreRanksIn provides.now order.now ranks.old.items }
    ensures each { length ranks.new.items ≡ length ranks.old.items }
    ensures ranked { AreRanksIn provides.now order.now ranks.new.items }
{
    let Some(placed) = order.get(at as usize) else {
        return;
    };
    let place = placed.place as usize;
    let Some(provide) = provides.get(place) else {
        return;
    };
    if is_at(provide, placed.evr) && place < ranks.len() {
        ranks[place] = at;
    }
}

/// Where each provide stands in the order.
fn places_in(
    alloc: Global,
    provides: &[Provide],
    order: &[Placed],
    count: u32,
) -> Result<Vec<u32>, AllocError>
    requires { count ≡ length order.now }
    ensures each { IfOk result (λ ranks. length ranks.items ≡ length provides.now) }
    ensures ranked { IfOk result (λ ranks. AreRanksIn provides.now order.now ranks.items) }
{
    let mut ranks = vec![in alloc; u32::MAX; provides.len()]?;
    for at in 0..count {
        put_rank(provides, order, &mut ranks, at);
    }
    Ok(ranks)
}

/// The places of the provides that do not stand in the order.
fn behind(alloc: Global, ranks: &[u32], count: u32, end: usize) -> Result<Vec<u32>, AllocError>
    requires { count ≡ length ranks.now }
    ensures { IfOk result (λ places. (p : ℕ) → p < length ranks.now → end ≤ slice_index ranks.now p → is_among places.items p ≡ true) }
{
    let mut places = Vec::new(alloc);
    for place in 0..count {
        if ranks[place as usize] as usize >= end {
            places.push(place)?;
        }
    }
    Ok(places)
}

/// Whether versions are no range.
fn is_exact(version: &Version) -> bool
    ensures { result ≡ is_exact version.now }
{
    match *version {
        Version::Any => true,
        Version::Within(comparison, _) => {
            comparison.equal && (!comparison.less && !comparison.greater)
        }
    }
}

/// Whether no provide is a range.
fn are_exact(provides: &[Provide]) -> bool
    ensures { result ≡ list_all (λ x. is_exact x.version) provides.now }
{
    for provide in provides {
        if !is_exact(&provide.version) {
            return false;
        }
    }
    true
}

/// Whether a provide stands in the order, or has no EVR.
fn is_complete(provide: &Provide, rank: u32, end: usize) -> bool
    ensures { result ≡ true → end ≤ rank → provide.now.version ≡ Any }
{
    match provide.version {
        Version::Any => true,
        Version::Within(_, _) => (rank as usize) < end,
    }
}

/// Whether each provide does.
fn are_complete(provides: &[Provide], ranks: &[u32], end: usize) -> bool
    requires { length ranks.now ≡ length provides.now }
    ensures { result ≡ true → AreOthersAny provides.now end ranks.now }
{
    for place in 0..provides.len() {
        let complete = is_complete(&provides[place], ranks[place], end);
        if !complete {
            return false;
        }
    }
    true
}

/// How the EVR at a place of the order stands to a wanted one.
fn level_at(pool: &Pool, placed: &Placed, want: &[u8]) -> u8
    ensures { result ≡ height pool.now want.now placed.now }
{
    evr_standing(text(pool, placed.evr), want).level()
}

/// How many EVRs in order stand lower to a wanted one than this.
fn count_lower(pool: &Pool, order: &[Placed], want: &[u8], standing: Standing) -> usize
    requires { IsSortedBy (stands_before pool.now) order.now }
    ensures { IsCut pool.now order.now want.now (level standing) result }
{
    evr_order_is_total();
    standing_follows_the_order();
    let level = standing.level();
    order.partition_point(|placed| level_at(pool, placed, want) < level)
}

/// Whether the EVR at a place of the order, if there is one, stands this high or higher.
fn is_high(pool: &Pool, order: &[Placed], want: &[u8], at: usize, level: u8) -> bool
    ensures high { result ≡ true → (x : PlacedEvr) → slice_get order.now at ≡ Some x → level ≤ height pool.now want.now x }
    ensures low { result ≡ false → (x : PlacedEvr) → slice_get order.now at ≡ Some x → height pool.now want.now x < level }
    ensures within { result ≡ false → at < length order.now }
{
    match order.get(at) {
        Some(placed) => level <= level_at(pool, placed, want),
        None => true,
    }
}

/// The same, of which it is known how many stand lower than a lower one. These are often all, or all but one.
fn count_from(pool: &Pool, order: &[Placed], want: &[u8], from: usize, standing: Standing) -> usize
    requires sorted { IsSortedBy (stands_before pool.now) order.now }
    requires from { IsCutBelow pool.now order.now want.now (level standing) from }
    ensures { IsCut pool.now order.now want.now (level standing) result }
{
    evr_order_is_total();
    standing_follows_the_order();
    let here = is_high(pool, order, want, from, standing.level());
    if here {
        return from;
    }
    let next = from + 1;
    let behind = is_high(pool, order, want, next, standing.level());
    if behind {
        return next;
    }
    count_lower(pool, order, want, standing)
}

/// Where the EVRs of each standing to a wanted one begin.
pub(crate) fn cuts_of(pool: &Pool, order: &[Placed], want: &[u8]) -> Cuts
    requires { IsSortedBy (stands_before pool.now) order.now }
    ensures { AreCuts pool.now order.now want.now result }
{
    let bare = count_lower(pool, order, want, Standing::Bare);
    let earlier = count_from(pool, order, want, bare, Standing::Earlier);
    let alike = count_from(pool, order, want, earlier, Standing::Alike);
    let released = count_from(pool, order, want, alike, Standing::Released);
    let above = count_from(pool, order, want, released, Standing::Above);
    Cuts {
        bare,
        earlier,
        alike,
        released,
        above,
    }
}

/// The standing of the EVR at a place of the order.
pub(crate) fn standing_at(cuts: &Cuts, at: usize) -> Standing
    ensures { result ≡ standing_by cuts.now at }
{
    if at < cuts.bare {
        Standing::Below
    } else if at < cuts.earlier {
        Standing::Bare
    } else if at < cuts.alike {
        Standing::Earlier
    } else if at < cuts.released {
        Standing::Alike
    } else if at < cuts.above {
        Standing::Released
    } else {
        Standing::Above
    }
}

/// Whether provided versions whose EVR stands so meet wanted ones.
pub(crate) fn meets_ranked(version: &Version, wanted: Cmp, standing: Standing) -> bool
    ensures { result ≡ meets_ranked version.now wanted standing }
{
    match *version {
        Version::Any => true,
        Version::Within(comparison, _) => standing_meets(comparison, wanted, standing),
    }
}

/// The provides of a name in order. Whether each with an EVR stands there is looked at, and not known.
fn ranks_of(
    alloc: Global,
    pool: &Pool,
    groups: &Groups<Provide>,
    name: usize,
) -> Result<Option<Ranks>, AllocError>
    ensures listed { IfOk result (λ found. IfSome found (λ ranks. ranks.provides.items ≡ group_at groups.now name)) }
    ensures ranked { IfOk result (λ found. IfSome found (λ ranks. IsRanked pool.now ranks)) }
{
    let provides = groups.listed(alloc, name)?;
    let Ok(count) = u32::try_from(provides.len()) else {
        return Err(AllocError);
    };
    let mut order = with_evrs(alloc, &provides, count)?;
    sort(pool, &mut order);
    let Ok(end) = u32::try_from(order.len()) else {
        return Err(AllocError);
    };
    let ranks = places_in(alloc, &provides, &order, end)?;
    if !are_complete(&provides, &ranks, order.len()) {
        return Ok(None);
    }
    let unranked = behind(alloc, &ranks, count, order.len())?;
    let exact = are_exact(&provides);
    Ok(Some(Ranks {
        provides,
        order,
        ranks,
        unranked,
        exact,
    }))
}

/// Enters a name.
fn enter(map: &mut IndexMap<u32, Ranks>, name: u32, ranks: Ranks) -> Result<(), AllocError>
    ensures { OnOk result ((k : ℕ) → get nat_eq map.new k ≡ (if name == k then Some ranks else get nat_eq map.old k)) }
{
    match map.insert(name, ranks) {
        Ok(_) => Ok(()),
        Err(_) => Err(AllocError),
    }
}

/// Names of many provides, each with these in order.
pub(crate) fn rank_names(
    alloc: Global,
    pool: &Pool,
    provides: &Groups<Provide>,
) -> Result<IndexMap<u32, Ranks>, AllocError>
    ensures { IfOk result (λ map. AreRanked pool.now provides.now map) }
{
    let mut map = IndexMap::new(alloc);
    pool.holds_each_once();
    for id in 0..pool.name_count() {
        if provides.is_long(id) {
            if let Some(ranks) = ranks_of(alloc, pool, provides, id)? {
                enter(&mut map, id as u32, ranks)?;
            }
        }
    }
    Ok(map)
}
