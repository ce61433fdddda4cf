//! The set of a trail.
ghost use Rattle.std.specs.Prelude.{◌≡◌, ◌++◌, ◌∷◌, [], flat_map, option_to_list, IfOk};
ghost use Rattle.solv_decide.specs.Sets.{IsSetOf};
ghost use Rattle.solv_decide.specs.Inner.Sets.{pack_of};

use solv_core::{Event, Trail};
use solv_jobs::put_in_order;
use solv_pool::PackNo;
use std::alloc::{AllocError, Global};

/// The package that an event says is in, if it says so of one.
fn pack_in(event: &Event) -> Option<PackNo>
    ensures { option_to_list result ≡ pack_of event.now }
{
    match *event {
        Event::Known(lit) => {
            if lit.is_in() {
                Some(PackNo(lit.package()))
            } else {
                None
            }
        }
        Event::Took(_, pack) => Some(pack),
    }
}

/// The packages that events say are in, in the order of the events.
fn packs_in(alloc: Global, events: &[Event]) -> Result<Vec<PackNo>, AllocError>
    ensures { IfOk result (λ packs. packs.items ≡ flat_map pack_of events.now) }
{
    let mut packs = Vec::new(alloc);
    for event in events {
        if let Some(pack) = pack_in(event) {
            packs.push(pack)?;
        }
    }
    Ok(packs)
}

/// The system and these packages, of which the system is none.
fn with_system(alloc: Global, packs: &[PackNo]) -> Result<Vec<PackNo>, AllocError>
    ensures { IfOk result (λ set. set.items ≡ 0 ∷ packs.now) }
{
    let mut set = Vec::with_capacity(alloc, 1)?;
    set.push(PackNo(0))?;
    set.extend_from_slice(packs)?;
    Ok(set)
}

/// The system, and the packages that a trail has known in or taken, ascending.
pub fn set_of(alloc: Global, trail: &Trail) -> Result<Vec<PackNo>, AllocError>
    ensures { IfOk result (λ set. IsSetOf trail.now.events set.items) }
{
    let mut packs = packs_in(alloc, trail.events.held())?;
    put_in_order(&mut packs);
    with_system(alloc, &packs)
}
