//! How a provided EVR stands to a wanted one: all that matching asks of the two.
ghost use Rattle.std.specs.Prelude.{◌≡◌, List, ℕ};
ghost use Rattle.solv_base.specs.Evr.{parts};
ghost use Rattle.solv_base.specs.Inner.Standings.{level, by_releases, standing, meets_by_standing, StandingRises, MeetsByStanding};
ghost use Rattle.std.specs.Option.{option_copied};

use crate::comparison::Cmp;
use crate::version::tokens::compare_tokens;
use crate::version::{compare_stems, evr_split, same_side};
use std::cmp::Ordering;

/// How a provided EVR stands to a wanted one.
///
/// Along provided EVRs that ascend it goes through these from the first to the last.
#[derive(Clone, Copy, PartialEq, Eq, Debug)]
pub enum Standing {
    /// Its epoch and version are lower.
    Below,
    /// Epoch and version are equal, and it alone has no release.
    Bare,
    /// Epoch and version are equal, and its release is lower.
    Earlier,
    /// They compare equal.
    Alike,
    /// Epoch and version are equal, and the wanted one alone has no release.
    Released,
    /// Its epoch and version are higher, or they are equal and its release is higher.
    Above,
}

impl Standing {
    /// Its number from the lowest one on.
    pub fn level(self) -> u8
        ensures { result ≡ level self }
    {
        match self {
            Standing::Below => 0,
            Standing::Bare => 1,
            Standing::Earlier => 2,
            Standing::Alike => 3,
            Standing::Released => 4,
            Standing::Above => 5,
        }
    }
}

/// The standing of an EVR whose epoch and version are equal to those of the wanted one.
fn standing_by_release(have: Option<&[u8]>, want: Option<&[u8]>) -> Standing
    ensures { result ≡ by_releases (option_copied have.entry) (option_copied want.entry) }
{
    match (have, want) {
        (None, None) => Standing::Alike,
        (None, Some(_)) => Standing::Bare,
        (Some(_), None) => Standing::Released,
        (Some(have), Some(want)) => match compare_tokens(have, want) {
            Ordering::Less => Standing::Earlier,
            Ordering::Equal => Standing::Alike,
            Ordering::Greater => Standing::Above,
        },
    }
}

/// How a provided EVR stands to a wanted one.
pub fn evr_standing(have: &[u8], want: &[u8]) -> Standing
    ensures { result ≡ standing (parts have.now) (parts want.now) }
{
    let (have, want) = (evr_split(have), evr_split(want));
    match compare_stems(&have, &want) {
        Ordering::Less => Standing::Below,
        Ordering::Equal => standing_by_release(have.release, want.release),
        Ordering::Greater => Standing::Above,
    }
}

/// Whether a provide whose EVR stands so meets a dependency, both of one name.
pub fn standing_meets(provide: Cmp, wanted: Cmp, standing: Standing) -> bool
    ensures { result ≡ meets_by_standing provide wanted standing }
{
    if same_side(provide, wanted) {
        return true;
    }
    match standing {
        Standing::Below | Standing::Earlier => wanted.less || provide.greater,
        Standing::Bare => provide.equal,
        Standing::Alike => provide.equal && wanted.equal,
        Standing::Released => wanted.equal,
        Standing::Above => wanted.greater || provide.less,
    }
}

/// Along provided EVRs that ascend their standing to a wanted one never falls, and of the EVRs of a provide and of a dependency their standing alone decides whether they meet.
pub fn standing_follows_the_order()
    ensures rises { StandingRises }
    ensures matching { MeetsByStanding }
{}
