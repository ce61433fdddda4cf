//! What a literal says of a package.
ghost use Rattle.std.specs.Prelude.{◌≡◌, ◌<◌, nat_le, true};
ghost use Rattle.solv_pool.specs.Prelude.{same_literal, negation as negation_of, number_of};
ghost use Rattle.solv_rich.specs.Inner.Expansions.{literal_of};
ghost use Rattle.solv_rich.specs.Inner.Shortening.{package_of};

use crate::expansion::Said;
use solv_pack::Lit;

/// Whether two literals are one.
pub(crate) fn is_same(own: &Said, other: &Said) -> bool
    ensures { result ≡ same_literal (literal_of own.now) (literal_of other.now) }
{
    match *own {
        Said::In(pack) => match *other {
            Said::In(another) => pack == another,
            Said::Out(_) => false,
        },
        Said::Out(pack) => match *other {
            Said::In(_) => false,
            Said::Out(another) => pack == another,
        },
    }
}

/// The package is out instead of in, or in instead of out.
pub(crate) fn negation(said: &Said) -> Said
    ensures { literal_of result ≡ negation_of (literal_of said.now) }
{
    match *said {
        Said::In(pack) => Said::Out(pack),
        Said::Out(pack) => Said::In(pack),
    }
}

/// The number of the package of a literal.
pub(crate) fn number_in(said: &Said) -> u32
    ensures { result ≡ package_of (literal_of said.now) }
{
    match *said {
        Said::In(pack) => pack.0,
        Said::Out(pack) => pack.0,
    }
}

/// A literal of a package.
pub(crate) fn lit(said: &Said) -> Lit
    requires some { 0 < package_of (literal_of said.now) }
    requires number { nat_le (package_of (literal_of said.now)) 1048575 ≡ true }
    ensures { result ≡ number_of (literal_of said.now) }
{
    match *said {
        Said::In(pack) => Lit::new(pack.0 as i32),
        Said::Out(pack) => Lit::new(-(pack.0 as i32)),
    }
}
