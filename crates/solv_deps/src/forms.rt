//! Which forms of dependencies may stand where.
ghost use Rattle.std.specs.Prelude.{◌≡◌, ◌<◌, length, true};
ghost use Rattle.solv_base.specs.Dependency.{package_wise};
ghost use Rattle.solv_base.specs.Places.{fits_place, unconditional, may_stand as stands_under};
ghost use Rattle.solv_deps.specs.Inner.Drafts.{said};
ghost use Rattle.solv_deps.specs.Expressions.{condition_of};
ghost use Rattle.solv_deps.specs.Table.{is_capability, stands_at};

use crate::draft::{Draft, Written};
use crate::place::Place;
use crate::sign::{Conditional, Joint};

/// Whether a dependency is a name, with a comparison and an EVR or without.
fn is_capability(draft: &Draft<'_>, number: u8) -> bool
    requires { number < length draft.now }
    ensures { result ≡ is_capability (said draft.now number) }
{
    match draft.get(number) {
        Written::Simple(_) | Written::Versioned(_, _, _) => true,
        Written::Namespace(_) => false,
        Written::Joined(_, _, _) | Written::Without(_, _) => false,
        Written::Under(_, _, _) | Written::UnderElse(_, _, _, _) => false,
    }
}

/// Whether packages meet a dependency each by itself.
fn is_package_wise(draft: &Draft<'_>, number: u8) -> bool
    requires { number < length draft.now }
    ensures { result ≡ package_wise (said draft.now number) }
{
    match draft.get(number) {
        Written::Simple(_) | Written::Versioned(_, _, _) | Written::Namespace(_) => true,
        Written::Joined(Joint::Both, _, _) => false,
        Written::Joined(Joint::Either, a, b)
        | Written::Joined(Joint::Jointly, a, b)
        | Written::Without(a, b) => is_package_wise(draft, a) && is_package_wise(draft, b),
        Written::Under(_, _, _) | Written::UnderElse(_, _, _, _) => false,
    }
}

/// Whether a dependency has no condition, and the operands of `+` and `-` are met by packages each by itself.
fn is_unconditional(draft: &Draft<'_>, number: u8) -> bool
    requires { number < length draft.now }
    ensures { result ≡ unconditional (said draft.now number) }
{
    match draft.get(number) {
        Written::Simple(_) | Written::Versioned(_, _, _) | Written::Namespace(_) => true,
        Written::Joined(Joint::Both, a, b) | Written::Joined(Joint::Either, a, b) => {
            is_unconditional(draft, a) && is_unconditional(draft, b)
        }
        Written::Joined(Joint::Jointly, a, b) | Written::Without(a, b) => {
            is_package_wise(draft, a) && is_package_wise(draft, b)
        }
        Written::Under(_, _, _) | Written::UnderElse(_, _, _, _) => false,
    }
}

/// Whether `<IF>`, or `<UNLESS>`, may stand there: the first where something is required, the other where something conflicts.
fn stands_where(kind: Conditional, required: bool) -> bool
    ensures { result ≡ stands_under required (condition_of kind) }
{
    match kind {
        Conditional::If => required,
        Conditional::Unless => !required,
    }
}

/// Whether a dependency may stand where something is required, or where something conflicts.
fn fits(draft: &Draft<'_>, number: u8, required: bool) -> bool
    requires { number < length draft.now }
    ensures { result ≡ fits_place required (said draft.now number) }
{
    match draft.get(number) {
        Written::Simple(_) | Written::Versioned(_, _, _) | Written::Namespace(_) => true,
        Written::Joined(Joint::Both, a, b) | Written::Joined(Joint::Either, a, b) => {
            fits(draft, a, required) && fits(draft, b, required)
        }
        Written::Joined(Joint::Jointly, a, b) | Written::Without(a, b) => {
            is_package_wise(draft, a) && is_package_wise(draft, b)
        }
        Written::Under(kind, a, b) => {
            stands_where(kind, required) && (fits(draft, a, required) && is_unconditional(draft, b))
        }
        Written::UnderElse(kind, a, b, c) => {
            stands_where(kind, required)
                && (fits(draft, a, required)
                    && (is_unconditional(draft, b) && fits(draft, c, required)))
        }
    }
}

/// Whether a dependency of a draft may stand at a place.
pub(crate) fn may_stand(draft: &Draft<'_>, number: u8, place: Place) -> bool
    requires { number < length draft.now }
    ensures { result ≡ stands_at place (said draft.now number) }
{
    match place {
        Place::Requires => fits(draft, number, true),
        Place::Conflicts => fits(draft, number, false),
        Place::Plain => is_capability(draft, number),
    }
}
