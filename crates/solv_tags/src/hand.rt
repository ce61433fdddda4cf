//! The lines that belong to the package in hand.
ghost use Rattle.std.specs.Prelude.{◌≡◌, ◌<◌, ◌∷◌, [], ℕ, List, length, Result, Ok, IfOk, IfErr, OnOk};
ghost use Rattle.solv_base.specs.Pool.{Held, Grows, text_at};
ghost use Rattle.solv_deps.specs.Entering.{text_entered, Entered};
ghost use Rattle.solv_deps.specs.Inner.Recent.{AreRead};
ghost use Rattle.solv_tags.specs.Headings.{trimmed};
ghost use Rattle.solv_tags.specs.declared.tails.Tails.{Tails as Lists};
ghost use Rattle.solv_tags.specs.Inner.RepositoryReading.{HasOneForm};
ghost use Rattle.solv_tags.specs.Inner.TagReading.{IsOf, IsCause, HasRead, HasEnded, AreWithin, HaveTexts, AreTails};
ghost use Rattle.solv_tags.specs.Testtags.{Tagged, cause_of, or_cause};
ghost use Rattle.solv_tags.specs.Inner.Lines.{texts_entered, vendor_entry, path_entry, dependency_entry, entry_of};

use crate::entries::{add_entry, add_path};
use crate::headings::{place_of, trimmed};
use crate::package_words::PackageIds;
use crate::tag::Tag;
use crate::tag_fault::TagCause;
use crate::tails::Tails;
use solv_base::{NameId, Pool};
use solv_deps::{DepFault, Recent, enter_text, read_again};
use solv_pool::Package;

/// The cause at a line that a dependency's is.
fn cause_of(fault: DepFault) -> TagCause
    ensures cause { result ≡ cause_of fault }
    ensures form { HasOneForm result }
{
    match fault {
        DepFault::FullNames => TagCause::FullNames,
        DepFault::Memory => TagCause::Memory,
        _ => TagCause::Dep(fault),
    }
}

/// Enters a text of a line.
fn enter(pool: &mut Pool, text: &[u8]) -> Result<NameId, TagCause>
    ensures entered { IfOk result (λ id. text_entered text.now pool.old ≡ Ok (record { id = id; held = pool.new })) }
    ensures text { IfOk result (λ id. text_at pool.new id ≡ text.now) }
    ensures within { IfOk result (λ id. id < length pool.new.names) }
    ensures refused { IfErr result (λ c. (next : Entered → Result Tagged TagCause) → IsCause c (or_cause (text_entered text.now pool.old) next)) }
    ensures form { IfErr result HasOneForm }
    ensures grows { Grows pool.old pool.new }
{
    match enter_text(pool, text) {
        Ok(id) => Ok(id),
        Err(fault) => Err(cause_of(fault)),
    }
}

/// Enters the texts of a package's line.
pub(crate) fn enter_package(
    pool: &mut Pool,
    name: &[u8],
    evr: &[u8],
    arch: &[u8],
) -> Result<PackageIds, TagCause>
    ensures entered { OnOk result ((next : Held → Result Tagged TagCause) → texts_entered (name.now ∷ evr.now ∷ arch.now ∷ []) pool.old next ≡ next pool.new) }
    ensures within { IfOk result (λ ids. AreWithin (length pool.new.names) ids) }
    ensures texts { IfOk result (λ ids. HaveTexts pool.new ids name.now evr.now arch.now) }
    ensures refused { IfErr result (λ c. (next : Held → Result Tagged TagCause) → IsCause c (texts_entered (name.now ∷ evr.now ∷ arch.now ∷ []) pool.old next)) }
    ensures form { IfErr result HasOneForm }
    ensures grows { Grows pool.old pool.new }
{
    let name = match enter(pool, name) {
        Ok(name) => name,
        Err(cause) => return Err(cause),
    };
    let evr = match enter(pool, evr) {
        Ok(evr) => evr,
        Err(cause) => return Err(cause),
    };
    let arch = match enter(pool, arch) {
        Ok(arch) => arch,
        Err(cause) => return Err(cause),
    };
    Ok(PackageIds { name, evr, arch })
}

/// Reads a vendor.
fn take_vendor(pool: &mut Pool, hand: &mut Package, text: &[u8]) -> Result<(), TagCause>
    requires { IsOf pool.old hand.old }
    ensures tails { (tails : Lists) → AreTails tails hand.old → AreTails tails hand.new }
    ensures ok { OnOk result (HasRead pool.old pool.new hand.old hand.new (λ s a. vendor_entry s a text.now)) }
    ensures refused { IfErr result (λ c. HasEnded pool.old hand.old (λ s a. vendor_entry s a text.now) c) }
    ensures form { IfErr result HasOneForm }
    ensures grows { Grows pool.old pool.new }
{
    if text.is_empty() {
        return Ok(());
    }
    match enter(pool, text) {
        Ok(id) => {
            hand.vendor = Some(id);
            Ok(())
        }
        Err(cause) => Err(cause),
    }
}

/// Reads a path.
fn take_path(
    pool: &mut Pool,
    tails: &mut Tails,
    hand: &mut Package,
    text: &[u8],
) -> Result<(), TagCause>
    requires of { IsOf pool.old hand.old }
    requires tails { AreTails tails.old hand.old }
    ensures tails { OnOk result (AreTails tails.new hand.new) }
    ensures ok { OnOk result (HasRead pool.old pool.new hand.old hand.new (λ s a. path_entry s a text.now)) }
    ensures refused { IfErr result (λ c. HasEnded pool.old hand.old (λ s a. path_entry s a text.now) c) }
    ensures form { IfErr result HasOneForm }
    ensures grows { Grows pool.old pool.new }
{
    if text.is_empty() {
        return Ok(());
    }
    let id = match enter(pool, text) {
        Ok(id) => id,
        Err(cause) => return Err(cause),
    };
    pool.tells_apart();
    match add_path(pool.alloc(), tails, hand, id) {
        Ok(()) => Ok(()),
        Err(_) => Err(TagCause::Memory),
    }
}

/// Reads a dependency.
fn take_dependency(
    pool: &mut Pool,
    recent: &mut Recent,
    tails: &mut Tails,
    hand: &mut Package,
    tag: Tag,
    text: &[u8],
) -> Result<(), TagCause>
    requires of { IsOf pool.old hand.old }
    requires recent { AreRead pool.old recent.old }
    requires tails { AreTails tails.old hand.old }
    ensures recent { AreRead pool.new recent.new }
    ensures tails { OnOk result (AreTails tails.new hand.new) }
    ensures ok { OnOk result (HasRead pool.old pool.new hand.old hand.new (λ s a. dependency_entry s a tag text.now)) }
    ensures refused { IfErr result (λ c. HasEnded pool.old hand.old (λ s a. dependency_entry s a tag text.now) c) }
    ensures form { IfErr result HasOneForm }
    ensures grows { Grows pool.old pool.new }
{
    let dep = match read_again(pool, recent, text, place_of(tag)) {
        Ok(dep) => dep,
        Err(fault) => return Err(cause_of(fault)),
    };
    pool.tells_apart();
    match add_entry(pool.alloc(), tails, hand, tag, dep) {
        Ok(()) => Ok(()),
        Err(_) => Err(TagCause::Memory),
    }
}

/// Reads an entry of the package in hand.
pub(crate) fn take_entry(
    pool: &mut Pool,
    recent: &mut Recent,
    tails: &mut Tails,
    hand: &mut Package,
    tag: Tag,
    text: &[u8],
) -> Result<(), TagCause>
    requires of { IsOf pool.old hand.old }
    requires recent { AreRead pool.old recent.old }
    requires tails { AreTails tails.old hand.old }
    ensures recent { AreRead pool.new recent.new }
    ensures tails { OnOk result (AreTails tails.new hand.new) }
    ensures ok { OnOk result (HasRead pool.old pool.new hand.old hand.new (λ s a. entry_of s a tag text.now)) }
    ensures refused { IfErr result (λ c. HasEnded pool.old hand.old (λ s a. entry_of s a tag text.now) c) }
    ensures form { IfErr result HasOneForm }
    ensures grows { Grows pool.old pool.new }
{
    match tag {
        Tag::Vnd => take_vendor(pool, hand, trimmed(text)),
        Tag::Fls => take_path(pool, tails, hand, trimmed(text)),
        _ => take_dependency(pool, recent, tails, hand, tag, text),
    }
}
