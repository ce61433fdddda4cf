//! Where the packages of each repository stand among all packages.
ghost use Rattle.std.specs.Prelude.{List, ◌≡◌, ◌==◌, ◌<◌, ◌+◌, ◌^◌, length, Some, slice_get, IfOk, if◌then◌else◌};
ghost use Rattle.solv_pool.specs.declared.packages.Package.{Package};
ghost use Rattle.solv_writing.specs.Inner.Spans.{AreSpans};

use solv_pool::{PackNo, RepoNo, Universe};
use std::alloc::{AllocError, Global};

/// The place of a repository's first package, and the place after its last one. Both are 0 where it has none.
#[derive(Clone, Copy)]
pub(crate) struct Span {
    pub(crate) first: u32,
    pub(crate) end: u32,
}

/// Where a span begins that takes in this place after the others.
fn begin(span: Span, place: u32) -> u32
    ensures { result ≡ (if span.end == 0 then place else span.first) }
{
    if span.end == 0 { place } else { span.first }
}

/// Takes in the package at this place, which is after the others.
fn widen(spans: &mut [Span], repo: RepoNo, place: u32)
    requires { place + 1 < 2 ^ 32 }
    ensures each { length spans.new ≡ length spans.old }
    ensures spans { (packages : List Package) (a : Package) → slice_get packages place ≡ Some a → a.repo ≡ repo → AreSpans packages place spans.old → AreSpans packages (place + 1) spans.new }
{
    let RepoNo(number) = repo;
    if number >= spans.len() {
        return;
    }
    let first = begin(spans[number], place);
    spans[number] = Span {
        first,
        end: place + 1,
    };
}

/// Takes in all packages.
fn fill(universe: &Universe, spans: &mut [Span])
    requires { AreSpans universe.now.packages 0 spans.old }
    ensures each { length spans.new ≡ length spans.old }
    ensures spans { AreSpans universe.now.packages (length universe.now.packages) spans.new }
{
    for place in 0..universe.count() {
        widen(spans, universe.package(PackNo(place + 1)).repo(), place);
    }
}

/// The spans of all repositories, by one pass over the packages.
pub(crate) fn spans_of(alloc: Global, universe: &Universe) -> Result<Vec<Span>, AllocError>
    ensures each { IfOk result (λ spans. length spans.items ≡ length universe.now.repos) }
    ensures spans { IfOk result (λ spans. AreSpans universe.now.packages (length universe.now.packages) spans.items) }
{
    let mut spans = vec![in alloc; Span { first: 0, end: 0 }; universe.repos()]?;
    fill(universe, &mut spans);
    Ok(spans)
}
