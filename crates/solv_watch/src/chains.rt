//! Chains of watches: a linked list for each literal, from its head through all watches of that literal.
ghost use Rattle.std.specs.Prelude.{◌≡◌, ◌<◌, length, slice_index, slice_set};
ghost use Rattle.solv_pack.specs.Inner.Literals.{place_of};
ghost use Rattle.solv_watch.specs.Inner.Chains.{no_link, other, heads_past, links_past};

use solv_pack::Lit;

/// The null link.
pub const NOWHERE: u32 = u32::MAX;

/// For each literal the first of the watches of one memory's rules that are at it; for each watch the next one at the same literal; and
/// for each rule the two literals that it watches.
pub struct Chains {
    pub heads: Vec<u32>,
    pub links: Vec<u32>,
    pub watched: Vec<Lit>,
}

impl Drop for Chains {
    fn drop(self) {
        let Chains {
            heads: _,
            links: _,
            watched: _,
        } = self;
    }
}

/// The watches of a book and of learnt rules, and the numbers of the book's rules with fewer than two literals.
pub struct Watches {
    pub book: Chains,
    pub learnt: Chains,
    pub narrow: Vec<u32>,
}

impl Drop for Watches {
    fn drop(self) {
        let Watches {
            book: _,
            learnt: _,
            narrow: _,
        } = self;
    }
}

/// The other watch of the same rule.
pub fn beside(watch: u32) -> u32
    requires { watch < 536870912 }
    ensures { result ≡ other watch }
{
    2 * (watch / 2) + (1 - watch % 2)
}

/// Unlinks the watch after `last`, or the first one: what comes after it begins at `next`.
fn unhang(heads: &mut [u32], links: &mut [u32], place: usize, last: u32, next: u32)
    requires place { place < length heads.old }
    requires last { last < no_link → last < length links.old }
    ensures heads { heads.new ≡ heads_past heads.old place last next }
    ensures links { links.new ≡ links_past links.old last next }
{
    if last == NOWHERE {
        heads[place] = next;
    } else {
        links[last as usize] = next;
    }
}

/// Puts a watch at the head of a chain.
pub fn hang(heads: &mut [u32], links: &mut [u32], place: usize, watch: u32)
    requires place { place < length heads.old }
    requires watch { watch < length links.old }
    ensures heads { heads.new ≡ slice_set heads.old place watch }
    ensures links { links.new ≡ slice_set links.old watch (slice_index heads.old place) }
{
    links[watch as usize] = heads[place];
    heads[place] = watch;
}

/// Watches another literal in place of one that became false, in whose chain the walk stands after `last`.
pub fn rewatch(
    heads: &mut [u32],
    links: &mut [u32],
    watched: &mut [Lit],
    place: usize,
    last: u32,
    watch: u32,
    to: Lit,
)
    requires place { place < length heads.old }
    requires last { last < no_link → last < length links.old }
    requires watch { watch < length links.old }
    requires two { length watched.old ≡ length links.old }
    requires to { place_of to < length heads.old }
    ensures heads { heads.new ≡ slice_set (heads_past heads.old place last (slice_index links.old watch)) (place_of to) watch }
    ensures links { links.new ≡ slice_set (links_past links.old last (slice_index links.old watch)) watch (slice_index (heads_past heads.old place last (slice_index links.old watch)) (place_of to)) }
    ensures watched { watched.new ≡ slice_set watched.old watch to }
{
    let next = links[watch as usize];
    unhang(heads, links, place, last, next);
    hang(heads, links, to.place(), watch);
    watched[watch as usize] = to;
}
