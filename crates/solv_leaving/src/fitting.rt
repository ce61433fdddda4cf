//! That the clauses of all rules would pass no limit.
ghost use Rattle.std.specs.Prelude.{◌≡◌, ◌<◌, ◌≤◌, ◌+◌, length, nat_lt, nat_le, sum_by, true, IfSome};
ghost use Rattle.std.specs.List.{list_all};
ghost use Rattle.solv_pool.specs.Prelude.{Catalog, catalog_of, marked, IsClosed};
ghost use Rattle.solv_prov.specs.Index.{IsIndexOf};
ghost use Rattle.solv_rules.specs.Books.{most_words};
ghost use Rattle.solv_leaving.specs.Inner.Fitting.{AllFit, within, need_words, words_at, words_left_out};

use solv_pool::{Need, PackNo, Task};
use solv_prov::Providers;
use solv_rules::MOST_WORDS;

/// Where the clauses of the rules that are made pass no limit, and at least the words of those of the packages that are left out stand beside theirs, the clauses of all rules pass none.
#[tactic(auto, using(crate::proofs::AllRules::all_fit))]
pub fn all_rules_fit()
    ensures { AllFit }
{}

/// So many words, where a book may have them.
fn within(words: u64) -> Option<u64>
    ensures exact { result ≡ within words }
    ensures few { IfSome result (λ n. n ≤ most_words) }
{
    if words > MOST_WORDS {
        return None;
    }
    Some(words)
}

/// The words with at least those of a requirement's clause.
fn with_need(prov: &Providers, need: Need, words: u64) -> Option<u64>
    requires held { need.dep < length prov.now.providers }
    requires few { words ≤ most_words }
    ensures exact { (catalog : Catalog) → IsIndexOf prov.now catalog → result ≡ within (words + need_words catalog need) }
    ensures few { IfSome result (λ n. n ≤ most_words) }
{
    within(words + 5 + prov.of(need.dep).len() as u64)
}

/// The words with at least those of the clauses of requirements.
fn with_needs(prov: &Providers, needs: &[Need], words: u64) -> Option<u64>
    requires held { list_all (λ need. nat_lt need.dep (length prov.now.providers)) needs.now ≡ true }
    requires few { words ≤ most_words }
    ensures { (catalog : Catalog) → IsIndexOf prov.now catalog → result ≡ within (words + sum_by (need_words catalog) needs.now) }
{
    let mut sum = words;
    for need in needs {
        match with_need(prov, *need, sum) {
            Some(more) => sum = more,
            None => return None,
        }
    }
    Some(sum)
}

/// Whether a package is left out.
pub(crate) fn is_left_out(left: &[bool], pack: PackNo) -> bool
    ensures { result ≡ marked left.now pack }
{
    match left.get(pack.0 as usize) {
        Some(out) => *out,
        None => false,
    }
}

/// The words with at least those of the clauses of what a package requires, if it is left out.
fn with_package(
    task: &Task,
    prov: &Providers,
    left: &[bool],
    pack: PackNo,
    words: u64,
) -> Option<u64>
    requires index { IsIndexOf prov.now (catalog_of task.now) }
    requires closed { IsClosed task.now }
    requires a_package { 0 < pack }
    requires held { pack ≤ length task.now.universe.packages }
    requires few { words ≤ most_words }
    ensures { result ≡ within (words + words_at (catalog_of task.now) left.now pack) }
{
    if is_left_out(left, pack) {
        return with_needs(prov, task.universe.package(pack).requires_(), words);
    }
    Some(words)
}

/// Whether so many words, and at least those of the clauses of what is left out, are no more than a book may have.
pub fn all_fit(task: &Task, prov: &Providers, left: &[bool], words: u64) -> bool
    requires index { IsIndexOf prov.now (catalog_of task.now) }
    requires closed { IsClosed task.now }
    ensures { result ≡ nat_le (words + words_left_out (catalog_of task.now) left.now) most_words }
{
    if words > MOST_WORDS {
        return false;
    }
    let mut sum = words;
    for before in 0..task.universe.count() {
        match with_package(task, prov, left, PackNo(before + 1), sum) {
            Some(more) => sum = more,
            None => return false,
        }
    }
    true
}
