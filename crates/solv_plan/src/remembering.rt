//! What the first open question of a plan asks for, where what is settled is passed over. Nothing here takes memory.
ghost use Rattle.std.specs.Prelude.{◌≡◌, ◌≤◌, ◌++◌, ◌∷◌, [], ◌==◌, ℕ, ℤ, Bool, true, List, drop, flat_map, map, filter, nat_le, slice_get, Some};
ghost use Rattle.std.specs.List.{list_all};
ghost use Rattle.solv_pool.specs.Prelude.{is_fact};
ghost use Rattle.solv_questions.specs.Questions.{first_ask};
ghost use Rattle.solv_trail.specs.declared.questions.Question.TheVariants.{Requires, Recommends};
ghost use Rattle.solv_plan.specs.Inner.Entries.{is_rested, are_right};
ghost use Rattle.solv_plan.specs.Inner.Plans.{demand_queries, keep_queries, want_queries, question_of, named_query, plan_asks};
ghost use Rattle.solv_trail.specs.Inner.Numbers.{has};
ghost use Rattle.solv_plan.specs.Inner.Settling.{Fits, AreFit, AreMetBelow, IsFloor, known_in, AreQuiet, demand_quiet, demands_quiet, keep_quiet, keeps_quiet, demands_settled, keep_settled, keeps_settled, want_settled, wanted_settled, wants_settled, names_settled, is_right_for};
ghost use Rattle.solv_plan.specs.declared.plans.Demand.{Demand};
ghost use Rattle.solv_plan.specs.declared.plans.Keep.{Keep};
ghost use Rattle.solv_plan.specs.declared.plans.Named.{Named};
ghost use Rattle.solv_plan.specs.declared.plans.Want.{Want};

use crate::asking::{Asking, ask_demand, ask_each, ask_installed, ask_named, is_on};
use crate::floors::Floor;
use crate::holding::rest_on_tree;
use crate::memory::Memory;
use crate::plans::{Demand, Keep, Named, Plan, Relations, Want, Wanted};
use crate::quiet::{has_place, is_demand_quiet, is_keep_quiet, put_place};
use crate::settled::Settled;
use crate::wants::Wants;
use solv_pool::PackNo;
use solv_trail::{Ask, Known, NumberSet};

/// What a demand asks for. Where one of its candidates is in, it is settled; else, where all are out, it is quiet.
fn recall_demand(
    known: &Known,
    enabled: &[bool],
    demand: &Demand,
    place: usize,
    settled: &mut Settled,
    quiet: &mut NumberSet,
) -> Option<Ask>
    requires fits { Fits (is_fact known.now.lits) settled.old }
    requires quiet { has quiet.old place ≡ true → demand_quiet (is_fact known.now.lits) demand.now ≡ true }
    ensures asked { result ≡ first_ask (is_fact known.now.lits) (demand_queries (is_fact known.now.lits) enabled.now demand.now) }
    ensures fits { Fits (is_fact known.now.lits) settled.new }
    ensures right { (demands : List Demand) → slice_get demands place ≡ Some demand.now → are_right (demands_settled demands) settled.old ≡ true → are_right (demands_settled demands) settled.new ≡ true }
    ensures quiet { (demands : List Demand) → slice_get demands place ≡ Some demand.now → AreQuiet (demands_quiet (is_fact known.now.lits) demands) quiet.old → AreQuiet (demands_quiet (is_fact known.now.lits) demands) quiet.new }
{
    if has_place(quiet, place) {
        return None;
    }
    if settled.rest_on_one(known, demand.candidates.held()) {
        settled.settle(place);
        return None;
    }
    if is_demand_quiet(known, demand) {
        put_place(quiet, place);
        return None;
    }
    ask_demand(known, enabled, demand)
}

/// The place from one on of the first demand whose rule is enabled. Those before it ask for nothing.
fn first_enabled(enabled: &[bool], demands: &[Demand], from: usize) -> usize
    ensures forward { from ≤ result }
    ensures asked { (known : ℤ → Bool) → flat_map (demand_queries known enabled.now) (drop result demands.now) ≡ flat_map (demand_queries known enabled.now) (drop from demands.now) }
{
    let mut place = from;
    while place < demands.len() && !is_on(enabled, demands[place].rule) {
        place += 1;
    }
    place
}

/// What the first of these demands asks for.
fn recall_demands(
    known: &Known,
    enabled: &[bool],
    demands: &[Demand],
    settled: &mut Settled,
    quiet: &mut NumberSet,
) -> Option<Ask>
    requires fits { Fits (is_fact known.now.lits) settled.old }
    requires right { are_right (demands_settled demands.now) settled.old ≡ true }
    requires quiet { AreQuiet (demands_quiet (is_fact known.now.lits) demands.now) quiet.old }
    ensures asked { result ≡ first_ask (is_fact known.now.lits) (flat_map (demand_queries (is_fact known.now.lits) enabled.now) demands.now) }
    ensures fits { Fits (is_fact known.now.lits) settled.new }
    ensures right { are_right (demands_settled demands.now) settled.new ≡ true }
    ensures quiet { AreQuiet (demands_quiet (is_fact known.now.lits) demands.now) quiet.new }
{
    let from = settled.first_unsettled();
    let mut place = first_enabled(enabled, demands, from);
    while place < demands.len() {
        let ask = recall_demand(known, enabled, &demands[place], place, settled, quiet);
        if ask.is_some() {
            return ask;
        }
        let after = settled.first_open(place + 1);
        let next = first_enabled(enabled, demands, after);
        place = next;
    }
    None
}

/// Records the packages that settle this installed package's questions, if they are in and there is room; returns whether it did.
fn rest_on_keep(known: &Known, keep: &Keep, settled: &mut Settled) -> bool
    requires { Fits (is_fact known.now.lits) settled.old }
    ensures right { (by : (ℕ → Bool) → ℕ → Bool) → are_right by settled.old ≡ true → are_right by settled.new ≡ true }
    ensures fits { Fits (is_fact known.now.lits) settled.new }
    ensures settled { result ≡ true → keep_settled (is_rested settled.new) keep.now ≡ true }
{
    for demand in keep.best.held() {
        if !settled.rest_on_one(known, demand.candidates.held()) {
            settled.give_up();
            return false;
        }
    }
    if !keep.is_asked {
        return true;
    }
    settled.rest_on_one(known, keep.close.held())
}

/// What is asked for of an installed package. Where it and its best updates are in, or what is close to it, it is settled; else,
/// where nothing is asked for because the others are out, it is quiet.
fn recall_installed(
    known: &Known,
    enabled: &[bool],
    keep: &Keep,
    place: usize,
    settled: &mut Settled,
    quiet: &mut NumberSet,
) -> Option<Ask>
    requires fits { Fits (is_fact known.now.lits) settled.old }
    requires quiet { has quiet.old place ≡ true → keep_quiet (is_fact known.now.lits) keep.now ≡ true }
    ensures asked { result ≡ first_ask (is_fact known.now.lits) (keep_queries (is_fact known.now.lits) enabled.now keep.now) }
    ensures fits { Fits (is_fact known.now.lits) settled.new }
    ensures right { (keeps : List Keep) → slice_get keeps place ≡ Some keep.now → are_right (keeps_settled keeps) settled.old ≡ true → are_right (keeps_settled keeps) settled.new ≡ true }
    ensures quiet { (keeps : List Keep) → slice_get keeps place ≡ Some keep.now → AreQuiet (keeps_quiet (is_fact known.now.lits) keeps) quiet.old → AreQuiet (keeps_quiet (is_fact known.now.lits) keeps) quiet.new }
{
    if has_place(quiet, place) {
        return None;
    }
    if rest_on_keep(known, keep, settled) {
        settled.settle(place);
        return None;
    }
    if is_keep_quiet(known, keep) {
        put_place(quiet, place);
        return None;
    }
    ask_installed(known, enabled, keep)
}

/// What the first of these installed packages asks for.
fn recall_keeps(
    known: &Known,
    enabled: &[bool],
    keeps: &[Keep],
    settled: &mut Settled,
    quiet: &mut NumberSet,
) -> Option<Ask>
    requires fits { Fits (is_fact known.now.lits) settled.old }
    requires right { are_right (keeps_settled keeps.now) settled.old ≡ true }
    requires quiet { AreQuiet (keeps_quiet (is_fact known.now.lits) keeps.now) quiet.old }
    ensures asked { result ≡ first_ask (is_fact known.now.lits) (flat_map (keep_queries (is_fact known.now.lits) enabled.now) keeps.now) }
    ensures fits { Fits (is_fact known.now.lits) settled.new }
    ensures right { are_right (keeps_settled keeps.now) settled.new ≡ true }
    ensures quiet { AreQuiet (keeps_quiet (is_fact known.now.lits) keeps.now) quiet.new }
{
    let mut place = settled.first_unsettled();
    while place < keeps.len() {
        let ask = recall_installed(known, enabled, &keeps[place], place, settled, quiet);
        if ask.is_some() {
            return ask;
        }
        place = settled.first_open(place + 1);
    }
    None
}

/// Records packages that make a dependency hold whatever else is in, if they are in and there is room; one that none can meet is settled. Returns
/// whether it is.
fn rest_on_wanted(
    known: &Known,
    relations: &Relations,
    wanted: Wanted,
    settled: &mut Settled,
) -> bool
    requires { Fits (is_fact known.now.lits) settled.old }
    ensures right { (by : (ℕ → Bool) → ℕ → Bool) → are_right by settled.old ≡ true → are_right by settled.new ≡ true }
    ensures still { (p : ℕ) → is_rested settled.old p ≡ true → is_rested settled.new p ≡ true }
    ensures fits { Fits (is_fact known.now.lits) settled.new }
    ensures settled { result ≡ true → wanted_settled relations.now (is_rested settled.new) wanted ≡ true }
{
    if wanted.by_tree {
        return rest_on_tree(known, relations, wanted.dep, settled);
    }
    let packs = relations.rows.row(wanted.dep);
    packs.is_empty() || settled.rest_on_one(known, packs)
}

/// Records packages that settle what a package asks for, if they are in and there is room; returns whether it did. A conflict is never
/// settled.
fn rest_on_want(known: &Known, relations: &Relations, want: &Want, settled: &mut Settled) -> bool
    requires { Fits (is_fact known.now.lits) settled.old }
    ensures right { (by : (ℕ → Bool) → ℕ → Bool) → are_right by settled.old ≡ true → are_right by settled.new ≡ true }
    ensures still { (p : ℕ) → is_rested settled.old p ≡ true → is_rested settled.new p ≡ true }
    ensures fits { Fits (is_fact known.now.lits) settled.new }
    ensures settled { result ≡ true → want_settled relations.now (is_rested settled.new) want.now ≡ true }
{
    if want.against {
        return false;
    }
    rest_on_wanted(known, relations, want.wanted, settled)
}

/// Records packages that meet all of these, if they are in and there is room; returns whether it did.
fn rest_on_wants(
    known: &Known,
    relations: &Relations,
    wants: &[Want],
    settled: &mut Settled,
) -> bool
    requires { Fits (is_fact known.now.lits) settled.old }
    ensures right { (by : (ℕ → Bool) → ℕ → Bool) → are_right by settled.old ≡ true → are_right by settled.new ≡ true }
    ensures fits { Fits (is_fact known.now.lits) settled.new }
    ensures settled { result ≡ true → list_all (want_settled relations.now (is_rested settled.new)) wants.now ≡ true }
{
    for want in wants {
        if !rest_on_want(known, relations, want, settled) {
            settled.give_up();
            return false;
        }
    }
    true
}

/// Records that all is met that a package asks for by these dependencies of it, if it is and there is room; returns whether it did.
fn settle_package(
    known: &Known,
    relations: &Relations,
    wants: &[Want],
    pack: PackNo,
    settled: &mut Settled,
) -> bool
    requires { Fits (is_fact known.now.lits) settled.old }
    ensures met { result ≡ true → list_all (want_settled relations.now (known_in known.now.lits)) wants.now ≡ true }
    ensures fits { Fits (is_fact known.now.lits) settled.new }
    ensures right { (all : List Want) → wants.now ≡ filter (λ w. w.pack == pack) all → are_right (wants_settled relations.now all) settled.old ≡ true → are_right (wants_settled relations.now all) settled.new ≡ true }
{
    if !rest_on_wants(known, relations, wants, settled) {
        return false;
    }
    settled.settle(pack.0 as usize);
    true
}

/// What a package asks for, by these dependencies of it. Where all are met, it is settled.
fn recall_package(
    known: &Known,
    relations: &Relations,
    wants: &[Want],
    asking: Asking,
    pack: PackNo,
    settled: &mut Settled,
) -> Option<Ask>
    requires { Fits (is_fact known.now.lits) settled.old }
    ensures asked { result ≡ first_ask (is_fact known.now.lits) (flat_map (want_queries (is_fact known.now.lits) relations.now (question_of asking)) wants.now) }
    ensures fits { Fits (is_fact known.now.lits) settled.new }
    ensures right { (all : List Want) → wants.now ≡ filter (λ w. w.pack == pack) all → are_right (wants_settled relations.now all) settled.old ≡ true → are_right (wants_settled relations.now all) settled.new ≡ true }
{
    if settle_package(known, relations, wants, pack, settled) {
        return None;
    }
    ask_each(known, relations, wants, asking)
}

/// The first number from one on of a package that is in of which not all is met, as far as that was found, or a number above all.
fn first_unmet(
    known: &Known,
    relations: &Relations,
    wants: &Wants,
    settled: &mut Settled,
    from: u32,
) -> u32
    requires fits { Fits (is_fact known.now.lits) settled.old }
    requires right { are_right (wants_settled relations.now wants.now) settled.old ≡ true }
    requires some { 1 ≤ from }
    requires below { AreMetBelow relations.now wants.now known.now.lits from }
    ensures some { 1 ≤ result }
    ensures below { AreMetBelow relations.now wants.now known.now.lits result }
    ensures fits { Fits (is_fact known.now.lits) settled.new }
    ensures right { are_right (wants_settled relations.now wants.now) settled.new ≡ true }
{
    let mut from = from;
    while let Some(number) = settled.next_open(known.packs_in(), from) {
        let pack = PackNo(number);
        if !settle_package(known, relations, wants.of(pack), pack, settled) {
            return number;
        }
        from = number + 1;
    }
    u32::MAX
}

/// Raises the floor to the first number of a package that is in of which not all is met, and returns that number.
fn raise(
    known: &Known,
    relations: &Relations,
    wants: &Wants,
    settled: &mut Settled,
    floor: &mut Floor,
) -> u32
    requires fits { Fits (is_fact known.now.lits) settled.old }
    requires right { are_right (wants_settled relations.now wants.now) settled.old ≡ true }
    requires floor { IsFloor relations.now wants.now known.now.lits floor.old }
    ensures some { 1 ≤ result }
    ensures below { AreMetBelow relations.now wants.now known.now.lits result }
    ensures fits { Fits (is_fact known.now.lits) settled.new }
    ensures right { are_right (wants_settled relations.now wants.now) settled.new ≡ true }
    ensures floor { IsFloor relations.now wants.now known.now.lits floor.new }
{
    let from = floor.lowered(known).max(1);
    let low = first_unmet(known, relations, wants, settled, from);
    *floor = Floor::at(known, low);
    low
}

/// What the packages that are in ask for, from a number on below which all is met.
fn recall_wants_above(
    known: &Known,
    relations: &Relations,
    wants: &Wants,
    asking: Asking,
    settled: &mut Settled,
    low: u32,
) -> Option<Ask>
    requires fits { Fits (is_fact known.now.lits) settled.old }
    requires right { are_right (wants_settled relations.now wants.now) settled.old ≡ true }
    requires some { 1 ≤ low }
    requires below { AreMetBelow relations.now wants.now known.now.lits low }
    ensures asked { result ≡ first_ask (is_fact known.now.lits) (flat_map (want_queries (is_fact known.now.lits) relations.now (question_of asking)) (filter (λ w. nat_le 1 w.pack) wants.now)) }
    ensures fits { Fits (is_fact known.now.lits) settled.new }
    ensures right { are_right (wants_settled relations.now wants.now) settled.new ≡ true }
{
    wants.rise();
    let mut from = low;
    while let Some(number) = settled.next_open(known.packs_in(), from) {
        let pack = PackNo(number);
        let ask = recall_package(known, relations, wants.of(pack), asking, pack, settled);
        if ask.is_some() {
            return ask;
        }
        from = number + 1;
    }
    None
}

/// What the packages that are in ask for, without the system.
fn recall_wants_from(
    known: &Known,
    relations: &Relations,
    wants: &Wants,
    asking: Asking,
    settled: &mut Settled,
    floor: &mut Floor,
) -> Option<Ask>
    requires fits { Fits (is_fact known.now.lits) settled.old }
    requires right { are_right (wants_settled relations.now wants.now) settled.old ≡ true }
    requires floor { IsFloor relations.now wants.now known.now.lits floor.old }
    ensures asked { result ≡ first_ask (is_fact known.now.lits) (flat_map (want_queries (is_fact known.now.lits) relations.now (question_of asking)) (filter (λ w. nat_le 1 w.pack) wants.now)) }
    ensures fits { Fits (is_fact known.now.lits) settled.new }
    ensures right { are_right (wants_settled relations.now wants.now) settled.new ≡ true }
    ensures floor { IsFloor relations.now wants.now known.now.lits floor.new }
{
    if wants.held().is_empty() {
        return None;
    }
    let low = raise(known, relations, wants, settled, floor);
    recall_wants_above(known, relations, wants, asking, settled, low)
}

/// What the system asks for, and the packages that are in.
fn recall_wants(
    known: &Known,
    relations: &Relations,
    wants: &Wants,
    asking: Asking,
    settled: &mut Settled,
    floor: &mut Floor,
) -> Option<Ask>
    requires fits { Fits (is_fact known.now.lits) settled.old }
    requires right { are_right (wants_settled relations.now wants.now) settled.old ≡ true }
    requires floor { IsFloor relations.now wants.now known.now.lits floor.old }
    ensures asked { result ≡ first_ask (is_fact known.now.lits) (flat_map (want_queries (is_fact known.now.lits) relations.now (question_of asking)) wants.now) }
    ensures fits { Fits (is_fact known.now.lits) settled.new }
    ensures right { are_right (wants_settled relations.now wants.now) settled.new ≡ true }
    ensures floor { IsFloor relations.now wants.now known.now.lits floor.new }
{
    wants.rise();
    let ask = ask_each(known, relations, wants.of(PackNo(0)), asking);
    if ask.is_some() {
        return ask;
    }
    recall_wants_from(known, relations, wants, asking, settled, floor)
}

/// What a name asks for. Where a package that has it is in, it is settled.
fn recall_named(
    known: &Known,
    relations: &Relations,
    named: &Named,
    place: usize,
    settled: &mut Settled,
) -> Option<Ask>
    requires { Fits (is_fact known.now.lits) settled.old }
    ensures asked { result ≡ first_ask (is_fact known.now.lits) (named_query (is_fact known.now.lits) relations.now named.now ∷ []) }
    ensures fits { Fits (is_fact known.now.lits) settled.new }
    ensures right { (names : List Named) → slice_get names place ≡ Some named.now → are_right (names_settled names) settled.old ≡ true → are_right (names_settled names) settled.new ≡ true }
{
    if settled.rest_on_one(known, named.packs.held()) {
        settled.settle(place);
        return None;
    }
    ask_named(known, relations, named)
}

/// What the first of these names asks for.
fn recall_names(
    known: &Known,
    relations: &Relations,
    names: &[Named],
    settled: &mut Settled,
) -> Option<Ask>
    requires fits { Fits (is_fact known.now.lits) settled.old }
    requires right { are_right (names_settled names.now) settled.old ≡ true }
    ensures asked { result ≡ first_ask (is_fact known.now.lits) (flat_map (λ named. named_query (is_fact known.now.lits) relations.now named ∷ []) names.now) }
    ensures fits { Fits (is_fact known.now.lits) settled.new }
    ensures right { are_right (names_settled names.now) settled.new ≡ true }
{
    let mut place = settled.first_unsettled();
    while place < names.len() {
        let ask = recall_named(known, relations, &names[place], place, settled);
        if ask.is_some() {
            return ask;
        }
        place = settled.first_open(place + 1);
    }
    None
}

/// What the dependencies of packages that are in ask for, and then names with supplements.
fn recall_dependencies(known: &Known, plan: &Plan, memory: &mut Memory) -> Option<Ask>
    requires fits { AreFit plan.now known.now.lits memory.old }
    requires right { is_right_for plan.now memory.old ≡ true }
    ensures asked { result ≡ first_ask (is_fact known.now.lits) (flat_map (want_queries (is_fact known.now.lits) plan.now.relations Requires) plan.now.required ++ (flat_map (want_queries (is_fact known.now.lits) plan.now.relations Recommends) plan.now.recommended ++ map (named_query (is_fact known.now.lits) plan.now.relations) plan.now.supplements)) }
    ensures fits { AreFit plan.now known.now.lits memory.new }
    ensures right { is_right_for plan.now memory.new ≡ true }
{
    let relations = &plan.relations;
    let settled = &mut memory.required;
    let floor = &mut memory.required_floor;
    let required = recall_wants(
        known,
        relations,
        &plan.required,
        Asking::Requires,
        settled,
        floor,
    );
    if required.is_some() {
        return required;
    }
    let settled = &mut memory.recommended;
    let recommended = recall_wants(
        known,
        relations,
        &plan.recommended,
        Asking::Recommends,
        settled,
        &mut memory.recommended_floor,
    );
    if recommended.is_some() {
        return recommended;
    }
    let settled = &mut memory.names;
    recall_names(known, relations, plan.supplements.held(), settled)
}

/// What the first open question of a plan asks for, where what is remembered as settled or quiet is passed over. What is
/// found so is remembered. What is remembered has to fit what is known: `Memory::fit` forgets the rest.
pub fn next_remembering(
    plan: &Plan,
    memory: &mut Memory,
    known: &Known,
    enabled: &[bool],
) -> Option<Ask>
    requires right { is_right_for plan.now memory.old ≡ true }
    requires fits { AreFit plan.now known.now.lits memory.old }
    ensures asked { result ≡ plan_asks plan.now (is_fact known.now.lits) enabled.now }
    ensures right { is_right_for plan.now memory.new ≡ true }
    ensures fits { AreFit plan.now known.now.lits memory.new }
{
    let settled = &mut memory.demands;
    let quiet = &mut memory.quiet_demands;
    let demanded = recall_demands(known, enabled, plan.demands.held(), settled, quiet);
    if demanded.is_some() {
        return demanded;
    }
    let settled = &mut memory.keeps;
    let quiet = &mut memory.quiet_keeps;
    let kept = recall_keeps(known, enabled, plan.keeps.held(), settled, quiet);
    if kept.is_some() {
        return kept;
    }
    recall_dependencies(known, plan, memory)
}
