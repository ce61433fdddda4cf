//! Which rules a way out drops, and which it holds to: each rule is decided once.
//!
//! A way out by a rule of a minimal unsatisfiable subset is a minimal correction set. It is found by growing what is held to, which has a set at any time,
//! until each rule is held to or refuted by it.
ghost use Rattle.std.specs.Prelude.{◌≡◌, ◌≤◌, ◌<◌, ◌+◌, ◌-◌, ◌++◌, ◌∷◌, ◌||◌, [], ℕ, Bool, List, not, true, false, filter, length, is_none, IfOk, OnOk};
ghost use Rattle.std.specs.Option.{IfSome};
ghost use Rattle.solv_pool.specs.Prelude.{is_among};
ghost use Rattle.solv_trail.specs.Asked.{is_enabled};
ghost use Rattle.solv_core.specs.Cores.{CoreOf};
ghost use Rattle.solv_questions.specs.Questions.{Request};
ghost use Rattle.solv_decide.specs.Deciding.{IsSolution};
ghost use Rattle.solv_remedy.specs.Remedies.{is_once};
ghost use Rattle.solv_remedy.specs.Inner.Correcting.{and_some, is_left, open_count, AreRefutedBy, IsCorrected, IsDropped, IsHeldMore, IsParted, IsPartedOf, IsRefutedOn, KeepsParted};
ghost use Rattle.solv_remedy.specs.Inner.Runs.{is_spent, IsOf, MayRun, HasRun};
ghost use Rattle.solv_remedy.specs.Inner.Trying.{firm_but, is_off_in, IsNeeded};
ghost use Rattle.solv_remedy.specs.Inner.WaysOut.{most_out};

use crate::conflicts::{is_in, switch_off};
use crate::laws::good_logs_refute_their_rules;
use crate::probing::refuted_others;
use crate::running::{run_and_probe, run_with};
use crate::setting::Setting;
use crate::showing::{met_by, only};
use crate::smallest::{Way, droppable_of, enabled_but, switch_on};
use solv_core::{Core, Ledger, Probed, RefutedRule, Trail, Verdict};
use solv_derive::Log;
use solv_list::Items;
use solv_pack::RuleNo;
use std::alloc::{AllocError, Global};

/// When looks are made: one that drops nothing is followed by a pause of some drops without a look, which is twice as long, and one more, each time.
#[derive(Clone, Copy)]
pub struct Looks {
    /// How long the last pause was from its beginning.
    pub pause: usize,
    /// How many drops are still to be without a look.
    pub left_out: usize,
}

impl Looks {
    /// A look is due after the first drop.
    fn at_once() -> Looks {
        Looks {
            pause: 0,
            left_out: 0,
        }
    }

    /// So it goes on after a look.
    fn after(self, drops: bool) -> Looks {
        let pause = if drops {
            0
        } else {
            self.pause.saturating_add(self.pause).saturating_add(1)
        };
        Looks {
            pause,
            left_out: pause,
        }
    }

    /// So it goes on after a drop without one.
    fn without_one(self) -> Looks {
        Looks {
            pause: self.pause,
            left_out: self.left_out.saturating_sub(1),
        }
    }
}

/// Rules that are parted: each of them is held to, open, or dropped with a derivation that what is held to refutes it. With these the fixed rules are held
/// to, and those of a conflict but one.
#[derive(Drop)]
pub struct Parted {
    pub rules: Vec<usize>,
    pub held: Vec<bool>,
    pub open: Vec<bool>,
    pub dropped: Vec<RefutedRule>,
    pub looks: Looks,
}

impl Parted {
    /// All rules are open, beside the fixed rules and those of a conflict but one.
    fn new(setting: &Setting<'_>, way: &Way<'_>, rules: &[usize]) -> Result<Parted, AllocError>
        requires { is_off_in setting.now.fixed.now way.now.off ≡ true }
        ensures size { IfOk result (λ p. length p.held.items ≡ length setting.now.fixed.now) }
        ensures parted { (r : Request) (core : CoreOf) → IsOf r setting.now core → IsNeeded r way.now.conflict.now.rules way.now.off → IfOk result (IsParted r core setting.now.fixed.now (firm_but r way.now.conflict.now.rules way.now.off) rules.now) }
    {
        let all = Vec::from_slice(setting.alloc, rules)?;
        let held = enabled_but(setting.alloc, setting.fixed, way.own(), way.off)?;
        let open = only(setting.alloc, setting.fixed.len(), rules)?;
        Ok(Parted {
            rules: all,
            held,
            open,
            dropped: Vec::new(setting.alloc),
            looks: Looks::at_once(),
        })
    }

    /// Whether a rule is open.
    fn is_open(&self, rule: usize) -> bool
        ensures { result ≡ is_enabled self.now.open.items rule }
    {
        is_in(&self.open, rule)
    }

    /// Holds to open rules.
    fn hold(&mut self, rules: &[usize])
        ensures { IsHeldMore rules.now self.old self.new }
    {
        switch_on(self.held.as_mut_slice(), rules);
        switch_off(self.open.as_mut_slice(), rules);
    }

    /// Drops an open rule.
    fn leave(&mut self, one: RefutedRule) -> Result<(), AllocError>
        ensures { OnOk result (IsDropped one self.old self.new) }
    {
        switch_off(self.open.as_mut_slice(), &[one.rule]);
        self.dropped.push(one)?;
        Ok(())
    }

    /// What is held to, and these rules.
    fn held_and(&self, alloc: Global, rules: &[usize]) -> Result<Vec<bool>, AllocError>
        ensures size { IfOk result (λ more. length more.items ≡ length self.now.held.items) }
        ensures on { IfOk result (λ more. (k : ℕ) → k < length self.now.held.items → is_enabled more.items k ≡ (is_enabled self.now.held.items k || is_among rules.now k)) }
    {
        let mut more = Vec::from_slice(alloc, &self.held)?;
        switch_on(more.as_mut_slice(), rules);
        Ok(more)
    }

    /// Those of some rules that are open.
    fn open_among(&self, alloc: Global, rules: &[usize]) -> Result<Vec<usize>, AllocError>
        ensures { IfOk result (λ some. some.items ≡ filter (is_enabled self.now.open.items) rules.now) }
    {
        let mut some = Vec::new(alloc);
        for rule in rules {
            if is_in(&self.open, *rule) {
                some.push(*rule)?;
            }
        }
        Ok(some)
    }

    /// What is held to, and all that is open.
    fn left(&self, alloc: Global) -> Result<Vec<bool>, AllocError>
        ensures size { IfOk result (λ left. length left.items ≡ length self.now.held.items) }
        ensures on { IfOk result (λ left. (k : ℕ) → k < length self.now.held.items → is_enabled left.items k ≡ (is_enabled self.now.held.items k || is_among (filter (is_enabled self.now.open.items) self.now.rules.items) k)) }
    {
        let some = self.open_among(alloc, &self.rules)?;
        self.held_and(alloc, &some)
    }

    /// Drops those of refuted rules that are open.
    fn leave_each(&mut self, refuted: Vec<RefutedRule>) -> Result<(), AllocError>
        ensures held { OnOk result (self.new.held.items ≡ self.old.held.items) }
        ensures few { OnOk result (open_count self.new ≤ open_count self.old) }
        ensures parted { (r : Request) (core : CoreOf) (fixed : List Bool) (firm : ℕ → Bool) (rules : List ℕ) → IsParted r core fixed firm rules self.old → AreRefutedBy r core (is_enabled self.old.held.items) refuted.items → OnOk result (IsParted r core fixed firm rules self.new) }
    {
        for one in refuted {
            if self.is_open(one.rule) {
                self.leave(one)?;
            }
        }
        Ok(())
    }

    /// Holds to the open rules that the set of a trail meets.
    fn hold_met(
        &mut self,
        setting: &Setting<'_>,
        core: &Core<'_>,
        trail: &Trail,
    ) -> Result<(), AllocError>
        requires { (r : Request) × IsOf r setting.now core.now.made }
        ensures few { OnOk result (open_count self.new ≤ open_count self.old) }
        ensures parted { (r : Request) (firm : ℕ → Bool) (rules : List ℕ) → IsOf r setting.now core.now.made → IsParted r core.now.made setting.now.fixed.now firm rules self.old → IsSolution r self.old.held.items trail.now → OnOk result (IsParted r core.now.made setting.now.fixed.now firm rules self.new) }
    {
        let some = self.open_among(setting.alloc, &self.rules)?;
        let met = met_by(setting, core, &some, trail)?;
        self.hold(&met);
        Ok(())
    }

    /// Drops what a look refutes, and holds to what its set meets.
    fn take_in(
        &mut self,
        setting: &Setting<'_>,
        core: &Core<'_>,
        trail: &Trail,
        refuted: Items<RefutedRule>,
    ) -> Result<(), AllocError>
        requires { (r : Request) × IsOf r setting.now core.now.made }
        ensures few { OnOk result (open_count self.new ≤ open_count self.old) }
        ensures parted { (r : Request) (firm : ℕ → Bool) (rules : List ℕ) → IsOf r setting.now core.now.made → IsParted r core.now.made setting.now.fixed.now firm rules self.old → IsSolution r self.old.held.items trail.now → AreRefutedBy r core.now.made (is_enabled self.old.held.items) refuted → OnOk result (IsParted r core.now.made setting.now.fixed.now firm rules self.new) }
    {
        let before = self.dropped.len();
        self.leave_each(refuted.into_vec())?;
        self.hold_met(setting, core, trail)?;
        self.looks = self.looks.after(self.dropped.len() > before);
        Ok(())
    }
}

/// At the beginning all rules are open but those of these clauses that the fixed rules and a conflict's others refute by propagation alone: these are dropped
/// without a run.
pub fn begin(
    setting: &Setting<'_>,
    core: &mut Core<'_>,
    way: &Way<'_>,
    rules: &[usize],
    clauses: &[RuleNo],
) -> Result<Parted, AllocError>
    requires set_up { (r : Request) × IsOf r setting.now core.old.made }
    requires droppable { is_off_in setting.now.fixed.now way.now.off ≡ true }
    ensures same { core.new ≡ core.old }
    ensures parted { (r : Request) → IsOf r setting.now core.old.made → IsNeeded r way.now.conflict.now.rules way.now.off → IfOk result (IsParted r core.old.made setting.now.fixed.now (firm_but r way.now.conflict.now.rules way.now.off) rules.now) }
{
    let mut parted = Parted::new(setting, way, rules)?;
    let refuted = refuted_others(setting, core, &parted.held, clauses)?;
    parted.leave_each(refuted.into_vec())?;
    Ok(parted)
}

/// Decides an open rule by a run of what is held to and this rule: it is held to where that finds a set, and dropped where it is refuted. Whether it was dropped;
/// nothing, where the ledger is spent.
fn decide(
    setting: &Setting<'_>,
    core: &mut Core<'_>,
    ledger: &mut Ledger,
    parted: &mut Parted,
    rule: usize,
) -> Result<Option<bool>, AllocError>
    requires may_run { MayRun setting.now core.old ledger.old }
    requires parted { IsPartedOf setting.now core.old.made parted.old }
    requires opened { is_enabled parted.old.open.items rule ≡ true }
    ensures has_run { HasRun setting.now 1 core.old core.new ledger.old ledger.new }
    ensures spent { IfOk result (λ o. is_none o ≡ is_spent ledger.new) }
    ensures parted { IfOk result (λ o. IfSome o (λ gone. KeepsParted setting.now core.old.made parted.old parted.new)) }
    ensures fewer { IfOk result (λ o. IfSome o (λ gone. open_count parted.new < open_count parted.old)) }
    ensures held { IfOk result (λ o. IfSome o (λ gone. gone ≡ false → IsHeldMore (rule ∷ []) parted.old parted.new)) }
{
    good_logs_refute_their_rules();
    let enabled = parted.held_and(setting.alloc, &[rule])?;
    match run_with(setting, core, ledger, &enabled)? {
        Verdict::Sat(_) => {
            parted.hold(&[rule]);
            Ok(Some(false))
        }
        Verdict::Unsat(log) => {
            parted.leave(RefutedRule { rule, log })?;
            Ok(Some(true))
        }
        Verdict::Spent => Ok(None),
    }
}

/// Decides these open rules one by one until one is dropped, and else drops the last one without a run: they and what is held to are all that its derivation
/// rests on. Whether the ledger is not spent.
fn drop_before(
    setting: &Setting<'_>,
    core: &mut Core<'_>,
    ledger: &mut Ledger,
    parted: &mut Parted,
    some: &[usize],
    last: RefutedRule,
) -> Result<bool, AllocError>
    requires may_run { MayRun setting.now core.old ledger.old }
    requires parted { IsPartedOf setting.now core.old.made parted.old }
    requires opened { (k : ℕ) → is_among (some.now ++ last.rule ∷ []) k ≡ true → is_enabled parted.old.open.items k ≡ true }
    requires once { is_once (some.now ++ last.rule ∷ []) ≡ true }
    requires refuted { (r : Request) → IsOf r setting.now core.old.made → IsRefutedOn r core.old.made (and_some parted.old (some.now ++ last.rule ∷ [])) last.log }
    ensures has_run { HasRun setting.now (open_count parted.old) core.old core.new ledger.old ledger.new }
    ensures spent { IfOk result (λ on. not on ≡ is_spent ledger.new) }
    ensures parted { IfOk result (λ on. on ≡ true → KeepsParted setting.now core.old.made parted.old parted.new) }
    ensures fewer { IfOk result (λ on. on ≡ true → open_count parted.new < open_count parted.old) }
    ensures runs { IfOk result (λ on. on ≡ true → HasRun setting.now (open_count parted.old - open_count parted.new) core.old core.new ledger.old ledger.new) }
{
    for rule in some {
        match decide(setting, core, ledger, parted, *rule)? {
            Some(gone) => {
                if gone {
                    return Ok(true);
                }
            }
            None => return Ok(false),
        }
    }
    parted.leave(last)?;
    Ok(true)
}

/// Drops one of the open rules of a core: of what is held to and all that is open, which has no set. Whether the ledger is not spent.
fn drop_one_of(
    setting: &Setting<'_>,
    core: &mut Core<'_>,
    ledger: &mut Ledger,
    parted: &mut Parted,
    log: Log,
) -> Result<bool, AllocError>
    requires may_run { MayRun setting.now core.old ledger.old }
    requires parted { IsPartedOf setting.now core.old.made parted.old }
    requires refuted { (r : Request) → IsOf r setting.now core.old.made → IsRefutedOn r core.old.made (is_left parted.old) log }
    ensures has_run { HasRun setting.now (open_count parted.old) core.old core.new ledger.old ledger.new }
    ensures spent { IfOk result (λ on. not on ≡ is_spent ledger.new) }
    ensures parted { IfOk result (λ on. on ≡ true → KeepsParted setting.now core.old.made parted.old parted.new) }
    ensures fewer { IfOk result (λ on. on ≡ true → open_count parted.new < open_count parted.old) }
    ensures runs { IfOk result (λ on. on ≡ true → HasRun setting.now (open_count parted.old - open_count parted.new) core.old core.new ledger.old ledger.new) }
{
    good_logs_refute_their_rules();
    let rules = droppable_of(setting.alloc, setting.book, setting.fixed, &log)?;
    let mut some = parted.open_among(setting.alloc, &rules)?;
    match some.pop() {
        Some(rule) => drop_before(
            setting,
            core,
            ledger,
            parted,
            &some,
            RefutedRule { rule, log },
        ),
        None => unreachable!(),
    }
}

/// One run of what is held to, unless there is a pause. What it refutes of these clauses' rules is dropped, and what its set meets is held to. Whether
/// the ledger is not spent.
fn look(
    setting: &Setting<'_>,
    core: &mut Core<'_>,
    ledger: &mut Ledger,
    clauses: &[RuleNo],
    parted: &mut Parted,
) -> Result<bool, AllocError>
    requires may_run { MayRun setting.now core.old ledger.old }
    requires parted { IsPartedOf setting.now core.old.made parted.old }
    ensures has_run { HasRun setting.now 1 core.old core.new ledger.old ledger.new }
    ensures spent { IfOk result (λ on. not on ≡ is_spent ledger.new) }
    ensures parted { IfOk result (λ on. on ≡ true → KeepsParted setting.now core.old.made parted.old parted.new) }
    ensures few { IfOk result (λ on. on ≡ true → open_count parted.new ≤ open_count parted.old) }
{
    good_logs_refute_their_rules();
    if parted.looks.left_out > 0 {
        parted.looks = parted.looks.without_one();
        return Ok(true);
    }
    match run_and_probe(setting, core, ledger, &parted.held, clauses)? {
        Probed::Sat(trail, refuted) => {
            parted.take_in(setting, core, &trail, refuted)?;
            Ok(true)
        }
        Probed::Unsat(_) => unreachable!(),
        Probed::Spent => Ok(false),
    }
}

/// Drops a rule of a core, and looks what else is decided with it. Whether the ledger is not spent.
fn drop_next(
    setting: &Setting<'_>,
    core: &mut Core<'_>,
    ledger: &mut Ledger,
    clauses: &[RuleNo],
    parted: &mut Parted,
    log: Log,
) -> Result<bool, AllocError>
    requires may_run { MayRun setting.now core.old ledger.old }
    requires parted { IsPartedOf setting.now core.old.made parted.old }
    requires refuted { (r : Request) → IsOf r setting.now core.old.made → IsRefutedOn r core.old.made (is_left parted.old) log }
    ensures has_run { HasRun setting.now (open_count parted.old + open_count parted.old) core.old core.new ledger.old ledger.new }
    ensures spent { IfOk result (λ on. not on ≡ is_spent ledger.new) }
    ensures parted { IfOk result (λ on. on ≡ true → KeepsParted setting.now core.old.made parted.old parted.new) }
    ensures fewer { IfOk result (λ on. on ≡ true → open_count parted.new < open_count parted.old) }
    ensures runs { IfOk result (λ on. on ≡ true → HasRun setting.now ((open_count parted.old - open_count parted.new) + 1) core.old core.new ledger.old ledger.new) }
{
    if !drop_one_of(setting, core, ledger, parted, log)? {
        return Ok(false);
    }
    let on = look(setting, core, ledger, clauses, parted)?;
    Ok(on)
}

/// Runs over what is held to and open, and after each one that is refuted drops a rule of its core, until a set is found. Nothing, where the ledger is spent.
pub fn correct(
    setting: &Setting<'_>,
    core: &mut Core<'_>,
    ledger: &mut Ledger,
    clauses: &[RuleNo],
    parted: &mut Parted,
) -> Result<Option<Trail>, AllocError>
    requires may_run { MayRun setting.now core.old ledger.old }
    requires parted { IsPartedOf setting.now core.old.made parted.old }
    ensures has_run { HasRun setting.now (most_out (open_count parted.old)) core.old core.new ledger.old ledger.new }
    ensures spent { IfOk result (λ o. is_none o ≡ is_spent ledger.new) }
    ensures corrected { (r : Request) (firm : ℕ → Bool) (rules : List ℕ) → IsOf r setting.now core.old.made → IsParted r core.old.made setting.now.fixed.now firm rules parted.old → IfOk result (λ o. IfSome o (IsCorrected r core.old.made setting.now.fixed.now firm rules parted.new)) }
{
    good_logs_refute_their_rules();
    loop {
        let left = parted.left(setting.alloc)?;
        match run_with(setting, core, ledger, &left)? {
            Verdict::Sat(trail) => return Ok(Some(trail)),
            Verdict::Unsat(log) => {
                if !drop_next(setting, core, ledger, clauses, parted, log)? {
                    return Ok(None);
                }
            }
            Verdict::Spent => return Ok(None),
        }
    }
}
