//! A proof judged against its round.
ghost use Rattle.std.specs.Prelude.{◌≡◌, ◌≤◌, true, None, length, slice_get, IfOk, IfNone, IfSome, IsSomeAnd};
ghost use Rattle.solv_derive.specs.Range.{steps_over};
ghost use Rattle.solv_script.specs.Rounds.{tasks};
ghost use Rattle.solv_verdicts.specs.Verdicts.{of_round};
ghost use Rattle.solv_proof_run.specs.Inner.Rounds.{IsHeldFor, IsPlaceOf, IsReady, IsVerdictOf, IsVerdictOn};

use solv_answers::Prepared;
use solv_derive::Scratch;
use solv_proof::Proof;
use solv_rounds::{prepare_round, to_front};
use solv_rules::BookFault;
use solv_script::Script;
use solv_verdicts::{Verdict, judge};
use std::alloc::{AllocError, Global};

/// The book of a round, which serves as long as proofs of this round come.
#[derive(Drop)]
pub(crate) struct InHand<'a> {
    /// The round's place, where 0 is the first one's.
    pub(crate) place: usize,
    pub(crate) prepared: Prepared<'a>,
}

/// The verdict on a proof, and the book that is in hand then.
#[derive(Drop)]
pub(crate) struct Judgement<'a> {
    pub(crate) verdict: Verdict,
    pub(crate) hand: InHand<'a>,
}

/// The place of the round of this number, if the script has it.
fn place_of(script: &Script, round: usize) -> Option<usize>
    ensures some { IfSome result (IsPlaceOf script.now round) }
    ensures none { IfNone result (of_round (tasks script.now) round ≡ None) }
{
    if round == 0 {
        return None;
    }
    let place = round - 1;
    if place > script.later.len() {
        return None;
    }
    Some(place)
}

/// The book of the round at this place: the one in hand, or that which takes its place.
fn take_up<'a>(
    alloc: Global,
    script: &mut Script,
    hand: InHand<'a>,
    place: usize,
) -> Result<InHand<'a>, AllocError>
    requires ready { IsReady script.old }
    requires hand { IsHeldFor script.old hand }
    requires place { place ≤ length script.old.later }
    ensures script { script.new ≡ script.old }
    ensures hand { IfOk result (IsHeldFor script.old) }
    ensures place { IfOk result (λ hand. hand.place ≡ place) }
{
    if hand.place == place {
        return Ok(hand);
    }
    let InHand { place: _, prepared } = hand;
    match prepare_round(alloc, script, prepared, place) {
        Ok(prepared) => Ok(InHand { place, prepared }),
        Err(BookFault::Memory) => Err(AllocError),
        Err(_) => unreachable!(),
    }
}

/// The verdict on a proof of the round whose book is in hand.
fn judge_in(
    alloc: Global,
    script: &mut Script,
    hand: &InHand<'_>,
    proof: &Proof,
    scratch: &mut Scratch,
) -> Result<Verdict, AllocError>
    requires hand { IsHeldFor script.old hand.now }
    requires packages { length script.old.task.universe.packages ≤ scratch.old }
    requires steps { steps_over scratch.old proof.now.log.steps ≡ true }
    ensures script { script.new ≡ script.old }
    ensures verdict { IfOk result (λ verdict. IsSomeAnd (slice_get (tasks script.old) hand.now.place) (λ task. IsVerdictOn task proof.now verdict)) }
    ensures scratch { scratch.new ≡ scratch.old }
{
    to_front(script, hand.place);
    let verdict = judge(alloc, &script.task, &hand.prepared.book, proof, scratch);
    to_front(script, hand.place);
    verdict
}

/// The verdict on a proof of the round at this place.
fn judge_at<'a>(
    alloc: Global,
    script: &mut Script,
    hand: InHand<'a>,
    place: usize,
    proof: &Proof,
    scratch: &mut Scratch,
) -> Result<Judgement<'a>, AllocError>
    requires ready { IsReady script.old }
    requires hand { IsHeldFor script.old hand }
    requires place { place ≤ length script.old.later }
    requires packages { length script.old.task.universe.packages ≤ scratch.old }
    requires steps { steps_over scratch.old proof.now.log.steps ≡ true }
    ensures script { script.new ≡ script.old }
    ensures verdict { IfOk result (λ judged. IsSomeAnd (slice_get (tasks script.old) place) (λ task. IsVerdictOn task proof.now judged.verdict)) }
    ensures hand { IfOk result (λ judged. IsHeldFor script.old judged.hand) }
    ensures scratch { scratch.new ≡ scratch.old }
{
    let hand = take_up(alloc, script, hand, place)?;
    let verdict = judge_in(alloc, script, &hand, proof, scratch)?;
    Ok(Judgement { verdict, hand })
}

/// The verdict on a proof against its round, or that the script does not have that round.
pub(crate) fn judge_one<'a>(
    alloc: Global,
    script: &mut Script,
    hand: InHand<'a>,
    proof: &Proof,
    scratch: &mut Scratch,
) -> Result<Judgement<'a>, AllocError>
    requires ready { IsReady script.old }
    requires hand { IsHeldFor script.old hand }
    requires packages { length script.old.task.universe.packages ≤ scratch.old }
    requires steps { steps_over scratch.old proof.now.log.steps ≡ true }
    ensures script { script.new ≡ script.old }
    ensures verdict { IfOk result (λ judged. IsVerdictOf (tasks script.old) proof.now judged.verdict) }
    ensures hand { IfOk result (λ judged. IsHeldFor script.old judged.hand) }
    ensures scratch { scratch.new ≡ scratch.old }
{
    match place_of(script, proof.round) {
        Some(place) => judge_at(alloc, script, hand, place, proof, scratch),
        None => Ok(Judgement {
            verdict: Verdict::NoRound,
            hand,
        }),
    }
}
